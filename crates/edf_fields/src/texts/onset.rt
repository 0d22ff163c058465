//! The onset and the duration of an annotation, in picoseconds.
//!
//! Both are decimals of seconds with a dot (EDF+, "Time-stamped Annotations Lists (TALs) in an
//! 'EDF Annotations' signal"). Zeros in front of the seconds and at the end of the fraction don't
//! count; that 9 digits of seconds and 12 of the fraction may be left is this project's profile.
ghost use Rattle.std.specs.Prelude.{◌≡◌, ℤ, ◌+◌, ◌-◌, ◌*◌, ◌≤◌, ◌<◌, ◌≤ℤ◌, ◌^◌, pos, drop, length, take, IsTrue, MatchOption, IfSome, unsigned_abs};
ghost use Rattle.edf_fields.specs.texts.Numbers.{weight, has_minus, signed, has_sign};
ghost use Rattle.edf_fields.specs.texts.Onsets.{SpellsOnset};
ghost use Rattle.edf_fields.specs.texts.OnsetsReading.{AreDigitsBefore, onset_of, span_of, AreSeconds, IsFraction, SpellsSpan, without_leading_zeros, without_trailing_zeros, IsTimeRead, time_read, ReadsOnset, ReadsSpan};

use crate::texts::number::{digits, split_dot};

/// One second, in picoseconds.
pub const SECOND_PS: i128 = 1_000_000_000_000;

/// One day, in picoseconds.
pub const DAY_PS: i128 = 86_400 * SECOND_PS;

/// How many zeros stand in front.
#[tactic(auto, using(crate::proofs::texts::ZeroFacts::leading_zero, crate::proofs::texts::ZeroFacts::leading_digit, crate::proofs::texts::ZeroFacts::leading_end))]
fn leading_zeros(bytes: &[u8]) -> usize
    ensures rest { drop result bytes.now ≡ without_leading_zeros bytes.now }
    ensures within { result ≤ length bytes.now }
{
    let mut start = 0;
    while start < bytes.len() && bytes[start] == b'0' {
        start += 1;
    }
    start
}

/// The bytes without the zeros in front.
#[tactic(auto, using(crate::proofs::ReadFacts::rest_whole))]
fn without_leading_zeros(bytes: &[u8]) -> &[u8]
    ensures { result.now ≡ without_leading_zeros bytes.entry.now }
{
    &bytes[leading_zeros(bytes)..]
}

/// How many bytes stand before the zeros at the end.
#[tactic(auto, using(crate::proofs::texts::ZeroFacts::trailing_zero, crate::proofs::texts::ZeroFacts::trailing_digit))]
fn len_before_zeros(bytes: &[u8]) -> usize
    ensures front { take result bytes.now ≡ without_trailing_zeros bytes.now }
    ensures within { result ≤ length bytes.now }
{
    let mut end = bytes.len();
    while end > 0 && bytes[end - 1] == b'0' {
        end -= 1;
    }
    end
}

/// The bytes without the zeros at their end.
fn without_trailing_zeros(bytes: &[u8]) -> &[u8]
    ensures { result.now ≡ without_trailing_zeros bytes.entry.now }
{
    &bytes[..len_before_zeros(bytes)]
}

/// The seconds that digits spell; none where there is no digit, where a byte is no digit, and
/// where more than 9 digits stand behind the zeros in front.
#[tactic(auto, using(crate::proofs::texts::OnsetFacts::seconds_read))]
fn whole_seconds(bytes: &[u8]) -> Option<u64>
    ensures { MatchOption result (¬ AreSeconds bytes.now)
        (λ v. AreSeconds bytes.now × (v ≡ weight (without_leading_zeros bytes.now)) × (v < 10 ^ 9)) }
{
    let rest = without_leading_zeros(bytes);
    if bytes.is_empty() || rest.len() > 9 {
        return None;
    }
    digits(rest)
}

/// Ten to the power of this exponent.
fn power_of_ten(exponent: usize) -> u64
    requires { exponent ≤ 12 }
    ensures { result ≡ 10 ^ exponent }
{
    match exponent {
        0 => 1,
        1 => 10,
        2 => 100,
        3 => 1_000,
        4 => 10_000,
        5 => 100_000,
        6 => 1_000_000,
        7 => 10_000_000,
        8 => 100_000_000,
        9 => 1_000_000_000,
        10 => 10_000_000_000,
        11 => 100_000_000_000,
        _ => 1_000_000_000_000,
    }
}

/// `fraction`, which has that many decimal places, in picoseconds.
#[tactic(auto, using(crate::proofs::texts::ZeroFacts::fraction_under))]
fn in_picoseconds(fraction: u64, places: usize) -> u64
    requires places { places ≤ 12 }
    requires fraction { fraction < 10 ^ places }
    ensures value { result ≡ fraction * 10 ^ (12 - places) }
    ensures small { result < 10 ^ 12 }
{
    fraction * power_of_ten(12 - places)
}

/// The picoseconds that the digits behind a dot spell; none where a byte is no digit, and where
/// more than 12 digits stand before the zeros at the end.
#[tactic(auto, using(crate::proofs::texts::OnsetFacts::fraction_missing, crate::proofs::texts::OnsetFacts::fraction_read))]
fn fraction_picoseconds(bytes: &[u8]) -> Option<u64>
    ensures { MatchOption result (¬ IsFraction bytes.now) (λ v. IsFraction bytes.now ×
        (v ≡ weight (without_trailing_zeros bytes.now) * 10 ^
        (12 - length (without_trailing_zeros bytes.now))) × (v < 10 ^ 12)) }
{
    let front = without_trailing_zeros(bytes);
    if front.len() > 12 {
        return None;
    }
    let fraction = digits(front)?;
    Some(in_picoseconds(fraction, front.len()))
}

/// So many seconds and picoseconds, in picoseconds.
fn joined(seconds: u64, picoseconds: u64) -> u128
    requires seconds { seconds < 10 ^ 9 }
    requires picoseconds { picoseconds < 10 ^ 12 }
    ensures value { result ≡ seconds * 10 ^ 12 + picoseconds }
    ensures small { result < 10 ^ 21 }
{
    u128::from(seconds) * SECOND_PS as u128 + u128::from(picoseconds)
}

/// The time that a text with no sign spells, as `time`, by its two parts.
#[tactic(auto, using(crate::proofs::texts::OnsetFacts::dot_stands))]
fn time_by_parts(text: &[u8]) -> Option<u128>
    ensures { MatchOption result (¬ IsTimeRead text.now)
        (λ v. IsTimeRead text.now × (v ≡ time_read text.now) × (v < 10 ^ 21)) }
{
    let (whole, fraction) = split_dot(text);
    if fraction.is_empty() && whole.len() < text.len() {
        return None;
    }
    let seconds = whole_seconds(whole)?;
    let picoseconds = fraction_picoseconds(fraction)?;
    Some(joined(seconds, picoseconds))
}

/// The digits in front of a text, 9 at most, and the seconds that they spell.
#[derive(Clone, Copy)]
struct Front {
    count: usize,
    seconds: u64,
}

/// The digits in front of a text, 9 at most.
fn digit_front(text: &[u8]) -> Front
    ensures within { result.count ≤ length text.now }
    ensures few { result.count ≤ 9 }
    ensures digits { AreDigitsBefore result.count text.now }
    ensures seconds { result.seconds ≡ weight (take result.count text.now) }
    ensures small { result.seconds < 10 ^ result.count }
{
    let most = text.len().min(9);
    let mut seconds = 0u64;
    let mut count = 0;
    while count < most && text[count].is_ascii_digit() {
        seconds = seconds * 10 + u64::from(text[count] - b'0');
        count += 1;
    }
    Front { count, seconds }
}

/// The time that a text with no sign spells, in picoseconds; none where it spells none.
///
/// Most texts have at most 9 digits, and maybe a dot behind them: these are gone through once.
fn time(text: &[u8]) -> Option<u128>
    ensures { MatchOption result (¬ IsTimeRead text.now)
        (λ v. IsTimeRead text.now × (v ≡ time_read text.now) × (v < 10 ^ 21)) }
{
    let front = digit_front(text);
    if front.count == 0 {
        return time_by_parts(text);
    }
    if front.count == text.len() {
        return Some(joined(front.seconds, 0));
    }
    if text[front.count] != b'.' || front.count + 1 == text.len() {
        return time_by_parts(text);
    }
    match fraction_picoseconds(&text[front.count + 1..]) {
        Some(picoseconds) => Some(joined(front.seconds, picoseconds)),
        None => None,
    }
}

/// Whether a minus stands in front, and what stands behind the sign; none where no sign does.
fn behind_sign(text: &[u8]) -> Option<(bool, &[u8])>
    ensures { MatchOption result (¬ IsTrue (has_sign text.entry.now))
        (λ x. IsTrue (has_sign text.entry.now)
        × (x.0 ≡ has_minus text.entry.now)
        × (x.1.now ≡ drop 1 text.entry.now)) }
{
    match text {
        [b'-', rest @ ..] => Some((true, rest)),
        [b'+', rest @ ..] => Some((false, rest)),
        _ => None,
    }
}

/// The time with its sign.
fn with_sign(is_negative: bool, time: u128) -> i128
    requires { time < 10 ^ 21 }
    ensures value { result ≡ signed is_negative time }
    ensures size { unsigned_abs result ≡ time }
{
    let time = time as i128;
    if is_negative { -time } else { time }
}

/// The onset that a text spells, as `onset`.
fn onset_of_text(text: &[u8]) -> Option<i128>
    ensures read { MatchOption result ((v : ℤ) → ¬ ReadsOnset text.now v) (ReadsOnset text.now) }
    ensures small { IfSome result (λ v. unsigned_abs v < 10 ^ 21) }
{
    let (is_negative, rest) = behind_sign(text)?;
    let size = time(rest)?;
    Some(with_sign(is_negative, size))
}

/// The duration that a text spells, as `span`.
fn span_of_text(text: &[u8]) -> Option<i128>
    ensures read { MatchOption result ((v : ℤ) → ¬ ReadsSpan text.now v) (ReadsSpan text.now) }
    ensures small { IfSome result (λ v. unsigned_abs v < 10 ^ 21) }
    ensures not_negative { IfSome result (λ v. pos 0 ≤ℤ v) }
{
    let size = time(text)?;
    Some(size as i128)
}

/// The onset that a text spells, in picoseconds (10^-12 s): `-1.50` is -1,500,000,000,000.
///
/// The text is a `+` or a `-`, at least one digit, and maybe a dot with at least one digit behind
/// it (EDF+, "Time-stamped Annotations Lists (TALs) in an 'EDF Annotations' signal"). Zeros in
/// front of the whole part and at the end of the fraction don't count, and of what is left the
/// whole part has at most 9 digits and the fraction at most 12. Any other text spells none. The
/// text may have any length.
#[tactic(auto, using(crate::proofs::texts::OnsetFacts::onset_read, crate::proofs::texts::TimeFacts::onset_spelled))]
pub fn onset(text: &[u8]) -> Option<i128>
    ensures spelled { MatchOption result ((v : ℤ) → ¬ SpellsOnset text.now v) (SpellsOnset text.now) }
    ensures value { result ≡ onset_of text.now }
    ensures small { IfSome result (λ v. unsigned_abs v < 10 ^ 21) }
{
    onset_of_text(text)
}

/// The duration that a text spells, in picoseconds (10^-12 s): `000.25` is 250,000,000,000.
///
/// The text is as for `onset`, but has no sign; any other text spells none.
#[tactic(auto, using(crate::proofs::texts::OnsetFacts::span_read, crate::proofs::texts::TimeFacts::span_spelled))]
pub fn span(text: &[u8]) -> Option<i128>
    ensures spelled { MatchOption result ((v : ℤ) → ¬ SpellsSpan text.now v) (SpellsSpan text.now) }
    ensures value { result ≡ span_of text.now }
    ensures small { IfSome result (λ v. unsigned_abs v < 10 ^ 21) }
    ensures not_negative { IfSome result (λ v. pos 0 ≤ℤ v) }
{
    span_of_text(text)
}
