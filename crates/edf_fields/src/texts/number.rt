//! Parts of a file, the texts of its fields, and the numbers that they spell.
//!
//! The fields of a header are ASCII, stand to the left and are filled with spaces (EDF, "Header
//! record"). Which texts spell a number is this project's profile of EDF and EDF+: plain decimals
//! with a dot, no exponent, no comma and no space in front.
ghost use Rattle.std.specs.Prelude.{◌≡◌, ℤ, ◌+◌, ◌-◌, ◌*◌, ◌≤◌, ◌<◌, ◌^◌, length, take, MatchOption, IfSome, unsigned_abs, ◌==◌};
ghost use Rattle.std.specs.List.{position};
ghost use Rattle.edf_fields.specs.Parts.{part, text_of};
ghost use Rattle.edf_fields.specs.texts.Numbers.{AreDigits, IsDecimal, weight, decimal, before_dot, behind_dot, has_minus, unsigned, signed};
ghost use Rattle.edf_fields.specs.texts.NumbersReading.{header_number_of, whole_number_of, SpellsHeaderNumber, SpellsWholeNumber};

/// The `count` bytes from place `at` on.
pub fn bytes_at(bytes: &[u8], at: usize, count: usize) -> &[u8]
    requires { at + count ≤ length bytes.now }
    ensures value { result.now ≡ part bytes.entry.now at count }
    ensures len { length result.now ≡ count }
{
    &bytes[at..][..count]
}

/// How many bytes stand before the spaces at the end.
fn text_len(field: &[u8]) -> usize
    ensures text { take result field.now ≡ text_of field.now }
    ensures within { result ≤ length field.now }
{
    let mut end = field.len();
    while end > 0 && field[end - 1] == b' ' {
        end -= 1;
    }
    end
}

/// The field without the spaces at its end.
pub fn text(field: &[u8]) -> &[u8]
    ensures text { result.now ≡ text_of field.entry.now }
    ensures within { length result.now ≤ length field.entry.now }
{
    &field[..text_len(field)]
}

/// The number that digits spell; none where a byte is no digit. No digits spell 0.
pub(crate) fn digits(bytes: &[u8]) -> Option<u64>
    requires { length bytes.now ≤ 18 }
    ensures { MatchOption result (¬ AreDigits bytes.now)
        (λ v. AreDigits bytes.now × (v ≡ weight bytes.now) × (v < 10 ^ length bytes.now)) }
{
    let mut value = 0u64;
    for byte in bytes {
        if !byte.is_ascii_digit() {
            return None;
        }
        value = value * 10 + u64::from(*byte - b'0');
    }
    Some(value)
}

/// Whether a minus stands in front, and what stands behind the sign.
fn split_sign(text: &[u8]) -> (bool, &[u8])
    ensures minus { result.0 ≡ has_minus text.entry.now }
    ensures rest { result.1.now ≡ unsigned text.entry.now }
    ensures within { length result.1.now ≤ length text.entry.now }
{
    match text {
        [b'-', rest @ ..] => (true, rest),
        [b'+', rest @ ..] => (false, rest),
        _ => (false, text),
    }
}

/// The place of the first dot.
fn dot_place(text: &[u8]) -> Option<usize>
    ensures place { result ≡ position (λ b. b == 46) text.now }
    ensures within { IfSome result (λ k. k < length text.now) }
{
    text.iter().position(|byte| *byte == b'.')
}

/// What stands before the first dot, and what stands behind it.
#[tactic(auto, using(crate::proofs::texts::DotFacts::before_dot_at, crate::proofs::texts::DotFacts::behind_dot_at, crate::proofs::texts::DotFacts::before_no_dot, crate::proofs::texts::DotFacts::behind_no_dot))]
pub(crate) fn split_dot(text: &[u8]) -> (&[u8], &[u8])
    ensures whole { result.0.now ≡ before_dot text.entry.now }
    ensures fraction { result.1.now ≡ behind_dot text.entry.now }
    ensures within { length result.0.now + length result.1.now ≤ length text.entry.now }
    ensures behind { length result.1.now ≤ length text.entry.now - 1 }
{
    match dot_place(text) {
        Some(dot) => (&text[..dot], &text[dot + 1..]),
        None => (text, &[]),
    }
}

/// `whole` and `fraction`, which has that many decimal places, in units of 10^-7.
#[tactic(auto, using(crate::proofs::texts::DigitFacts::fraction_below))]
fn in_units(whole: u64, fraction: u64, places: u32) -> u64
    requires whole { whole < 10 ^ 8 }
    requires places { places ≤ 7 }
    requires fraction { fraction < 10 ^ places }
    ensures value { result ≡ whole * 10 ^ 7 + fraction * 10 ^ (7 - places) }
    ensures small { result < 10 ^ 15 }
{
    whole * 10_000_000 + fraction * 10u64.pow(7 - places)
}

/// The decimal that a text with no sign is, in units of 10^-7; none where it is no decimal.
fn unsigned_decimal(text: &[u8]) -> Option<u64>
    requires { length text.now ≤ 8 }
    ensures { MatchOption result (¬ IsDecimal text.now) (λ v. IsDecimal text.now ×
        (v ≡ decimal 7 (before_dot text.now) (behind_dot text.now)) × (v < 10 ^ 15)) }
{
    let (whole, fraction) = split_dot(text);
    if whole.is_empty() && fraction.is_empty() {
        return None;
    }
    let whole = digits(whole)?;
    let places = fraction.len() as u32;
    let fraction = digits(fraction)?;
    Some(in_units(whole, fraction, places))
}

/// The number with its sign.
fn with_sign(is_negative: bool, value: u64) -> i64
    requires { value < 10 ^ 15 }
    ensures value { result ≡ signed is_negative value }
    ensures size { unsigned_abs result ≡ value }
{
    let value = value as i64;
    if is_negative { -value } else { value }
}

/// The most bytes of a field that spells a number (EDF, "Header record").
pub const NUMBER_BYTES: usize = 8;

/// Whether the text of a field of at most 8 bytes begins with a minus, and what stands behind the
/// sign; none of a longer field.
fn signed_text(field: &[u8]) -> Option<(bool, &[u8])>
    ensures { MatchOption result (¬ (length field.entry.now ≤ 8))
        (λ x. (length field.entry.now ≤ 8)
        × (x.0 ≡ has_minus (text_of field.entry.now))
        × (x.1.now ≡ unsigned (text_of field.entry.now))
        × (length x.1.now ≤ length field.entry.now)) }
{
    if field.len() > NUMBER_BYTES {
        return None;
    }
    Some(split_sign(text(field)))
}

/// The number that a header's field spells, as `header_number`.
fn decimal_of_field(field: &[u8]) -> Option<i64>
    ensures spelled { MatchOption result ((v : ℤ) →
        ¬ SpellsHeaderNumber field.now v) (SpellsHeaderNumber field.now) }
    ensures small { IfSome result (λ v. unsigned_abs v < 10 ^ 15) }
{
    let (is_negative, rest) = signed_text(field)?;
    let units = unsigned_decimal(rest)?;
    Some(with_sign(is_negative, units))
}

/// The whole number that a header's field spells, as `header_whole`.
fn whole_of_field(field: &[u8]) -> Option<i64>
    ensures spelled { MatchOption result ((v : ℤ) →
        ¬ SpellsWholeNumber field.now v) (SpellsWholeNumber field.now) }
    ensures small { IfSome result (λ v. unsigned_abs v < 10 ^ length field.now) }
{
    let (is_negative, rest) = signed_text(field)?;
    if rest.is_empty() {
        return None;
    }
    let value = digits(rest)?;
    Some(with_sign(is_negative, value))
}

/// The number that a header's field spells, in units of 10^-7: `-100.0` is -1,000,000,000.
///
/// The field has at most 8 bytes. Its text without the spaces at its end is an optional `+` or
/// `-`, digits, and maybe a dot with digits behind it, and it has at least one digit in all; any
/// other field spells none.
#[tactic(auto, using(crate::proofs::texts::NumberFacts::header_number_read))]
pub fn header_number(field: &[u8]) -> Option<i64>
    ensures spelled { MatchOption result ((v : ℤ) →
        ¬ SpellsHeaderNumber field.now v) (SpellsHeaderNumber field.now) }
    ensures value { result ≡ header_number_of field.now }
    ensures small { IfSome result (λ v. unsigned_abs v < 10 ^ 15) }
{
    decimal_of_field(field)
}

/// The whole number that a header's field spells.
///
/// The field has at most 8 bytes. Its text without the spaces at its end is an optional `+` or
/// `-` and at least one digit; any other field spells none.
#[tactic(auto, using(crate::proofs::texts::NumberFacts::whole_number_read))]
pub fn header_whole(field: &[u8]) -> Option<i64>
    ensures spelled { MatchOption result ((v : ℤ) →
        ¬ SpellsWholeNumber field.now v) (SpellsWholeNumber field.now) }
    ensures value { result ≡ whole_number_of field.now }
    ensures small { IfSome result (λ v. unsigned_abs v < 10 ^ length field.now) }
{
    whole_of_field(field)
}
