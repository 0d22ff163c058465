//! Whether a number is spelled in its plain way: with no needless sign, zero or dot, and with one digit at least
//! before a dot. Which spelling is the plain one is this project's profile.

ghost use Rattle.std.specs.Prelude.{◌≡◌, ◌==◌, ◌<◌, length, slice_index, IfSome};
ghost use Rattle.std.specs.List.{position};
ghost use Rattle.edf_fields.specs.texts.Numbers.{has_minus, unsigned as unsigned_of};
ghost use Rattle.edf_layout.specs.PlainNumbers.{is_plain_whole as is_whole, is_plain_fraction as is_fraction, is_plain_unsigned as is_unsigned, is_plain_number as is_plain};

/// Whether there is at least one digit, and no zero before others.
fn is_plain_whole(digits: &[u8]) -> bool
    ensures { result ≡ is_whole digits.now }
{
    !digits.is_empty() && (digits.len() <= 1 || digits[0] != b'0')
}

/// Whether there is at least one digit, and no zero behind the others.
fn is_plain_fraction(digits: &[u8]) -> bool
    ensures { result ≡ is_fraction digits.now }
{
    !digits.is_empty() && digits[digits.len() - 1] != b'0'
}

/// The place of the first dot.
fn dot_place(text: &[u8]) -> Option<usize>
    ensures place { result ≡ position (λ b. b == 46) text.now }
    ensures within { IfSome result (λ k. k < length text.now) }
{
    text.iter().position(|byte| *byte == b'.')
}

/// Whether a number without a sign is spelled in its plain way.
#[tactic(auto, using(edf_fields::proofs::ForCallers::before_at, edf_fields::proofs::ForCallers::behind_at, edf_fields::proofs::ForCallers::before_none), unfolding(crate::specs::PlainNumbers::is_plain_unsigned))]
pub(crate) fn is_plain_unsigned(text: &[u8]) -> bool
    ensures { result ≡ is_unsigned text.now }
{
    match dot_place(text) {
        Some(dot) => is_plain_whole(&text[..dot]) && is_plain_fraction(&text[dot + 1..]),
        None => is_plain_whole(text),
    }
}

/// What stands behind a sign, or the whole text where there is none.
fn unsigned(text: &[u8]) -> &[u8]
    ensures { result.now ≡ unsigned_of text.entry.now }
{
    match text {
        [b'-' | b'+', rest @ ..] => rest,
        _ => text,
    }
}

/// Whether the text begins with this byte.
pub(crate) fn begins_with(text: &[u8], byte: u8) -> bool
    requires { 0 < byte }
    ensures { result ≡ (slice_index text.now 0 == byte) }
{
    !text.is_empty() && text[0] == byte
}

/// Whether the text of a number in a header is spelled in its plain way.
///
/// It begins with no plus, and 0 has no minus. There is one digit at least before a dot and behind it, no zero
/// before other digits of a whole part, and none at the end of a fraction.
#[tactic(auto, unfolding(crate::specs::PlainNumbers::is_plain_number))]
pub fn is_plain_number(text: &[u8]) -> bool
    ensures { result ≡ is_plain text.now }
{
    let digits = unsigned(text);
    !begins_with(text, b'+')
        && is_plain_unsigned(digits)
        && !(begins_with(text, b'-') && digits == b"0".as_slice())
}
