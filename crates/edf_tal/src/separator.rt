//! Cutting bytes at a separator.

ghost use Rattle.std.specs.Prelude.{◌≡◌, ◌<◌, ◌==◌, length, MatchOption};
ghost use Rattle.std.specs.List.{position_or_len};
ghost use Rattle.edf_tal.specs.Reading.{until, behind};

use memchr::{memchr, memchr2};

/// What stands before the first `separator`, and what stands behind it; none where there is none.
pub(crate) fn cut(bytes: &[u8], separator: u8) -> Option<(&[u8], &[u8])>
    ensures { MatchOption result (position_or_len (λ b. b == separator) bytes.now ≡ length bytes.now) (λ x.
        (position_or_len (λ b. b == separator) bytes.now < length bytes.now)
        × (x.0.now ≡ until separator bytes.now)
        × (x.1.now ≡ behind separator bytes.now)) }
{
    match bytes.iter().position(|byte| *byte == separator) {
        Some(place) => Some((&bytes[..place], &bytes[place + 1..])),
        None => None,
    }
}

/// The same. Many bytes are looked at together, so this is faster where the separator stands far behind.
#[inline(always)]
pub(crate) fn cut_far(bytes: &[u8], separator: u8) -> Option<(&[u8], &[u8])>
    ensures { MatchOption result (position_or_len (λ b. b == separator) bytes.now ≡ length bytes.now) (λ x.
        (position_or_len (λ b. b == separator) bytes.now < length bytes.now)
        × (x.0.now ≡ until separator bytes.now)
        × (x.1.now ≡ behind separator bytes.now)) }
{
    match memchr(separator, bytes) {
        Some(place) => Some((&bytes[..place], &bytes[place + 1..])),
        None => None,
    }
}

/// As `cut_far`. It doesn't stand in line, as it is seldom called; and as the search for one byte stands where most TALs
/// are cut, this is the one for two.
#[inline(never)]
fn cut_apart(bytes: &[u8], separator: u8) -> Option<(&[u8], &[u8])>
    ensures { MatchOption result (position_or_len (λ b. b == separator) bytes.now ≡ length bytes.now) (λ x.
        (position_or_len (λ b. b == separator) bytes.now < length bytes.now)
        × (x.0.now ≡ until separator bytes.now)
        × (x.1.now ≡ behind separator bytes.now)) }
{
    match memchr2(separator, separator, bytes) {
        Some(place) => Some((&bytes[..place], &bytes[place + 1..])),
        None => None,
    }
}

/// The most bytes in which the separator is looked for byte by byte where it mostly stands near.
const NEAR: usize = 4_096;

/// The same, where the separator mostly stands near.
#[inline(always)]
pub(crate) fn cut_near(bytes: &[u8], separator: u8) -> Option<(&[u8], &[u8])>
    ensures { MatchOption result (position_or_len (λ b. b == separator) bytes.now ≡ length bytes.now) (λ x.
        (position_or_len (λ b. b == separator) bytes.now < length bytes.now)
        × (x.0.now ≡ until separator bytes.now)
        × (x.1.now ≡ behind separator bytes.now)) }
{
    if bytes.len() > NEAR {
        cut_apart(bytes, separator)
    } else {
        cut(bytes, separator)
    }
}
