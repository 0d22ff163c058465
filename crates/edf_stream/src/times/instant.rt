//! Instants as exact fractions of a picosecond.

/// The instant `num / den` picoseconds after an origin.
///
/// A sample of a channel with `den` samples a data record stands at such a fraction; it is never
/// rounded, and two instants are never brought to a common denominator.
#[derive(Debug, Clone, Copy, PartialEq, Eq)]
pub struct Instant {
    pub num: i128,
    pub den: u32,
}
