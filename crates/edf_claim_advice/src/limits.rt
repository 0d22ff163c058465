//! What a claim may have at the most, beside its intervals.

use edf_claim::MOST_SHIFT_SECONDS;

/// The most seconds by which a claim may move what it keeps, back or on.
pub(crate) const MOST_SHIFT: i128 = MOST_SHIFT_SECONDS as i128;

/// The most digits of a time in front of a dot, and behind it.
pub(crate) const MOST_WHOLE: usize = 9;

pub(crate) const MOST_PLACES: usize = 12;

/// The most whole seconds of a time.
pub(crate) const MOST_SECONDS: i64 = 999_999_999;
