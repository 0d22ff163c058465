//! What a claim may have at the most.

use edf_claim::MOST_SHIFT_SECONDS;

/// The most seconds by which a claim may move what it keeps, back or on.
pub const MOST_SHIFT: i128 = MOST_SHIFT_SECONDS as i128;
