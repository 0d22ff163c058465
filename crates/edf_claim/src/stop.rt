//! Why a claim is refused.

ghost use Rattle.std.specs.Prelude.{◌≡◌};
ghost use Rattle.edf_claim.specs.declared.stop.ClaimStop.TheVariants as stops;

use std::alloc::{AllocError, AllocFailed};
use thiserror::Error;

/// Why a claim is refused: of several causes the first, in the order in which they stand here.
#[derive(Debug, Clone, Copy, PartialEq, Eq, Error)]
pub enum ClaimStop {
    /// Memory ran out.
    #[error("OutOfMemory")]
    OutOfMemory,
    /// The text has more than 65,536 bytes.
    #[error("TooLong")]
    TooLong,
    /// The text isn't UTF-8, or no TOML.
    #[error("NotToml")]
    NotToml,
    /// The format isn't the integer 1 or 2.
    #[error("BadFormat")]
    BadFormat,
    /// A key at the top isn't one of a claim's of its format.
    #[error("UnknownKey")]
    UnknownKey,
    /// The channels aren't an array of distinct labels, at least one.
    #[error("BadChannels")]
    BadChannels,
    /// What is kept isn't an array of 1 to 1,000 intervals in order.
    #[error("BadKeep")]
    BadKeep,
    /// What is made anonymous isn't an array of distinct names.
    #[error("BadAnonymous")]
    BadAnonymous,
    /// The shift isn't an integer from -10,000,000,000 to 10,000,000,000.
    #[error("BadShift")]
    BadShift,
    /// What is removed isn't an array of distinct texts.
    #[error("BadRemove")]
    BadRemove,
    /// What is removed by its begin isn't an array of distinct texts, none of them empty.
    #[error("BadRemovePrefix")]
    BadRemovePrefix,
    /// What is blanked isn't an array of distinct texts.
    #[error("BadBlank")]
    BadBlank,
}

impl From<AllocError> for ClaimStop {
    ghost from_gives = { λ _ e. e ≡ stops.OutOfMemory };

    fn from(_error: AllocError) -> ClaimStop {
        ClaimStop::OutOfMemory
    }
}

impl<T: Drop> From<AllocFailed<T>> for ClaimStop {
    ghost from_gives = { λ _ e. e ≡ stops.OutOfMemory };

    fn from(_error: AllocFailed<T>) -> ClaimStop {
        ClaimStop::OutOfMemory
    }
}
