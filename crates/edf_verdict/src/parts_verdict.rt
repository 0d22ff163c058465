//! What a check of several exports of one original says.

use crate::verdict::Verdict;

/// What a check of several exports, one after the other, says of them together.
#[derive(Debug, Drop, PartialEq, Eq)]
pub struct PartsVerdict {
    /// Of which export it is said, counted from 0: that of a fault of an export, of a difference of its header, or of
    /// one that begins early. It is 0 where it is said of all together, of the original or of the claim.
    pub part: u16,
    /// What is said. A Yes has the channels of the claim, and the samples and annotations of all exports.
    pub verdict: Verdict,
}
