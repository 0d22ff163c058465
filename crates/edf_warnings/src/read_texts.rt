//! Whose texts are read.

use edf_claim::Claim;
use edf_findings::{Notes, PartFindings};
use edf_header::Header;

/// An original, its exports and a claim, whose texts are read: the claim, the headers, and the annotations.
#[derive(Clone, Copy)]
pub struct ReadTexts<'a> {
    pub claim: &'a Claim,
    pub original: &'a Header,
    /// That of the first export, or of the only one.
    pub export: &'a Header,
    /// The exports behind it.
    pub others: &'a [PartFindings],
    pub notes: &'a Notes,
}
