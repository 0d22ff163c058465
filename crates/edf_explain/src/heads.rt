//! The headers of two files, and the claim on them.

use edf_claim::Claim;
use edf_findings::{Findings, PartFindings};
use edf_header::Header;

/// Both headers, and the claim.
#[derive(Clone, Copy)]
pub(crate) struct Heads<'a> {
    pub(crate) original: &'a Header,
    pub(crate) export: &'a Header,
    pub(crate) claim: &'a Claim,
}

impl<'a> Heads<'a> {
    /// Those of the original and one of the exports in which this was found.
    pub(crate) fn of(seen: &'a Findings<'_>, part: &'a PartFindings) -> Heads<'a> {
        Heads {
            original: seen.original_header(),
            export: part.header(),
            claim: seen.claim(),
        }
    }
}
