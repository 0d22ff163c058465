//! What is asked.

ghost use Rattle.std.specs.Prelude.{IfErr, IfOk};
ghost use Rattle.edf_claim.specs.Claims.{SaysClaimText};
ghost use Rattle.edf_findings.specs.ClaimStops.{ClaimStops};

use edf_claim::{Claim, ClaimStop};
use edf_stop::PartsRunStop;
use std::alloc::Global;

/// What is asked: a claim, a text that says it, and whether texts of annotations are wanted that it removes or blanks.
#[derive(Clone, Copy)]
pub struct Wanted<'t, 'c> {
    pub claim_text: &'t [u8],
    pub claim: &'c Claim,
    pub hidden: bool,
    ghost says: { ∥ SaysClaimText claim_text.now claim.now ∥₁ },
}

/// The claim that a text says, before several exports are checked under it.
///
/// The error is the first fault of the text, or want of memory.
pub fn claim_of(alloc: Global, text: &[u8]) -> Result<Claim, PartsRunStop>
    ensures says { IfOk result (SaysClaimText text.now) }
    ensures stop { IfErr result (ClaimStops text.now) }
{
    match Claim::read(alloc, text) {
        Ok(claim) => Ok(claim),
        Err(cause) if cause != ClaimStop::OutOfMemory => Err(PartsRunStop::Claim(cause)),
        Err(_) => Err(PartsRunStop::OutOfMemory),
    }
}
