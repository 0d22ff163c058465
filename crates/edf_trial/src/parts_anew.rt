//! A check of several exports of one original, all of which are opened anew.

ghost use Rattle.std.specs.Prelude.{IfOk, IsTrue};
ghost use Rattle.edf_trial.specs.Parts.{IsPartsAnswer};

use crate::parts_recordings::PartsRecordings;
use edf_check::judge_parts;
use edf_stop::PartsRunStop;
use edf_verdict::PartsVerdict;
use std::alloc::Global;

/// What a check of several exports answers, and how many they are.
#[derive(Drop)]
pub struct PartsAnswer {
    pub verdict: PartsVerdict,
    pub parts: u16,
}

/// Opens the original and all exports anew, and checks these, in the order of time, against the original under the claim that
/// a text says.
///
/// The verdict is that of `edf_check::check_parts`. The error is that the text says no claim, want of memory, or a failed
/// read.
pub fn check_parts_anew<R: PartsRecordings>(
    alloc: Global,
    recordings: &R,
    claim_text: &[u8],
) -> Result<PartsAnswer, PartsRunStop>
    ensures { IfOk result (λ answer. IsTrue (R.are_honest recordings.now) →
        IsPartsAnswer (R.original recordings.now) (R.exports recordings.now) claim_text.now answer) }
{
    let mut original = recordings.open_original()?;
    let mut exports = recordings.open_exports(alloc)?;
    let parts = exports.len() as u16;
    let verdict = judge_parts(alloc, &mut original, &mut exports, claim_text)?;
    Ok(PartsAnswer { verdict, parts })
}
