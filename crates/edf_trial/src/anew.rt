//! A check of two recordings that are opened anew.

ghost use Rattle.std.specs.Prelude.{IfOk, IsTrue};
ghost use Rattle.edf_check.specs.Runs.{IsVerdictUnder};

use crate::recordings::Recordings;
use edf_check::judge;
use edf_stop::RunStop;
use edf_verdict::Verdict;
use std::alloc::Global;

/// Opens both recordings anew, and checks the export against the original under the claim that a text says.
///
/// The verdict is that of `edf_check::check`. The error is that the text says no claim, want of memory, or a failed
/// read.
pub fn check_anew<R: Recordings>(
    alloc: Global,
    recordings: &R,
    claim_text: &[u8],
) -> Result<Verdict, RunStop>
    ensures { IfOk result (λ verdict. IsTrue (R.are_honest recordings.now) →
        IsVerdictUnder (R.original recordings.now) (R.export recordings.now) claim_text.now verdict) }
{
    let mut original = recordings.open_original()?;
    let mut export = recordings.open_export()?;
    judge(alloc, &mut original, &mut export, claim_text)
}
