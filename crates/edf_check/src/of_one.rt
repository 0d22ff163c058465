//! The check of an export against its original and a claim.

ghost use Rattle.std.specs.Prelude.{◌≡◌, IfOk, IfErr, OnOk, IsTrue};
ghost use Rattle.edf_fields.specs.in_out.Sources.{Fails};
ghost use Rattle.edf_check.specs.Checks.{AreRead, AreReadOfTwo, CheckStops, CheckStopsOf, IsHeadlineOfTwo, IsVerdictOfTwo};
ghost use Rattle.edf_check.specs.Headline.{YesMeans};
ghost use Rattle.edf_check.specs.Verdicts.{IsVerdict};
ghost use Rattle.edf_check.specs.parts.Counted.{IsCountedOfTwo, looked_on};

use crate::of_several::{Asked, check_series};
use edf_claim::Claim;
use edf_fields::Source;
use edf_pace::{Nobody, Onlooker};
use edf_stop::{CheckStop, PartSide, PartsStop, Side};
use edf_verdict::Verdict;
use std::alloc::Global;

/// The check of `check`, and somebody looks on while the samples are compared.
///
/// The error is want of memory, or a failure of one of the sources.
pub(crate) fn check_beside<O: Source, E: Source, L: Onlooker>(
    original: &mut O,
    export: &mut E,
    asked: &mut Asked<'_, '_, L>,
) -> Result<Verdict, CheckStop>
    ensures headline { IfOk result (IsHeadlineOfTwo O.Source E.Source original.old export.old
        (asked.old.claim).now) }
    ensures verdict { IfOk result (IsVerdictOfTwo O.Source E.Source original.old export.old
        (asked.old.claim).now) }
    ensures lender { asked.new.onlooker.ghost_name ≡ asked.old.onlooker.ghost_name }
    ensures counted { IfOk result (λ v. IsCountedOfTwo O.Source E.Source original.old export.old
        (asked.old.claim).now (L.looks asked.old.onlooker.now) (looked_on
        (L.counted asked.old.onlooker.now) (L.counted asked.new.onlooker.now)
        (L.shown asked.new.onlooker.now))) }
    ensures read { IfOk result (AreReadOfTwo O.Source E.Source original.old original.new export.old
        export.new) }
    ensures failures { OnOk result ((O.reads original.new ≡ O.reads original.old) ×
        (E.reads export.new ≡ E.reads export.old)) }
    ensures stop { IfErr result (CheckStopsOf O.Source E.Source original.old original.new export.old
        export.new) }
{
    match check_series(original, export, &mut [], asked) {
        Ok(on_parts) => Ok(on_parts.verdict),
        Err(PartsStop::OutOfMemory) => Err(CheckStop::OutOfMemory),
        Err(PartsStop::ReadFailed(PartSide::Original)) => {
            Err(CheckStop::ReadFailed(Side::Original))
        }
        Err(PartsStop::ReadFailed(PartSide::Part(_))) => Err(CheckStop::ReadFailed(Side::Export)),
    }
}

/// Checks whether the export is the original, cut and made anonymous as the claim says, and nothing else.
///
/// The verdict is the first difference in the order of `Difference`, or Yes. Both files are read from the
/// first byte to the end; where the original has a fault, the export isn't read on, and where the export has
/// one, the original is read to its end. The error is want of memory, or a failure of one of the sources; on
/// an error nothing is said of the files, and the sources are made anew before another check.
pub fn check<O: Source, E: Source>(
    alloc: Global,
    original: &mut O,
    export: &mut E,
    claim: &Claim,
) -> Result<Verdict, CheckStop>
    ensures headline { IfOk result (λ verdict. IsTrue (O.is_honest original.old) →
        IsTrue (E.is_honest export.old) →
        YesMeans (O.left original.old) (E.left export.old) claim.now verdict) }
    ensures verdict { IfOk result (λ verdict. IsTrue (O.is_honest original.old) →
        IsTrue (E.is_honest export.old) →
        IsVerdict (O.left original.old) (E.left export.old) claim.now verdict) }
    ensures read { IfOk result (λ verdict. IsTrue (O.is_honest original.old) →
        IsTrue (E.is_honest export.old) → AreRead verdict (O.left original.new) (E.left export.new)) }
    ensures failures { OnOk result ((O.reads original.new ≡ O.reads original.old) ×
        (E.reads export.new ≡ E.reads export.old)) }
    ensures stop { IfErr result (CheckStops
        (Fails (O.reads original.old) (O.reads original.new))
        (Fails (E.reads export.old) (E.reads export.new))
        ((O.reads original.new ≡ O.reads original.old) × (E.reads export.new ≡ E.reads export.old))) }
{
    let mut asked = Asked {
        alloc,
        claim,
        onlooker: &mut Nobody,
    };
    match check_beside(original, export, &mut asked) {
        Ok(verdict) => Ok(verdict),
        Err(stop) => Err(stop),
    }
}
