//! The check of several exports of one original, one after the other, against that and a claim.

ghost use Rattle.std.specs.Prelude.{◌≡◌, ◌<◌, ◌≤◌, ◌∷◌, map, length, IfOk, IfErr, OnOk, IsTrue};
ghost use Rattle.std.specs.List.{AllByRecursion};
ghost use Rattle.edf_fields.specs.in_out.Sources.{Fails};
ghost use Rattle.edf_check.specs.Checks.{AreRead};
ghost use Rattle.edf_pace.specs.PartsStops.{NoneFailed, PartsStops, StopsOfAll};
ghost use Rattle.edf_check.specs.parts.Counted.{AreCountedOfAll, looked_on};
ghost use Rattle.edf_check.specs.parts.PartsVerdicts.{IsPartsVerdict};
ghost use Rattle.edf_check.specs.parts.Together.{IsReadBy, IsVerdictOf, SeriesLeft, SeriesStop};

use crate::finding::Finding;
use crate::parts::series::{Exported, ReadSoFar};
use crate::parts::together::{Stage, conclude_parts, walk_parts};
use edf_claim::Claim;
use edf_fields::Source;
use edf_heads::in_order;
use edf_pace::{Clock, FaultOf, Nobody, Onlooker, Setting, open};
use edf_stop::{PartSide, PartsStop};
use edf_verdict::PartsVerdict;
use std::alloc::Global;

/// Under which claim is checked, with memory of `alloc`, and who looks on.
#[derive(Drop)]
pub(crate) struct Asked<'a, 'b, L> {
    pub alloc: Global,
    pub claim: &'a Claim,
    pub onlooker: &'b mut L,
}

/// Checks an export and those behind it.
///
/// The error is want of memory, or a failure of one of the sources.
pub(crate) fn check_series<O: Source, E: Source, L: Onlooker>(
    original: &mut O,
    part: &mut E,
    others: &mut [E],
    asked: &mut Asked<'_, '_, L>,
) -> Result<PartsVerdict, PartsStop>
    requires few { length others.old < 64 }
    ensures verdict { IfOk result (IsVerdictOf O.Source E.Source original.old (part.old ∷ others.old)
        (asked.old.claim).now) }
    ensures lender { asked.new.onlooker.ghost_name ≡ asked.old.onlooker.ghost_name }
    ensures counted { IfOk result (λ v. AreCountedOfAll O.Source E.Source original.old (part.old ∷ others.old)
        (asked.old.claim).now (L.looks asked.old.onlooker.now) (looked_on
        (L.counted asked.old.onlooker.now) (L.counted asked.new.onlooker.now)
        (L.shown asked.new.onlooker.now))) }
    ensures read { IfOk result (SeriesLeft O.Source E.Source original.old original.new part.old part.new
        others.old others.new) }
    ensures failures { OnOk result (NoneFailed O.Source original.old original.new E.Source part.old part.new
        others.old others.new) }
    ensures stop { IfErr result (SeriesStop O.Source original.old original.new E.Source part.old part.new
        others.old others.new) }
{
    let Asked { alloc, claim, .. } = *asked;
    let reading = match open(alloc, original, PartSide::Original) {
        Ok(Ok(reading)) => reading,
        Ok(Err(fault)) => return Ok(Finding::Fault(FaultOf::Original(fault)).verdict()),
        Err(stop) => return Err(stop),
    };
    let labels = in_order(alloc, claim.channels())?;
    let setting = Setting {
        alloc,
        clock: Clock::new(reading.reader.header(), claim),
        claim,
        labels: &labels,
    };
    let mut so_far = ReadSoFar {
        original: reading,
        exported: Exported::new(alloc),
    };
    let mut stage = Stage {
        setting,
        onlooker: &mut *asked.onlooker,
    };
    match walk_parts(&mut so_far, original, part, others, &mut stage) {
        Ok(Ok(found)) => {
            let verdict = conclude_parts(
                setting,
                found,
                &mut so_far.original.notes,
                &mut so_far.exported,
            )?;
            asked
                .onlooker
                .take_original(so_far.original, so_far.exported.notes);
            Ok(verdict)
        }
        Ok(Err(fault)) => Ok(Finding::Fault(fault).verdict()),
        Err(stop) => Err(stop),
    }
}

/// The check of `check_parts`, and somebody looks on while the samples are compared.
///
/// The error is want of memory, or a failure of one of the sources.
pub(crate) fn check_parts_beside<O: Source, E: Source, L: Onlooker>(
    original: &mut O,
    parts: &mut [E],
    asked: &mut Asked<'_, '_, L>,
) -> Result<PartsVerdict, PartsStop>
    requires some { 0 < length parts.old }
    requires few { length parts.old ≤ 64 }
    ensures verdict { IfOk result (IsVerdictOf O.Source E.Source original.old parts.old
        (asked.old.claim).now) }
    ensures lender { asked.new.onlooker.ghost_name ≡ asked.old.onlooker.ghost_name }
    ensures counted { IfOk result (λ v. AreCountedOfAll O.Source E.Source original.old parts.old
        (asked.old.claim).now (L.looks asked.old.onlooker.now) (looked_on
        (L.counted asked.old.onlooker.now) (L.counted asked.new.onlooker.now)
        (L.shown asked.new.onlooker.now))) }
    ensures read { IfOk result (IsReadBy O.Source E.Source original.old original.new parts.old parts.new) }
    ensures failures { OnOk result ((O.reads original.new ≡ O.reads original.old) ×
        (map E.reads parts.new ≡ map E.reads parts.old)) }
    ensures stop { IfErr result (StopsOfAll O.Source original.old original.new E.Source 0 parts.old
        parts.new) }
{
    match parts.split_first_mut() {
        None => unreachable!(),
        Some((part, others)) => match check_series(original, part, others, asked) {
            Ok(verdict) => Ok(verdict),
            Err(stop) => Err(stop),
        },
    }
}

/// Checks whether one to 64 exports, in the order of time, are together the original, cut and made anonymous as the claim
/// says, and nothing else.
///
/// The verdict is the first difference: a fault of the original, and then of the exports, the first one first; then a
/// difference of a header, the one with the lowest number first and of several with that number the one of the first
/// export; then the first export that begins before the one before it ends; then the samples and the annotations of all
/// together; or Yes. One export is read at a time: its header, a data record of it and one of the original are in
/// memory, and the annotations of all. The error is want of memory, or a failure of one of the sources, which it names;
/// on an error nothing is said of the files, and the sources are made anew before another check.
pub fn check_parts<O: Source, E: Source>(
    alloc: Global,
    original: &mut O,
    parts: &mut [E],
    claim: &Claim,
) -> Result<PartsVerdict, PartsStop>
    requires some { 0 < length parts.old }
    requires few { length parts.old ≤ 64 }
    ensures verdict { IfOk result (λ verdict. IsTrue (O.is_honest original.old) →
        AllByRecursion IsTrue (map E.is_honest parts.old) →
        IsPartsVerdict (O.left original.old) (map E.left parts.old) claim.now verdict) }
    ensures read { IfOk result (λ verdict. IsTrue (O.is_honest original.old) →
        AllByRecursion IsTrue (map E.is_honest parts.old) →
        AllByRecursion (AreRead verdict.verdict (O.left original.new)) (map E.left parts.new)) }
    ensures failures { OnOk result ((O.reads original.new ≡ O.reads original.old) ×
        (map E.reads parts.new ≡ map E.reads parts.old)) }
    ensures stop { IfErr result (PartsStops (Fails (O.reads original.old) (O.reads original.new))
        ((O.reads original.new ≡ O.reads original.old) × (map E.reads parts.new ≡ map E.reads parts.old)) 0
        (map E.reads parts.old) (map E.reads parts.new)) }
{
    let mut asked = Asked {
        alloc,
        claim,
        onlooker: &mut Nobody,
    };
    match check_parts_beside(original, parts, &mut asked) {
        Ok(verdict) => Ok(verdict),
        Err(stop) => Err(stop),
    }
}
