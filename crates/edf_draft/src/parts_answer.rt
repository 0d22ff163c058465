//! What is written of an original and several exports: the draft of a claim, or why there is none.

ghost use Rattle.std.specs.Prelude.{◌≡◌, ◌+◌, ◌≤◌, ◌∷◌, [], ◌++◌, codes, length, map, IfOk, IfErr, OnOk};
ghost use Rattle.std.specs.Fmt.{decimal};
ghost use Rattle.edf_fields.specs.FaultTexts.{fault_text};
ghost use Rattle.edf_fields.specs.in_out.Sources.{Fails};
ghost use Rattle.edf_pace.specs.PartsStops.{PartsStops, StopsOf};
ghost use Rattle.edf_draft.specs.FirstLines.{Anew, IsTrueOfYes, anew_parts};

use crate::answer::Answer;
use crate::exported::Exported;
use crate::tries::trial::{SeveralExports, Trial};
use edf_fields::{Fault, Source};
use edf_guesses::obstacle;
use edf_header::Stop;
use edf_recording::{Recorded, read_through};
use edf_stop::{PartSide, PartsStop, Side};
use edf_trial::PartsRecordings;
use edf_verdict::Outcome;
use std::alloc::{AllocError, Global};

/// The first fault of an export, and which one it is, counted from 0.
#[derive(Drop)]
struct PartFault {
    part: u16,
    fault: Fault,
}

impl PartFault {
    /// Its lines.
    fn lines(&self, alloc: Global) -> Result<Vec<u8>, AllocError>
        ensures { IfOk result (λ text. text.items ≡ codes "# part " ++ (decimal self.now.part ++
            (codes "\nFAULT " ++ (fault_text self.now.fault ++ (10 ∷ []))))) }
    {
        let head = format!(in alloc; "# part {}\nFAULT ", self.part)?;
        let mut text = Vec::from_slice(alloc, head.as_bytes())?;
        text.extend_from_slice(self.fault.text(alloc)?.as_bytes())?;
        text.push(b'\n')?;
        Ok(text)
    }
}

/// The lines that say that there is no draft, and why.
fn none_lines(alloc: Global, why: &str) -> Result<Vec<u8>, AllocError>
    ensures { IfOk result (λ text. text.items ≡ codes "# no draft: " ++ why.now) }
{
    let mut text = Vec::from_slice(alloc, b"# no draft: ")?;
    text.extend_from_slice(why.as_bytes())?;
    Ok(text)
}

/// Reads one of the files to its end, or to its first fault.
///
/// The error is want of memory, or a failure of the source.
fn read_part<S: Source>(
    alloc: Global,
    source: &mut S,
    side: PartSide,
) -> Result<Result<Recorded, Fault>, PartsStop>
    ensures failures { OnOk result (S.reads source.new ≡ S.reads source.old) }
    ensures stop { IfErr result (StopsOf S.Source side source.old source.new) }
{
    match read_through(alloc, source) {
        Ok(recorded) => Ok(Ok(recorded)),
        Err(Stop::Fault(fault)) => Ok(Err(fault)),
        Err(Stop::ReadFailed) => Err(PartsStop::ReadFailed(side)),
        Err(Stop::OutOfMemory) => Err(PartsStop::OutOfMemory),
    }
}

/// Reads exports to their ends, of which the first has this number, and takes them in; the first fault is given, if there is one.
///
/// The error is want of memory, or a failure of one of the sources.
fn read_exports<E: Source>(
    alloc: Global,
    parts: &mut [E],
    number: u16,
    exports: &mut Vec<Recorded>,
) -> Result<Option<PartFault>, PartsStop>
    requires few { number + length parts.old ≤ 64 }
    ensures failures { OnOk result (map E.reads parts.new ≡ map E.reads parts.old) }
    ensures stop { IfErr result (PartsStops ⊥ (map E.reads parts.new ≡ map E.reads parts.old) number
        (map E.reads parts.old) (map E.reads parts.new)) }
{
    match parts.split_first_mut() {
        None => return Ok(None),
        Some((part, others)) => {
            match read_part(alloc, part, PartSide::Part(number)) {
                Ok(Ok(recorded)) => exports.push(recorded)?,
                Ok(Err(fault)) => {
                    return Ok(Some(PartFault {
                        part: number,
                        fault,
                    }));
                }
                Err(stop) => return Err(stop),
            }
            return read_exports(alloc, others, number + 1, exports);
        }
    }
}

/// Several exports as one recording; none where there is none of them.
fn together(alloc: Global, exports: Vec<Recorded>) -> Result<Option<Exported>, AllocError> {
    let mut exports = exports.into_iter();
    let Some(first) = exports.next() else {
        return Ok(None);
    };
    let mut exported = Exported::of_one(alloc, first);
    for next in exports {
        exported.take_in(next)?;
    }
    Ok(Some(exported))
}

impl Answer {
    /// That of a fault of an export.
    #[tactic(auto, using(crate::proofs::FirstLineFacts::part_fault_is_true))]
    fn of_part_fault(alloc: Global, fault: &PartFault) -> Result<Answer, AllocError>
        ensures first { IfOk result (λ a. (again : Anew) → IsTrueOfYes again a.text.items) }
    {
        Ok(Answer {
            text: fault.lines(alloc)?,
            outcome: Outcome::No,
        })
    }

    /// That there is no draft, and why.
    #[tactic(auto, using(crate::proofs::FirstLineFacts::no_draft_is_true))]
    fn of_none(alloc: Global, why: &str) -> Result<Answer, AllocError>
        ensures first { IfOk result (λ a. (again : Anew) → IsTrueOfYes again a.text.items) }
    {
        Ok(Answer {
            text: none_lines(alloc, why)?,
            outcome: Outcome::No,
        })
    }

    /// That of an original and exports that conform.
    fn of_exports<T: Trial>(
        alloc: Global,
        original: &Recorded,
        exports: Vec<Recorded>,
        trial: &T,
    ) -> Result<Answer, AllocError>
        ensures first { IfOk result (λ a. IsTrueOfYes (T.files trial.now) a.text.items) }
    {
        if let Some(why) = obstacle(alloc, &exports)? {
            return Answer::of_none(alloc, &why);
        }
        match together(alloc, exports)? {
            Some(exported) => Answer::of_draft(alloc, original, &exported, trial),
            None => Answer::of_none(alloc, "there is no export\n"),
        }
    }
}

/// Reads an original and exports to their ends, the original first: the draft of a claim, or the first fault of the original, or
/// else of the exports, or why there is no draft. The draft is tried on the same files, which are opened anew.
///
/// The error is want of memory, or a failure of one of the sources.
pub(crate) fn answer_of_parts<O: Source, E: Source, R: PartsRecordings>(
    alloc: Global,
    original: &mut O,
    parts: &mut [E],
    again: &R,
) -> Result<Answer, PartsStop>
    requires few { length parts.old ≤ 64 }
    ensures first { IfOk result (λ a. IsTrueOfYes
        (anew_parts (R.are_honest again.now) (R.original again.now) (R.exports again.now)) a.text.items) }
    ensures failures { OnOk result ((O.reads original.new ≡ O.reads original.old)
        × (map E.reads parts.new ≡ map E.reads parts.old)) }
    ensures stop { IfErr result (PartsStops (Fails (O.reads original.old) (O.reads original.new))
        ((O.reads original.new ≡ O.reads original.old) × (map E.reads parts.new ≡ map E.reads parts.old)) 0
        (map E.reads parts.old) (map E.reads parts.new)) }
{
    let first = match read_part(alloc, original, PartSide::Original) {
        Ok(Ok(recorded)) => recorded,
        Ok(Err(fault)) => return Ok(Answer::of_fault(alloc, Side::Original, &fault)?),
        Err(stop) => return Err(stop),
    };
    let mut exports = Vec::new(alloc);
    match read_exports(alloc, parts, 0, &mut exports) {
        Ok(None) => {}
        Ok(Some(fault)) => return Ok(Answer::of_part_fault(alloc, &fault)?),
        Err(stop) => return Err(stop),
    }
    let trial = SeveralExports::new(again);
    Ok(Answer::of_exports(alloc, &first, exports, &trial)?)
}
