//! What is written of two files: the draft of a claim, or the fault of one of them.

ghost use Rattle.std.specs.Prelude.{◌≡◌, List, ℕ, Some, IfOk, IfErr, OnOk, IsTrue};
ghost use Rattle.edf_stream.specs.Faults.{file_fault};
ghost use Rattle.edf_stop.specs.declared.stops.CheckStop.TheVariants as check_stops;
ghost use Rattle.edf_draft.specs.Answers.{IsAnswer, IsAnswerBy, IsFaultAt, IsOneReadOf, IsReadOf, StopsBoth, StopsSide, fault_text_of};
ghost use Rattle.edf_draft.specs.FirstLines.{IsTrueOfYes, anew, Anew};
ghost use Rattle.edf_recording.specs.Readings.{OfSource};

use crate::exported::Exported;
use crate::tries::chosen::draft_text;
use crate::tries::trial::{OneExport, Trial};
use edf_fields::{Fault, Source};
use edf_header::Stop;
use edf_recording::{Recorded, read_through};
use edf_stop::{CheckStop, Side};
use edf_trial::Recordings;
use edf_verdict::Outcome;
use std::alloc::{AllocError, Global};

/// What is written where no claim says what the export is.
const NONE: &str =
    "# no draft: the export needs more than a claim can say (1,000 intervals, 65,536 bytes, 9 digits of seconds, a shift of 10,000,000,000 s)\n";

/// A text and its outcome.
#[derive(Drop)]
pub(crate) struct Answer {
    pub text: Vec<u8>,
    pub outcome: Outcome,
}

/// The lines of a fault of the file of one side.
fn fault_lines(alloc: Global, side: Side, fault: &Fault) -> Result<Vec<u8>, AllocError>
    ensures { IfOk result (λ text. text.items ≡ fault_text_of side fault.now) }
{
    let head: &str = match side {
        Side::Original => "# the original\nFAULT ",
        Side::Export => "# the export\nFAULT ",
    };
    let mut text = Vec::new(alloc);
    text.extend_from_slice(head.as_bytes())?;
    text.extend_from_slice(fault.text(alloc)?.as_bytes())?;
    text.push(b'\n')?;
    Ok(text)
}

impl Answer {
    /// That of a fault.
    #[tactic(auto, using(crate::proofs::AnswerFacts::fault_answers, crate::proofs::FirstLineFacts::fault_is_true))]
    pub(crate) fn of_fault(alloc: Global, side: Side, fault: &Fault) -> Result<Answer, AllocError>
        ensures answer { IfOk result (λ a. (again : Anew) (original export : List ℕ) →
            IsFaultAt side fault.now original export →
            IsAnswer again original export a.text.items a.outcome) }
        ensures first { IfOk result (λ a. (again : Anew) → IsTrueOfYes again a.text.items) }
    {
        Ok(Answer {
            text: fault_lines(alloc, side, fault)?,
            outcome: Outcome::No,
        })
    }

    /// That of files that conform.
    pub(crate) fn of_draft<T: Trial>(
        alloc: Global,
        original: &Recorded,
        export: &Exported,
        trial: &T,
    ) -> Result<Answer, AllocError>
        ensures answer { IfOk result (λ a. (o e : List ℕ) → IsReadOf o original.now →
            IsOneReadOf e export.now → IsAnswer (T.files trial.now) o e a.text.items a.outcome) }
        ensures first { IfOk result (λ a. IsTrueOfYes (T.files trial.now) a.text.items) }
    {
        match draft_text(alloc, original, export, trial)? {
            Some(text) => Ok(Answer {
                text,
                outcome: Outcome::Yes,
            }),
            None => Ok(Answer {
                text: Vec::from_slice(alloc, NONE.as_bytes())?,
                outcome: Outcome::No,
            }),
        }
    }
}

/// Reads the file of one side to its end, or to its first fault.
///
/// The error is want of memory, or a failure of the source.
fn read_side<S: Source>(
    alloc: Global,
    source: &mut S,
    side: Side,
) -> Result<Result<Recorded, Fault>, CheckStop>
    ensures failures { OnOk result (S.reads source.new ≡ S.reads source.old) }
    ensures read { IfOk result (λ read.
        IfOk read (λ recorded. OfSource S.Source source.old (λ file. IsReadOf file recorded))) }
    ensures fault { IfOk result (λ read.
        IfErr read (λ fault. OfSource S.Source source.old (λ file. file_fault file ≡ Some fault))) }
    ensures stop { IfErr result (StopsSide S.Source side source.old source.new) }
{
    match read_through(alloc, source) {
        Ok(recorded) => Ok(Ok(recorded)),
        Err(Stop::Fault(fault)) => Ok(Err(fault)),
        Err(Stop::ReadFailed) => Err(CheckStop::ReadFailed(side)),
        Err(Stop::OutOfMemory) => Err(CheckStop::OutOfMemory),
    }
}

/// What is written of a fault.
///
/// The error is want of memory.
fn fault_answer(alloc: Global, side: Side, fault: &Fault) -> Result<Answer, CheckStop>
    ensures answer { IfOk result (λ a. (again : Anew) (original export : List ℕ) →
        IsFaultAt side fault.now original export → IsAnswer again original export a.text.items a.outcome) }
    ensures first { IfOk result (λ a. (again : Anew) → IsTrueOfYes again a.text.items) }
    ensures stop { IfErr result (λ stop. stop ≡ check_stops.OutOfMemory) }
{
    Ok(Answer::of_fault(alloc, side, fault)?)
}

/// What is written of an original and one export that conform.
///
/// The error is want of memory.
fn draft_answer<R: Recordings>(
    alloc: Global,
    original: &Recorded,
    export: Recorded,
    again: &R,
) -> Result<Answer, CheckStop>
    ensures answer { IfOk result (λ a. (o e : List ℕ) → IsReadOf o original.now → IsReadOf e export →
        IsAnswer (anew (R.are_honest again.now) (R.original again.now) (R.export again.now)) o e a.text.items
        a.outcome) }
    ensures first { IfOk result (λ a. IsTrueOfYes
        (anew (R.are_honest again.now) (R.original again.now) (R.export again.now)) a.text.items) }
    ensures stop { IfErr result (λ stop. stop ≡ check_stops.OutOfMemory) }
{
    let exported = Exported::of_one(alloc, export);
    let trial = OneExport::new(again);
    let answer = Answer::of_draft(alloc, original, &exported, &trial)?;
    Ok(answer)
}

/// Reads two files to their ends, the original first: the draft of a claim, or the first fault of the original, or else of
/// the export. The draft is tried on the same files, which are opened anew.
///
/// The error is want of memory, or a failure of one of the sources.
pub(crate) fn answer_of<O: Source, E: Source, R: Recordings>(
    alloc: Global,
    original: &mut O,
    export: &mut E,
    again: &R,
) -> Result<Answer, CheckStop>
    ensures answer { IfOk result (λ a.
        IsAnswerBy (anew (R.are_honest again.now) (R.original again.now) (R.export again.now)) O.Source
        original.old E.Source export.old a.text.items a.outcome) }
    ensures first { IfOk result (λ a.
        IsTrueOfYes (anew (R.are_honest again.now) (R.original again.now) (R.export again.now))
        a.text.items) }
    ensures failures { OnOk result ((O.reads original.new ≡ O.reads original.old) ×
        (E.reads export.new ≡ E.reads export.old)) }
    ensures stop { IfErr result
        (StopsBoth O.Source original.old original.new E.Source export.old export.new) }
{
    let first = match read_side(alloc, original, Side::Original)? {
        Ok(recorded) => recorded,
        Err(fault) => return fault_answer(alloc, Side::Original, &fault),
    };
    let second = match read_side(alloc, export, Side::Export)? {
        Ok(recorded) => recorded,
        Err(fault) => return fault_answer(alloc, Side::Export, &fault),
    };
    draft_answer(alloc, &first, second, again)
}
