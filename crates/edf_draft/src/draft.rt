//! A claim drafted from two files.

ghost use Rattle.std.specs.Prelude.{◌≡◌, ◌≢◌, IfOk, IfErr, OnOk, IsTrue};
ghost use Rattle.edf_fields.specs.in_out.Sources.{Fails, Rises};
ghost use Rattle.edf_stop.specs.declared.stops.RunStop.TheVariants as stops;
ghost use Rattle.edf_draft.specs.Answers.{DraftStops};
ghost use Rattle.edf_draft.specs.FirstLines.{anew};
ghost use Rattle.edf_draft.specs.Written.{IsDraftWritten, IsPartWritten, IsTrulyWritten};

use crate::answer::answer_of;
use edf_fields::{Sink, Source, put_all};
use edf_stop::RunStop;
use edf_trial::Recordings;
use edf_verdict::Outcome;
use std::alloc::Global;

/// Drafts the claim by which one file would be the export of another, and writes it: TOML with a comment behind each line that
/// a person has to confirm.
///
/// The text is a claim, and it says the channels of the export in its order, the subfields that are `X` in the export and not
/// as in the original, and a shift: one by whole days that puts the export into the time of the original, or any where none does
/// that; or another one with which the check is a Yes, or gets no less far than with one by days. The outcome is `Yes`. Of the rest no clause speaks: the intervals that the export's data records cover then, the texts
/// of annotations there that the original has and the export hasn't, and the comments. The first line is one: it says what the
/// check answers with the draft, for which both files are opened anew. Where they can't be read once more, it says that.
/// Others say where no shift by whole days fits, where several do, which channels the original lacks, and where it looks like
/// the files were swapped.
///
/// The outcome is `No` where a file doesn't conform: a comment says which, and its first fault follows as `conform` writes
/// it, the original's before the export's; and where no claim can say what the export is, which a comment says.
///
/// The error is want of memory, or a failure of a source or of the sink. Nothing is written before both files were read;
/// where the sink fails, a front of the text was written.
pub fn draft_to<O: Source, E: Source, K: Sink, R: Recordings>(
    alloc: Global,
    original: &mut O,
    export: &mut E,
    again: &R,
    sink: &mut K,
) -> Result<Outcome, RunStop>
    ensures draft { IfOk result (λ outcome. IsTrue (O.is_honest original.old) →
        IsTrue (E.is_honest export.old) → IsTrue (K.is_honest sink.old) →
        IsDraftWritten (anew (R.are_honest again.now) (R.original again.now) (R.export again.now))
        (O.left original.old) (E.left export.old) (K.held sink.old) (K.held sink.new) outcome) }
    ensures first { OnOk result (IsTrue (K.is_honest sink.old) →
        IsTrulyWritten (anew (R.are_honest again.now) (R.original again.now) (R.export again.now))
        (K.held sink.old) (K.held sink.new)) }
    ensures reads { OnOk result ((O.reads original.new ≡ O.reads original.old) ×
        (E.reads export.new ≡ E.reads export.old)) }
    ensures failures { OnOk result (K.failures sink.new ≡ K.failures sink.old) }
    ensures honesty { IsTrue (K.is_honest sink.old) → IsTrue (K.is_honest sink.new) }
    ensures nothing { IfErr result (λ stop. stop ≢ stops.WriteFailed → sink.new ≡ sink.old) }
    ensures part { IfErr result (λ stop. stop ≡ stops.WriteFailed → IsTrue (O.is_honest original.old) →
        IsTrue (E.is_honest export.old) → IsTrue (K.is_honest sink.old) →
        IsPartWritten (anew (R.are_honest again.now) (R.original again.now) (R.export again.now))
        (O.left original.old) (E.left export.old) (K.held sink.old) (K.held sink.new)) }
    ensures stop { IfErr result (DraftStops (Fails (O.reads original.old) (O.reads original.new))
        (Fails (E.reads export.old) (E.reads export.new)) (Rises (K.failures sink.old) (K.failures sink.new))
        ((O.reads original.new ≡ O.reads original.old) × (E.reads export.new ≡ E.reads export.old))) }
{
    let answer = answer_of(alloc, original, export, again)?;
    put_all(sink, &answer.text)?;
    Ok(answer.outcome)
}
