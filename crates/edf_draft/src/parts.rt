//! A claim drafted from an original and several exports.

ghost use Rattle.std.specs.Prelude.{◌≡◌, ◌≢◌, ◌<◌, ◌≤◌, length, map, IfErr, OnOk, IsTrue};
ghost use Rattle.edf_check.specs.Runs.{PartsRunStops};
ghost use Rattle.edf_fields.specs.in_out.Sources.{Fails, Rises};
ghost use Rattle.edf_stop.specs.declared.parts_stops.PartsRunStop.TheVariants as stops;
ghost use Rattle.edf_draft.specs.FirstLines.{anew_parts};
ghost use Rattle.edf_draft.specs.Written.{IsTrulyWritten};

use crate::parts_answer::answer_of_parts;
use edf_fields::{Sink, Source, put_all};
use edf_stop::PartsRunStop;
use edf_trial::PartsRecordings;
use edf_verdict::Outcome;
use std::alloc::Global;

/// Drafts the claim by which one to 64 files, in the order of time, would together be the export of another, and writes it, as
/// `draft_to` does for one.
///
/// Whenever the first line says that the check of all files with the draft is a Yes, it is, on the files that are opened anew.
/// Of the rest no clause speaks: the channels are those of the first export, in its order; anonymous are the subfields that are
/// `X` in all exports and not as in the original; there is one shift for all; the intervals are those that the data records of
/// all exports cover then; and texts are removed or blanked by what all exports together have.
///
/// The outcome is `No` where a file doesn't conform: a comment says which, and its first fault follows as `conform` writes it,
/// the original's first, and then that of the first export that has one; and where no claim can say what the exports are, which
/// a comment says: they don't have the same channels, one begins before the one before it ends, or a claim would be too long.
///
/// The error is want of memory, or a failure of a source or of the sink. Nothing is written before all files were read;
/// where the sink fails, a front of the text was written.
pub fn draft_parts_to<O: Source, E: Source, K: Sink, R: PartsRecordings>(
    alloc: Global,
    original: &mut O,
    parts: &mut [E],
    again: &R,
    sink: &mut K,
) -> Result<Outcome, PartsRunStop>
    requires some { 0 < length parts.old }
    requires few { length parts.old ≤ 64 }
    ensures first { OnOk result (IsTrue (K.is_honest sink.old) → IsTrulyWritten
        (anew_parts (R.are_honest again.now) (R.original again.now) (R.exports again.now))
        (K.held sink.old) (K.held sink.new)) }
    ensures reads { OnOk result ((O.reads original.new ≡ O.reads original.old)
        × (map E.reads parts.new ≡ map E.reads parts.old)) }
    ensures failures { OnOk result (K.failures sink.new ≡ K.failures sink.old) }
    ensures honesty { IsTrue (K.is_honest sink.old) → IsTrue (K.is_honest sink.new) }
    ensures nothing { IfErr result (λ stop. stop ≢ stops.WriteFailed → sink.new ≡ sink.old) }
    ensures stop { IfErr result
        (PartsRunStops (λ cause. ⊥) (Fails (O.reads original.old) (O.reads original.new))
        (Rises (K.failures sink.old) (K.failures sink.new)) ((O.reads original.new ≡ O.reads original.old) ×
        (map E.reads parts.new ≡ map E.reads parts.old)) (map E.reads parts.old) (map E.reads parts.new)) }
{
    let answer = answer_of_parts(alloc, original, parts, again)?;
    put_all(sink, &answer.text)?;
    Ok(answer.outcome)
}
