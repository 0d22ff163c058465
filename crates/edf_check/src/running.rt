//! A check of two files under the text of a claim, with one line of text for its answer.

ghost use Rattle.std.specs.Prelude.{◌≡◌, ◌≢◌, IfOk, IfErr, OnOk, IsTrue};
ghost use Rattle.edf_claim.specs.declared.stop.ClaimStop.TheVariants as claim_stops;
ghost use Rattle.edf_claim.specs.Faults.{FirstClaimFault};
ghost use Rattle.edf_fields.specs.in_out.Sources.{Fails, Rises};
ghost use Rattle.edf_stop.specs.declared.stops.RunStop.TheVariants as stops;
ghost use Rattle.edf_check.specs.Runs.{IsReport, IsPartOfReport, IsFrontOfALine, RunStops};

use crate::judging::judge;
use edf_fields::{Sink, Source, put_all};
use edf_stop::RunStop;
use edf_verdict::Outcome;
use std::alloc::Global;

/// Reads the claim that a text says, checks the export against the original, and writes the line of the
/// verdict.
///
/// Nothing is written before the verdict is known. Where the sink fails, a front of the line was written.
pub fn run<O: Source, E: Source, K: Sink>(
    alloc: Global,
    original: &mut O,
    export: &mut E,
    claim_text: &[u8],
    sink: &mut K,
) -> Result<Outcome, RunStop>
    ensures report { IfOk result (λ outcome. IsTrue (O.is_honest original.old) →
        IsTrue (E.is_honest export.old) → IsTrue (K.is_honest sink.old) →
        IsReport (O.left original.old) (E.left export.old) claim_text.now (K.held sink.old)
        (K.held sink.new) outcome) }
    ensures reads { OnOk result ((O.reads original.new ≡ O.reads original.old) ×
        (E.reads export.new ≡ E.reads export.old)) }
    ensures failures { OnOk result (K.failures sink.new ≡ K.failures sink.old) }
    ensures honesty { IsTrue (K.is_honest sink.old) → IsTrue (K.is_honest sink.new) }
    ensures nothing { IfErr result (λ stop. stop ≢ stops.WriteFailed → sink.new ≡ sink.old) }
    ensures part { IfErr result (λ stop. stop ≡ stops.WriteFailed → IsTrue (O.is_honest original.old) →
        IsTrue (E.is_honest export.old) → IsTrue (K.is_honest sink.old) →
        IsPartOfReport (O.left original.old) (E.left export.old) claim_text.now (K.held sink.old)
        (K.held sink.new)) }
    ensures front { IfErr result (λ stop. stop ≡ stops.WriteFailed → IsTrue (K.is_honest sink.old) →
        IsFrontOfALine (K.held sink.old) (K.held sink.new)) }
    ensures stop { IfErr result (RunStops
        (λ cause. (cause ≢ claim_stops.OutOfMemory) × FirstClaimFault claim_text.now cause)
        (Fails (O.reads original.old) (O.reads original.new))
        (Fails (E.reads export.old) (E.reads export.new))
        (Rises (K.failures sink.old) (K.failures sink.new))
        ((O.reads original.new ≡ O.reads original.old) × (E.reads export.new ≡ E.reads export.old))) }
{
    let verdict = judge(alloc, original, export, claim_text)?;
    let line = verdict.line(alloc)?;
    put_all(sink, &line)?;
    Ok(verdict.outcome())
}
