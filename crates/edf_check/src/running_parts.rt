//! A check of several exports under the text of a claim, with one line of text for its answer.

ghost use Rattle.std.specs.Prelude.{◌≡◌, ◌≢◌, ◌<◌, ◌≤◌, map, length, IfOk, IfErr, OnOk, IsTrue};
ghost use Rattle.std.specs.List.{AllByRecursion};
ghost use Rattle.edf_claim.specs.declared.stop.ClaimStop.TheVariants as claim_stops;
ghost use Rattle.edf_claim.specs.Faults.{FirstClaimFault};
ghost use Rattle.edf_fields.specs.in_out.Sources.{Fails, Rises};
ghost use Rattle.edf_stop.specs.declared.parts_stops.PartsRunStop.TheVariants as stops;
ghost use Rattle.edf_check.specs.Runs.{IsFrontOfAPartsLine, IsPartsReport, IsPartOfPartsReport, PartsRunStops};

use crate::judging::judge_parts;
use edf_fields::{Sink, Source, put_all};
use edf_stop::PartsRunStop;
use edf_verdict::Outcome;
use std::alloc::Global;

/// Reads the claim that a text says, checks one to 64 exports, in the order of time, against the original, and writes the
/// line of the verdict.
///
/// Nothing is written before the verdict is known. Where the sink fails, a front of the line was written.
pub fn run_parts<O: Source, E: Source, K: Sink>(
    alloc: Global,
    original: &mut O,
    parts: &mut [E],
    claim_text: &[u8],
    sink: &mut K,
) -> Result<Outcome, PartsRunStop>
    requires some { 0 < length parts.old }
    requires few { length parts.old ≤ 64 }
    ensures report { IfOk result (λ outcome. IsTrue (O.is_honest original.old) →
        AllByRecursion IsTrue (map E.is_honest parts.old) → IsTrue (K.is_honest sink.old) →
        IsPartsReport (O.left original.old) (map E.left parts.old) claim_text.now (K.held sink.old)
        (K.held sink.new) outcome) }
    ensures reads { OnOk result ((O.reads original.new ≡ O.reads original.old) ×
        (map E.reads parts.new ≡ map E.reads parts.old)) }
    ensures failures { OnOk result (K.failures sink.new ≡ K.failures sink.old) }
    ensures honesty { IsTrue (K.is_honest sink.old) → IsTrue (K.is_honest sink.new) }
    ensures nothing { IfErr result (λ stop. stop ≢ stops.WriteFailed → sink.new ≡ sink.old) }
    ensures part { IfErr result (λ stop. stop ≡ stops.WriteFailed → IsTrue (O.is_honest original.old) →
        AllByRecursion IsTrue (map E.is_honest parts.old) → IsTrue (K.is_honest sink.old) →
        IsPartOfPartsReport (O.left original.old) (map E.left parts.old) claim_text.now (K.held sink.old)
        (K.held sink.new)) }
    ensures front { IfErr result (λ stop. stop ≡ stops.WriteFailed → IsTrue (K.is_honest sink.old) →
        IsFrontOfAPartsLine (length parts.old) (K.held sink.old) (K.held sink.new)) }
    ensures stop { IfErr result (PartsRunStops
        (λ cause. (cause ≢ claim_stops.OutOfMemory) × FirstClaimFault claim_text.now cause)
        (Fails (O.reads original.old) (O.reads original.new))
        (Rises (K.failures sink.old) (K.failures sink.new))
        ((O.reads original.new ≡ O.reads original.old) × (map E.reads parts.new ≡ map E.reads parts.old))
        (map E.reads parts.old) (map E.reads parts.new)) }
{
    let count = parts.len() as u16;
    let verdict = judge_parts(alloc, original, parts, claim_text)?;
    let line = verdict.line(alloc, count)?;
    put_all(sink, &line)?;
    Ok(verdict.verdict.outcome())
}
