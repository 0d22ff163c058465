//! A claim that is read, and printed as it was understood.

ghost use Rattle.std.specs.Prelude.{◌≡◌, ◌≢◌, IfOk, IfErr, OnOk, IsTrue};
ghost use Rattle.edf_claim.specs.Faults.{FirstClaimFault};
ghost use Rattle.edf_claim.specs.declared.stop.ClaimStop.TheVariants as claim_stops;
ghost use Rattle.edf_fields.specs.in_out.Sources.{Rises};
ghost use Rattle.edf_stop.specs.declared.stops.RunStop.TheVariants as stops;
ghost use Rattle.edf_claim_text.specs.Printed.{IsClaimWritten, IsPartWritten, PrintStops};

use crate::printed::printed_of;
use edf_claim::Claim;
use edf_fields::{Sink, put_all};
use edf_stop::RunStop;
use edf_verdict::Outcome;
use std::alloc::Global;

/// Reads the claim that a text says, and writes it in its plainest form: TOML with the keys in one order, a line for each label,
/// interval, subfield and text, and every escape and default resolved.
///
/// What is written is read as a claim before, and says the same. Where it is longer than a claim may be, a comment behind it says
/// by how much. The outcome is `Yes` exactly where it says the same.
///
/// A text that says no claim is refused by its first fault. Nothing is written then, nor where memory runs out; where the sink
/// fails, a front of the text was written.
pub fn claim_to<K: Sink>(alloc: Global, claim_text: &[u8], sink: &mut K) -> Result<Outcome, RunStop>
    ensures written { IfOk result (λ outcome. IsTrue (K.is_honest sink.old) →
        IsClaimWritten claim_text.now (K.held sink.old) (K.held sink.new) outcome) }
    ensures failures { OnOk result (K.failures sink.new ≡ K.failures sink.old) }
    ensures honesty { IsTrue (K.is_honest sink.old) → IsTrue (K.is_honest sink.new) }
    ensures nothing { IfErr result (λ stop. stop ≢ stops.WriteFailed → sink.new ≡ sink.old) }
    ensures part { IfErr result (λ stop. stop ≡ stops.WriteFailed → IsTrue (K.is_honest sink.old) →
        IsPartWritten claim_text.now (K.held sink.old) (K.held sink.new)) }
    ensures stop { IfErr result (PrintStops
        (λ cause. (cause ≢ claim_stops.OutOfMemory) × FirstClaimFault claim_text.now cause)
        (Rises (K.failures sink.old) (K.failures sink.new))) }
{
    let claim = Claim::read(alloc, claim_text)?;
    let printed = printed_of(alloc, &claim)?;
    put_all(sink, &printed.text)?;
    Ok(printed.outcome)
}
