//! A check of two files under the text of a claim, with a receipt for its answer.

ghost use Rattle.std.specs.Prelude.{◌≡◌, ◌≢◌, IfOk, IfErr, OnOk, IsTrue};
ghost use Rattle.edf_claim.specs.declared.stop.ClaimStop.TheVariants as claim_stops;
ghost use Rattle.edf_claim.specs.Faults.{FirstClaimFault};
ghost use Rattle.edf_check.specs.Runs.{RunStops};
ghost use Rattle.edf_fields.specs.in_out.Sources.{Fails, Rises};
ghost use Rattle.edf_receipt.specs.ReceiptRuns.{IsFresh, IsFrontOfAReceipt, IsPartOfReceipt, IsReceipt};
ghost use Rattle.edf_stop.specs.declared.stops.RunStop.TheVariants as stops;

use crate::digest_source::DigestSource;
use crate::files::files_of;
use crate::printed::Printed;
use crate::text::receipt_text;
use edf_check::judge;
use edf_fields::{Sink, Source, put_all};
use edf_stop::RunStop;
use edf_verdict::Outcome;
use std::alloc::Global;

/// Reads the claim that a text says, checks the export against the original, and writes a receipt: the version of the
/// program, the digest and the length of each file, and the line of the verdict.
///
/// The digests are those of the bytes that were judged: each file is read once, and behind the verdict on to its end. The
/// sources are new, so that nothing was read of them before. Nothing is written before all is known. Where the sink fails,
/// a front of the receipt was written.
pub fn receipt_to<O: Source + Drop, E: Source + Drop, K: Sink>(
    alloc: Global,
    original: &mut DigestSource<O>,
    export: &mut DigestSource<E>,
    printed: Printed<'_>,
    sink: &mut K,
) -> Result<Outcome, RunStop>
    ensures receipt { IfOk result (λ outcome.
        IsFresh (⟦<DigestSource<O> as Source>⟧.reads original.old)
        (⟦<DigestSource<O> as Source>⟧.is_honest original.old)
        (⟦<DigestSource<O> as Source>⟧.left original.old) →
        IsFresh (⟦<DigestSource<E> as Source>⟧.reads export.old)
        (⟦<DigestSource<E> as Source>⟧.is_honest export.old) (⟦<DigestSource<E> as Source>⟧.left export.old) →
        IsTrue (K.is_honest sink.old) →
        IsReceipt printed.entry.version.now (⟦<DigestSource<O> as Source>⟧.left original.old)
        (⟦<DigestSource<E> as Source>⟧.left export.old) printed.entry.claim_text.now (K.held sink.old)
        (K.held sink.new) outcome) }
    ensures reads { OnOk result
        ((⟦<DigestSource<O> as Source>⟧.reads original.new ≡
        ⟦<DigestSource<O> as Source>⟧.reads original.old) ×
        (⟦<DigestSource<E> as Source>⟧.reads export.new ≡ ⟦<DigestSource<E> as Source>⟧.reads export.old)) }
    ensures failures { OnOk result (K.failures sink.new ≡ K.failures sink.old) }
    ensures honesty { IsTrue (K.is_honest sink.old) → IsTrue (K.is_honest sink.new) }
    ensures nothing { IfErr result (λ stop. stop ≢ stops.WriteFailed → sink.new ≡ sink.old) }
    ensures part { IfErr result (λ stop. stop ≡ stops.WriteFailed →
        IsFresh (⟦<DigestSource<O> as Source>⟧.reads original.old)
        (⟦<DigestSource<O> as Source>⟧.is_honest original.old)
        (⟦<DigestSource<O> as Source>⟧.left original.old) →
        IsFresh (⟦<DigestSource<E> as Source>⟧.reads export.old)
        (⟦<DigestSource<E> as Source>⟧.is_honest export.old) (⟦<DigestSource<E> as Source>⟧.left export.old) →
        IsTrue (K.is_honest sink.old) →
        IsPartOfReceipt printed.entry.version.now (⟦<DigestSource<O> as Source>⟧.left original.old)
        (⟦<DigestSource<E> as Source>⟧.left export.old) printed.entry.claim_text.now (K.held sink.old) (K.held sink.new)) }
    ensures front { IfErr result (λ stop. stop ≡ stops.WriteFailed → IsTrue (K.is_honest sink.old) →
        IsFrontOfAReceipt printed.entry.version.now (K.held sink.old) (K.held sink.new)) }
    ensures stop { IfErr result (RunStops (λ cause. (cause ≢ claim_stops.OutOfMemory) ×
        FirstClaimFault printed.entry.claim_text.now cause) (Fails (⟦<DigestSource<O> as Source>⟧.reads original.old)
        (⟦<DigestSource<O> as Source>⟧.reads original.new))
        (Fails (⟦<DigestSource<E> as Source>⟧.reads export.old)
        (⟦<DigestSource<E> as Source>⟧.reads export.new)) (Rises (K.failures sink.old) (K.failures sink.new))
        ((⟦<DigestSource<O> as Source>⟧.reads original.new ≡
        ⟦<DigestSource<O> as Source>⟧.reads original.old) ×
        (⟦<DigestSource<E> as Source>⟧.reads export.new ≡ ⟦<DigestSource<E> as Source>⟧.reads export.old))) }
{
    let Printed {
        version,
        claim_text,
    } = printed;
    let verdict = judge(alloc, original, export, claim_text)?;
    let files = files_of(alloc, original, export, claim_text)?;
    let text = receipt_text(alloc, version, &files, &verdict.line(alloc)?)?;
    put_all(sink, &text)?;
    Ok(verdict.outcome())
}
