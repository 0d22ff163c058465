//! A check of several exports under the text of a claim, with its line and sentences behind it.

ghost use Rattle.std.specs.Prelude.{◌<◌, ◌≤◌, map, length, IfOk, IsTrue};
ghost use Rattle.std.specs.List.{AllByRecursion};
ghost use Rattle.edf_explained.specs.Explained.{ArePartsExplained};

use crate::question::Question;
use crate::sentences::put_sentences;
use edf_explain::{PartsAsked, explain_parts, fault_in};
use edf_fields::{Sink, Source, put_all};
use edf_findings::{CheckedParts, FrontSource, Wanted, claim_of, findings_of_parts};
use edf_stop::PartsRunStop;
use edf_trial::{Asked, PartsRecordings, SeveralExports};
use edf_verdict::{Outcome, Verdict};
use edf_warnings::asks_for_texts;
use std::alloc::{AllocError, Global};

/// What stands in front of each export, where a file has a fault; else nothing.
///
/// The error is want of memory.
fn fronts_of<E: Source + Drop>(
    alloc: Global,
    parts: &[FrontSource<E>],
    verdict: &Verdict,
) -> Result<Vec<Vec<u8>>, AllocError> {
    let mut fronts = Vec::new(alloc);
    if fault_in(verdict).is_none() {
        return Ok(fronts);
    }
    for part in parts {
        fronts.push(Vec::from_slice(alloc, part.front())?)?;
    }
    Ok(fronts)
}

/// Checks one to 64 exports, in the order of time, against the original as `run_parts` does and writes its line; then writes
/// sentences for whoever has to act on it. Of each export it is said how its header and its samples aren't as claimed, and of the
/// annotations of all together how these aren't; where a file has a fault, the first one of each. All files are read once, and opened
/// anew for what is tried and for the faults of exports that a check leaves aside.
///
/// The line and the outcome are what `run_parts` promises. Of the sentences nothing is promised but that they stand behind it, nor
/// of what was written where there is an error: it is that of `run_parts`, or one of a later reading.
pub fn run_explained_parts<O: Source + Drop, E: Source + Drop, K: Sink, R: PartsRecordings>(
    alloc: Global,
    original: &mut FrontSource<O>,
    parts: &mut [FrontSource<E>],
    question: Question<'_, R>,
    sink: &mut K,
) -> Result<Outcome, PartsRunStop>
    requires some { 0 < length parts.old }
    requires few { length parts.old ≤ 64 }
    ensures report { IfOk result (λ outcome. IsTrue (⟦<FrontSource<O> as Source>⟧.is_honest original.old) →
        AllByRecursion IsTrue (map ⟦<FrontSource<E> as Source>⟧.is_honest parts.old) →
        IsTrue (K.is_honest sink.old) →
        ArePartsExplained (⟦<FrontSource<O> as Source>⟧.left original.old)
        (map ⟦<FrontSource<E> as Source>⟧.left parts.old) question.entry.claim_text.now (K.held sink.old)
        (K.held sink.new) outcome) }
    ensures honesty { IsTrue (K.is_honest sink.old) → IsTrue (K.is_honest sink.new) }
{
    let count = parts.len() as u16;
    let Question { claim_text, again } = question;
    let claim = claim_of(alloc, claim_text)?;
    let wanted = Wanted {
        claim_text,
        claim: &claim,
        hidden: asks_for_texts(&claim),
    };
    let CheckedParts { verdict, found } = findings_of_parts(alloc, original, parts, wanted)?;
    let line = verdict.line(alloc, count)?;
    put_all(sink, &line)?;
    let fronts = fronts_of(alloc, parts, &verdict.verdict)?;
    let asked = PartsAsked {
        asked: Asked {
            tries: SeveralExports { recordings: again },
            claim_text,
            verdict: &verdict.verdict,
        },
        part: verdict.part,
        original_front: original.front(),
        fronts: &fronts,
    };
    let said = explain_parts(alloc, &asked, found)?;
    put_sentences(sink, &said)?;
    Ok(verdict.verdict.outcome())
}
