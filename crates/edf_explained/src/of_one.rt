//! A check of two files under the text of a claim, with its line and sentences behind it.

ghost use Rattle.std.specs.Prelude.{IfOk, IsTrue};
ghost use Rattle.edf_explained.specs.Explained.{IsExplained};

use crate::lent::Lent;
use crate::question::Question;
use crate::sentences::put_sentences;
use edf_claim::Claim;
use edf_explain::{Fronts, explain_one};
use edf_fields::{Sink, Source, put_all};
use edf_findings::{Checked, FrontSource, Wanted, findings_of};
use edf_sentences::FRONT;
use edf_stop::RunStop;
use edf_trial::{Asked, OneExport, Recordings};
use edf_verdict::Outcome;
use edf_warnings::asks_for_texts;
use std::alloc::Global;

/// Checks the export against the original as `run` does and writes its line; then writes sentences for whoever has to act on it.
/// Both files are read once, and opened anew for what is tried.
///
/// The line and the outcome are what `run` promises. Of the sentences nothing is promised but that they stand behind it, nor of
/// what was written where there is an error: it is that of `run`, or one of a later reading.
pub fn run_explained<O: Source, E: Source, K: Sink, R: Recordings>(
    alloc: Global,
    original: &mut O,
    export: &mut E,
    question: Question<'_, R>,
    sink: &mut K,
) -> Result<Outcome, RunStop>
    ensures report { IfOk result (λ outcome. IsTrue (O.is_honest original.old) →
        IsTrue (E.is_honest export.old) → IsTrue (K.is_honest sink.old) →
        IsExplained (O.left original.old) (E.left export.old) question.entry.claim_text.now (K.held sink.old)
        (K.held sink.new) outcome) }
    ensures honesty { IsTrue (K.is_honest sink.old) → IsTrue (K.is_honest sink.new) }
{
    let Question { claim_text, again } = question;
    let claim = Claim::read(alloc, claim_text)?;
    let wanted = Wanted {
        claim_text,
        claim: &claim,
        hidden: asks_for_texts(&claim),
    };
    let mut first = FrontSource::new(alloc, Lent::new(original), FRONT);
    let mut second = FrontSource::new(alloc, Lent::new(export), FRONT);
    let Checked { verdict, found } = findings_of(alloc, &mut first, &mut second, wanted)?;
    let line = verdict.line(alloc)?;
    put_all(sink, &line)?;
    let asked = Asked {
        tries: OneExport { recordings: again },
        claim_text,
        verdict: &verdict,
    };
    let fronts = Fronts {
        original: first.front(),
        export: second.front(),
    };
    let said = explain_one(alloc, &asked, found, fronts)?;
    put_sentences(sink, &said)?;
    Ok(verdict.outcome())
}
