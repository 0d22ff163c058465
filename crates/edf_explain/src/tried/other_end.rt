//! Another end of an interval than the claimed one, tried by a check.

use crate::words::tried as words;
use edf_claim::Claim;
use edf_findings::{Notes, OnlyInOne, is_at_end};
use edf_sentences::{Piece, Text};
use edf_trial::{Asked, TriedAnswer, Tries, with_end};
use edf_verdict::{Difference, Verdict};
use std::alloc::{AllocError, Global};

/// The end of an interval, which a picosecond later would have a better answer.
#[derive(Drop)]
struct OtherEnd {
    at_ps: i128,
    answer: TriedAnswer,
}

/// Whether the first difference is an annotation.
fn is_of_annotation(verdict: &Verdict) -> bool {
    matches!(verdict, Verdict::No(Difference::Annotation { .. }))
}

/// The first end of an interval at which an annotation begins that the export has and that isn't kept.
fn first_end(claim: &Claim, notes: &Notes, only: &OnlyInOne) -> Option<i128> {
    for place in &only.extra {
        if let Some(note) = notes.exported.get(*place)
            && is_at_end(claim, note.onset)
        {
            return Some(note.onset);
        }
    }
    None
}

impl OtherEnd {
    /// Tries the first end at which an annotation begins that isn't kept, where the first difference is an annotation; none
    /// where the answer isn't better.
    fn of<T: Tries + Drop>(
        alloc: Global,
        asked: &Asked<'_, T>,
        claim: &Claim,
        notes: &Notes,
        only: &OnlyInOne,
    ) -> Result<Option<OtherEnd>, T::Stop> {
        if !is_of_annotation(asked.verdict) {
            return Ok(None);
        }
        let Some(at_ps) = first_end(claim, notes, only) else {
            return Ok(None);
        };
        let Some(claim_text) = with_end(alloc, asked.claim_text, at_ps)? else {
            return Ok(None);
        };
        match asked.better_under(alloc, &claim_text)? {
            Some(answer) => Ok(Some(OtherEnd { at_ps, answer })),
            None => Ok(None),
        }
    }

    /// Says what the check answers with it.
    fn say(&self, text: &mut Text) -> Result<(), AllocError> {
        let sentence = if self.answer.is_yes() {
            words::WITH_END_YES
        } else {
            words::WITH_END_NO
        };
        let pieces = [
            Piece::Bare(self.at_ps.saturating_add(1)),
            Piece::Bare(self.at_ps),
            Piece::Plain(self.answer.line()),
        ];
        text.say(sentence, &pieces)
    }
}

/// Says with which other end of an interval the check answers better, if the first difference is an annotation and there is
/// such an end.
pub(crate) fn say_other_end<T: Tries + Drop>(
    text: &mut Text,
    asked: &Asked<'_, T>,
    claim: &Claim,
    notes: &Notes,
    only: &OnlyInOne,
) -> Result<(), T::Stop> {
    if let Some(other) = OtherEnd::of(text.alloc(), asked, claim, notes, only)? {
        other.say(text)?;
    }
    Ok(())
}
