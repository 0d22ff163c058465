//! Other shifts than the claimed one, each tried by a check.

use crate::words::tried as words;
use edf_findings::Starts;
use edf_sentences::{FULL_STOP, NEXT, Piece, Text};
use edf_trial::{Asked, TriedAnswer, Tries, is_better, with_shift};
use edf_verdict::{Difference, Verdict};
use std::alloc::{AllocError, Global};

/// A shift that was tried, and what the check answers with it.
#[derive(Drop)]
pub(crate) struct TriedShift {
    pub(crate) seconds: i64,
    pub(crate) answer: TriedAnswer,
}

/// The shifts that were tried.
#[derive(Drop)]
pub(crate) struct TriedShifts {
    shifts: Vec<i64>,
    /// The one with the best answer, where that is better than the one with the claimed shift.
    best: Option<TriedShift>,
}

impl TriedShifts {
    /// None.
    pub(crate) fn none(alloc: Global) -> TriedShifts {
        TriedShifts {
            shifts: Vec::new(alloc),
            best: None,
        }
    }

    /// Takes in that a shift was tried.
    fn remember(&mut self, seconds: i64) -> Result<(), AllocError> {
        self.shifts.push(seconds)?;
        Ok(())
    }

    /// Tries a shift. One with which the first samples that are kept aren't as claimed is no better one. Where a file has a fault
    /// now, it can't be read once more, as a pipe, and nothing was tried.
    fn try_shift<T: Tries + Drop>(
        &mut self,
        alloc: Global,
        asked: &Asked<'_, T>,
        first_ps: i128,
        seconds: i64,
    ) -> Result<(), T::Stop> {
        let Some(claim_text) = with_shift(alloc, asked.claim_text, seconds)? else {
            return Ok(());
        };
        let answer = asked.tries.answer(alloc, &claim_text)?;
        if is_of_fault(&answer.verdict) {
            return Ok(());
        }
        self.remember(seconds)?;
        let best = match &self.best {
            Some(best) => &best.answer.verdict,
            None => asked.verdict,
        };
        if is_better(&answer.verdict, best) && is_behind(&answer.verdict, first_ps) {
            self.best = Some(TriedShift { seconds, answer });
        }
        Ok(())
    }

    /// Tries the shifts that the starts suggest, until the check answers with a Yes. Nothing is tried where another shift can't
    /// change the first difference: where the headers differ, or the export starts as claimed.
    pub(crate) fn of<T: Tries + Drop>(
        alloc: Global,
        asked: &Asked<'_, T>,
        starts: Option<Starts>,
    ) -> Result<TriedShifts, T::Stop> {
        let mut shifts = TriedShifts::none(alloc);
        let Some(starts) = starts else {
            return Ok(shifts);
        };
        if starts.are_same() || !is_behind_headers(asked.verdict) {
            return Ok(shifts);
        }
        for seconds in starts.candidates(alloc)? {
            if !shifts.has_yes() {
                shifts.try_shift(alloc, asked, starts.first_ps, seconds)?;
            }
        }
        Ok(shifts)
    }

    /// Whether no shift was tried.
    pub(crate) fn are_none(&self) -> bool {
        self.shifts.is_empty()
    }

    /// Whether the check answers with a Yes with one of the shifts.
    pub(crate) fn has_yes(&self) -> bool {
        match &self.best {
            Some(best) => best.answer.is_yes(),
            None => false,
        }
    }

    /// The shift with which all samples are as claimed, and annotations aren't.
    pub(crate) fn for_samples(&self) -> Option<&TriedShift> {
        let best = self.best.as_ref()?;
        match &best.answer.verdict {
            Verdict::No(Difference::Annotation { .. }) => Some(best),
            _ => None,
        }
    }

    /// Says which of the shifts has a better answer than the claimed one, and with which one all else is reckoned.
    pub(crate) fn say(&self, text: &mut Text, starts: &Starts) -> Result<(), AllocError> {
        let claimed = starts.shift_seconds();
        let Some(best) = &self.best else {
            self.say_shifts(text, starts.can_fit())?;
            return say_reckoned(text, words::RECKONED_AS_CLAIMED, claimed);
        };
        let seconds = i128::from(best.seconds);
        let pieces = [Piece::Number(seconds), Piece::Plain(best.answer.line())];
        if self.has_yes() {
            return text.say(words::WITH_SHIFT_YES, &pieces);
        }
        text.say(words::WITH_SHIFT_NO, &pieces)?;
        if self.for_samples().is_some() {
            return say_reckoned(text, words::RECKONED_ANEW, seconds);
        }
        say_reckoned(text, words::RECKONED_AS_CLAIMED, claimed)
    }

    /// Says which shifts were tried, where none has a better answer; and what it looks like, where the one with which the export
    /// would start as claimed is among them.
    fn say_shifts(&self, text: &mut Text, can_fit: bool) -> Result<(), AllocError> {
        let mut front = words::NO_BETTER_SHIFT;
        for seconds in &self.shifts {
            text.add(front, &[Piece::Number(i128::from(*seconds))])?;
            front = NEXT;
        }
        if self.shifts.is_empty() {
            return Ok(());
        }
        let behind = if can_fit {
            words::CUT_ELSEWHERE
        } else {
            FULL_STOP
        };
        text.say(behind, &[])
    }
}

/// Whether a verdict is that a file has a fault.
fn is_of_fault(verdict: &Verdict) -> bool {
    matches!(
        verdict,
        Verdict::No(Difference::OriginalFault(_) | Difference::ExportFault(_))
    )
}

/// Whether the first difference is behind the first sample that is kept, if it is one of samples.
fn is_behind(verdict: &Verdict, first_ps: i128) -> bool {
    match verdict {
        Verdict::No(Difference::Sample { at_ps, .. }) => *at_ps > first_ps,
        _ => true,
    }
}

/// Says with which shift, in seconds, all else is reckoned.
fn say_reckoned(text: &mut Text, sentence: &str, seconds: i128) -> Result<(), AllocError> {
    text.say(sentence, &[Piece::Number(seconds)])
}

/// Whether the headers are as claimed, and samples or annotations aren't.
fn is_behind_headers(verdict: &Verdict) -> bool {
    matches!(
        verdict,
        Verdict::No(Difference::Sample { .. } | Difference::Annotation { .. })
    )
}
