//! What the check answers under a claim that was changed.

ghost use Rattle.std.specs.Prelude.{◌≡◌, ℕ, List, IfOk, IfSome, true};
ghost use Rattle.edf_trial.specs.Better.{is_better as is_better_of};
ghost use Rattle.edf_verdict.specs.declared.verdict.Verdict.{Verdict};
ghost use Rattle.edf_trial.specs.Tries.{IsAnswer, IsAnswerOnParts};

use crate::anew::check_anew;
use crate::better::is_better;
use crate::parts_anew::{PartsAnswer, check_parts_anew};
use crate::parts_recordings::PartsRecordings;
use crate::recordings::Recordings;
use edf_stop::{PartsRunStop, RunStop};
use edf_verdict::{Difference, PartsVerdict, Verdict};
use std::alloc::{AllocError, Global};

/// What the check answers under another claim, also as a line.
#[derive(Drop)]
pub struct TriedAnswer {
    pub verdict: Verdict,
    pub line: Vec<u8>,
}

impl TriedAnswer {
    /// Its line, without the end of it.
    pub fn line(&self) -> &[u8] {
        self.line.trim_ascii_end()
    }

    /// Whether it is a Yes.
    pub fn is_yes(&self) -> bool {
        matches!(&self.verdict, Verdict::Yes { .. })
    }

    /// Whether its first difference is none of the channels that are claimed and those that are there.
    pub fn has_channels(&self) -> bool {
        !is_of_channels(&self.verdict)
    }
}

/// Whether the first difference is that a channel is there that shouldn't be, or isn't there.
pub fn is_of_channels(verdict: &Verdict) -> bool {
    matches!(
        verdict,
        Verdict::No(
            Difference::UnknownChannel(_)
                | Difference::MissingChannel(_)
                | Difference::ExtraChannel(_)
        )
    )
}

/// Recordings that are opened anew for each try, and checked.
pub trait Tries {
    /// Why there is no answer.
    type Stop: From<AllocError>;

    /// Under the claim of a text, this is the verdict, and its line.
    ghost answers: { Self → List ℕ → Verdict → List ℕ → Type 0 };

    /// What the check answers under the claim of a text.
    fn answer(&self, alloc: Global, claim_text: &[u8]) -> Result<TriedAnswer, Self::Stop>
        ensures { IfOk result (λ a. answers self.now claim_text.now a.verdict a.line.items) };
}

/// An original and one export.
#[derive(Drop)]
pub struct OneExport<'a, R> {
    pub recordings: &'a R,
}

impl<'a, R: Recordings> Tries for OneExport<'a, R> {
    type Stop = RunStop;

    ghost answers = { λ t text verdict line. IsAnswer (R.are_honest t.recordings.now)
        (R.original t.recordings.now) (R.export t.recordings.now) text verdict line };

    fn answer(&self, alloc: Global, claim_text: &[u8]) -> Result<TriedAnswer, RunStop> {
        let verdict = check_anew(alloc, self.recordings, claim_text)?;
        let line = verdict.line(alloc)?;
        Ok(TriedAnswer { verdict, line })
    }
}

/// An original and several exports, in the order of time.
#[derive(Drop)]
pub struct SeveralExports<'a, R> {
    pub recordings: &'a R,
}

impl<'a, R: PartsRecordings> Tries for SeveralExports<'a, R> {
    type Stop = PartsRunStop;

    ghost answers = { λ t text verdict line. IsAnswerOnParts (R.are_honest t.recordings.now)
        (R.original t.recordings.now) (R.exports t.recordings.now) text verdict line };

    fn answer(&self, alloc: Global, claim_text: &[u8]) -> Result<TriedAnswer, PartsRunStop> {
        let PartsAnswer { verdict, parts } = check_parts_anew(alloc, self.recordings, claim_text)?;
        let line = verdict.line(alloc, parts)?;
        let PartsVerdict { verdict, .. } = verdict;
        Ok(TriedAnswer { verdict, line })
    }
}

/// What was asked: recordings, the text of a claim, and what the check answers.
#[derive(Drop)]
pub struct Asked<'a, T: Tries + Drop> {
    pub tries: T,
    pub claim_text: &'a [u8],
    pub verdict: &'a Verdict,
}

impl<'a, T: Tries + Drop> Asked<'a, T> {
    /// What the check answers under another claim, where that is better than what it answers under the one that was asked for.
    pub fn better_under(
        &self,
        alloc: Global,
        claim_text: &[u8],
    ) -> Result<Option<TriedAnswer>, T::Stop>
        ensures tried { IfOk result (λ found. IfSome found (λ a.
            T.answers self.now.tries claim_text.now a.verdict a.line.items)) }
        ensures better { IfOk result (λ found. IfSome found (λ a.
            is_better_of a.verdict self.now.verdict.now ≡ true)) }
    {
        let answer = self.tries.answer(alloc, claim_text)?;
        if is_better(&answer.verdict, self.verdict) {
            Ok(Some(answer))
        } else {
            Ok(None)
        }
    }
}
