//! A draft with what the check answers with it, which its first line says.

ghost use Rattle.std.specs.Prelude.{◌≡◌, ◌∷◌, [], ◌++◌, IfOk, IfSome};
ghost use Rattle.edf_claim.specs.Claims.{SaysClaimText};
ghost use Rattle.edf_draft.specs.FirstLines.{HasNotInFront, IsFirstLineOf, verdict_said, yes_front};
ghost use Rattle.edf_draft.specs.Tries.{IsTriedAs};

use crate::tries::trial::{Said, Trial};
use edf_claim::Draft;
use edf_claim::laws::tables_say_one_claim;
use edf_verdict::{Difference, Verdict};
use std::alloc::{AllocError, Global};

/// What stands in front of a Yes.
const YES: &str = "# With this draft the check answers: ";

/// What stands in front of a No, and behind one about samples.
const NOT_YES: &str = "# NOT A YES: with this draft the check answers: ";

const BEHIND_SAMPLE: &str =
    ". If the shift below is a wrong guess, keep and remove follow from it, and are wrong, too: set keep to the intervals that were meant, and edfclaim explain tries other shifts.";

/// What stands where the check couldn't be run.
const NOT_TRIED: &str =
    "# NOT TRIED: a file couldn't be read once more as it was, so that it isn't known whether the check with this draft is a Yes.\n";

/// The text of a draft, and the verdict of the check with it; none where a file couldn't be read once more as it was.
#[derive(Drop)]
pub(crate) struct Tried {
    pub text: Vec<u8>,
    pub verdict: Option<Verdict>,
}

/// A line of four parts.
fn line_of(alloc: Global, front: &str, said: &[u8], behind: &str) -> Result<Vec<u8>, AllocError>
    ensures { IfOk result (λ line. line.items ≡ front.now ++ (said.now ++ (behind.now ++ (10 ∷ [])))) }
{
    let mut line = Vec::from_slice(alloc, front.as_bytes())?;
    line.extend_from_slice(said)?;
    line.extend_from_slice(behind.as_bytes())?;
    line.push(b'\n')?;
    Ok(line)
}

/// What the first line of a draft says of a No.
#[tactic(auto, using(crate::proofs::FirstLineFacts::not_a_yes))]
fn no_line(alloc: Global, difference: &Difference, said: &[u8]) -> Result<Vec<u8>, AllocError>
    ensures { IfOk result (λ line. HasNotInFront line.items) }
{
    let behind = match difference {
        Difference::Sample { .. } => BEHIND_SAMPLE,
        _ => ".",
    };
    line_of(alloc, NOT_YES, said.trim_ascii_end(), behind)
}

/// What the first line of a draft says of a Yes.
fn yes_line(alloc: Global, said: &[u8]) -> Result<Vec<u8>, AllocError>
    ensures { IfOk result (λ line. line.items ≡ yes_front ++ said.now) }
{
    let mut line = Vec::from_slice(alloc, YES.as_bytes())?;
    line.extend_from_slice(said)?;
    Ok(line)
}

/// What the first line of a draft says where the check couldn't be run.
#[tactic(auto, using(crate::proofs::FirstLineFacts::not_tried))]
fn untried_line(alloc: Global) -> Result<Vec<u8>, AllocError>
    ensures { IfOk result (λ line. HasNotInFront line.items) }
{
    Vec::from_slice(alloc, NOT_TRIED.as_bytes())
}

/// The first line of a draft.
fn first_line(alloc: Global, said: &Option<Said>) -> Result<Vec<u8>, AllocError>
    ensures { IfOk result (λ line. IsFirstLineOf said.now line.items) }
{
    match said {
        Some(said) => match &said.verdict {
            Verdict::Yes { .. } => yes_line(alloc, &said.line),
            Verdict::No(difference) => no_line(alloc, difference, &said.line),
        },
        None => untried_line(alloc),
    }
}

/// The verdict of what was said.
fn verdict_of(said: Option<Said>) -> Option<Verdict>
    ensures { result ≡ verdict_said said }
{
    match said {
        Some(said) => Some(said.verdict),
        None => None,
    }
}

impl Tried {
    /// Tries a draft of this text: the text is given with what the check answers with it in its first line; none where it is
    /// longer than a claim may be then.
    pub(crate) fn new<T: Trial>(
        alloc: Global,
        draft: &Draft,
        text: &[u8],
        trial: &T,
    ) -> Result<Option<Tried>, AllocError>
        requires { SaysClaimText text.now draft.now }
        ensures { IfOk result (λ tried. IfSome tried (IsTriedAs (T.files trial.now) draft.now)) }
    {
        // so the text and the text with a line in front say the same
        tables_say_one_claim();
        let said = trial.said_of(alloc, text)?;
        let mut whole = first_line(alloc, &said)?;
        whole.extend_from_slice(text)?;
        if draft.is_said_by(alloc, &whole)? {
            Ok(Some(Tried {
                text: whole,
                verdict: verdict_of(said),
            }))
        } else {
            Ok(None)
        }
    }

    /// Its text.
    pub(crate) fn into_text(self) -> Vec<u8>
        ensures { result.items ≡ self.text.items }
    {
        self.text
    }
}
