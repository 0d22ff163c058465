//! What is printed of a claim.

ghost use Rattle.std.specs.Prelude.{◌≡◌, ◌++◌, ◌<◌, length, IfOk, OnOk};
ghost use Rattle.edf_claim_text.specs.Printed.{excess_line, length_comment, IsPrinted};

use crate::lines::plain_text;
use crate::same::is_said_by;
use edf_claim::{Claim, MOST_CLAIM_BYTES};
use edf_verdict::Outcome;
use std::alloc::{AllocError, Global};

/// The text that is printed, and the outcome.
#[derive(Drop)]
pub(crate) struct Printed {
    pub(crate) text: Vec<u8>,
    pub(crate) outcome: Outcome,
}

/// Puts the comment that a text has so many bytes too many for a claim behind it.
#[tactic(auto, unfolding(crate::specs::Printed::excess_line))]
fn push_excess(text: &mut Vec<u8>, alloc: Global, excess: usize) -> Result<(), AllocError>
    ensures { OnOk result (text.new.items ≡ text.old.items ++ excess_line excess) }
{
    let comment = format!(in alloc; "# too long for a claim; bytes that are too many: {excess}\n")?;
    text.extend_from_slice(comment.as_bytes())
}

/// Puts that comment behind a text, where it is longer than a claim may be.
fn push_length_comment(text: &mut Vec<u8>, alloc: Global) -> Result<(), AllocError>
    ensures { OnOk result (text.new.items ≡ text.old.items ++ length_comment (length text.old.items)) }
{
    if text.len() > MOST_CLAIM_BYTES {
        let excess = text.len() - MOST_CLAIM_BYTES;
        push_excess(text, alloc, excess)?;
    }
    Ok(())
}

/// What is printed of a claim: a text that says it, with the outcome `Yes`. Behind one that is longer than a claim may be, a comment
/// says by how much.
///
/// The text is read as a claim before it is given. The outcome is `No` where it doesn't say this claim, which happened with none
/// that was tried. The error is want of memory.
pub(crate) fn printed_of(alloc: Global, claim: &Claim) -> Result<Printed, AllocError>
    ensures { IfOk result (λ printed. IsPrinted claim.now printed.text.items printed.outcome) }
{
    let mut text = plain_text(alloc, claim)?;
    let outcome = if is_said_by(alloc, claim, &text)? {
        Outcome::Yes
    } else {
        Outcome::No
    };
    push_length_comment(&mut text, alloc)?;
    Ok(Printed { text, outcome })
}
