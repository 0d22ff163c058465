//! A claim that moves what it keeps by another time.

ghost use Rattle.std.specs.Prelude.{IfOk, IfSome, IsTrue};
ghost use Rattle.edf_trial.specs.Changes.{IsShiftedTo, SaysShifted};

use crate::alike::{claim_in, keep_alike};
use crate::changed::{put, table_of, text_of};
use edf_claim::{Claim, claim_key};
use std::alloc::{AllocError, Global};
use toml::Value;

/// The text of a claim with this shift; none where it isn't TOML.
fn text_with(
    alloc: Global,
    claim_text: &[u8],
    seconds: i64,
) -> Result<Option<Vec<u8>>, AllocError> {
    let Some(mut table) = table_of(alloc, claim_text)? else {
        return Ok(None);
    };
    put(alloc, &mut table, claim_key::SHIFT, Value::Integer(seconds))?;
    text_of(alloc, &table)
}

/// Whether a text says this claim, but that it moves what it keeps by so many seconds.
///
/// The error is want of memory.
fn says_shift(alloc: Global, claim: &Claim, text: &[u8], seconds: i64) -> Result<bool, AllocError>
    ensures { IfOk result (λ says. IsTrue says → IsShiftedTo claim.now seconds text.now) }
{
    match claim_in(alloc, text)? {
        Some(other) => Ok(other.has_shift(seconds) && keep_alike(claim, &other)),
        None => Ok(false),
    }
}

/// The text of the claim that says what another claim says, but that it moves what it keeps by so many seconds; none where
/// the text says no claim, or there is no such claim.
///
/// The error is want of memory.
pub fn with_shift(
    alloc: Global,
    claim_text: &[u8],
    seconds: i64,
) -> Result<Option<Vec<u8>>, AllocError>
    ensures { IfOk result (λ text. IfSome text (λ t. SaysShifted claim_text.now seconds t.items)) }
{
    let Some(claim) = claim_in(alloc, claim_text)? else {
        return Ok(None);
    };
    let Some(text) = text_with(alloc, claim_text, seconds)? else {
        return Ok(None);
    };
    if says_shift(alloc, &claim, &text, seconds)? {
        Ok(Some(text))
    } else {
        Ok(None)
    }
}
