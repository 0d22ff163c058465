//! A claim that names other channels.

ghost use Rattle.std.specs.Prelude.{map, IfOk, IfSome, IsTrue};
ghost use Rattle.edf_trial.specs.Changes.{IsRenamedTo, SaysRenamed};

use crate::alike::{claim_in, is_renamed};
use crate::changed::{put, table_of, text_of};
use edf_claim::{Claim, claim_key};
use std::alloc::{AllocError, Global};
use toml::Value;

/// Labels as a list of TOML; none where one of them isn't text.
fn list_of(alloc: Global, labels: &[Vec<u8>]) -> Result<Option<Value>, AllocError> {
    let mut list = Vec::new(alloc);
    for label in labels {
        let Ok(label) = std::str::from_utf8(label) else {
            return Ok(None);
        };
        list.push(Value::string(alloc, label)?)?;
    }
    Ok(Some(Value::Array(list)))
}

/// The text of a claim with this list of channels; none where it isn't TOML.
fn text_with(alloc: Global, claim_text: &[u8], list: Value) -> Result<Option<Vec<u8>>, AllocError> {
    let Some(mut table) = table_of(alloc, claim_text)? else {
        return Ok(None);
    };
    put(alloc, &mut table, claim_key::CHANNELS, list)?;
    text_of(alloc, &table)
}

/// Whether a text says this claim, but that its channels are those with these labels, in this order.
///
/// The error is want of memory.
fn says_channels(
    alloc: Global,
    claim: &Claim,
    text: &[u8],
    labels: &[Vec<u8>],
) -> Result<bool, AllocError>
    ensures { IfOk result (λ says. IsTrue says →
        IsRenamedTo claim.now (map (λ l. l.items) labels.now) text.now) }
{
    match claim_in(alloc, text)? {
        Some(other) => Ok(is_renamed(claim, &other, labels)),
        None => Ok(false),
    }
}

/// The text of the claim that says what another claim says, but that its channels are those with these labels, in this order;
/// none where the text says no claim, or there is no such claim.
///
/// The error is want of memory.
pub fn with_channels(
    alloc: Global,
    claim_text: &[u8],
    labels: &[Vec<u8>],
) -> Result<Option<Vec<u8>>, AllocError>
    ensures { IfOk result (λ text.
        IfSome text (λ t. SaysRenamed claim_text.now (map (λ l. l.items) labels.now) t.items)) }
{
    let Some(claim) = claim_in(alloc, claim_text)? else {
        return Ok(None);
    };
    let Some(list) = list_of(alloc, labels)? else {
        return Ok(None);
    };
    let Some(text) = text_with(alloc, claim_text, list)? else {
        return Ok(None);
    };
    if says_channels(alloc, &claim, &text, labels)? {
        Ok(Some(text))
    } else {
        Ok(None)
    }
}
