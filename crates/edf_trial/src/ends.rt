//! A claim that keeps what begins at the end of one of its intervals.

ghost use Rattle.std.specs.Prelude.{◌≡◌, IfOk, IfSome, IsTrue};
ghost use Rattle.edf_trial.specs.Changes.{IsExtendedBy, picosecond as picosecond_at, SaysExtended};

use crate::alike::{claim_in, is_extended};
use crate::changed::{put, table_of, text_of};
use edf_claim::{Claim, Interval, claim_key};
use edf_fields::{SECOND_PS, span};
use std::alloc::{AllocError, Global};
use toml::value::Array;
use toml::{Table, Value};

/// Whether an interval of a claim ends at a time, in picoseconds.
fn ends_at(interval: &Table, at_ps: i128) -> bool {
    match interval.get(claim_key::TO) {
        Some(Value::String(text)) => span(text.as_str().as_bytes()) == Some(at_ps),
        _ => false,
    }
}

/// A time in picoseconds, as a claim says it.
fn seconds_of(alloc: Global, ps: i128) -> Result<Value, AllocError> {
    let whole = ps.div_euclid(SECOND_PS);
    let fraction = ps.rem_euclid(SECOND_PS);
    let text = format!(in alloc; "{whole}.{fraction:012}")?;
    Value::string(alloc, &text)
}

/// Lets the interval that ends at a time end a picosecond later; answers whether there is one.
fn move_end(alloc: Global, keep: &mut Array, at_ps: i128) -> Result<bool, AllocError> {
    for interval in keep.iter_mut() {
        if let Some(table) = interval.as_table_mut()
            && ends_at(table, at_ps)
        {
            let later = seconds_of(alloc, at_ps.saturating_add(1))?;
            put(alloc, table, claim_key::TO, later)?;
            return Ok(true);
        }
    }
    Ok(false)
}

/// The text of a claim of which the interval that ends at a time ends a picosecond later; none where it isn't TOML, or no
/// interval ends there.
fn text_with(alloc: Global, claim_text: &[u8], at_ps: i128) -> Result<Option<Vec<u8>>, AllocError> {
    let Some(mut table) = table_of(alloc, claim_text)? else {
        return Ok(None);
    };
    let is_moved = match table.get_mut(claim_key::KEEP) {
        Some(Value::Array(keep)) => move_end(alloc, keep, at_ps)?,
        _ => false,
    };
    if is_moved {
        text_of(alloc, &table)
    } else {
        Ok(None)
    }
}

/// The picosecond that begins at a time; none where it would end behind all times.
fn picosecond(at_ps: i128) -> Option<Interval>
    ensures { IfSome result (λ more. more ≡ picosecond_at at_ps) }
{
    let to_ps = at_ps.checked_add(1)?;
    Some(Interval {
        from_ps: at_ps,
        to_ps,
    })
}

/// Whether a text says this claim, but that what ends where an interval begins is longer by that, and so keeps what stands there.
///
/// The error is want of memory.
fn says_kept(alloc: Global, claim: &Claim, text: &[u8], more: Interval) -> Result<bool, AllocError>
    ensures { IfOk result (λ says. IsTrue says → IsExtendedBy claim.now more text.now) }
{
    let Some(other) = claim_in(alloc, text)? else {
        return Ok(false);
    };
    if is_extended(alloc, claim, &other, more)? {
        Ok(other.keeps_instant(more.from_ps, 1))
    } else {
        Ok(false)
    }
}

/// The text of the claim that says what another claim says, but that its interval that ends at a time, in picoseconds after the
/// second at which the original starts, ends a picosecond later, and so keeps what begins there; none where the text says no
/// claim, or there is no such claim.
///
/// The error is want of memory.
pub fn with_end(
    alloc: Global,
    claim_text: &[u8],
    at_ps: i128,
) -> Result<Option<Vec<u8>>, AllocError>
    ensures { IfOk result (λ text. IfSome text (λ t. SaysExtended claim_text.now at_ps t.items)) }
{
    let (Some(claim), Some(more)) = (claim_in(alloc, claim_text)?, picosecond(at_ps)) else {
        return Ok(None);
    };
    let Some(text) = text_with(alloc, claim_text, at_ps)? else {
        return Ok(None);
    };
    if says_kept(alloc, &claim, &text, more)? {
        Ok(Some(text))
    } else {
        Ok(None)
    }
}
