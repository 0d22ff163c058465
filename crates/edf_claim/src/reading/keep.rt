//! The intervals of time that a claim keeps.

ghost use Rattle.std.specs.Prelude.{◌≡◌, ℤ, option_map, option_and_then, IfOk, IfSome, None, Some, length, unsigned_abs, ◌<◌, ◌≤◌, ◌^◌, ◌+◌, codes};
ghost use Rattle.std.specs.List.{All};
ghost use Rattle.toml.specs.View.{view, table_view, array_view};
ghost use Rattle.edf_claim.specs.Reading.{span_at as span_at_key, interval_from as interval_from_bounds, interval_of, intervals_of, is_followed_by as is_followed_by_any, are_in_order as are_in_order_list, keep_of};

use crate::claim_key;
use crate::kept::interval::Interval;
use crate::reading::keys::has_interval_keys;
use crate::reading::table::{text_at, value_at};
use edf_fields::span;
use std::alloc::{AllocError, Global};
use toml::Table;
use toml::value::Array;

/// The most intervals that a claim may have.
pub const MOST_INTERVALS: usize = 1_000;

/// The time that a text at a key spells, in picoseconds.
fn span_at(table: &Table, key: &str) -> Option<i128>
    ensures { result ≡ span_at_key key.now (table_view table.now) }
{
    match text_at(table, key) {
        Some(text) => span(text.as_bytes()),
        None => None,
    }
}

/// The interval with these bounds, where the first is below the second.
fn interval_from(from_ps: i128, to_ps: i128) -> Option<Interval>
    ensures { result ≡ interval_from_bounds from_ps to_ps }
{
    if from_ps < to_ps {
        Some(Interval { from_ps, to_ps })
    } else {
        None
    }
}

/// The interval that a table says.
#[tactic(auto, unfolding(crate::specs::Reading::interval_of))]
fn interval_in(table: &Table) -> Option<Interval>
    ensures { result ≡ interval_of (table_view table.now) }
{
    if !has_interval_keys(table) {
        return None;
    }
    match span_at(table, claim_key::FROM) {
        Some(from_ps) => match span_at(table, claim_key::TO) {
            Some(to_ps) => interval_from(from_ps, to_ps),
            None => None,
        },
        None => None,
    }
}

/// The intervals of an array of tables, where each item is one.
fn intervals_in(alloc: Global, array: &Array) -> Result<Option<Vec<Interval>>, AllocError>
    ensures { IfOk result (λ r. option_map (λ v. v.items) r ≡ intervals_of (array_view array.now)) }
{
    let mut found = Vec::new(alloc);
    for value in array {
        let Some(table) = value.as_table() else {
            return Ok(None);
        };
        match interval_in(table) {
            Some(interval) => found.push(interval)?,
            None => return Ok(None),
        }
    }
    Ok(Some(found))
}

/// Whether nothing follows the interval, or one that begins where it ends or later.
fn is_followed_by(interval: Interval, others: &[Interval]) -> bool
    ensures { result ≡ is_followed_by_any interval others.now }
{
    match others {
        [next, ..] => interval.to_ps <= next.from_ps,
        [] => true,
    }
}

/// Whether each interval ends before the next one begins, or where it does.
fn are_in_order(intervals: &[Interval]) -> bool
    ensures { result ≡ are_in_order_list intervals.now }
{
    for (i, interval) in intervals.iter().enumerate() {
        if !is_followed_by(*interval, &intervals[i + 1..]) {
            return false;
        }
    }
    true
}

/// The intervals that are kept: 1 to 1,000 tables, each with a `from` and a `to` above it and no
/// other key, in order; one may begin where the one before ends.
#[tactic(auto, unfolding(crate::specs::Reading::keep_of))]
pub(crate) fn keep(alloc: Global, table: &Table) -> Result<Option<Vec<Interval>>, AllocError>
    ensures { IfOk result (λ r. option_map (λ v. v.items) r ≡ keep_of (table_view table.now)) }
{
    let Some(value) = value_at(table, claim_key::KEEP) else {
        return Ok(None);
    };
    let Some(array) = value.as_array() else {
        return Ok(None);
    };
    match intervals_in(alloc, array)? {
        Some(intervals)
            if !intervals.is_empty()
                && intervals.len() <= MOST_INTERVALS
                && are_in_order(&intervals) => { Ok(Some(intervals)) }
        _ => Ok(None),
    }
}
