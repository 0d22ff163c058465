//! The annotations that a claim removes.

ghost use Rattle.std.specs.Prelude.{◌≡◌, ◌<◌, [], map, length, option_map, option_and_then, nat_lt, IfOk, None, Some};
ghost use Rattle.std.specs.List.{list_all};
ghost use Rattle.toml.specs.View.{view, table_view};
ghost use Rattle.edf_claim.specs.Reading.{distinct_prefixes as distinct_prefixes_of, remove_of, remove_prefix_of};

use crate::claim_key;
use crate::reading::table::value_at;
use crate::reading::text_arrays::{copies_of, distinct_texts};
use std::alloc::{AllocError, Global};
use toml::{Table, Value};

/// The texts of the annotations that are removed: distinct texts, none where the key is absent.
#[tactic(auto, unfolding(crate::specs::Reading::remove_of))]
pub(crate) fn remove(alloc: Global, table: &Table) -> Result<Option<Vec<Vec<u8>>>, AllocError>
    ensures { IfOk result (λ r. option_map (λ v. map (λ t. t.items) v.items) r ≡
        remove_of (table_view table.now)) }
{
    match value_at(table, claim_key::REMOVE) {
        Some(value) => match distinct_texts(alloc, value)? {
            Some(texts) => Ok(Some(copies_of(alloc, &texts)?)),
            None => Ok(None),
        },
        None => Ok(Some(Vec::new(alloc))),
    }
}

/// Whether none of the texts is empty.
fn are_some(texts: &[&str]) -> bool
    ensures { result ≡ list_all (λ t. nat_lt 0 (length t)) (map (λ t. t.now) texts.now) }
{
    for text in texts {
        if text.is_empty() {
            return false;
        }
    }
    true
}

/// The texts of a value that is an array of distinct texts, none of them empty; none of them is copied.
fn distinct_prefixes(alloc: Global, value: &Value) -> Result<Option<Vec<&str>>, AllocError>
    ensures { IfOk result (λ r. option_map (λ v. map (λ t. t.now) v.items) r ≡
        distinct_prefixes_of (view value.now)) }
{
    let Some(texts) = distinct_texts(alloc, value)? else {
        return Ok(None);
    };
    if !are_some(&texts) {
        return Ok(None);
    }
    Ok(Some(texts))
}

/// The texts with which those of removed annotations begin: distinct texts, none of them empty, none where the
/// key is absent.
#[tactic(auto, unfolding(crate::specs::Reading::remove_prefix_of))]
pub(crate) fn remove_prefix(
    alloc: Global,
    table: &Table,
) -> Result<Option<Vec<Vec<u8>>>, AllocError>
    ensures { IfOk result (λ r. option_map (λ v. map (λ t. t.items) v.items) r ≡
        remove_prefix_of (table_view table.now)) }
{
    match value_at(table, claim_key::REMOVE_PREFIX) {
        Some(value) => match distinct_prefixes(alloc, value)? {
            Some(texts) => Ok(Some(copies_of(alloc, &texts)?)),
            None => Ok(None),
        },
        None => Ok(Some(Vec::new(alloc))),
    }
}
