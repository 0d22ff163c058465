//! Texts with which those of removed annotations begin, among which the begin of a text is found.

ghost use Rattle.std.specs.Prelude.{◌≡◌, ◌<◌, false, length, map, slice_index_or, IfOk};
ghost use Rattle.std.specs.Cmp.Lexicographic.{slice_cmp};
ghost use Rattle.std.specs.List.{list_any};
ghost use Rattle.std.specs.List.Sorted.{IsSorted};
ghost use Rattle.std.specs.Ordering.{nat_cmp};
ghost use Rattle.edf_claim.specs.KeepsReading.{begins_with_last, AreApart, IsPrefixIndex, begins_with};

use crate::reading::text_arrays::sorted_copies;
use std::alloc::{AllocError, Global};
use std::cmp::Ordering;

/// Whether the text begins with the last of these, if there are any.
#[tactic(auto, using(crate::proofs::PrefixFacts::last_tested))]
fn is_behind_last(shortest: &[Vec<u8>], text: &[u8]) -> bool
    ensures { result ≡ begins_with_last shortest.now text.now }
{
    match shortest.last() {
        Some(last) => text.starts_with(last),
        None => false,
    }
}

/// Those of the texts, which are in the order of their bytes, that begin with no other one.
///
/// The error is want of memory.
fn shortest_of(alloc: Global, sorted: &[Vec<u8>]) -> Result<Vec<Vec<u8>>, AllocError>
    requires { IsSorted (λ x y. slice_cmp nat_cmp x.items y.items) sorted.now }
    ensures { IfOk result (λ v. IsPrefixIndex (map (λ t. t.items) sorted.now) v.items) }
{
    let mut shortest: Vec<Vec<u8>> = Vec::new(alloc);
    for text in sorted {
        if !is_behind_last(&shortest, text) {
            shortest.push(Vec::from_slice(alloc, text)?)?;
        }
    }
    Ok(shortest)
}

/// Whether the text begins with one of these, which are in the order of their bytes, and none of which begins
/// with the one before it. So a text begins with one of them at most, and that is the last one that isn't behind
/// the text.
pub(crate) fn begins_with_one(shortest: &[Vec<u8>], text: &[u8]) -> bool
    requires order { IsSorted (λ x y. slice_cmp nat_cmp x.items y.items) shortest.now }
    requires apart { AreApart shortest.now }
    ensures { result ≡ list_any (λ prefix. begins_with prefix text.now) (map (λ t. t.items) shortest.now) }
{
    match shortest.binary_search_by(
        |other: &Vec<u8>| -> Ordering
            ensures { result ≡ slice_cmp nat_cmp other.now.items text.entry.now }
        { other.as_slice().cmp(text) },
    ) {
        Ok(_) => true,
        Err(behind) => is_behind_last(&shortest[..behind], text),
    }
}

/// Those of the texts that begin with no other one, in the order of their bytes.
///
/// The error is want of memory.
pub(crate) fn shortest_copies(alloc: Global, texts: &[Vec<u8>]) -> Result<Vec<Vec<u8>>, AllocError>
    ensures { IfOk result (λ v. IsPrefixIndex (map (λ t. t.items) texts.now) v.items) }
{
    let sorted = sorted_copies(alloc, texts)?;
    let shortest = shortest_of(alloc, &sorted)?;
    Ok(shortest)
}
