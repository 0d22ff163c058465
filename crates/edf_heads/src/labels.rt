//! Labels in the order of their bytes.

ghost use Rattle.std.specs.Prelude.{◌≡◌, map, IfOk, MatchOption};
ghost use Rattle.std.specs.Cmp.Lexicographic.{slice_cmp};
ghost use Rattle.std.specs.List.Sorted.{IsSorted};
ghost use Rattle.std.specs.Ordering.{nat_cmp};
ghost use Rattle.edf_fields.specs.Lists.{is_one_of};
ghost use Rattle.edf_heads.specs.Comparisons.{AreSorted, IsNoneOf, IsPlaceOf};

use edf_fields::SignalLabel;
use std::alloc::{AllocError, Global};
use std::cmp::Ordering;

/// The labels as they stand, each borrowed.
///
/// The error is want of memory.
fn borrow_each(alloc: Global, labels: &[SignalLabel]) -> Result<Vec<&[u8]>, AllocError>
    ensures { IfOk result (λ borrowed. map (λ label. label.now) borrowed.items ≡ labels.entry.now) }
{
    let mut borrowed = Vec::with_capacity(alloc, labels.len())?;
    for label in labels {
        borrowed.push(label.text())?;
    }
    Ok(borrowed)
}

/// The labels in the order of their bytes.
///
/// The error is want of memory.
pub fn in_order(alloc: Global, labels: &[SignalLabel]) -> Result<Vec<&[u8]>, AllocError>
    ensures { IfOk result (λ sorted. AreSorted labels.entry.now sorted.items) }
{
    let mut sorted = borrow_each(alloc, labels)?;
    sorted.sort_unstable();
    Ok(sorted)
}

/// The place of the label among these, which are in the order of their bytes; none where it is none of them.
pub fn place_among(sorted: &[&[u8]], label: &[u8]) -> Option<usize>
    requires { IsSorted (λ x y. slice_cmp nat_cmp x.now y.now) sorted.now }
    ensures { MatchOption result (IsNoneOf sorted.now label.now) (IsPlaceOf sorted.now label.now) }
{
    match sorted.binary_search_by(
        |other: &&[u8]| -> Ordering
            ensures { result ≡ slice_cmp nat_cmp other.now.now label.entry.now }
        { other.cmp(label) },
    ) {
        Ok(place) => Some(place),
        Err(_) => None,
    }
}

/// Whether the label is one of these, which are in the order of their bytes.
#[tactic(auto, using(crate::proofs::LabelFacts::found_said))]
pub(crate) fn is_found(sorted: &[&[u8]], label: &[u8]) -> bool
    requires { IsSorted (λ x y. slice_cmp nat_cmp x.now y.now) sorted.now }
    ensures { result ≡ is_one_of (map (λ t. t.now) sorted.now) label.now }
{
    place_among(sorted, label).is_some()
}
