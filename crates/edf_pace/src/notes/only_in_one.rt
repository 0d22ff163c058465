//! Which annotations don't stand equally often in two lists.

ghost use Rattle.std.specs.Prelude.{◌≡◌, ◌≤◌, ◌⊎◌, ◌++◌, [], ◌∷◌, length, map, IfOk, OnOk};
ghost use Rattle.edf_pace.specs.notes.OnlyInOne.{AreFoundTo, AreOnlyInOne, by_cmp, rest_from, said_at};

use crate::notes::note_difference::order;
use edf_stream::Note;
use std::alloc::{AllocError, Global};
use std::cmp::Ordering;

/// The places of annotations that stand in one of two lists alone: one that stands three times among the kept ones and once in
/// the export is missing twice.
#[derive(Drop)]
pub struct OnlyInOne {
    /// Among the kept ones, from the first one on.
    pub missing: Vec<usize>,
    /// In the export, from the first one on.
    pub extra: Vec<usize>,
}

/// Takes in the one of two heads that is before the other, by the places of both.
fn take_in(
    found: &mut OnlyInOne,
    which: Ordering,
    kept: usize,
    exported: usize,
) -> Result<(), AllocError>
    ensures missing { OnOk result (found.new.missing.items ≡
        found.old.missing.items ++ by_cmp which (kept ∷ []) [] []) }
    ensures extra { OnOk result (found.new.extra.items ≡
        found.old.extra.items ++ by_cmp which [] [] (exported ∷ [])) }
{
    match which {
        Ordering::Less => found.missing.push(kept)?,
        Ordering::Equal => {}
        Ordering::Greater => found.extra.push(exported)?,
    }
    Ok(())
}

/// Takes in the places of all annotations from a place on.
fn push_rest(places: &mut Vec<usize>, notes: &[Note], from: usize) -> Result<(), AllocError>
    requires { from ≤ length notes.now }
    ensures { OnOk result (map (said_at notes.now) places.new.items ≡
        map (said_at notes.now) places.old.items ++ rest_from notes.now from) }
{
    for place in from..notes.len() {
        places.push(place)?;
    }
    Ok(())
}

/// Finds those of two lists in order up to where one of them has no more, and answers how many of each were passed.
fn find_both(
    alloc: Global,
    kept: &[Note],
    exported: &[Note],
) -> Result<(OnlyInOne, usize, usize), AllocError>
    ensures kept { IfOk result (λ r. r.1 ≤ length kept.now) }
    ensures exported { IfOk result (λ r. r.2 ≤ length exported.now) }
    ensures over { IfOk result (λ r. (r.1 ≡ length kept.now) ⊎ (r.2 ≡ length exported.now)) }
    ensures value { IfOk result (λ r. AreFoundTo kept.entry.now exported.entry.now r.0 r.1 r.2) }
{
    let mut found = OnlyInOne {
        missing: Vec::new(alloc),
        extra: Vec::new(alloc),
    };
    let mut i = 0;
    let mut j = 0;
    while i < kept.len() && j < exported.len() {
        let which = order(&kept[i], &exported[j]);
        take_in(&mut found, which, i, j)?;
        i += usize::from(which.is_le());
        j += usize::from(which.is_ge());
    }
    Ok((found, i, j))
}

/// The annotations that don't stand equally often in two lists in order.
///
/// The error is want of memory.
pub fn only_in_one(alloc: Global, kept: &[Note], exported: &[Note]) -> Result<OnlyInOne, AllocError>
    ensures { IfOk result (AreOnlyInOne kept.entry.now exported.entry.now) }
{
    let (mut found, i, j) = find_both(alloc, kept, exported)?;
    push_rest(&mut found.missing, kept, i)?;
    push_rest(&mut found.extra, exported, j)?;
    Ok(found)
}
