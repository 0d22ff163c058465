//! The first difference between the annotations that a claim keeps of an original and those of an export.

ghost use Rattle.std.specs.Prelude.{◌≡◌, ◌≤◌, [], ◌∷◌, ◌⊎◌, map, length, take, drop, IfOk};
ghost use Rattle.std.specs.List.Sorted.{IsPermutation, IsSorted};
ghost use Rattle.edf_stream.specs.Views.{note_value};
ghost use Rattle.edf_pace.specs.Annotations.{note_cmp};
ghost use Rattle.edf_pace.specs.notes.NoteOrder.{IsFirstUnequal, IsNoteDifference, note_mismatch, unequal_view};

use crate::notes::unequal::Unequal;
use edf_stream::Note;
use edf_verdict::{AnnotationMismatch, NoteText};
use std::alloc::{AllocError, Global};
use std::cmp::Ordering;

/// An annotation that doesn't stand equally often among the kept ones and in the export.
#[derive(Drop)]
pub struct NoteDifference {
    pub mismatch: AnnotationMismatch,
    /// In picoseconds after the second at which the original starts, before the shift.
    pub onset: i128,
    /// In picoseconds, where there is one.
    pub duration: Option<i128>,
    pub text: NoteText,
}

/// Puts annotations in order, from this place on.
fn sort_notes(notes: &mut Vec<Note>, from: usize)
    requires { from ≤ length notes.old.items }
    ensures front { take from notes.new.items ≡ take from notes.old.items }
    ensures same { IsPermutation (drop from notes.old.items) (drop from notes.new.items) }
    ensures order { IsSorted (λ x y. note_cmp (note_value x) (note_value y)) (drop from notes.new.items) }
    ensures size { length notes.new.items ≡ length notes.old.items }
{
    notes[from..].sort_unstable();
}

/// Which of two annotations is before the other.
pub(crate) fn order(x: &Note, y: &Note) -> Ordering
    ensures { result ≡ note_cmp (note_value x.now) (note_value y.now) }
{
    x.cmp(y)
}

/// How many annotations at the front of two lists are the same, one by one.
fn same_front(kept: &[Note], exported: &[Note]) -> usize
    ensures kept { result ≤ length kept.now }
    ensures exported { result ≤ length exported.now }
    ensures same { map note_value (take result kept.now) ≡ map note_value (take result exported.now) }
{
    let most = kept.len().min(exported.len());
    for i in 0..most {
        if order(&kept[i], &exported[i]).is_ne() {
            return i;
        }
    }
    most
}

/// The annotation that two lists don't have equally often, where one of them at least has ended.
#[tactic(auto, using(crate::proofs::notes::NoteOrderFacts::missing_first, crate::proofs::notes::NoteOrderFacts::extra_first))]
fn unequal_of_ends<'a>(kept: &'a [Note], exported: &'a [Note]) -> Option<Unequal<'a>>
    requires { (length kept.now ≡ 0) ⊎ (length exported.now ≡ 0) }
    ensures { IsFirstUnequal kept.entry.now exported.entry.now result }
{
    if let [note, ..] = kept {
        return Some(Unequal {
            mismatch: AnnotationMismatch::Missing,
            note,
        });
    }
    if let [note, ..] = exported {
        return Some(Unequal {
            mismatch: AnnotationMismatch::Extra,
            note,
        });
    }
    None
}

/// The one of two annotations that is before the other.
fn unequal_of_heads<'a>(kept: &'a Note, exported: &'a Note) -> Option<Unequal<'a>>
    ensures { IsFirstUnequal (kept.entry.now ∷ []) (exported.entry.now ∷ []) result }
{
    match order(kept, exported) {
        Ordering::Less => Some(Unequal {
            mismatch: AnnotationMismatch::Missing,
            note: kept,
        }),
        Ordering::Equal => None,
        Ordering::Greater => Some(Unequal {
            mismatch: AnnotationMismatch::Extra,
            note: exported,
        }),
    }
}

/// The first annotation that two lists in order don't have equally often.
fn first_unequal<'a>(kept: &'a [Note], exported: &'a [Note]) -> Option<Unequal<'a>>
    ensures { IsFirstUnequal kept.entry.now exported.entry.now result }
{
    let both = kept.len().min(exported.len());
    for i in 0..both {
        let found = unequal_of_heads(&kept[i], &exported[i]);
        if found.is_some() {
            return found;
        }
    }
    unequal_of_ends(&kept[both..], &exported[both..])
}

/// The difference with a text of its own.
///
/// The error is want of memory.
fn with_text(alloc: Global, unequal: Unequal<'_>) -> Result<NoteDifference, AllocError>
    ensures { IfOk result (λ d. note_mismatch d ≡ unequal_view unequal.entry) }
{
    Ok(NoteDifference {
        mismatch: unequal.mismatch,
        onset: unequal.note.onset,
        duration: unequal.note.duration,
        text: NoteText::new(String::from_str(alloc, unequal.note.text.as_str())?),
    })
}

/// The first difference between kept annotations and those of an export: the least by onset, then duration,
/// none before any, then the bytes of the text, that doesn't stand equally often in both. None exactly
/// where each stands equally often in both.
///
/// A writer mostly keeps the order of the annotations. So those at the front that are the same one by one are left out,
/// and only what stands behind them is put in order. The error is want of memory.
pub fn note_difference(
    alloc: Global,
    kept: &mut Vec<Note>,
    exported: &mut Vec<Note>,
) -> Result<Option<NoteDifference>, AllocError>
    ensures value { IfOk result
        (IsNoteDifference (map note_value kept.old.items) (map note_value exported.old.items)) }
    ensures kept { IsPermutation kept.old.items kept.new.items }
    ensures exported { IsPermutation exported.old.items exported.new.items }
{
    let same = same_front(kept, exported);
    sort_notes(kept, same);
    sort_notes(exported, same);
    match first_unequal(&kept[same..], &exported[same..]) {
        Some(unequal) => Ok(Some(with_text(alloc, unequal)?)),
        None => Ok(None),
    }
}
