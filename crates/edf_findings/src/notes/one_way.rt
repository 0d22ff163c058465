//! Annotations that all differ in one way.

ghost use Rattle.std.specs.Prelude.{◌≡◌, ◌<◌, length, map, IfOk, IfSome, IsTrue};
ghost use Rattle.std.specs.List.Sorted.{IsPermutation};
ghost use Rattle.edf_findings.specs.OneWays.{AreMoved, AreTimesAndTexts, AreWithoutDurations, DifferIn, IsLaterBy, IsPairMoved, IsTimeAndText, said_in};

use crate::notes::both::Notes;
use edf_pace::OnlyInOne;
use edf_stream::Note;
use std::alloc::{AllocError, Global};

/// How few annotations are listed one by one, though they differ in one way.
const LISTED: usize = 1;

/// Of how many annotations at most it is asked whether they lack their durations, since their texts are put in order.
const MOST_IN_ORDER: usize = 100_000;

/// In which one way all annotations differ that only one of the files has.
#[derive(Clone, Copy)]
pub enum OneWay {
    /// Each is in the export so much later, with its text and its duration.
    Moved(i128),
    /// Each is in the export at its time, with its text and without its duration.
    WithoutDurations,
}

/// By how much an annotation of the export is later than one that is kept, where it has its text and its duration.
fn later_by(kept: &Note, exported: &Note) -> Option<i128>
    ensures { IfSome result (λ later. IsLaterBy later kept.now exported.now) }
{
    if kept.text == exported.text && kept.duration == exported.duration {
        Some(exported.onset.saturating_sub(kept.onset))
    } else {
        None
    }
}

/// The same of the two annotations that stand at one place of those that only one file has.
fn later_at(notes: &Notes, only: &OnlyInOne, place: usize) -> Option<i128>
    ensures { IfSome result (λ later. IsPairMoved notes.now only.now later place) }
{
    let kept = notes.kept.get(*only.missing.get(place)?)?;
    let exported = notes.exported.get(*only.extra.get(place)?)?;
    later_by(kept, exported)
}

/// By how much all annotations of the export that aren't kept are later than those that it lacks.
fn moved_by(notes: &Notes, only: &OnlyInOne) -> Option<i128>
    ensures { IfSome result (AreMoved notes.now only.now) }
{
    let moved = later_at(notes, only, 0)?;
    for place in 0..only.missing.len() {
        if later_at(notes, only, place) != Some(moved) {
            return None;
        }
    }
    Some(moved)
}

/// When the annotation at a place begins, and its text; none where it has a duration and shouldn't, or the other way round.
fn time_and_text(notes: &[Note], place: usize, has_duration: bool) -> Option<(i128, &[u8])>
    ensures { IfSome result (IsTimeAndText has_duration notes.entry.now place) }
{
    let note = notes.get(place)?;
    if note.duration.is_some() == has_duration {
        Some((note.onset, note.text.as_str().as_bytes()))
    } else {
        None
    }
}

/// The times and the texts of annotations; none where one has a duration and shouldn't, or the other way round.
///
/// The error is want of memory.
fn times_and_texts<'a>(
    alloc: Global,
    notes: &'a [Note],
    places: &[usize],
    have_durations: bool,
) -> Result<Option<Vec<(i128, &'a [u8])>>, AllocError>
    ensures { IfOk result (λ found. IfSome found (λ listed.
        AreTimesAndTexts have_durations notes.entry.now places.now listed.items)) }
{
    let mut found = Vec::new(alloc);
    for place in places {
        let Some(said) = time_and_text(notes, *place, have_durations) else {
            return Ok(None);
        };
        found.push(said)?;
    }
    Ok(Some(found))
}

/// Whether these are the same times and texts, each as often.
fn are_same(mut kept: Vec<(i128, &[u8])>, mut exported: Vec<(i128, &[u8])>) -> bool
    ensures { IsTrue result → IsPermutation (map said_in kept.entry.items)
        (map said_in exported.entry.items) }
{
    kept.sort_unstable();
    exported.sort_unstable();
    kept == exported
}

/// Whether the annotations of the export that aren't kept are those that it lacks without their durations.
///
/// The error is want of memory.
fn are_without_durations(alloc: Global, notes: &Notes, only: &OnlyInOne) -> Result<bool, AllocError>
    ensures { IfOk result (λ are. IsTrue are → AreWithoutDurations notes.now only.now) }
{
    let kept = times_and_texts(alloc, &notes.kept, &only.missing, true)?;
    let exported = times_and_texts(alloc, &notes.exported, &only.extra, false)?;
    match (kept, exported) {
        (Some(kept), Some(exported)) => Ok(are_same(kept, exported)),
        _ => Ok(false),
    }
}

/// In which one way all annotations differ that only one of the files has, where there are several and there is one.
///
/// The error is want of memory.
pub fn one_way(alloc: Global, notes: &Notes, only: &OnlyInOne) -> Result<Option<OneWay>, AllocError>
    ensures several { IfOk result (λ way. IfSome way (λ found. 1 < length only.now.missing.items)) }
    ensures pairs { IfOk result (λ way. IfSome way (λ found. length only.now.missing.items ≡
        length only.now.extra.items)) }
    ensures differ { IfOk result (λ way. IfSome way (DifferIn notes.now only.now)) }
{
    if only.missing.len() <= LISTED || only.missing.len() != only.extra.len() {
        return Ok(None);
    }
    if let Some(later) = moved_by(notes, only) {
        return Ok(Some(OneWay::Moved(later)));
    }
    if only.missing.len() <= MOST_IN_ORDER && are_without_durations(alloc, notes, only)? {
        return Ok(Some(OneWay::WithoutDurations));
    }
    Ok(None)
}
