//! Which of several exports have annotations at a time, and which covers it.

use crate::words::parts as words;
use edf_findings::{Findings, Notes, OnlyInOne, PartFindings};
use edf_sentences::{Piece, Text};
use edf_stream::Note;
use std::alloc::AllocError;

/// Says how many annotations of a part begin at a time, if there are any.
fn say_part_then(
    text: &mut Text,
    number: u16,
    part: &PartFindings,
    onset: i128,
) -> Result<(), AllocError> {
    let number = Piece::Number(i128::from(number));
    match part.count_at(onset) {
        0 => Ok(()),
        1 => text.say(words::NOTE_THEN, &[number]),
        count => text.say(words::NOTES_THEN, &[number, Piece::Number(count as i128)]),
    }
}

/// Says of each of several exports how many of its annotations begin at a time. Where there is one export alone, and where it isn't known
/// of all annotations in which export they are, nothing is said.
pub(crate) fn say_parts_then(
    text: &mut Text,
    seen: &Findings<'_>,
    onset: i128,
) -> Result<(), AllocError> {
    if seen.others().is_empty() || !seen.has_all_onsets() {
        return Ok(());
    }
    say_part_then(text, 0, seen.first(), onset)?;
    let mut number: u16 = 0;
    for part in seen.others() {
        number = number.saturating_add(1);
        say_part_then(text, number, part, onset)?;
    }
    Ok(())
}

/// Says that a part covers a time, if it does.
fn say_if_within(
    text: &mut Text,
    number: u16,
    part: &PartFindings,
    onset: i128,
) -> Result<(), AllocError> {
    if part.covers(onset) {
        text.say(words::NOTE_WITHIN, &[Piece::Number(i128::from(number))])?;
    }
    Ok(())
}

/// Says which of several exports covers a time, if one does. Where there is one export alone, nothing is said.
pub(crate) fn say_part_within(
    text: &mut Text,
    seen: &Findings<'_>,
    onset: i128,
) -> Result<(), AllocError> {
    if seen.others().is_empty() {
        return Ok(());
    }
    say_if_within(text, 0, seen.first(), onset)?;
    let mut number: u16 = 0;
    for part in seen.others() {
        number = number.saturating_add(1);
        say_if_within(text, number, part, onset)?;
    }
    Ok(())
}

/// Whether a part has as many annotations as these, and some that begin when the first and the last of these do.
fn may_have_all(part: &PartFindings, kept: &[Note]) -> bool {
    match (kept.first(), kept.last()) {
        (Some(first), Some(last)) => {
            part.onsets().len() == kept.len()
                && part.count_at(first.onset) > 0
                && part.count_at(last.onset) > 0
        }
        _ => false,
    }
}

/// Whether two annotations are there, and are the same.
fn are_same(first: Option<&Note>, second: Option<&Note>) -> bool {
    match (first, second) {
        (Some(note), Some(other)) => note == other,
        _ => false,
    }
}

/// Whether all annotations that are too many are those that are kept, in their order, each so many times.
fn are_kept_again(notes: &Notes, extra: &[usize], times: usize) -> bool {
    for (i, place) in extra.iter().enumerate() {
        let Some(number) = i.checked_div(times) else {
            return false;
        };
        if !are_same(notes.kept.get(number), notes.exported.get(*place)) {
            return false;
        }
    }
    true
}

/// Says that it looks as if each of several exports had all annotations: none is missing, those that are too many are the kept ones, once for
/// each further export, and each export has as many as are kept, some of which begin when the first and the last of these do. Where the
/// claim keeps one alone nothing is said.
pub(crate) fn say_if_each_has_all(
    text: &mut Text,
    seen: &Findings<'_>,
    only: &OnlyInOne,
) -> Result<(), AllocError> {
    let kept = seen.notes().kept.as_slice();
    let further = seen.others().len();
    if kept.len() < 2 || further == 0 || !only.missing.is_empty() || !seen.has_all_onsets() {
        return Ok(());
    }
    let each_may = may_have_all(seen.first(), kept)
        && seen.others().iter().all(|part| may_have_all(part, kept));
    if !each_may || !are_kept_again(seen.notes(), &only.extra, further) {
        return Ok(());
    }
    text.say(words::ALL_IN_EACH, &[Piece::Number(kept.len() as i128)])
}
