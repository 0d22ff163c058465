//! Sentences on the annotations that aren't as claimed.

use crate::differences::clocks::Clocks;
use crate::differences::likeness::say_likeness;
use crate::differences::parts_then::{say_part_within, say_parts_then};
use crate::words::annotations as words;
use crate::words::parts::{NOTES_ADVICE_OF_PARTS, NOTES_ALL_OF_PARTS};
use edf_findings::{Findings, OneWay, OnlyInOne, one_way};
use edf_sentences::{NOT_LISTED, Piece, Text};
use edf_stream::Note;
use std::alloc::AllocError;

/// The most annotations of a kind that are listed.
const MOST_LISTED: usize = 20;

/// Says an annotation.
fn say_note(text: &mut Text, note: &Note, clocks: Clocks) -> Result<(), AllocError> {
    text.add(words::LISTED, &[])?;
    clocks.add(text, note.onset)?;
    match note.duration {
        Some(duration) => text.add(words::DURATION, &[Piece::Seconds(duration)])?,
        None => text.add(words::NO_DURATION, &[])?,
    }
    let said = note.text.as_str().as_bytes();
    text.say(words::NOTE_TEXT, &[Piece::Quoted(said)])
}

/// Says how many annotations there are of a kind.
fn say_count(text: &mut Text, one: &str, more: &str, count: usize) -> Result<(), AllocError> {
    match count {
        0 => Ok(()),
        1 => text.say(one, &[]),
        _ => text.say(more, &[Piece::Number(count as i128)]),
    }
}

/// Says how many annotations of a kind aren't listed.
fn say_others(text: &mut Text, count: usize) -> Result<(), AllocError> {
    match count.saturating_sub(MOST_LISTED) {
        0 => Ok(()),
        others => text.say(NOT_LISTED, &[Piece::Number(others as i128)]),
    }
}

/// Says which annotations the export lacks; of each that is listed, which of several exports covers its time.
fn say_missing(
    text: &mut Text,
    seen: &Findings<'_>,
    missing: &[usize],
    clocks: Clocks,
) -> Result<(), AllocError> {
    say_count(
        text,
        words::NOTE_MISSING,
        words::NOTES_MISSING,
        missing.len(),
    )?;
    for place in missing.iter().take(MOST_LISTED) {
        if let Some(note) = seen.notes().kept.get(*place) {
            say_note(text, note, clocks)?;
            say_part_within(text, seen, note.onset)?;
        }
    }
    say_others(text, missing.len())
}

/// Says which annotations the export has that aren't kept; of each that is listed, which of several exports have annotations at its
/// time, and, where that is asked for, what it looks like.
fn say_extra(
    text: &mut Text,
    seen: &Findings<'_>,
    only: &OnlyInOne,
    clocks: Clocks,
    wants_likeness: bool,
) -> Result<(), AllocError> {
    let notes = seen.notes();
    say_count(
        text,
        words::NOTE_EXTRA,
        words::NOTES_EXTRA,
        only.extra.len(),
    )?;
    for place in only.extra.iter().take(MOST_LISTED) {
        if let Some(note) = notes.exported.get(*place) {
            say_note(text, note, clocks)?;
            say_parts_then(text, seen, note.onset)?;
            if wants_likeness {
                say_likeness(text, seen.claim(), note, &notes.kept, &only.missing)?;
            }
        }
    }
    say_others(text, only.extra.len())
}

/// Says in which one way all annotations differ that only one of the files has.
fn say_one_way(text: &mut Text, only: &OnlyInOne, way: OneWay) -> Result<(), AllocError> {
    let count = Piece::Number(only.missing.len() as i128);
    match way {
        OneWay::Moved(later) if later < 0 => {
            text.say(words::NOTES_EARLIER, &[count, Piece::Length(later)])
        }
        OneWay::Moved(later) => text.say(words::NOTES_LATER, &[count, Piece::Length(later)]),
        OneWay::WithoutDurations => text.say(words::NOTES_WITHOUT_DURATIONS, &[count]),
    }
}

/// Says where all annotations are seen, and, where some are missing, how a claim leaves some out.
fn say_advice(text: &mut Text, seen: &Findings<'_>, only: &OnlyInOne) -> Result<(), AllocError> {
    let is_one = seen.others().is_empty();
    let sentence = match (only.missing.is_empty(), only.extra.is_empty()) {
        (true, true) => return Ok(()),
        (true, false) if is_one => words::NOTES_ALL,
        (true, false) => NOTES_ALL_OF_PARTS,
        _ if is_one => words::NOTES_ADVICE,
        _ => NOTES_ADVICE_OF_PARTS,
    };
    text.say(sentence, &[])
}

/// Says which annotations aren't as claimed. Where all of them differ in one way, those that several exports have are listed all the same,
/// since each may be in another export.
pub(crate) fn say_annotations(
    text: &mut Text,
    seen: &Findings<'_>,
    only: &OnlyInOne,
    clocks: Clocks,
) -> Result<(), AllocError> {
    let notes = seen.notes();
    if let Some(way) = one_way(text.alloc(), notes, only)? {
        say_one_way(text, only, way)?;
        if seen.others().is_empty() {
            return Ok(());
        }
        return say_extra(text, seen, only, clocks, false);
    }
    say_missing(text, seen, &only.missing, clocks)?;
    say_extra(text, seen, only, clocks, true)?;
    say_advice(text, seen, only)
}
