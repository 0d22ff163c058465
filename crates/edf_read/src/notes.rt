//! The annotations of a file, for a person to read.

ghost use Rattle.std.specs.Prelude.{◌≡◌, ◌-◌, ◌<◌, ◌≤◌, length};

use crate::head::start_ps;
use crate::words;
use edf_recording::{Recorded, RecordedNote};
use edf_sentences::{Piece, Text};
use std::alloc::AllocError;

/// Says when an annotation of a file that starts at this time begins.
fn say_onset(text: &mut Text, start: i128, onset: i128) -> Result<(), AllocError> {
    match start.checked_add(onset) {
        Some(moment) => text.add(
            words::ONSET,
            &[Piece::Moment(moment), Piece::Seconds(onset)],
        ),
        None => text.add(words::BARE_ONSET, &[Piece::Seconds(onset)]),
    }
}

/// Says in which data record an annotation stands that the file has so often.
fn say_place(text: &mut Text, record: u32, times: usize) -> Result<(), AllocError> {
    let record = Piece::Number(i128::from(record));
    if times == 1 {
        text.add(words::PLACE, &[record])
    } else {
        text.add(words::PLACES, &[record, Piece::Number(times as i128)])
    }
}

/// Says an annotation of a file that starts at this time, which the file has so often.
fn say_note(
    text: &mut Text,
    start: i128,
    note: &RecordedNote,
    times: usize,
) -> Result<(), AllocError> {
    say_onset(text, start, note.onset)?;
    if let Some(duration) = note.duration {
        text.add(words::DURATION, &[Piece::Seconds(duration)])?;
    }
    say_place(text, note.record, times)?;
    text.say(words::NOTE, &[Piece::Quoted(note.bytes())])
}

/// Whether two annotations begin at the same time, last as long, and have the same text.
fn are_equal(note: &RecordedNote, other: &RecordedNote) -> bool {
    note.onset == other.onset && note.duration == other.duration && note.text == other.text
}

/// How many annotations from the first on are equal to it.
fn equal_front(notes: &[RecordedNote]) -> usize
    requires { 0 < length notes.now }
    ensures some { 0 < result }
    ensures within { result ≤ length notes.now }
{
    let mut count = 1;
    while count < notes.len() && are_equal(&notes[0], &notes[count]) {
        count += 1;
    }
    count
}

/// The annotations behind so many of these.
fn behind(notes: &[RecordedNote], count: usize) -> &[RecordedNote]
    requires { count ≤ length notes.now }
    ensures { length result.now ≡ length notes.entry.now - count }
{
    &notes[count..]
}

/// Says the annotations of a file, in the order of time; equal ones in one line.
pub(crate) fn say_notes(text: &mut Text, recorded: &mut Recorded) -> Result<(), AllocError> {
    let start = start_ps(recorded.reader.header());
    text.say(words::EMPTY_LINE, &[])?;
    text.say(words::NOTES, &[Piece::Number(recorded.notes.len() as i128)])?;
    recorded.notes.sort_unstable();
    let mut left = recorded.notes.as_slice();
    while !left.is_empty() {
        let times = equal_front(left);
        say_note(text, start, &left[0], times)?;
        left = behind(left, times);
    }
    Ok(())
}
