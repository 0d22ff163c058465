//! A reader of a given file, data record by data record, and what it answers after an end or a stop.

use edf_fields::{Cause, Fault, Place, SliceSource};
use edf_header::Stop;
use edf_stream::{FileReader, NoteKeeper, NoteRef, TalNotes};
use edf_test_files::{LANES, Tape, recorded, small_file, tape_of, twofold};
use std::alloc::{AllocError, Global};
use std::process::Abort;
use std::test::Fail;

/// Puts an annotation behind the text: its onset, a stroke and its duration, a colon, the text and a
/// semicolon.
fn push_note(alloc: Global, shown: &mut String, note: &NoteRef) -> Result<(), AllocError> {
    shown.push_str(note.onset.to_string(alloc)?.as_str())?;
    if let Some(duration) = note.duration {
        shown.push_str("/")?;
        shown.push_str(duration.to_string(alloc)?.as_str())?;
    }
    shown.push_str(":")?;
    shown.push_str(note.text)?;
    shown.push_str(";")
}

/// The annotations of the data record at hand as a text; none where there is none at hand.
fn notes_of(alloc: Global, reader: &FileReader) -> Result<Option<String>, AllocError> {
    if !reader.has_current() {
        return Ok(None);
    }
    let mut shown = String::new(alloc);
    for note in reader.annotations() {
        push_note(alloc, &mut shown, &note)?;
    }
    Ok(Some(shown))
}

/// Of each data record of the reference file: where it starts and ends, the first sample of its second
/// channel, how many annotations it and those before it have, and its annotations.
const RECORDS: [(i128, i128, u8, u32, &str); 4] = [
    (0, 1_000_000_000_000, 100, 1, "500000000000:Lights off;"),
    (
        1_000_000_000_000,
        2_000_000_000_000,
        102,
        2,
        "1500000000000/1000000000000:Apnea;",
    ),
    (2_000_000_000_000, 3_000_000_000_000, 104, 2, ""),
    (
        3_000_000_000_000,
        4_000_000_000_000,
        106,
        3,
        "3000000000000:Apnea;",
    ),
];

/// The start and the end of the data record at hand, the first byte of its second channel, which stands
/// behind four samples, by its lane and by its place, and how many annotations there are so far.
fn seen(reader: &FileReader) -> Option<(i128, i128, Option<u8>, Option<u8>, u32)> {
    if !reader.has_current() || reader.header().signals().len() < 2 {
        return None;
    }
    let first = reader.run(1).first().copied();
    let there = reader.record().get(8).copied();
    Some((
        reader.start_ps(),
        reader.end_ps(),
        first,
        there,
        reader.note_count(),
    ))
}

#[test]
fn gives_the_header_away(rt: HostRuntime) -> Result<(), Fail> {
    let file = recorded(rt.alloc(), &[], LANES)?;
    let reader = FileReader::begin(rt.alloc(), &mut SliceSource::new(&file))?;
    let header = reader.into_header();
    assert_eq!(rt; (header.records(), header.record_bytes()), (4, 52));
    Ok(())
}

#[test]
fn reads_the_reference_file(rt: HostRuntime) -> Result<(), Fail> {
    let file = recorded(rt.alloc(), &[], LANES)?;
    let mut source = SliceSource::new(&file);
    let mut reader = FileReader::begin(rt.alloc(), &mut source)?;
    assert!(rt; !reader.has_current());
    assert_eq!(rt; reader.read_to_ps(), 0);
    for (start, end, value, count, want) in RECORDS {
        assert_eq!(rt; reader.next(&mut source), Ok(true));
        assert_eq!(rt; reader.read_to_ps(), end);
        assert_eq!(rt;
            seen(&reader),
            Some((start, end, Some(value), Some(value), count))
        );
        let notes = notes_of(rt.alloc(), &reader)?;
        assert!(rt; notes.is_some_and(|shown| shown.as_str() == want));
    }
    assert_eq!(rt; reader.next(&mut source), Ok(false));
    assert!(rt; !reader.has_current());
    assert_eq!(rt; reader.read_to_ps(), 4_000_000_000_000);
    Ok(())
}

/// Puts the annotations that it gets behind a text.
#[derive(Drop)]
struct Shown {
    alloc: Global,
    text: String,
    whole: bool,
}

impl NoteKeeper for Shown {
    ghost got = { λ _ _ _. Unit {0} };

    fn wants(&self) -> bool {
        true
    }

    fn keep(&mut self, notes: TalNotes<'_>) {
        for note in notes {
            self.whole &= push_note(self.alloc, &mut self.text, &note).is_ok();
        }
    }

    ghost got_none = { λ _. tt };

    ghost got_both = { λ _ _ _ _ _ _ _. tt };
}

#[test]
fn gives_the_annotations_of_both_signals(rt: HostRuntime) -> Result<(), Fail> {
    let first = b"+0\x152\x14\x14\x14a\x14\0-1\x14\0";
    let second = b"-0.5\x14b\x14\x14\0+7\x150\x14c\x14\0";
    let file = twofold(rt.alloc(), first, second)?;
    let mut source = SliceSource::new(&file);
    let mut reader = FileReader::begin(rt.alloc(), &mut source)?;
    assert_eq!(rt; reader.next(&mut source), Ok(true));
    let notes = notes_of(rt.alloc(), &reader)?;
    let want =
        "0/2000000000000:;0/2000000000000:a;-500000000000:b;-500000000000:;7000000000000/0:c;";
    assert!(rt; notes.is_some_and(|shown| shown.as_str() == want));
    Ok(())
}

#[test]
fn gives_a_keeper_the_annotations_of_both_signals(rt: HostRuntime) -> Result<(), Fail> {
    let first = b"+0\x152\x14\x14\x14a\x14\0-1\x14\0";
    let second = b"-0.5\x14b\x14\x14\0+7\x150\x14c\x14\0";
    let file = twofold(rt.alloc(), first, second)?;
    let mut source = SliceSource::new(&file);
    let mut reader = FileReader::begin(rt.alloc(), &mut source)?;
    let mut shown = Shown {
        alloc: rt.alloc(),
        text: String::new(rt.alloc()),
        whole: true,
    };
    assert_eq!(rt; reader.next_with(&mut source, &mut shown), Ok(true));
    let notes = notes_of(rt.alloc(), &reader)?;
    let want =
        "0/2000000000000:;0/2000000000000:a;-500000000000:b;-500000000000:;7000000000000/0:c;";
    assert!(rt; shown.whole && shown.text.as_str() == want);
    assert!(rt; notes.is_some_and(|shown| shown.as_str() == want));
    assert_eq!(rt; reader.next_with(&mut source, &mut shown), Ok(false));
    assert!(rt; shown.text.as_str() == want);
    Ok(())
}

/// Calls `next` until it doesn't give a data record, and answers how many it gave and what came then.
fn last_of(reader: &mut FileReader, source: &mut Tape) -> (u32, Result<bool, Stop>) {
    for given in 0..100u32 {
        let answer = reader.next(source);
        if answer != Ok(true) {
            return (given, answer);
        }
    }
    (100, Ok(true))
}

/// Asserts how many data records are given, that this comes then, and comes again with nothing read.
fn assert_last(
    rt: &impl Abort,
    alloc: Global,
    mut source: Tape,
    want: (u32, Result<bool, Stop>),
) -> Result<(), Fail> {
    let mut reader = FileReader::begin(alloc, &mut source)?;
    let answer = last_of(&mut reader, &mut source);
    let reads = source.reads;
    assert_eq!(rt; answer, want);
    let again = last_of(&mut reader, &mut source);
    assert_eq!(rt; (again, source.reads), ((0, want.1), reads));
    assert!(rt; !reader.has_current());
    Ok(())
}

#[test]
fn answers_the_same_again(rt: HostRuntime) -> Result<(), Fail> {
    let small = small_file(rt.alloc())?;
    assert_last(&rt, rt.alloc(), tape_of(&small, 100), (1, Ok(false)))?;
    let file = recorded(rt.alloc(), &[], LANES)?;
    let short = file.get(..1100).unwrap_or(&[]);
    let fault = Fault {
        place: Place::AtRecord(1),
        cause: Cause::Truncated,
    };
    assert_last(&rt, rt.alloc(), tape_of(&file, 100), (4, Ok(false)))?;
    assert_last(
        &rt,
        rt.alloc(),
        tape_of(short, 100),
        (1, Err(Stop::Fault(fault))),
    )?;
    for passes in 11..16u32 {
        let want = (passes - 11, Err(Stop::ReadFailed));
        assert_last(&rt, rt.alloc(), tape_of(&file, passes), want)?;
    }
    Ok(())
}

#[test]
fn asks_for_one_byte_behind_the_last_record(rt: HostRuntime) -> Result<(), Fail> {
    let file = recorded(rt.alloc(), &[], LANES)?;
    let mut source = tape_of(&file, 100);
    let mut reader = FileReader::begin(rt.alloc(), &mut source)?;
    let answer = last_of(&mut reader, &mut source);
    assert_eq!(rt; (answer, source.asked), ((4, Ok(false)), 1));
    Ok(())
}
