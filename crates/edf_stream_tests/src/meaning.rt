//! What whole files mean: their samples at exact instants, their annotations, and the fault of a file that
//! doesn't conform.

use crate::conforming::ROWS;
use crate::samples::{OF_EXCHANGED, OF_GAP, OF_LED, OF_PAIR, OF_REFERENCE, OF_THIRDS, Row};
use edf_fields::Place::{AtField, AtSignal};
use edf_fields::{FixedField as Fixed, SignalField as Field, SliceSource};
use edf_header::Stop;
use edf_stream::{FileReader, Meaning, Note, OwnText, Sample, whole_meaning};
use edf_test_files::{
    Done, Edit, LANES, header_of, is_reference, push_lane, put, recorded, tape_of, timed,
};
use std::alloc::{AllocError, Global};
use std::cmp::Ordering;
use std::process::Abort;
use std::test::Fail;

/// An annotation: its onset, its duration and its text.
type NoteRow = (i128, Option<i128>, &'static str);

/// A lane, and how many bytes it has with the zeros behind it.
type Lane = (&'static [u8], usize);

/// Whether the samples are those of the rows.
fn are_samples(found: &[Sample], want: &[Row]) -> bool {
    let mut same = found.len() == want.len();
    for (sample, (channel, num, den, value)) in found.iter().zip(want) {
        let instant = sample.instant;
        same = same && sample.channel == *channel && sample.value == *value;
        same = same && instant.num == *num && instant.den == *den;
    }
    same
}

/// Whether the annotations are those of the rows.
fn are_notes(found: &[Note], want: &[NoteRow]) -> bool {
    let mut same = found.len() == want.len();
    for (note, (onset, duration, text)) in found.iter().zip(want) {
        same = same && note.onset == *onset && note.duration == *duration;
        same = same && note.text.as_str() == *text;
    }
    same
}

const LIGHTS: NoteRow = (1_015_106_400_500_000_000_000, None, "Lights off");

const APNEA: NoteRow = (
    1_015_106_401_500_000_000_000,
    Some(1_000_000_000_000),
    "Apnea",
);

const LAST_APNEA: NoteRow = (1_015_106_403_000_000_000_000, None, "Apnea");

/// Whether this is what the reference file means.
pub fn is_that_of_reference(meaning: &Meaning) -> bool {
    are_samples(&meaning.samples, OF_REFERENCE)
        && are_notes(&meaning.notes, &[LIGHTS, APNEA, LAST_APNEA])
}

#[test]
fn means_what_the_reference_file_says(rt: HostRuntime) -> Result<(), Fail> {
    let file = recorded(rt.alloc(), &[], LANES)?;
    let found = whole_meaning(rt.alloc(), &mut SliceSource::new(&file))?;
    assert!(rt; is_that_of_reference(&found));
    let mut source = SliceSource::new(&file);
    let reader = FileReader::begin(rt.alloc(), &mut source)?;
    let (header, rest) = reader.into_meaning(rt.alloc(), &mut source)?;
    assert!(rt; is_reference(&header) && is_that_of_reference(&rest));
    Ok(())
}

/// A contiguous file with one channel of two samples.
const PAIR: &[Edit] = &[
    (AtField(Fixed::HeaderBytes), "768"),
    (AtField(Fixed::Records), "1"),
    (AtField(Fixed::Signals), "2"),
    (AtSignal(0, Field::Label), "Temp"),
    (AtSignal(0, Field::Samples), "2"),
    (AtSignal(1, Field::Samples), "16"),
];

const PAIR_LANES: &[Lane] = &[(b"\x07\x00\xf9\xff", 4), (b"+0\x14\x14\0", 32)];

/// The first and the last data record of the reference file.
const GAP: &[Edit] = &[
    (AtField(Fixed::Reserved), "EDF+D"),
    (AtField(Fixed::Records), "2"),
];

const GAP_LANES: &[Lane] = &[
    (b"\x00\x00\x0a\x00\x14\x00\x1e\x00", 8),
    (b"\x64\x00\x65\x00", 4),
    (b"+0\x14\x14\0+0.5\x14Lights off\x14\0", 40),
    (b"\x78\x00\x82\x00\x8c\x00\x96\x00", 8),
    (b"\x6a\x00\x6b\x00", 4),
    (b"+3\x14\x14\0+3\x14Apnea\x14\0", 40),
];

/// The reference file in two data records, its second channel first.
const EXCHANGED: &[Edit] = &[
    (AtField(Fixed::Records), "2"),
    (AtField(Fixed::Duration), "2"),
    (AtSignal(0, Field::Samples), "4"),
    (AtSignal(1, Field::Samples), "8"),
];

const EXCHANGED_LANES: &[Lane] = &[
    (b"\x64\x00\x65\x00\x66\x00\x67\x00", 8),
    (
        b"\x00\x00\x0a\x00\x14\x00\x1e\x00\x28\x00\x32\x00\x3c\x00\x46\x00",
        16,
    ),
    (
        b"+0\x14\x14\0+0.5\x14Lights off\x14\0+1.5\x151\x14Apnea\x14\0",
        40,
    ),
    (b"\x68\x00\x69\x00\x6a\x00\x6b\x00", 8),
    (
        b"\x50\x00\x5a\x00\x64\x00\x6e\x00\x78\x00\x82\x00\x8c\x00\x96\x00",
        16,
    ),
    (b"+2\x14\x14\0+3\x14Apnea\x14\0", 40),
];

/// Three data records of 0.1 s with one sample, which start at thirds of a second.
const THIRDS: &[Edit] = &[
    (AtField(Fixed::HeaderBytes), "768"),
    (AtField(Fixed::Reserved), "EDF+D"),
    (AtField(Fixed::Records), "3"),
    (AtField(Fixed::Duration), "0.1"),
    (AtField(Fixed::Signals), "2"),
    (AtSignal(0, Field::Label), "Temp"),
    (AtSignal(0, Field::Samples), "1"),
    (AtSignal(1, Field::Samples), "16"),
];

const THIRDS_LANES: &[Lane] = &[
    (b"\x01\x00", 2),
    (b"+0\x14\x14\0", 32),
    (b"\x02\x00", 2),
    (b"+0.333333333333\x14\x14\0", 32),
    (b"\x03\x00", 2),
    (b"+0.666666666666\x14\x14\0", 32),
];

/// An annotation signal before each of two channels.
const LED: &[Edit] = &[
    (AtField(Fixed::HeaderBytes), "1280"),
    (AtField(Fixed::Records), "2"),
    (AtField(Fixed::Signals), "4"),
];

const LED_LANES: &[Lane] = &[
    (b"+0\x152\x14\x14a\x14\0-3.5\x14b\x14\0", 40),
    (b"\x01\x00\x02\x00", 4),
    (b"+0.25\x150\x14c\x14\xc3\xa9\x14\0-999999999\x14\x14\0", 40),
    (b"\xff\xff\xfe\xff\x00\x80\xff\x7f", 8),
    (b"+1\x14\x14\0+1\x14e\x14\0", 40),
    (b"\x03\x00\x04\x00", 4),
    (b"+0\x14f\x14\0", 40),
    (b"\x05\x00\x06\x00\x07\x00\x08\x00", 8),
];

const OF_LED_LANES: &[NoteRow] = &[
    (1_015_106_400_000_000_000_000, Some(2_000_000_000_000), "a"),
    (1_015_106_396_500_000_000_000, None, "b"),
    (1_015_106_400_250_000_000_000, Some(0), "c"),
    (1_015_106_400_250_000_000_000, Some(0), "\u{e9}"),
    (15_106_401_000_000_000_000, None, ""),
    (1_015_106_401_000_000_000_000, None, "e"),
    (1_015_106_400_000_000_000_000, None, "f"),
];

/// Files: signals of the reference file by their numbers, other texts in fields, the lanes; and what they
/// mean.
const FILES: &[(&[usize], &[Edit], &[Lane], &[Row], &[NoteRow])] = &[
    (&[1, 2], PAIR, PAIR_LANES, OF_PAIR, &[]),
    (&[0, 1, 2], GAP, GAP_LANES, OF_GAP, &[LIGHTS, LAST_APNEA]),
    (
        &[1, 0, 2],
        EXCHANGED,
        EXCHANGED_LANES,
        OF_EXCHANGED,
        &[LIGHTS, APNEA, LAST_APNEA],
    ),
    (&[1, 2], THIRDS, THIRDS_LANES, OF_THIRDS, &[]),
    (&[2, 1, 2, 0], LED, LED_LANES, OF_LED, OF_LED_LANES),
];

/// A file of these parts.
fn built(
    alloc: Global,
    signals: &[usize],
    edits: &[Edit],
    lanes: &[Lane],
) -> Result<Vec<u8>, AllocError> {
    let mut file = header_of(alloc, signals)?;
    for (place, text) in edits {
        put(&mut file, *place, text);
    }
    for (lane, size) in lanes {
        push_lane(&mut file, lane, *size)?;
    }
    Ok(file)
}

#[test]
fn means_what_each_file_says(rt: HostRuntime) -> Result<(), Fail> {
    for (signals, edits, lanes, samples, notes) in FILES {
        let file = built(rt.alloc(), signals, edits, lanes)?;
        let found = whole_meaning(rt.alloc(), &mut SliceSource::new(&file))?;
        assert!(rt; are_samples(&found.samples, samples));
        assert!(rt; are_notes(&found.notes, notes));
    }
    Ok(())
}

/// A contiguous file with one channel of eight samples.
const WORDS: &[Edit] = &[
    (AtField(Fixed::HeaderBytes), "768"),
    (AtField(Fixed::Records), "1"),
    (AtField(Fixed::Signals), "2"),
    (AtSignal(0, Field::Samples), "8"),
    (AtSignal(1, Field::Samples), "16"),
];

const WORDS_LANES: &[Lane] = &[
    (
        b"\x96\x00\xf9\xff\x00\x80\xff\x7f\x34\x92\xff\xff\x80\x00\x00\xff",
        16,
    ),
    (b"+0\x14\x14\0", 32),
];

/// Files of one channel and one data record, and its values.
const VALUES: &[(&[Edit], &[Lane], &[i16])] = &[
    (PAIR, PAIR_LANES, &[7, -7]),
    (
        WORDS,
        WORDS_LANES,
        &[150, -7, -32_768, 32_767, -28_108, -1, 128, -256],
    ),
];

/// The value of a sample of the first signal in the data record at hand, where there is one.
fn value_of(reader: &FileReader, place: usize) -> Option<i16> {
    if !reader.has_current() || reader.header().signals().is_empty() {
        return None;
    }
    if reader.run(0).len() / 2 <= place {
        return None;
    }
    Some(reader.sample(0, place))
}

#[test]
fn gives_each_value(rt: HostRuntime) -> Result<(), Fail> {
    for (edits, lanes, values) in VALUES {
        let file = built(rt.alloc(), &[1, 2], edits, lanes)?;
        let mut source = SliceSource::new(&file);
        let mut reader = FileReader::begin(rt.alloc(), &mut source)?;
        assert_eq!(rt; reader.next(&mut source), Ok(true));
        for (place, value) in values.iter().enumerate() {
            assert_eq!(rt; value_of(&reader, place), Some(*value));
        }
        assert_eq!(rt; value_of(&reader, values.len()), None);
    }
    Ok(())
}

/// What `whole_meaning` answers: how many samples and annotations there are, or the fault in words.
fn answer_of(alloc: Global, file: &[u8]) -> Result<String, AllocError> {
    match whole_meaning(alloc, &mut SliceSource::new(file)) {
        Ok(found) => {
            let samples = found.samples.len();
            let notes = found.notes.len();
            format!(in alloc; "{samples}, {notes}")
        }
        Err(Stop::Fault(fault)) => fault.text(alloc),
        Err(_) => Err(AllocError),
    }
}

/// The answers of `conform` end with these.
#[test]
fn answers_as_conform_does(rt: HostRuntime) -> Result<(), AllocError> {
    for (edits, lanes, want) in ROWS {
        let file = recorded(rt.alloc(), edits, lanes)?;
        let found = answer_of(rt.alloc(), &file)?;
        assert!(rt; want.ends_with(found.as_str()), "{found}");
    }
    Ok(())
}

#[test]
fn wants_each_data_record(rt: HostRuntime) -> Result<(), AllocError> {
    let file = recorded(rt.alloc(), &[], LANES)?;
    for (count, want) in CUTS {
        let found = answer_of(rt.alloc(), file.get(..*count).unwrap_or(&[]))?;
        assert_eq!(rt; found.as_str(), *want);
    }
    Ok(())
}

/// How many bytes of the reference file there are, and the answer.
const CUTS: &[(usize, &str)] = &[
    (255, "Truncated at header field signals"),
    (1023, "Truncated at signal 2 field reserved"),
    (1024, "Truncated at record 0"),
    (1100, "Truncated at record 1"),
    (1231, "Truncated at record 3"),
    (1232, "24, 3"),
];

#[test]
fn means_what_many_data_records_say(rt: HostRuntime) -> Result<(), AllocError> {
    let file = timed(rt.alloc(), 400)?;
    let found = answer_of(rt.alloc(), &file)?;
    assert_eq!(rt; found.as_str(), "2400, 0");
    Ok(())
}

/// Eleven reads take the header, its fixed part and ten columns, one takes each data record, and one asks for a
/// byte behind them.
#[test]
fn answers_each_failed_read(rt: HostRuntime) -> Result<(), AllocError> {
    let file = recorded(rt.alloc(), &[], LANES)?;
    for passes in 0..16u32 {
        let mut source = tape_of(&file, passes);
        let stop = whole_meaning(rt.alloc(), &mut source).err();
        let counts = (source.reads, source.failures);
        assert_eq!(rt; (stop, counts), (Some(Stop::ReadFailed), (passes + 1, 1)));
    }
    let mut source = tape_of(&file, 16);
    let found = whole_meaning(rt.alloc(), &mut source).ok();
    assert!(rt; found.is_some_and(|meaning| is_that_of_reference(&meaning)));
    assert_eq!(rt; (source.reads, source.failures), (16, 0));
    Ok(())
}

/// Annotations in their order.
const RISING: &[NoteRow] = &[
    (-1, Some(5), "z"),
    (0, None, ""),
    (0, None, "Z"),
    (0, None, "a"),
    (0, None, "aa"),
    (0, None, "\u{e9}"),
    (0, Some(0), "a"),
    (0, Some(1), ""),
    (1, None, ""),
];

/// The annotation of a row.
fn note_of(alloc: Global, row: &NoteRow) -> Result<Note, AllocError> {
    let (onset, duration, text) = row;
    Ok(Note {
        onset: *onset,
        duration: *duration,
        text: OwnText::new(alloc, text)?,
    })
}

#[test]
fn orders_annotations(rt: HostRuntime) -> Result<(), AllocError> {
    for (i, row) in RISING.iter().enumerate() {
        let note = note_of(rt.alloc(), row)?;
        for (j, other) in RISING.iter().enumerate() {
            let other = note_of(rt.alloc(), other)?;
            assert_eq!(rt; note.cmp(&other), i.cmp(&j));
        }
    }
    Ok(())
}
