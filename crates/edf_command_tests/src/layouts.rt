//! The layout of a header: its text for headers with other texts in some fields, and what stands in a sink that is soon
//! full, or where a read fails.

use edf_fields::Place::{AtField, AtSignal};
use edf_fields::{
    FaultySource, FixedField as Fixed, SignalField as Field, Sink, SliceSink, SliceSource,
};
use edf_layout::{head_layout_to, layout_to};
use edf_stop::ReportStop;
use edf_test_files::{Edit, edited, recorded};
use edf_verdict::Outcome;
use std::alloc::Global;
use std::process::Abort;
use std::test::Fail;

const PLAIN: &str = "kind EDF+C
duration 1
records 4
size 1024
signals 3
patient added 0
patient spaces 1 1 1
recording added 0
recording spaces 1 1 1 1
signal 0 samples 4 physical -100 100 digital -2048 2047 label \"EEG Fpz-Cz\"
signal 1 samples 2 physical -10 10 digital -2048 2047 label \"ECG\"
signal 2 samples 20 physical -1 1 digital -32768 32767 label \"EDF Annotations\"
HEADER PLAIN
";

const SPELLED: &str = "kind EDF+D
duration 1.0
records +4
size 1024
signals 03
patient added 0
patient spaces 1 1 1
recording added 0
recording spaces 1 1 1 1
signal 0 samples 4 physical -0 100. digital -2048 2047 label \"EEG\\x22\\x5c\"
signal 1 samples 002 physical .5 10.05 digital -2048 2047 label \"ECG\"
signal 2 samples 20 physical -1 1 digital -32768 32767 label \"EDF Annotations\"
not plain: header field records spells +4
not plain: header field duration spells 1.0
not plain: header field signals spells 03
not plain: signal 0 field physical-minimum spells -0
not plain: signal 0 field physical-maximum spells 100.
not plain: signal 1 field physical-minimum spells .5
not plain: signal 1 field samples spells 002
HEADER NOT PLAIN 7
";

const SPELLED_EDITS: &[Edit] = &[
    (AtField(Fixed::Reserved), "EDF+D"),
    (AtField(Fixed::Duration), "1.0"),
    (AtField(Fixed::Records), "+4"),
    (AtField(Fixed::Signals), "03"),
    (AtSignal(0, Field::Label), "EEG\"\\"),
    (AtSignal(0, Field::PhysicalMinimum), "-0"),
    (AtSignal(0, Field::PhysicalMaximum), "100."),
    (AtSignal(1, Field::PhysicalMinimum), ".5"),
    (AtSignal(1, Field::PhysicalMaximum), "10.05"),
    (AtSignal(1, Field::Samples), "002"),
];

const SPACED: &str = "kind EDF+C
duration 1
records 4
size 1024
signals 3
patient added 3
patient spaces 1 1 3 1 1 2
recording added 1
recording spaces 1 1 1 1 1
signal 0 samples 4 physical -100 100 digital -2048 2047 label \"EEG Fpz-Cz\"
signal 1 samples 2 physical -10 10 digital -2048 2047 label \"ECG\"
signal 2 samples 20 physical -1 1 digital -32768 32767 label \"EDF Annotations\"
not plain: header field patient has 3 spaces behind subfield 3
not plain: header field patient has 2 spaces behind subfield 6
not plain: header field patient has more than one additional subfield X
HEADER NOT PLAIN 3
";

const SPACED_EDITS: &[Edit] = &[
    (AtField(Fixed::Patient), "X X X   X X told  X"),
    (
        AtField(Fixed::Recording),
        "Startdate 02-MAR-2002 PSG-1234/2002 NN Telemetry03 X",
    ),
];

/// Other texts in fields of the reference header, the outcome, and the text.
type Row<'a> = (&'a [Edit<'a>], Outcome, &'a str);

const ROWS: &[Row<'static>] = &[
    (&[], Outcome::Yes, PLAIN),
    (SPELLED_EDITS, Outcome::No, SPELLED),
    (SPACED_EDITS, Outcome::No, SPACED),
    (
        &[(AtField(Fixed::Records), "0")],
        Outcome::No,
        "FAULT BadRange at header field records\n",
    ),
    (
        &[(AtField(Fixed::Signals), "9999")],
        Outcome::No,
        "FAULT BadHeaderSize at header field header-bytes\n",
    ),
];

/// Asserts the text and the outcome of each row.
fn assert_layouts(rt: &impl Abort, alloc: Global, rows: &[Row]) -> Result<(), Fail> {
    for (edits, outcome, want) in rows {
        let file = edited(alloc, edits)?;
        let mut room = [0u8; 2000];
        let mut text = SliceSink::new(&mut room);
        let said = head_layout_to(alloc, &mut SliceSource::new(&file), &mut text)?;
        let written = String::from_utf8(Vec::from_slice(alloc, text.written())?)?;
        assert_eq!(rt; written.as_str(), *want);
        assert_eq!(rt; said == Outcome::No, *outcome == Outcome::No);
    }
    Ok(())
}

#[test]
fn says_what_a_header_holds_besides(rt: HostRuntime) -> Result<(), Fail> {
    assert_layouts(&rt, rt.alloc(), ROWS)
}

#[test]
fn leaves_the_front_of_a_layout(rt: HostRuntime) -> Result<(), Fail> {
    let alloc = rt.alloc();
    let file = edited(alloc, &[])?;
    let mut room = [0u8; 50];
    for size in [0usize, 1, 46, 50] {
        let mut sink = SliceSink::new(&mut room[..size]);
        let ended = head_layout_to(alloc, &mut SliceSource::new(&file), &mut sink);
        assert_eq!(&rt; ended, Err(ReportStop::WriteFailed));
        assert_eq!(&rt; sink.written(), PLAIN.as_bytes().get(..size).unwrap_or(&[]));
    }
    Ok(())
}

#[test]
fn writes_nothing_where_a_read_of_a_header_fails(rt: HostRuntime) -> Result<(), Fail> {
    let alloc = rt.alloc();
    let file = edited(alloc, &[])?;
    for passes in 0..4u64 {
        let mut source = FaultySource::new(SliceSource::new(&file), passes, usize::MAX);
        let mut room = [0u8; 2000];
        let mut line = SliceSink::new(&mut room);
        let ended = head_layout_to(alloc, &mut source, &mut line);
        // The fixed part is one read, and the columns are the other.
        if passes < 2 {
            assert_eq!(&rt; ended, Err(ReportStop::ReadFailed));
            assert!(&rt; line.written().is_empty());
        } else {
            assert_eq!(&rt; ended, Ok(Outcome::Yes));
            assert_eq!(&rt; line.written(), PLAIN.as_bytes());
        }
    }
    Ok(())
}

/// The lanes of the four data records of the reference file, the outcome, and what stands behind the lines of its header.
type Body<'a> = ([&'a [u8]; 4], Outcome, &'a str);

const BODIES: &[Body<'static>] = &[
    // Each annotation stands in its turn, and at its time.
    (
        [
            b"+0\x14\x14\0+0.5\x14A\x14",
            b"+1\x14\x14\0+1\x14B\x14",
            b"+2\x14\x14",
            b"+3\x14\x14",
        ],
        Outcome::Yes,
        "annotations one in each data record\nPLAIN\n",
    ),
    // Both lie in the time of the first data record, in the order of their onsets.
    (
        [
            b"+0\x14\x14\0+0.5\x14A\x14\0+0.75\x152\x14B\x14",
            b"+1\x14\x14",
            b"+2\x14\x14",
            b"+3\x14\x14",
        ],
        Outcome::Yes,
        "annotations by time\nPLAIN\n",
    ),
    // The same, the other way round.
    (
        [
            b"+0\x14\x14\0+0.75\x152\x14B\x14\0+0.5\x14A\x14",
            b"+1\x14\x14",
            b"+2\x14\x14",
            b"+3\x14\x14",
        ],
        Outcome::No,
        "annotations by time
data record 0 annotation signal 0
  onset plain duration plain time lasting none annotations
  onset plain duration plain annotations 1
  onset plain duration plain annotations 0
NOT PLAIN 1
",
    ),
    // A zero that is needless, and a TAL that keeps the time with a duration and a text, which is an annotation.
    (
        [
            b"+0\x14\x14\0+00.5\x152.0\x14A\x14",
            b"+1\x14\x14",
            b"+2\x14\x14",
            b"+3\x151\x14\x14B\x14",
        ],
        Outcome::No,
        "annotations by time
data record 0 annotation signal 0
  onset plain duration plain time lasting none annotations
  onset +00.5 duration 2.0 annotations 0
data record 3 annotation signal 0
  onset plain duration plain time lasting 1000000000000 ps annotations 1
NOT PLAIN 2
",
    ),
    // A TAL with no text, and one with two, of which one text stands before the other in order.
    (
        [
            b"+0\x14\x14",
            b"+1\x14\x14\0-1.5\x14\0+1.25\x14D\x14C\x14",
            b"+2\x14\x14",
            b"+3\x14\x14",
        ],
        Outcome::No,
        "annotations by time
data record 1 annotation signal 0
  onset plain duration plain time lasting none annotations
  onset plain duration plain no text at -1500000000000 ps duration none
  onset plain duration plain annotations 1 0
NOT PLAIN 1
",
    ),
    // Nothing is written of the layout of a file with a fault.
    (
        [b"+0\x14\x14", b"+1\x14\x14", b"+2.5\x14\x14", b"+3\x14\x14"],
        Outcome::No,
        "FAULT NotContiguous at record 2\n",
    ),
];

/// Asserts what is written of the reference file with these lanes, and the outcome; the lines of its header stand in front
/// but for a fault.
fn assert_body(rt: &impl Abort, alloc: Global, body: &Body) -> Result<(), Fail> {
    let (lanes, outcome, want) = body;
    let file = recorded(alloc, &[], lanes)?;
    let mut room = [0u8; 2000];
    let mut text = SliceSink::new(&mut room);
    let said = layout_to(alloc, &mut SliceSource::new(&file), &mut text)?;
    let written = String::from_utf8(Vec::from_slice(alloc, text.written())?)?;
    let lines = match PLAIN.strip_suffix("HEADER PLAIN\n") {
        Some(head) => written
            .as_str()
            .strip_prefix(head)
            .unwrap_or(written.as_str()),
        None => "",
    };
    assert_eq!(rt; lines, *want);
    assert_eq!(rt; said == Outcome::No, *outcome == Outcome::No);
    Ok(())
}

#[test]
fn says_what_lanes_hold_besides(rt: HostRuntime) -> Result<(), Fail> {
    for body in BODIES {
        assert_body(&rt, rt.alloc(), body)?;
    }
    Ok(())
}

#[test]
fn leaves_the_front_of_the_layout_of_a_file(rt: HostRuntime) -> Result<(), Fail> {
    let alloc = rt.alloc();
    let file = recorded(alloc, &[], &BODIES[0].0)?;
    let mut room = [0u8; 50];
    for size in [0usize, 1, 46, 50] {
        let mut sink = SliceSink::new(&mut room[..size]);
        let ended = layout_to(alloc, &mut SliceSource::new(&file), &mut sink);
        assert_eq!(&rt; ended, Err(ReportStop::WriteFailed));
        assert_eq!(&rt; sink.written(), PLAIN.as_bytes().get(..size).unwrap_or(&[]));
    }
    Ok(())
}

#[test]
fn writes_nothing_where_a_read_of_a_file_fails(rt: HostRuntime) -> Result<(), Fail> {
    let alloc = rt.alloc();
    let file = recorded(alloc, &[], &BODIES[0].0)?;
    // The two parts of the header are a read each, each data record is one, and one looks for a byte behind the last.
    for passes in 0..8u64 {
        let mut source = FaultySource::new(SliceSource::new(&file), passes, usize::MAX);
        let mut room = [0u8; 2000];
        let mut text = SliceSink::new(&mut room);
        let ended = layout_to(alloc, &mut source, &mut text);
        if passes < 7 {
            assert_eq!(&rt; ended, Err(ReportStop::ReadFailed));
            assert!(&rt; text.written().is_empty());
        } else {
            assert_eq!(&rt; ended, Ok(Outcome::Yes));
        }
    }
    Ok(())
}
