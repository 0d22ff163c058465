//! The reports on one file: their texts, and what stands in a sink that is soon full, or where a read fails;
//! `tests/cases` has more of their texts.

use edf_fields::Place::{AtField, AtSignal};
use edf_fields::{
    FaultySource, FixedField as Fixed, SignalField as Field, Sink, SliceSink, SliceSource, Source,
};
use edf_report::{conform_to, notes_to, show_to};
use edf_stop::ReportStop;
use edf_test_files::{Edit, LANES, recorded};
use edf_vectors::Line;
use edf_verdict::Outcome;
use std::alloc::Global;
use std::process::Abort;
use std::test::Fail;

/// A report.
#[derive(Clone, Copy)]
enum Asked {
    Conform,
    Show,
    Notes,
}

/// Writes a report on a file in memory.
fn report<K: Sink>(
    alloc: Global,
    asked: Asked,
    file: &[u8],
    sink: &mut K,
) -> Result<Outcome, ReportStop> {
    let mut source = SliceSource::new(file);
    report_of(alloc, asked, &mut source, sink)
}

/// Writes a report on what a source gives.
fn report_of<S: Source, K: Sink>(
    alloc: Global,
    asked: Asked,
    source: &mut S,
    sink: &mut K,
) -> Result<Outcome, ReportStop> {
    match asked {
        Asked::Conform => conform_to(alloc, source, sink),
        Asked::Show => show_to(alloc, source, sink),
        Asked::Notes => notes_to(alloc, source, sink),
    }
}

/// A report on a file, and its text: other texts in fields of the reference file, its lanes, and how many bytes
/// there are, with zeros behind the file. The outcome is No where the text names a fault.
type Row<'a> = (Asked, &'a [Edit<'a>], &'a [&'a [u8]], usize, &'a str);

/// Asserts the text and the outcome of each row.
fn assert_reports(rt: &impl Abort, alloc: Global, rows: &[Row]) -> Result<(), Fail> {
    for (asked, edits, lanes, length, want) in rows {
        let mut file = recorded(alloc, edits, lanes)?;
        file.resize(*length, 0)?;
        let mut text = Line::new(alloc);
        let outcome = report(alloc, *asked, &file, &mut text)?;
        let written = String::from_utf8(Vec::from_slice(alloc, text.bytes())?)?;
        assert_eq!(rt; written.as_str(), *want);
        assert_eq!(rt; outcome == Outcome::No, want.contains("FAULT "));
    }
    Ok(())
}

const CONFORMS: &str = "CONFORMS records 4 channels 2 samples 24 annotations 3\n";

const CONFORM_ROWS: &[Row<'static>] = &[
    (Asked::Conform, &[], LANES, 1232, CONFORMS),
    (
        Asked::Conform,
        &[],
        LANES,
        1231,
        "FAULT Truncated at record 3\n",
    ),
    (
        Asked::Conform,
        &[],
        LANES,
        1233,
        "FAULT TrailingBytes at end\n",
    ),
    (
        Asked::Conform,
        &[],
        LANES,
        0,
        "FAULT Truncated at header field version\n",
    ),
];

#[test]
fn says_whether_a_file_conforms(rt: HostRuntime) -> Result<(), Fail> {
    assert_reports(&rt, rt.alloc(), CONFORM_ROWS)
}

const NIGHT_SHOWN: &str = "kind EDF+C
start 2002-03-02 22:00:00
records 4
duration 1000000000000 ps
code MCH-0234567
sex F
birthdate 02-MAY-1951
name Haagse_Harry
date 02-MAR-2002
administration PSG-1234/2002
technician NN
equipment Telemetry03
channel \"EEG Fpz-Cz\" samples 4 physical -1000000000 1000000000 digital -2048 2047 dimension \"uV\" transducer \"AgAgCl electrode\" prefilter \"HP:0.1Hz LP:75Hz\"
channel \"ECG\" samples 2 physical -100000000 100000000 digital -2048 2047 dimension \"mV\" transducer \"AgAgCl electrode\" prefilter \"HP:0.1Hz LP:75Hz\"
";

/// Other texts of the header.
const OTHER: &[Edit<'static>] = &[
    (AtField(Fixed::Reserved), "EDF+D"),
    (AtField(Fixed::Startdate), "09.11.85"),
    (AtField(Fixed::Starttime), "03.04.05"),
    (AtField(Fixed::Duration), ".5"),
    (AtField(Fixed::Patient), "X X X X Ward7 Bed\\2"),
    (AtField(Fixed::Recording), "Startdate X X X X left \"arm\""),
    (AtSignal(0, Field::Label), "C3 \"A\\B\""),
    (AtSignal(0, Field::PhysicalMinimum), "1.5"),
    (AtSignal(0, Field::PhysicalMaximum), "-.000001"),
];

const OTHER_SHOWN: &str = "kind EDF+D
start 1985-11-09 03:04:05
records 4
duration 500000000000 ps
code X
sex X
birthdate X
name X
patient-extra Ward7
patient-extra Bed\\2
date X
administration X
technician X
equipment X
recording-extra left
recording-extra \"arm\"
channel \"C3 \\x22A\\x5cB\\x22\" samples 4 physical 15000000 -10 digital -2048 2047 dimension \"uV\" transducer \"AgAgCl electrode\" prefilter \"HP:0.1Hz LP:75Hz\"
channel \"ECG\" samples 2 physical -100000000 100000000 digital -2048 2047 dimension \"mV\" transducer \"AgAgCl electrode\" prefilter \"HP:0.1Hz LP:75Hz\"
";

/// A start after 2084.
const LATE: &[Edit<'static>] = &[
    (AtField(Fixed::Startdate), "31.12.yy"),
    (
        AtField(Fixed::Recording),
        "Startdate 31-DEC-2099 PSG-1234/2002 NN Telemetry03",
    ),
];

const LATE_SHOWN: &str = "kind EDF+C
start 2099-12-31 22:00:00
records 4
duration 1000000000000 ps
code MCH-0234567
sex F
birthdate 02-MAY-1951
name Haagse_Harry
date 31-DEC-2099
administration PSG-1234/2002
technician NN
equipment Telemetry03
channel \"EEG Fpz-Cz\" samples 4 physical -1000000000 1000000000 digital -2048 2047 dimension \"uV\" transducer \"AgAgCl electrode\" prefilter \"HP:0.1Hz LP:75Hz\"
channel \"ECG\" samples 2 physical -100000000 100000000 digital -2048 2047 dimension \"mV\" transducer \"AgAgCl electrode\" prefilter \"HP:0.1Hz LP:75Hz\"
";

const SHOW_ROWS: &[Row<'static>] = &[
    (Asked::Show, &[], LANES, 1232, NIGHT_SHOWN),
    (Asked::Show, &[], LANES, 1024, NIGHT_SHOWN),
    (Asked::Show, &[], LANES, 1233, NIGHT_SHOWN),
    (Asked::Show, OTHER, &[], 1024, OTHER_SHOWN),
    (Asked::Show, LATE, LANES, 1232, LATE_SHOWN),
    (
        Asked::Show,
        &[],
        LANES,
        1023,
        "FAULT Truncated at signal 2 field reserved\n",
    ),
];

#[test]
fn shows_the_header(rt: HostRuntime) -> Result<(), Fail> {
    assert_reports(&rt, rt.alloc(), SHOW_ROWS)
}

const NIGHT_NOTED: &str = "500000000000 ps duration none text \"Lights off\"
1500000000000 ps duration 1000000000000 ps text \"Apnea\"
3000000000000 ps duration none text \"Apnea\"
";

/// Lanes with annotations that are empty or before the start, or hold bytes that are quoted.
const ODD: &[&[u8]] = &[
    b"+0\x14\x14\0-0.5\x14\x14\0+0\x154\x14\x7f\"\x14\xc2\xb5\t\x14\0",
    b"+1\x14\x14early\x14\0",
    b"+2\x14\x14\0",
    b"+3\x14\x14\0+3\x14Apnea\x14\0",
];

const NOTES_ROWS: &[Row<'static>] = &[
    (Asked::Notes, &[], LANES, 1232, NIGHT_NOTED),
    (
        Asked::Notes,
        &[],
        ODD,
        1232,
        "-500000000000 ps duration none text \"\"
0 ps duration 4000000000000 ps text \"\\x7f\\x22\"
0 ps duration 4000000000000 ps text \"\u{b5}\\x09\"
1000000000000 ps duration none text \"early\"
3000000000000 ps duration none text \"Apnea\"
",
    ),
    (
        Asked::Notes,
        &[],
        LANES,
        1231,
        "500000000000 ps duration none text \"Lights off\"
1500000000000 ps duration 1000000000000 ps text \"Apnea\"
FAULT Truncated at record 3
",
    ),
    (
        Asked::Notes,
        &[],
        LANES,
        1233,
        "500000000000 ps duration none text \"Lights off\"
1500000000000 ps duration 1000000000000 ps text \"Apnea\"
3000000000000 ps duration none text \"Apnea\"
FAULT TrailingBytes at end
",
    ),
    (
        Asked::Notes,
        &[],
        LANES,
        1023,
        "FAULT Truncated at signal 2 field reserved\n",
    ),
];

#[test]
fn lists_the_annotations(rt: HostRuntime) -> Result<(), Fail> {
    assert_reports(&rt, rt.alloc(), NOTES_ROWS)
}

/// The texts of the three reports on the night.
const TEXTS: &[(Asked, &str)] = &[
    (Asked::Conform, CONFORMS),
    (Asked::Show, NIGHT_SHOWN),
    (Asked::Notes, NIGHT_NOTED),
];

/// Asserts that a sink of so many bytes, too few for the text, holds its front.
fn assert_front(
    rt: &impl Abort,
    alloc: Global,
    file: &[u8],
    (asked, text): (Asked, &str),
    room: &mut [u8],
) {
    let size = room.len();
    let mut sink = SliceSink::new(room);
    let ended = report(alloc, asked, file, &mut sink);
    assert_eq!(rt; ended, Err(ReportStop::WriteFailed));
    assert_eq!(rt; sink.written(), text.as_bytes().get(..size).unwrap_or(&[]));
}

#[test]
fn leaves_the_front_of_a_report(rt: HostRuntime) -> Result<(), Fail> {
    let file = recorded(rt.alloc(), &[], LANES)?;
    let mut room = [0u8; 50];
    for text in TEXTS {
        for size in [0usize, 1, 4, 46, 50] {
            assert_front(&rt, rt.alloc(), &file, *text, &mut room[..size]);
        }
    }
    Ok(())
}

/// How many reads a report takes: a header of four signals is read in eleven, each of four data records in one, and
/// one asks for a byte behind them.
fn reads_of(asked: Asked) -> u64 {
    match asked {
        Asked::Show => 11,
        Asked::Conform | Asked::Notes => 16,
    }
}

/// Asserts that a report stops where its file gives so many reads and fails at the next, with a front of the text; or
/// that it is whole.
fn assert_stopped(
    rt: &impl Abort,
    alloc: Global,
    file: &[u8],
    (asked, text): (Asked, &str),
    passes: u64,
) {
    let mut source = FaultySource::new(SliceSource::new(file), passes, usize::MAX);
    let mut line = Line::new(alloc);
    let ended = report_of(alloc, asked, &mut source, &mut line);
    if passes < reads_of(asked) {
        assert_eq!(rt; ended, Err(ReportStop::ReadFailed));
        assert!(rt; text.as_bytes().starts_with(line.bytes()));
    } else {
        assert_eq!(rt; ended, Ok(Outcome::Yes));
        assert_eq!(rt; line.bytes(), text.as_bytes());
    }
}

#[test]
fn leaves_a_front_where_a_read_fails(rt: HostRuntime) -> Result<(), Fail> {
    let file = recorded(rt.alloc(), &[], LANES)?;
    for text in TEXTS {
        for passes in 0..17 {
            assert_stopped(&rt, rt.alloc(), &file, *text, passes);
        }
    }
    Ok(())
}
