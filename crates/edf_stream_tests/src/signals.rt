//! Signals that say what the one before says, and signals that differ from it in one thing.

use edf_fields::Place::{AtField, AtSignal};
use edf_fields::{FixedField as Fixed, SignalField as Field, SliceSource};
use edf_header::{Header, Signal};
use edf_test_files::{header_of, put};
use std::alloc::Global;
use std::process::Abort;
use std::test::Fail;

/// Transducer, dimension, prefilter and reserved text.
type SignalTexts = [&'static str; 4];

/// The physical and the digital extremes, as they are spelled.
type Spelled = [&'static str; 4];

/// The physical extremes in units of 10^-7, and the digital ones.
type Extremes = (i64, i64, i16, i16);

const CUP: &str = "cup";

const TEXTS: SignalTexts = [CUP, "uV", "HP:1Hz", ""];

/// Texts that fill their fields.
const FULL: SignalTexts = [
    "AgAgCl cup electrode, left mastoid, AgAgCl cup electrode, left mastoid, AgAgCl 1",
    "uV x 100",
    "HP:0.1Hz LP:75Hz N:50Hz, HP:0.1Hz LP:75Hz N:50Hz, HP:0.1Hz LP:75Hz N:50Hz, HP:02",
    "reserved for the next, reserved3",
];

const SPELLED: Spelled = ["-100", "100", "-2048", "2047"];

const EXTREMES: Extremes = (-1_000_000_000, 1_000_000_000, -2048, 2047);

const LOW: Spelled = ["-99", "100", "-2048", "2047"];

const LOW_EXTREMES: Extremes = (-990_000_000, 1_000_000_000, -2048, 2047);

const HIGH: Spelled = ["-100", "99", "-2048", "2047"];

const HIGH_EXTREMES: Extremes = (-1_000_000_000, 990_000_000, -2048, 2047);

const LEAST: Spelled = ["-100", "100", "-2047", "2047"];

const LEAST_EXTREMES: Extremes = (-1_000_000_000, 1_000_000_000, -2047, 2047);

const MOST: Spelled = ["-100", "100", "-2048", "2048"];

const MOST_EXTREMES: Extremes = (-1_000_000_000, 1_000_000_000, -2048, 2048);

/// Labels and what the signals say: each but `the same` and the last one, whose texts fill their fields, differs
/// in one thing from the one before, or in where one text ends and the next begins.
const ROWS: &[(&str, SignalTexts, Spelled, Extremes)] = &[
    ("the first", TEXTS, SPELLED, EXTREMES),
    ("the same", TEXTS, SPELLED, EXTREMES),
    (
        "a transducer",
        ["cap", "uV", "HP:1Hz", ""],
        SPELLED,
        EXTREMES,
    ),
    ("as before 1", TEXTS, SPELLED, EXTREMES),
    ("a dimension", [CUP, "mV", "HP:1Hz", ""], SPELLED, EXTREMES),
    ("as before 2", TEXTS, SPELLED, EXTREMES),
    ("a prefilter", [CUP, "uV", "HP:2Hz", ""], SPELLED, EXTREMES),
    ("as before 3", TEXTS, SPELLED, EXTREMES),
    (
        "a reserved text",
        [CUP, "uV", "HP:1Hz", "x"],
        SPELLED,
        EXTREMES,
    ),
    ("as before 4", TEXTS, SPELLED, EXTREMES),
    ("a low extreme", TEXTS, LOW, LOW_EXTREMES),
    ("as before 5", TEXTS, SPELLED, EXTREMES),
    ("a high extreme", TEXTS, HIGH, HIGH_EXTREMES),
    ("as before 6", TEXTS, SPELLED, EXTREMES),
    ("a least value", TEXTS, LEAST, LEAST_EXTREMES),
    ("as before 7", TEXTS, SPELLED, EXTREMES),
    ("a highest value", TEXTS, MOST, MOST_EXTREMES),
    ("as before 8", TEXTS, SPELLED, EXTREMES),
    (
        "another border",
        ["cupu", "V", "HP:1Hz", ""],
        SPELLED,
        EXTREMES,
    ),
    ("and of 16 bytes.", FULL, SPELLED, EXTREMES),
];

/// By their numbers in the reference file.
const SIGNALS: [usize; 21] = [
    0, 0, 0, 0, 0, 0, 0, 0, 0, 0, 0, 0, 0, 0, 0, 0, 0, 0, 0, 0, 2,
];

const TEXT_FIELDS: [Field; 4] = [
    Field::Transducer,
    Field::Dimension,
    Field::Prefilter,
    Field::Reserved,
];

const EXTREME_FIELDS: [Field; 4] = [
    Field::PhysicalMinimum,
    Field::PhysicalMaximum,
    Field::DigitalMinimum,
    Field::DigitalMaximum,
];

/// Puts these texts into these fields of a signal.
fn put_each(file: &mut [u8], signal: u16, fields: [Field; 4], texts: [&str; 4]) {
    for (field, text) in fields.iter().zip(&texts) {
        put(file, AtSignal(signal, *field), text);
    }
}

/// The header of the signals of the rows, and behind them one that holds annotations.
fn header(alloc: Global) -> Result<Header, Fail> {
    let mut file = header_of(alloc, &SIGNALS)?;
    put(&mut file, AtField(Fixed::HeaderBytes), "5632");
    put(&mut file, AtField(Fixed::Signals), "21");
    for (signal, (label, texts, spelled, _)) in (0..=u16::MAX).zip(ROWS) {
        put(&mut file, AtSignal(signal, Field::Label), label);
        put_each(&mut file, signal, TEXT_FIELDS, *texts);
        put_each(&mut file, signal, EXTREME_FIELDS, *spelled);
    }
    Ok(Header::read(alloc, &mut SliceSource::new(&file))?)
}

/// Whether the signal has this label and these texts.
fn says(signal: &Signal, label: &str, texts: SignalTexts) -> bool {
    let [transducer, dimension, prefilter, reserved] = texts;
    signal.label() == label.as_bytes()
        && signal.transducer() == transducer.as_bytes()
        && signal.dimension() == dimension.as_bytes()
        && signal.prefilter() == prefilter.as_bytes()
        && signal.reserved() == reserved.as_bytes()
}

/// Asserts the texts and the extremes of a signal.
fn assert_signal(
    rt: &impl Abort,
    signal: &Signal,
    label: &str,
    texts: SignalTexts,
    want: Extremes,
) {
    let (low, high) = signal.calibration().physical();
    let (least, most) = signal.calibration().digital();
    assert!(rt; says(signal, label, texts), "{label}");
    assert_eq!(rt; (low, high, least, most), want, "{label}");
}

#[test]
fn each_signal_says_its_own(rt: HostRuntime) -> Result<(), Fail> {
    let header = header(rt.alloc())?;
    assert_eq!(rt; header.signals().len(), 21);
    for (signal, (label, texts, _, want)) in header.signals().iter().zip(ROWS) {
        assert_signal(&rt, signal, label, *texts, *want);
    }
    Ok(())
}
