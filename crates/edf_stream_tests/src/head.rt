//! The header of the reference file and of some others, value by value.

use edf_fields::Place::{AtField, AtSignal};
use edf_fields::{
    Cause, Fault, FixedField as Fixed, PatientId, RecordingId, SignalField as Field, SliceSource,
};
use edf_header::{Header, Kind, Signal, Stop};
use edf_test_files::{Edit, edited};
use std::alloc::Global;
use std::process::Abort;
use std::test::Fail;

/// The header of the reference file with these edits.
fn header(alloc: Global, edits: &[Edit]) -> Result<Header, Fail> {
    let file = edited(alloc, edits)?;
    Ok(Header::read(alloc, &mut SliceSource::new(&file))?)
}

/// Year, month, day, and the second since 1970.
fn start(header: &Header) -> (i16, i8, i8, i64) {
    let date = header.start_date();
    (date.year(), date.month(), date.day(), header.start_second())
}

#[test]
fn says_when_it_starts_and_how_its_records_lie(rt: HostRuntime) -> Result<(), Fail> {
    let header = header(rt.alloc(), &[])?;
    assert_eq!(rt; start(&header), (2002, 3, 2, 1_015_106_400));
    assert_eq!(rt; header.start_clock(), 22 * 3600);
    assert_eq!(rt; (header.kind(), header.records()), (Kind::Contiguous, 4));
    assert_eq!(rt;
        (header.duration_ps(), header.record_bytes()),
        (1_000_000_000_000, 52)
    );
    assert!(rt; header.free().is_empty());
    Ok(())
}

/// A startdate and a recording identification, and the start at 22:00:00: year, month, day and the second since 1970;
/// or what is wrong with the startdate.
type StartRow = (
    &'static str,
    &'static str,
    Result<(i16, i8, i8, i64), Cause>,
);

const STARTS_BESIDE_RECORDING_DATES: &[StartRow] = &[
    (
        "31.12.yy",
        "Startdate 31-DEC-2099 X X X",
        Ok((2099, 12, 31, 4_102_437_600)),
    ),
    (
        "01.01.yy",
        "Startdate 01-JAN-2085 X X X",
        Ok((2085, 1, 1, 3_629_224_800)),
    ),
    (
        "31.12.yy",
        "Startdate 31-DEC-9999 X X X",
        Ok((9999, 12, 31, 253_402_293_600)),
    ),
    (
        "29.02.yy",
        "Startdate 29-FEB-2096 X X X",
        Ok((2096, 2, 29, 3_981_391_200)),
    ),
    (
        "31.12.84",
        "Startdate 31-DEC-2084 X X X",
        Ok((2084, 12, 31, 3_629_138_400)),
    ),
    (
        "31.12.84",
        "Startdate X X X X",
        Ok((2084, 12, 31, 3_629_138_400)),
    ),
    (
        "31.12.yy",
        "Startdate 31-DEC-2084 X X X",
        Err(Cause::BadStart),
    ),
    (
        "31.12.yy",
        "Startdate 31-DEC-1999 X X X",
        Err(Cause::BadStart),
    ),
    ("31.12.yy", "Startdate X X X X", Err(Cause::BadStart)),
    (
        "00.12.yy",
        "Startdate 31-DEC-2099 X X X",
        Err(Cause::BadStart),
    ),
    (
        "32.12.yy",
        "Startdate 31-DEC-2099 X X X",
        Err(Cause::BadStart),
    ),
    (
        "31.00.yy",
        "Startdate 31-DEC-2099 X X X",
        Err(Cause::BadStart),
    ),
    (
        "31.13.yy",
        "Startdate 31-DEC-2099 X X X",
        Err(Cause::BadStart),
    ),
    (
        "31.12.YY",
        "Startdate 31-DEC-2099 X X X",
        Err(Cause::BadStart),
    ),
    (
        "31.12.yY",
        "Startdate 31-DEC-2099 X X X",
        Err(Cause::BadStart),
    ),
    (
        "30.12.yy",
        "Startdate 31-DEC-2099 X X X",
        Err(Cause::StartdateDiffers),
    ),
    (
        "31.10.yy",
        "Startdate 31-DEC-2099 X X X",
        Err(Cause::StartdateDiffers),
    ),
    (
        "31.02.yy",
        "Startdate 28-FEB-2099 X X X",
        Err(Cause::StartdateDiffers),
    ),
    (
        "01.01.85",
        "Startdate 01-JAN-2085 X X X",
        Err(Cause::StartdateDiffers),
    ),
    (
        "31.12.99",
        "Startdate 31-DEC-2099 X X X",
        Err(Cause::StartdateDiffers),
    ),
];

/// The start of the reference file with these texts.
fn start_of(
    alloc: Global,
    startdate: &str,
    recording: &str,
) -> Result<Result<(i16, i8, i8, i64), Cause>, Fail> {
    let edits = [
        (AtField(Fixed::Startdate), startdate),
        (AtField(Fixed::Recording), recording),
    ];
    let file = edited(alloc, &edits)?;
    match Header::read(alloc, &mut SliceSource::new(&file)) {
        Ok(header) => Ok(Ok(start(&header))),
        Err(
            Stop::Fault(
                Fault {
                    place: AtField(Fixed::Startdate),
                    cause,
                },
            ),
        ) => Ok(Err(cause)),
        Err(_) => Err(Fail::new("stopped elsewhere")),
    }
}

#[test]
fn takes_the_year_from_the_recording_after_2084(rt: HostRuntime) -> Result<(), Fail> {
    for (startdate, recording, want) in STARTS_BESIDE_RECORDING_DATES {
        let found = start_of(rt.alloc(), startdate, recording)?;
        assert_eq!(rt; found, *want, "at {startdate}, {recording}");
    }
    Ok(())
}

fn assert_patient(rt: &impl Abort, patient: &PatientId) {
    assert_eq!(rt; patient.code(), b"MCH-0234567".as_slice());
    assert_eq!(rt; patient.sex(), b"F".as_slice());
    assert_eq!(rt; patient.birthdate(), b"02-MAY-1951".as_slice());
    assert_eq!(rt; patient.name(), b"Haagse_Harry".as_slice());
    assert!(rt; patient.extras().next().is_none());
}

fn assert_recording(rt: &impl Abort, recording: &RecordingId) {
    assert_eq!(rt; recording.date(), b"02-MAR-2002".as_slice());
    assert_eq!(rt; recording.admin(), b"PSG-1234/2002".as_slice());
    assert_eq!(rt; recording.technician(), b"NN".as_slice());
    assert_eq!(rt; recording.equipment(), b"Telemetry03".as_slice());
    assert!(rt; recording.extras().next().is_none());
}

#[test]
fn says_the_patient_and_the_recording(rt: HostRuntime) -> Result<(), Fail> {
    let header = header(rt.alloc(), &[])?;
    assert_patient(&rt, &header.patient());
    assert_recording(&rt, &header.recording());
    Ok(())
}

/// Whether the signal has these texts: label, transducer, dimension, prefilter, reserved.
fn has_texts(signal: &Signal, want: [&str; 5]) -> bool {
    let [label, transducer, dimension, prefilter, reserved] = want;
    signal.label() == label.as_bytes()
        && signal.transducer() == transducer.as_bytes()
        && signal.dimension() == dimension.as_bytes()
        && signal.prefilter() == prefilter.as_bytes()
        && signal.reserved() == reserved.as_bytes()
}

/// The physical and the digital extremes.
fn extremes(signal: &Signal) -> (i64, i64, i16, i16) {
    let (low, high) = signal.calibration().physical();
    let (least, most) = signal.calibration().digital();
    (low, high, least, most)
}

/// Samples in a data record, bytes before them, and whether they hold annotations.
fn lane(signal: &Signal) -> (u32, usize, bool) {
    (signal.samples(), signal.offset(), signal.is_annotations())
}

const LANES: [(u32, usize, bool); 3] = [(4, 0, false), (2, 8, false), (20, 12, true)];

/// The physical extremes of each signal in units of 10^-7, and the digital ones.
const EXTREMES: [(i64, i64, i16, i16); 3] = [
    (-1_000_000_000, 1_000_000_000, -2048, 2047),
    (-100_000_000, 100_000_000, -2048, 2047),
    (-10_000_000, 10_000_000, -32768, 32767),
];

const ELECTRODE: &str = "AgAgCl electrode";

const FILTER: &str = "HP:0.1Hz LP:75Hz";

fn assert_signals(rt: &impl Abort, signals: &[Signal]) -> Result<(), Fail> {
    let [eeg, ecg, notes] = signals else {
        return Err(Fail::new("not three signals"));
    };
    assert!(rt; has_texts(eeg, ["EEG Fpz-Cz", ELECTRODE, "uV", FILTER, ""]));
    assert!(rt; has_texts(ecg, ["ECG", ELECTRODE, "mV", FILTER, ""]));
    assert!(rt; has_texts(notes, ["EDF Annotations", "", "", "", ""]));
    assert_eq!(rt; [lane(eeg), lane(ecg), lane(notes)], LANES);
    assert_eq!(rt; [extremes(eeg), extremes(ecg), extremes(notes)], EXTREMES);
    Ok(())
}

#[test]
fn says_its_signals(rt: HostRuntime) -> Result<(), Fail> {
    let header = header(rt.alloc(), &[])?;
    assert_signals(&rt, header.signals())
}

#[test]
fn says_where_its_annotations_lie(rt: HostRuntime) -> Result<(), Fail> {
    let header = header(rt.alloc(), &[])?;
    for place in header.annotation_places() {
        assert_eq!(rt; (place.offset, place.samples), (12, 20));
    }
    assert_eq!(rt; header.annotation_places().len(), 1);
    Ok(())
}

/// Startdates and starttimes, and what they say.
const STARTS: &[(&str, &str, (i16, i8, i8, i64))] = &[
    ("01.01.85", "00.00.00", (1985, 1, 1, 473_385_600)),
    ("31.12.99", "23.59.59", (1999, 12, 31, 946_684_799)),
    ("01.01.00", "00.00.00", (2000, 1, 1, 946_684_800)),
    ("29.02.04", "12.34.56", (2004, 2, 29, 1_078_058_096)),
    ("31.12.84", "23.59.59", (2084, 12, 31, 3_629_145_599)),
];

#[test]
fn says_when_other_files_start(rt: HostRuntime) -> Result<(), Fail> {
    for (date, time, want) in STARTS {
        let edits = [
            (AtField(Fixed::Recording), "Startdate X X X X"),
            (AtField(Fixed::Startdate), date),
            (AtField(Fixed::Starttime), time),
        ];
        assert_eq!(rt; start(&header(rt.alloc(), &edits)?), *want);
    }
    Ok(())
}

#[test]
fn says_its_kind_and_free_text(rt: HostRuntime) -> Result<(), Fail> {
    for (text, kind) in [
        ("EDF+Continuous", Kind::Contiguous),
        ("EDF+Dontinuous", Kind::Interrupted),
    ] {
        let header = header(rt.alloc(), &[(AtField(Fixed::Reserved), text)])?;
        assert_eq!(rt; header.kind(), kind);
        assert_eq!(rt; header.free(), b"ontinuous".as_slice());
    }
    Ok(())
}

/// Numbers with a sign, zeros or a point more, a label that fills its field, and a negative gain.
const OTHERS: &[Edit] = &[
    (AtField(Fixed::Records), "+0004"),
    (AtField(Fixed::Duration), ".0000001"),
    (AtSignal(0, Field::Label), "EEG Fpz-Cz 16 by"),
    (AtSignal(0, Field::PhysicalMinimum), "+100."),
    (AtSignal(0, Field::PhysicalMaximum), "-99.5"),
];

#[test]
fn says_other_spellings(rt: HostRuntime) -> Result<(), Fail> {
    let header = header(rt.alloc(), OTHERS)?;
    assert_eq!(rt; (header.records(), header.duration_ps()), (4, 100_000));
    let Some(signal) = header.signals().first() else {
        return Err(Fail::new("no signal"));
    };
    assert_eq!(rt; signal.label(), b"EEG Fpz-Cz 16 by".as_slice());
    assert_eq!(rt;
        extremes(signal),
        (1_000_000_000, -995_000_000, -2048, 2047)
    );
    Ok(())
}
