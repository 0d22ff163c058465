//! Which extremes say the same line from digital to physical values.

use edf_fields::Place::AtSignal;
use edf_fields::{SignalField as Field, SliceSource};
use edf_header::Header;
use edf_test_files::{edited, put};
use std::alloc::Global;
use std::test::Fail;

/// The texts of the physical minimum and maximum and of the digital minimum and maximum.
type Extremes = [&'static str; 4];

const PLAIN: Extremes = ["-100", "100", "-2048", "2047"];

const FALLING: Extremes = ["100", "-100", "-2048", "2047"];

/// Two lines, and whether they are the same.
const LINES: &[(Extremes, Extremes, bool)] = &[
    (PLAIN, PLAIN, true),
    (PLAIN, ["-100.0", "+100", "-2048", "+2047"], true),
    (PLAIN, ["-100", "-60", "-2048", "-1229"], true),
    (PLAIN, ["-100", "100.0001", "-2048", "2047"], false),
    (PLAIN, ["-99", "101", "-2048", "2047"], false),
    (PLAIN, ["-100", "100", "-2047", "2047"], false),
    (PLAIN, FALLING, false),
    (FALLING, FALLING, true),
    (FALLING, ["100", "60", "-2048", "-1229"], true),
];

/// Puts the extremes into the signal.
fn put_extremes(file: &mut [u8], signal: u16, extremes: Extremes) {
    let [low, high, least, most] = extremes;
    put(file, AtSignal(signal, Field::PhysicalMinimum), low);
    put(file, AtSignal(signal, Field::PhysicalMaximum), high);
    put(file, AtSignal(signal, Field::DigitalMinimum), least);
    put(file, AtSignal(signal, Field::DigitalMaximum), most);
}

/// Whether the first line is the same as the second, and the second the same as the first.
fn compare(alloc: Global, first: Extremes, second: Extremes) -> Result<(bool, bool), Fail> {
    let mut file = edited(alloc, &[])?;
    put_extremes(&mut file, 0, first);
    put_extremes(&mut file, 1, second);
    let header = Header::read(alloc, &mut SliceSource::new(&file))?;
    let [eeg, ecg, _] = header.signals() else {
        return Err(Fail::new("not three signals"));
    };
    let (eeg, ecg) = (eeg.calibration(), ecg.calibration());
    Ok((eeg.same_line(ecg), ecg.same_line(eeg)))
}

#[test]
fn compares_lines(rt: HostRuntime) -> Result<(), Fail> {
    for (first, second, want) in LINES {
        let found = compare(rt.alloc(), *first, *second)?;
        assert_eq!(rt; found, (*want, *want), "{first:?} and {second:?}");
    }
    Ok(())
}
