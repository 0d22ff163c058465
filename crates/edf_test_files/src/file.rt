//! A header in memory, and other texts in its fields.

use edf_fields::{FixedField, Place, SignalField};
use edf_header::Header;
use edf_rows::{HeaderTexts, push_header};
use std::alloc::{AllocError, Global};

/// The fields of the fixed part: the name, and its text in the reference file.
pub const FIXED: &[(FixedField, &str, &str)] = &[
    (FixedField::Version, "version", "0"),
    (FixedField::Patient, "patient", PATIENT),
    (FixedField::Recording, "recording", RECORDING),
    (FixedField::Startdate, "startdate", "02.03.02"),
    (FixedField::Starttime, "starttime", "22.00.00"),
    (FixedField::HeaderBytes, "header-bytes", "1024"),
    (FixedField::Reserved, "reserved", "EDF+C"),
    (FixedField::Records, "records", "4"),
    (FixedField::Duration, "duration", "1"),
    (FixedField::Signals, "signals", "3"),
];

const PATIENT: &str = "MCH-0234567 F 02-MAY-1951 Haagse_Harry";

const RECORDING: &str = "Startdate 02-MAR-2002 PSG-1234/2002 NN Telemetry03";

/// The columns: the name, and the texts of the reference file's three signals.
pub const COLUMNS: &[(SignalField, &str, FieldTexts)] = &[
    (SignalField::Label, "label", LABELS),
    (SignalField::Transducer, "transducer", TRANSDUCERS),
    (SignalField::Dimension, "dimension", ["uV", "mV", ""]),
    (SignalField::PhysicalMinimum, "physical-minimum", LOWEST),
    (SignalField::PhysicalMaximum, "physical-maximum", HIGHEST),
    (SignalField::DigitalMinimum, "digital-minimum", LEAST),
    (SignalField::DigitalMaximum, "digital-maximum", MOST),
    (SignalField::Prefilter, "prefilter", PREFILTERS),
    (SignalField::Samples, "samples", ["4", "2", "20"]),
    (SignalField::Reserved, "reserved", ["", "", ""]),
];

type FieldTexts = [&'static str; 3];

const LABELS: FieldTexts = ["EEG Fpz-Cz", "ECG", "EDF Annotations"];

const TRANSDUCERS: FieldTexts = ["AgAgCl electrode", "AgAgCl electrode", ""];

const LOWEST: FieldTexts = ["-100", "-10", "-1"];

const HIGHEST: FieldTexts = ["100", "10", "1"];

const LEAST: FieldTexts = ["-2048", "-2048", "-32768"];

const MOST: FieldTexts = ["2047", "2047", "32767"];

const PREFILTERS: FieldTexts = ["HP:0.1Hz LP:75Hz", "HP:0.1Hz LP:75Hz", ""];

/// How many bytes of a signal stand in the columns in front of this one.
fn bytes_before(field: SignalField) -> usize {
    let mut count = 0usize;
    for before in edf_rows::COLUMNS {
        if before == field {
            return count;
        }
        count = count.saturating_add(before.width());
    }
    count
}

/// Where a field begins in a header of so many signals, and how many bytes it has; none of a field that isn't there.
fn extent(place: Place, signals: usize) -> (usize, usize) {
    match place {
        Place::AtField(field) => field.extent(),
        Place::AtSignal(signal, field) if usize::from(signal) < signals => {
            let columns = bytes_before(field).saturating_mul(signals);
            let within = field.width().saturating_mul(usize::from(signal));
            (
                columns.saturating_add(within).saturating_add(256),
                field.width(),
            )
        }
        _ => (0, 0),
    }
}

/// What an assertion over files answers: its own error is want of memory.
pub type Done = Result<(), AllocError>;

/// A field and another text for it.
pub type Edit<'a> = (Place, &'a str);

/// Puts another text into a field of a header that is whole.
pub fn put(file: &mut [u8], place: Place, text: &str) {
    let (from, width) = extent(place, (file.len() / 256).saturating_sub(1));
    for byte in 0..width {
        if let Some(slot) = file.get_mut(from.saturating_add(byte)) {
            *slot = text.as_bytes().get(byte).copied().unwrap_or(b' ');
        }
    }
}

/// The header of a file with the fixed part of the reference file, and these of its signals, by their numbers.
#[derive(Clone, Copy)]
struct Reference<'a> {
    signals: &'a [usize],
}

/// The text of a field of the fixed part of the reference file.
fn fixed_text(field: FixedField) -> &'static str {
    for (fixed, _, text) in FIXED {
        if *fixed == field {
            return text;
        }
    }
    ""
}

/// The text of a signal's field in the reference file.
fn signal_text(field: SignalField, signal: usize) -> &'static str {
    for (column, _, texts) in COLUMNS {
        if *column == field {
            return texts.get(signal).copied().unwrap_or("");
        }
    }
    ""
}

impl HeaderTexts for Reference<'_> {
    fn signals(&self) -> u16 {
        u16::try_from(self.signals.len()).unwrap_or(u16::MAX)
    }

    fn text(&self, place: Place) -> &str {
        match place {
            Place::AtField(field) => fixed_text(field),
            Place::AtSignal(signal, field) => match self.signals.get(usize::from(signal)) {
                Some(number) => signal_text(field, *number),
                None => "",
            },
            Place::AtRecord(_) | Place::AtEnd => "",
        }
    }
}

/// The fixed part of the reference file, and behind it these of its signals, by their numbers.
pub fn header_of(alloc: Global, signals: &[usize]) -> Result<Vec<u8>, AllocError> {
    let mut file = Vec::new(alloc);
    push_header(&mut file, &Reference { signals })?;
    Ok(file)
}

/// The header of the reference file with other texts in some of its fields.
pub fn edited(alloc: Global, edits: &[Edit]) -> Result<Vec<u8>, AllocError> {
    let mut file = header_of(alloc, &[0, 1, 2])?;
    for (place, text) in edits {
        put(&mut file, *place, text);
    }
    Ok(file)
}

/// Whether the header is the reference file's, as far as its start, its records and one label go.
pub fn is_reference(header: &Header) -> bool {
    let is_noted = header
        .signals()
        .last()
        .is_some_and(|last| last.is_annotations());
    is_noted && header.start_second() == 1_015_106_400 && header.record_bytes() == 52
}
