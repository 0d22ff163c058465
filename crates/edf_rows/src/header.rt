//! Writing the header of an EDF+ file into memory, field by field in the order of the file (EDF, "Header record").

use edf_fields::{FixedField, Place, SignalField};
use std::alloc::AllocError;

/// The fields of the fixed part, in file order.
pub const FIXED: [FixedField; 10] = [
    FixedField::Version,
    FixedField::Patient,
    FixedField::Recording,
    FixedField::Startdate,
    FixedField::Starttime,
    FixedField::HeaderBytes,
    FixedField::Reserved,
    FixedField::Records,
    FixedField::Duration,
    FixedField::Signals,
];

/// The columns behind it, in file order.
pub const COLUMNS: [SignalField; 10] = [
    SignalField::Label,
    SignalField::Transducer,
    SignalField::Dimension,
    SignalField::PhysicalMinimum,
    SignalField::PhysicalMaximum,
    SignalField::DigitalMinimum,
    SignalField::DigitalMaximum,
    SignalField::Prefilter,
    SignalField::Samples,
    SignalField::Reserved,
];

/// The texts of a header.
pub trait HeaderTexts {
    /// How many signals the columns have.
    fn signals(&self) -> u16;

    /// The text of a field of the header, without the spaces that fill it.
    fn text(&self, place: Place) -> &str;
}

/// Puts these bytes behind the file, and copies of `fill` up to `width` bytes in all.
pub fn push_padded(
    file: &mut Vec<u8>,
    bytes: &[u8],
    fill: u8,
    width: usize,
) -> Result<(), AllocError> {
    file.extend_from_slice(bytes)?;
    for _ in bytes.len()..width {
        file.push(fill)?;
    }
    Ok(())
}

/// Puts the fixed part of a header behind the file.
fn push_fixed(file: &mut Vec<u8>, texts: &impl HeaderTexts) -> Result<(), AllocError> {
    for field in FIXED {
        let (_, width) = field.extent();
        let text = texts.text(Place::AtField(field));
        push_padded(file, text.as_bytes(), b' ', width)?;
    }
    Ok(())
}

/// Puts a column of a header behind the file.
fn push_column(
    file: &mut Vec<u8>,
    texts: &impl HeaderTexts,
    field: SignalField,
) -> Result<(), AllocError> {
    for signal in 0..texts.signals() {
        let text = texts.text(Place::AtSignal(signal, field));
        push_padded(file, text.as_bytes(), b' ', field.width())?;
    }
    Ok(())
}

/// Puts a header behind the file.
pub fn push_header(file: &mut Vec<u8>, texts: &impl HeaderTexts) -> Result<(), AllocError> {
    push_fixed(file, texts)?;
    for field in COLUMNS {
        push_column(file, texts, field)?;
    }
    Ok(())
}
