//! Building small EDF+ files in memory.

use crate::files::{DataRecord, File, FileText, SignalText, text_of};
use crate::header::{HeaderTexts, push_header, push_padded};
use edf_fields::{FixedField, Place, SignalField};
use std::alloc::{AllocError, Global};

/// The text of a field of the fixed part.
fn fixed_text(text: &FileText, field: FixedField) -> &'static str {
    match field {
        FixedField::Version => "0",
        FixedField::Patient => text.patient,
        FixedField::Recording => text.recording,
        FixedField::Startdate => text.startdate,
        FixedField::Starttime => text.starttime,
        FixedField::HeaderBytes => text.header_bytes,
        FixedField::Reserved => text.reserved,
        FixedField::Records => text.records,
        FixedField::Duration => text.duration,
        FixedField::Signals => text.count,
    }
}

/// The text of a signal's field.
fn signal_text(signal: &SignalText, field: SignalField) -> &'static str {
    match field {
        SignalField::Label => signal.label,
        SignalField::Transducer => signal.transducer,
        SignalField::Dimension => signal.dimension,
        SignalField::PhysicalMinimum => signal.physical.0,
        SignalField::PhysicalMaximum => signal.physical.1,
        SignalField::DigitalMinimum => signal.digital.0,
        SignalField::DigitalMaximum => signal.digital.1,
        SignalField::Prefilter => signal.prefilter,
        SignalField::Samples => signal.samples,
        SignalField::Reserved => "",
    }
}

/// The texts of a file's header, some of which are changed.
#[derive(Clone, Copy)]
struct Changed<'a> {
    text: &'a FileText,
    changes: &'static [(Place, &'static str)],
}

impl Changed<'_> {
    /// The text that a field has where it isn't changed.
    fn unchanged(&self, place: Place) -> &'static str {
        match place {
            Place::AtField(field) => fixed_text(self.text, field),
            Place::AtSignal(signal, field) => match self.text.signals.get(usize::from(signal)) {
                Some(signal) => signal_text(signal, field),
                None => "",
            },
            Place::AtRecord(_) | Place::AtEnd => "",
        }
    }
}

impl HeaderTexts for Changed<'_> {
    fn signals(&self) -> u16 {
        u16::try_from(self.text.signals.len()).unwrap_or(u16::MAX)
    }

    fn text(&self, place: Place) -> &str {
        for (changed, other) in self.changes {
            if *changed == place {
                return other;
            }
        }
        self.unchanged(place)
    }
}

/// Puts samples behind the file, two bytes each, the low one first.
fn push_values(file: &mut Vec<u8>, values: &[i16]) -> Result<(), AllocError> {
    for value in values {
        file.extend_from_slice(&value.to_le_bytes())?;
    }
    Ok(())
}

/// Puts data records behind the file: of each the samples, then the lane with zeros up to its size.
fn push_records(
    file: &mut Vec<u8>,
    records: &[DataRecord],
    lane_bytes: usize,
) -> Result<(), AllocError> {
    for record in records {
        push_values(file, record.values)?;
        push_padded(file, record.lane, 0, lane_bytes)?;
    }
    Ok(())
}

/// Puts these bytes over those that stand in the file from a place on.
fn put_over(file: &mut [u8], from: usize, bytes: &[u8]) {
    for (place, byte) in bytes.iter().enumerate() {
        if let Some(slot) = file.get_mut(from.saturating_add(place)) {
            *slot = *byte;
        }
    }
}

/// Puts each of these bytes over those that stand in the file from their place on.
fn put_all_over(file: &mut [u8], changes: &[(usize, &'static [u8])]) {
    for (from, bytes) in changes {
        put_over(file, *from, bytes);
    }
}

/// The bytes of a file. The error is want of memory.
pub fn bytes_of(alloc: Global, file: &File) -> Result<Vec<u8>, AllocError> {
    let text = text_of(file.base);
    let mut bytes = Vec::new(alloc);
    let texts = Changed {
        text: &text,
        changes: file.texts,
    };
    push_header(&mut bytes, &texts)?;
    push_records(&mut bytes, text.contents, text.lane_bytes)?;
    put_all_over(&mut bytes, file.bytes);
    if let Some(length) = file.length {
        bytes.resize(length, 0)?;
    }
    Ok(bytes)
}
