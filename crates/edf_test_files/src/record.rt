//! Whole files in memory: a header, and data records with these lanes.

use crate::file::{Edit, edited, header_of, put};
use edf_fields::Place::{AtField, AtSignal};
use edf_fields::{FixedField as Fixed, SignalField as Field};
use edf_rows::push_padded;
use std::alloc::{AllocError, Global};

/// What stands in the annotation lane of each data record of the reference file.
pub const LANES: &[&[u8]] = &[
    b"+0\x14\x14\0+0.5\x14Lights off\x14\0",
    b"+1\x14\x14\0+1.5\x151\x14Apnea\x14\0",
    b"+2\x14\x14\0",
    b"+3\x14\x14\0+3\x14Apnea\x14\0",
];

/// A channel `Temp` in place of the second one of the reference file.
const TEMP: &[Edit] = &[
    (AtField(Fixed::HeaderBytes), "768"),
    (AtField(Fixed::Records), "1"),
    (AtField(Fixed::Signals), "2"),
    (AtSignal(0, Field::Label), "Temp"),
    (AtSignal(0, Field::Transducer), ""),
    (AtSignal(0, Field::Dimension), "degC"),
    (AtSignal(0, Field::PhysicalMinimum), "30"),
    (AtSignal(0, Field::PhysicalMaximum), "40"),
    (AtSignal(0, Field::Prefilter), ""),
    (AtSignal(0, Field::Samples), "2"),
    (AtSignal(1, Field::Samples), "16"),
];

/// The header of a file with that channel, with other texts in some of its fields.
pub fn temp_header(alloc: Global, edits: &[Edit]) -> Result<Vec<u8>, AllocError> {
    let mut file = header_of(alloc, &[1, 2])?;
    for (place, text) in TEMP {
        put(&mut file, *place, text);
    }
    for (place, text) in edits {
        put(&mut file, *place, text);
    }
    Ok(file)
}

/// A file of one data record of 1 s with two samples, 7 and -7.
pub fn small_file(alloc: Global) -> Result<Vec<u8>, AllocError> {
    let mut file = temp_header(alloc, &[])?;
    file.extend_from_slice(b"\x07\0\xf9\xff")?;
    push_lane(&mut file, b"+0\x14\x14\0", 32)?;
    Ok(file)
}

/// Puts a sample behind the file: two bytes, the low one first.
fn push_sample(file: &mut Vec<u8>, value: u16) -> Result<(), AllocError> {
    file.push(value.to_le_bytes()[0])?;
    file.push(value.to_le_bytes()[1])?;
    Ok(())
}

/// Puts a lane behind the file, filled with zeros to so many bytes, or cut to them.
pub fn push_lane(file: &mut Vec<u8>, lane: &[u8], size: usize) -> Result<(), AllocError> {
    push_padded(file, lane.get(..size).unwrap_or(lane), 0, size)
}

/// The reference file with other texts in some of its fields, and these lanes: data record `k` has the
/// values 10 times 4 `k` and the three that follow, 100 and 2 `k`, and the one that follows.
pub fn recorded(alloc: Global, edits: &[Edit], lanes: &[&[u8]]) -> Result<Vec<u8>, AllocError> {
    let mut file = edited(alloc, edits)?;
    for (k, lane) in (0..100u16).zip(lanes) {
        for i in 0..4 {
            push_sample(&mut file, k.wrapping_mul(40).wrapping_add(10 * i))?;
        }
        for i in 0..2 {
            push_sample(&mut file, k.wrapping_mul(2).wrapping_add(100 + i))?;
        }
        push_lane(&mut file, lane, 40)?;
    }
    Ok(file)
}

/// The reference file with so many data records of 1 s, which hold zeros and keep the time.
pub fn timed(alloc: Global, records: u16) -> Result<Vec<u8>, AllocError> {
    let count = records.to_string(alloc)?;
    let mut file = edited(alloc, &[(AtField(Fixed::Records), count.as_str())])?;
    for k in 0..records {
        let lane = format!(in alloc; "+{k}\u{14}\u{14}")?;
        push_lane(&mut file, b"", 12)?;
        push_lane(&mut file, lane.as_bytes(), 40)?;
    }
    Ok(file)
}

/// A file of one data record with two annotation signals behind a channel, and these lanes.
pub fn twofold(alloc: Global, first: &[u8], second: &[u8]) -> Result<Vec<u8>, AllocError> {
    let mut file = header_of(alloc, &[1, 2, 2])?;
    put(&mut file, AtField(Fixed::Records), "1");
    push_sample(&mut file, 7)?;
    push_sample(&mut file, 7)?;
    push_lane(&mut file, first, 40)?;
    push_lane(&mut file, second, 40)?;
    Ok(file)
}
