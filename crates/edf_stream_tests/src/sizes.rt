//! Large data records and many signals.

use edf_fields::Place::{self, AtField, AtSignal};
use edf_fields::{FixedField as Fixed, SignalField as Field, SliceSource};
use edf_header::{Header, Stop};
use edf_test_files::{Done, header_of, put};
use std::alloc::{AllocError, Global};
use std::process::Abort;
use std::test::Fail;

/// What a read of these bytes answers: the fault in words, or `Sound`.
fn answer_of(alloc: Global, file: &[u8]) -> Result<String, AllocError> {
    match Header::read(alloc, &mut SliceSource::new(file)) {
        Ok(_) => String::from_str(alloc, "Sound"),
        Err(Stop::Fault(fault)) => fault.text(alloc),
        Err(_) => Err(AllocError),
    }
}

/// Puts a number into a field.
fn put_number(alloc: Global, file: &mut [u8], place: Place, number: usize) -> Done {
    let text = format!(in alloc; "{number}")?;
    put(file, place, text.as_str());
    Ok(())
}

/// The header of `channels` channels with their numbers as labels, and an annotation signal.
fn wide_file(alloc: Global, channels: u16) -> Result<Vec<u8>, AllocError> {
    let mut signals = vec![in alloc; 0usize; usize::from(channels)]?;
    signals.push(2)?;
    let mut file = header_of(alloc, &signals)?;
    let size = file.len();
    put_number(alloc, &mut file, AtField(Fixed::HeaderBytes), size)?;
    put_number(alloc, &mut file, AtField(Fixed::Signals), signals.len())?;
    for channel in 0..channels {
        let label = usize::from(channel);
        put_number(alloc, &mut file, AtSignal(channel, Field::Label), label)?;
    }
    Ok(file)
}

/// Asserts that the header of so many channels is read, and what it says of its last two signals.
fn assert_wide(rt: &impl Abort, alloc: Global, channels: u16, last: &[u8]) -> Result<(), Fail> {
    let file = wide_file(alloc, channels)?;
    let header = Header::read(alloc, &mut SliceSource::new(&file))?;
    let [.., channel, notes] = header.signals() else {
        return Err(Fail::new("no two signals"));
    };
    assert_eq!(rt; header.signals().len(), usize::from(channels) + 1);
    assert_eq!(rt; (channel.label(), channel.samples()), (last, 4));
    assert_eq!(rt;
        (notes.is_annotations(), notes.offset()),
        (true, 8 * usize::from(channels))
    );
    Ok(())
}

#[test]
fn reads_three_hundred_signals(rt: HostRuntime) -> Result<(), Fail> {
    assert_wide(&rt, rt.alloc(), 299, b"298")
}

#[test]
fn reads_the_most_signals(rt: HostRuntime) -> Result<(), Fail> {
    assert_wide(&rt, rt.alloc(), 9998, b"9997")
}

const LARGE: &str = "RecordTooLarge at header field signals";

/// The samples of a channel and of an annotation signal in a data record, and the answer.
const SAMPLES: &[(&str, &str, &str)] = &[
    ("8388600", "8", "Sound"),
    ("1", "8388607", "Sound"),
    ("8388601", "8", LARGE),
    ("8388600", "9", LARGE),
    ("99999999", "99999999", LARGE),
];

/// The header of a channel and an annotation signal with so many samples in a data record.
fn narrow_file(alloc: Global, channel: &str, lane: &str) -> Result<Vec<u8>, AllocError> {
    let mut file = wide_file(alloc, 1)?;
    put(&mut file, AtSignal(0, Field::Samples), channel);
    put(&mut file, AtSignal(1, Field::Samples), lane);
    Ok(file)
}

#[test]
fn judges_the_size_of_a_record(rt: HostRuntime) -> Result<(), AllocError> {
    for (channel, lane, want) in SAMPLES {
        let file = narrow_file(rt.alloc(), channel, lane)?;
        let found = answer_of(rt.alloc(), &file)?;
        assert_eq!(rt; found.as_str(), *want, "{channel} and {lane}");
    }
    Ok(())
}

#[test]
fn reads_the_largest_record(rt: HostRuntime) -> Result<(), Fail> {
    let file = narrow_file(rt.alloc(), "8388600", "8")?;
    let header = Header::read(rt.alloc(), &mut SliceSource::new(&file))?;
    let offset = header.signals().last().map(|signal| signal.offset());
    assert_eq!(rt;
        (header.record_bytes(), offset),
        (16_777_216, Some(16_777_200))
    );
    Ok(())
}
