//! Calls under ever more memory: each refused growth is answered, until there is enough.

use crate::meaning::is_that_of_reference;
use edf_fields::{Cause, Fault, FieldCause, FixedField, Place, SignalField, SliceSource};
use edf_header::{Header, Stop};
use edf_stream::{FileReader, conform, whole_meaning};
use edf_test_files::{Edit, LANES, Scarce, edited, is_reference, recorded, timed};
use std::alloc::{AllocError, Global};

/// The most steps.
const STEPS: usize = 1000;

/// The size of the region that a step gives back, of which it leaves a part.
const REGION: usize = 1 << 14;

/// The fault with the longest words.
const LONGEST: Fault = Fault {
    place: Place::AtSignal(65_535, SignalField::PhysicalMinimum),
    cause: Cause::BadSubfields(FieldCause::TooFewSubfields),
};

const WORDS: &str = "BadSubfields(TooFewSubfields) at signal 65535 field physical-minimum";

/// One of the calls: reading a header that has this fault or none, reading a whole file that conforms,
/// reading what the reference file means, at once or behind its header, or saying the longest fault.
#[derive(Clone, Copy)]
enum Call {
    Reading(Option<Fault>),
    Conforming,
    Meaning,
    ReadingOn,
    Saying,
}

/// Whether the header is read, or refused for this fault; or none where that wants memory.
fn is_read(alloc: Global, file: &[u8], fault: Option<Fault>) -> Option<bool> {
    match Header::read(alloc, &mut SliceSource::new(file)) {
        Ok(header) => Some(fault.is_none() && is_reference(&header)),
        Err(Stop::OutOfMemory) => None,
        Err(stop) => Some(Some(stop) == fault.map(Stop::Fault)),
    }
}

/// Whether the file conforms and holds no annotation; or none where reading it wants memory.
fn is_conforming(alloc: Global, file: &[u8]) -> Option<bool> {
    match conform(alloc, &mut SliceSource::new(file)) {
        Ok(found) => Some(found.annotations == 0),
        Err(Stop::OutOfMemory) => None,
        Err(_) => Some(false),
    }
}

/// Whether the file means what the reference file does; or none where reading it wants memory.
fn is_meant(alloc: Global, file: &[u8]) -> Option<bool> {
    match whole_meaning(alloc, &mut SliceSource::new(file)) {
        Ok(found) => Some(is_that_of_reference(&found)),
        Err(Stop::OutOfMemory) => None,
        Err(_) => Some(false),
    }
}

/// The same by a reader that has read the header.
fn is_meant_behind_header(alloc: Global, file: &[u8]) -> Option<bool> {
    let mut source = SliceSource::new(file);
    let reader = match FileReader::begin(alloc, &mut source) {
        Ok(reader) => reader,
        Err(Stop::OutOfMemory) => return None,
        Err(_) => return Some(false),
    };
    match reader.into_meaning(alloc, &mut source) {
        Ok((header, found)) => Some(is_reference(&header) && is_that_of_reference(&found)),
        Err(Stop::OutOfMemory) => None,
        Err(_) => Some(false),
    }
}

/// Whether the call ends as it should, or none where it wants memory.
fn called(alloc: Global, call: Call, file: &[u8]) -> Option<bool> {
    match call {
        Call::Reading(fault) => is_read(alloc, file, fault),
        Call::Conforming => is_conforming(alloc, file),
        Call::Meaning => is_meant(alloc, file),
        Call::ReadingOn => is_meant_behind_header(alloc, file),
        Call::Saying => {
            let text = LONGEST.text(alloc).ok()?;
            Some(text.as_str() == WORDS)
        }
    }
}

/// Calls with ever more memory, 16 bytes more in each step, until a call doesn't want any: whether that one
/// ended as it should, and how many did want memory before.
fn rise(alloc: Global, call: Call, file: &[u8]) -> Result<(bool, u64), AllocError> {
    let mut scarce = Scarce::new(alloc, STEPS, REGION)?;
    let mut refused = 0u64;
    for step in 2..STEPS {
        scarce.leave(alloc, 16 * step)?;
        let found = called(alloc, call, file);
        scarce.take_back(alloc);
        if let Some(right) = found {
            return Ok((right, refused));
        }
        refused = refused.saturating_add(1);
    }
    Ok((false, refused))
}

/// How many reads want memory before one answers the fault at the place of the edit.
fn refused(alloc: Global, edit: Edit, cause: Cause) -> Result<(bool, u64), AllocError> {
    let (place, _) = edit;
    let file = edited(alloc, &[edit])?;
    rise(alloc, Call::Reading(Some(Fault { place, cause })), &file)
}

#[test]
fn reads_a_header_or_wants_memory(rt: HostRuntime) -> Result<(), AllocError> {
    let file = edited(rt.alloc(), &[])?;
    let (is_right, refused) = rise(rt.alloc(), Call::Reading(None), &file)?;
    assert!(rt; is_right && refused >= 64, "{refused}");
    Ok(())
}

#[test]
fn says_a_fault_or_wants_memory(rt: HostRuntime) -> Result<(), AllocError> {
    let (is_right, refused) = rise(rt.alloc(), Call::Saying, b"")?;
    assert!(rt; is_right && refused > 0, "{refused}");
    Ok(())
}

/// A fault of the fixed part wants memory for its 256 bytes alone, 16 more a step.
#[test]
fn judges_the_fixed_part_before_it_asks_for_more(rt: HostRuntime) -> Result<(), AllocError> {
    let edit = (Place::AtField(FixedField::Signals), "0");
    let (is_right, refused) = refused(rt.alloc(), edit, Cause::BadRange)?;
    assert!(rt; is_right && refused <= 16, "{refused}");
    Ok(())
}

/// A fault of the columns wants memory for the columns beside.
#[test]
fn wants_memory_before_it_judges_the_columns(rt: HostRuntime) -> Result<(), AllocError> {
    let edit = (Place::AtSignal(0, SignalField::Label), "\x1f");
    let (is_right, refused) = refused(rt.alloc(), edit, Cause::NotPrintable)?;
    assert!(rt; is_right && refused >= 60, "{refused}");
    Ok(())
}

/// A whole file wants the memory of its header and of one data record, however many it has.
#[test]
fn conforms_in_the_memory_of_one_record(rt: HostRuntime) -> Result<(), AllocError> {
    let short = timed(rt.alloc(), 4)?;
    let long = timed(rt.alloc(), 400)?;
    let (is_right, refused) = rise(rt.alloc(), Call::Conforming, &short)?;
    assert!(rt; is_right && refused >= 64, "{refused}");
    let of_long = rise(rt.alloc(), Call::Conforming, &long)?;
    assert_eq!(rt; of_long, (true, refused));
    Ok(())
}

/// Samples and annotations want memory beside that of the header and of one data record, which is all that
/// `conform` wants.
#[test]
fn means_something_or_wants_memory(rt: HostRuntime) -> Result<(), AllocError> {
    let file = recorded(rt.alloc(), &[], LANES)?;
    let (_, of_conform) = rise(rt.alloc(), Call::Conforming, &file)?;
    for call in [Call::Meaning, Call::ReadingOn] {
        let (is_right, refused) = rise(rt.alloc(), call, &file)?;
        assert!(rt; is_right && refused > of_conform, "{refused}");
    }
    Ok(())
}
