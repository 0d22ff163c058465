//! What `conform` answers to files with one change; `tests/cases` has many more.

use edf_fields::Place::{AtField, AtSignal};
use edf_fields::{FixedField as Fixed, SignalField as Field, SliceSource};
use edf_header::Stop;
use edf_stream::conform;
use edf_test_files::{Done, Edit, LANES, recorded, small_file};
use std::alloc::{AllocError, Global};
use std::process::Abort;

/// What `conform` answers: how many data records, channels, samples and annotations there are, or the
/// fault in words.
pub fn answer_of(alloc: Global, file: &[u8]) -> Result<String, AllocError> {
    match conform(alloc, &mut SliceSource::new(file)) {
        Ok(found) => {
            let records = found.records;
            let channels = found.channels;
            let samples = found.samples;
            let annotations = found.annotations;
            format!(in alloc; "{records}, {channels}, {samples}, {annotations}")
        }
        Err(Stop::Fault(fault)) => fault.text(alloc),
        Err(_) => Err(AllocError),
    }
}

/// Changes of the reference file, and the answer.
pub const ROWS: &[(&[Edit], &[&[u8]], &str)] = &[
    (&[], LANES, "4, 2, 24, 3"),
    (
        &[(AtField(Fixed::Records), "2")],
        LANES,
        "TrailingBytes at end",
    ),
    (
        &[(AtField(Fixed::Records), "5")],
        LANES,
        "Truncated at record 4",
    ),
    (
        &[(AtSignal(0, Field::Label), "ECG")],
        LANES,
        "DuplicateLabel at signal 1 field label",
    ),
];

/// Asserts the answer to a file.
fn assert_answer(rt: &impl Abort, alloc: Global, file: &[u8], want: &str) -> Done {
    let found = answer_of(alloc, file)?;
    assert_eq!(rt; found.as_str(), want);
    Ok(())
}

#[test]
fn answers_each_file(rt: HostRuntime) -> Result<(), AllocError> {
    for (edits, lanes, want) in ROWS {
        let file = recorded(rt.alloc(), edits, lanes)?;
        assert_answer(&rt, rt.alloc(), &file, want)?;
    }
    Ok(())
}

#[test]
fn counts_two_samples(rt: HostRuntime) -> Result<(), AllocError> {
    let file = small_file(rt.alloc())?;
    assert_answer(&rt, rt.alloc(), &file, "1, 1, 2, 0")
}
