//! The worked rows: their text, what a sink holds of it that is too small, the same under ever more memory, and their
//! lines where files are read byte by byte.

ghost use Rattle.std.specs.Prelude.{◌<◌, ◌≤◌, length};

use edf_check::{run, run_parts};
use edf_fields::{FaultySource, SliceSink, SliceSource};
use edf_rows::{Exports, Row, bytes_of, claim_text, worked_rows};
use edf_stop::ReportStop;
use edf_test_files::Scarce;
use edf_vectors::{Line, vectors_to};
use edf_verdict::Outcome;
use std::alloc::{AllocError, Global};
use std::test::Fail;

/// The rows, a line each.
// rows: by tools/gate/tables.py
const TEXT: &str = concat!(
    "1 YES channels 1 samples 2 annotations 0\n",
    "2 YES channels 2 samples 24 annotations 3\n",
    "3 YES channels 2 samples 24 annotations 3\n",
    "4 YES channels 2 samples 12 annotations 1\n",
    "5 NO 10 sample \"ECG\" at 3000000000000 ps extra\n",
    "6 YES channels 2 samples 12 annotations 2\n",
    "7 NO 2 export fault: NotContiguous at record 1\n",
    "8 NO 10 sample \"EEG Fpz-Cz\" at 750000000000 ps original 30 export 31\n",
    "9 NO 10 sample \"ECG\" at 2500000000000 ps original 105 export 104\n",
    "10 YES channels 1 samples 6 annotations 0\n",
    "11 NO 10 sample \"Temp\" at 1000000000000 ps missing\n",
    "12 NO 10 sample \"Temp\" at 333333333333 ps extra\n",
    "13 NO 10 sample \"Temp\" at 333333333333 ps original 2 export 9\n",
    "14 YES channels 2 samples 24 annotations 3\n",
    "15 YES channels 2 samples 24 annotations 3\n",
    "16 NO 7 calibration \"EEG Fpz-Cz\"\n",
    "17 NO 7 calibration \"EEG Fpz-Cz\"\n",
    "18 NO 8 subfield name not X\n",
    "19 NO 8 subfield sex changed\n",
    "20 YES channels 2 samples 24 annotations 3\n",
    "21 NO 8 subfield patient-extras not X\n",
    "22 NO 8 subfield patient-extras changed\n",
    "23 YES channels 2 samples 24 annotations 3\n",
    "24 NO 8 subfield date changed\n",
    "25 NO 2 export fault: StartdateDiffers at header field startdate\n",
    "26 YES channels 2 samples 24 annotations 3\n",
    "27 NO 11 annotation missing at 1500000000000 ps duration 1000000000000 ps text \"Apnea\"\n",
    "28 NO 11 annotation extra at 500000000000 ps duration none text \"Lights off\"\n",
    "29 NO 2 export fault: Truncated at record 3\n",
    "30 NO 2 export fault: TrailingBytes at end\n",
    "31 NO 1 original fault: Truncated at header field version\n",
    "32 NO 2 export fault: Truncated at signal 2 field label\n",
    "33 NO 2 export fault: BadTal(NotUtf8) at record 3\n",
    "34 NO 1 original fault: BadRange at header field records\n",
    "35 NO 9 not clean header\n",
    "36 NO 9 not clean \"ECG\"\n",
    "37 YES channels 2 samples 24 annotations 3\n",
    "38 NO 5 extra channel \"EEG Fpz-Cz\"\n",
    "39 NO 4 missing channel \"ECG\"\n",
    "40 NO 6 channel text \"ECG\" prefilter\n",
    "41 NO 3 unknown channel \"EMG\"\n",
    "42 NO 2 export fault: BadStart at header field startdate\n",
    "53 NO 11 annotation extra at 1500000000000 ps duration 1000000000000 ps text \"Apnea\"\n",
    "54 YES channels 2 samples 24 annotations 3\n",
    "55 NO 11 annotation extra at 500000000000 ps duration none text \"Lights off\"\n",
    "56 YES channels 2 samples 24 annotations 2\n",
    "57 YES channels 2 samples 24 annotations 1\n",
    "58 YES channels 2 samples 24 annotations 3\n",
    "59 YES channels 2 samples 24 annotations 3\n",
    "60 NO 2 export fault: BadStart at header field startdate\n",
    "61 NO 2 export fault: StartdateDiffers at header field startdate\n",
    "62 NO 2 export fault: StartdateDiffers at header field startdate\n",
    "63 YES parts 1 channels 2 samples 24 annotations 3\n",
    "64 YES parts 2 channels 2 samples 24 annotations 3\n",
    "65 NO 12 part 1 starts early\n",
    "66 NO 12 part 1 starts early\n",
    "67 NO 10 sample \"ECG\" at 2000000000000 ps missing\n",
    "68 NO 2 part 1 export fault: Truncated at record 1\n",
    "69 NO 8 part 1 subfield sex changed\n",
);
// end of rows

#[test]
fn writes_the_rows(rt: HostRuntime) -> Result<(), Fail> {
    let mut text = Line::new(rt.alloc());
    let outcome = vectors_to(rt.alloc(), &mut text);
    assert_eq!(rt; outcome, Ok(Outcome::Yes));
    assert_eq!(rt; text.bytes(), TEXT.as_bytes());
    Ok(())
}

/// How writing the rows into so many bytes ended, and what stands in them then.
fn rows_into(
    alloc: Global,
    count: usize,
) -> Result<(Result<Outcome, ReportStop>, Vec<u8>), AllocError> {
    let mut room = vec![in alloc; 0; count]?;
    let mut sink = SliceSink::new(&mut room);
    let outcome = vectors_to(alloc, &mut sink);
    let written = Vec::from_slice(alloc, sink.written())?;
    Ok((outcome, written))
}

#[test]
fn holds_the_front_of_the_rows(rt: HostRuntime) -> Result<(), Fail> {
    let alloc = rt.alloc();
    assert_eq!(rt; TEXT.len(), 2765);
    for count in [0usize, 4, 40, 41, 42, 82, 83, 2764] {
        let (outcome, written) = rows_into(alloc, count)?;
        assert_eq!(rt; outcome, Err(ReportStop::WriteFailed));
        assert_eq!(rt; written.len(), count);
        assert!(rt; TEXT.as_bytes().starts_with(&written));
    }
    let (outcome, written) = rows_into(alloc, 2765)?;
    assert_eq!(rt; outcome, Ok(Outcome::Yes));
    assert_eq!(rt; &written[..], TEXT.as_bytes());
    Ok(())
}

/// The most steps.
const STEPS: usize = 1200;

/// The size of the region that a step gives back, of which it leaves a part.
const REGION: usize = 96 << 10;

/// Whether the rows are written; or none where that wants memory, and then a front of their text is written.
fn is_written(alloc: Global) -> Option<bool> {
    let mut room = [0u8; 4096];
    let mut sink = SliceSink::new(&mut room);
    let outcome = vectors_to(alloc, &mut sink);
    let text = sink.written();
    match outcome {
        Ok(Outcome::Yes) => Some(text == TEXT.as_bytes()),
        Err(ReportStop::OutOfMemory) if TEXT.as_bytes().starts_with(text) => None,
        _ => Some(false),
    }
}

/// Writes the rows with ever more memory, 80 bytes more in each step, until none is wanted: whether they were
/// written then, and how often memory was wanted before.
fn rise(alloc: Global) -> Result<(bool, u64), AllocError> {
    let mut scarce = Scarce::new(alloc, STEPS, REGION)?;
    let mut refused = 0u64;
    for step in 2..STEPS {
        scarce.leave(alloc, 80 * step)?;
        let found = is_written(alloc);
        scarce.take_back(alloc);
        if let Some(right) = found {
            return Ok((right, refused));
        }
        refused = refused.saturating_add(1);
    }
    Ok((false, refused))
}

#[test]
fn writes_the_rows_or_wants_memory(rt: HostRuntime) -> Result<(), Fail> {
    let (is_right, refused) = rise(rt.alloc())?;
    assert!(rt; is_right && refused > 0, "{refused}");
    Ok(())
}

/// The line of two files that are read byte by byte.
fn line_of(
    alloc: Global,
    original: &[u8],
    export: &[u8],
    claim: &[u8],
) -> Result<Line, AllocError> {
    let mut first = FaultySource::new(SliceSource::new(original), u64::MAX, 1);
    let mut second = FaultySource::new(SliceSource::new(export), u64::MAX, 1);
    let mut line = Line::new(alloc);
    match run(alloc, &mut first, &mut second, claim, &mut line) {
        Ok(_) => Ok(line),
        Err(_) => Err(AllocError),
    }
}

/// The line of an original and exports that are read byte by byte.
fn parts_line(
    alloc: Global,
    original: &[u8],
    parts: &mut [FaultySource<SliceSource<'_>>],
    claim: &[u8],
) -> Result<Line, AllocError>
    requires some { 0 < length parts.old }
    requires few { length parts.old ≤ 64 }
{
    let mut whole = FaultySource::new(SliceSource::new(original), u64::MAX, 1);
    let mut line = Line::new(alloc);
    match run_parts(alloc, &mut whole, parts, claim, &mut line) {
        Ok(_) => Ok(line),
        Err(_) => Err(AllocError),
    }
}

/// The line of a row whose files are read byte by byte.
fn line_by_bytes(alloc: Global, row: &Row) -> Result<Line, AllocError> {
    let original = bytes_of(alloc, &row.original)?;
    let claim = claim_text(alloc, row.claim)?;
    match row.exports {
        Exports::One(file) => {
            let export = bytes_of(alloc, &file)?;
            line_of(alloc, &original, &export, &claim)
        }
        Exports::Several(file, None) => {
            let first = bytes_of(alloc, &file)?;
            let one = FaultySource::new(SliceSource::new(&first), u64::MAX, 1);
            parts_line(alloc, &original, &mut [one], &claim)
        }
        Exports::Several(file, Some(behind)) => {
            let first = bytes_of(alloc, &file)?;
            let second = bytes_of(alloc, &behind)?;
            let one = FaultySource::new(SliceSource::new(&first), u64::MAX, 1);
            let other = FaultySource::new(SliceSource::new(&second), u64::MAX, 1);
            parts_line(alloc, &original, &mut [one, other], &claim)
        }
    }
}

#[test]
fn gives_the_same_lines_byte_by_byte(rt: HostRuntime) -> Result<(), Fail> {
    for row in worked_rows() {
        let line = line_by_bytes(rt.alloc(), row)?;
        assert_eq!(rt; line.bytes(), row.stored.as_bytes());
    }
    Ok(())
}
