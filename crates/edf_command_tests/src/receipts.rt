//! The receipts of small files, whose digests are those of `sha256sum`, and what is written where a read or a sink fails.

use edf_claim::ClaimStop;
use edf_fields::{FaultySource, Sink, SliceSink, SliceSource};
use edf_receipt::{DigestSource, Printed, receipt_parts_to, receipt_to};
use edf_stop::{PartSide, PartsRunStop, RunStop, Side};
use edf_vectors::Line;
use edf_verdict::Outcome;
use std::alloc::Global;
use std::process::Abort;
use std::test::Fail;

/// A claim of 62 bytes.
const CLAIM: &str = "format = 1\nchannels = [\"A\"]\nkeep = [{ from = \"0\", to = \"1\" }]\n";

/// The receipt of an empty original and an export of the bytes `abc`.
const RECEIPT: &str = "edfclaim 1.2
original sha256 e3b0c44298fc1c149afbf4c8996fb92427ae41e4649b934ca495991b7852b855 bytes 0
export sha256 ba7816bf8f01cfea414140de5dae2223b00361a396177a9cb410ff61f20015ad bytes 3
claim sha256 f7e79989c0d6f8ca62b5458941fff0d0eb9b7050f3e492ce0f2959dede8ba91b bytes 62
NO 1 original fault: Truncated at header field version
";

/// The same of two exports, of which the second is empty.
const PARTS_RECEIPT: &str = "edfclaim 1.2
original sha256 e3b0c44298fc1c149afbf4c8996fb92427ae41e4649b934ca495991b7852b855 bytes 0
part 0 sha256 ba7816bf8f01cfea414140de5dae2223b00361a396177a9cb410ff61f20015ad bytes 3
part 1 sha256 e3b0c44298fc1c149afbf4c8996fb92427ae41e4649b934ca495991b7852b855 bytes 0
claim sha256 f7e79989c0d6f8ca62b5458941fff0d0eb9b7050f3e492ce0f2959dede8ba91b bytes 62
NO 1 original fault: Truncated at header field version
";

/// Writes the receipt of an empty original and an export of the bytes `abc`, of which so many reads pass.
fn receipt<K: Sink>(
    alloc: Global,
    claim: &str,
    passes: (u64, u64),
    sink: &mut K,
) -> Result<Outcome, RunStop> {
    let first = FaultySource::new(SliceSource::new(b""), passes.0, 2);
    let second = FaultySource::new(SliceSource::new(b"abc"), passes.1, 2);
    let mut original = DigestSource::new(first);
    let mut export = DigestSource::new(second);
    receipt_to(
        alloc,
        &mut original,
        &mut export,
        Printed {
            version: "1.2",
            claim_text: claim.as_bytes(),
        },
        sink,
    )
}

/// The same of two exports, of which the second is empty.
fn parts_receipt<K: Sink>(
    alloc: Global,
    passes: (u64, u64),
    sink: &mut K,
) -> Result<Outcome, PartsRunStop> {
    let part = FaultySource::new(SliceSource::new(b"abc"), passes.0, 2);
    let last = FaultySource::new(SliceSource::new(b""), passes.1, 2);
    let first = FaultySource::new(SliceSource::new(b""), u64::MAX, 2);
    let mut parts = [DigestSource::new(part), DigestSource::new(last)];
    let mut original = DigestSource::new(first);
    receipt_parts_to(
        alloc,
        &mut original,
        &mut parts,
        Printed {
            version: "1.2",
            claim_text: CLAIM.as_bytes(),
        },
        sink,
    )
}

const MANY: (u64, u64) = (u64::MAX, u64::MAX);

#[test]
fn names_the_files_that_were_judged(rt: HostRuntime) -> Result<(), Fail> {
    let mut text = Line::new(rt.alloc());
    assert_eq!(rt;
        receipt(rt.alloc(), CLAIM, MANY, &mut text),
        Ok(Outcome::No)
    );
    assert_eq!(rt; text.bytes(), RECEIPT.as_bytes());
    Ok(())
}

#[test]
fn names_each_part(rt: HostRuntime) -> Result<(), Fail> {
    let mut text = Line::new(rt.alloc());
    assert_eq!(rt; parts_receipt(rt.alloc(), MANY, &mut text), Ok(Outcome::No));
    assert_eq!(rt; text.bytes(), PARTS_RECEIPT.as_bytes());
    Ok(())
}

/// Asserts how a receipt of which a read fails stops, and that nothing was written.
fn assert_stop(rt: &(impl Abort + AllocGlobal), claim: &str, passes: (u64, u64), stop: RunStop) {
    let mut text = Line::new(rt.alloc());
    assert_eq!(rt; receipt(rt.alloc(), claim, passes, &mut text), Err(stop));
    assert_eq!(rt; text.bytes().len(), 0);
}

#[test]
fn writes_nothing_where_a_read_fails(rt: HostRuntime) {
    // the check reads the original once, and the receipt once more; the export is read for its digest alone
    assert_stop(&rt, CLAIM, (0, 9), RunStop::ReadFailed(Side::Original));
    assert_stop(&rt, CLAIM, (1, 9), RunStop::ReadFailed(Side::Original));
    assert_stop(&rt, CLAIM, (1, 0), RunStop::ReadFailed(Side::Original));
    assert_stop(&rt, CLAIM, (2, 0), RunStop::ReadFailed(Side::Export));
    assert_stop(&rt, CLAIM, (2, 1), RunStop::ReadFailed(Side::Export));
    assert_stop(&rt, CLAIM, (2, 2), RunStop::ReadFailed(Side::Export));
    assert_stop(&rt, "", (0, 0), RunStop::Claim(ClaimStop::BadFormat));
}

#[test]
fn names_the_part_of_which_a_read_fails(rt: HostRuntime) {
    for (passes, part) in [((0, 9), 0), ((2, 9), 0), ((2, 0), 0), ((3, 0), 1)] {
        let mut text = Line::new(rt.alloc());
        let stop = PartsRunStop::ReadFailed(PartSide::Part(part));
        assert_eq!(rt; parts_receipt(rt.alloc(), passes, &mut text), Err(stop));
        assert_eq!(rt; text.bytes().len(), 0);
    }
}

#[test]
fn holds_the_front_of_the_receipt(rt: HostRuntime) {
    for count in [0usize, 1, 100, 330] {
        let mut room = [0; 400];
        let (front, _) = room.split_at_mut(count);
        let mut sink = SliceSink::new(front);
        assert_eq!(rt;
            receipt(rt.alloc(), CLAIM, MANY, &mut sink),
            Err(RunStop::WriteFailed)
        );
        assert_eq!(rt;
            sink.written(),
            RECEIPT.as_bytes().get(..count).unwrap_or(&[])
        );
    }
}
