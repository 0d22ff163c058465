//! A header that announces the largest data records and the most of them, as either side of a check: its data
//! record is held, and nothing else of the file.

ghost use Rattle.std.specs.Prelude.{[], false};

use edf_check::run;
use edf_fields::Place::{AtField, AtSignal};
use edf_fields::{
    FixedField as Fixed, ReadFault, SignalField as Field, SliceSink, SliceSource, Source,
};
use edf_test_files::{Edit, small_file, temp_header};
use edf_verdict::Outcome;
use std::alloc::{AllocError, Global};
use std::process::Abort;

/// Gives its bytes, so many zeros behind them, and the last bytes. It makes the zeros as they are read, and
/// the proofs know nothing of it.
#[derive(Drop)]
struct Padded<'a> {
    first: &'a [u8],
    zeros: usize,
    last: &'a [u8],
}

impl<'a> Source for Padded<'a> {
    ghost use Rattle.edf_fields.specs.in_out.PlainReads.{plain_reads};

    ghost left = { λ _. [] };

    ghost reads = { λ _. plain_reads 0 };

    ghost is_honest = { λ _. false };

    fn read(&mut self, buf: &mut [u8]) -> Result<usize, ReadFault> {
        if self.first.is_empty() && self.zeros > 0 {
            let count = buf.len().min(self.zeros);
            buf[..count].fill(0);
            self.zeros -= count;
            return Ok(count);
        }
        if self.first.is_empty() {
            self.first = self.last;
            self.last = b"";
        }
        let count = buf.len().min(self.first.len());
        let (front, rest) = self.first.split_at(count);
        buf[..count].copy_from_slice(front);
        self.first = rest;
        Ok(count)
    }
}

/// Data records of 16,777,216 bytes: 8,388,600 samples, and a lane of 16 bytes.
const LARGEST: &[Edit] = &[
    (AtField(Fixed::Records), "99999999"),
    (AtSignal(0, Field::Samples), "8388600"),
    (AtSignal(1, Field::Samples), "8"),
];

/// A source of a file with this header that ends behind its first data record.
fn largest(header: &[u8]) -> Padded<'_> {
    Padded {
        first: header,
        zeros: 16_777_200,
        last: b"+0\x14\x14\0\0\0\0\0\0\0\0\0\0\0\0",
    }
}

/// The claim that keeps the channel for six seconds.
const CLAIM: &[u8] = b"format = 1\nchannels = [\"Temp\"]\n[[keep]]\nfrom = \"0\"\nto = \"6\"\n";

/// Asserts the line of a run on two files.
fn assert_line<O: Source, E: Source>(
    rt: &impl Abort,
    alloc: Global,
    original: &mut O,
    export: &mut E,
    want: &str,
) {
    let mut room = [0; 64];
    let mut sink = SliceSink::new(&mut room);
    let outcome = run(alloc, original, export, CLAIM, &mut sink);
    assert_eq!(rt; outcome, Ok(Outcome::No));
    assert_eq!(rt; sink.written(), want.as_bytes());
}

#[test]
fn holds_one_record_of_the_original(rt: HostRuntime) -> Result<(), AllocError> {
    let header = temp_header(rt.alloc(), LARGEST)?;
    let small = small_file(rt.alloc())?;
    let mut original = largest(&header);
    let mut export = SliceSource::new(&small);
    let want = "NO 1 original fault: Truncated at record 1\n";
    assert_line(&rt, rt.alloc(), &mut original, &mut export, want);
    Ok(())
}

#[test]
fn holds_one_record_of_the_export(rt: HostRuntime) -> Result<(), AllocError> {
    let header = temp_header(rt.alloc(), LARGEST)?;
    let small = small_file(rt.alloc())?;
    let mut original = SliceSource::new(&small);
    let mut export = largest(&header);
    let want = "NO 2 export fault: Truncated at record 1\n";
    assert_line(&rt, rt.alloc(), &mut original, &mut export, want);
    Ok(())
}
