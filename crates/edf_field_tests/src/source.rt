//! Sources that give single bytes, fail, or were interrupted.

ghost use Rattle.std.specs.Prelude.{[], false, true};

use edf_fields::{FaultySource, ReadFault, ReadSource, SliceSource, Source, fill, skip_rest};
use std::io;
use std::io::Read;
use std::test::Fail;

/// Gives one byte a read.
#[derive(Drop)]
struct Drip<'a> {
    rest: &'a [u8],
}

impl<'a> Source for Drip<'a> {
    ghost use Rattle.edf_fields.specs.in_out.PlainReads.{plain_reads};

    ghost left = { λ s. s.rest.now };

    ghost reads = { λ _. plain_reads 0 };

    ghost is_honest = { λ _. true };

    fn read(&mut self, buf: &mut [u8]) -> Result<usize, ReadFault> {
        let count = self.rest.len().min(1);
        let (first, others) = self.rest.split_at(count);
        buf[..count].copy_from_slice(first);
        self.rest = others;
        Ok(count)
    }
}

/// Gives some zeros, one a read, and then fails.
#[derive(Drop)]
struct Breaks {
    zeros: u32,
    failures: u64,
}

impl Source for Breaks {
    ghost use Rattle.edf_fields.specs.in_out.PlainReads.{plain_reads};

    ghost left = { λ _. [] };

    ghost reads = { λ s. plain_reads s.failures };

    ghost is_honest = { λ _. false };

    fn read(&mut self, buf: &mut [u8]) -> Result<usize, ReadFault> {
        if self.zeros == 0 {
            self.failures = self.failures.saturating_add(1);
            return Err(ReadFault);
        }
        self.zeros -= 1;
        buf[0] = 0;
        Ok(1)
    }
}

/// Gives zeros, at most three a read and so many reads in all, and then says that it was interrupted.
#[derive(Drop)]
struct Zeros {
    reads: u32,
}

impl Read for Zeros {
    fn read(&mut self, buf: &mut [u8]) -> io::Result<usize> {
        if self.reads == 0 {
            return Err(io::Error::from(io::ErrorKind::Interrupted));
        }
        self.reads -= 1;
        let count = buf.len().min(3);
        buf[..count].fill(0);
        Ok(count)
    }
}

/// Says once that it was interrupted, and then gives a zero a read.
#[derive(Drop)]
struct Interrupted {
    reads: u32,
}

impl Read for Interrupted {
    fn read(&mut self, buf: &mut [u8]) -> io::Result<usize> {
        self.reads = self.reads.saturating_add(1);
        if self.reads == 1 {
            return Err(io::Error::from(io::ErrorKind::Interrupted));
        }
        let count = buf.len().min(1);
        buf[..count].fill(0);
        Ok(count)
    }
}

#[test]
fn fills_from_a_slice(rt: HostRuntime) {
    let mut source = SliceSource::new(b"0       record");
    let mut version = [0; 8];
    assert_eq!(rt; fill(&mut source, &mut version), Ok(8));
    assert_eq!(rt; &version[..], "0       ".as_bytes());
    assert_eq!(rt; fill(&mut source, &mut version), Ok(6));
    assert_eq!(rt; &version[..], "record  ".as_bytes());
    assert_eq!(rt; fill(&mut source, &mut version), Ok(0));
}

#[test]
fn fills_from_single_bytes(rt: HostRuntime) {
    let mut source = Drip { rest: b"abcde" };
    let mut buf = [0; 3];
    assert_eq!(rt; fill(&mut source, &mut buf), Ok(3));
    assert_eq!(rt; &buf[..], "abc".as_bytes());
    assert_eq!(rt; fill(&mut source, &mut buf), Ok(2));
    assert_eq!(rt; &buf[..], "dec".as_bytes());
}

#[test]
fn stops_at_a_failed_read(rt: HostRuntime) {
    let mut source = Breaks {
        zeros: 5,
        failures: 0,
    };
    let mut buf = [1; 3];
    assert_eq!(rt; fill(&mut source, &mut buf), Ok(3));
    assert_eq!(rt; fill(&mut source, &mut []), Ok(0));
    assert_eq!(rt; fill(&mut source, &mut buf), Err(ReadFault));
    assert_eq!(rt; source.failures, 1);
}

#[test]
fn fills_from_a_reader(rt: HostRuntime) {
    let mut source = ReadSource::new("0       record".as_bytes());
    let mut version = [0; 8];
    assert_eq!(rt; fill(&mut source, &mut version), Ok(8));
    assert_eq!(rt; &version[..], "0       ".as_bytes());
    assert_eq!(rt; fill(&mut source, &mut version), Ok(6));
    assert_eq!(rt; &version[..6], "record".as_bytes());
    assert_eq!(rt; fill(&mut source, &mut version), Ok(0));
}

#[test]
fn tries_no_reader_again(rt: HostRuntime) {
    let mut source = ReadSource::new(Zeros { reads: 2 });
    let mut buf = [1; 5];
    assert_eq!(rt; fill(&mut source, &mut buf), Ok(5));
    assert_eq!(rt; &buf[..], &[0u8; 5][..]);
    assert_eq!(rt; fill(&mut source, &mut []), Ok(0));
    assert_eq!(rt; fill(&mut source, &mut buf), Err(ReadFault));
    assert_eq!(rt; source.read(&mut buf), Err(ReadFault));
}

#[test]
fn asks_an_interrupted_reader_once(rt: HostRuntime) {
    let mut source = ReadSource::new(Interrupted { reads: 0 });
    let mut byte = [1; 1];
    assert_eq!(rt; fill(&mut source, &mut byte), Err(ReadFault));
    assert_eq!(rt; fill(&mut source, &mut byte), Ok(1));
}

#[test]
fn reads_small_parts_in_larger_ones(rt: HostRuntime) -> Result<(), Fail> {
    let behind = Zeros { reads: 2 };
    let mut source = ReadSource::new(io::BufReader::with_capacity(rt.alloc(), 3, behind)?);
    let mut byte = [1; 1];
    for _ in 0..6 {
        assert_eq!(rt; fill(&mut source, &mut byte), Ok(1));
    }
    assert_eq!(rt; fill(&mut source, &mut byte), Err(ReadFault));
    Ok(())
}

#[test]
fn skips_to_the_end(rt: HostRuntime) {
    let mut source = Drip { rest: b"abcde" };
    let mut buf = [0; 3];
    assert_eq!(rt; fill(&mut source, &mut buf[..2]), Ok(2));
    assert_eq!(rt; skip_rest(&mut source, &mut buf), Ok(()));
    assert_eq!(rt; source.rest.len(), 0);
    assert_eq!(rt; skip_rest(&mut source, &mut buf), Ok(()));
}

#[test]
fn skips_as_far_as_reads_pass(rt: HostRuntime) {
    let mut source = Breaks {
        zeros: 5,
        failures: 0,
    };
    assert_eq!(rt; skip_rest(&mut source, &mut [0]), Err(ReadFault));
    assert_eq!(rt; (source.zeros, source.failures), (0, 1));
}

#[test]
fn fails_behind_the_reads_that_pass(rt: HostRuntime) {
    let mut source = FaultySource::new(SliceSource::new("abcdefgh".as_bytes()), 3, 2);
    let mut buf = [1; 4];
    assert_eq!(rt; fill(&mut source, &mut buf), Ok(4));
    assert_eq!(rt; &buf[..], "abcd".as_bytes());
    assert_eq!(rt; source.read(&mut buf), Ok(2));
    assert_eq!(rt; &buf[..2], "ef".as_bytes());
    assert_eq!(rt; source.read(&mut buf), Err(ReadFault));
    assert_eq!(rt; fill(&mut source, &mut buf), Err(ReadFault));
}

#[test]
fn passes_on_the_failure_of_another_source(rt: HostRuntime) {
    let mut source = FaultySource::new(ReadSource::new(Zeros { reads: 1 }), 9, usize::MAX);
    let mut buf = [1; 3];
    assert_eq!(rt; source.read(&mut buf), Ok(3));
    assert_eq!(rt; source.read(&mut buf), Err(ReadFault));
}
