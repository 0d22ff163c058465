//! Sinks that are too small, slow or interrupted.

use edf_fields::{FaultySink, SliceSink, WriteFault, WriteSink, put_all};
use std::io;
use std::io::Write;
use std::test::Fail;

/// Takes at most two bytes a write, and some bytes in all; then it says that it took none.
#[derive(Drop)]
struct Slow {
    room: usize,
    flushes: u32,
}

impl Write for Slow {
    fn write(&mut self, buf: &[u8]) -> io::Result<usize> {
        let count = buf.len().min(2).min(self.room);
        self.room -= count;
        Ok(count)
    }

    fn flush(&mut self) -> io::Result<()> {
        self.flushes = self.flushes.saturating_add(1);
        Ok(())
    }
}

/// Says each time that it was interrupted.
#[derive(Drop)]
struct Interrupted;

impl Write for Interrupted {
    fn write(&mut self, _buf: &[u8]) -> io::Result<usize> {
        Err(io::Error::from(io::ErrorKind::Interrupted))
    }

    fn flush(&mut self) -> io::Result<()> {
        Err(io::Error::from(io::ErrorKind::Interrupted))
    }
}

#[test]
fn keeps_what_fits(rt: HostRuntime) {
    let mut room = [0; 8];
    let mut sink = SliceSink::new(&mut room);
    assert_eq!(rt; put_all(&mut sink, b"onset"), Ok(()));
    assert_eq!(rt; sink.written(), "onset".as_bytes());
    assert_eq!(rt; put_all(&mut sink, b"duration"), Err(WriteFault));
    assert_eq!(rt; sink.written(), "onsetdur".as_bytes());
    assert_eq!(rt; put_all(&mut sink, b""), Ok(()));
}

#[test]
fn writes_to_a_vector(rt: HostRuntime) -> Result<(), Fail> {
    let mut sink = WriteSink::new(Vec::new(rt.alloc()));
    assert_eq!(rt; put_all(&mut sink, b"two "), Ok(()));
    assert_eq!(rt; put_all(&mut sink, b"words"), Ok(()));
    assert_eq!(rt; sink.flush(), Ok(()));
    Ok(())
}

#[test]
fn counts_a_write_of_nothing(rt: HostRuntime) {
    let mut sink = WriteSink::new(Slow {
        room: 5,
        flushes: 0,
    });
    assert_eq!(rt; put_all(&mut sink, b"abc"), Ok(()));
    assert_eq!(rt; put_all(&mut sink, b"abc"), Err(WriteFault));
    assert_eq!(rt; sink.flush(), Ok(()));
}

#[test]
fn tries_nothing_again(rt: HostRuntime) {
    let mut sink = WriteSink::new(Interrupted);
    assert_eq!(rt; put_all(&mut sink, b""), Ok(()));
    assert_eq!(rt; put_all(&mut sink, b"abc"), Err(WriteFault));
    assert_eq!(rt; sink.flush(), Err(WriteFault));
}

#[test]
fn fails_behind_the_writes_that_pass(rt: HostRuntime) {
    let mut room = [0; 8];
    let mut sink = FaultySink::new(SliceSink::new(&mut room), 3, 2);
    assert_eq!(rt; put_all(&mut sink, b"abcd"), Ok(()));
    assert_eq!(rt; put_all(&mut sink, b"efgh"), Err(WriteFault));
    assert_eq!(rt; put_all(&mut sink, b"gh"), Err(WriteFault));
    assert_eq!(rt; sink.inner().written(), "abcdef".as_bytes());
}

#[test]
fn passes_on_the_failure_of_another_sink(rt: HostRuntime) {
    let mut room = [0; 3];
    let mut sink = FaultySink::new(SliceSink::new(&mut room), 9, usize::MAX);
    assert_eq!(rt; put_all(&mut sink, b"abcd"), Err(WriteFault));
    assert_eq!(rt; sink.inner().written(), "abc".as_bytes());
}
