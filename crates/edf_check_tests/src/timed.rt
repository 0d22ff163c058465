//! A file of any length whose data records are made as they are read.

ghost use Rattle.std.specs.Prelude.{[], false};

use edf_fields::{ReadFault, Source};

/// How many bytes a data record has, and at which of them its lane begins.
const RECORD: usize = 52;

const LANE: usize = 12;

/// Gives a header, and behind it so many data records of 1 s, which hold zeros and keep the time. The proofs
/// know nothing of it.
#[derive(Drop)]
pub struct TimedSource<'a> {
    header: &'a [u8],
    records: usize,
    given: usize,
}

impl<'a> TimedSource<'a> {
    /// That of a header with the signals of the reference file, and of less than 1000 data records.
    pub fn new(header: &'a [u8], records: usize) -> TimedSource<'a> {
        TimedSource {
            header,
            records,
            given: 0,
        }
    }

    /// The next byte.
    fn next_byte(&mut self) -> Option<u8> {
        let byte = match self.given.checked_sub(self.header.len()) {
            Some(place) if place / RECORD >= self.records => return None,
            Some(place) => byte_of(place / RECORD, place % RECORD),
            None => self.header.get(self.given).copied().unwrap_or(0),
        };
        self.given = self.given.saturating_add(1);
        Some(byte)
    }
}

/// The last decimal digit of a number.
fn digit(number: usize) -> u8 {
    b'0' + (number % 10) as u8
}

/// A byte of a data record: its lane says when it starts, by three digits.
fn byte_of(record: usize, place: usize) -> u8 {
    match place.checked_sub(LANE) {
        Some(0) => b'+',
        Some(1) => digit(record / 100),
        Some(2) => digit(record / 10),
        Some(3) => digit(record),
        Some(4 | 5) => b'\x14',
        _ => 0,
    }
}

impl<'a> Source for TimedSource<'a> {
    ghost use Rattle.edf_fields.specs.in_out.PlainReads.{plain_reads};

    ghost left = { λ _. [] };

    ghost reads = { λ _. plain_reads 0 };

    ghost is_honest = { λ _. false };

    fn read(&mut self, buf: &mut [u8]) -> Result<usize, ReadFault> {
        for place in 0..buf.len() {
            match self.next_byte() {
                Some(byte) => buf[place] = byte,
                None => return Ok(place),
            }
        }
        Ok(buf.len())
    }
}
