//! A source that gives single bytes, fails, or has no end.

ghost use Rattle.std.specs.Prelude.{[], false};

use edf_fields::{ReadFault, Source};

/// Gives its bytes, so many a read at the most, and fails once so many reads are done; an endless one gives
/// zeros behind its bytes. It counts its reads. No list holds what is left, so the proofs know nothing of it.
#[derive(Drop)]
pub struct Tape<'a> {
    rest: &'a [u8],
    most: usize,
    passes: u32,
    is_endless: bool,
    /// How many reads there were.
    pub reads: u32,
    /// How many of them failed.
    pub failures: u64,
    /// How many bytes the last one asked for.
    pub asked: usize,
    /// How many bytes were given.
    pub given: usize,
}

/// A source of these bytes that fills each buffer as far as they go, and fails once `passes` reads are done.
pub fn tape_of(rest: &[u8], passes: u32) -> Tape<'_> {
    Tape {
        rest,
        most: usize::MAX,
        passes,
        is_endless: false,
        reads: 0,
        failures: 0,
        asked: 0,
        given: 0,
    }
}

/// The same, which gives `most` bytes a read at the most.
pub fn dripping(rest: &[u8], most: usize, passes: u32) -> Tape<'_> {
    Tape {
        most,
        ..tape_of(rest, passes)
    }
}

/// The same with zeros without end behind the bytes.
pub fn endless(rest: &[u8], most: usize, passes: u32) -> Tape<'_> {
    Tape {
        is_endless: true,
        ..dripping(rest, most, passes)
    }
}

impl<'a> Source for Tape<'a> {
    ghost use Rattle.edf_fields.specs.in_out.PlainReads.{plain_reads};

    ghost left = { λ _. [] };

    ghost reads = { λ s. plain_reads s.failures };

    ghost is_honest = { λ _. false };

    fn read(&mut self, buf: &mut [u8]) -> Result<usize, ReadFault> {
        self.reads = self.reads.saturating_add(1);
        self.asked = buf.len();
        if self.reads > self.passes {
            self.failures = self.failures.saturating_add(1);
            return Err(ReadFault);
        }
        let room = buf.len().min(self.most);
        let count = room.min(self.rest.len());
        let (first, others) = self.rest.split_at(count);
        buf.fill(0);
        buf[..count].copy_from_slice(first);
        self.rest = others;
        let got = if self.is_endless { room } else { count };
        self.given = self.given.saturating_add(got);
        Ok(got)
    }
}
