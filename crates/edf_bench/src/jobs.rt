//! The jobs, each on files in memory, and a digest of what they give.

use byteorder::{ByteOrder, LittleEndian};
use edf_check::run;
use edf_fields::{SliceSink, SliceSource};
use edf_refusal::Refusal;
use edf_report::{conform_to, notes_to, show_to};
use edf_verdict::Outcome;
use std::alloc::Global;

/// The digest of some bytes behind a digest.
fn digest(before: u64, bytes: &[u8]) -> u64 {
    let mut found = before ^ (bytes.len() as u64);
    for word in bytes.chunks_exact(8) {
        found = (found ^ LittleEndian::read_u64(word))
            .wrapping_mul(0x9E37_79B9_7F4A_7C15)
            .rotate_left(29);
    }
    for place in bytes.len() / 8 * 8..bytes.len() {
        found = (found ^ u64::from(bytes[place])).wrapping_mul(0x0100_0000_01B3);
    }
    found
}

/// A report on one file.
#[derive(Clone, Copy)]
pub enum ReportKind {
    Conform,
    Show,
    Notes,
}

/// What the jobs gave: a digest of their texts, and how many of them answered Yes and No.
#[derive(Clone, Copy)]
pub struct Given {
    pub digest: u64,
    pub yes: u32,
    pub no: u32,
}

/// What was done so far: the room for texts, and what the jobs gave.
#[derive(Drop)]
pub struct Desk {
    room: Vec<u8>,
    pub given: Given,
}

impl Given {
    /// With what one job more gave.
    fn with(self, outcome: Outcome, text: &[u8]) -> Given {
        let (yes, no) = match outcome {
            Outcome::Yes => (1, 0),
            Outcome::No => (0, 1),
        };
        Given {
            digest: digest(self.digest, text),
            yes: self.yes.wrapping_add(yes),
            no: self.no.wrapping_add(no),
        }
    }
}

impl Desk {
    /// A desk with room for texts of so many bytes.
    pub fn new(alloc: Global, room: usize) -> Result<Desk, Refusal> {
        Ok(Desk {
            room: vec![in alloc; 0u8; room]?,
            given: Given {
                digest: 0,
                yes: 0,
                no: 0,
            },
        })
    }

    /// Checks an export against its original under a claim.
    pub fn check(
        &mut self,
        alloc: Global,
        original: &[u8],
        export: &[u8],
        claim: &str,
    ) -> Result<(), Refusal> {
        let mut sink = SliceSink::new(&mut self.room);
        let mut first = SliceSource::new(original);
        let mut second = SliceSource::new(export);
        let outcome = run(alloc, &mut first, &mut second, claim.as_bytes(), &mut sink)?;
        self.given = self.given.with(outcome, sink.written());
        Ok(())
    }

    /// Writes a report on a file.
    pub fn report(
        &mut self,
        alloc: Global,
        file: &[u8],
        report: ReportKind,
    ) -> Result<(), Refusal> {
        let mut sink = SliceSink::new(&mut self.room);
        let mut source = SliceSource::new(file);
        let outcome = match report {
            ReportKind::Conform => conform_to(alloc, &mut source, &mut sink)?,
            ReportKind::Show => show_to(alloc, &mut source, &mut sink)?,
            ReportKind::Notes => notes_to(alloc, &mut source, &mut sink)?,
        };
        self.given = self.given.with(outcome, sink.written());
        Ok(())
    }
}
