//! A line that a run writes, kept in memory.

ghost use Rattle.std.specs.Prelude.{◌≡◌, []};

use edf_fields::{Sink, WriteFault};
use std::alloc::Global;

/// A sink that keeps its bytes in memory. It is honest, and a write fails only for want of memory.
#[derive(Drop)]
pub struct Line {
    bytes: Vec<u8>,
    failed: u64,
}

impl Line {
    ghost use Rattle.std.specs.Prelude.{true};

    /// An empty line.
    pub fn new(alloc: Global) -> Line
        ensures held { ⟦<Line as Sink>⟧.held result ≡ [] }
        ensures honest { ⟦<Line as Sink>⟧.is_honest result ≡ true }
    {
        Line {
            bytes: Vec::new(alloc),
            failed: 0,
        }
    }

    /// The bytes that were written.
    pub fn bytes(&self) -> &[u8]
        ensures { result.now ≡ ⟦<Line as Sink>⟧.held self.now }
    {
        &self.bytes
    }
}

impl Sink for Line {
    ghost use Rattle.std.specs.Prelude.{true};

    ghost held = { λ s. s.bytes.items };

    ghost failures = { λ s. s.failed };

    ghost is_honest = { λ _. true };

    fn write(&mut self, bytes: &[u8]) -> Result<usize, WriteFault> {
        match self.bytes.extend_from_slice(bytes) {
            Ok(()) => Ok(bytes.len()),
            Err(_) => {
                self.failed = self.failed.saturating_add(1);
                Err(WriteFault)
            }
        }
    }
}
