//! A source that remembers the front of what it hands on.

ghost use Rattle.std.specs.Prelude.{◌≡◌};

use edf_fields::{ReadFault, Source};
use std::alloc::Global;

/// Puts bytes behind a front, which has so many at most, where there is room and memory for them.
fn remember(front: &mut Vec<u8>, most: usize, bytes: &[u8]) {
    let room = most.saturating_sub(front.len());
    if room > 0 {
        let more = bytes.get(..room).unwrap_or(bytes);
        let _is_remembered = front.extend_from_slice(more).is_ok();
    }
}

/// A source over another, which remembers the front of what it hands on, as far as there is memory for it.
///
/// It is honest where the other one is.
#[derive(Drop)]
pub struct FrontSource<S: Source + Drop> {
    source: S,
    most: usize,
    front: Vec<u8>,
}

impl<S: Source + Drop> FrontSource<S> {
    /// A source that gives what the other one gives, and remembers so many bytes of it at most.
    pub fn new(alloc: Global, source: S, most: usize) -> FrontSource<S>
        ensures left { ⟦<FrontSource<S> as Source>⟧.left result ≡ S.left source }
        ensures reads { ⟦<FrontSource<S> as Source>⟧.reads result ≡ S.reads source }
        ensures honest { ⟦<FrontSource<S> as Source>⟧.is_honest result ≡ S.is_honest source }
    {
        FrontSource {
            source,
            most,
            front: Vec::new(alloc),
        }
    }

    /// The front of what was handed on.
    pub fn front(&self) -> &[u8] {
        &self.front
    }
}

impl<S: Source + Drop> Source for FrontSource<S> {
    ghost left = { λ s. S.left s.source };

    ghost reads = { λ s. S.reads s.source };

    ghost is_honest = { λ s. S.is_honest s.source };

    fn read(&mut self, buf: &mut [u8]) -> Result<usize, ReadFault> {
        match self.source.read(buf) {
            Ok(count) => {
                remember(&mut self.front, self.most, &buf[..count]);
                Ok(count)
            }
            Err(fault) => Err(fault),
        }
    }
}
