//! A source that is lent to another one.

ghost use Rattle.std.specs.Prelude.{◌≡◌};

use edf_fields::{ReadFault, Source};

/// A source that gives what the one gives that it was lent.
#[derive(Drop)]
pub(crate) struct Lent<'a, S: Source> {
    source: &'a mut S,
}

impl<'a, S: Source> Lent<'a, S> {
    /// That of a source.
    pub(crate) fn new(source: &'a mut S) -> Lent<'a, S>
        ensures left { ⟦<Lent<'a, S> as Source>⟧.left result ≡ S.left source.old }
        ensures honest { ⟦<Lent<'a, S> as Source>⟧.is_honest result ≡ S.is_honest source.old }
    {
        Lent { source }
    }
}

impl<'a, S: Source> Source for Lent<'a, S> {
    ghost left = { λ s. S.left s.source.now };

    ghost reads = { λ s. S.reads s.source.now };

    ghost is_honest = { λ s. S.is_honest s.source.now };

    fn read(&mut self, buf: &mut [u8]) -> Result<usize, ReadFault> {
        match self.source.read(buf) {
            Ok(count) => Ok(count),
            Err(fault) => Err(fault),
        }
    }
}
