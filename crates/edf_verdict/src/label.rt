//! The label of a channel, as a verdict names it.

ghost use Rattle.std.specs.Prelude.{◌≡◌, IfOk};
ghost use Rattle.std.specs.Cmp.Rules.{comparing};
ghost use Rattle.std.proofs.Common.{rules};

use std::alloc::{AllocError, Global};
use std::marker::Model;

/// The label of a channel, as a verdict names it (EDF, "Header record").
#[derive(Debug, Drop)]
pub struct Label {
    bytes: Vec<u8>,
}

impl Model for Label {
    ghost use Rattle.std.specs.Prelude.{ℕ, List};

    ghost Value = { List ℕ };

    ghost view = { λ l. l.bytes.items };
}

impl Label {
    /// A label of these bytes, which may be any.
    ///
    /// The error is want of memory.
    pub fn new(alloc: Global, bytes: &[u8]) -> Result<Label, AllocError>
        ensures { IfOk result (λ label. label ≡ bytes.now) }
    {
        Ok(Label {
            bytes: Vec::from_slice(alloc, bytes)?,
        })
    }

    /// Its bytes.
    pub fn bytes(&self) -> &[u8]
        ensures { result.now ≡ self.entry.now }
    {
        &self.bytes
    }
}

impl PartialEq for Label {
    ghost use Rattle.std.specs.Str.{bytes_eq};

    ghost eq = { bytes_eq };

    ghost laws = { Prim.search (comparing, rules) };

    fn eq(&self, other: &Label) -> bool {
        self.bytes == other.bytes
    }
}

impl Eq for Label {
    ghost laws = { Prim.search (comparing, rules) };
}
