//! The text of an annotation, as a verdict names it.

ghost use Rattle.std.specs.Prelude.{◌≡◌, string_bytes};
ghost use Rattle.std.proofs.Common.{rules};
ghost use Rattle.std.specs.Cmp.Rules.{comparing};

use std::marker::Model;

/// The text of an annotation, as a verdict names it (EDF+, "Time-stamped Annotations Lists (TALs) in an
/// 'EDF Annotations' signal").
#[derive(Debug, Drop)]
pub struct NoteText {
    text: String,
}

impl Model for NoteText {
    ghost use Rattle.std.specs.Prelude.{ℕ, List, string_bytes};

    ghost Value = { List ℕ };

    ghost view = { λ t. string_bytes t.text };
}

impl NoteText {
    /// This text.
    pub fn new(text: String) -> NoteText
        ensures { result ≡ string_bytes text }
    {
        NoteText { text }
    }

    /// Its characters.
    pub fn as_str(&self) -> &str
        ensures { result.now ≡ self.entry.now }
    {
        &self.text
    }
}

impl PartialEq for NoteText {
    ghost use Rattle.std.specs.Str.{bytes_eq};

    ghost eq = { bytes_eq };

    ghost laws = { Prim.search (comparing, rules) };

    fn eq(&self, other: &NoteText) -> bool {
        self.text == other.text
    }
}

impl Eq for NoteText {
    ghost laws = { Prim.search (comparing, rules) };
}
