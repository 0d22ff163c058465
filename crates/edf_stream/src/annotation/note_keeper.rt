//! Who gets the annotations of a data record while it is judged. EDF+ (2003), "Time-stamped Annotations Lists
//! (TALs) in an 'EDF Annotations' signal".

ghost use Rattle.std.specs.Prelude.{◌≡◌, List, [], ◌++◌, false};
ghost use Rattle.edf_stream.specs.annotation.Notes.{NoteValue};
ghost use Rattle.edf_stream.specs.annotation.Keeping.{tal_notes_left};

use crate::annotation::note::TalNotes;

/// Gets the annotations of data records, TAL by TAL, while `FileReader::next_with` judges them.
///
/// It has no way to stop the reader: where it lacks memory for an annotation, it has to remember that itself.
pub trait NoteKeeper {
    /// The first one got these annotations, in this order, and is then the second one.
    ghost got: { Self → List NoteValue → Self → Type 0 };

    /// Whether it has any use for annotations. Where not, lanes may be passed over without a look at theirs.
    fn wants(&self) -> bool
        ensures { result ≡ false → (notes : List NoteValue) → got self.now notes self.now };

    /// Gets annotations of one TAL, in their order.
    fn keep(&mut self, notes: TalNotes<'_>)
        ensures { got self.old (tal_notes_left notes.entry) self.new };

    /// As it is, it has got none.
    ghost got_none: { (k : Self) → got k [] k };

    /// What it got one after the other, it got together.
    ghost got_both: { (a b c : Self) (xs ys : List NoteValue) → got a xs b → got b ys c → got a (xs ++ ys) c };
}

/// Keeps no annotations.
#[derive(Clone, Copy, Debug)]
pub struct KeepsNone;

impl NoteKeeper for KeepsNone {
    ghost got = { λ _ _ _. Unit {0} };

    fn wants(&self) -> bool {
        false
    }

    fn keep(&mut self, _notes: TalNotes<'_>) {}

    ghost got_none = { λ _. tt };

    ghost got_both = { λ _ _ _ _ _ _ _. tt };
}
