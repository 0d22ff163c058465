//! The annotations of a file, with texts of their own. EDF+ (2003), "Time-stamped Annotations Lists (TALs)
//! in an 'EDF Annotations' signal".

ghost use Rattle.std.specs.Prelude.{◌≡◌, [], ◌∷◌, ◌++◌, ◌<◌, ◌^◌, map, unsigned_abs, IfOk, OnOk};
ghost use Rattle.std.specs.List.{All};
ghost use Rattle.edf_stream.specs.annotation.Notes.{moved_by};
ghost use Rattle.edf_stream.specs.Views.{note_view, note_value, notes_left, IsNear};

use crate::annotation::annotations::Annotations;
use crate::annotation::note::NoteRef;
use crate::annotation::own_text::OwnText;
use std::alloc::{AllocError, Global};
use std::mem::size_of;

/// An annotation with a text of its own. Annotations are ordered by their onset, then by their duration,
/// none before any, then by the bytes of their texts.
#[derive(Debug, Drop, PartialEq, Eq, PartialOrd, Ord)]
pub struct Note {
    /// The onset in picoseconds after 1970-01-01 00:00:00 (civil time, without a time zone).
    pub onset: i128,
    /// The duration in picoseconds, where it has one.
    pub duration: Option<i128>,
    /// The text.
    pub text: OwnText,
}

// A check holds all annotations that count, of which a file has up to 1,000,000.
const _: () = prove!(size_of::<Note>() == 80);

impl Note {
    /// The annotation, in a file that starts at `start_ps`.
    fn new(alloc: Global, start_ps: i128, note: NoteRef<'_>) -> Result<Note, AllocError>
        requires { unsigned_abs start_ps < 2 ^ 79 }
        ensures value { IfOk result (λ n. note_value n ≡ moved_by start_ps (note_view note.entry)) }
        ensures near { IfOk result IsNear }
    {
        Ok(Note {
            onset: start_ps + note.onset,
            duration: note.duration,
            text: OwnText::new(alloc, note.text)?,
        })
    }
}

/// Puts an annotation behind `notes`, in a file that starts at `start_ps`.
#[tactic(auto, using(crate::proofs::ListFacts::near_more))]
fn push_note(
    alloc: Global,
    notes: &mut Vec<Note>,
    start_ps: i128,
    note: NoteRef<'_>,
) -> Result<(), AllocError>
    requires start { unsigned_abs start_ps < 2 ^ 79 }
    requires near { All IsNear notes.old.items }
    ensures value { OnOk result (map note_value notes.new.items ≡ map note_value notes.old.items ++
        moved_by start_ps (note_view note.entry) ∷ []) }
    ensures near { OnOk result (All IsNear notes.new.items) }
{
    notes.push(Note::new(alloc, start_ps, note)?)?;
    Ok(())
}

/// Puts the annotations that are left of a data record behind `notes`, in a file that starts at
/// `start_ps`.
pub(crate) fn push_notes(
    alloc: Global,
    notes: &mut Vec<Note>,
    start_ps: i128,
    annotations: Annotations<'_>,
) -> Result<(), AllocError>
    requires start { unsigned_abs start_ps < 2 ^ 79 }
    requires near { All IsNear notes.old.items }
    ensures value { OnOk result (map note_value notes.new.items ≡ map note_value notes.old.items ++
        map (moved_by start_ps) (notes_left annotations.entry)) }
    ensures near { OnOk result (All IsNear notes.new.items) }
{
    for note in annotations {
        push_note(alloc, notes, start_ps, note)?;
    }
    Ok(())
}
