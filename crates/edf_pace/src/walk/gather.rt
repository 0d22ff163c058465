//! The annotations of a file, as they are compared.

ghost use Rattle.std.specs.Prelude.{◌≡◌, ◌<◌, ◌^◌, [], ◌∷◌, unsigned_abs, true, Option, option_map, IfOk, OnOk};
ghost use Rattle.edf_stream.specs.annotation.Keeping.{tal_notes_left};
ghost use Rattle.edf_stream.specs.Views.{note_view, note_value};
ghost use Rattle.edf_pace.specs.walk.Gathered.{AreAdded, counted_text};

use crate::walk::offset::Offset;
use edf_claim::{BLANK, Claim};
use edf_stream::{FileReader, Note, NoteKeeper, NoteRef, OwnText, TalNotes, file_start_ps};
use std::alloc::{AllocError, Global};

/// How a file is looked at: by how much it is moved, and which claim chooses from its annotations and blanks their texts;
/// where there is none, all count as they are. Memory for them is taken of `alloc`.
#[derive(Clone, Copy)]
pub struct View<'a> {
    pub alloc: Global,
    pub moved: Offset,
    pub claim: Option<&'a Claim>,
}

/// By how much the annotations of a file are later than the file has them.
#[derive(Clone, Copy)]
pub(crate) struct Delay {
    pub ps: i128,
    ghost near: { unsigned_abs ps < 2 ^ 81 },
}

/// The text with which an annotation counts that has this onset and this text: none where it doesn't count.
fn text_by<'a>(claim: Option<&Claim>, onset: i128, text: &'a str) -> Option<&'a str>
    ensures { option_map (λ t. t.now) result ≡ counted_text (option_map (λ c. c.now) claim.entry) onset
        text.now }
{
    let Some(claim) = claim else {
        return Some(text);
    };
    if !claim.keeps_annotation(onset, text) {
        return None;
    }
    if claim.blanks(text) {
        Some(BLANK)
    } else {
        Some(text)
    }
}

/// The annotation at this onset, with this text as its own.
///
/// The error is want of memory.
fn note_at(alloc: Global, note: NoteRef<'_>, onset: i128, text: &str) -> Result<Note, AllocError>
    ensures { IfOk result (λ v.
        note_value v ≡ record {
          onset = onset;
          duration = (note_view note.entry).duration;
          text = text.now;
        }) }
{
    Ok(Note {
        onset,
        duration: note.duration,
        text: OwnText::new(alloc, text)?,
    })
}

/// Puts an annotation, so much later, behind `notes`, where it counts.
#[tactic(auto, using(crate::proofs::walk::PassFacts::gathered_one, crate::proofs::walk::PassFacts::gathered_none))]
fn push_counted(
    alloc: Global,
    notes: &mut Vec<Note>,
    note: NoteRef<'_>,
    by: Delay,
    claim: Option<&Claim>,
) -> Result<(), AllocError>
    ensures { OnOk result (AreAdded notes.old.items notes.new.items claim.entry by.ps
        (note_view note.entry ∷ [])) }
{
    let onset = by.ps + note.onset;
    if let Some(text) = text_by(claim, onset, note.text) {
        notes.push(note_at(alloc, note, onset, text)?)?;
    }
    Ok(())
}

/// Puts those that are left of a TAL, so much later, behind `notes`, where they count.
#[tactic(auto, using(crate::proofs::walk::PassFacts::gathered_append))]
fn push_all_counted(
    alloc: Global,
    notes: &mut Vec<Note>,
    annotations: TalNotes<'_>,
    by: Delay,
    claim: Option<&Claim>,
) -> Result<(), AllocError>
    ensures { OnOk result (AreAdded notes.old.items notes.new.items claim.entry by.ps
        (tal_notes_left annotations.entry)) }
{
    for note in annotations {
        push_counted(alloc, notes, note, by, claim)?;
    }
    Ok(())
}

/// Keeps the annotations of one data record more that count.
#[derive(Drop)]
pub(crate) struct Gathering<'a> {
    pub notes: Vec<Note>,
    alloc: Global,
    /// The claim that chooses from them, where there is one.
    claim: Option<&'a Claim>,
    /// By how much they are later than the file has them.
    by: Delay,
    /// Whether there was memory for all of them.
    pub whole: bool,
}

impl<'a> Gathering<'a> {
    /// Keeps those of a data record as the view has them, so much later than in the file, behind these.
    pub(crate) fn new(notes: Vec<Note>, by: Delay, view: View<'a>) -> Gathering<'a>
        ensures notes { result.notes ≡ notes }
        ensures claim { result.claim ≡ view.entry.claim }
        ensures by { result.by ≡ by }
        ensures whole { result.whole ≡ true }
    {
        Gathering {
            notes,
            alloc: view.alloc,
            claim: view.claim,
            by,
            whole: true,
        }
    }
}

impl<'a> NoteKeeper for Gathering<'a> {
    ghost use Rattle.edf_pace.specs.walk.Keepers.{GotCounted, counted_none, counted_both};

    ghost got = { GotCounted };

    fn wants(&self) -> bool {
        true
    }

    fn keep(&mut self, notes: TalNotes<'_>) {
        if self.whole {
            let kept = push_all_counted(self.alloc, &mut self.notes, notes, self.by, self.claim);
            self.whole = kept.is_ok();
        }
    }

    ghost got_none = { counted_none };

    ghost got_both = { counted_both };
}
