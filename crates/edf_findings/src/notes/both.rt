//! The annotations of both files, and which of them only one has.

ghost use Rattle.std.specs.Prelude.{◌≡◌, ◌↔◌, ◌++◌, ◌∷◌, [], map, IfOk, OnOk};
ghost use Rattle.std.specs.List.Sorted.{IsPermutation, IsSorted};
ghost use Rattle.edf_pace.specs.Annotations.{SameNotes, note_cmp};
ghost use Rattle.edf_pace.specs.notes.OnlyInOne.{AreOnlyInOne};
ghost use Rattle.edf_stream.specs.Views.{note_value, notes_left};
ghost use Rattle.edf_findings.specs.Gathered.{HaveNone, hidden_texts, is_hidden as is_hidden_of};

use edf_claim::Claim;
use edf_pace::{OnlyInOne, only_in_one};
use edf_stream::{Annotations, Note, OwnText};
use std::alloc::{AllocError, Global};

/// The annotations of both files. Onsets are picoseconds after the second at which the original starts.
#[derive(Drop)]
pub struct Notes {
    /// The annotations that the claim keeps, as an export has them.
    pub kept: Vec<Note>,
    /// The texts of annotations in the kept intervals that the claim removes or blanks.
    pub hidden: Vec<OwnText>,
    /// The annotations that the export has.
    pub exported: Vec<Note>,
}

/// Whether an annotation with this onset and this text is in a kept interval, and the claim removes it or blanks its text.
fn is_hidden(claim: &Claim, onset: i128, text: &str) -> bool
    ensures { result ≡ is_hidden_of claim.now onset text.now }
{
    claim.keeps_instant(onset, 1) && (!claim.keeps_annotation(onset, text) || claim.blanks(text))
}

impl Notes {
    /// None so far.
    pub(crate) fn new(alloc: Global) -> Notes
        ensures { HaveNone result }
    {
        Notes {
            kept: Vec::new(alloc),
            hidden: Vec::new(alloc),
            exported: Vec::new(alloc),
        }
    }

    /// Puts a text behind those that are hidden.
    fn push_hidden(&mut self, alloc: Global, text: &str) -> Result<(), AllocError>
        ensures hidden { OnOk result (self.new.hidden.items ≡ self.old.hidden.items ++ (text.now ∷ [])) }
        ensures kept { self.new.kept ≡ self.old.kept }
        ensures exported { self.new.exported ≡ self.old.exported }
    {
        self.hidden.push(OwnText::new(alloc, text)?)?;
        Ok(())
    }

    /// Takes in the texts of those annotations in the kept intervals that the claim removes or blanks.
    pub(crate) fn take_hidden(
        &mut self,
        alloc: Global,
        claim: &Claim,
        annotations: Annotations<'_>,
    ) -> Result<(), AllocError>
        ensures hidden { OnOk result (self.new.hidden.items ≡
            self.old.hidden.items ++ hidden_texts claim.now (notes_left annotations.entry)) }
        ensures kept { self.new.kept ≡ self.old.kept }
        ensures exported { self.new.exported ≡ self.old.exported }
    {
        for note in annotations {
            if is_hidden(claim, note.onset, note.text) {
                self.push_hidden(alloc, note.text)?;
            }
        }
        Ok(())
    }

    /// The places of the annotations that only one of the files has, as often as it has them more often; none exactly where each
    /// stands equally often in both. All are put in order before, and stay so.
    pub fn only_in_one(&mut self, alloc: Global) -> Result<OnlyInOne, AllocError>
        ensures kept { IfOk result (λ only. IsPermutation self.old.kept.items self.new.kept.items) }
        ensures exported { IfOk result (λ only. IsPermutation self.old.exported.items
            self.new.exported.items) }
        ensures kept_order { IfOk result (λ only. IsSorted (λ x y. note_cmp (note_value x) (note_value y))
            self.new.kept.items) }
        ensures exported_order { IfOk result (λ only. IsSorted (λ x y. note_cmp (note_value x) (note_value y))
            self.new.exported.items) }
        ensures value { IfOk result (λ only. AreOnlyInOne self.new.kept.items self.new.exported.items only) }
        ensures hidden { self.new.hidden ≡ self.old.hidden }
        ensures none { IfOk result (λ only. ((only.missing.items ≡ []) × (only.extra.items ≡ [])) ↔
            SameNotes (map note_value self.old.kept.items) (map note_value self.old.exported.items)) }
    {
        self.kept.sort_unstable();
        self.exported.sort_unstable();
        only_in_one(alloc, &self.kept, &self.exported)
    }
}
