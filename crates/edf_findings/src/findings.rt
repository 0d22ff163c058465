//! What an original and its exports differ in that were read to their ends.

ghost use Rattle.std.specs.Prelude.{◌≡◌, ◌↔◌, ◌<◌, [], length, map, drop, nat_lt, sum_by, IsTrue, option_map, is_some, Some, IfOk, IfSome};

use crate::notes::both::Notes;
use crate::part::PartFindings;
use crate::samples::compared::ComparedChannel;
use crate::starts::Starts;
use edf_claim::Claim;
use edf_header::Header;
use edf_heads::{HeadDifference, head_differences};
use edf_pace::OnlyInOne;
use std::alloc::{AllocError, Global};

/// What an original and its exports, one at least, differ in: values, without any sentence.
#[derive(Drop)]
pub struct Findings<'a> {
    claim: &'a Claim,
    original: Header,
    parts: Vec<PartFindings>,
    notes: Notes,
    ghost some: { 0 < length parts.items },
}

impl<'a> Findings<'a> {
    ghost use Rattle.std.specs.List.Sorted.{IsPermutation, IsSorted};
    ghost use Rattle.edf_pace.specs.Annotations.{SameNotes, note_cmp};
    ghost use Rattle.edf_pace.specs.notes.OnlyInOne.{AreOnlyInOne};
    ghost use Rattle.edf_stream.specs.Views.{note_value};
    ghost use Rattle.edf_heads.specs.Comparisons.{difference_of};
    ghost use Rattle.edf_heads.specs.HeadVerdicts.{AreAllBroken};
    ghost use Rattle.edf_findings.specs.Exports.{channels_of, count_onsets, first_of, has_all_of, head_in, keeps_between_in, moved_in, starts_of};
    ghost use Rattle.edf_findings.specs.Found.{AreFindings};

    /// Those of these files; none where there is no export.
    pub(crate) fn of(
        claim: &'a Claim,
        original: Header,
        parts: Vec<PartFindings>,
        notes: Notes,
    ) -> Option<Findings<'a>>
        ensures some { is_some result ≡ nat_lt 0 (length parts.items) }
        ensures are { IfSome result (AreFindings claim.entry.now original parts.items notes) }
    {
        if parts.is_empty() {
            return None;
        }
        Some(Findings {
            claim,
            original,
            parts,
            notes,
        })
    }

    /// The first export.
    pub fn first(&self) -> &PartFindings
        ensures { first_of self.entry.now ≡ Some result.now }
    {
        &self.parts[0]
    }

    /// The exports behind the first one, in their order.
    pub fn others(&self) -> &[PartFindings]
        ensures { result.now ≡ drop 1 self.entry.now.parts.items }
    {
        &self.parts[1..]
    }

    /// The claimed channels that the original and the first export have, and which of their samples aren't as claimed.
    pub fn channels(&self) -> &[ComparedChannel]
        ensures { option_map channels_of (first_of self.entry.now) ≡ Some result.now }
    {
        self.first().channels()
    }

    /// Every rule of the headers of the original and one of these exports that is broken under the claim, and no other, in the order of
    /// `head_differences`.
    ///
    /// The error is want of memory.
    pub fn broken_rules<'b>(
        &'b self,
        alloc: Global,
        part: &'b PartFindings,
    ) -> Result<Vec<HeadDifference<'b>>, AllocError>
        ensures { IfOk result (λ rules. AreAllBroken self.entry.now.original (head_in part.entry.now)
            self.entry.now.claim.now (map difference_of rules.items)) }
    {
        head_differences(alloc, &self.original, part.header(), self.claim)
    }

    /// Whether as many begins were noted as all exports have annotations. Each data record is noted once at the most, so none lacks then.
    pub fn has_all_onsets(&self) -> bool
        ensures { IsTrue result ↔ (sum_by count_onsets self.now.parts.items ≡
            length self.now.notes.exported.items) }
    {
        let mut left = self.notes.exported.len();
        for part in &self.parts {
            let count = part.onsets().len();
            if count > left {
                return false;
            }
            left -= count;
        }
        left == 0
    }

    /// The annotations of all files.
    pub fn notes(&self) -> &Notes
        ensures { result.now ≡ self.entry.now.notes }
    {
        &self.notes
    }

    /// The annotations that only the original or only the exports have. All are put in order before, and stay so.
    pub fn only_in_one(&mut self, alloc: Global) -> Result<OnlyInOne, AllocError>
        ensures kept { IfOk result (λ only. IsPermutation self.old.notes.kept.items
            self.new.notes.kept.items) }
        ensures exported { IfOk result (λ only. IsPermutation self.old.notes.exported.items
            self.new.notes.exported.items) }
        ensures kept_order { IfOk result (λ only. IsSorted (λ x y. note_cmp (note_value x) (note_value y))
            self.new.notes.kept.items) }
        ensures exported_order { IfOk result (λ only. IsSorted (λ x y. note_cmp (note_value x) (note_value y))
            self.new.notes.exported.items) }
        ensures value { IfOk result (λ only. AreOnlyInOne self.new.notes.kept.items
            self.new.notes.exported.items only) }
        ensures none { IfOk result (λ only. ((only.missing.items ≡ []) × (only.extra.items ≡ [])) ↔
            SameNotes (map note_value self.old.notes.kept.items)
            (map note_value self.old.notes.exported.items)) }
        ensures hidden { self.new.notes.hidden ≡ self.old.notes.hidden }
        ensures rest { AreFindings self.old.claim.now self.old.original self.old.parts.items self.new.notes
            self.new }
    {
        self.notes.only_in_one(alloc)
    }

    /// Where the first export starts; none where the original has no sample that is kept.
    pub fn starts(&self) -> Option<Starts>
        ensures { option_map starts_of (first_of self.now) ≡ Some result }
    {
        self.first().starts()
    }

    /// Whether an interval was found that has no sample in a data record of the original in which it lies, beside the first export.
    pub fn keeps_between(&self) -> bool
        ensures { option_map (λ part. keeps_between_in part.compared) (first_of self.now) ≡ Some result }
    {
        self.first().keeps_between()
    }

    /// The claim.
    pub fn claim(&self) -> &'a Claim
        ensures { result.now ≡ self.entry.now.claim.now }
    {
        self.claim
    }

    /// Whether the original and the first export have all channels of the claim.
    pub fn has_all_channels(&self) -> bool
        ensures { option_map (has_all_of self.now.claim.now) (first_of self.now) ≡ Some result }
    {
        self.first().has_all_channels(self.claim)
    }

    /// The header of the original.
    pub fn original_header(&self) -> &Header
        ensures { result.now ≡ self.entry.now.original }
    {
        &self.original
    }

    /// The header of the first export.
    pub fn export_header(&self) -> &Header
        ensures { option_map head_in (first_of self.entry.now) ≡ Some result.now }
    {
        self.first().header()
    }

    /// By how much the times of the first export are moved.
    pub fn moved_ps(&self) -> i128
        ensures { option_map (λ part. moved_in part.compared) (first_of self.now) ≡ Some result }
    {
        self.first().moved_ps()
    }
}
