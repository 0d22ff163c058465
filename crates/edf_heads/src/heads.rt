//! The first difference of two headers.

ghost use Rattle.std.specs.Prelude.{◌≡◌, ◌↔◌, None, IfOk, IfSome, MatchOption};
ghost use Rattle.edf_heads.specs.Comparisons.{HeadsAgreeIn, IsHeadDifferenceIn, SameChannelsIn, SignalsAgreeIn};
ghost use Rattle.edf_heads.specs.HeadVerdicts.{HeadsAgree, IsHeadVerdict};

use crate::channel_texts::TextDifference;
use crate::comparison::Comparison;
use crate::difference::HeadDifference;
use crate::rules::ChannelRule;
use crate::subfields::SubfieldDifference;
use edf_claim::Claim;
use edf_header::Header;
use edf_verdict::Verdict;
use std::alloc::{AllocError, Global};

impl<'a> Comparison<'a> {
    /// The first difference in which channels the headers have.
    #[tactic(auto, using(crate::proofs::HeadFacts::same_channels))]
    fn channel_difference(&self) -> Option<HeadDifference<'a>>
        ensures { MatchOption result (SameChannelsIn self.now) (IsHeadDifferenceIn self.now) }
    {
        if let Some(label) = self.first_breaking(ChannelRule::Known) {
            return Some(HeadDifference::UnknownChannel(label));
        }
        if let Some(label) = self.first_breaking(ChannelRule::Exported) {
            return Some(HeadDifference::MissingChannel(label));
        }
        if let Some(label) = self.extra_channel() {
            return Some(HeadDifference::ExtraChannel(label));
        }
        None
    }

    /// The first difference in what the headers say of their channels, where they have the same ones.
    fn content_difference(&self) -> Option<HeadDifference<'a>>
        ensures { SameChannelsIn self.now →
            MatchOption result (SignalsAgreeIn self.now) (IsHeadDifferenceIn self.now) }
    {
        if let Some(TextDifference { label, field }) = self.text_difference() {
            return Some(HeadDifference::ChannelText(label, field));
        }
        if let Some(label) = self.first_breaking(ChannelRule::Calibrated) {
            return Some(HeadDifference::Calibration(label));
        }
        None
    }

    /// The first difference in the subfields, and the first free text of the export, where the headers
    /// agree on the channels.
    fn remaining_difference(&self) -> Option<HeadDifference<'a>>
        ensures { SignalsAgreeIn self.now →
            MatchOption result (HeadsAgreeIn self.now) (IsHeadDifferenceIn self.now) }
    {
        if let Some(SubfieldDifference { which, mismatch }) = self.subfield_difference() {
            return Some(HeadDifference::Subfield(which, mismatch));
        }
        if !self.is_header_blank() {
            return Some(HeadDifference::FreeTextInHeader);
        }
        if let Some(label) = self.first_breaking(ChannelRule::Clean) {
            return Some(HeadDifference::FreeTextInChannel(label));
        }
        None
    }

    /// The first difference of the headers.
    fn difference(&self) -> Option<HeadDifference<'a>>
        ensures { MatchOption result (HeadsAgreeIn self.now) (IsHeadDifferenceIn self.now) }
    {
        if let Some(difference) = self.channel_difference() {
            return Some(difference);
        }
        if let Some(difference) = self.content_difference() {
            return Some(difference);
        }
        self.remaining_difference()
    }
}

/// The first difference of the headers of an original and its export by a claim, in the order of the
/// variants of `Difference`, or none where the export's header is what the claim says of the original's:
/// the same channels, with their texts and calibrations, each subfield `X` or the original's as claimed (of
/// a date that isn't claimed only whether it is `X`), and no free text (EDF, "Header record"; EDF+,
/// "Additional specifications in EDF+"; which of it an export keeps is this project's profile).
///
/// What needs the samples or the annotations isn't compared. The time grows as the count of channels and
/// labels times its logarithm. The error is want of memory.
#[tactic(auto, using(crate::proofs::KindFacts::none_or_differ))]
pub fn head_difference(
    alloc: Global,
    original: &Header,
    export: &Header,
    claim: &Claim,
) -> Result<Option<Verdict>, AllocError>
    ensures none { IfOk result (λ found. (found ≡ None) ↔ HeadsAgree original.now export.now claim.now) }
    ensures least { IfOk result (λ found. IfSome found (IsHeadVerdict original.now export.now claim.now)) }
{
    let comparison = Comparison::new(alloc, original, export, claim)?;
    match comparison.difference() {
        Some(first) => Ok(Some(Verdict::No(first.difference(alloc)?))),
        None => Ok(None),
    }
}
