//! What a claim says, and what it keeps.

ghost use Rattle.std.specs.Prelude.{◌≡◌, ◌↔◌, ◌<◌, ◌≤◌, ◌^◌, ◌*ℤ◌, pos, map, length, unsigned_abs, IsTrue};
ghost use Rattle.std.specs.List.{list_any};
ghost use Rattle.edf_claim.specs.Claims.{IsClaim};
ghost use Rattle.edf_fields.specs.Lists.{Has, is_one_of as is_one_of_texts};
ghost use Rattle.edf_claim.specs.Keeps.{keeps_instant, keeps_annotation};
ghost use Rattle.edf_claim.specs.KeepsReading.{AreKept, Blanks, KeepsAnnotation, blanks, KeepsInstant, is_within};

use crate::kept::interval::Interval;
use crate::kept::note_texts::NoteTexts;
use crate::reading::text_arrays::is_one_of;
use edf_fields::{SECOND_PS, SignalLabel, Which};
use std::marker::Model;

/// The most bytes that a claim's text may have.
pub const MOST_CLAIM_BYTES: usize = 65_536;

/// What stands in an export for the text of an annotation that a claim blanks.
pub const BLANK: &str = "X";

/// What an export keeps of its original, as a sleep centre claims it.
#[derive(Debug, Drop)]
pub struct Claim {
    pub(crate) channels: Vec<SignalLabel>,
    pub(crate) keep: Vec<Interval>,
    pub(crate) anonymous: Vec<Which>,
    pub(crate) shift: i64,
    pub(crate) texts: NoteTexts,
}

impl Model for Claim {
    ghost use Rattle.std.specs.Prelude.{map};
    ghost use Rattle.edf_claim.specs.Claims.{IsClaim};
    ghost use Rattle.edf_claim.specs.ClaimValues.{ClaimValue};

    ghost Value = { ClaimValue };

    ghost view = { λ c. record {
      channels = c.channels.items;
      keep = c.keep.items;
      anonymous = c.anonymous.items;
      shift = c.shift;
      remove = map (λ t. t.items) c.texts.remove.items;
      remove_prefix = map (λ t. t.items) c.texts.remove_prefix.items;
      blank = map (λ t. t.items) c.texts.blank.items;
    } };

    ghost invariant = { λ c. IsClaim (record {
      channels = c.channels.items;
      keep = c.keep.items;
      anonymous = c.anonymous.items;
      shift = c.shift;
      remove = map (λ t. t.items) c.texts.remove.items;
      remove_prefix = map (λ t. t.items) c.texts.remove_prefix.items;
      blank = map (λ t. t.items) c.texts.blank.items;
    }) };
}

/// The half of the intervals in which the instant `num / den` can be: the second one where its first
/// interval has begun.
#[tactic(auto, using(crate::proofs::OrderFacts::half_behind, crate::proofs::OrderFacts::half_before, crate::proofs::OrderFacts::kept_behind, crate::proofs::OrderFacts::kept_before, crate::proofs::KeepsFacts::near_bounds))]
fn half_at(intervals: &[Interval], num: i128, den: u32) -> &[Interval]
    requires some { 1 < length intervals.now }
    requires kept { AreKept intervals.now }
    requires den { den < 2 ^ 24 }
    ensures same { list_any (λ i. is_within i num den) result.now ≡
        list_any (λ i. is_within i num den) intervals.entry.now }
    ensures kept { AreKept result.now }
    ensures shorter { length result.now < length intervals.entry.now }
{
    let middle = intervals.len() / 2;
    if intervals[middle].has_begun(num, den) {
        &intervals[middle..]
    } else {
        &intervals[..middle]
    }
}

/// Whether the instant `num / den` is in one of the intervals.
#[tactic(auto, using(crate::proofs::KeepsFacts::near_bounds))]
fn is_in_one(intervals: &[Interval], num: i128, den: u32) -> bool
    requires kept { AreKept intervals.now }
    requires den { den < 2 ^ 24 }
    ensures { result ≡ list_any (λ i. is_within i num den) intervals.now }
{
    let mut left = intervals;
    while left.len() > 1 {
        left = half_at(left, num, den);
    }
    match left {
        [interval] => interval.contains(num, den),
        _ => false,
    }
}

/// Whether the subfield is one of these.
#[tactic(auto, using(crate::proofs::KeepsFacts::has_here, crate::proofs::KeepsFacts::has_next))]
fn is_among(whiches: &[Which], which: Which) -> bool
    ensures { IsTrue result ↔ Has whiches.now which }
{
    for other in whiches {
        if *other == which {
            return true;
        }
    }
    false
}

impl Claim {
    /// The labels of the channels that are kept, in the claim's order.
    pub fn channels(&self) -> &[SignalLabel]
        ensures channels { result.now ≡ self.entry.now.channels }
        ensures sound { IsClaim self.entry.now }
    {
        &self.channels
    }

    /// Whether the channel of this label is kept: one of the claim's labels has just these bytes.
    #[tactic(auto, using(crate::proofs::KeepsFacts::channel_kept))]
    pub fn keeps_channel(&self, label: &[u8]) -> bool
        ensures keeps { IsTrue result ↔ Has self.now.channels label.now }
        ensures value { result ≡ is_one_of_texts self.now.channels label.now }
    {
        is_one_of(&self.channels, label)
    }

    /// Whether what stands at the instant `num / den` is kept, in picoseconds after the second at
    /// which the original starts; `den` is from 1 to 8,388,608. An interval keeps its begin, and not its
    /// end.
    #[tactic(auto, using(crate::proofs::KeepsFacts::near_bounds))]
    pub fn keeps_instant(&self, num: i128, den: u32) -> bool
        requires low { 1 ≤ den }
        requires high { den ≤ 8388608 }
        ensures keeps { IsTrue result ↔ KeepsInstant self.now num den }
        ensures value { result ≡ keeps_instant self.now num den }
    {
        is_in_one(&self.keep, num, den)
    }

    /// Whether an annotation is kept that has this onset, in picoseconds after the second at which
    /// the original starts, and this text, which is compared byte for byte with those that are removed, and its
    /// begin with the prefixes of such.
    #[tactic(auto, using(crate::proofs::KeepsFacts::annotation_kept))]
    pub fn keeps_annotation(&self, onset: i128, text: &str) -> bool
        ensures keeps { IsTrue result ↔ KeepsAnnotation self.now onset text.now }
        ensures value { result ≡ keeps_annotation self.now onset text.now }
    {
        self.keeps_instant(onset, 1) && !self.texts.is_removed(text.as_bytes())
    }

    /// Whether the text of a kept annotation is blanked: an export has `X` in its place. It is compared byte for
    /// byte.
    #[tactic(auto, using(crate::proofs::KeepsFacts::text_blanked))]
    pub fn blanks(&self, text: &str) -> bool
        ensures blanks { IsTrue result ↔ Blanks self.now text.now }
        ensures value { result ≡ blanks self.now text.now }
    {
        self.texts.is_blanked(text.as_bytes())
    }

    /// Whether this subfield is made anonymous.
    pub fn is_anonymous(&self, which: Which) -> bool
        ensures { IsTrue result ↔ Has self.now.anonymous which }
    {
        is_among(&self.anonymous, which)
    }

    /// By how many picoseconds what is kept moves.
    pub fn shift_ps(&self) -> i128
        ensures value { result ≡ self.now.shift *ℤ pos 1000000000000 }
        ensures near { unsigned_abs result < 2 ^ 74 }
    {
        i128::from(self.shift) * SECOND_PS
    }
}
