//! What a claim is to say, and whether a text says it.

ghost use Rattle.std.specs.Prelude.{◌≡◌, ◌↔◌, map, IfOk, IsTrue};
ghost use Rattle.edf_claim.specs.Claims.{SaysClaimText};

use crate::kept::claim::Claim;
use crate::kept::interval::Interval;
use crate::stop::ClaimStop;
use edf_fields::{SignalLabel, Which};
use std::alloc::{AllocError, Global};
use std::marker::Model;

/// What a claim is to say, as it is drafted from two files. It is of format 2 where it blanks a text, and else of format 1.
#[derive(Debug, Drop)]
pub struct Draft {
    /// The labels of the channels, in the claim's order.
    pub channels: Vec<Vec<u8>>,
    /// The intervals that are kept, in order.
    pub keep: Vec<Interval>,
    /// What is made anonymous.
    pub anonymous: Vec<Which>,
    /// By how many seconds what is kept moves.
    pub shift: i64,
    /// The texts of annotations that are removed.
    pub remove: Vec<Vec<u8>>,
    /// The texts of annotations that are blanked.
    pub blank: Vec<Vec<u8>>,
}

/// What a person reads beside the lines of a draft, in comments.
#[derive(Clone, Copy)]
pub struct Comments<'a> {
    /// Lines behind the format, each a comment of TOML.
    pub remarks: &'a str,
    /// Of each channel, whether the original has it.
    pub are_known: &'a [bool],
    /// The second of the day at which the original starts; none where no time is said by its clock.
    pub start: Option<u32>,
    /// The subfields that the export shows.
    pub shown: &'a [Which],
    /// How often each text that is removed stands in the original, and each that is blanked.
    pub removed: &'a [u64],
    pub blanked: &'a [u64],
}

impl Model for Draft {
    ghost use Rattle.std.specs.Prelude.{[], map};
    ghost use Rattle.edf_claim.specs.ClaimValues.{ClaimValue};

    ghost Value = { ClaimValue };

    ghost view = { λ d. record {
      channels = map (λ t. t.items) d.channels.items;
      keep = d.keep.items;
      anonymous = d.anonymous.items;
      shift = d.shift;
      remove = map (λ t. t.items) d.remove.items;
      remove_prefix = [];
      blank = map (λ t. t.items) d.blank.items;
    } };
}

/// Whether these are the same labels, in the same order.
fn are_same_labels(labels: &[SignalLabel], others: &[Vec<u8>]) -> bool
    ensures { IsTrue result → labels.now ≡ map (λ t. t.items) others.now }
{
    if labels.len() != others.len() {
        return false;
    }
    for (i, label) in labels.iter().enumerate() {
        if label.text() != others[i].as_slice() {
            return false;
        }
    }
    true
}

/// Whether these are the same texts, in the same order.
fn are_same_texts(texts: &[Vec<u8>], others: &[Vec<u8>]) -> bool
    ensures { IsTrue result → map (λ t. t.items) texts.now ≡ map (λ t. t.items) others.now }
{
    if texts.len() != others.len() {
        return false;
    }
    for (i, text) in texts.iter().enumerate() {
        if text.as_slice() != others[i].as_slice() {
            return false;
        }
    }
    true
}

/// Whether these are the same intervals, in the same order.
fn are_same_intervals(intervals: &[Interval], others: &[Interval]) -> bool
    ensures { IsTrue result → intervals.now ≡ others.now }
{
    intervals == others
}

/// Whether these are the same subfields, in the same order.
fn are_same_subfields(whiches: &[Which], others: &[Which]) -> bool
    ensures { IsTrue result → whiches.now ≡ others.now }
{
    if whiches.len() != others.len() {
        return false;
    }
    for (i, which) in whiches.iter().enumerate() {
        if *which != others[i] {
            return false;
        }
    }
    true
}

impl Claim {
    /// Whether the channels are those with these labels, in this order.
    pub fn has_channels(&self, labels: &[Vec<u8>]) -> bool
        ensures { IsTrue result → self.now.channels ≡ map (λ t. t.items) labels.now }
    {
        are_same_labels(&self.channels, labels)
    }

    /// Whether what is kept moves by so many seconds.
    pub fn has_shift(&self, seconds: i64) -> bool
        ensures { IsTrue result ↔ (self.now.shift ≡ seconds) }
    {
        self.shift == seconds
    }
}

impl Draft {
    /// Whether a claim says just this.
    fn is_claim(&self, claim: &Claim) -> bool
        ensures { IsTrue result → claim.now ≡ self.now }
    {
        claim.has_channels(&self.channels)
            && are_same_intervals(&claim.keep, &self.keep)
            && are_same_subfields(&claim.anonymous, &self.anonymous)
            && claim.has_shift(self.shift)
            && are_same_texts(&claim.texts.remove, &self.remove)
            && claim.texts.remove_prefix.is_empty()
            && are_same_texts(&claim.texts.blank, &self.blank)
    }

    /// Whether a text is a claim that says just this.
    ///
    /// The error is want of memory.
    pub fn is_said_by(&self, alloc: Global, text: &[u8]) -> Result<bool, AllocError>
        ensures { IfOk result (λ said. IsTrue said → SaysClaimText text.now self.now) }
    {
        match Claim::read(alloc, text) {
            Ok(claim) => Ok(self.is_claim(&claim)),
            Err(ClaimStop::OutOfMemory) => Err(AllocError),
            Err(_) => Ok(false),
        }
    }
}
