//! Whether two claims say the same, and whether a text says a claim.

ghost use Rattle.std.specs.Prelude.{◌≡◌, ◌↔◌, map, IfOk, IsTrue};
ghost use Rattle.edf_claim.specs.Claims.{SaysClaimAtAnyLength};

use edf_claim::{Claim, ClaimStop, Interval};
use edf_fields::{SignalLabel, Which};
use std::alloc::{AllocError, Global};

/// Whether these are the same labels, in the same order.
pub fn are_same_labels(labels: &[SignalLabel], others: &[SignalLabel]) -> bool
    ensures { IsTrue result ↔ (labels.now ≡ others.now) }
{
    if labels.len() != others.len() {
        return false;
    }
    for (i, label) in labels.iter().enumerate() {
        if label.text() != others[i].text() {
            return false;
        }
    }
    true
}

/// Whether these are the same texts, in the same order.
pub fn are_same_texts(texts: &[Vec<u8>], others: &[Vec<u8>]) -> bool
    ensures { IsTrue result ↔ (map (λ t. t.items) texts.now ≡ map (λ t. t.items) others.now) }
{
    texts == others
}

/// Whether these are the same intervals, in the same order.
pub fn are_same_intervals(intervals: &[Interval], others: &[Interval]) -> bool
    ensures { IsTrue result ↔ (intervals.now ≡ others.now) }
{
    intervals == others
}

/// Whether these are the same subfields, in the same order.
pub fn are_same_subfields(whiches: &[Which], others: &[Which]) -> bool
    ensures { IsTrue result ↔ (whiches.now ≡ others.now) }
{
    if whiches.len() != others.len() {
        return false;
    }
    for (i, which) in whiches.iter().enumerate() {
        if *which != others[i] {
            return false;
        }
    }
    true
}

/// Whether two claims say the same.
fn are_same(claim: &Claim, other: &Claim) -> bool
    ensures { IsTrue result ↔ (claim.now ≡ other.now) }
{
    are_same_labels(claim.channels(), other.channels())
        && are_same_intervals(claim.intervals(), other.intervals())
        && are_same_subfields(claim.anonymous(), other.anonymous())
        && claim.shift() == other.shift()
        && are_same_texts(claim.removed(), other.removed())
        && are_same_texts(claim.removed_by_begin(), other.removed_by_begin())
        && are_same_texts(claim.blanked(), other.blanked())
}

/// Whether a text says just this claim, however long it is.
///
/// The error is want of memory.
pub(crate) fn is_said_by(alloc: Global, claim: &Claim, text: &[u8]) -> Result<bool, AllocError>
    ensures { IfOk result (λ said. IsTrue said ↔ SaysClaimAtAnyLength text.now claim.now) }
{
    match Claim::read_at_any_length(alloc, text) {
        Ok(other) => Ok(are_same(claim, &other)),
        Err(ClaimStop::OutOfMemory) => Err(AllocError),
        Err(_) => Ok(false),
    }
}
