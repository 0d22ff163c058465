//! Whether a claim says what another one says, but for what was to be changed.

ghost use Rattle.std.specs.Prelude.{◌≡◌, map, IfOk, IfSome, IsTrue};
ghost use Rattle.edf_claim.specs.Claims.{SaysClaimText};
ghost use Rattle.edf_trial.specs.Changes.{extended_by, HideAlike, IsExtended, IsRenamed, KeepAlike};

use edf_claim::{Claim, ClaimStop, Interval};
use edf_claim_text::{are_same_intervals, are_same_labels, are_same_subfields, are_same_texts};
use std::alloc::{AllocError, Global};

/// The claim that a text says; none where it says none.
///
/// The error is want of memory.
pub(crate) fn claim_in(alloc: Global, text: &[u8]) -> Result<Option<Claim>, AllocError>
    ensures { IfOk result (λ found. IfSome found (SaysClaimText text.now)) }
{
    match Claim::read(alloc, text) {
        Ok(claim) => Ok(Some(claim)),
        Err(ClaimStop::OutOfMemory) => Err(AllocError),
        Err(_) => Ok(None),
    }
}

/// Whether two claims hide the same subfields, and remove and blank the same texts.
fn hide_alike(claim: &Claim, other: &Claim) -> bool
    ensures { IsTrue result → HideAlike claim.now other.now }
{
    are_same_subfields(claim.anonymous(), other.anonymous())
        && are_same_texts(claim.removed(), other.removed())
        && are_same_texts(claim.removed_by_begin(), other.removed_by_begin())
        && are_same_texts(claim.blanked(), other.blanked())
}

/// Whether two claims say the same, whatever their shifts are.
pub(crate) fn keep_alike(claim: &Claim, other: &Claim) -> bool
    ensures { IsTrue result → KeepAlike claim.now other.now }
{
    are_same_labels(claim.channels(), other.channels())
        && are_same_intervals(claim.intervals(), other.intervals())
        && hide_alike(claim, other)
}

/// Whether the second claim is the first one with channels of these labels, in this order.
pub(crate) fn is_renamed(claim: &Claim, other: &Claim, labels: &[Vec<u8>]) -> bool
    ensures { IsTrue result → IsRenamed claim.now other.now (map (λ l. l.items) labels.now) }
{
    other.has_channels(labels)
        && other.has_shift(claim.shift())
        && are_same_intervals(claim.intervals(), other.intervals())
        && hide_alike(claim, other)
}

/// An interval, longer by another one if that begins where it ends.
fn extended(interval: Interval, more: Interval) -> Interval
    ensures { result ≡ extended_by more interval }
{
    if interval.to_ps == more.from_ps {
        Interval {
            from_ps: interval.from_ps,
            to_ps: more.to_ps,
        }
    } else {
        interval
    }
}

/// Intervals, each longer by another one if that begins where it ends.
///
/// The error is want of memory.
fn all_extended(
    alloc: Global,
    intervals: &[Interval],
    more: Interval,
) -> Result<Vec<Interval>, AllocError>
    ensures { IfOk result (λ longer. longer.items ≡ map (extended_by more) intervals.now) }
{
    let mut longer = Vec::new(alloc);
    for interval in intervals {
        longer.push(extended(*interval, more))?;
    }
    Ok(longer)
}

/// Whether the second claim is the first one with each interval longer by this one that ends where this begins.
///
/// The error is want of memory.
pub(crate) fn is_extended(
    alloc: Global,
    claim: &Claim,
    other: &Claim,
    more: Interval,
) -> Result<bool, AllocError>
    ensures { IfOk result (λ is. IsTrue is → IsExtended claim.now other.now more) }
{
    let keep = all_extended(alloc, claim.intervals(), more)?;
    Ok(
        are_same_intervals(&keep, other.intervals())
            && are_same_labels(claim.channels(), other.channels())
            && other.has_shift(claim.shift())
            && hide_alike(claim, other),
    )
}
