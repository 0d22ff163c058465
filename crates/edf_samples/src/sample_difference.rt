//! The first difference between the samples that a claim keeps of an original and those of an export.

ghost use Rattle.std.specs.Prelude.{◌≡◌, ◌<◌, map, length, Some, slice_get, IfOk};
ghost use Rattle.edf_samples.specs.InstantOrder.{floor_of};

use crate::earliest::Found;
use crate::instants::floor;
use edf_verdict::{Label, SampleMismatch};
use std::alloc::{AllocError, Global};

/// The first difference between the kept samples of an original and those of an export.
#[derive(Drop)]
pub struct SampleDifference {
    pub label: Label,
    /// The floor of the instant, in picoseconds after the second at which the original starts.
    pub at_ps: i128,
    pub mismatch: SampleMismatch,
}

/// A difference with the label of its channel, which is one of these.
///
/// The error is want of memory.
pub fn with_label(
    alloc: Global,
    labels: &[&[u8]],
    found: Found,
) -> Result<SampleDifference, AllocError>
    requires channel { found.channel < length labels.now }
    requires some { 0 < found.difference.at.den }
    ensures label { IfOk result (λ d. slice_get (map (λ label. label.now) labels.now) found.channel ≡
        Some d.label) }
    ensures at_ps { IfOk result (λ d. d.at_ps ≡ floor_of found.difference.at) }
    ensures mismatch { IfOk result (λ d. d.mismatch ≡ found.difference.mismatch) }
{
    Ok(SampleDifference {
        label: Label::new(alloc, labels[found.channel])?,
        at_ps: floor(found.difference.at),
        mismatch: found.difference.mismatch,
    })
}
