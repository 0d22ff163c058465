//! The channels that a claim names, and those that it doesn't.

ghost use Rattle.std.specs.Prelude.{◌≡◌, ℕ, List, option_map, IfOk};
ghost use Rattle.std.specs.Cmp.Lexicographic.{slice_cmp};
ghost use Rattle.std.specs.List.Sorted.{IsSorted};
ghost use Rattle.std.specs.Ordering.{nat_cmp};
ghost use Rattle.edf_heads.specs.ChannelIndexes.{first_other};
ghost use Rattle.edf_heads.specs.Comparisons.{AreClaimedOf, AreSorted, IsLeastOrNone};

use crate::channel_index::{Channel, ChannelIndex};
use crate::labels::is_found;
use edf_fields::SignalLabel;
use edf_header::Signal;
use std::alloc::{AllocError, Global};

/// A claimed label, and the channels of this label in the two headers, where there are such.
#[derive(Clone, Copy)]
pub(crate) struct ClaimedChannel<'a> {
    pub(crate) label: &'a SignalLabel,
    pub(crate) original: Option<&'a Signal>,
    pub(crate) export: Option<&'a Signal>,
}

impl<'a> ChannelIndex<'a> {
    /// The least label, in the order of bytes, of the channels whose label isn't one of the claimed ones,
    /// which are in that order, too.
    pub(crate) fn least_extra(&self, claimed: &[&[u8]]) -> Option<&'a [u8]>
        requires { IsSorted (λ x y. slice_cmp nat_cmp x.now y.now) claimed.now }
        ensures { (labels : List (List ℕ)) → AreSorted labels claimed.now →
            IsLeastOrNone self.now labels result }
    {
        least_other(&self.sorted, claimed)
    }
}

/// The first of the channels whose label is none of these, which are in the order of their bytes.
fn least_other<'a>(sorted: &[Channel<'a>], labels: &[&[u8]]) -> Option<&'a [u8]>
    requires { IsSorted (λ x y. slice_cmp nat_cmp x.now y.now) labels.now }
    ensures { option_map (λ label. label.now) result ≡ first_other sorted.now labels.now }
{
    for channel in sorted {
        let label = channel.signal.label();
        if !is_found(labels, label) {
            return Some(label);
        }
    }
    None
}

/// The claimed labels, in claim's order, each with its channels in the two headers.
///
/// The error is want of memory.
pub(crate) fn claimed_channels<'a>(
    alloc: Global,
    original: &ChannelIndex<'a>,
    export: &ChannelIndex<'a>,
    labels: &'a [SignalLabel],
) -> Result<Vec<ClaimedChannel<'a>>, AllocError>
    ensures { IfOk result (λ v. AreClaimedOf original.now export.now labels.entry.now v.items) }
{
    let mut claimed = Vec::with_capacity(alloc, labels.len())?;
    for label in labels {
        claimed.push(ClaimedChannel {
            label,
            original: original.signal(label.text()),
            export: export.signal(label.text()),
        })?;
    }
    Ok(claimed)
}
