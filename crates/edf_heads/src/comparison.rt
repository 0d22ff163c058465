//! Two headers and a claim, with the channels that are claimed.

ghost use Rattle.std.specs.Prelude.{◌≡◌, IfOk, MatchOption};
ghost use Rattle.edf_heads.specs.Comparisons.{compared, HasOnlyClaimed, IsLeastUnclaimed};

use crate::channel_index::ChannelIndex;
use crate::channels::{ClaimedChannel, claimed_channels};
use crate::labels::in_order;
use edf_claim::Claim;
use edf_header::Header;
use std::alloc::{AllocError, Global};
use std::marker::Model;

/// Two headers and a claim. The channels of each claimed label are found once.
#[derive(Drop)]
pub(crate) struct Comparison<'a> {
    pub(crate) original: &'a Header,
    pub(crate) export: ChannelIndex<'a>,
    pub(crate) claim: &'a Claim,
    /// The claimed channels, in claim's order.
    pub(crate) claimed: Vec<ClaimedChannel<'a>>,
    /// The claimed labels, in the order of their bytes.
    pub(crate) labels: Vec<&'a [u8]>,
}

impl<'a> Model for Comparison<'a> {
    ghost use Rattle.edf_heads.specs.Comparisons.{Compared, IsComparison};

    ghost Value = { Compared };

    ghost view = { λ c. record { original = c.original.now; export = c.export; claim = c.claim.now } };

    ghost invariant = { λ c. IsComparison c.original.now c.export c.claim.now c.claimed.items c.labels.items };
}

impl<'a> Comparison<'a> {
    /// The comparison of these headers by this claim.
    ///
    /// The error is want of memory.
    pub(crate) fn new(
        alloc: Global,
        original: &'a Header,
        export: &'a Header,
        claim: &'a Claim,
    ) -> Result<Comparison<'a>, AllocError>
        ensures { IfOk result (λ c. c ≡ compared original.entry.now export.entry.now claim.entry.now) }
    {
        let labels = in_order(alloc, claim.channels())?;
        let channels = ChannelIndex::new(alloc, original)?;
        let export = ChannelIndex::new(alloc, export)?;
        let claimed = claimed_channels(alloc, &channels, &export, claim.channels())?;
        Ok(Comparison {
            original,
            export,
            claim,
            claimed,
            labels,
        })
    }

    /// The least label, in the order of bytes, of the export's channels that aren't claimed.
    pub(crate) fn extra_channel(&self) -> Option<&'a [u8]>
        ensures { MatchOption result (HasOnlyClaimed self.now)
            (λ label. IsLeastUnclaimed self.now label.now) }
    {
        self.export.least_extra(&self.labels)
    }
}
