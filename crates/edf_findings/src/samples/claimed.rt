//! The claimed channels that both files have, with what was counted of each.

ghost use Rattle.std.specs.Prelude.{◌≡◌, map, length, IfOk, IfSome, OnOk, is_some};
ghost use Rattle.std.specs.Cmp.Lexicographic.{slice_cmp};
ghost use Rattle.std.specs.List.Sorted.{IsSorted};
ghost use Rattle.std.specs.Ordering.{nat_cmp};
ghost use Rattle.edf_fields.specs.Lists.{Has};
ghost use Rattle.edf_heads.specs.Comparisons.{AreSorted};
ghost use Rattle.edf_pace.specs.walk.Pairs.{places_in, places_of};
ghost use Rattle.edf_findings.specs.Told.{AreTold, IsToldAt, Seen, is_in_both, with_one};

use crate::samples::compared::ComparedChannel;
use edf_claim::Claim;
use edf_header::Header;
use edf_heads::place_among;
use edf_pace::{ChannelCount, Pair};
use std::alloc::{AllocError, Global};

/// An original and an export, the labels of a claim in the order of their bytes, and what was counted of each.
#[derive(Clone, Copy)]
pub(crate) struct CountedLabels<'a> {
    pub(crate) headers: (&'a Header, &'a Header),
    pub(crate) labels: &'a [&'a [u8]],
    /// Where both files have a channel of each label.
    pub(crate) pairs: &'a [Pair],
    pub(crate) counts: &'a [ChannelCount],
}

/// Takes in a channel, if there is one.
///
/// The error is want of memory.
fn take_in(
    channels: &mut Vec<ComparedChannel>,
    channel: Option<ComparedChannel>,
) -> Result<(), AllocError>
    ensures { OnOk result (channels.new.items ≡ with_one channels.old.items channel) }
{
    if let Some(channel) = channel {
        channels.push(channel)?;
    }
    Ok(())
}

impl CountedLabels<'_> {
    /// The channel of this label, which has this place in the claim, with what was counted of it; none where one of the files has
    /// no such channel.
    fn channel(self, place: usize, label: &[u8]) -> Option<ComparedChannel>
        requires sorted { IsSorted (λ x y. slice_cmp nat_cmp x.now y.now) self.labels.now }
        requires listed { Has (map (λ l. l.now) self.labels.now) label.now }
        requires pairs { map places_of self.pairs.now ≡
            places_in (self.headers.0).now (self.headers.1).now self.labels.now }
        requires counts { length self.counts.now ≡ length self.labels.now }
        ensures both { is_some result ≡
            is_in_both (self.entry.headers.0).now (self.entry.headers.1).now label.now }
        ensures place { IfSome result (λ channel. channel.place ≡ place) }
        ensures told { IfSome result (IsToldAt self.entry.labels.now (record {
          original = (self.entry.headers.0).now;
          export = (self.entry.headers.1).now;
          counts = self.entry.counts.now;
        }) label.now) }
    {
        let at = place_among(self.labels, label)?;
        let pair = self.pairs.get(at)?;
        let count = self.counts.get(at)?;
        match (pair.original, pair.export) {
            (Some(here), Some(there)) => Some(ComparedChannel::of(
                place,
                (here, there),
                count,
                self.headers,
            )),
            _ => None,
        }
    }

    /// The claimed channels that both files have, in the order of the claim, each with what was counted of it.
    ///
    /// The error is want of memory.
    pub(crate) fn channels(
        self,
        alloc: Global,
        claim: &Claim,
    ) -> Result<Vec<ComparedChannel>, AllocError>
        requires sorted { AreSorted claim.now.channels self.labels.now }
        requires pairs { map places_of self.pairs.now ≡
            places_in (self.headers.0).now (self.headers.1).now self.labels.now }
        requires counts { length self.counts.now ≡ length self.labels.now }
        ensures { IfOk result (λ channels. AreTold claim.entry.now.channels self.entry.labels.now (record {
          original = (self.entry.headers.0).now;
          export = (self.entry.headers.1).now;
          counts = self.entry.counts.now;
        }) channels.items) }
    {
        let labels = claim.channels();
        let mut channels = Vec::new(alloc);
        for place in 0..labels.len() {
            take_in(&mut channels, self.channel(place, labels[place].text()))?;
        }
        Ok(channels)
    }
}
