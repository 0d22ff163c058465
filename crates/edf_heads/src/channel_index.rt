//! The channels of a header, found by their labels. EDF (1992), "Header record"; EDF+ (2003), "The 'EDF
//! Annotations' signal".

ghost use Rattle.std.specs.Prelude.{◌≡◌, ◌≤◌, ◌^◌, length, map, filter, option_map, IfOk, IfSome, OnOk, MatchOption};
ghost use Rattle.std.specs.Cmp.Lexicographic.{slice_cmp};
ghost use Rattle.std.specs.List.Sorted.{IsPermutation};
ghost use Rattle.std.specs.Ordering.{nat_cmp};
ghost use Rattle.edf_header.specs.signals.ChannelsReading.{is_ordinary};
ghost use Rattle.edf_header.specs.Sound.{IsSound};
ghost use Rattle.edf_heads.specs.differences.ChannelDifferences.{HasNoChannel};
ghost use Rattle.edf_heads.specs.ChannelIndexes.{AreAmong, AreByLabel, IsChannelAt, IsOneLabelled, NoneIsLabelled};
ghost use Rattle.edf_heads.specs.Comparisons.{channel_of};

use edf_header::{Header, Signal};
use std::alloc::{AllocError, Global};
use std::cmp::Ordering;
use std::marker::Model;

/// A channel of a header: the signal that it is, which of the signals this is, and which of the channels, both
/// counted from 0 in file order.
#[derive(Clone, Copy)]
pub struct Channel<'a> {
    pub signal: &'a Signal,
    pub at: u16,
    pub number: u16,
}

/// The channels of a header in the order of their labels' bytes.
///
/// In contracts its value is the header's.
#[derive(Drop)]
pub struct ChannelIndex<'a> {
    pub(crate) header: &'a Header,
    pub(crate) sorted: Vec<Channel<'a>>,
}

impl<'a> Model for ChannelIndex<'a> {
    ghost use Rattle.edf_header.specs.Heads.{Head};
    ghost use Rattle.edf_heads.specs.ChannelIndexes.{IsChannelIndex};

    ghost Value = { Head };

    ghost view = { λ i. i.header.now };

    ghost invariant = { λ i. IsChannelIndex i.header.now i.sorted.items };
}

/// The channels among the signals, in file order.
///
/// The error is want of memory.
fn channels_among(alloc: Global, signals: &[Signal]) -> Result<Vec<Channel<'_>>, AllocError>
    requires few { length signals.now ≤ 2 ^ 16 }
    ensures all { IfOk result (λ v. map (λ c. c.signal.now) v.items ≡ filter is_ordinary signals.entry.now) }
    ensures among { IfOk result (λ v. AreAmong signals.entry.now v.items) }
{
    let mut channels = Vec::with_capacity(alloc, signals.len())?;
    for i in 0..signals.len() {
        let signal = &signals[i];
        if !signal.is_annotations() {
            channels.push(Channel {
                signal,
                at: i as u16,
                number: channels.len() as u16,
            })?;
        }
    }
    Ok(channels)
}

/// Puts the channels in the order of their labels.
fn sort_by_label(channels: &mut Vec<Channel<'_>>)
    ensures order { AreByLabel channels.new.items }
    ensures same { IsPermutation channels.old.items channels.new.items }
{
    channels.sort_unstable_by(
        |x: &Channel<'_>, y: &Channel<'_>| -> Ordering
            ensures { result ≡ slice_cmp nat_cmp x.now.signal.now.label y.now.signal.now.label }
        { x.signal.label().cmp(y.signal.label()) },
    );
}

/// The channel of this label among these, which are in the order of their labels.
fn find_label<'a>(sorted: &[Channel<'a>], label: &[u8]) -> Option<Channel<'a>>
    requires { AreByLabel sorted.now }
    ensures { MatchOption result (NoneIsLabelled sorted.now label.now) (IsOneLabelled sorted.now label.now) }
{
    match sorted.binary_search_by(
        |other: &Channel<'_>| -> Ordering
            ensures { result ≡ slice_cmp nat_cmp other.now.signal.now.label label.entry.now }
        { other.signal.label().cmp(label) },
    ) {
        Ok(place) => Some(sorted[place]),
        Err(_) => None,
    }
}

impl<'a> ChannelIndex<'a> {
    /// The channels of a header, to be found by their labels.
    ///
    /// The error is want of memory.
    pub fn new(alloc: Global, header: &'a Header) -> Result<ChannelIndex<'a>, AllocError>
        ensures header { IfOk result (λ i. i ≡ header.entry.now) }
        ensures sound { OnOk result (IsSound header.entry.now) }
    {
        let mut sorted = channels_among(alloc, header.signals())?;
        sort_by_label(&mut sorted);
        Ok(ChannelIndex { header, sorted })
    }

    /// The channel of this label, where the header has one: it has one at most.
    pub fn channel(&self, label: &[u8]) -> Option<Channel<'a>>
        ensures named { MatchOption result (HasNoChannel self.now label.now) (λ c.
            (c.signal.now).label ≡ label.now) }
        ensures there { IfSome result (IsChannelAt self.now) }
        ensures sound { IsSound self.now }
        ensures found { option_map (λ c. c.signal.now) result ≡ channel_of label.now self.now.signals }
    {
        find_label(&self.sorted, label)
    }

    /// The signal that is the channel of this label, where the header has one.
    pub(crate) fn signal(&self, label: &[u8]) -> Option<&'a Signal>
        ensures { option_map (λ x. x.now) result ≡ channel_of label.now self.now.signals }
    {
        match self.channel(label) {
            Some(channel) => Some(channel.signal),
            None => None,
        }
    }
}
