//! Where the channels of a label stand in two files.

ghost use Rattle.std.specs.Prelude.{◌≡◌, IfOk, IfSome, map, option_map};
ghost use Rattle.edf_pace.specs.walk.Columns.{channel_at as channel_in};
ghost use Rattle.edf_pace.specs.walk.Pairs.{places_in, ArePairs, IsTrack, places_of};

use crate::walk::channel_place::ChannelPlace;
use edf_header::Header;
use edf_heads::{Channel, ChannelIndex};
use std::alloc::{AllocError, Global};
use std::mem::size_of;

/// A channel of a file: which of the signals it is, and which of the channels.
#[derive(Clone, Copy)]
pub struct Track {
    pub signal: u16,
    pub place: ChannelPlace,
}

/// The channels of a label in the original and in the export, where they have such.
#[derive(Clone, Copy)]
pub struct Pair {
    pub original: Option<Track>,
    pub export: Option<Track>,
}

// A check holds a pair for each claimed channel, of which there are up to 9,998.
const _: () = prove!(size_of::<Pair>() == 32);

impl Track {
    /// Where a channel stands.
    fn of(channel: Channel<'_>) -> Track
        ensures { result ≡ record {
          signal = (channel.entry).at;
          place =
              record { number = (channel.entry).number; samples = ((channel.entry).signal.now).samples };
        } }
    {
        Track {
            signal: channel.at,
            place: ChannelPlace {
                number: channel.number,
                samples: channel.signal.samples(),
            },
        }
    }
}

/// Where the channel of this label stands, where the header has one.
fn track_of(index: &ChannelIndex<'_>, label: &[u8]) -> Option<Track>
    ensures place { option_map (λ track. track.place) result ≡ channel_in label.now index.now }
    ensures track { IfSome result (IsTrack index.now) }
{
    match index.channel(label) {
        Some(channel) => Some(Track::of(channel)),
        None => None,
    }
}

/// The channels of a label in two files.
fn pair_of(originals: &ChannelIndex<'_>, exports: &ChannelIndex<'_>, label: &[u8]) -> Pair
    ensures places { places_of result ≡
        (channel_in label.now originals.now, channel_in label.now exports.now) }
    ensures original { IfSome result.original (IsTrack originals.now) }
    ensures export { IfSome result.export (IsTrack exports.now) }
{
    Pair {
        original: track_of(originals, label),
        export: track_of(exports, label),
    }
}

/// The channels of each of these labels in two files.
///
/// The error is want of memory.
fn pairs_among(
    alloc: Global,
    originals: &ChannelIndex<'_>,
    exports: &ChannelIndex<'_>,
    labels: &[&[u8]],
) -> Result<Vec<Pair>, AllocError>
    ensures places { IfOk result (λ pairs. map places_of pairs.items ≡
        places_in originals.now exports.now labels.now) }
    ensures pairs { IfOk result (λ pairs. ArePairs originals.now exports.now pairs.items) }
{
    let mut pairs = Vec::with_capacity(alloc, labels.len())?;
    for label in labels {
        pairs.push(pair_of(originals, exports, label))?;
    }
    Ok(pairs)
}

/// The channels of each of these labels in two files.
///
/// The error is want of memory.
pub fn pairs_of(
    alloc: Global,
    original: &Header,
    export: &Header,
    labels: &[&[u8]],
) -> Result<Vec<Pair>, AllocError>
    ensures places { IfOk result (λ pairs. map places_of pairs.items ≡
        places_in original.now export.now labels.now) }
    ensures pairs { IfOk result (λ pairs. ArePairs original.now export.now pairs.items) }
{
    let originals = ChannelIndex::new(alloc, original)?;
    let exports = ChannelIndex::new(alloc, export)?;
    let pairs = pairs_among(alloc, &originals, &exports, labels)?;
    Ok(pairs)
}
