//! What two files show between two times.

ghost use Rattle.std.specs.Prelude.{◌≡◌, ◌<◌, length, true, IfSome, IsTrue};
ghost use Rattle.edf_claim.specs.Keeps.{keeps_instant};
ghost use Rattle.edf_claim.specs.KeepsReading.{IsUncut};
ghost use Rattle.edf_stream.specs.records.Readers.{is_current};
ghost use Rattle.edf_samples.specs.InstantOrder.{IsModest};
ghost use Rattle.edf_samples.specs.Shares.{IsCutBy};
ghost use Rattle.edf_samples.specs.Stretches.{points_in, IsPart};
ghost use Rattle.edf_pace.specs.walk.Windows.{AreKeptOf, AreShown, IsDifferenceBy, IsPairIn, HasShare};
ghost use Rattle.edf_pace.specs.walk.Pairs.{AreAlikeIn, ArePairs, IsTrack};

use crate::walk::frame::Frame;
use crate::walk::layout::are_alike;
use crate::walk::shares::{Shares, Sight, keep_shares, keeps_at, lane_at, no_shares};
use crate::walk::track::{Pair, Track};
use edf_samples::{
    Found, PointDifference, Share, Stretch, Window, keep_earlier, no_samples, part_by,
    stretch_difference,
};
use edf_stream::FileReader;

/// The samples of a channel in the data record at hand, between two times: those of its share.
pub(crate) fn shown<'a>(reader: &'a FileReader, track: Track, share: &Share) -> Stretch<'a>
    requires current { IsTrue (is_current reader.now.status) }
    requires track { IsTrack reader.now.head track }
    requires share { share.now.samples ≡ track.place.samples }
    ensures part { IsPart result }
    ensures den { result.den ≡ track.place.samples }
    ensures value { AreShown reader.now share.now track.place (points_in result) }
    ensures cut { IsCutBy share.now (reader.now.head).duration result }
{
    part_by(lane_at(reader, track), reader.header().duration_ps(), share)
}

/// The samples of a channel between two times.
pub(crate) fn window<'a>(reader: &'a FileReader, track: Track, share: &Share) -> Stretch<'a>
    requires track { IsTrack reader.now.head track }
    requires share { is_current reader.now.status ≡ true → share.now.samples ≡ track.place.samples }
    ensures part { IsPart result }
    ensures den { result.den ≡ track.place.samples }
    ensures value { AreShown reader.now share.now track.place (points_in result) }
{
    if reader.has_current() {
        shown(reader, track, share)
    } else {
        no_samples(track.place.samples)
    }
}

/// Those of them that a claim keeps, where it keeps all of them or none.
pub(crate) fn kept_window<'a>(
    reader: &'a FileReader,
    track: Track,
    share: &Share,
    is_kept: bool,
) -> Stretch<'a>
    requires track { IsTrack reader.now.head track }
    requires share { is_kept ≡ true → is_current reader.now.status ≡ true →
        share.now.samples ≡ track.place.samples }
    ensures part { IsPart result }
    ensures den { result.den ≡ track.place.samples }
    ensures value { AreKeptOf reader.now share.now is_kept track.place (points_in result) }
{
    if is_kept {
        window(reader, track, share)
    } else {
        no_samples(track.place.samples)
    }
}

/// The first difference of the channels of a label between two times; none where one of the files has no
/// such channel.
fn pair_difference(
    original: &FileReader,
    export: &FileReader,
    pair: Pair,
    shares: &Shares,
) -> Option<PointDifference>
    requires original { IfSome pair.original (IsTrack original.now.head) }
    requires export { IfSome pair.export (IsTrack export.now.head) }
    requires original_share { shares.now.is_kept ≡ true →
        HasShare original.now pair.original shares.now.original }
    requires export_share { HasShare export.now pair.export shares.now.export }
    ensures value { IsPairIn original.now export.now shares.now pair result }
    ensures modest { IfSome result (λ d. IsModest d.at) }
{
    match (pair.original, pair.export) {
        (Some(here), Some(there)) => stretch_difference(
            kept_window(original, here, &shares.original, shares.is_kept),
            window(export, there, &shares.export),
        ),
        (Some(_), None) => None,
        (None, _) => None,
    }
}

/// The earliest difference of the channels between two times.
///
/// Which samples stand between these is found once for channels with equally many samples, as long as they
/// follow one another; of the original only where the claim keeps what stands there.
#[tactic(auto, unfolding(crate::specs::walk::Windows::window_difference))]
pub(crate) fn window_difference(
    original: &FileReader,
    export: &FileReader,
    frame: Frame<'_>,
    within: Window,
) -> Option<Found>
    requires pairs { ArePairs original.now.head export.now.head (frame.pairs).now }
    requires uncut { IsUncut ((frame.turn).setting.claim).now.keep (within.from).ps (within.to).ps }
    ensures value { IsDifferenceBy frame.entry original.now export.now within result }
    ensures modest { IfSome result (λ f. IsModest f.difference.at ×
        (f.channel < length (frame.entry.pairs).now)) }
{
    let sight = Sight {
        clock: frame.turn.setting.clock,
        within,
    };
    let pairs = frame.pairs;
    let mut shares = no_shares(frame.turn.setting.claim, within);
    let mut held = None;
    let mut i = pairs.len();
    while i > 0 {
        i -= 1;
        let pair = pairs[i];
        keep_shares(original, export, pair, sight, &mut shares);
        let next = pair_difference(original, export, pair, &shares);
        keep_earlier(i, next, &mut held);
    }
    held
}

/// Whether the data records at hand show the same, all of which is kept. It may say no where one of them
/// reaches beyond the two times.
pub(crate) fn shows_the_same(
    original: &FileReader,
    export: &FileReader,
    frame: Frame<'_>,
    within: Window,
) -> bool
    ensures kept { IsTrue result → keeps_instant ((frame.entry.turn).setting.claim).now (within.from).ps 1 ≡
        true }
    ensures alike { IsTrue result → AreAlikeIn frame.entry original.now export.now }
{
    let setting = frame.turn.setting;
    match frame.room {
        Some(room) => {
            keeps_at(setting.claim, within.from)
                && are_alike(original, export, room, setting.clock, within)
        }
        None => false,
    }
}
