//! Which samples of two files stand between two times.

ghost use Rattle.std.specs.Prelude.{◌≡◌, ◌<◌, ◌≤◌, ◌+ℤ◌, ◌*ℤ◌, ◌^◌, ◌*◌, pos, true, false, length, IsTrue, Some, IfSome, unsigned_abs};
ghost use Rattle.edf_claim.specs.Keeps.{keeps_instant};
ghost use Rattle.edf_stream.specs.records.Readers.{is_current};
ghost use Rattle.edf_stream.specs.records.Records.{lane_of};
ghost use Rattle.edf_stream.specs.times.Starts.{file_start};
ghost use Rattle.edf_stream.specs.times.StartsReading.{start_in};
ghost use Rattle.edf_samples.specs.Stretches.{IsBounded};
ghost use Rattle.edf_pace.specs.walk.Windows.{AreSharesIn, HasShare, IsShareIn, first_at};
ghost use Rattle.edf_pace.specs.walk.Pairs.{IsTrack};
ghost use Rattle.edf_pace.specs.walk.Shown.{IfAtHand};

use crate::walk::clock::Clock;
use crate::walk::offset::Offset;
use crate::walk::track::{Pair, Track};
use edf_claim::Claim;
use edf_samples::{Share, Stretch, Time, Window, share_of, share_of_none};
use edf_stream::{FileReader, file_start_ps};

/// A number of picoseconds in units of 1 / `den` picoseconds.
fn scaled(ps: i128, den: u32) -> i128
    requires ps { unsigned_abs ps < 2 ^ 80 }
    requires den { den ≤ 2 ^ 23 }
    ensures value { result ≡ pos den *ℤ ps }
    ensures small { unsigned_abs result < 2 ^ 103 }
{
    i128::from(den) * ps
}

/// The same of fewer picoseconds.
fn scaled_start(ps: i128, den: u32) -> i128
    requires ps { unsigned_abs ps < 2 ^ 79 }
    requires den { den ≤ 2 ^ 23 }
    ensures value { result ≡ pos den *ℤ ps }
    ensures small { unsigned_abs result < 2 ^ 102 }
{
    i128::from(den) * ps
}

/// Where the data record at hand starts, in picoseconds after 1970-01-01 00:00:00.
fn record_start(reader: &FileReader) -> i128
    requires { IsTrue (is_current reader.now.status) }
    ensures value { result ≡ file_start reader.now.head +ℤ start_in reader.now.head reader.now.current }
    ensures small { unsigned_abs result < 2 ^ 79 }
{
    file_start_ps(reader.header()) + reader.start_ps()
}

/// The numerator of the first sample of a channel in the data record at hand, moved.
fn first_num(reader: &FileReader, samples: u32, moved: Offset) -> i128
    requires current { IsTrue (is_current reader.now.status) }
    requires samples { samples ≤ 2 ^ 23 }
    ensures value { result ≡ first_at reader.now moved.ps samples }
    ensures small { unsigned_abs result < 3 * 2 ^ 102 }
{
    scaled_start(record_start(reader), samples) + scaled(moved.ps, samples)
}

/// The lane of a channel in the data record at hand.
#[tactic(auto, using(crate::proofs::walk::TrackFacts::track_within, crate::proofs::walk::TrackFacts::lane_is, crate::proofs::walk::TrackFacts::lane_whole))]
pub(crate) fn lane_at<'a>(reader: &'a FileReader, track: Track) -> &'a [u8]
    requires current { IsTrue (is_current reader.now.status) }
    requires track { IsTrack reader.now.head track }
    ensures value { (t : IsTrack reader.now.head track) →
        result.now ≡ lane_of (t.place).channel reader.now.current }
    ensures whole { length result.now ≡ 2 * track.place.samples }
{
    reader.run(usize::from(track.signal))
}

/// The samples of a channel in the data record at hand.
fn lane_stretch<'a>(reader: &'a FileReader, track: Track, moved: Offset) -> Stretch<'a>
    requires current { IsTrue (is_current reader.now.status) }
    requires track { IsTrack reader.now.head track }
    ensures lane { IsBounded result }
    ensures whole { length result.bytes.now ≡ 2 * result.den }
    ensures den { result.den ≡ track.place.samples }
    ensures num { result.num ≡ first_at reader.now moved.ps track.place.samples }
    ensures step { result.step ≡ (reader.now.head).duration }
{
    let samples = track.place.samples;
    Stretch {
        num: first_num(reader, samples, moved),
        step: reader.header().duration_ps(),
        den: samples,
        bytes: lane_at(reader, track),
    }
}

/// Which samples of the lanes with as many samples as a channel's stand between two times in the data record at
/// hand.
fn share_at(reader: &FileReader, track: Track, moved: Offset, within: Window) -> Share
    requires current { IsTrue (is_current reader.now.status) }
    requires track { IsTrack reader.now.head track }
    ensures samples { result.samples ≡ track.place.samples }
    ensures share { IsShareIn reader.now moved.ps within result }
{
    share_of(lane_stretch(reader, track, moved), within)
}

/// By how much a file is moved, and between which times one looks at it.
#[derive(Clone, Copy)]
struct Look {
    moved: Offset,
    within: Window,
}

/// Puts the same in the place of `held`, where it is wanted and the channel has another number of samples than the
/// lanes of that; where it answers no, it didn't. Where there is no such channel, or no data record at hand, what is held stays.
#[inline(always)]
fn keep_share(
    reader: &FileReader,
    track: Option<Track>,
    look: Look,
    is_wanted: bool,
    held: &mut Share,
) -> bool
    requires track { IfSome track (IsTrack reader.now.head) }
    requires held { IsShareIn reader.now (look.moved).ps look.within held.old }
    ensures samples { is_wanted ≡ true →
        IfSome track (λ t. IfAtHand reader.now (held.new.samples ≡ t.place.samples)) }
    ensures share { IsShareIn reader.now (look.moved).ps look.within held.new }
    ensures same { result ≡ false → held.new ≡ held.old }
{
    if let Some(track) = track {
        if is_wanted && held.samples != track.place.samples && reader.has_current() {
            *held = share_at(reader, track, look.moved, look.within);
            return true;
        }
    }
    false
}

/// Whether a claim keeps what stands at a time.
pub(crate) fn keeps_at(claim: &Claim, time: Time) -> bool
    ensures { result ≡ keeps_instant claim.now time.ps 1 }
{
    claim.keeps_instant(time.ps, 1)
}

/// Which samples of a pair's channels stand between two times, and whether the claim keeps them.
#[derive(Clone, Copy)]
pub(crate) struct Shares {
    pub(crate) original: Share,
    pub(crate) export: Share,
    pub(crate) is_kept: bool,
}

/// None yet, under a claim that keeps what stands between these times, or doesn't.
pub(crate) fn no_shares(claim: &Claim, within: Window) -> Shares
    ensures kept { result.is_kept ≡ keeps_instant claim.now (within.from).ps 1 }
    ensures original { (result.original).samples ≡ 0 }
    ensures export { (result.export).samples ≡ 0 }
{
    Shares {
        original: share_of_none(),
        export: share_of_none(),
        is_kept: keeps_at(claim, within.from),
    }
}

/// By how much two files are moved, and between which times one looks at them.
#[derive(Clone, Copy)]
pub(crate) struct Sight {
    pub(crate) clock: Clock,
    pub(crate) within: Window,
}

/// Puts those of a pair in the place of what is held, where its channels have other numbers of samples than the lanes of
/// that: of the original only where the claim keeps what stands there. Where it answers no, what is held is as it was.
#[inline(always)]
pub(crate) fn keep_shares(
    original: &FileReader,
    export: &FileReader,
    pair: Pair,
    sight: Sight,
    shares: &mut Shares,
) -> bool
    requires original { IfSome pair.original (IsTrack original.now.head) }
    requires export { IfSome pair.export (IsTrack export.now.head) }
    requires held { AreSharesIn original.now export.now sight.clock sight.within shares.old }
    ensures held { AreSharesIn original.now export.now sight.clock sight.within shares.new }
    ensures kept { shares.new.is_kept ≡ shares.old.is_kept }
    ensures original_share { shares.new.is_kept ≡ true →
        HasShare original.now pair.original shares.new.original }
    ensures export_share { HasShare export.now pair.export shares.new.export }
    ensures same { result ≡ false → shares.new ≡ shares.old }
{
    let Sight { clock, within } = sight;
    let here = Look {
        moved: clock.original,
        within,
    };
    let there = Look {
        moved: clock.export,
        within,
    };
    let has_original = keep_share(
        original,
        pair.original,
        here,
        shares.is_kept,
        &mut shares.original,
    );
    let has_export = keep_share(export, pair.export, there, true, &mut shares.export);
    has_original || has_export
}
