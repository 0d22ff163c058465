//! The watcher that counts: of each channel how many samples differ, and in which data records the first and the last of each kind lie.

ghost use Rattle.std.specs.Prelude.{◌≡◌, ℤ, [], IfOk, IfSome, Some, false, length, true};
ghost use Rattle.edf_claim.specs.KeepsReading.{IsUncut};
ghost use Rattle.edf_pace.specs.walk.Counting.{AreCounted, IsPairCounted, counts_between};
ghost use Rattle.edf_pace.specs.walk.Meetings.{AreMet};
ghost use Rattle.edf_pace.specs.walk.Watching.{TwoFiles};
ghost use Rattle.edf_pace.specs.walk.Pairs.{ArePairs, IsTrack};
ghost use Rattle.edf_pace.specs.walk.Windows.{HasShare};

use crate::walk::frame::Frame;
use crate::walk::shares::{Shares, Sight, no_shares};
use crate::walk::track::{Pair, Track};
use crate::walk::watchers::at_hand::Hands;
use crate::walk::watchers::common::{Common, Files, keep_common};
use crate::walk::watchers::found_in::ChannelCount;
use crate::walk::watchers::watcher::Watcher;
use crate::walk::window::{kept_window, shown, shows_the_same, window};
use edf_samples::{Meeting, Tally, Window, count_differences};
use edf_stream::FileReader;
use std::alloc::{AllocError, Global};

/// Counts the differences of two channels between two times of which it isn't held how they meet. It has a frame of its own, as
/// what is found out here takes room.
#[inline(never)]
fn count_unmet(files: Files<'_>, tracks: (Track, Track), shares: &Shares, tally: &mut Tally)
    requires original { IsTrack (files.original).now.head tracks.0 }
    requires export { IsTrack (files.export).now.head tracks.1 }
    requires original_share { shares.now.is_kept ≡ true →
        HasShare (files.original).now (Some tracks.0) shares.now.original }
    requires export_share { HasShare (files.export).now (Some tracks.1) shares.now.export }
    ensures { IsPairCounted (files.entry.original).now (files.entry.export).now shares.now (record {
      original = Some tracks.0;
      export = Some tracks.1;
    }) tally.old tally.new }
{
    let (here, there) = tracks;
    let x = kept_window(files.original, here, &shares.original, shares.is_kept);
    let y = window(files.export, there, &shares.export);
    count_differences(x, y, &Meeting::of(x, y), tally);
}

/// Counts the differences of two channels between two times.
fn count_tracks(files: Files<'_>, tracks: (Track, Track), common: &Common, tally: &mut Tally)
    requires original { IsTrack (files.original).now.head tracks.0 }
    requires export { IsTrack (files.export).now.head tracks.1 }
    requires original_share { (common.now.shares).is_kept ≡ true →
        HasShare (files.original).now (Some tracks.0) (common.now.shares).original }
    requires export_share { HasShare (files.export).now (Some tracks.1) (common.now.shares).export }
    requires met { IfSome common.now.meeting
        (AreMet (files.original).now (files.export).now common.now.shares) }
    ensures { IsPairCounted (files.entry.original).now (files.entry.export).now common.now.shares (record {
      original = Some tracks.0;
      export = Some tracks.1;
    }) tally.old tally.new }
{
    let Files { original, export } = files;
    let (here, there) = tracks;
    let shares = &common.shares;
    match &common.meeting {
        Some(meeting) => {
            let x = shown(original, here, &shares.original);
            let y = shown(export, there, &shares.export);
            count_differences(x, y, meeting, tally);
        }
        // the pair is made here, so that the arm above stores none
        None => count_unmet(files, (here, there), shares, tally),
    }
}

/// Counts the differences of the channels of a label between two times; none where one of the files has no such channel.
fn count_pair(files: Files<'_>, pair: Pair, common: &Common, tally: &mut Tally)
    requires original { IfSome pair.original (IsTrack (files.original).now.head) }
    requires export { IfSome pair.export (IsTrack (files.export).now.head) }
    requires original_share { (common.now.shares).is_kept ≡ true →
        HasShare (files.original).now pair.original (common.now.shares).original }
    requires export_share { HasShare (files.export).now pair.export (common.now.shares).export }
    requires met { IfSome common.now.meeting
        (AreMet (files.original).now (files.export).now common.now.shares) }
    ensures { IsPairCounted (files.entry.original).now (files.entry.export).now common.now.shares pair
        tally.old tally.new }
{
    match (pair.original, pair.export) {
        (Some(here), Some(there)) => count_tracks(files, (here, there), common, tally),
        (Some(_), None) => {}
        (None, _) => {}
    }
}

/// Counts the differences of the channels of a frame between two times, and notes where the first and the last of each kind lie.
fn count_window(
    original: &FileReader,
    export: &FileReader,
    frame: Frame<'_>,
    within: Window,
    counts: &mut [ChannelCount],
)
    requires pairs { ArePairs original.now.head export.now.head (frame.pairs).now }
    requires uncut { IsUncut ((frame.turn).setting.claim).now.keep (within.from).ps (within.to).ps }
    requires each { length counts.old ≡ length (frame.pairs).now }
    ensures each { length counts.new ≡ length counts.old }
    ensures value { AreCounted original.now export.now frame.entry within counts.old counts.new }
{
    let sight = Sight {
        clock: frame.turn.setting.clock,
        within,
    };
    let hands = Hands::of(original, export, sight.clock);
    let files = Files { original, export };
    let mut common = Common {
        shares: no_shares(frame.turn.setting.claim, within),
        meeting: None,
    };
    let mut i = frame.pairs.len();
    while i > 0 {
        i -= 1;
        let pair = frame.pairs[i];
        keep_common(files, pair, sight, &mut common);
        let count = &mut counts[i];
        count_pair(files, pair, &common, &mut count.tally);
        count.note(&hands, within.from);
    }
}

/// Counts the differences of each channel of a frame, to the end of what is compared, and notes where the first and the
/// last of each kind lie.
#[derive(Drop)]
pub struct Counts {
    pub channels: Vec<ChannelCount>,
}

impl Counts {
    /// Nothing was seen yet of the channels of this frame.
    ///
    /// The error is want of memory.
    pub fn new(alloc: Global, frame: Frame<'_>) -> Result<Counts, AllocError>
        ensures each { IfOk result (λ w. length w.channels.items ≡ length (frame.entry.pairs).now) }
        ensures none { IfOk result (λ w. (files : TwoFiles) (t : ℤ) →
            w.channels.items ≡ counts_between frame.entry files t t) }
    {
        let mut channels = Vec::with_capacity(alloc, frame.pairs.len())?;
        for _ in frame.pairs {
            channels.push(ChannelCount::none())?;
        }
        Ok(Counts { channels })
    }
}

impl Watcher for Counts {
    ghost fits = { λ w frame. length w.channels.items ≡ length (frame.pairs).now };

    ghost has_enough = { λ w. false };

    ghost lender = { λ w. 0 };

    ghost keeps = { λ w. record { looks = false; counted = [] } };

    ghost holds = { λ w frame files t u. w.channels.items ≡ counts_between frame files t u };

    fn has_enough(&self) -> bool {
        false
    }

    fn see(
        &mut self,
        original: &FileReader,
        export: &FileReader,
        frame: Frame<'_>,
        within: Window,
    ) {
        if shows_the_same(original, export, frame, within) {
            return;
        }
        count_window(original, export, frame, within, &mut self.channels);
    }
}
