//! What channels with as many samples have in common between two times.

ghost use Rattle.std.specs.Prelude.{◌≡◌, IfSome, IsTrue, true};
ghost use Rattle.edf_stream.specs.records.Readers.{is_current};
ghost use Rattle.edf_pace.specs.walk.Meetings.{AreMet};
ghost use Rattle.edf_pace.specs.walk.Pairs.{IsTrack};
ghost use Rattle.edf_pace.specs.walk.Windows.{AreSharesIn, HasShare};

use crate::walk::shares::{Shares, Sight, keep_shares};
use crate::walk::track::Pair;
use crate::walk::window::shown;
use edf_samples::Meeting;
use edf_stream::FileReader;

/// An original and an export that are read.
#[derive(Clone, Copy)]
pub(crate) struct Files<'a> {
    pub(crate) original: &'a FileReader,
    pub(crate) export: &'a FileReader,
}

/// Which samples stand between two times of the channels with as many samples, and how these meet. How isn't said where one file
/// shows none of them or has no such channel, or where they aren't kept.
#[derive(Clone, Copy)]
pub(crate) struct Common {
    pub(crate) shares: Shares,
    pub(crate) meeting: Option<Meeting>,
}

/// Whether both files show what stands in these shares, and a claim keeps it. Only speed rests on a no.
fn are_shown(files: Files<'_>, shares: &Shares) -> bool
    ensures kept { IsTrue result → shares.now.is_kept ≡ true }
    ensures original { IsTrue result → is_current (files.entry.original).now.status ≡ true }
    ensures export { IsTrue result → is_current (files.entry.export).now.status ≡ true }
{
    shares.is_kept && files.original.has_current() && files.export.has_current()
}

/// How the channels of a pair meet, of which these are the shares.
fn meeting_in(files: Files<'_>, pair: Pair, shares: &Shares) -> Option<Meeting>
    requires original { IfSome pair.original (IsTrack (files.original).now.head) }
    requires export { IfSome pair.export (IsTrack (files.export).now.head) }
    requires original_share { shares.now.is_kept ≡ true →
        HasShare (files.original).now pair.original shares.now.original }
    requires export_share { HasShare (files.export).now pair.export shares.now.export }
    ensures { IfSome result (AreMet (files.entry.original).now (files.entry.export).now shares.now) }
{
    if are_shown(files, shares) {
        if let (Some(here), Some(there)) = (pair.original, pair.export) {
            let x = shown(files.original, here, &shares.original);
            let y = shown(files.export, there, &shares.export);
            return Some(Meeting::of(x, y));
        }
    }
    None
}

/// Puts what the channels of a pair have in common in the place of what is held, where they have other numbers of samples, or where it
/// isn't held how they meet.
#[inline(always)]
pub(crate) fn keep_common(files: Files<'_>, pair: Pair, sight: Sight, common: &mut Common)
    requires original { IfSome pair.original (IsTrack (files.original).now.head) }
    requires export { IfSome pair.export (IsTrack (files.export).now.head) }
    requires held { AreSharesIn (files.original).now (files.export).now sight.clock sight.within
        common.old.shares }
    requires met { IfSome common.old.meeting
        (AreMet (files.original).now (files.export).now common.old.shares) }
    ensures held { AreSharesIn (files.entry.original).now (files.entry.export).now sight.clock sight.within
        common.new.shares }
    ensures kept { (common.new.shares).is_kept ≡ (common.old.shares).is_kept }
    ensures original_share { (common.new.shares).is_kept ≡ true →
        HasShare (files.entry.original).now pair.original (common.new.shares).original }
    ensures export_share { HasShare (files.entry.export).now pair.export (common.new.shares).export }
    ensures met { IfSome common.new.meeting
        (AreMet (files.entry.original).now (files.entry.export).now common.new.shares) }
{
    let Files { original, export } = files;
    let is_other = keep_shares(original, export, pair, sight, &mut common.shares);
    if is_other || common.meeting.is_none() {
        common.meeting = meeting_in(files, pair, &common.shares);
    }
}
