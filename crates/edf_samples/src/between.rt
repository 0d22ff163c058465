//! The samples of a lane that stand between two times.

ghost use Rattle.std.specs.Prelude.{◌≡◌, ◌≤◌, ◌<◌, ◌*◌, ◌^◌, length, unsigned_abs};
ghost use Rattle.edf_samples.specs.declared.times.Window.{Window};
ghost use Rattle.edf_samples.specs.Shares.{IsCutBy, IsPartBy, IsShareOf};
ghost use Rattle.edf_samples.specs.Stretches.{points_in, IsBounded, IsPart, stretch_points, since, until};

use crate::share::Share;
use crate::stretch::{Stretch, count_before};
use crate::times::Window;
use edf_stream::num_at;

/// That of lanes without samples.
pub fn share_of_none() -> Share
    ensures { result.samples ≡ 0 }
{
    Share {
        samples: 0,
        num: 0,
        begin: 0,
        end: 0,
    }
}

/// Which samples of a lane stand between two times, and so of each lane that has as many samples.
pub fn share_of(lane: Stretch, within: Window) -> Share
    requires lane { IsBounded lane }
    requires whole { length lane.bytes.now ≡ 2 * lane.den }
    ensures samples { result.samples ≡ lane.entry.den }
    ensures share { IsShareOf lane.entry.num lane.entry.step within result }
{
    let begin = count_before(lane, within.from);
    let end = count_before(lane, within.to);
    Share {
        samples: lane.den,
        num: num_at(lane.num, lane.step, begin),
        begin,
        end: end.max(begin),
    }
}

/// Those samples of a lane.
pub fn part_by<'a>(lane: &'a [u8], step: i128, share: &Share) -> Stretch<'a>
    requires lane { length lane.now ≡ 2 * share.now.samples }
    requires some { 0 < share.now.samples }
    requires few { share.now.samples ≤ 2 ^ 23 }
    requires step { unsigned_abs step < 2 ^ 68 }
    ensures part { IsPart result }
    ensures den { result.den ≡ share.now.samples }
    ensures value { IsPartBy share.now step lane.entry.now (points_in result) }
    ensures cut { IsCutBy share.now step result }
{
    Stretch {
        num: share.num,
        step,
        den: share.samples,
        bytes: &lane[2 * share.begin..2 * share.end],
    }
}
