//! How many samples of two stretches differ.

ghost use Rattle.std.specs.Prelude.{◌≡◌, ◌≤◌, ◌+◌, ◌*◌, ◌⊎◌, length};
ghost use Rattle.edf_samples.specs.Meetings.{IsMeeting};
ghost use Rattle.edf_samples.specs.Stretches.{IsPart};
ghost use Rattle.edf_samples.specs.Tallies.{all_of, each_is, joined, lacks_first, lacks_second, tally_of, with_rest};

use crate::counts::alone::alone_behind;
use crate::counts::front::count_front;
use crate::counts::head::{difference_at, head_at, head_behind};
use crate::counts::meeting::Meeting;
use crate::counts::tally::Tally;
use crate::difference::PointDifference;
use crate::stretch::{Stretch, count_in};
use edf_verdict::SampleMismatch;

/// Whether the sample of the first file has no partner, as a difference says.
fn is_missing(found: Option<PointDifference>) -> bool
    ensures { result ≡ lacks_second found }
{
    matches!(
        found,
        Some(PointDifference {
            mismatch: SampleMismatch::Missing,
            ..
        })
    )
}

/// Whether the sample of the second file has none.
fn is_extra(found: Option<PointDifference>) -> bool
    ensures { result ≡ lacks_first found }
{
    matches!(
        found,
        Some(PointDifference {
            mismatch: SampleMismatch::Extra,
            ..
        })
    )
}

/// Counts the differences of two stretches behind so many samples of each, up to where one of them has no more, and answers how
/// many of each were passed.
#[inline(always)]
fn count_both(
    x: Stretch,
    x_from: usize,
    y: Stretch,
    y_from: usize,
    tally: &mut Tally,
) -> (usize, usize)
    requires x { IsPart x }
    requires x_from { 2 * x_from ≤ length x.bytes.now }
    requires y { IsPart y }
    requires y_from { 2 * y_from ≤ length y.bytes.now }
    ensures x_within { 2 * result.0 ≤ length x.entry.bytes.now }
    ensures y_within { 2 * result.1 ≤ length y.entry.bytes.now }
    ensures over { (length x.entry.bytes.now ≤ 2 * result.0 + 1) ⊎
        (length y.entry.bytes.now ≤ 2 * result.1 + 1) }
    ensures value { with_rest tally.new x.entry result.0 y.entry result.1 ≡
        with_rest tally.old x.entry x_from y.entry y_from }
{
    let x_count = count_in(x.bytes);
    let y_count = count_in(y.bytes);
    if x_from >= x_count || y_from >= y_count {
        return (x_from, y_from);
    }
    let mut here = head_at(x, x_from, y.den);
    let mut there = head_at(y, y_from, x.den);
    while here.place < x_count && there.place < y_count {
        let found = difference_at(x, here, y, there);
        match found {
            Some(difference) => tally.add_one(difference),
            None => {}
        }
        here = head_behind(x, y.den, here, !is_extra(found));
        there = head_behind(y, x.den, there, !is_missing(found));
    }
    (here.place, there.place)
}

/// Counts what is left of the first stretch behind a place, which it has alone.
fn count_missing(x: Stretch, from: usize, tally: &mut Tally)
    requires x { IsPart x }
    requires from { 2 * from ≤ length x.bytes.now }
    ensures { tally.new ≡ joined tally.old (tally_of (each_is SampleMismatch.Missing x.entry from)) }
{
    if from < count_in(x.bytes) {
        tally.add_missing(alone_behind(x, from, SampleMismatch::Missing));
    }
}

/// Counts what is left of the second one.
fn count_extra(y: Stretch, from: usize, tally: &mut Tally)
    requires y { IsPart y }
    requires from { 2 * from ≤ length y.bytes.now }
    ensures { tally.new ≡ joined tally.old (tally_of (each_is SampleMismatch.Extra y.entry from)) }
{
    if from < count_in(y.bytes) {
        tally.add_extra(alone_behind(y, from, SampleMismatch::Extra));
    }
}

/// Counts all differences of two stretches of one channel that meet so.
#[inline(always)]
pub fn count_differences(x: Stretch, y: Stretch, meeting: &Meeting, tally: &mut Tally)
    requires x { IsPart x }
    requires y { IsPart y }
    requires meeting { IsMeeting x y meeting.now }
    ensures { tally.new ≡ joined tally.old (tally_of (all_of x.entry y.entry)) }
{
    let (x_from, y_from) = count_front(x, y, meeting, tally);
    let (i, j) = count_both(x, x_from, y, y_from, tally);
    count_missing(x, i, tally);
    count_extra(y, j, tally);
}
