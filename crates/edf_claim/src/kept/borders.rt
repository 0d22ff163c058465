//! Where kept intervals begin and end.

ghost use Rattle.std.specs.Prelude.{◌≡◌, ◌⊎◌, ◌≤◌, ◌<◌, ◌≤ℤ◌, ◌<ℤ◌, int_le, length, true, false};
ghost use Rattle.std.specs.List.Sorted.{IsPartitionPoint};
ghost use Rattle.edf_claim.specs.KeepsReading.{AreKept, IsOutside, IsUncut, HasBorder};

use crate::kept::claim::Claim;
use crate::kept::interval::Interval;

/// A time, in picoseconds after the second at which the original starts.
#[derive(Clone, Copy)]
struct Moment {
    ps: i128,
}

/// `at` where it lies between two times, else the later one of these.
fn cut_at(at: Moment, from: Moment, to: Moment) -> Moment
    requires { from.ps <ℤ to.ps }
    ensures later { from.ps <ℤ result.ps }
    ensures within { result.ps ≤ℤ to.ps }
    ensures outside { IsOutside from.ps result.ps at.ps }
    ensures one { (result ≡ to) ⊎ (result ≡ at) }
{
    if at.ps <= from.ps || to.ps <= at.ps {
        to
    } else {
        at
    }
}

/// The first time behind `from` at which the interval begins or ends, or `to`, where that is earlier.
#[tactic(auto, using(crate::proofs::BorderFacts::outside_earlier))]
fn cut_by(interval: Interval, from: Moment, to: Moment) -> Moment
    requires { from.ps <ℤ to.ps }
    ensures later { from.ps <ℤ result.ps }
    ensures within { result.ps ≤ℤ to.ps }
    ensures begin { IsOutside from.ps result.ps interval.from_ps }
    ensures end { IsOutside from.ps result.ps interval.to_ps }
    ensures one { (result.ps ≡ to.ps) ⊎ (result.ps ≡ interval.from_ps) ⊎ (result.ps ≡ interval.to_ps) }
{
    let begin = Moment {
        ps: interval.from_ps,
    };
    let end = Moment { ps: interval.to_ps };
    cut_at(end, from, cut_at(begin, from, to))
}

/// How many of the intervals, from the first on, end at a time or before.
fn ended_count(intervals: &[Interval], time: Moment) -> usize
    requires kept { AreKept intervals.now }
    ensures within { result ≤ length intervals.now }
    ensures point { IsPartitionPoint (λ i. int_le i.to_ps time.ps ≡ true) (λ i.
        int_le i.to_ps time.ps ≡ false) intervals.now result }
{
    intervals.partition_point(
        |interval: &Interval| -> bool
            ensures { result ≡ int_le interval.now.to_ps time.ps }
        { interval.to_ps <= time.ps },
    )
}

/// The same of several intervals: of those that end behind `from`, the first is the one that counts.
#[tactic(auto, using(crate::proofs::BorderFacts::uncut_nowhere))]
fn cut_by_all(intervals: &[Interval], from: Moment, to: Moment) -> Moment
    requires kept { AreKept intervals.now }
    requires order { from.ps <ℤ to.ps }
    ensures later { from.ps <ℤ result.ps }
    ensures within { result.ps ≤ℤ to.ps }
    ensures uncut { IsUncut intervals.now from.ps result.ps }
    ensures border { (result.ps ≡ to.ps) ⊎ HasBorder intervals.now result.ps }
{
    let place = ended_count(intervals, from);
    if place < intervals.len() {
        cut_by(intervals[place], from, to)
    } else {
        to
    }
}

impl Claim {
    /// The first time behind `from_ps` at which a kept interval begins or ends, or `to_ps`, where that is
    /// earlier. No interval begins or ends before it, and so the claim keeps all or nothing between the two.
    /// Times are picoseconds after the second at which the original starts.
    pub fn border_behind(&self, from_ps: i128, to_ps: i128) -> i128
        requires { from_ps <ℤ to_ps }
        ensures later { from_ps <ℤ result }
        ensures within { result ≤ℤ to_ps }
        ensures uncut { IsUncut self.now.keep from_ps result }
        ensures border { (result ≡ to_ps) ⊎ HasBorder self.now.keep result }
    {
        let from = Moment { ps: from_ps };
        let to = Moment { ps: to_ps };
        cut_by_all(&self.keep, from, to).ps
    }
}
