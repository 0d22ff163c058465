//! The sample at which a merge of two stretches stands in one of them.

ghost use Rattle.std.specs.Prelude.{◌≡◌, ◌<◌, ◌≤◌, ◌+◌, ◌*◌, ◌^◌, ◌+ℤ◌, unsigned_abs, if◌then◌else◌, None, Some, length};
ghost use Rattle.std.specs.Int.{from_bool};
ghost use Rattle.std.specs.Ordering.{int_eq};
ghost use Rattle.edf_stream.specs.samples.Values.{digital_value};
ghost use Rattle.edf_samples.specs.Differences.{heads};
ghost use Rattle.edf_samples.specs.Stretches.{IsHead, IsPart, sample_at};
ghost use Rattle.edf_samples.specs.Tallies.{change};

use crate::counts::alone::alone_at;
use crate::counts::front::change_at;
use crate::difference::PointDifference;
use crate::instants::product;
use crate::stretch::{Stretch, instant_at};
use edf_stream::value_at;
use edf_verdict::SampleMismatch;

/// A sample of a stretch: its place, its instant, and how far the next one stands behind it, both times the denominators of two
/// stretches. So two samples are compared without a product.
#[derive(Clone, Copy)]
pub(crate) struct Head {
    pub(crate) place: usize,
    pub(crate) time: i128,
    pub(crate) step: i128,
}

/// The sample at a place of a stretch, beside another with this denominator.
pub(crate) fn head_at(x: Stretch, place: usize, den: u32) -> Head
    requires x { IsPart x }
    requires place { place ≤ 2 ^ 23 }
    requires den { den ≤ 2 ^ 23 }
    ensures place { result.place ≡ place }
    ensures value { IsHead x.entry den result }
{
    Head {
        place,
        time: product(instant_at(x, place).num, den),
        step: product(x.step, den),
    }
}

/// The next sample.
fn next_head(head: Head) -> Head
    requires place { head.place < 2 ^ 23 }
    requires time { unsigned_abs (head.time +ℤ head.step) < 2 ^ 127 }
    ensures place { result.place ≡ head.place + 1 }
    ensures time { result.time ≡ head.time +ℤ head.step }
    ensures step { result.step ≡ head.step }
{
    Head {
        place: head.place + 1,
        time: head.time + head.step,
        step: head.step,
    }
}

/// The next sample, if this one is passed.
#[tactic(auto, using(crate::proofs::rates::HeadFacts::next_small, crate::proofs::rates::HeadFacts::next_is))]
pub(crate) fn head_behind(x: Stretch, den: u32, head: Head, is_passed: bool) -> Head
    requires x { IsPart x }
    requires place { head.place < 2 ^ 23 }
    requires den { den ≤ 2 ^ 23 }
    requires head { IsHead x den head }
    ensures place { result.place ≡ head.place + from_bool is_passed }
    ensures value { IsHead x.entry den result }
{
    if is_passed { next_head(head) } else { head }
}

/// The difference of two samples at one instant.
fn change_of(x: Stretch, here: usize, y: Stretch, there: usize) -> Option<PointDifference>
    requires x { IsPart x }
    requires here { 2 * here + 1 < length x.bytes.now }
    requires there { 2 * there + 1 < length y.bytes.now }
    ensures { result ≡
        if int_eq (digital_value x.entry.bytes.now here) (digital_value y.entry.bytes.now there)
        then None else Some (change x.entry here y.entry there) }
{
    if value_at(x.bytes, here) == value_at(y.bytes, there) {
        None
    } else {
        Some(change_at(x, here, y, there))
    }
}

/// The difference of two samples, each the first that is left of its stretch.
#[tactic(auto, using(crate::proofs::rates::HeadFacts::head_missing, crate::proofs::rates::HeadFacts::head_extra, crate::proofs::rates::HeadFacts::head_both))]
pub(crate) fn difference_at(
    x: Stretch,
    here: Head,
    y: Stretch,
    there: Head,
) -> Option<PointDifference>
    requires x { IsPart x }
    requires y { IsPart y }
    requires here { IsHead x y.den here }
    requires there { IsHead y x.den there }
    requires x_within { 2 * here.place + 1 < length x.bytes.now }
    requires y_within { 2 * there.place + 1 < length y.bytes.now }
    ensures { result ≡ heads x.entry.den (sample_at x.entry here.place)
        y.entry.den (sample_at y.entry there.place) }
{
    if here.time < there.time {
        Some(alone_at(x, here.place, SampleMismatch::Missing))
    } else if there.time < here.time {
        Some(alone_at(y, there.place, SampleMismatch::Extra))
    } else {
        change_of(x, here.place, y, there.place)
    }
}
