//! Samples of a channel that stand at even distances, as they lie in a lane of a data record. EDF (1992),
//! "Data record".

ghost use Rattle.std.specs.Prelude.{◌≡◌, ◌<◌, ◌≤◌, ◌+◌, ◌-◌, ◌*◌, ◌^◌, pos, ◌+ℤ◌, ◌-ℤ◌, ◌*ℤ◌, length, min, [], IfSome, unsigned_abs};
ghost use Rattle.std.specs.Ordering.{int_eq};
ghost use Rattle.edf_stream.specs.samples.Values.{digital_value};
ghost use Rattle.edf_samples.specs.Stretches.{AreAlikeBefore, IsBounded, IsPart, are_on_one_grid, difference_from, difference_of_both, front_count, points_in, points_behind, whole};
ghost use Rattle.edf_samples.specs.InstantOrder.{IsModest};
ghost use Rattle.edf_samples.specs.Differences.{first_difference_of};

use crate::bytes::first_difference;
use crate::difference::{PointDifference, difference_of_heads};
use crate::instants::product;
use crate::point::Point;
use crate::times::Time;
use edf_stream::{Instant, distance, num_at, value_at};
use edf_verdict::SampleMismatch;

/// Samples of a channel at even distances: the first stands at the instant `num / den` picoseconds, each
/// further one `step / den` picoseconds behind the one before it. Each takes two of the bytes.
#[derive(Clone, Copy)]
pub struct Stretch<'a> {
    pub num: i128,
    pub step: i128,
    pub den: u32,
    pub bytes: &'a [u8],
}

/// A stretch without samples.
pub fn no_samples<'a>(den: u32) -> Stretch<'a>
    requires some { 0 < den }
    requires den { den ≤ 2 ^ 23 }
    ensures part { IsPart result }
    ensures den { result.den ≡ den }
    ensures value { points_in result ≡ [] }
{
    Stretch {
        num: 0,
        step: 1,
        den,
        bytes: &[],
    }
}

/// How many samples so many bytes hold whole.
fn whole_samples(bytes: usize) -> usize
    ensures within { 2 * result ≤ bytes }
    ensures all { bytes ≤ 2 * result + 1 }
{
    bytes / 2
}

/// How many samples lie in these bytes.
pub(crate) fn count_in(bytes: &[u8]) -> usize
    ensures within { 2 * result ≤ length bytes.now }
    ensures all { length bytes.now ≤ 2 * result + 1 }
{
    whole_samples(bytes.len())
}

/// The instant of the sample at a place.
pub(crate) fn instant_at(stretch: Stretch, place: usize) -> Instant
    requires stretch { IsPart stretch }
    requires place { place ≤ 2 ^ 23 }
    ensures value { result ≡ record {
      num = stretch.entry.num +ℤ pos place *ℤ stretch.entry.step;
      den = stretch.entry.den;
    } }
    ensures modest { IsModest result }
{
    Instant {
        num: num_at(stretch.num, stretch.step, place),
        den: stretch.den,
    }
}

/// The sample at a place.
pub(crate) fn point_at(stretch: Stretch, place: usize) -> Point
    requires stretch { IsPart stretch }
    requires place { 2 * place + 1 < length stretch.bytes.now }
    ensures value { result ≡ record {
      num = stretch.entry.num +ℤ pos place *ℤ stretch.entry.step;
      value = digital_value stretch.entry.bytes.now place;
    } }
    ensures small { unsigned_abs result.num < 2 ^ 104 }
{
    Point {
        num: instant_at(stretch, place).num,
        value: value_at(stretch.bytes, place),
    }
}

/// The difference of what lies behind the first samples of two stretches, at least one of which has no
/// more.
#[tactic(auto, using(crate::proofs::StretchFacts::behind_missing, crate::proofs::StretchFacts::behind_extra, crate::proofs::StretchFacts::behind_none))]
fn difference_behind(
    x: Stretch,
    y: Stretch,
    x_count: usize,
    y_count: usize,
) -> Option<PointDifference>
    requires x { IsPart x }
    requires y { IsPart y }
    requires x_within { 2 * x_count ≤ length x.bytes.now }
    requires x_all { length x.bytes.now ≤ 2 * x_count + 1 }
    requires y_within { 2 * y_count ≤ length y.bytes.now }
    requires y_all { length y.bytes.now ≤ 2 * y_count + 1 }
    ensures value { result ≡ difference_from x.entry y.entry (min x_count y_count) }
    ensures modest { IfSome result (λ d. IsModest d.at) }
{
    if x_count > y_count {
        return Some(PointDifference {
            at: instant_at(x, y_count),
            mismatch: SampleMismatch::Missing,
        });
    }
    if x_count < y_count {
        return Some(PointDifference {
            at: instant_at(y, x_count),
            mismatch: SampleMismatch::Extra,
        });
    }
    None
}

/// Whether two fractions are the same.
pub(crate) fn is_same(num: i128, den: u32, other_num: i128, other_den: u32) -> bool
    requires num { unsigned_abs num < 2 ^ 104 }
    requires den { den ≤ 2 ^ 23 }
    requires other_num { unsigned_abs other_num < 2 ^ 104 }
    requires other_den { other_den ≤ 2 ^ 23 }
    ensures { result ≡ int_eq (num *ℤ pos other_den) (other_num *ℤ pos den) }
{
    product(num, other_den) == product(other_num, den)
}

/// Whether the first samples of two stretches stand at the same numerator.
fn is_one_num(x: Stretch, y: Stretch) -> bool
    requires x { IsPart x }
    requires y { IsPart y }
    ensures { result ≡ int_eq x.entry.num y.entry.num }
{
    x.num == y.num
}

/// Whether the samples of two stretches stand equally far apart, times their denominators.
fn is_one_step(x: Stretch, y: Stretch) -> bool
    requires x { IsPart x }
    requires y { IsPart y }
    ensures { result ≡ int_eq x.entry.step y.entry.step }
{
    x.step == y.step
}

/// Whether the samples of two stretches stand at the same instants, one by one. Over one denominator no product is made.
pub(crate) fn is_one_grid(x: Stretch, y: Stretch) -> bool
    requires x { IsPart x }
    requires y { IsPart y }
    ensures { result ≡ are_on_one_grid x.entry y.entry }
{
    if x.den == y.den {
        return is_one_num(x, y) && is_one_step(x, y);
    }
    is_same(x.num, x.den, y.num, y.den) && is_same(x.step, x.den, y.step, y.den)
}

/// So many of the first bytes are the same. That there are no more isn't said: only speed rests on it.
fn alike_bytes(a: &[u8], b: &[u8]) -> usize
    requires { length a.now ≡ length b.now }
    ensures within { result ≤ length a.now }
    ensures alike { AreAlikeBefore result a.now b.now }
{
    first_difference(a, b).unwrap_or(a.len())
}

/// How many of the first `count` samples of two stretches may be passed over, since they are the same as far as
/// their bytes show it: where the stretches don't stand at the same instants, none. Only speed rests on how many
/// they are.
#[tactic(auto, using(crate::proofs::StretchFacts::behind_zero))]
fn alike_count(x: Stretch, y: Stretch, count: usize) -> usize
    requires x { IsPart x }
    requires y { IsPart y }
    requires x_within { 2 * count ≤ length x.bytes.now }
    requires y_within { 2 * count ≤ length y.bytes.now }
    ensures within { result ≤ count }
    ensures value { difference_from x.entry y.entry result
        ≡ difference_of_both x.entry y.entry }
{
    if count == 0 || !is_one_grid(x, y) {
        return 0;
    }
    whole_samples(alike_bytes(&x.bytes[..2 * count], &y.bytes[..2 * count]))
}

/// The first difference of two stretches of one channel, read from the left: those bytes of them that are the
/// same are passed over, and behind them the samples are compared one by one.
#[tactic(auto, using(crate::proofs::StretchFacts::behind_step, crate::proofs::StretchFacts::behind_zero))]
pub fn stretch_difference(x: Stretch, y: Stretch) -> Option<PointDifference>
    requires x { IsPart x }
    requires y { IsPart y }
    ensures value { result ≡ difference_of_both x.entry y.entry }
    ensures modest { IfSome result (λ d. IsModest d.at) }
{
    let x_count = count_in(x.bytes);
    let y_count = count_in(y.bytes);
    let both = x_count.min(y_count);
    for i in alike_count(x, y, both)..both {
        let found = difference_of_heads(point_at(x, i), x.den, point_at(y, i), y.den);
        if found.is_some() {
            return found;
        }
    }
    difference_behind(x, y, x_count, y_count)
}

/// How far a time lies behind the first sample, times the denominator.
fn gap_before(stretch: Stretch, time: Time) -> i128
    requires stretch { IsBounded stretch }
    ensures value { result ≡ time.ps *ℤ pos stretch.entry.den -ℤ stretch.entry.num }
    ensures small { unsigned_abs result < 2 ^ 124 }
{
    scaled_time(time, stretch.den) - stretch.num
}

/// A time in units of 1 / `den` picoseconds.
fn scaled_time(time: Time, den: u32) -> i128
    requires den { den ≤ 2 ^ 23 }
    ensures value { result ≡ time.ps *ℤ pos den }
    ensures small { unsigned_abs result < 2 ^ 123 + 1 }
{
    time.ps * i128::from(den)
}

/// How many whole steps, from none on, are shorter than a gap.
fn steps_below(gap: u128, step: u128) -> u128
    requires gap { 0 < gap }
    requires step { 0 < step }
    ensures last { (0 < result) × ((result - 1) * step < gap) }
    ensures next { gap ≤ result * step }
{
    (gap - 1) / step + 1
}

/// How many samples stand before a time.
pub(crate) fn count_before(stretch: Stretch, time: Time) -> usize
    requires stretch { IsBounded stretch }
    ensures value { result ≡ front_count stretch.entry.den (points_in stretch.entry) (whole time.ps) }
    ensures within { 2 * result ≤ length stretch.entry.bytes.now }
{
    let gap = gap_before(stretch, time);
    if gap <= 0 {
        return 0;
    }
    let count = count_in(stretch.bytes);
    if distance(stretch.step, count) <= gap {
        return count;
    }
    steps_below(gap.unsigned_abs(), stretch.step.unsigned_abs()) as usize
}
