//! Samples that one of two files has alone.

ghost use Rattle.std.specs.Prelude.{◌≡◌, ◌<◌, ◌≤◌, ◌+◌, ◌-◌, ◌*◌, ◌^◌, ℕ, length, map};
ghost use Rattle.std.specs.List.{range_with_len};
ghost use Rattle.edf_samples.specs.Stretches.{IsPart};
ghost use Rattle.edf_samples.specs.Strides.{between};
ghost use Rattle.edf_samples.specs.Tallies.{alone, counted, each_is};

use crate::counts::counted::Counted;
use crate::counts::places::Places;
use crate::difference::PointDifference;
use crate::stretch::{Stretch, count_in, instant_at};
use edf_verdict::SampleMismatch;

/// The sample at a place, which one file has alone.
#[inline(always)]
pub(crate) fn alone_at(x: Stretch, place: usize, mismatch: SampleMismatch) -> PointDifference
    requires x { IsPart x }
    requires place { place ≤ 2 ^ 23 }
    ensures { result ≡ alone mismatch x.entry place }
{
    PointDifference {
        at: instant_at(x, place),
        mismatch,
    }
}

/// Samples that one file has alone, by their places.
#[inline(always)]
fn alone_among(x: Stretch, places: Places, mismatch: SampleMismatch) -> Counted
    requires x { IsPart x }
    requires some { 0 < places.count }
    requires first { places.first ≤ 2 ^ 23 }
    requires last { places.last ≤ 2 ^ 23 }
    ensures { (place : ℕ → ℕ) → places.first ≡ place 0 → places.last ≡ place (places.count - 1) →
        result ≡ counted (map (λ k. alone mismatch x.entry (place k)) (range_with_len 0 places.count)) }
{
    Counted {
        count: places.count as u64,
        first: Some(alone_at(x, places.first, mismatch)),
        last: Some(alone_at(x, places.last, mismatch)),
    }
}

/// The samples of a stretch from a place on, which one file has alone.
#[inline(always)]
pub(crate) fn alone_behind(x: Stretch, from: usize, mismatch: SampleMismatch) -> Counted
    requires x { IsPart x }
    requires from { 2 * from + 1 < length x.bytes.now }
    ensures { result ≡ counted (each_is mismatch x.entry from) }
{
    let end = count_in(x.bytes);
    let places = Places {
        count: end - from,
        first: from,
        last: end - 1,
    };
    alone_among(x, places, mismatch)
}

/// The samples of so many strides of a stretch, but for the first one of each.
#[inline(always)]
#[tactic(auto, using(crate::proofs::rates::StrideFacts::stride_alone, crate::proofs::rates::StrideFacts::stride_counted))]
pub(crate) fn alone_between(
    x: Stretch,
    stride: usize,
    count: usize,
    mismatch: SampleMismatch,
) -> Counted
    requires x { IsPart x }
    requires stride { 0 < stride }
    requires some { 0 < count }
    requires count { 2 * (stride * count) ≤ length x.bytes.now }
    ensures { result ≡ counted (map (alone mismatch x.entry) (between stride 0 count)) }
{
    if stride == 1 {
        return Counted::none();
    }
    Counted {
        count: ((stride - 1) * count) as u64,
        first: Some(alone_at(x, 1, mismatch)),
        last: Some(alone_at(x, stride * count - 1, mismatch)),
    }
}
