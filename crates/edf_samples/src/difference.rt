//! The difference of two samples of one channel, each of another file.

ghost use Rattle.std.specs.Prelude.{◌≡◌, ◌<◌, ◌≤◌, ◌^◌, IfSome, unsigned_abs};
ghost use Rattle.edf_samples.specs.Differences.{heads};
ghost use Rattle.edf_samples.specs.InstantOrder.{IsModest};

use crate::instants::is_before;
use crate::point::Point;
use edf_stream::Instant;
use edf_verdict::SampleMismatch;

/// A difference and the instant where it stands.
#[derive(Clone, Copy)]
pub struct PointDifference {
    pub at: Instant,
    pub mismatch: SampleMismatch,
}

/// The difference of two samples, each the first that is left of its file.
pub(crate) fn difference_of_heads(x: Point, n: u32, y: Point, m: u32) -> Option<PointDifference>
    requires x { unsigned_abs x.num < 2 ^ 104 }
    requires y { unsigned_abs y.num < 2 ^ 104 }
    requires some { 0 < n }
    requires n { n ≤ 2 ^ 23 }
    requires more { 0 < m }
    requires m { m ≤ 2 ^ 23 }
    ensures value { result ≡ heads n x m y }
    ensures modest { IfSome result (λ d. IsModest d.at) }
{
    let here = Instant { num: x.num, den: n };
    let there = Instant { num: y.num, den: m };
    if is_before(here, there) {
        Some(PointDifference {
            at: here,
            mismatch: SampleMismatch::Missing,
        })
    } else if is_before(there, here) {
        Some(PointDifference {
            at: there,
            mismatch: SampleMismatch::Extra,
        })
    } else if x.value == y.value {
        None
    } else {
        Some(PointDifference {
            at: here,
            mismatch: SampleMismatch::Value(x.value, y.value),
        })
    }
}
