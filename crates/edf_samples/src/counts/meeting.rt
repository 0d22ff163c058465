//! How the samples of two stretches meet: it is the same for all channels whose samples stand at the same instants.

ghost use Rattle.std.specs.Prelude.{◌≡◌, ◌*ℤ◌, pos};
ghost use Rattle.edf_samples.specs.Meetings.{AreSetAlike, IsMeeting};
ghost use Rattle.edf_samples.specs.Stretches.{IsPart};
ghost use Rattle.edf_samples.specs.Strides.{AreStrides};
ghost use Rattle.edf_samples.specs.declared.stretch.Stretch.{Stretch};

use crate::counts::alone::alone_between;
use crate::counts::counted::Counted;
use crate::counts::numbers::whole_strides;
use crate::counts::strides::{Strides, strides_of};
use crate::stretch::{Stretch, count_in, is_one_grid};
use edf_verdict::SampleMismatch;

/// Whole strides of two stretches, each from one instant at which both have a sample to the next one: how many samples they have, so
/// many of them as both stretches have, and the samples between these instants, which one of them has alone.
#[derive(Clone, Copy)]
pub struct WholeStrides {
    pub(crate) strides: Strides,
    pub(crate) count: usize,
    pub(crate) missing: Counted,
    pub(crate) extra: Counted,
}

/// How the samples of two stretches of one channel meet.
#[derive(Clone, Copy)]
pub enum Meeting {
    /// Each stands at the instant of one of the other stretch, in order.
    Each,
    /// Both begin at one instant, and meet again a whole stride further on.
    AtStrides(WholeStrides),
    /// It isn't known how.
    Unknown,
}

/// Of two stretches that begin at one instant, with these strides.
fn at_strides(x: Stretch, y: Stretch, strides: Strides) -> Meeting
    requires x { IsPart x }
    requires y { IsPart y }
    requires start { x.num *ℤ pos y.den ≡ y.num *ℤ pos x.den }
    requires strides { AreStrides x y strides }
    ensures { IsMeeting x.entry y.entry result }
{
    let count = whole_strides(count_in(x.bytes), count_in(y.bytes), strides);
    if count == 0 {
        return Meeting::Unknown;
    }
    Meeting::AtStrides(WholeStrides {
        strides,
        count,
        missing: alone_between(x, strides.here, count, SampleMismatch::Missing),
        extra: alone_between(y, strides.there, count, SampleMismatch::Extra),
    })
}

/// How two stretches meet. Only speed rests on whether it is known.
fn meeting_of(x: Stretch, y: Stretch) -> Meeting
    requires x { IsPart x }
    requires y { IsPart y }
    ensures { IsMeeting x.entry y.entry result }
{
    if is_one_grid(x, y) {
        return Meeting::Each;
    }
    match strides_of(x, y) {
        Some(strides) => at_strides(x, y, strides),
        None => Meeting::Unknown,
    }
}

impl Meeting {
    /// How two stretches meet, and so do any others that have as many samples at the same instants, over the same denominators. Only
    /// speed rests on whether it is known.
    pub fn of(x: Stretch, y: Stretch) -> Meeting
        requires x { IsPart x }
        requires y { IsPart y }
        ensures { (u v : Stretch) → AreSetAlike x.entry u → AreSetAlike y.entry v → IsMeeting u v result }
    {
        meeting_of(x, y)
    }
}
