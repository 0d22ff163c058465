//! The front of two stretches whose samples stand at the same instants: its differences are counted at once.

ghost use Rattle.std.specs.Prelude.{◌≡◌, ◌<◌, ◌≤◌, ◌+◌, ◌*◌, ℕ, Bool, true, not, nat_lt, IfSome, Some, if◌then◌else◌, length, map, filter};
ghost use Rattle.std.specs.List.{range_with_len};
ghost use Rattle.std.specs.Option.{option_or};
ghost use Rattle.std.specs.Ordering.{int_eq};
ghost use Rattle.edf_stream.specs.samples.Values.{digital_value};
ghost use Rattle.edf_samples.specs.Meetings.{AreWholeStrides, IsMeeting};
ghost use Rattle.edf_samples.specs.Others.{AreOthers};
ghost use Rattle.edf_samples.specs.Stretches.{IsPart, are_on_one_grid};
ghost use Rattle.edf_samples.specs.Tallies.{all_changed, change, counted, joined, joined_kind, with_rest};

use crate::counts::blocks::numbers_of;
use crate::counts::counted::Counted;
use crate::counts::meeting::{Meeting, WholeStrides};
use crate::counts::numbers::numbers_at;
use crate::counts::places::Places;
use crate::counts::strides::Strides;
use crate::counts::tally::Tally;
use crate::difference::PointDifference;
use crate::stretch::{Stretch, count_in, instant_at};
use edf_stream::value_at;
use edf_verdict::SampleMismatch;

/// Two samples at one instant that have two values.
#[inline(always)]
pub(crate) fn change_at(x: Stretch, here: usize, y: Stretch, there: usize) -> PointDifference
    requires x { IsPart x }
    requires here { 2 * here + 1 < length x.bytes.now }
    requires there { 2 * there + 1 < length y.bytes.now }
    ensures { result ≡ change x.entry here y.entry there }
{
    PointDifference {
        at: instant_at(x, here),
        mismatch: SampleMismatch::Value(value_at(x.bytes, here), value_at(y.bytes, there)),
    }
}

/// Keeps the difference of two samples at one instant that have two values as the first one, if there is none before it: elsewhere it
/// isn't reckoned.
#[inline(always)]
fn keep_first_change(
    first: &mut Option<PointDifference>,
    x: Stretch,
    here: usize,
    y: Stretch,
    there: usize,
)
    requires x { IsPart x }
    requires here { 2 * here + 1 < length x.bytes.now }
    requires there { 2 * there + 1 < length y.bytes.now }
    ensures { first.new ≡ option_or first.old (Some (change x.entry here y.entry there)) }
{
    if first.is_none() {
        *first = Some(change_at(x, here, y, there));
    }
}

/// Takes in samples at the same instants that have two values, by their numbers: the places of the first and of the second are so
/// many times these. They are behind those that were taken in.
#[inline(always)]
fn add_changes(
    changed: &mut Counted,
    x: Stretch,
    y: Stretch,
    strides: Strides,
    numbers: Option<Places>,
)
    requires x { IsPart x }
    requires first_here { IfSome numbers (λ p. 2 * (strides.here * p.first) + 1 < length x.bytes.now) }
    requires last_here { IfSome numbers (λ p. 2 * (strides.here * p.last) + 1 < length x.bytes.now) }
    requires first_there { IfSome numbers (λ p. 2 * (strides.there * p.first) + 1 < length y.bytes.now) }
    requires last_there { IfSome numbers (λ p. 2 * (strides.there * p.last) + 1 < length y.bytes.now) }
    ensures { (test : ℕ → Bool) (n : ℕ) → AreOthers test n numbers →
        changed.new ≡ joined_kind changed.old (counted (map
        (λ k. change x.entry (strides.here * k) y.entry (strides.there * k))
        (filter test (range_with_len 0 n)))) }
{
    let Strides { here, there } = strides;
    match numbers {
        Some(places) => {
            let (one, other) = (here * places.first, there * places.first);
            keep_first_change(&mut changed.first, x, one, y, other);
            changed.count = changed.count.saturating_add(places.count as u64);
            changed.last = Some(change_at(x, here * places.last, y, there * places.last));
        }
        None => {}
    }
}

/// Whether the first samples of two lanes have two values.
fn begin_apart(old: &[u8], new: &[u8]) -> bool
    requires old { 1 < length old.now }
    requires new { 1 < length new.now }
    ensures { result ≡ not (int_eq (digital_value old.now 0) (digital_value new.now 0)) }
{
    value_at(old, 0) != value_at(new, 0)
}

/// The first of those that one file has alone: a sample of the one that has more of them in a stride.
#[inline(always)]
fn first_alone(strides: Strides, missing: Counted, extra: Counted) -> Option<PointDifference>
    ensures { result ≡ if nat_lt strides.there strides.here then missing.first else extra.first }
{
    if strides.there < strides.here {
        missing.first
    } else {
        extra.first
    }
}

/// The first difference: that of the first two samples, if they have two values, else the first of those behind them that one
/// file has alone.
#[inline(always)]
fn first_of_both(
    differ: bool,
    changed: PointDifference,
    alone: Option<PointDifference>,
) -> Option<PointDifference>
    ensures { result ≡ if differ then Some changed else alone }
{
    if differ { Some(changed) } else { alone }
}

/// Keeps the first difference of whole strides of two stretches as the first one, if there is none before it: elsewhere it isn't
/// looked for.
#[inline(always)]
fn keep_first_apart(
    x: Stretch,
    y: Stretch,
    whole: &WholeStrides,
    first: &mut Option<PointDifference>,
)
    requires x { IsPart x }
    requires here { 1 < length x.bytes.now }
    requires there { 1 < length y.bytes.now }
    ensures { first.new ≡ option_or first.old
        (if not (int_eq (digital_value x.entry.bytes.now 0) (digital_value y.entry.bytes.now 0))
        then Some (change x.entry 0 y.entry 0)
        else (if nat_lt (whole.now.strides).there (whole.now.strides).here
        then (whole.now.missing).first else (whole.now.extra).first)) }
{
    if first.is_none() {
        let differ = begin_apart(x.bytes, y.bytes);
        let alone = first_alone(whole.strides, whole.missing, whole.extra);
        *first = first_of_both(differ, change_at(x, 0, y, 0), alone);
    }
}

/// Takes in samples of two values, each at the instant of the other, by their numbers. They are behind what was taken in.
#[inline(always)]
fn take_changes(x: Stretch, y: Stretch, numbers: Option<Places>, tally: &mut Tally)
    requires x { IsPart x }
    requires first_here { IfSome numbers (λ p. 2 * (1 * p.first) + 1 < length x.bytes.now) }
    requires last_here { IfSome numbers (λ p. 2 * (1 * p.last) + 1 < length x.bytes.now) }
    requires first_there { IfSome numbers (λ p. 2 * (1 * p.first) + 1 < length y.bytes.now) }
    requires last_there { IfSome numbers (λ p. 2 * (1 * p.last) + 1 < length y.bytes.now) }
    ensures { (test : ℕ → Bool) (n : ℕ) → AreOthers test n numbers →
        tally.new ≡ joined tally.old (all_changed (counted (map
        (λ k. change x.entry (1 * k) y.entry (1 * k)) (filter test (range_with_len 0 n))))) }
{
    let each = Strides { here: 1, there: 1 };
    match numbers {
        Some(places) => {
            keep_first_change(&mut tally.first, x, places.first, y, places.first);
            add_changes(&mut tally.changed, x, y, each, numbers);
        }
        None => {}
    }
}

/// Counts the differences of as many samples of two stretches as both have, each of which stands at the instant of the
/// other's, and answers how many these are.
#[inline(always)]
fn count_each(x: Stretch, y: Stretch, tally: &mut Tally) -> (usize, usize)
    requires x { IsPart x }
    requires y { IsPart y }
    requires grid { are_on_one_grid x y ≡ true }
    ensures x_within { 2 * result.0 ≤ length x.entry.bytes.now }
    ensures y_within { 2 * result.1 ≤ length y.entry.bytes.now }
    ensures value { with_rest tally.new x.entry result.0 y.entry result.1 ≡
        with_rest tally.old x.entry 0 y.entry 0 }
{
    let count = count_in(x.bytes).min(count_in(y.bytes));
    let numbers = numbers_of::<1>(x.bytes, y.bytes, count);
    take_changes(x, y, numbers, tally);
    (count, count)
}

/// The same of the whole strides that both have: what lies between two common instants one of them has alone.
#[inline(always)]
fn count_strided(x: Stretch, y: Stretch, whole: &WholeStrides, tally: &mut Tally) -> (usize, usize)
    requires x { IsPart x }
    requires y { IsPart y }
    requires whole { AreWholeStrides x y whole.now }
    ensures x_within { 2 * result.0 ≤ length x.entry.bytes.now }
    ensures y_within { 2 * result.1 ≤ length y.entry.bytes.now }
    ensures value { with_rest tally.new x.entry result.0 y.entry result.1 ≡
        with_rest tally.old x.entry 0 y.entry 0 }
{
    let Strides { here, there } = whole.strides;
    let numbers = numbers_at(x.bytes, y.bytes, whole.strides, whole.count);
    keep_first_apart(x, y, whole, &mut tally.first);
    add_changes(&mut tally.changed, x, y, whole.strides, numbers);
    tally.missing.add(&whole.missing);
    tally.extra.add(&whole.extra);
    (here * whole.count, there * whole.count)
}

/// Counts the differences at the front of two stretches at once that meet so, and answers how many samples of each are done with:
/// none where it isn't known how they meet.
#[inline(always)]
pub(crate) fn count_front(
    x: Stretch,
    y: Stretch,
    meeting: &Meeting,
    tally: &mut Tally,
) -> (usize, usize)
    requires x { IsPart x }
    requires y { IsPart y }
    requires meeting { IsMeeting x y meeting.now }
    ensures x_within { 2 * result.0 ≤ length x.entry.bytes.now }
    ensures y_within { 2 * result.1 ≤ length y.entry.bytes.now }
    ensures value { with_rest tally.new x.entry result.0 y.entry result.1 ≡
        with_rest tally.old x.entry 0 y.entry 0 }
{
    match meeting {
        Meeting::Each => count_each(x, y, tally),
        Meeting::AtStrides(whole) => count_strided(x, y, whole, tally),
        Meeting::Unknown => (0, 0),
    }
}
