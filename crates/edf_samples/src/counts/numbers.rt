//! Values of two files at the common instants of their strides.

ghost use Rattle.std.specs.Prelude.{◌≡◌, ◌<◌, ◌≤◌, ◌*◌, IfSome, length};
ghost use Rattle.edf_samples.specs.Others.{AreOthers, values_differ_at};

use crate::counts::blocks::{numbers_of, with_one};
use crate::counts::places::Places;
use crate::counts::strides::Strides;
use edf_stream::value_at;

/// How many whole strides so many samples have. Of the shortest no division is made.
fn strides_in(count: usize, stride: usize) -> usize
    requires { 0 < stride }
    ensures { stride * result ≤ count }
{
    match stride {
        1 => count,
        2 => count / 2,
        _ => count / stride,
    }
}

/// How many whole strides both of two stretches have, of so many samples each.
#[tactic(auto, using(crate::proofs::rates::NumberFacts::strides_within))]
pub(crate) fn whole_strides(here: usize, there: usize, strides: Strides) -> usize
    requires some_here { 0 < strides.here }
    requires some_there { 0 < strides.there }
    ensures here { strides.here * result ≤ here }
    ensures there { strides.there * result ≤ there }
{
    strides_in(here, strides.here).min(strides_in(there, strides.there))
}

/// Whether the values of a number differ.
#[tactic(auto, using(crate::proofs::rates::NumberFacts::place_within))]
fn differ_at(old: &[u8], new: &[u8], strides: Strides, number: usize, count: usize) -> bool
    requires number { number < count }
    requires some_here { 0 < strides.here }
    requires some_there { 0 < strides.there }
    requires old { 2 * (strides.here * count) ≤ length old.now }
    requires new { 2 * (strides.there * count) ≤ length new.now }
    ensures { result ≡ values_differ_at strides.here strides.there old.now new.now number }
{
    value_at(old, strides.here * number) != value_at(new, strides.there * number)
}

/// The numbers of those of so many values that differ, one by one.
#[inline(never)]
fn numbers_by_one(old: &[u8], new: &[u8], strides: Strides, count: usize) -> Option<Places>
    requires some_here { 0 < strides.here }
    requires some_there { 0 < strides.there }
    requires old { 2 * (strides.here * count) ≤ length old.now }
    requires new { 2 * (strides.there * count) ≤ length new.now }
    ensures { AreOthers (values_differ_at strides.here strides.there old.now new.now) count result }
{
    let mut places = None;
    for number in 0..count {
        places = with_one(places, number, differ_at(old, new, strides, number, count));
    }
    places
}

/// The numbers of those of so many values that differ: the first ones of the strides of two lanes.
#[tactic(auto, using(crate::proofs::PlaceCountFacts::first_within, crate::proofs::PlaceCountFacts::last_within, crate::proofs::rates::NumberFacts::others_at_half, crate::proofs::rates::NumberFacts::others_at_double))]
#[inline(always)]
pub(crate) fn numbers_at(old: &[u8], new: &[u8], strides: Strides, count: usize) -> Option<Places>
    requires some_here { 0 < strides.here }
    requires some_there { 0 < strides.there }
    requires old { 2 * (strides.here * count) ≤ length old.now }
    requires new { 2 * (strides.there * count) ≤ length new.now }
    ensures value { AreOthers (values_differ_at strides.here strides.there old.now new.now) count result }
    ensures first { IfSome result (λ places. places.first < count) }
    ensures last { IfSome result (λ places. places.last < count) }
{
    if strides.here == 2 && strides.there == 1 {
        return numbers_of::<2>(old, new, count);
    }
    if strides.here == 1 && strides.there == 2 {
        return numbers_of::<2>(new, old, count);
    }
    numbers_by_one(old, new, strides, count)
}
