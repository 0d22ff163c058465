//! Samples of a channel at two rates: how many of each lie from one instant that both have to the next.

ghost use Rattle.std.specs.Prelude.{◌≡◌, ◌<◌, ◌*◌, ◌/◌, ◌*ℤ◌, ◌<ℤ◌, ◌↔◌, pos, IfSome, IsTrue};
ghost use Rattle.edf_samples.specs.Stretches.{IsPart};
ghost use Rattle.edf_samples.specs.Strides.{AreStrides, IsCommonDivisor, IsProportion};

use crate::stretch::{Stretch, is_same};

/// How many samples of two stretches lie from one instant at which both have one to the next such instant.
#[derive(Clone, Copy)]
pub(crate) struct Strides {
    pub(crate) here: usize,
    pub(crate) there: usize,
}

/// The greatest common divisor of two numbers above 0.
fn common_divisor(a: u64, b: u64) -> u64
    requires { 0 < a }
    ensures value { IsCommonDivisor a b result }
    ensures some { 0 < result }
{
    let mut divisor = a;
    let mut rest = b;
    while rest != 0 {
        let next = divisor % rest;
        divisor = rest;
        rest = next;
    }
    divisor
}

/// How many times the step of one stretch has that of another, if it has it a whole number of times.
fn times_in(long: Stretch, short: Stretch) -> Option<u32>
    requires { IsPart short }
    ensures some { IfSome result (λ times. 0 < times) }
    ensures value { IfSome result (λ times. long.entry.step ≡ pos times *ℤ short.entry.step) }
{
    if long.step == short.step {
        return Some(1);
    }
    if short.step <= 0 {
        return None;
    }
    match u32::try_from(long.step / short.step) {
        Ok(times) if times > 0 && long.step == i128::from(times) * short.step => Some(times),
        _ => None,
    }
}

/// Two numbers that are to each other as the distances between samples of two stretches, if one data record lasts a whole number
/// of times as long as the other.
fn proportion(x: Stretch, y: Stretch) -> Option<(u64, u64)>
    requires x { IsPart x }
    requires y { IsPart y }
    requires rises_here { pos 0 <ℤ x.step }
    requires rises_there { pos 0 <ℤ y.step }
    ensures { IfSome result (λ numbers. IsProportion x.entry y.entry numbers.0 numbers.1) }
{
    let (here, there) = (u64::from(x.den), u64::from(y.den));
    if let Some(times) = times_in(y, x) {
        return Some((there, here * u64::from(times)));
    }
    if let Some(times) = times_in(x, y) {
        return Some((there * u64::from(times), here));
    }
    None
}

/// Whether one number is twice another.
fn is_twice(number: u64, half: u64) -> bool
    ensures { IsTrue result ↔ (number ≡ 2 * half) }
{
    number % 2 == 0 && number / 2 == half
}

/// How many times a divisor goes into the second of two numbers, and into the first one.
fn strides_over(a: u64, b: u64, divisor: u64) -> Strides
    requires { 0 < divisor }
    ensures here { result.here ≡ b / divisor }
    ensures there { result.there ≡ a / divisor }
{
    let here = (b / divisor) as usize;
    let there = (a / divisor) as usize;
    Strides { here, there }
}

/// How many samples of each stretch lie from one common instant to the next, by the proportion of the distances between them. That
/// of two rates of which one is twice the other takes no division.
fn strides_by(x: Stretch, y: Stretch, a: u64, b: u64) -> Option<Strides>
    requires x { IsPart x }
    requires y { IsPart y }
    requires rises_here { pos 0 <ℤ x.step }
    requires rises_there { pos 0 <ℤ y.step }
    requires proportion { IsProportion x y a b }
    ensures { IfSome result (AreStrides x.entry y.entry) }
{
    if is_twice(b, a) {
        return Some(Strides { here: 2, there: 1 });
    }
    if is_twice(a, b) {
        return Some(Strides { here: 1, there: 2 });
    }
    let divisor = common_divisor(a, b);
    let strides = strides_over(a, b, divisor);
    if strides.here == strides.there {
        return None;
    }
    Some(strides)
}

/// How many samples of each stretch lie from one common instant to the next, where both begin at one and have other rates.
pub(crate) fn strides_of(x: Stretch, y: Stretch) -> Option<Strides>
    requires x { IsPart x }
    requires y { IsPart y }
    ensures start { IfSome result (λ strides.
        x.entry.num *ℤ pos y.entry.den ≡ y.entry.num *ℤ pos x.entry.den) }
    ensures value { IfSome result (AreStrides x.entry y.entry) }
{
    if x.step <= 0 || y.step <= 0 || !is_same(x.num, x.den, y.num, y.den) {
        return None;
    }
    let (a, b) = proportion(x, y)?;
    strides_by(x, y, a, b)
}
