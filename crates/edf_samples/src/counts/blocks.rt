//! Values of two files that are compared 64, 32 or 16 at a time: each sample of one with each of the other, or with every second one.

ghost use Rattle.std.specs.Prelude.{◌≡◌, ◌≤◌, ◌<◌, ◌^◌, ◌+◌, ◌*◌, ◌-◌, ◌⊎◌, ℕ, Bool, IfSome, length, map, drop};
ghost use Rattle.std.specs.List.{range_with_len};
ghost use lib.Lanes.{mask_l};
ghost use Rattle.edf_samples.specs.Others.{AreOthers, differs, values_differ};

use crate::counts::places::Places;
use std::simd::prelude::*;

/// How many values are compared at a time where there are so many, and where there are fewer.
const MANY: usize = 64;

const SOME: usize = 16;

/// How many are compared at a time where fewer than so many are left behind blocks of `MANY`.
const HALF: usize = 32;

/// How many bytes are loaded at a time.
const BLOCK: usize = 32;

/// Which of 16 values differ from as many others: a bit each, the first one the lowest.
#[inline(always)]
fn others_in(old: &[u8], new: &[u8]) -> u64
    requires old { 32 ≤ length old.now }
    requires new { 32 ≤ length new.now }
    ensures { result ≡ mask_l (map (differs 1 old.now new.now) (range_with_len 0 16)) }
{
    let one = u16x16::from_le_bytes(u8x32::from_slice(old));
    let two = u16x16::from_le_bytes(u8x32::from_slice(new));
    one.simd_ne(two).to_bitmask()
}

/// Which of every second one of 32 values differ from as many others.
#[inline(always)]
fn others_at_half(long: &[u8], short: &[u8]) -> u64
    requires long { 64 ≤ length long.now }
    requires short { 32 ≤ length short.now }
    ensures { result ≡ mask_l (map (differs 2 long.now short.now) (range_with_len 0 16)) }
{
    let front = u8x32::from_slice(long);
    let back = u8x32::from_slice(&long[BLOCK..]);
    let one = front.shuffle(
        back,
        [
            0, 1, 4, 5, 8, 9, 12, 13, 16, 17, 20, 21, 24, 25, 28, 29, 32, 33, 36, 37, 40, 41, 44,
            45, 48, 49, 52, 53, 56, 57, 60, 61,
        ],
    );
    let two = u16x16::from_le_bytes(u8x32::from_slice(short));
    u16x16::from_le_bytes(one).simd_ne(two).to_bitmask()
}

/// Those of the values before a number that differ, and of up to 64 from it on, of which these bits say it.
fn with_others(places: Option<Places>, number: usize, others: u64) -> Option<Places>
    requires { number < 2 ^ 62 }
    ensures { (differ : ℕ → Bool) (size : ℕ) → size ≤ 64 →
        others ≡ mask_l (map (λ k. differ (number + k)) (range_with_len 0 size)) →
        AreOthers differ number places → AreOthers differ (number + size) result }
{
    if others == 0 {
        return places;
    }
    let count = others.count_ones() as usize;
    let last = number + 63 - others.leading_zeros() as usize;
    match places {
        Some(before) => Some(Places {
            count: before.count.saturating_add(count),
            first: before.first,
            last,
        }),
        None => Some(Places {
            count,
            first: number + others.trailing_zeros() as usize,
            last,
        }),
    }
}

/// Those of the values before a number that differ, and the one of this number, if it does.
pub(crate) fn with_one(places: Option<Places>, number: usize, differs: bool) -> Option<Places>
    requires { number < 2 ^ 62 }
    ensures { (differ : ℕ → Bool) → differs ≡ differ number → AreOthers differ number places →
        AreOthers differ (number + 1) result }
{
    if !differs {
        return places;
    }
    match places {
        Some(before) => Some(Places {
            count: before.count.saturating_add(1),
            first: before.first,
            last: number,
        }),
        None => Some(Places {
            count: 1,
            first: number,
            last: number,
        }),
    }
}

/// Whether the values of a number differ.
fn differ_at<const STRIDE: usize>(long: &[u8], short: &[u8], number: usize) -> bool
    requires long { 2 * (STRIDE * number) + 1 < length long.now }
    requires short { 2 * number + 1 < length short.now }
    ensures { result ≡ differs STRIDE long.now short.now number }
{
    let place = 2 * (STRIDE * number);
    let other = 2 * number;
    !(long[place] == short[other] && long[place + 1] == short[other + 1])
}

/// The bytes from a place on.
#[inline(always)]
fn bytes_from(bytes: &[u8], place: usize) -> &[u8]
    requires { place ≤ length bytes.now }
    ensures { result.now ≡ drop place bytes.entry.now }
{
    &bytes[place..]
}

/// Which of the 16 values from a number on differ.
#[inline(always)]
fn others_of_16<const STRIDE: usize>(long: &[u8], short: &[u8], number: usize) -> u64
    requires stride { (STRIDE ≡ 1) ⊎ (STRIDE ≡ 2) }
    requires long { 2 * (STRIDE * (number + 16)) ≤ length long.now }
    requires short { 2 * (number + 16) ≤ length short.now }
    ensures { result ≡ mask_l (map (λ k. differs STRIDE long.now short.now (number + k))
        (range_with_len 0 16)) }
{
    let old = bytes_from(long, 2 * (STRIDE * number));
    let new = bytes_from(short, 2 * number);
    if STRIDE == 1 {
        others_in(old, new)
    } else {
        others_at_half(old, new)
    }
}

/// Which of the 32 values from a number on differ.
#[inline(always)]
fn others_of_32<const STRIDE: usize>(long: &[u8], short: &[u8], number: usize) -> u64
    requires stride { (STRIDE ≡ 1) ⊎ (STRIDE ≡ 2) }
    requires long { 2 * (STRIDE * (number + 32)) ≤ length long.now }
    requires short { 2 * (number + 32) ≤ length short.now }
    ensures { result ≡ mask_l (map (λ k. differs STRIDE long.now short.now (number + k))
        (range_with_len 0 32)) }
{
    let front = others_of_16::<STRIDE>(long, short, number);
    let back = others_of_16::<STRIDE>(long, short, number + 16);
    front | back << 16
}

/// Which of the 64 values from a number on differ.
#[inline(always)]
fn others_of_64<const STRIDE: usize>(long: &[u8], short: &[u8], number: usize) -> u64
    requires stride { (STRIDE ≡ 1) ⊎ (STRIDE ≡ 2) }
    requires long { 2 * (STRIDE * (number + 64)) ≤ length long.now }
    requires short { 2 * (number + 64) ≤ length short.now }
    ensures { result ≡ mask_l (map (λ k. differs STRIDE long.now short.now (number + k))
        (range_with_len 0 64)) }
{
    let front = others_of_32::<STRIDE>(long, short, number);
    let back = others_of_32::<STRIDE>(long, short, number + 32);
    front | back << 32
}

/// Which of so many values from a number on differ.
#[inline(always)]
fn others_of<const STRIDE: usize, const WIDTH: usize>(
    long: &[u8],
    short: &[u8],
    number: usize,
) -> u64
    requires stride { (STRIDE ≡ 1) ⊎ (STRIDE ≡ 2) }
    requires width { (WIDTH ≡ 16) ⊎ (WIDTH ≡ 32) ⊎ (WIDTH ≡ 64) }
    requires long { 2 * (STRIDE * (number + WIDTH)) ≤ length long.now }
    requires short { 2 * (number + WIDTH) ≤ length short.now }
    ensures { result ≡ mask_l (map (λ k. differs STRIDE long.now short.now (number + k))
        (range_with_len 0 WIDTH)) }
{
    if WIDTH == 16 {
        others_of_16::<STRIDE>(long, short, number)
    } else if WIDTH == 32 {
        others_of_32::<STRIDE>(long, short, number)
    } else {
        others_of_64::<STRIDE>(long, short, number)
    }
}

/// Those of the values before a number that differ, and of fewer behind it than are compared at a time: the last of those that are
/// compared at once are these, and those in front of them were counted.
#[inline(always)]
fn with_last<const STRIDE: usize, const WIDTH: usize>(
    long: &[u8],
    short: &[u8],
    from: usize,
    count: usize,
    before: Option<Places>,
) -> Option<Places>
    requires stride { (STRIDE ≡ 1) ⊎ (STRIDE ≡ 2) }
    requires width { (WIDTH ≡ 16) ⊎ (WIDTH ≡ 32) ⊎ (WIDTH ≡ 64) }
    requires from { from ≤ count }
    requires few { count < from + WIDTH }
    requires many { WIDTH ≤ count }
    requires long { 2 * (STRIDE * count) ≤ length long.now }
    requires short { 2 * count ≤ length short.now }
    requires before { AreOthers (differs STRIDE long.now short.now) from before }
    ensures { AreOthers (differs STRIDE long.now short.now) count result }
{
    if from == count {
        return before;
    }
    let passed = WIDTH - (count - from);
    let others = others_of::<STRIDE, WIDTH>(long, short, count - WIDTH) >> passed;
    with_others(before, from, others)
}

/// Those of so many values that differ, at least as many as are compared at a time.
fn numbers_at_once<const STRIDE: usize, const WIDTH: usize>(
    long: &[u8],
    short: &[u8],
    count: usize,
) -> Option<Places>
    requires stride { (STRIDE ≡ 1) ⊎ (STRIDE ≡ 2) }
    requires width { (WIDTH ≡ 16) ⊎ (WIDTH ≡ 64) }
    requires many { WIDTH ≤ count }
    requires long { 2 * (STRIDE * count) ≤ length long.now }
    requires short { 2 * count ≤ length short.now }
    ensures { AreOthers (differs STRIDE long.now short.now) count result }
{
    let mut places = None;
    let mut number = 0;
    while count - number >= WIDTH {
        let others = others_of::<STRIDE, WIDTH>(long, short, number);
        places = with_others(places, number, others);
        number += WIDTH;
    }
    if WIDTH == MANY && count - number < HALF {
        return with_last::<STRIDE, HALF>(long, short, number, count, places);
    }
    with_last::<STRIDE, WIDTH>(long, short, number, count, places)
}

/// Those of the values before a number that differ, and of those behind it up to another.
fn numbers_behind<const STRIDE: usize>(
    long: &[u8],
    short: &[u8],
    from: usize,
    count: usize,
    before: Option<Places>,
) -> Option<Places>
    requires from { from ≤ count }
    requires long { 2 * (STRIDE * count) ≤ length long.now + 2 * (STRIDE - 1) }
    requires short { 2 * count ≤ length short.now }
    requires stride { (STRIDE ≡ 1) ⊎ (STRIDE ≡ 2) }
    requires before { AreOthers (differs STRIDE long.now short.now) from before }
    ensures { AreOthers (differs STRIDE long.now short.now) count result }
{
    let mut places = before;
    for number in from..count {
        places = with_one(places, number, differ_at::<STRIDE>(long, short, number));
    }
    places
}

/// Those of so many values that differ, where behind the last of them there is room for all of its stride.
fn numbers_in_room<const STRIDE: usize>(long: &[u8], short: &[u8], count: usize) -> Option<Places>
    requires stride { (STRIDE ≡ 1) ⊎ (STRIDE ≡ 2) }
    requires long { 2 * (STRIDE * count) ≤ length long.now }
    requires short { 2 * count ≤ length short.now }
    ensures { AreOthers (differs STRIDE long.now short.now) count result }
{
    if count >= MANY {
        numbers_at_once::<STRIDE, MANY>(long, short, count)
    } else if count >= SOME {
        numbers_at_once::<STRIDE, SOME>(long, short, count)
    } else {
        numbers_behind::<STRIDE>(long, short, 0, count, None)
    }
}

/// The numbers of those of so many values that differ: with a stride of 2 every second sample of one file, and each of the
/// other. Behind the last of them no other sample needs to stand.
#[tactic(auto, using(crate::proofs::PlaceCountFacts::first_within, crate::proofs::PlaceCountFacts::last_within))]
pub fn numbers_of<const STRIDE: usize>(long: &[u8], short: &[u8], count: usize) -> Option<Places>
    requires stride { (STRIDE ≡ 1) ⊎ (STRIDE ≡ 2) }
    requires long { 2 * (STRIDE * count) ≤ length long.now + 2 * (STRIDE - 1) }
    requires short { 2 * count ≤ length short.now }
    ensures bytes { AreOthers (differs STRIDE long.now short.now) count result }
    ensures values { AreOthers (values_differ STRIDE long.now short.now) count result }
    ensures first { IfSome result (λ places. places.first < count) }
    ensures last { IfSome result (λ places. places.last < count) }
{
    let whole = if STRIDE == 1 {
        count
    } else {
        count.min(long.len() / 4)
    };
    let places = numbers_in_room::<STRIDE>(long, short, whole);
    numbers_behind::<STRIDE>(long, short, whole, count, places)
}
