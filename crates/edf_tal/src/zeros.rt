//! Zeros to the end of a lane. EDF+ (2003), "Time-stamped Annotations Lists (TALs) in an 'EDF Annotations'
//! signal".

ghost use Rattle.std.specs.Prelude.{◌≡◌, ◌+◌, ◌≤◌, ◌<◌, ℕ, length, slice_index, IsTrue};
ghost use Rattle.edf_tal.specs.Reading.{are_zeros};
ghost use Rattle.edf_tal.specs.Zeros.{HasZerosBefore};

use std::simd::prelude::*;

/// How many bytes are looked at together.
const BLOCK: usize = 32;

/// How many are where there are fewer than that, and where there are fewer than these.
const HALF: usize = 16;

const QUARTER: usize = 8;

/// Whether the 32 bytes from a place on are zeros.
#[inline(always)]
fn is_zero_block(bytes: &[u8], place: usize) -> bool
    requires { place + 32 ≤ length bytes.now }
    ensures { IsTrue result → (k : ℕ) → k < place + 32 → place ≤ k → slice_index bytes.now k ≡ 0 }
{
    u8x32::from_slice(&bytes[place..])
        .simd_ne(u8x32::splat(0))
        .to_bitmask()
        == 0
}

/// Whether the 16 bytes from a place on are zeros.
#[inline(always)]
fn is_zero_half(bytes: &[u8], place: usize) -> bool
    requires { place + 16 ≤ length bytes.now }
    ensures { IsTrue result → (k : ℕ) → k < place + 16 → place ≤ k → slice_index bytes.now k ≡ 0 }
{
    u8x16::from_slice(&bytes[place..])
        .simd_ne(u8x16::splat(0))
        .to_bitmask()
        == 0
}

/// Whether the 8 bytes from a place on are zeros.
#[inline(always)]
fn is_zero_quarter(bytes: &[u8], place: usize) -> bool
    requires { place + 8 ≤ length bytes.now }
    ensures { IsTrue result → (k : ℕ) → k < place + 8 → place ≤ k → slice_index bytes.now k ≡ 0 }
{
    u8x8::from_slice(&bytes[place..])
        .simd_ne(u8x8::splat(0))
        .to_bitmask()
        == 0
}

/// So many bytes at the front are zeros, as far as whole blocks are.
#[inline(always)]
fn zero_blocks(bytes: &[u8]) -> usize
    ensures within { result ≤ length bytes.now }
    ensures zeros { HasZerosBefore result bytes.now }
{
    let mut place = 0;
    while place + BLOCK <= bytes.len() {
        if !is_zero_block(bytes, place) {
            break;
        }
        place += BLOCK;
    }
    place
}

/// So many bytes at the front are zeros: as far as whole blocks are, or all, where the last block of them is
/// zeros, too. Only speed rests on how many they are.
#[inline(always)]
fn zero_front(bytes: &[u8]) -> usize
    ensures within { result ≤ length bytes.now }
    ensures zeros { HasZerosBefore result bytes.now }
{
    let place = zero_blocks(bytes);
    let rest = bytes.len() - place;
    if rest < BLOCK && BLOCK <= bytes.len() && is_zero_block(bytes, bytes.len() - BLOCK) {
        bytes.len()
    } else {
        place
    }
}

/// The same of fewer bytes than a block has: all or none, by the first and the last of them.
#[inline(always)]
fn short_zero_front(bytes: &[u8]) -> usize
    requires few { length bytes.now < 32 }
    requires some { 8 ≤ length bytes.now }
    ensures within { result ≤ length bytes.now }
    ensures zeros { HasZerosBefore result bytes.now }
{
    let len = bytes.len();
    if len < HALF {
        return if is_zero_quarter(bytes, 0) && is_zero_quarter(bytes, len - QUARTER) {
            len
        } else {
            0
        };
    }
    if is_zero_half(bytes, 0) && is_zero_half(bytes, len - HALF) {
        len
    } else {
        0
    }
}

/// So many bytes at the front are zeros; none of very few.
#[inline(always)]
fn any_zero_front(bytes: &[u8]) -> usize
    ensures within { result ≤ length bytes.now }
    ensures zeros { HasZerosBefore result bytes.now }
{
    if bytes.len() >= BLOCK {
        zero_front(bytes)
    } else if bytes.len() >= QUARTER {
        short_zero_front(bytes)
    } else {
        0
    }
}

/// Whether the bytes are zeros alone, byte by byte.
fn all_zeros(bytes: &[u8]) -> bool
    ensures { result ≡ are_zeros bytes.now }
{
    bytes.iter().all(|byte| *byte == 0)
}

/// Whether the bytes are zeros alone.
///
/// Whole blocks of bytes are looked at together, and what is left of them byte by byte.
#[inline(always)]
pub(crate) fn are_zeros(bytes: &[u8]) -> bool
    ensures { result ≡ are_zeros bytes.now }
{
    all_zeros(&bytes[any_zero_front(bytes)..])
}
