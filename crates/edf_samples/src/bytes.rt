//! Where two slices of bytes differ first.

ghost use Rattle.std.specs.Prelude.{◌≡◌, ◌+◌, ◌≤◌, ◌<◌, ℕ, length, slice_index, IsTrue, IfSome, IfNone};
ghost use Rattle.edf_samples.specs.Stretches.{AreAlikeBefore, IsLeastPlace};

use std::simd::prelude::*;

/// How many bytes are compared at a time.
const BLOCK: usize = 32;

/// Whether the 32 bytes from a place on are the same.
#[inline(always)]
fn is_same_block(a: &[u8], b: &[u8], place: usize) -> bool
    requires a { place + 32 ≤ length a.now }
    requires b { place + 32 ≤ length b.now }
    ensures { IsTrue result → (k : ℕ) → k < place + 32 → place ≤ k →
        slice_index a.now k ≡ slice_index b.now k }
{
    u8x32::from_slice(&a[place..])
        .simd_ne(u8x32::from_slice(&b[place..]))
        .to_bitmask()
        == 0
}

/// So many bytes at the front are the same, as far as whole blocks are.
#[inline(never)]
fn alike_blocks(a: &[u8], b: &[u8]) -> usize
    requires { length a.now ≡ length b.now }
    ensures within { result ≤ length a.now }
    ensures alike { AreAlikeBefore result a.now b.now }
{
    let mut place = 0;
    while place + BLOCK <= a.len() {
        if !is_same_block(a, b, place) {
            break;
        }
        place += BLOCK;
    }
    place
}

/// The least place where two slices of one length differ; none where they are the same.
///
/// Whole blocks of 32 bytes are compared at a time, and the block that differs byte by byte. No memory is
/// taken.
pub fn first_difference(a: &[u8], b: &[u8]) -> Option<usize>
    requires { length a.now ≡ length b.now }
    ensures none { IfNone result (a.now ≡ b.now) }
    ensures some { IfSome result (λ place. IsLeastPlace place a.now b.now) }
{
    let alike = alike_blocks(a, b);
    for place in alike..a.len() {
        if a[place] != b[place] {
            return Some(place);
        }
    }
    None
}
