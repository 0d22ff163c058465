//! Whether the annotation lanes of a data record may say so much that it is judged before its annotations are kept.
//! Either way gives the same answer: only time and memory rest on it.

ghost use Rattle.std.specs.Prelude.{◌+◌, ◌≤◌, length};

use crate::records::lanes::placed_lane;
use edf_header::{Header, LanePlace};
use edf_tal::TEXT_END;
use std::simd::prelude::*;

/// How many bytes are looked at together.
const BLOCK: usize = 32;

/// A bit for each of them.
const ALL_BYTES: u64 = 0xFFFF_FFFF;

/// The most texts of a data record that go to a keeper before its faults are known.
const MOST_TEXTS: usize = 1_024;

/// The most bytes of annotation lanes whose texts do.
const MOST_LANE_BYTES: usize = 65_536;

/// How many bytes lanes have, up to the most that fit.
fn lane_bytes(places: &[LanePlace]) -> usize {
    let mut count: usize = 0;
    for place in places {
        count = count.saturating_add(2 * place.samples as usize);
    }
    count
}

/// The places in the 32 bytes from `place` on at which a byte stands, as bits.
#[inline(always)]
fn places_in_block(bytes: &[u8], place: usize, byte: u8) -> u64
    requires { place + 32 ≤ length bytes.now }
{
    u8x32::from_slice(&bytes[place..])
        .simd_eq(u8x32::splat(byte))
        .to_bitmask()
}

/// How many of the 32 bytes from a place on end a text; none where they are zeros alone.
#[inline(always)]
fn ends_in_block(bytes: &[u8], place: usize) -> Option<usize>
    requires { place + 32 ≤ length bytes.now }
{
    if places_in_block(bytes, place, 0) == ALL_BYTES {
        return None;
    }
    Some(places_in_block(bytes, place, TEXT_END).count_ones() as usize)
}

/// How many of a few bytes end a text, up to the most that fit.
#[inline(always)]
fn ends_in(bytes: &[u8]) -> usize {
    let mut count: usize = 0;
    for byte in bytes {
        if *byte == TEXT_END {
            count = count.saturating_add(1);
        }
    }
    count
}

/// How many bytes of a lane end a text, up to the most that fit, as far as its first block of zeros: no fewer than it
/// has texts, since behind two zeros there is no TAL any more.
fn most_texts(lane: &[u8]) -> usize {
    let mut count: usize = 0;
    let mut place = 0;
    while place + BLOCK <= lane.len() {
        match ends_in_block(lane, place) {
            Some(ends) => count = count.saturating_add(ends),
            None => return count,
        }
        place += BLOCK;
    }
    count.saturating_add(ends_in(&lane[place..]))
}

/// No fewer than the texts of these lanes, up to the most that fit.
fn most_texts_of(places: &[LanePlace], bytes: &[u8]) -> usize {
    let mut count: usize = 0;
    for place in places {
        count = count.saturating_add(most_texts(placed_lane(*place, bytes)));
    }
    count
}

/// Whether the annotation lanes of a data record may have many texts, or long ones.
pub(crate) fn may_say_much(header: &Header, bytes: &[u8]) -> bool {
    if bytes.len() <= MOST_TEXTS {
        return false;
    }
    let places = header.annotation_places();
    let said = lane_bytes(places);
    said > MOST_TEXTS && (said > MOST_LANE_BYTES || most_texts_of(places, bytes) > MOST_TEXTS)
}
