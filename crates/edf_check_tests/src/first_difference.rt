//! Two slices of bytes that differ from each place on, or in a single byte.

ghost use Rattle.std.specs.Prelude.{◌≤◌};

use edf_pace::first_difference;
use std::process::Abort;

/// Two slices that differ from a place on, which is found; where it is their end, none is.
fn assert_place(rt: &impl Abort, length: usize, place: usize)
    requires place { place ≤ length }
    requires length { length ≤ 100 }
{
    let zeros = [0u8; 100];
    let mut others = [0u8; 100];
    others[place..].fill(1);
    let want = if place < length { Some(place) } else { None };
    let found = first_difference(&zeros[..length], &others[..length]);
    assert_eq!(rt; found, want, "{length} bytes, from {place} on");
}

#[test]
fn finds_each_place_of_each_length(rt: HostRuntime) {
    for length in 0..101 {
        for place in 0..length + 1 {
            assert_place(&rt, length, place);
        }
    }
}

#[test]
fn finds_a_single_byte(rt: HostRuntime) {
    let zeros = [0u8; 100];
    for place in 0..100 {
        let mut others = [0u8; 100];
        others[place] = 128;
        assert_eq!(rt; first_difference(&zeros, &others), Some(place));
    }
}
