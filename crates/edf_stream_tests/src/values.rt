//! The values of bytes: two of them, the low one first, in two's complement; and where samples at even distances
//! stand. EDF (1992), "Data record".

use edf_stream::{distance, num_at, value_at};

/// Bytes of a lane, a place in it, and the value there.
const VALUES: &[(&[u8], usize, i16)] = &[
    (&[0x00, 0x00], 0, 0),
    (&[0x01, 0x00], 0, 1),
    (&[0x00, 0x01], 0, 256),
    (&[0xff, 0x7f], 0, 32_767),
    (&[0x00, 0x80], 0, -32_768),
    (&[0xff, 0xff], 0, -1),
    (&[0x00, 0x00, 0x03, 0x04], 1, 1027),
    (&[0x07, 0x00, 0xf9, 0xff, 0x05], 1, -7),
];

#[test]
fn gives_the_value_at_a_place(rt: HostRuntime) {
    for (lane, place, value) in VALUES {
        assert!(rt;
            *place < lane.len() / 2 && value_at(lane, *place) == *value,
            "{value}"
        );
    }
}

/// A first numerator, a step, a place, and the numerator there.
const NUMERATORS: &[(i128, i128, usize, i128)] = &[
    (0, 1, 0, 0),
    (7, 1_000_000_000_000, 3, 3_000_000_000_007),
    (-5, 2, 4, 3),
    (-5, -2, 4, -13),
    (
        4_060_425_600_000_000_000_000,
        1_000_000_000_000,
        1,
        4_060_425_601_000_000_000_000,
    ),
];

#[test]
fn gives_the_numerator_at_a_place(rt: HostRuntime) {
    for (start, step, place, num) in NUMERATORS {
        let is_bounded = start.unsigned_abs() < 1 << 80
            && step.unsigned_abs() < 1 << 60
            && *place < 9;
        assert!(rt;
            is_bounded && num_at(*start, *step, *place) == *num,
            "{num}"
        );
        assert!(rt;
            is_bounded && start.checked_add(distance(*step, *place)) == Some(*num),
            "{num}"
        );
    }
}
