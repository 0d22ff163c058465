//! Which samples of the lanes of a data record stand between two times: lanes with equally many samples share it.

ghost use Rattle.std.specs.Prelude.{◌≤◌, ◌<◌, ◌*◌, ◌+◌, ◌^◌, unsigned_abs};

/// Which samples stand between two times, of each lane of a data record that has so many samples.
#[derive(Clone, Copy)]
pub struct Share {
    /// How many samples the lanes have.
    pub samples: u32,
    /// Where the first of them between the two times stands, in units of 1 / `samples` picoseconds.
    pub num: i128,
    /// The place of that one in the lane.
    pub begin: usize,
    /// The place behind the last one.
    pub end: usize,
    ghost order: { begin ≤ end },
    ghost within: { end ≤ samples },
    ghost small: { unsigned_abs num < 3 * 2 ^ 102 + 2 ^ 93 },
}
