//! Times at which two files are cut.

ghost use Rattle.std.specs.Prelude.{◌^◌, neg_ℤ, pos, ◌≤ℤ◌, ◌<ℤ◌};

/// A time, in picoseconds after the second at which the original starts, before the shift.
#[derive(Clone, Copy)]
pub struct Time {
    pub ps: i128,
    ghost low: { neg_ℤ (pos (2 ^ 90)) ≤ℤ ps },
    ghost high: { ps <ℤ pos (2 ^ 83) },
}

/// From a time on, and before another.
#[derive(Clone, Copy)]
pub struct Window {
    pub from: Time,
    pub to: Time,
    ghost order: { from.ps ≤ℤ to.ps },
}

/// A time before all data records of all files.
pub const BEGINNING: Time = Time { ps: -(1 << 90) };
