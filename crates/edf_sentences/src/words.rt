//! The words of the pieces of sentences.

/// A unit of time, for one and for more of them.
#[derive(Clone, Copy)]
pub(crate) struct Unit {
    pub(crate) one: &'static str,
    pub(crate) more: &'static str,
}

// Times.

pub(crate) const DAYS: Unit = Unit {
    one: "day",
    more: "days",
};

pub(crate) const HOURS: Unit = Unit {
    one: "hour",
    more: "hours",
};

pub(crate) const MINUTES: Unit = Unit {
    one: "minute",
    more: "minutes",
};

pub(crate) const SECONDS_UNIT: &str = " s";

pub(crate) const NO_DAY: &str = "beyond the calendar";

// Bytes, in front of their digits.

pub(crate) const NO_BYTES: &str = "nothing";

pub(crate) const ONE_BYTE: &str = "the byte";

pub(crate) const SOME_BYTES: &str = "the bytes";

// What stands in many sentences.

pub const FULL_STOP: &str = ".";

/// What comes next in a list.
pub const NEXT: &str = ", {0}";

/// How many are left out of a list.
pub const NOT_LISTED: &str = "  and {0} more";
