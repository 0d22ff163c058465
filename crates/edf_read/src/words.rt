//! The lines for a person to read. `{0}` stands for the first thing that is put into a line, `{1}` for the second.

// The course of the recording.

pub(crate) const CONTIGUOUS: &str = "kind: EDF+C, without gaps";

pub(crate) const INTERRUPTED: &str = "kind: EDF+D, which may have gaps";

pub(crate) const START: &str = "start: {0}";

/// How much later the first data record starts.
pub(crate) const FIRST: &str = "first data record: {0} after the start";

/// The end, and how long after the start it is.
pub(crate) const END: &str = "end: {0}, {1} after the start";

/// How many there are, and how long each is.
pub(crate) const RECORDS: &str = "data records: {0}, of {1} each";

// The subfields: the name, and the text.

pub(crate) const SUBFIELD: &str = "{0}: {1}";

// The channels.

/// The label, the number of samples, the digital extremes, the physical ones and the unit.
pub(crate) const CHANNEL: &str =
    "channel {0}: samples in a data record: {1}; {2} to {3} stand for {4} to {5} {6}";

/// The transducer and the prefilter.
pub(crate) const CHANNEL_TEXTS: &str = "  transducer {0}, prefilter {1}";

// The annotations.

pub(crate) const NOTES: &str = "annotations: {0}";

/// When it begins, by the clock, and in seconds after the start.
pub(crate) const ONSET: &str = "{0} ({1})";

/// The same without the clock.
pub(crate) const BARE_ONSET: &str = "{0}";

pub(crate) const DURATION: &str = ", for {0}";

/// The data record in which it stands, counted from 0.
pub(crate) const PLACE: &str = ", data record {0}";

/// The same of several that are equal, with how many there are.
pub(crate) const PLACES: &str = ", {1} times, first in data record {0}";

pub(crate) const NOTE: &str = ": {0}";

pub(crate) const EMPTY_LINE: &str = "";
