//! Where an export starts.

/// By how much, when it starts, and when it is claimed to.
pub(crate) const STARTS_EARLIER: &str =
    "The export starts {0} earlier than claimed: its first samples are at {1}, and by the claim they should be at {2}.";

pub(crate) const STARTS_LATER: &str =
    "The export starts {0} later than claimed: its first samples are at {1}, and by the claim they should be at {2}.";

pub(crate) const SHIFT_FORGOTTEN: &str =
    "It starts as if nothing had been moved: it looks like the shift of the claim was forgotten in the export, or isn't meant. The date of the recording may then be the true one, and the export doesn't go out before that is settled.";

pub(crate) const SHIFT_TURNED: &str =
    "It starts as if it had been moved the other way: it looks like the sign of the shift was reversed, in the export or in the claim.";

pub(crate) const NO_SHIFT_FITS: &str =
    "No shift lets it start as claimed, as a shift is whole seconds. Where the original starts inside a second, its first data record says so, and so does that of an export: some software leaves this fraction out.";

/// The most seconds.
pub(crate) const SHIFT_BEYOND: &str =
    "No shift lets it start as claimed, as a shift is at most {0} s either way.";

pub(crate) const NOTHING_KEPT: &str =
    "The claim keeps no sample of the original: its intervals lie after the end of the recording, in a gap, or before its first data record. They count seconds from the original's start.";

pub(crate) const KEPT_BETWEEN: &str =
    "The claim keeps no sample of the original: an interval, or a part of it, lies in a data record, and no sample of a claimed channel stands there, for instance between two samples. An interval keeps what stands at its beginning, and not what stands at its end.";
