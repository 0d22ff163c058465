//! What was tried, and what the check answers with it.

// Channels.

pub(crate) const WITH_CHANNEL: &str = "With channels = [{0}";

pub(crate) const CHANNELS_YES: &str =
    "] the answer would be {0}. Export again, or claim these channels if they are meant.";

pub(crate) const CHANNELS_NO: &str = "] the first difference would be {0}.";

// Shifts.

/// A shift that was tried, and what the check answers with it.
pub(crate) const WITH_SHIFT_YES: &str =
    "With shift = {0} the answer would be {1}. Export again, or claim this shift if it is meant. Nothing else differs, so no sample and no annotation is listed.";

pub(crate) const WITH_SHIFT_NO: &str = "With shift = {0} the first difference would be {1}.";

/// The shifts that were tried.
pub(crate) const NO_BETTER_SHIFT: &str =
    "Other shifts were tried, and with none of them the first samples are as claimed: {0}";

pub(crate) const CUT_ELSEWHERE: &str =
    ". It looks like the export was cut elsewhere than claimed: compare the intervals of the claim with what was exported.";

pub(crate) const RECKONED_ANEW: &str =
    "With it all samples are as claimed. What follows is worked out with shift = {0}.";

pub(crate) const RECKONED_AS_CLAIMED: &str =
    "What follows is worked out with shift = {0}, as claimed.";

// Ends of intervals.

/// The end of an interval that was tried, the claimed one, and what the check answers with it.
pub(crate) const WITH_END_YES: &str =
    "With to = \"{0}\" in place of \"{1}\" the answer would be {2}. Export again, or claim this end if it is meant.";

pub(crate) const WITH_END_NO: &str =
    "With to = \"{0}\" in place of \"{1}\" the first difference would be {2}.";
