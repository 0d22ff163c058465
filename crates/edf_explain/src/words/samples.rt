//! Samples. The label is the first thing, how many there are the second.

/// A time in seconds, by the clock of the original, and by that of the export.
pub(crate) const AT: &str = "at {0} ({1} in the original, {2} in the export)";

pub(crate) const OTHER_RATE: &str =
    "Channel {0} has another number of samples a second in the export: it looks like it was resampled, or is another channel with this label. Neither is a cut of the original.";

pub(crate) const SAMPLE_MISSING: &str =
    "Channel {0}: 1 sample that the claim keeps is missing in the export.";

pub(crate) const SAMPLES_MISSING: &str =
    "Channel {0}: {1} samples that the claim keeps are missing in the export.";

pub(crate) const SAMPLE_EXTRA: &str =
    "Channel {0}: 1 sample of the export is one that the claim doesn't keep, or the original doesn't have.";

pub(crate) const SAMPLES_EXTRA: &str =
    "Channel {0}: {1} samples of the export are ones that the claim doesn't keep, or the original doesn't have.";

pub(crate) const SAMPLE_CHANGED: &str = "Channel {0}: 1 sample has another value in the export.";

pub(crate) const SAMPLES_CHANGED: &str =
    "Channel {0}: {1} samples have another value in the export.";

pub(crate) const THE_SAMPLE: &str = "  It is ";

pub(crate) const THE_FIRST: &str = "  The first is ";

pub(crate) const THE_LAST: &str = "  The last is ";

pub(crate) const RECORD_OF_ORIGINAL: &str = ", data record {0} of the original";

pub(crate) const RECORD_OF_EXPORT: &str = ", data record {0} of the export";

pub(crate) const VALUES: &str = ": {0} in the original, {1} in the export";

pub(crate) const CAUSE_OF_MISSING: &str =
    "Samples are missing where the export begins too late, ends too early, has a gap, has fewer samples a second, or is moved by another time than claimed: compare the intervals and the shift of the claim with what was exported.";

pub(crate) const CAUSE_OF_EXTRA: &str =
    "There are too many samples where the export begins too early, ends too late, has more samples a second, or is moved by another time than claimed.";

pub(crate) const CAUSE_OF_CHANGED: &str =
    "It looks like a filter, a new scale or a mistake in copying: none of these is a cut of the original.";

/// How many samples have other values, of how many that both files have.
pub(crate) const CAUSE_OF_ALL_CHANGED: &str =
    "Nearly all samples have other values in each of the channels, {0} of the {1} that both files have at the same time: it looks like another cut of the night than claimed, or another night. A filter or a new scale of all channels would do so, too, and is no cut of the original.";
