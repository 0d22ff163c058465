//! Annotations.

pub(crate) const NOTE_MISSING: &str = "The export lacks 1 annotation that the claim keeps:";

pub(crate) const NOTES_MISSING: &str = "The export lacks {0} annotations that the claim keeps:";

pub(crate) const NOTE_EXTRA: &str = "The export has 1 annotation that the claim doesn't keep:";

pub(crate) const NOTES_EXTRA: &str = "The export has {0} annotations that the claim doesn't keep:";

/// How many annotations, and by how much they are moved.
pub(crate) const NOTES_LATER: &str =
    "All {0} annotations that differ are only moved: the export has each of them with its text and its duration, {1} later than the claim keeps it.";

pub(crate) const NOTES_EARLIER: &str =
    "All {0} annotations that differ are only moved: the export has each of them with its text and its duration, {1} earlier than the claim keeps it.";

pub(crate) const NOTES_WITHOUT_DURATIONS: &str =
    "All {0} annotations that differ only lack their durations: the export has each of them at its time and with its text. Export again with durations.";

pub(crate) const LISTED: &str = "  ";

pub(crate) const DURATION: &str = ", duration {0}, text ";

pub(crate) const NO_DURATION: &str = ", no duration, text ";

pub(crate) const NOTE_TEXT: &str = "{0}";

pub(crate) const AT_END: &str =
    "    It begins exactly at the end of a kept interval, and what begins there isn't kept; some writers, such as EDFbrowser, keep it. Delete it from the export.";

pub(crate) const OUTSIDE: &str = "    It begins outside the kept intervals.";

pub(crate) const REMOVED_BUT_THERE: &str =
    "    The claim removes this text. If it names somebody, the export doesn't go out.";

pub(crate) const LIKE_CUT: &str =
    "    It is the beginning of a longer text of the original at this time: some writers, such as EDFlib, cut texts to 40 bytes. Keep texts short, or export with other software.";

pub(crate) const LIKE_ROUNDED: &str =
    "    The claim keeps this text a little earlier or later: it looks like a time that was rounded; some writers, such as EDFlib, write times to 0.1 ms.";

/// The bytes of the original, and those of the export.
pub(crate) const LIKE_ALIKE: &str =
    "    It looks like a text that the claim keeps at this time, and has other bytes: the original has {0} where the export has {1}.";

pub(crate) const LIKE_BLANKED: &str =
    "    At this time the claim keeps another text. It looks like it was made X, as blank does in a claim.";

pub(crate) const NOT_BLANKED: &str =
    "    The claim blanks this text: where it is kept, X is to stand in its place. If it names somebody, the export doesn't go out.";

pub(crate) const LIKE_OTHER_DURATION: &str =
    "    At this time the claim keeps this text with another duration.";

pub(crate) const LIKE_OTHER_TEXT: &str =
    "    At this time the claim keeps an annotation with another text, which the export lacks.";

pub(crate) const NOT_IN_ORIGINAL: &str =
    "    The original has no such annotation: delete it from the export.";

pub(crate) const LESS_OFTEN: &str =
    "    The claim keeps this annotation, but fewer times than the export has it: delete the surplus ones from the export.";

pub(crate) const LIKE_MOVED: &str =
    "    The export lacks an annotation with this text at another time: it looks like one that was moved.";

pub(crate) const NOTES_ADVICE: &str =
    "Run edfclaim notes on both files to see all annotations. In a claim, remove and remove-prefix leave annotations out by their texts, and blank makes their texts X.";

pub(crate) const NOTES_ALL: &str = "Run edfclaim notes on both files to see all annotations.";
