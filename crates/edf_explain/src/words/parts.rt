//! Several exports. They are counted from 0, as in the line of the answer.

/// The number of the export; what is said of it follows.
pub(crate) const PART: &str = "Part {0}:";

pub(crate) const PART_AS_CLAIMED: &str = "  Its header and its samples are as claimed.";

pub(crate) const PART_COMPARED: &str =
    "  Its header isn't as claimed. Its samples were compared all the same, of each claimed channel that the original has, too.";

pub(crate) const PART_WITHOUT_CHANNELS: &str =
    "  It has no claimed channel that the original has, too, so none of its samples was compared.";

pub(crate) const PART_EARLY: &str =
    "  It begins before the part in front of it ends, so it isn't known which of the two has the samples there. Its samples weren't compared, nor those of the parts behind it, nor annotations, and no names were looked for: put the parts in the order of time, or make them so that none overlaps the next. If one of them was moved by another time than the others, or not at all, it may seem to overlap them, and its date may be the true one: compare where the parts start before anything goes out.";

pub(crate) const PART_NOT_COMPARED: &str = "  Its samples weren't compared.";

/// When a part starts, by how much earlier, and where the first sample of its channels belongs that is kept behind the part in front of it.
pub(crate) const STARTS_EARLIER: &str =
    "Its first samples are at {0}, {1} earlier than the first one of its channels that the claim keeps behind the part in front of it, which belongs at {2}.";

pub(crate) const STARTS_LATER: &str =
    "Its first samples are at {0}, {1} later than the first one of its channels that the claim keeps behind the part in front of it, which belongs at {2}.";

pub(crate) const NOTES_OF_ALL: &str = "The annotations of all parts together:";

/// The number of the part, and how many annotations.
pub(crate) const NOTE_THEN: &str = "    Part {0} has 1 annotation that begins at this time.";

pub(crate) const NOTES_THEN: &str = "    Part {0} has {1} annotations that begin at this time.";

/// The number of the part.
pub(crate) const NOTE_WITHIN: &str =
    "    This time lies between the begin and the end of part {0}.";

/// How many annotations.
pub(crate) const ALL_IN_EACH: &str =
    "Each part has {0} annotations, as many as the claim keeps in all: it looks as if each of them had all annotations. All parts together are to have each annotation as often as the claim keeps it.";

pub(crate) const NOTES_ADVICE_OF_PARTS: &str =
    "Run edfclaim notes on each file to see all annotations. In a claim, remove and remove-prefix leave annotations out by their texts, and blank makes their texts X.";

pub(crate) const NOTES_ALL_OF_PARTS: &str =
    "Run edfclaim notes on each file to see all annotations.";

pub(crate) const NOTES_OF_ALL_AS_CLAIMED: &str =
    "The annotations of all parts together were compared all the same. They are as claimed.";
