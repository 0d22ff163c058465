//! The texts of the sentences on a claim that is refused. `{0}` stands for the first thing that is put into a sentence, `{1}` for
//! the second. Where a line is known, it stands in front.

pub(crate) const AT_LINE: &str = "line {0}: ";

pub(crate) const AT_COLUMN: &str = "line {0}, column {1}: ";

pub(crate) const LINE_CONTENT: &str = "{0}: ";

pub(crate) const CLAIM_IS_A_RECORDING: &str =
    "The file that was typed as the claim looks like a recording. The order is: the original, the export, the claim; with check-parts, explain-parts and receipt-parts: the original, the claim, the exports.";

/// How many bytes it may have.
pub(crate) const CLAIM_TOO_LONG: &str =
    "The claim has more than {0} bytes: shorten it. Texts and comments count.";

/// The line, and the column.
pub(crate) const NOT_UTF8: &str =
    "line {0}, column {1}: a letter there isn't UTF-8: save the claim as UTF-8, in an editor for plain text.";

/// The line, the column and what a reader of TOML says.
pub(crate) const NOT_TOML: &str = "line {0}, column {1}: {2}";

pub(crate) const THE_LINE: &str = "  {0}";

/// The name of the mark, and the plain one.
pub(crate) const MARK_IN_LINE: &str =
    "  This line has {0}. If it isn't meant as a part of a text, write the plain {1} in its place.";

pub(crate) const NOT_TOML_ADVICE: &str =
    "A claim is TOML: each text stands between quotation marks, a list between [ and ], with a comma between two of its texts, and no key stands twice.";

pub(crate) const FORMAT_MISSING: &str =
    "The claim doesn't say its format: write format = 1 in its first line, or format = 2 where it has remove-prefix or blank.";

pub(crate) const FORMAT_QUOTED: &str = "write format = 1 or format = 2, without quotation marks";

pub(crate) const FORMAT_OTHER: &str = "write format = 1 or format = 2";

pub(crate) const FORMAT_IN_TABLE: &str =
    "this line comes after a [[keep]] and belongs to it: write it before the first [[keep]]";

/// The key.
pub(crate) const KEY_OF_FORMAT_2: &str = "{0} is a key of format 2: write format = 2";

pub(crate) const KEY_OF_KEEP: &str =
    "{0} belongs in an interval: write [[keep]] in the line above it";

/// The key, and the one that may be meant.
pub(crate) const KEY_MISSPELT: &str = "{0} isn't a key of a claim: {1} may be meant";

/// The key, the keys of each claim, and those of format 2.
pub(crate) const KEY_UNKNOWN: &str =
    "{0} isn't a key of a claim: the keys are {1}, and with format = 2 {2}";

/// The most seconds.
pub(crate) const SHIFT_TOO_LARGE: &str = "a shift is a number of seconds from -{0} to {0}";

pub(crate) const SHIFT_NOT_WHOLE: &str =
    "a shift is whole seconds: write it without a dot and without an exponent";

pub(crate) const SHIFT_QUOTED: &str =
    "write the shift without quotation marks, such as shift = -86400";

/// What stands there, the seconds, the unit, and how many seconds it has.
pub(crate) const SHIFT_IN_UNITS: &str =
    "a shift is whole seconds, without quotation marks and without a unit: one {2} is {3} s, so {0} is shift = {1}";

pub(crate) const SHIFT_OTHER: &str =
    "a shift is whole seconds, such as shift = -86400 for a day back";

/// The key.
pub(crate) const TEXTS_MISSING: &str =
    "The claim has no {0} before the first [[keep]]: write {0} = [\"..\"], with each text between quotation marks.";

pub(crate) const TEXTS_NO_ARRAY: &str =
    "write {0} = [\"..\"]: a list between [ and ], with each text between quotation marks";

pub(crate) const TEXTS_NO_TEXT: &str =
    "something in the list of {0} isn't a text: write each between quotation marks";

pub(crate) const TEXTS_NESTED: &str =
    "there is a list in the list of {0}: write all texts in one list";

/// The text, and the key.
pub(crate) const TEXT_TWICE: &str = "{0} occurs twice in {1}: write it once";

pub(crate) const PREFIX_EMPTY: &str =
    "an empty text in remove-prefix would remove all annotations: take it out";

pub(crate) const CHANNELS_EMPTY: &str =
    "write at least one channel, as edfclaim show prints its label";

pub(crate) const LABEL_OF_ANNOTATIONS: &str =
    "{0} is the label of signals that hold annotations and can't be claimed: take it out. Annotations are kept by their times and texts.";

pub(crate) const LABEL_NOT_ASCII: &str =
    "{0} can't be a label: it has a character other than the plain letters, digits and punctuation of English";

pub(crate) const LABEL_WITH_CONTROL: &str =
    "{0} can't be a label: it has a control character, such as a tab or a line break";

/// The label, its key, and how many characters a label may have.
pub(crate) const LABEL_TOO_LONG: &str = "{0} can't be a label: a label has at most {2} characters";

pub(crate) const LABEL_WITH_SPACE: &str =
    "{0} can't be a label: write it without the space at its end";

/// The name, and the one that may be meant.
pub(crate) const NAME_MISSPELT: &str = "{0} isn't a subfield: {1} may be meant";

pub(crate) const NAME_UNKNOWN: &str = "{0} isn't a subfield";

pub(crate) const NAMES: &str = "The names that anonymous can have are: {0}";

/// The most seconds of a time.
pub(crate) const KEEP_MISSING: &str =
    "The claim keeps no interval: write [[keep]], and below it from = \"0\" and to = \"{0}\" for the whole recording.";

pub(crate) const KEEP_SINGLE: &str =
    "An interval is written below [[keep]], with double brackets, even where there is only one: [keep] means something else.";

/// How many there are, and how many there may be.
pub(crate) const KEEP_TOO_MANY: &str = "The claim keeps {0} intervals: at most {1} are allowed.";

pub(crate) const KEEP_NO_TABLE: &str =
    "write each interval below a line [[keep]] of its own, with a line from = \"..\" and a line to = \"..\"";

/// The key, and the number of the interval from 1 on.
pub(crate) const KEEP_HAS_KEY_OF_CLAIM: &str =
    "{0} comes after a [[keep]] and belongs to it: write it before the first [[keep]]";

pub(crate) const KEEP_HAS_OTHER_KEY: &str =
    "{0} isn't a key of an interval, which has only from and to";

pub(crate) const KEEP_BACKWARDS: &str =
    "interval {1} ends where it begins, or earlier: from has to be less than to";

pub(crate) const KEEP_OUT_OF_ORDER: &str =
    "interval {1} begins before the one in front of it ends: write the intervals in the order of time, so that none overlap";

pub(crate) const TIME_MISSING: &str =
    "interval {1} has no {0}: write {0} = \"..\", in seconds from the original's start";

pub(crate) const TIME_NO_TEXT: &str =
    "{0} has to be a text: write seconds between quotation marks, as {0} = \"600\"";

/// The key, and what stands there.
pub(crate) const TIME_NOT_QUOTED: &str = "write {0} = \"{1}\", between quotation marks";

pub(crate) const TIME_FLOAT_NOT_QUOTED: &str =
    "write the number between quotation marks, as {0} = \"0.5\"";

pub(crate) const TIME_EMPTY: &str =
    "{0} is empty: write seconds from the original's start, as {0} = \"600\"";

pub(crate) const TIME_IS_A_CLOCK: &str =
    "{0} can't be a date or a time of day: write seconds from the original's start, which edfclaim show prints; an hour is 3600 s";

/// The key, what stands there, and the seconds.
pub(crate) const TIME_IN_SECONDS: &str =
    "  {1} is {2} s: as a length of time, {0} = \"{2}\". From a time of day, subtract the original's start, which edfclaim show prints, and add 86400 s if it is on the next day.";

/// The key, and the name of the mark.
pub(crate) const TIME_WITH_MARK: &str =
    "{0} has {1}: write only digits, with a dot between them if needed, as {0} = \"0.5\"";

pub(crate) const TIME_WITH_COMMA: &str = "{0} has a comma: write a dot in its place";

pub(crate) const TIME_WITH_SIGN: &str =
    "{0} has a sign: write it without, as seconds from the original's start";

pub(crate) const TIME_WITH_EXPONENT: &str = "{0} has an exponent: write all digits";

pub(crate) const TIME_WITH_BARE_DOT: &str =
    "{0} has a dot with no digit on one side: write 0.5 for .5, and 5 for 5.";

/// The key, what stands there, and how many digits may stand in front of a dot and behind it.
pub(crate) const TIME_TOO_LONG: &str =
    "{0} has too many digits: at most {2} stand in front of the dot, and {3} behind it";

pub(crate) const TIME_OTHER: &str =
    "{0} isn't a number of seconds: write only digits, with a dot between them if needed, as {0} = \"600\" or {0} = \"0.5\"";
