//! Why a field or a time-stamped annotation list is refused (EDF+, "Additional specifications in EDF+",
//! "Time-stamped Annotations Lists (TALs) in an 'EDF Annotations' signal").

/// Why an identification field is refused. Of several causes the first that applies, in the order
/// in which they stand here.
///
/// A recording identification has no sex, and there a missing word `Startdate` comes last.
#[derive(Clone, Copy, Debug, PartialEq, Eq)]
pub enum FieldCause {
    /// A byte is below 32 or above 126.
    NotPrintable,
    /// The field begins with a space.
    LeadingSpace,
    /// There are fewer than the four subfields of a patient, or the five of a recording.
    TooFewSubfields,
    /// The sex is none of `F`, `M` and `X`.
    BadSex,
    /// The date is neither `X` nor a day written `dd-MMM-yyyy`.
    BadDate,
    /// The first subfield isn't `Startdate`.
    NoStartdateWord,
}

/// Why a lane of time-stamped annotation lists is refused. They are looked for in another order than they
/// stand in here: of each list `NoEnd`, `BadOnset`, `BadDuration`, then text by text `NotUtf8` and
/// `ControlByte`; `NotZeroFilled` where no list begins.
#[derive(Clone, Copy, Debug, PartialEq, Eq)]
pub enum TalCause {
    /// What stands in front is no onset.
    BadOnset,
    /// What stands behind byte 21 is no duration.
    BadDuration,
    /// No byte 0 follows, or the byte before it isn't 20.
    NoEnd,
    /// A text isn't UTF-8.
    NotUtf8,
    /// A text has a control byte other than 9, 10 and 13.
    ControlByte,
    /// A byte 0 stands where a list would begin, and a later byte isn't 0.
    NotZeroFilled,
}
