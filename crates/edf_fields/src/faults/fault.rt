//! Why a file is no file of the profile, and where.

use crate::faults::cause::{FieldCause, TalCause};
use crate::fields::layout::{FixedField, SignalField};

/// Where a fault stands. Signals and data records count from 0.
#[derive(Debug, Clone, Copy, PartialEq, Eq)]
pub enum Place {
    /// At a field of the fixed part.
    AtField(FixedField),
    /// At a field of a signal.
    AtSignal(u16, SignalField),
    /// In a data record.
    AtRecord(u32),
    /// Behind the last data record.
    AtEnd,
}

/// What is wrong there.
#[derive(Debug, Clone, Copy, PartialEq, Eq)]
pub enum Cause {
    /// The file ends before the byte that is wanted.
    Truncated,
    /// A byte is below 32 or above 126.
    NotPrintable,
    /// The version isn't `0`.
    BadVersion,
    /// The field says no patient, or no recording.
    BadSubfields(FieldCause),
    /// The startdate says no day, by itself or, with the letters `yy` for its year, with a recording date after 2084;
    /// or the starttime is no time `hh.mm.ss`.
    BadStart,
    /// The recording date is another day than the startdate; or, beside one with the letters `yy`, it is another day of
    /// the month or of another month.
    StartdateDiffers,
    /// The header's size isn't 256 bytes and 256 more for each signal.
    BadHeaderSize,
    /// The reserved field begins neither with `EDF+C` nor with `EDF+D`.
    NotEdfPlus,
    /// The field doesn't spell a number, or no whole one where one has to stand.
    BadNumber,
    /// The number is none that may stand here, alone or beside those of the same signal.
    BadRange,
    /// The digital extremes of an annotation signal aren't -32768 and 32767.
    BadAnnotationSignal,
    /// No signal has the label `EDF Annotations`.
    NoAnnotationSignal,
    /// Every signal has the label `EDF Annotations`.
    NoOrdinarySignal,
    /// A channel has the label of an earlier one.
    DuplicateLabel,
    /// A data record has more than 16,777,216 bytes.
    RecordTooLarge,
    /// An annotation lane of a data record is no list of TALs.
    BadTal(TalCause),
    /// A data record doesn't say when it starts.
    NoTimekeeping,
    /// The first data record starts before 0 s, or not before 1 s.
    BadFirstStart,
    /// A data record doesn't start where the one before ends.
    NotContiguous,
    /// A data record starts before the one before ends.
    Overlap,
    /// The file has more than 1,000,000 annotations, time-keeping texts not counted.
    TooManyAnnotations,
    /// A byte stands behind the last data record.
    TrailingBytes,
}

/// The first fault of a file in the written order of tests.
#[derive(Debug, Clone, Copy, PartialEq, Eq)]
pub struct Fault {
    /// Where it stands.
    pub place: Place,
    /// What is wrong there.
    pub cause: Cause,
}
