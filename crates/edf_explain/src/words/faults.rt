//! A file that can't be judged, and what its fault means. Where there is too much of something, as much as there may be is the
//! first thing.

use edf_fields::{Cause, Fault, FieldCause, FixedField, Place, SignalField, TalCause};
use edf_stop::Side;

/// The fault, and the file.
pub(crate) const FAULT: &str = "The {1} can't be judged. Its first fault is: {0}.";

pub(crate) const LOOKS_LIKE_A_CLAIM: &str =
    "The {1} looks like a claim. The order is: the original, the export, the claim; with explain-parts: the original, the claim, the exports.";

/// The file of a side.
pub(crate) fn name(side: Side) -> &'static str {
    match side {
        Side::Original => "original",
        Side::Export => "export",
    }
}

/// Whom to turn to with a fault.
pub(crate) fn remedy(side: Side) -> &'static str {
    match side {
        Side::Original => {
            "Export the original again from the recording system, as EDF+. If the recorder itself causes the fault, a corrected copy can take the place of the original: note down who corrected what."
        }
        Side::Export => {
            "It looks like a fault of the software that made the export: export again with other settings or other software, and send these lines to its maker."
        }
    }
}

/// What is wrong with a field of the patient or the recording.
fn field_cause(cause: FieldCause) -> &'static str {
    match cause {
        FieldCause::NotPrintable => {
            "The field has a character other than the plain letters, digits and punctuation of English: write ue for an umlaut, for instance."
        }
        FieldCause::LeadingSpace => {
            "The field begins with a space, or is empty. EDF+ asks for X where nothing is stated."
        }
        FieldCause::TooFewSubfields => {
            "The field has too few words: EDF+ asks for a code, a sex, a birthdate and a name of the patient, and for Startdate, a date, a number, a technician and the equipment of the recording."
        }
        FieldCause::BadSex => "The sex isn't F, M or X.",
        FieldCause::BadDate => {
            "The date is neither X nor a day such as 17-OCT-1951, with the month in three capital letters in English."
        }
        FieldCause::NoStartdateWord => "The field doesn't begin with the word Startdate.",
    }
}

/// What is wrong with the annotations of a data record.
fn tal_cause(cause: TalCause) -> &'static str {
    match cause {
        TalCause::BadOnset => {
            "The time of an annotation isn't a number with + or - in front, or has too many digits."
        }
        TalCause::BadDuration => "The duration of an annotation isn't a number, or has a sign.",
        TalCause::NoEnd => {
            "An annotation isn't closed as EDF+ asks. It may have been too long for its place and been cut off: export with more room for annotations, or with shorter texts."
        }
        TalCause::NotUtf8 => {
            "The text of an annotation isn't UTF-8: it looks like an older encoding, or a letter of several bytes that was cut in two. Export as UTF-8, or write the text without such letters."
        }
        TalCause::ControlByte => {
            "The text of an annotation has a control character in it: type the text again."
        }
        TalCause::NotZeroFilled => {
            "There is something behind the annotations, where there should be nothing. It isn't read, and could be anything."
        }
    }
}

const NO_RECORDS: &str =
    "There are no data records. A number of -1 says that the file is still being recorded: close the recording, and export again.";

const NO_DURATION_OF_RECORD: &str =
    "The data records have no length in time: the file may hold only annotations. Export with channels.";

const NO_SIGNALS: &str = "There are no signals. Export with channels.";

const DIGITAL_RANGE: &str =
    "The channel's digital range goes beyond -32768 to 32767, or its maximum isn't above its minimum. If the file has 24 bits, export it as EDF+ with 16 bits; if not, export again with other software.";

const PHYSICAL_RANGE: &str =
    "The physical minimum and maximum are the same, so the numbers have no meaning: set the channel's range in the recording system.";

const NO_SAMPLES: &str = "The signal has no samples: export without this signal.";

const OTHER_RANGE: &str = "This number isn't allowed here.";

const TRUNCATED: &str =
    "The file ends before everything that its header announces: it looks like a copy that was broken off, or a recording that wasn't closed. Copy it again, and compare the sizes.";

pub(crate) const EMPTY: &str =
    "The file is empty: no byte of it could be read. Copy it again, and compare the sizes.";

pub(crate) const BDF: &str =
    "This is a BDF file, which has 24 bits a sample. Export it as EDF+, which has 16.";

const NOT_PRINTABLE: &str =
    "The field has a character other than the plain letters, digits and punctuation of English, such as an umlaut or a micro sign: write ue or uV, for instance.";

const BAD_VERSION: &str =
    "The file doesn't begin as an EDF file does: it is of another kind, or was damaged. Export it as EDF+.";

const BAD_START: &str =
    "The start isn't a day such as 17.03.19 and a time such as 23.10.00, or the year is written as yy, as after 2084, and the recording's line has no date of that time.";

const STARTDATE_DIFFERS: &str =
    "The header gives the day of the recording twice, and the two differ: it looks like only one of them was moved, or a year after 2084 was written with two digits.";

const BAD_HEADER_SIZE: &str =
    "The header's own size doesn't match its number of signals: it looks like a program added or removed signals without changing this number.";

pub(crate) const NOT_EDF_PLUS: &str =
    "The file says neither EDF+C nor EDF+D: it looks like a file of the older, plain EDF. Export it as EDF+.";

const BAD_NUMBER: &str =
    "The field isn't a plain number, which has no comma, no exponent and no space in front.";

const BAD_ANNOTATION_SIGNAL: &str =
    "The signal holds annotations, and its digital minimum and maximum aren't -32768 and 32767.";

const NO_ANNOTATION_SIGNAL: &str =
    "No signal is labelled EDF Annotations, which EDF+ asks for even where there are no annotations.";

const NO_ORDINARY_SIGNAL: &str =
    "All signals hold annotations: there is no channel. Export with channels.";

const DUPLICATE_LABEL: &str =
    "Two channels have the same label, so the label doesn't tell them apart: give one of them another label.";

const RECORD_TOO_LARGE: &str =
    "A data record has more than {0} bytes: export with shorter data records.";

const NO_TIMEKEEPING: &str = "The data record doesn't say when it starts, as EDF+ asks.";

const BAD_FIRST_START: &str =
    "The first data record starts before the file's own start, or a second or more after it.";

const NOT_CONTIGUOUS: &str =
    "The file says that it has no gaps, but this data record doesn't start where the one before it ends. If there is a gap, export as EDF+D; if there is none, the times may have been rounded, and data records of 1 s help.";

const OVERLAP: &str =
    "This data record starts before the one before it ends: the pieces may not be in the order of time.";

const TOO_MANY_ANNOTATIONS: &str =
    "There are more than {0} annotations. A marker for each sample belongs in a channel.";

const TRAILING_BYTES: &str =
    "Something follows the last data record. It isn't read, and could be anything: the header gives fewer data records than there are, or something was appended.";

/// What is wrong with a number that can't stand where it does.
fn range(place: Place) -> &'static str {
    match place {
        Place::AtField(FixedField::Records) => NO_RECORDS,
        Place::AtField(FixedField::Duration) => NO_DURATION_OF_RECORD,
        Place::AtField(FixedField::Signals) => NO_SIGNALS,
        Place::AtSignal(_, SignalField::DigitalMinimum | SignalField::DigitalMaximum) => {
            DIGITAL_RANGE
        }
        Place::AtSignal(_, SignalField::PhysicalMaximum) => PHYSICAL_RANGE,
        Place::AtSignal(_, SignalField::Samples) => NO_SAMPLES,
        _ => OTHER_RANGE,
    }
}

/// Whether what a number means that can't stand where it does says what is to be done.
fn range_says_remedy(place: Place) -> bool {
    range(place) != OTHER_RANGE
}

/// Whether what a fault means says what is to be done, so that nobody else is turned to.
pub(crate) fn says_remedy(fault: &Fault) -> bool {
    match fault.cause {
        Cause::Truncated
        | Cause::NotPrintable
        | Cause::BadVersion
        | Cause::NotEdfPlus
        | Cause::NoOrdinarySignal
        | Cause::DuplicateLabel
        | Cause::RecordTooLarge
        | Cause::NotContiguous
        | Cause::TooManyAnnotations => true,
        Cause::BadSubfields(cause) => cause == FieldCause::NotPrintable,
        Cause::BadTal(cause) => matches!(
            cause,
            TalCause::NoEnd | TalCause::NotUtf8 | TalCause::ControlByte
        ),
        Cause::BadRange => range_says_remedy(fault.place),
        _ => false,
    }
}

/// What a fault means.
pub(crate) fn meaning_of(fault: &Fault) -> &'static str {
    let place = fault.place;
    match fault.cause {
        Cause::Truncated => TRUNCATED,
        Cause::NotPrintable if place == Place::AtField(FixedField::Version) => BAD_VERSION,
        Cause::NotPrintable => NOT_PRINTABLE,
        Cause::BadVersion => BAD_VERSION,
        Cause::BadSubfields(cause) => field_cause(cause),
        Cause::BadStart => BAD_START,
        Cause::StartdateDiffers => STARTDATE_DIFFERS,
        Cause::BadHeaderSize => BAD_HEADER_SIZE,
        Cause::NotEdfPlus => NOT_EDF_PLUS,
        Cause::BadNumber => BAD_NUMBER,
        Cause::BadRange => range(place),
        Cause::BadAnnotationSignal => BAD_ANNOTATION_SIGNAL,
        Cause::NoAnnotationSignal => NO_ANNOTATION_SIGNAL,
        Cause::NoOrdinarySignal => NO_ORDINARY_SIGNAL,
        Cause::DuplicateLabel => DUPLICATE_LABEL,
        Cause::RecordTooLarge => RECORD_TOO_LARGE,
        Cause::BadTal(cause) => tal_cause(cause),
        Cause::NoTimekeeping => NO_TIMEKEEPING,
        Cause::BadFirstStart => BAD_FIRST_START,
        Cause::NotContiguous => NOT_CONTIGUOUS,
        Cause::Overlap => OVERLAP,
        Cause::TooManyAnnotations => TOO_MANY_ANNOTATIONS,
        Cause::TrailingBytes => TRAILING_BYTES,
    }
}
