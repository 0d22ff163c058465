//! Faults in words: the cause's name and the place.

ghost use Rattle.std.specs.Prelude.{◌≡◌, Some, IfOk, string_bytes};
ghost use Rattle.edf_fields.specs.FaultTexts.{field_cause_name as field_cause_name_of, tal_cause_name as tal_cause_name_of, cause_name, place_text, fault_text};

use crate::faults::cause::{FieldCause, TalCause};
use crate::faults::fault::{Cause, Fault, Place};
use std::alloc::{AllocError, Global};
use std::fmt;

/// The name of the cause for which an identification field is refused.
fn field_cause_name(cause: FieldCause) -> &'static str
    ensures { result.now ≡ field_cause_name_of cause }
{
    match cause {
        FieldCause::NotPrintable => "NotPrintable",
        FieldCause::LeadingSpace => "LeadingSpace",
        FieldCause::TooFewSubfields => "TooFewSubfields",
        FieldCause::BadSex => "BadSex",
        FieldCause::BadDate => "BadDate",
        FieldCause::NoStartdateWord => "NoStartdateWord",
    }
}

/// The name of the cause for which a lane of time-stamped annotation lists is refused.
fn tal_cause_name(cause: TalCause) -> &'static str
    ensures { result.now ≡ tal_cause_name_of cause }
{
    match cause {
        TalCause::BadOnset => "BadOnset",
        TalCause::BadDuration => "BadDuration",
        TalCause::NoEnd => "NoEnd",
        TalCause::NotUtf8 => "NotUtf8",
        TalCause::ControlByte => "ControlByte",
        TalCause::NotZeroFilled => "NotZeroFilled",
    }
}

/// The cause's name. A cause that has one of a field or of a lane says it in brackets, as
/// `BadSubfields(LeadingSpace)`.
impl fmt::Display for Cause {
    ghost output = { λ cause. Some (cause_name cause) };

    fn fmt<W: fmt::Write>(&self, f: &mut fmt::Formatter<W>) -> fmt::Result {
        let name = match self {
            Cause::Truncated => "Truncated",
            Cause::NotPrintable => "NotPrintable",
            Cause::BadVersion => "BadVersion",
            Cause::BadSubfields(cause) => {
                return write!(f, "BadSubfields({})", field_cause_name(*cause));
            }
            Cause::BadStart => "BadStart",
            Cause::StartdateDiffers => "StartdateDiffers",
            Cause::BadHeaderSize => "BadHeaderSize",
            Cause::NotEdfPlus => "NotEdfPlus",
            Cause::BadNumber => "BadNumber",
            Cause::BadRange => "BadRange",
            Cause::BadAnnotationSignal => "BadAnnotationSignal",
            Cause::NoAnnotationSignal => "NoAnnotationSignal",
            Cause::NoOrdinarySignal => "NoOrdinarySignal",
            Cause::DuplicateLabel => "DuplicateLabel",
            Cause::RecordTooLarge => "RecordTooLarge",
            Cause::BadTal(cause) => return write!(f, "BadTal({})", tal_cause_name(*cause)),
            Cause::NoTimekeeping => "NoTimekeeping",
            Cause::BadFirstStart => "BadFirstStart",
            Cause::NotContiguous => "NotContiguous",
            Cause::Overlap => "Overlap",
            Cause::TooManyAnnotations => "TooManyAnnotations",
            Cause::TrailingBytes => "TrailingBytes",
        };
        write!(f, "{name}")
    }
}

/// Where the fault stands: `header field NAME`, `signal I field NAME`, `record K` or `end`. Signals
/// and data records count from 0.
impl fmt::Display for Place {
    ghost output = { λ place. Some (place_text place) };

    fn fmt<W: fmt::Write>(&self, f: &mut fmt::Formatter<W>) -> fmt::Result {
        match self {
            Place::AtField(field) => write!(f, "header field {}", field.name()),
            Place::AtSignal(signal, field) => write!(f, "signal {signal} field {}", field.name()),
            Place::AtRecord(record) => write!(f, "record {record}"),
            Place::AtEnd => write!(f, "end"),
        }
    }
}

/// The cause, `at`, and the place, as `BadVersion at header field version`.
impl fmt::Display for Fault {
    ghost output = { λ fault. Some (fault_text fault) };

    fn fmt<W: fmt::Write>(&self, f: &mut fmt::Formatter<W>) -> fmt::Result {
        write!(f, "{} at {}", self.cause, self.place)
    }
}

impl Fault {
    /// The fault in words: the cause, `at`, and the place.
    ///
    /// The error is want of memory.
    pub fn text(&self, alloc: Global) -> Result<String, AllocError>
        ensures { IfOk result (λ text. string_bytes text ≡ fault_text self.now) }
    {
        self.to_string(alloc)
    }
}
