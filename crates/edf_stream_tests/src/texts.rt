//! Each cause and each place of a fault in words.

use edf_fields::{Cause, Fault, FieldCause, Place, TalCause};
use edf_test_files::{COLUMNS, Done, FIXED};
use std::alloc::{AllocError, Global};
use std::process::Abort;

const CAUSES: &[(Cause, &str)] = &[
    (Cause::Truncated, "Truncated"),
    (Cause::NotPrintable, "NotPrintable"),
    (Cause::BadVersion, "BadVersion"),
    (Cause::BadStart, "BadStart"),
    (Cause::StartdateDiffers, "StartdateDiffers"),
    (Cause::BadHeaderSize, "BadHeaderSize"),
    (Cause::NotEdfPlus, "NotEdfPlus"),
    (Cause::BadNumber, "BadNumber"),
    (Cause::BadRange, "BadRange"),
    (Cause::BadAnnotationSignal, "BadAnnotationSignal"),
    (Cause::NoAnnotationSignal, "NoAnnotationSignal"),
    (Cause::NoOrdinarySignal, "NoOrdinarySignal"),
    (Cause::DuplicateLabel, "DuplicateLabel"),
    (Cause::RecordTooLarge, "RecordTooLarge"),
    (Cause::NoTimekeeping, "NoTimekeeping"),
    (Cause::BadFirstStart, "BadFirstStart"),
    (Cause::NotContiguous, "NotContiguous"),
    (Cause::Overlap, "Overlap"),
    (Cause::TooManyAnnotations, "TooManyAnnotations"),
    (Cause::TrailingBytes, "TrailingBytes"),
];

const FIELD_CAUSES: &[(FieldCause, &str)] = &[
    (FieldCause::NotPrintable, "NotPrintable"),
    (FieldCause::LeadingSpace, "LeadingSpace"),
    (FieldCause::TooFewSubfields, "TooFewSubfields"),
    (FieldCause::BadSex, "BadSex"),
    (FieldCause::BadDate, "BadDate"),
    (FieldCause::NoStartdateWord, "NoStartdateWord"),
];

const TAL_CAUSES: &[(TalCause, &str)] = &[
    (TalCause::BadOnset, "BadOnset"),
    (TalCause::BadDuration, "BadDuration"),
    (TalCause::NoEnd, "NoEnd"),
    (TalCause::NotUtf8, "NotUtf8"),
    (TalCause::ControlByte, "ControlByte"),
    (TalCause::NotZeroFilled, "NotZeroFilled"),
];

/// Asserts the words of a fault.
fn assert_text(rt: &impl Abort, alloc: Global, fault: Fault, want: &str) -> Done {
    let text = fault.text(alloc)?;
    assert_eq!(rt; text.as_str(), want);
    Ok(())
}

#[test]
fn names_each_cause(rt: HostRuntime) -> Result<(), AllocError> {
    let place = Place::AtEnd;
    for (cause, name) in CAUSES {
        let cause = *cause;
        let want = format!(in rt.alloc(); "{name} at end")?;
        assert_text(&rt, rt.alloc(), Fault { place, cause }, want.as_str())?;
    }
    Ok(())
}

#[test]
fn names_each_cause_in_brackets(rt: HostRuntime) -> Result<(), AllocError> {
    let place = Place::AtRecord(3);
    for (cause, name) in FIELD_CAUSES {
        let cause = Cause::BadSubfields(*cause);
        let want = format!(in rt.alloc(); "BadSubfields({name}) at record 3")?;
        assert_text(&rt, rt.alloc(), Fault { place, cause }, want.as_str())?;
    }
    for (cause, name) in TAL_CAUSES {
        let cause = Cause::BadTal(*cause);
        let want = format!(in rt.alloc(); "BadTal({name}) at record 3")?;
        assert_text(&rt, rt.alloc(), Fault { place, cause }, want.as_str())?;
    }
    Ok(())
}

#[test]
fn names_each_place(rt: HostRuntime) -> Result<(), AllocError> {
    let cause = Cause::NotPrintable;
    for (field, name, _) in FIXED {
        let place = Place::AtField(*field);
        let want = format!(in rt.alloc(); "NotPrintable at header field {name}")?;
        assert_text(&rt, rt.alloc(), Fault { place, cause }, want.as_str())?;
    }
    for (field, name, _) in COLUMNS {
        let place = Place::AtSignal(65_535, *field);
        let want = format!(in rt.alloc(); "NotPrintable at signal 65535 field {name}")?;
        assert_text(&rt, rt.alloc(), Fault { place, cause }, want.as_str())?;
    }
    Ok(())
}
