//! The line of each kind of verdict, and of texts with odd characters. A verdict that names a sample or an
//! annotation is that of files which differ so; `tests/cases` has many more.

use crate::headers::claim;
use edf_check::check;
use edf_fields::Place::{AtField, AtSignal};
use edf_fields::{Cause, Fault, FixedField, Place, SignalField, SliceSource, TalCause, Which};
use edf_test_files::{Done, Edit, recorded};
use edf_verdict::{
    Difference, FreeText, Label, NoteText, Outcome, SampleMismatch, SubfieldMismatch, Verdict,
    push_quoted,
};
use std::alloc::Global;
use std::process::Abort;
use std::test::Fail;

/// Asserts the line of a verdict.
fn assert_line(rt: &impl Abort, alloc: Global, verdict: &Verdict, want: &str) -> Done {
    let line = verdict.line(alloc)?;
    assert_eq!(rt; line.as_slice(), want.as_bytes());
    Ok(())
}

/// Channels, samples and annotations.
const COUNTS: &[(u64, u64, u64, &str)] = &[
    (1, 2, 0, "YES channels 1 samples 2 annotations 0\n"),
    (2, 24, 3, "YES channels 2 samples 24 annotations 3\n"),
    (
        10,
        18_446_744_073_709_551_615,
        1_000_000,
        "YES channels 10 samples 18446744073709551615 annotations 1000000\n",
    ),
];

#[test]
fn writes_counts(rt: HostRuntime) -> Done {
    for (channels, samples, annotations, want) in COUNTS {
        let yes = Verdict::Yes {
            channels: *channels,
            samples: *samples,
            annotations: *annotations,
        };
        assert_line(&rt, rt.alloc(), &yes, want)?;
    }
    Ok(())
}

const VERSION_MISSING: Fault = Fault {
    place: Place::AtField(FixedField::Version),
    cause: Cause::Truncated,
};

const LABEL_MISSING: Fault = Fault {
    place: Place::AtSignal(2, SignalField::Label),
    cause: Cause::Truncated,
};

const BAD_TEXT: Fault = Fault {
    place: Place::AtRecord(3),
    cause: Cause::BadTal(TalCause::NotUtf8),
};

const MORE_BYTES: Fault = Fault {
    place: Place::AtEnd,
    cause: Cause::TrailingBytes,
};

/// A fault, and the line where the original has it, and where the export has it.
const FAULTS: &[(Fault, &str, &str)] = &[
    (
        VERSION_MISSING,
        "NO 1 original fault: Truncated at header field version\n",
        "NO 2 export fault: Truncated at header field version\n",
    ),
    (
        LABEL_MISSING,
        "NO 1 original fault: Truncated at signal 2 field label\n",
        "NO 2 export fault: Truncated at signal 2 field label\n",
    ),
    (
        BAD_TEXT,
        "NO 1 original fault: BadTal(NotUtf8) at record 3\n",
        "NO 2 export fault: BadTal(NotUtf8) at record 3\n",
    ),
    (
        MORE_BYTES,
        "NO 1 original fault: TrailingBytes at end\n",
        "NO 2 export fault: TrailingBytes at end\n",
    ),
];

#[test]
fn writes_faults(rt: HostRuntime) -> Done {
    for (fault, of_original, of_export) in FAULTS {
        let original = Verdict::No(Difference::OriginalFault(*fault));
        assert_line(&rt, rt.alloc(), &original, of_original)?;
        let export = Verdict::No(Difference::ExportFault(*fault));
        assert_line(&rt, rt.alloc(), &export, of_export)?;
    }
    Ok(())
}

const BOTH: &str = "[\"EEG Fpz-Cz\", \"ECG\"]";

/// Bytes, and how they stand between quotation marks.
const QUOTED: &[(&[u8], &[u8])] = &[
    (b"\"", b"\"\\x22\""),
    (b"\\", b"\"\\x5c\""),
    (b"a\tb", b"\"a\\x09b\""),
    (b"\x00\x1f ", b"\"\\x00\\x1f \""),
    (b"~\x7f\x80", b"\"~\\x7f\x80\""),
    (b"\xc8\xff", b"\"\xc8\xff\""),
];

#[test]
fn quotes_odd_bytes(rt: HostRuntime) -> Done {
    for (bytes, want) in QUOTED {
        let mut line = Vec::new(rt.alloc());
        push_quoted(&mut line, bytes)?;
        assert_eq!(rt; line.as_slice(), *want);
    }
    Ok(())
}

const NOT_X: SubfieldMismatch = SubfieldMismatch::NotX;

const CHANGED: SubfieldMismatch = SubfieldMismatch::Changed;

const SUBFIELDS: &[(Which, SubfieldMismatch, &str)] = &[
    (Which::Code, NOT_X, "NO 8 subfield code not X\n"),
    (Which::Sex, CHANGED, "NO 8 subfield sex changed\n"),
    (Which::Birthdate, NOT_X, "NO 8 subfield birthdate not X\n"),
    (Which::Name, NOT_X, "NO 8 subfield name not X\n"),
    (
        Which::PatientExtras,
        NOT_X,
        "NO 8 subfield patient-extras not X\n",
    ),
    (
        Which::PatientExtras,
        CHANGED,
        "NO 8 subfield patient-extras changed\n",
    ),
    (Which::Date, CHANGED, "NO 8 subfield date changed\n"),
    (
        Which::Administration,
        NOT_X,
        "NO 8 subfield administration not X\n",
    ),
    (
        Which::Technician,
        CHANGED,
        "NO 8 subfield technician changed\n",
    ),
    (Which::Equipment, NOT_X, "NO 8 subfield equipment not X\n"),
    (
        Which::RecordingExtras,
        CHANGED,
        "NO 8 subfield recording-extras changed\n",
    ),
];

#[test]
fn names_subfields(rt: HostRuntime) -> Done {
    for (which, mismatch, want) in SUBFIELDS {
        let verdict = Verdict::No(Difference::Subfield(*which, *mismatch));
        assert_line(&rt, rt.alloc(), &verdict, want)?;
    }
    Ok(())
}

/// What the samples of an instant are, and its words.
const MISMATCHES: &[(SampleMismatch, &str)] = &[
    (SampleMismatch::Missing, "missing"),
    (SampleMismatch::Extra, "extra"),
    (SampleMismatch::Value(30, 31), "original 30 export 31"),
    (
        SampleMismatch::Value(-32_768, 32_767),
        "original -32768 export 32767",
    ),
];

#[test]
fn says_how_samples_differ(rt: HostRuntime) -> Done {
    for (mismatch, want) in MISMATCHES {
        let found = mismatch.to_string(rt.alloc())?;
        assert_eq!(rt; found.as_str(), *want);
    }
    Ok(())
}

/// A file: the reference file with other texts in some of its fields, and these lanes.
type File<'a> = (&'a [Edit<'a>], &'a [&'a [u8]]);

/// The verdict on two files under the claim that keeps four seconds of both channels.
fn verdict_on(
    rt: &impl Abort,
    alloc: Global,
    original: File,
    export: File,
) -> Result<Verdict, Fail> {
    let original = recorded(alloc, original.0, original.1)?;
    let export = recorded(alloc, export.0, export.1)?;
    let claim = claim(alloc, rt, BOTH, "")?;
    let mut original = SliceSource::new(&original);
    let mut export = SliceSource::new(&export);
    let verdict = check(alloc, &mut original, &mut export, &claim)?;
    Ok(verdict)
}

/// Asserts the line of a check.
fn assert_checked(
    rt: &impl Abort,
    alloc: Global,
    original: File,
    export: File,
    want: &str,
) -> Result<(), Fail> {
    let verdict = verdict_on(rt, alloc, original, export)?;
    assert_line(rt, alloc, &verdict, want)?;
    Ok(())
}

const ONE: &[Edit<'static>] = &[(AtField(FixedField::Records), "1")];

const TWO: &[Edit<'static>] = &[(AtField(FixedField::Records), "2")];

const FIRST: &[u8] = b"+0\x14\x14\0";

const SECOND: &[u8] = b"+1\x14\x14\0";

/// An original, an export, and the line of the first difference of their samples.
const SAMPLES: &[(File<'static>, File<'static>, &str)] = &[
    (
        (TWO, &[FIRST, SECOND]),
        (ONE, &[FIRST]),
        "NO 10 sample \"ECG\" at 1000000000000 ps missing\n",
    ),
    (
        (ONE, &[FIRST]),
        (TWO, &[FIRST, SECOND]),
        "NO 10 sample \"ECG\" at 1000000000000 ps extra\n",
    ),
];

#[test]
fn writes_samples(rt: HostRuntime) -> Result<(), Fail> {
    for (original, export, want) in SAMPLES {
        assert_checked(&rt, rt.alloc(), *original, *export, want)?;
    }
    Ok(())
}

const APNEA: &[u8] = b"+0\x14\x14\0+1.5\x151\x14Apnea\x14\0";

const LIGHTS: &[u8] = b"+0\x14\x14\0+0.5\x14Lights off\x14\0";

const EMPTY: &[u8] = b"+0\x14\x14\0-0.000000000001\x14\x14\0";

/// The lane of an original, that of an export, and the line of the first difference of their annotations.
const NOTES: &[(&[u8], &[u8], &str)] = &[
    (
        APNEA,
        FIRST,
        "NO 11 annotation missing at 1500000000000 ps duration 1000000000000 ps text \"Apnea\"\n",
    ),
    (
        FIRST,
        LIGHTS,
        "NO 11 annotation extra at 500000000000 ps duration none text \"Lights off\"\n",
    ),
];

#[test]
fn writes_annotations(rt: HostRuntime) -> Result<(), Fail> {
    for (original, export, want) in NOTES {
        assert_checked(
            &rt,
            rt.alloc(),
            (ONE, &[*original]),
            (ONE, &[*export]),
            want,
        )?;
    }
    Ok(())
}

#[test]
fn gives_the_text_of_an_annotation(rt: HostRuntime) -> Result<(), Fail> {
    let verdict = verdict_on(&rt, rt.alloc(), (ONE, &[FIRST]), (ONE, &[LIGHTS]))?;
    let Verdict::No(Difference::Annotation { text, .. }) = verdict else {
        return Err(Fail::new("no difference of annotations"));
    };
    assert_eq!(rt; text.as_str(), "Lights off");
    Ok(())
}

/// Bytes of a label, and characters of the text of an annotation: each is given as it was made.
const MADE: &[&str] = &["", "ECG", " \"\\\t\u{7f}é"];

#[test]
fn labels_and_texts_are_those_they_were_made_of(rt: HostRuntime) -> Result<(), Fail> {
    for text in MADE {
        let label = Label::new(rt.alloc(), text.as_bytes())?;
        assert_eq!(rt; label.bytes(), text.as_bytes());
        let made = NoteText::new(String::from_str(rt.alloc(), text)?);
        assert_eq!(rt; made.as_str(), *text);
    }
    Ok(())
}

#[test]
fn a_yes_alone_is_a_yes(rt: HostRuntime) {
    let yes = Verdict::Yes {
        channels: 1,
        samples: 2,
        annotations: 0,
    };
    let no = Verdict::No(Difference::NotClean(FreeText::Header));
    let found = (yes.outcome(), no.outcome());
    assert_eq!(rt; found, (Outcome::Yes, Outcome::No));
    let joined = (
        Outcome::Yes.and(Outcome::Yes),
        Outcome::Yes.and(Outcome::No),
        Outcome::No.and(Outcome::Yes),
        Outcome::No.and(Outcome::No),
    );
    assert_eq!(rt;
        joined,
        (Outcome::Yes, Outcome::No, Outcome::No, Outcome::No)
    );
}

/// The subfields in the order of the verdicts.
const NAMES: [&str; 10] = [
    "code",
    "sex",
    "birthdate",
    "name",
    "patient-extras",
    "date",
    "administration",
    "technician",
    "equipment",
    "recording-extras",
];

#[test]
fn all_subfields_stand_in_order(rt: HostRuntime) {
    assert_eq!(rt; Which::all().len(), NAMES.len());
    for (which, name) in Which::all().iter().zip(&NAMES) {
        assert_eq!(rt; which.name(), *name);
    }
}

#[test]
fn equal_verdicts_are_equal(rt: HostRuntime) -> Result<(), Fail> {
    let verdict = verdict_on(&rt, rt.alloc(), (ONE, &[FIRST]), (ONE, &[LIGHTS]))?;
    let same = verdict_on(&rt, rt.alloc(), (ONE, &[FIRST]), (ONE, &[LIGHTS]))?;
    assert!(rt; verdict == same);
    let other = verdict_on(&rt, rt.alloc(), (ONE, &[FIRST]), (ONE, &[EMPTY]))?;
    assert!(rt; verdict != other);
    Ok(())
}
