//! The line of each kind of verdict on several exports, and the numbers of differences.

use edf_fields::{Cause, Fault, Place, Which};
use edf_test_files::Done;
use edf_verdict::{
    AnnotationMismatch, Difference, FreeText, Label, NoteText, PartsVerdict, SampleMismatch,
    SubfieldMismatch, TextField, Verdict,
};
use std::alloc::{AllocError, Global};
use std::process::Abort;

/// The verdict that names this difference of one of several exports.
fn no(part: u16, difference: Difference) -> PartsVerdict {
    PartsVerdict {
        part,
        verdict: Verdict::No(difference),
    }
}

/// Asserts the number of the difference that a verdict names, and its line where there are 64 exports.
fn assert_line(
    rt: &impl Abort,
    alloc: Global,
    verdict: &PartsVerdict,
    number: u8,
    want: &str,
) -> Done {
    assert!(rt;
        matches!(&verdict.verdict, Verdict::No(difference) if difference.number() == number)
    );
    let line = verdict.line(alloc, 64)?;
    assert_eq!(rt; line.as_slice(), want.as_bytes());
    Ok(())
}

#[test]
fn writes_the_counts_of_all_parts(rt: HostRuntime) -> Done {
    for (parts, want) in [
        (1, "YES parts 1 channels 2 samples 24 annotations 3\n"),
        (64, "YES parts 64 channels 2 samples 24 annotations 3\n"),
    ] {
        let verdict = PartsVerdict {
            part: 0,
            verdict: Verdict::Yes {
                channels: 2,
                samples: 24,
                annotations: 3,
            },
        };
        let line = verdict.line(rt.alloc(), parts)?;
        assert_eq!(rt; line.as_slice(), want.as_bytes());
    }
    Ok(())
}

const CUT_SHORT: Fault = Fault {
    place: Place::AtRecord(1),
    cause: Cause::Truncated,
};

#[test]
fn names_the_part_of_a_fault(rt: HostRuntime) -> Done {
    let export = Difference::ExportFault(CUT_SHORT);
    let want = "NO 2 part 1 export fault: Truncated at record 1\n";
    assert_line(&rt, rt.alloc(), &no(1, export), 2, want)?;
    let original = Difference::OriginalFault(CUT_SHORT);
    let want = "NO 1 original fault: Truncated at record 1\n";
    assert_line(&rt, rt.alloc(), &no(0, original), 1, want)
}

/// A label for tests.
fn ecg(alloc: Global) -> Result<Label, AllocError> {
    Label::new(alloc, b"ECG")
}

#[test]
fn names_the_part_of_a_difference_of_channels(rt: HostRuntime) -> Done {
    let alloc = rt.alloc();
    let unknown = Difference::UnknownChannel(ecg(alloc)?);
    assert_line(
        &rt,
        alloc,
        &no(0, unknown),
        3,
        "NO 3 unknown channel \"ECG\"\n",
    )?;
    let missing = Difference::MissingChannel(ecg(alloc)?);
    let want = "NO 4 part 63 missing channel \"ECG\"\n";
    assert_line(&rt, alloc, &no(63, missing), 4, want)?;
    let extra = Difference::ExtraChannel(ecg(alloc)?);
    let want = "NO 5 part 2 extra channel \"ECG\"\n";
    assert_line(&rt, alloc, &no(2, extra), 5, want)?;
    let text = Difference::ChannelText(ecg(alloc)?, TextField::Prefilter);
    let want = "NO 6 part 3 channel text \"ECG\" prefilter\n";
    assert_line(&rt, alloc, &no(3, text), 6, want)?;
    let calibration = Difference::Calibration(ecg(alloc)?);
    let want = "NO 7 part 4 calibration \"ECG\"\n";
    assert_line(&rt, alloc, &no(4, calibration), 7, want)
}

#[test]
fn names_the_part_of_other_differences(rt: HostRuntime) -> Done {
    let alloc = rt.alloc();
    let sex = Difference::Subfield(Which::Sex, SubfieldMismatch::Changed);
    assert_line(
        &rt,
        alloc,
        &no(1, sex),
        8,
        "NO 8 part 1 subfield sex changed\n",
    )?;
    let text = Difference::NotClean(FreeText::Header);
    assert_line(
        &rt,
        alloc,
        &no(0, text),
        9,
        "NO 9 part 0 not clean header\n",
    )?;
    let early = Difference::PartOrder;
    assert_line(&rt, alloc, &no(1, early), 12, "NO 12 part 1 starts early\n")?;
    let sample = Difference::Sample {
        label: ecg(alloc)?,
        at_ps: 2_000_000_000_000,
        mismatch: SampleMismatch::Missing,
    };
    let want = "NO 10 sample \"ECG\" at 2000000000000 ps missing\n";
    assert_line(&rt, alloc, &no(0, sample), 10, want)?;
    let annotation = Difference::Annotation {
        mismatch: AnnotationMismatch::Extra,
        onset: 1_500_000_000_000,
        duration: None,
        text: NoteText::new(String::from_str(alloc, "Apnea")?),
    };
    let want = "NO 11 annotation extra at 1500000000000 ps duration none text \"Apnea\"\n";
    assert_line(&rt, alloc, &no(0, annotation), 11, want)
}
