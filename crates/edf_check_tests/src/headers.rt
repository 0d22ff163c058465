//! The headers of an original and an export, and what `head_difference` and `head_differences` answer; `tests/cases` has
//! many more.

use edf_claim::Claim;
use edf_fields::Place::{AtField, AtSignal};
use edf_fields::{FixedField as Fixed, SignalField as Field, SliceSource, Which};
use edf_header::Header;
use edf_heads::{HeadDifference, head_difference, head_differences};
use edf_test_files::{Done, Edit, header_of, put};
use edf_verdict::{Difference, FreeText, SubfieldMismatch, TextField, Verdict};
use std::alloc::{AllocError, Global};
use std::process::Abort;

/// What `head_difference` answers, with labels as they stand in a table.
#[derive(Debug, Clone, Copy, PartialEq, Eq)]
pub enum Answer<'a> {
    Agree,
    Unknown(&'a [u8]),
    Missing(&'a [u8]),
    Extra(&'a [u8]),
    Text(&'a [u8], TextField),
    Calibration(&'a [u8]),
    Subfield(Which, SubfieldMismatch),
    Header,
    Channel(&'a [u8]),
    Other,
}

/// The answer of a verdict.
pub fn answer_of(found: &Option<Verdict>) -> Answer<'_> {
    let Some(verdict) = found else {
        return Answer::Agree;
    };
    let Verdict::No(difference) = verdict else {
        return Answer::Other;
    };
    match difference {
        Difference::UnknownChannel(label) => Answer::Unknown(label.bytes()),
        Difference::MissingChannel(label) => Answer::Missing(label.bytes()),
        Difference::ExtraChannel(label) => Answer::Extra(label.bytes()),
        Difference::ChannelText(label, field) => Answer::Text(label.bytes(), *field),
        Difference::Calibration(label) => Answer::Calibration(label.bytes()),
        Difference::Subfield(which, fault) => Answer::Subfield(*which, *fault),
        Difference::NotClean(FreeText::Header) => Answer::Header,
        Difference::NotClean(FreeText::Channel(label)) => Answer::Channel(label.bytes()),
        _ => Answer::Other,
    }
}

/// A header: these of the reference file's signals, by their numbers, and other texts in some fields.
pub type Built<'a> = (&'a [usize], &'a [Edit<'a>]);

/// The bytes of the header.
fn bytes_of(alloc: Global, built: Built) -> Result<Vec<u8>, AllocError> {
    let (signals, edits) = built;
    let count = signals.len().to_string(alloc)?;
    let size = signals.len().saturating_add(1).saturating_mul(256);
    let size = size.to_string(alloc)?;
    let mut file = header_of(alloc, signals)?;
    put(&mut file, AtField(Fixed::Signals), count.as_str());
    put(&mut file, AtField(Fixed::HeaderBytes), size.as_str());
    for (place, text) in edits {
        put(&mut file, *place, text);
    }
    Ok(file)
}

/// The header, which has no fault.
pub fn read(alloc: Global, rt: &impl Abort, built: Built) -> Result<Header, AllocError> {
    let file = bytes_of(alloc, built)?;
    let header = Header::read(alloc, &mut SliceSource::new(&file));
    Ok(header.expect(rt, "a header without a fault"))
}

/// A claim that keeps the first four seconds of these channels, with further keys.
pub fn claim(
    alloc: Global,
    rt: &impl Abort,
    channels: &str,
    keys: &str,
) -> Result<Claim, AllocError> {
    let text = format!(in alloc;
        "format = 1\nchannels = {channels}\n{keys}\n[[keep]]\nfrom = \"0\"\nto = \"4\"\n"
    )?;
    let claim = Claim::read(alloc, text.as_bytes());
    Ok(claim.expect(rt, "a claim"))
}

/// What a comparison answers: the original, the export, the claimed channels, further keys of the claim,
/// and the answer.
type Row<'a> = (Built<'a>, Built<'a>, &'a str, &'a str, Answer<'a>);

/// Asserts that a comparison answers what the row says.
fn assert_row(alloc: Global, rt: &impl Abort, row: &Row, at: usize) -> Done {
    let (original, export, channels, keys, want) = row;
    let original = read(alloc, rt, *original)?;
    let export = read(alloc, rt, *export)?;
    let claim = claim(alloc, rt, channels, keys)?;
    let found = head_difference(alloc, &original, &export, &claim)?;
    let answer = answer_of(&found);
    assert_eq!(rt; answer, *want, "at row {at}");
    Ok(())
}

/// Asserts each row of a table.
fn assert_rows(alloc: Global, rt: &impl Abort, rows: &[Row]) -> Done {
    for (at, row) in rows.iter().enumerate() {
        assert_row(alloc, rt, row, at)?;
    }
    Ok(())
}

const ALL: &[usize] = &[0, 1, 2];

const A: Built<'static> = (ALL, &[]);

const BOTH: &str = "[\"EEG Fpz-Cz\", \"ECG\"]";

const EEG: &[u8] = b"EEG Fpz-Cz";

const ECG: &[u8] = b"ECG";

/// Comparisons: one that finds nothing, and one for each of several kinds of difference.
const ROWS: &[Row<'static>] = &[
    (
        A,
        (
            ALL,
            &[
                (AtSignal(0, Field::PhysicalMinimum), "-100.0"),
                (AtSignal(0, Field::PhysicalMaximum), "100.00"),
            ],
        ),
        BOTH,
        "",
        Answer::Agree,
    ),
    (
        A,
        A,
        "[\"EEG Fpz-Cz\", \"ECG\", \"EMG\"]",
        "",
        Answer::Unknown(b"EMG"),
    ),
    (A, A, "[\"ECG\"]", "", Answer::Extra(EEG)),
    (
        A,
        (ALL, &[(AtSignal(1, Field::Prefilter), "HP:1Hz")]),
        BOTH,
        "",
        Answer::Text(ECG, TextField::Prefilter),
    ),
    (
        A,
        (ALL, &[(AtSignal(0, Field::PhysicalMaximum), "100.0001")]),
        BOTH,
        "",
        Answer::Calibration(EEG),
    ),
    (
        A,
        A,
        BOTH,
        "anonymous = [\"name\"]",
        Answer::Subfield(Which::Name, SubfieldMismatch::NotX),
    ),
];

#[test]
fn compares_headers(rt: HostRuntime) -> Done {
    assert_rows(rt.alloc(), &rt, ROWS)
}

/// The answer that names this rule alone.
fn answer_to<'a>(rule: &HeadDifference<'a>) -> Answer<'a> {
    match *rule {
        HeadDifference::UnknownChannel(label) => Answer::Unknown(label),
        HeadDifference::MissingChannel(label) => Answer::Missing(label),
        HeadDifference::ExtraChannel(label) => Answer::Extra(label),
        HeadDifference::ChannelText(label, field) => Answer::Text(label, field),
        HeadDifference::Calibration(label) => Answer::Calibration(label),
        HeadDifference::Subfield(which, mismatch) => Answer::Subfield(which, mismatch),
        HeadDifference::FreeTextInChannel(label) => Answer::Channel(label),
        _ => Answer::Other,
    }
}

/// An export that breaks a rule of each kind beside the reference file, under a claim on two channels.
const WORN: Built<'static> = (
    ALL,
    &[
        (AtSignal(0, Field::Prefilter), "HP:1Hz"),
        (AtSignal(0, Field::PhysicalMaximum), "100.0001"),
        (AtSignal(0, Field::Reserved), "seen by P."),
        (AtSignal(2, Field::Prefilter), "HP:1Hz"),
    ],
);

/// All that is broken there.
const BROKEN: &[Answer<'static>] = &[
    Answer::Unknown(b"EMG"),
    Answer::Missing(b"EMG"),
    Answer::Text(EEG, TextField::Prefilter),
    Answer::Calibration(EEG),
    Answer::Channel(EEG),
    Answer::Extra(ECG),
    Answer::Subfield(Which::Name, SubfieldMismatch::NotX),
    Answer::Other,
];

#[test]
fn finds_all_that_is_broken(rt: HostRuntime) -> Done {
    let alloc = rt.alloc();
    let original = read(alloc, &rt, A)?;
    let export = read(alloc, &rt, WORN)?;
    let claim = claim(
        alloc,
        &rt,
        "[\"EMG\", \"EEG Fpz-Cz\"]",
        "anonymous = [\"name\"]",
    )?;
    let found = head_differences(alloc, &original, &export, &claim)?;
    assert_eq!(rt; found.len(), BROKEN.len());
    for (at, rule) in found.iter().enumerate() {
        assert_eq!(rt;
            Some(answer_to(rule)),
            BROKEN.get(at).copied(),
            "at place {at}"
        );
    }
    Ok(())
}
