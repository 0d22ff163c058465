//! What claims keep.

use edf_claim::Claim;
use edf_fields::Which;
use std::test::Fail;

const CLAIM: &str = "format = 1
channels = [\"EEG Fpz-Cz\", \"ECG\"]
anonymous = [\"name\", \"recording-extras\"]
shift = -86400
remove = [\"Lights off\"]
[[keep]]
from = \"0\"
to = \"1\"
[[keep]]
from = \"3\"
to = \"4.000000000001\"
";

/// An instant as a fraction, and whether it is kept.
const INSTANTS: &[(i128, u32, bool)] = &[
    (0, 1, true),
    (-1, 8_388_608, false),
    (1_999_999_999_999, 2, true),
    (2_000_000_000_000, 2, false),
    (2_999_999_999_999, 1, false),
    (3_000_000_000_000, 1, true),
    (8_000_000_000_001, 2, true),
    (8_000_000_000_002, 2, false),
    (12_000_000_000_002, 3, true),
];

#[test]
fn keeps_instants_from_the_first_bound_on_and_before_the_second(
    rt: HostRuntime,
) -> Result<(), Fail> {
    let claim = Claim::read(rt.alloc(), CLAIM.as_bytes())?;
    for (num, den, want) in INSTANTS {
        let kept = claim.keeps_instant(*num, *den);
        assert_eq!(rt; kept, *want, "at {num} / {den}");
    }
    Ok(())
}

#[test]
fn keeps_the_half_picosecond_before_the_end(rt: HostRuntime) -> Result<(), Fail> {
    let claim = Claim::read(
        rt.alloc(),
        b"format = 1\nchannels = [\"EEG Fpz-Cz\", \"ECG\"]\n[[keep]]\nfrom = \"0\"\nto = \"4\"\n",
    )?;
    assert_eq!(rt; claim.keeps_instant(7_999_999_999_999, 2), true);
    assert_eq!(rt; claim.keeps_instant(8_000_000_000_000, 2), false);
    Ok(())
}

/// Two times, the later one last, and the first time behind the earlier one at which an interval begins or
/// ends; the later one where there is none before it.
const BORDERS: &[(i128, i128, i128)] = &[
    (-5, 7_000_000_000_000, 0),
    (-5, -4, -4),
    (0, 7_000_000_000_000, 1_000_000_000_000),
    (0, 1_000_000_000_000, 1_000_000_000_000),
    (0, 999_999_999_999, 999_999_999_999),
    (1_000_000_000_000, 7_000_000_000_000, 3_000_000_000_000),
    (2_999_999_999_999, 7_000_000_000_000, 3_000_000_000_000),
    (3_000_000_000_000, 7_000_000_000_000, 4_000_000_000_001),
    (4_000_000_000_001, 7_000_000_000_000, 7_000_000_000_000),
];

/// Whether the first time behind one of these is the one that is wanted. Times that don't rise have none.
fn is_border(claim: &Claim, from: i128, to: i128, want: i128) -> bool {
    from < to && claim.border_behind(from, to) == want
}

#[test]
fn finds_where_intervals_begin_and_end(rt: HostRuntime) -> Result<(), Fail> {
    let claim = Claim::read(rt.alloc(), CLAIM.as_bytes())?;
    for (from, to, want) in BORDERS {
        assert!(rt;
            is_border(&claim, *from, *to, *want),
            "behind {from}, to {to}"
        );
    }
    Ok(())
}

/// The onset and the text of an annotation, and whether it is kept.
const ANNOTATIONS: &[(i128, &str, bool)] = &[
    (0, "Apnea", true),
    (-1, "Apnea", false),
    (999_999_999_999, "", true),
    (1_000_000_000_000, "Apnea", false),
    (3_000_000_000_000, "Apnea", true),
    (0, "Lights off", false),
    (0, "lights off", true),
    (0, "Lights off ", true),
];

#[test]
fn keeps_annotations_by_onset_and_text(rt: HostRuntime) -> Result<(), Fail> {
    let claim = Claim::read(rt.alloc(), CLAIM.as_bytes())?;
    for (onset, text, want) in ANNOTATIONS {
        let kept = claim.keeps_annotation(*onset, text);
        assert_eq!(rt; kept, *want, "at {onset} {text}");
    }
    Ok(())
}

const BLANKING: &str = "format = 2
channels = [\"ECG\"]
remove = [\"Lights off\", \"Apnea\"]
remove-prefix = [\"Mrs. A\", \"Mrs.\", \"\u{e9}\", \"Arousal\", \"Z\"]
blank = [\"Sleep stage W\", \"Apnea\", \"\"]
[[keep]]
from = \"0\"
to = \"1\"
";

/// Texts, whether an annotation is kept that has one, and whether it is blanked.
const BLANKED: &[(&str, bool, bool)] = &[
    ("Lights off", false, false),
    ("Apnea", false, true),
    ("Mrs.", false, false),
    ("Mrs. Ames", false, false),
    ("Mrs. Berg", false, false),
    ("Mrs", true, false),
    ("mrs. Ames", true, false),
    ("To Mrs. Ames", true, false),
    ("Arousa", true, false),
    ("Arousal", false, false),
    ("Arousals", false, false),
    ("Zz", false, false),
    ("Y", true, false),
    ("\u{e9}t\u{e9}", false, false),
    ("\u{e8}", true, false),
    ("Sleep stage W", true, true),
    ("Sleep stage W ", true, false),
    ("", true, true),
];

#[test]
fn removes_by_prefixes_and_blanks(rt: HostRuntime) -> Result<(), Fail> {
    let claim = Claim::read(rt.alloc(), BLANKING.as_bytes())?;
    for (text, kept, blanked) in BLANKED {
        let found = (claim.keeps_annotation(0, text), claim.blanks(text));
        assert_eq!(rt; found, (*kept, *blanked), "at {text}");
    }
    Ok(())
}

/// Whether the claim keeps these channels, in this order, and no other.
fn has_channels(claim: &Claim) -> bool {
    match claim.channels() {
        [eeg, ecg] => { eeg.text() == b"EEG Fpz-Cz".as_slice() && ecg.text() == b"ECG".as_slice() }
        _ => false,
    }
}

#[test]
fn tells_the_channels_and_the_rest(rt: HostRuntime) -> Result<(), Fail> {
    let claim = Claim::read(rt.alloc(), CLAIM.as_bytes())?;
    assert!(rt; has_channels(&claim));
    let kept = (
        claim.keeps_channel(b"ECG"),
        claim.keeps_channel(b"ecg"),
        claim.keeps_channel(b"ECG "),
    );
    assert_eq!(rt; kept, (true, false, false));
    let hidden = (
        claim.is_anonymous(Which::Name),
        claim.is_anonymous(Which::RecordingExtras),
        claim.is_anonymous(Which::Code),
    );
    assert_eq!(rt; hidden, (true, true, false));
    assert_eq!(rt; claim.shift_ps(), -86_400_000_000_000_000);
    assert!(rt; claim.has_shift(-86_400) && !claim.has_shift(86_400));
    let mut labels = Vec::new(rt.alloc());
    labels.push(Vec::from_slice(rt.alloc(), b"EEG Fpz-Cz")?)?;
    assert!(rt; !claim.has_channels(&labels));
    labels.push(Vec::from_slice(rt.alloc(), b"ECG")?)?;
    assert!(rt; claim.has_channels(&labels));
    Ok(())
}

#[test]
fn removes_and_moves_nothing_where_nothing_is_said(rt: HostRuntime) -> Result<(), Fail> {
    let claim = Claim::read(
        rt.alloc(),
        b"format = 1\nchannels = [\"EEG Fpz-Cz\", \"ECG\"]\n[[keep]]\nfrom = \"0\"\nto = \"4\"\n",
    )?;
    assert_eq!(rt; claim.shift_ps(), 0);
    assert_eq!(rt; claim.is_anonymous(Which::Sex), false);
    assert_eq!(rt; claim.keeps_annotation(0, "Lights off"), true);
    Ok(())
}
