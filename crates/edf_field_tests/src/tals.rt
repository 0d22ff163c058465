//! Lanes by hand: their TALs or first fault, and where their data records start.

use edf_fields::TalCause;
use edf_tal::{StartCause, Tal, Tals, record_start, start_by_first, time_alone, time_alone_apart};
use std::alloc::{AllocError, Global};

/// Puts a TAL behind the text: its onset, a stroke and its duration, a colon, each text and a stroke, a
/// semicolon.
fn push_tal(alloc: Global, shown: &mut String, tal: &Tal) -> Result<(), AllocError> {
    shown.push_str(tal.onset().to_string(alloc)?.as_str())?;
    if let Some(duration) = tal.duration() {
        shown.push_str("/")?;
        shown.push_str(duration.to_string(alloc)?.as_str())?;
    }
    shown.push_str(":")?;
    for text in tal.texts() {
        shown.push_str(text)?;
        shown.push_str("|")?;
    }
    shown.push_str(";")
}

/// The name of a cause.
fn name(cause: TalCause) -> &'static str {
    match cause {
        TalCause::BadOnset => "BadOnset",
        TalCause::BadDuration => "BadDuration",
        TalCause::NoEnd => "NoEnd",
        TalCause::NotUtf8 => "NotUtf8",
        TalCause::ControlByte => "ControlByte",
        TalCause::NotZeroFilled => "NotZeroFilled",
    }
}

/// The items of a lane as a text.
fn shown(alloc: Global, lane: &[u8]) -> Result<String, AllocError> {
    let mut shown = String::new(alloc);
    for item in Tals::new(lane) {
        match item {
            Ok(tal) => push_tal(alloc, &mut shown, &tal)?,
            Err(cause) => shown.push_str(name(cause))?,
        }
    }
    Ok(shown)
}

/// The text, filled with zeros to so many bytes.
fn filled(alloc: Global, text: &[u8], bytes: usize) -> Result<Vec<u8>, AllocError> {
    let mut lane = Vec::from_slice(alloc, text)?;
    for _ in text.len()..bytes {
        lane.push(0)?;
    }
    Ok(lane)
}

const SILENT: Result<i128, StartCause> = Err(StartCause::NoTimekeeping);

/// A start that the first TAL's fault hides.
fn hidden(cause: TalCause) -> Result<i128, StartCause> {
    Err(StartCause::Tal(cause))
}

#[test]
fn reads_each_form(rt: HostRuntime) -> Result<(), AllocError> {
    let alloc = rt.alloc();
    for (text, want, start) in [
        (&b"+0\x14\x14"[..], "0:|;", Ok(0i128)),
        (
            b"+1\x14\x14\0+1.5\x151\x14Apnea\x14",
            "1000000000000:|;1500000000000/1000000000000:Apnea|;",
            Ok(1_000_000_000_000),
        ),
        (b"+0\x14\x14x\x14", "0:|x|;", Ok(0)),
        (b"+0\x14x\x14", "0:x|;", SILENT),
        (b"+0\x14", "0:;", SILENT),
        (b"", "", SILENT),
    ] {
        let lane = filled(alloc, text, 32)?;
        let found = shown(alloc, &lane)?;
        assert_eq!(rt; found.as_str(), want);
        assert_eq!(rt; record_start(&lane), start);
    }
    Ok(())
}

#[test]
fn refuses_each_form(rt: HostRuntime) -> Result<(), AllocError> {
    let alloc = rt.alloc();
    for (text, want, start) in [
        (&b"+5.\x14\x14"[..], "BadOnset", hidden(TalCause::BadOnset)),
        (
            b"+5\x15\x14\x14",
            "BadDuration",
            hidden(TalCause::BadDuration),
        ),
        (
            b"+5\x15-1\x14\x14",
            "BadDuration",
            hidden(TalCause::BadDuration),
        ),
        (b"+0\x14x", "NoEnd", hidden(TalCause::NoEnd)),
        (b"+0\x14\x14\xff", "NoEnd", hidden(TalCause::NoEnd)),
        (b"+0\x14\xff\x14", "NotUtf8", hidden(TalCause::NotUtf8)),
        (
            b"+0\x14a\x15b\x14",
            "ControlByte",
            hidden(TalCause::ControlByte),
        ),
        (b"+0\x14\x14\0\0+1\x14\x14", "0:|;NotZeroFilled", Ok(0)),
        (
            b"\0+0\x14\x14",
            "NotZeroFilled",
            hidden(TalCause::NotZeroFilled),
        ),
    ] {
        let lane = filled(alloc, text, 32)?;
        let found = shown(alloc, &lane)?;
        assert_eq!(rt; found.as_str(), want);
        assert_eq!(rt; record_start(&lane), start);
    }
    Ok(())
}

#[test]
fn reads_lanes_without_filling(rt: HostRuntime) -> Result<(), AllocError> {
    let alloc = rt.alloc();
    for (lane, want, start) in [
        (&b""[..], "", SILENT),
        (b"\0", "", SILENT),
        (b"+0\x14\x14\0", "0:|;", Ok(0i128)),
        (
            b"+0\x14\x14\0+2\x14N2\x14\0",
            "0:|;2000000000000:N2|;",
            Ok(0),
        ),
        (b"+0\x14\x14", "NoEnd", hidden(TalCause::NoEnd)),
        (
            b"+1\x152\x14\x14\0",
            "1000000000000/2000000000000:|;",
            Ok(1_000_000_000_000),
        ),
        (b"-1\x14\x14\0", "-1000000000000:|;", Ok(-1_000_000_000_000)),
        (b"+0\x14\x14\0x", "0:|;NoEnd", Ok(0)),
        (b"+0\x14\x14\0\0\0\0\x01", "0:|;NotZeroFilled", Ok(0)),
    ] {
        let found = shown(alloc, lane)?;
        assert_eq!(rt; found.as_str(), want);
        assert_eq!(rt; record_start(lane), start);
    }
    Ok(())
}

#[test]
fn reads_onsets_and_durations_at_their_limits(rt: HostRuntime) -> Result<(), AllocError> {
    let alloc = rt.alloc();
    for (text, want) in [
        (&b"-000000000001.50\x14\x14"[..], "-1500000000000:|;"),
        (b"-0\x14\x14", "0:|;"),
        (b"+0.12345678901200000000\x14\x14", "123456789012:|;"),
        (b"+00000000000000000000000000007\x14", "7000000000000:;"),
        (
            b"+999999999.999999999999\x14\x14",
            "999999999999999999999:|;",
        ),
        (b"+1000000000\x14\x14", "BadOnset"),
        (b"+0.1234567890123\x14\x14", "BadOnset"),
        (b"0\x14\x14", "BadOnset"),
        (b"\x14\x14", "BadOnset"),
        (b"+1\x1500.50\x14\x14", "1000000000000/500000000000:|;"),
        (b"+1\x150\x14", "1000000000000/0:;"),
        (b"+1\x152\x14\x14", "1000000000000/2000000000000:|;"),
        (b"+5\x151\x152\x14\x14", "BadDuration"),
        (b"+5\x15+1\x14\x14", "BadDuration"),
        (b"5\x15-1\x14\x14", "BadOnset"),
        (b"5\x15-1\x14x", "NoEnd"),
        (b"+5\x15-1\x14\xff\x14", "BadDuration"),
    ] {
        let lane = filled(alloc, text, 32)?;
        let found = shown(alloc, &lane)?;
        assert_eq!(rt; found.as_str(), want);
    }
    Ok(())
}

/// A TAL with an empty text, of so many bytes: `+`, zeros, `7.5`, zeros, two bytes 20 and a byte 0.
fn padded(alloc: Global, bytes: usize) -> Result<Vec<u8>, AllocError> {
    let mut lane = Vec::from_slice(alloc, b"+")?;
    for _ in lane.len()..bytes / 2 {
        lane.push(b'0')?;
    }
    lane.extend_from_slice(b"7.5")?;
    for _ in lane.len()..bytes.saturating_sub(3) {
        lane.push(b'0')?;
    }
    lane.extend_from_slice(b"\x14\x14\0")?;
    Ok(lane)
}

#[test]
fn reads_an_onset_that_fills_a_lane_with_zeros(rt: HostRuntime) -> Result<(), AllocError> {
    let lane = padded(rt.alloc(), 4096)?;
    assert_eq!(rt; lane.len(), 4096);
    assert_eq!(rt; record_start(&lane), Ok(7_500_000_000_000));
    let found = shown(rt.alloc(), &lane)?;
    assert_eq!(rt; found.as_str(), "7500000000000:|;");
    Ok(())
}

#[test]
fn reads_texts(rt: HostRuntime) -> Result<(), AllocError> {
    let alloc = rt.alloc();
    for (text, want) in [
        (&b"+0\x14a\x14b\x14\x14c d\x14"[..], "0:a|b||c d|;"),
        (b"+0\x14\t\n\r\x7f\x14", "0:\t\n\r\x7f|;"),
        (
            b"+0\x14\xc3\xa4 \xe2\x82\xac \xf0\x9f\x98\xb4\x14",
            "0:\u{e4} \u{20ac} \u{1f634}|;",
        ),
        (b"+0\x14\xef\xbb\xbfx\x14", "0:\u{feff}x|;"),
        (b"+0\x14a\x01\x14\xff\x14", "ControlByte"),
        (b"+0\x14a\x14\xff\x01\x14b\x01\x14", "NotUtf8"),
        (b"+0\x14\x1f\x14", "ControlByte"),
        (b"+0\x14\xc0\x80\x14", "NotUtf8"),
        (b"+0\x14\xe0\x80\xaf\x14", "NotUtf8"),
        (b"+0\x14\xed\xa0\x80\x14", "NotUtf8"),
        (b"+0\x14\xf4\x90\x80\x80\x14", "NotUtf8"),
        (b"+0\x14\xe2\x82\x14\xac\x14", "NotUtf8"),
        (b"+0\x14\x80\x14", "NotUtf8"),
        (b"+0\x14\x14\0+1\x14\xff\x14", "0:|;NotUtf8"),
    ] {
        let lane = filled(alloc, text, 32)?;
        let found = shown(alloc, &lane)?;
        assert_eq!(rt; found.as_str(), want);
    }
    Ok(())
}

/// Lanes, and how many texts their first TAL has.
const COUNTS: &[(&[u8], usize)] = &[
    (b"+0\x14\0", 0),
    (b"+0\x14\x14\0+1\x14a\x14b\x14\0", 1),
    (b"+0\x14a\x14b\x14\x14c d\x14\0", 4),
];

#[test]
fn counts_texts(rt: HostRuntime) {
    for (lane, want) in COUNTS {
        let first = Tals::new(lane).next();
        assert!(rt; matches!(first, Some(Ok(tal)) if tal.text_count() == *want));
    }
}

/// Lanes, and where their data records start.
const STARTS: &[(&[u8], Result<i128, StartCause>)] = &[
    (b"+1.5\x14\x14\0+2\x14N2\x14\0", Ok(1_500_000_000_000)),
    (b"+1.5\x14N2\x14\0+2\x14\x14\0", SILENT),
    (b"\0\0", SILENT),
    (b"+1.5\x14\x14", Err(StartCause::Tal(TalCause::NoEnd))),
];

#[test]
fn gives_the_start_by_a_walks_first_item(rt: HostRuntime) {
    for (lane, want) in STARTS {
        let first = Tals::new(lane).next();
        let start = start_by_first(first.as_ref());
        assert_eq!(rt; start, *want);
    }
}

#[test]
fn walks_on_behind_the_start(rt: HostRuntime) {
    let mut tals = Tals::new(b"+1.5\x14\x14\0+2\x14N2\x14\0");
    let first = tals.next();
    let start = start_by_first(first.as_ref());
    assert_eq!(rt; start, Ok(1_500_000_000_000));
    assert!(rt; matches!(first, Some(Ok(_))));
    assert!(rt; matches!(tals.next(), Some(Ok(_))));
    assert!(rt; tals.next().is_none());
}

#[test]
fn says_nothing_behind_a_fault(rt: HostRuntime) {
    let mut tals = Tals::new(b"+0\x14x\0+1\x14\x14\0");
    assert!(rt; matches!(tals.next(), Some(Err(TalCause::NoEnd))));
    assert!(rt; tals.next().is_none());
    assert!(rt; tals.next().is_none());
}

/// Lanes, and where their data records start where the TAL that keeps the time stands alone.
const ALONE: &[(&[u8], Option<i128>)] = &[
    (b"+0\x14\x14\0", Some(0)),
    (b"-1\x14\x14\0\0\0", Some(-1_000_000_000_000)),
    (b"+001.50\x14\x14\0\0", Some(1_500_000_000_000)),
    (b"", None),
    (b"\0\0", None),
    (b"+0\x14", None),
    (b"+0\x14\x14", None),
    (b"+0\x14\0", None),
    (b"+0\x14\x14x", None),
    (b"+0\x14x\x14\0", None),
    (b"+0\x14\x14x\x14\0", None),
    (b"+0\x14\x14\x14\0", None),
    (b"+0\x151\x14\x14\0", None),
    (b"0\x14\x14\0", None),
    (b"\0+0\x14\x14\0", None),
    (b"+0\0\x14\x14\0", None),
    (b"+0\x14\x14\0\0\x01", None),
    (b"+0\x14\x14\0+1\x14x\x14\0", None),
];

#[test]
fn reads_a_time_that_stands_alone(rt: HostRuntime) {
    for (lane, want) in ALONE {
        assert_eq!(rt; time_alone(lane), *want);
        assert_eq!(rt; time_alone_apart(lane), *want);
    }
}
