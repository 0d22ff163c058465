//! Texts of onsets and durations.

use edf_fields::{onset, span};

/// Texts, and the onset that each spells.
const ONSETS: &[(&str, Option<i128>)] = &[
    ("+0.5", Some(500_000_000_000)),
    ("-000000000001.50", Some(-1_500_000_000_000)),
    ("+0.1234567890120000", Some(123_456_789_012)),
    ("-0", Some(0)),
    ("+999999999.999999999999", Some(999_999_999_999_999_999_999)),
    ("5", None),
    ("+5.", None),
    ("+.5", None),
    ("+1000000000", None),
    ("+0.1234567890123", None),
    ("+", None),
    ("", None),
    ("++1", None),
    ("+1.2.3", None),
    ("+1e3", None),
    (" +1", None),
    ("+1 ", None),
];

#[test]
fn reads_onsets(rt: HostRuntime) {
    for (text, want) in ONSETS {
        let time = onset(text.as_bytes());
        assert_eq!(rt; time, *want, "at {text}");
    }
}

/// Texts, and the duration that each spells.
const SPANS: &[(&str, Option<i128>)] = &[
    ("5", Some(5_000_000_000_000)),
    ("0", Some(0)),
    ("000.25", Some(250_000_000_000)),
    ("999999999.999999999999", Some(999_999_999_999_999_999_999)),
    ("0.1234567890120000", Some(123_456_789_012)),
    ("1000000000", None),
    ("0.1234567890123", None),
    ("+5", None),
    ("-1", None),
    ("5.", None),
    (".5", None),
    ("", None),
];

#[test]
fn reads_spans(rt: HostRuntime) {
    for (text, want) in SPANS {
        let time = span(text.as_bytes());
        assert_eq!(rt; time, *want, "at {text}");
    }
}
