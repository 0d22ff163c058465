//! Fields of numbers, parts and texts.

use edf_fields::{bytes_at, header_number, header_whole, text};

/// Fields, and the number that each spells.
const HEADER_NUMBERS: &[(&str, Option<i64>)] = &[
    ("-100.0", Some(-1_000_000_000)),
    ("+1", Some(10_000_000)),
    (".5", Some(5_000_000)),
    ("5.", Some(50_000_000)),
    ("-0", Some(0)),
    ("5       ", Some(50_000_000)),
    ("99999999", Some(999_999_990_000_000)),
    (".0000001", Some(1)),
    ("", None),
    ("        ", None),
    ("+", None),
    (".", None),
    ("1e3", None),
    ("1,5", None),
    (" 5", None),
    ("1.2.3", None),
    ("--1", None),
    ("5        ", None),
];

#[test]
fn reads_header_numbers(rt: HostRuntime) {
    for (field, want) in HEADER_NUMBERS {
        let number = header_number(field.as_bytes());
        assert_eq!(rt; number, *want, "at {field}");
    }
}

/// Fields, and the whole number that each spells.
const WHOLE_NUMBERS: &[(&str, Option<i64>)] = &[
    ("-32768", Some(-32768)),
    ("+7", Some(7)),
    ("0256    ", Some(256)),
    ("4.0", None),
    ("-", None),
    ("", None),
    (" 1", None),
    ("1       ", Some(1)),
    ("1        ", None),
];

#[test]
fn reads_whole_numbers(rt: HostRuntime) {
    for (field, want) in WHOLE_NUMBERS {
        let number = header_whole(field.as_bytes());
        assert_eq!(rt; number, *want, "at {field}");
    }
}

#[test]
fn cuts_parts_and_texts(rt: HostRuntime) {
    assert_eq!(rt; bytes_at(b"EDF+C   ", 3, 2), "+C".as_bytes());
    assert_eq!(rt; text(b" EEG Fpz-Cz  "), " EEG Fpz-Cz".as_bytes());
}
