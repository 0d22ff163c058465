//! Lists of texts, and whether one stands twice.

use edf_fields::are_distinct;
use std::test::Fail;

/// Texts, and whether none of them stands twice.
const LISTS: &[(&[&[u8]], bool)] = &[
    (&[], true),
    (&[b""], true),
    (&[b"EEG"], true),
    (&[b"", b""], false),
    (&[b"EEG", b"EEG"], false),
    (&[b"EEG", b"ECG"], true),
    (&[b"", b"EEG", b""], false),
    (&[b"EEG", b"ECG", b"EMG", b"EOG", b"EEG"], false),
    (&[b"EOG", b"EMG", b"EEG", b"ECG", b"ECG"], false),
    (&[b"EOG", b"EMG", b"EEG", b"ECG", b"EEG 2"], true),
    (&[b"EEG", b"EE", b"E", b"", b"EEG "], true),
    (&[b"E", b"EE", b"EEG", b"EE"], false),
    (&[b"eeg", b"EEG", b"EEg"], true),
    (&[b"\x00", b"", b"\x00\x00"], true),
    (&[b"\xff", b"\x7f", b"\x80", b"\xff"], false),
];

#[test]
fn finds_a_text_that_stands_twice(rt: HostRuntime) -> Result<(), Fail> {
    for (texts, want) in LISTS {
        let mut list = Vec::from_slice(rt.alloc(), texts)?;
        let found = are_distinct(&mut list);
        assert_eq!(rt; found, *want);
    }
    Ok(())
}
