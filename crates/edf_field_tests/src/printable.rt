//! Bytes, and whether they are printable.

use edf_fields::is_printable;

/// Bytes, and whether they are printable.
const BYTES: &[(&[u8], bool)] = &[
    (b"", true),
    (b" ~", true),
    (b"EEG\x1f", false),
    (b"\x7f", false),
    (b"a\xc8", false),
];

#[test]
fn tells_printable_bytes(rt: HostRuntime) {
    for (bytes, want) in BYTES {
        let found = is_printable(bytes);
        assert_eq!(rt; found, *want);
    }
}
