//! Labels, and their bytes again.

use edf_fields::SignalLabel;

/// Labels of no byte, of some, and of as many as there may be.
const LABELS: &[&[u8]] = &[b"", b"ECG", b"EDF Annotations", b"Saturation SpO2 "];

#[test]
fn gives_the_bytes_again(rt: HostRuntime) {
    for bytes in LABELS {
        let label = SignalLabel::new(bytes);
        let same = label.text() == *bytes;
        assert!(rt; same);
    }
}
