//! What bytes look like, for files that were typed in the wrong order.

/// How many bytes of a file are looked at.
pub const FRONT: usize = 4_096;

/// Whether bytes begin as a file of EDF does, the older one among them: its version, with spaces behind it.
pub fn begins_as_edf(bytes: &[u8]) -> bool {
    bytes.starts_with(b"0       ")
}

/// Whether bytes begin as a BDF file does.
pub fn begins_as_bdf(bytes: &[u8]) -> bool {
    bytes.starts_with(b"\xffBIOSEMI")
}

/// Whether bytes look like the front of a recording.
pub fn looks_like_a_recording(bytes: &[u8]) -> bool {
    begins_as_edf(bytes) || begins_as_bdf(bytes)
}

/// Whether a line is one of a claim that says its format, its channels or what it keeps.
fn is_line_of_claim(line: &[u8]) -> bool {
    let line = line.trim_ascii_start();
    line.starts_with(b"format") || line.starts_with(b"channels") || line.starts_with(b"[[keep]]")
}

/// Whether one of the lines is one of a claim.
fn has_line_of_claim(text: &[u8]) -> bool {
    for line in text.split(|byte: &u8| *byte == b'\n') {
        if is_line_of_claim(line) {
            return true;
        }
    }
    false
}

/// Whether bytes look like a claim: there is no byte 0 in the front of them, and a line is one of a claim.
pub fn looks_like_a_claim(bytes: &[u8]) -> bool {
    let front = bytes.get(..FRONT).unwrap_or(bytes);
    !looks_like_a_recording(bytes) && !front.contains(&0) && has_line_of_claim(front)
}
