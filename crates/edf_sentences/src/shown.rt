//! Texts as a terminal can show them: signs that aren't seen, or that a terminal may obey, stand there by their numbers.

use std::alloc::{AllocError, Global};
use unicode::properties::{GeneralCategory, is_default_ignorable_code_point};

/// Whether a sign beyond those of English isn't seen, or does something to what stands beside it.
pub fn is_unseen(sign: char) -> bool {
    !sign.is_ascii()
        && (is_default_ignorable_code_point(sign)
            || matches!(
                GeneralCategory::for_char(sign),
                GeneralCategory::Control
                    | GeneralCategory::Format
                    | GeneralCategory::LineSeparator
                    | GeneralCategory::ParagraphSeparator
            ))
}

/// Puts a text behind some bytes, with signs that aren't seen by their numbers: `<U+202E>`.
pub(crate) fn push_shown(alloc: Global, bytes: &mut Vec<u8>, text: &str) -> Result<(), AllocError> {
    for sign in text.chars() {
        let part = if is_unseen(sign) {
            format!(in alloc; "<U+{:04X}>", u32::from(sign))?
        } else {
            format!(in alloc; "{sign}")?
        };
        bytes.extend_from_slice(part.as_bytes())?;
    }
    Ok(())
}

/// Puts bytes that are no UTF-8 behind others, with a question mark for each that isn't ASCII.
fn push_ascii(bytes: &mut Vec<u8>, text: &[u8]) -> Result<(), AllocError> {
    for byte in text {
        bytes.push(if byte.is_ascii() { *byte } else { b'?' })?;
    }
    Ok(())
}

/// A text with signs that aren't seen by their numbers.
pub(crate) fn shown(alloc: Global, text: &[u8]) -> Result<Vec<u8>, AllocError> {
    let mut bytes = Vec::new(alloc);
    match std::str::from_utf8(text) {
        Ok(text) => push_shown(alloc, &mut bytes, text)?,
        Err(_) => push_ascii(&mut bytes, text)?,
    }
    Ok(bytes)
}
