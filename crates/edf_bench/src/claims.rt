//! Texts of claims.

use crate::nights::{TEXTS, label_of};
use std::alloc::{AllocError, Global};

/// Which subfields an export hides.
const HIDDEN: &str = "\"code\", \"birthdate\", \"name\"";

/// Puts a list of texts behind the text.
fn push_labels(text: &mut String, alloc: Global, channels: usize) -> Result<(), AllocError> {
    for channel in 0..channels {
        text.push_str("\"")?;
        text.push_str(&label_of(alloc, channel)?)?;
        text.push_str("\", ")?;
    }
    Ok(())
}

/// Puts the texts that are removed behind the text, but for so many of the first ones.
fn push_removed(text: &mut String, kept: usize) -> Result<(), AllocError> {
    for removed in TEXTS.get(kept..).unwrap_or(&[]) {
        text.push_str("\"")?;
        text.push_str(removed)?;
        text.push_str("\", ")?;
    }
    Ok(())
}

/// Puts an interval between two milliseconds behind the text.
fn push_interval(text: &mut String, alloc: Global, from: u32, to: u32) -> Result<(), AllocError> {
    text.push_str("[[keep]]\nfrom = \"")?;
    push_seconds(text, alloc, from)?;
    text.push_str("\"\nto = \"")?;
    push_seconds(text, alloc, to)?;
    text.push_str("\"\n")
}

/// Puts so many milliseconds behind the text, in seconds.
fn push_seconds(text: &mut String, alloc: Global, millis: u32) -> Result<(), AllocError> {
    let second = millis / 1000;
    let hundreds = (millis / 100) % 10;
    let tens = (millis / 10) % 10;
    let ones = millis % 10;
    text.push_str(&format!(in alloc; "{second}.{hundreds}{tens}{ones}")?)
}

/// The claim of an export with so many channels that keeps the first texts, so many, and what lies between each
/// of these milliseconds and the next one.
pub fn claim_of(
    alloc: Global,
    channels: usize,
    texts: usize,
    bounds: &[u32],
) -> Result<String, AllocError> {
    let mut text = String::new(alloc);
    text.push_str("format = 1\nchannels = [")?;
    push_labels(&mut text, alloc, channels)?;
    text.push_str("]\nanonymous = [")?;
    text.push_str(HIDDEN)?;
    text.push_str("]\nremove = [")?;
    push_removed(&mut text, texts)?;
    text.push_str("]\n")?;
    for pair in bounds.windows(2) {
        push_interval(&mut text, alloc, pair[0], pair[1])?;
    }
    Ok(text)
}
