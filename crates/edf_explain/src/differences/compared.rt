//! What was compared where the headers aren't as claimed.

use crate::words::{compared as words, parts as part_words};
use edf_findings::{Findings, OnlyInOne, PartFindings};
use edf_sentences::Text;
use std::alloc::AllocError;

/// Says that samples and annotations were compared all the same, and that they are as claimed, if so.
pub(crate) fn say_compared(
    text: &mut Text,
    found: &Findings<'_>,
    only: &OnlyInOne,
) -> Result<(), AllocError> {
    let sentence = if found.channels().is_empty() {
        words::NOTES_COMPARED
    } else {
        words::ALL_COMPARED
    };
    text.say(sentence, &[])?;
    if found.first().is_as_claimed() && only.missing.is_empty() && only.extra.is_empty() {
        text.say(words::THEY_ARE_AS_CLAIMED, &[])?;
    }
    Ok(())
}

/// Says that the samples of a part were compared all the same, and that they are as claimed, if so.
pub(crate) fn say_part_compared(text: &mut Text, part: &PartFindings) -> Result<(), AllocError> {
    if part.channels().is_empty() {
        return text.say(part_words::PART_WITHOUT_CHANNELS, &[]);
    }
    text.say(part_words::PART_COMPARED, &[])?;
    if part.is_as_claimed() {
        text.say(words::THEY_ARE_AS_CLAIMED, &[])?;
    }
    Ok(())
}
