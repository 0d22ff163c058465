//! What to read before an export goes out that is as claimed.

use crate::misspelt::say_misspelt;
use crate::names::say_names;
use crate::read_texts::ReadTexts;
use crate::words;
use edf_fields::Which;
use edf_header::Header;
use edf_heads::is_anonymous;
use edf_sentences::{FULL_STOP, NEXT, Piece, Text};
use std::alloc::AllocError;

/// Says which subfields of an export go out as they are.
fn say_subfields(text: &mut Text, export: &Header) -> Result<(), AllocError> {
    let mut front = words::SUBFIELDS_SHOWN;
    for which in Which::all() {
        if !is_anonymous(export, *which) {
            text.add(front, &[Piece::Word(which.name())])?;
            front = NEXT;
        }
    }
    if front == NEXT {
        text.say(FULL_STOP, &[])?;
    }
    Ok(())
}

/// Says which texts stand beside the labels of channels.
fn say_channel_texts(text: &mut Text, export: &Header) -> Result<(), AllocError> {
    let mut is_first = true;
    for signal in export.signals() {
        if !signal.transducer().is_empty() || !signal.prefilter().is_empty() {
            if is_first {
                text.say(words::CHANNEL_TEXTS, &[])?;
                is_first = false;
            }
            let pieces = [
                Piece::Quoted(signal.label()),
                Piece::Quoted(signal.transducer()),
                Piece::Quoted(signal.prefilter()),
            ];
            text.say(words::CHANNEL_TEXT, &pieces)?;
        }
    }
    Ok(())
}

/// Says what to read before an export goes out that is as claimed.
pub fn say_warnings(text: &mut Text, read: ReadTexts<'_>) -> Result<(), AllocError> {
    text.say(words::AS_CLAIMED, &[])?;
    say_misspelt(text, read)?;
    say_names(text, read, true)?;
    say_subfields(text, read.export)?;
    say_channel_texts(text, read.export)?;
    text.say(words::READ_THE_TEXTS, &[])
}

/// Says what else is to be seen of an export that isn't as claimed.
pub fn say_behind_no(text: &mut Text, read: ReadTexts<'_>) -> Result<(), AllocError> {
    say_misspelt(text, read)?;
    say_names(text, read, false)?;
    text.say(words::CHECK_AGAIN, &[])
}
