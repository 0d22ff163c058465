//! Sentences on a claim that is refused: where, what stands there, and what was expected.

use crate::claim_lines::{place_at, value_behind};
use crate::intervals::say_keep;
use crate::keys::{say_format, say_keys};
use crate::refused::Refused;
use crate::shift::{say_amount, say_mark, say_shift};
use crate::text_lists::{say_anonymous, say_channels, say_texts};
use crate::words;
use edf_claim::{Claim, ClaimStop, MOST_CLAIM_BYTES, claim_key};
use edf_sentences::{Piece, Text, looks_like_a_recording};
use std::alloc::{AllocError, Global};
use toml::de::Error;

/// Says where a text isn't TOML, and why.
fn say_not_toml(text: &mut Text, claim_text: &[u8], fault: &Error) -> Result<(), AllocError> {
    if let Err(error) = std::str::from_utf8(claim_text) {
        let place = place_at(claim_text, error.valid_up_to());
        let pieces = [
            Piece::Number(place.line as i128),
            Piece::Number(place.column as i128),
        ];
        return text.say(words::NOT_UTF8, &pieces);
    }
    let Some(span) = fault.span() else {
        return Ok(());
    };
    let place = place_at(claim_text, span.start);
    let pieces = [
        Piece::Number(place.line as i128),
        Piece::Number(place.column as i128),
        Piece::Word(fault.message()),
    ];
    text.say(words::NOT_TOML, &pieces)?;
    if let Some(content) = place.shown() {
        text.say(words::THE_LINE, &[Piece::Plain(content)])?;
    }
    say_mark(text, place.content)?;
    if let Some(value) = value_behind(place.content, claim_key::SHIFT)
        && say_amount(text, Some(place), value)?
    {
        return Ok(());
    }
    text.say(words::NOT_TOML_ADVICE, &[])
}

/// Says what is wrong with a text that is TOML.
fn say_table(text: &mut Text, refused: Refused<'_>, stop: ClaimStop) -> Result<(), AllocError> {
    match stop {
        ClaimStop::BadFormat => say_format(text, refused),
        ClaimStop::UnknownKey => say_keys(text, refused),
        ClaimStop::BadChannels => say_channels(text, refused),
        ClaimStop::BadKeep => say_keep(text, refused),
        ClaimStop::BadAnonymous => say_anonymous(text, refused),
        ClaimStop::BadShift => say_shift(text, refused),
        ClaimStop::BadRemove => say_texts(text, refused, claim_key::REMOVE),
        ClaimStop::BadRemovePrefix => say_texts(text, refused, claim_key::REMOVE_PREFIX),
        ClaimStop::BadBlank => say_texts(text, refused, claim_key::BLANK),
        ClaimStop::OutOfMemory | ClaimStop::TooLong | ClaimStop::NotToml => Ok(()),
    }
}

/// Says why a text is no claim.
fn say_refusal(text: &mut Text, claim_text: &[u8], stop: ClaimStop) -> Result<(), AllocError> {
    if looks_like_a_recording(claim_text) {
        return text.say(words::CLAIM_IS_A_RECORDING, &[]);
    }
    if stop == ClaimStop::TooLong {
        let most = Piece::Number(MOST_CLAIM_BYTES as i128);
        return text.say(words::CLAIM_TOO_LONG, &[most]);
    }
    match toml::table_from_slice(text.alloc(), claim_text) {
        Ok(table) => {
            let refused = Refused {
                claim_text,
                table: &table,
            };
            say_table(text, refused, stop)
        }
        Err(fault) if fault.is_memory() => Err(AllocError),
        Err(fault) => say_not_toml(text, claim_text, &fault),
    }
}

/// Sentences on a claim that is refused: in which line, what stands there, and what was expected. Of a claim that is
/// taken there are none.
///
/// The error is want of memory.
pub fn explain_claim(alloc: Global, claim_text: &[u8]) -> Result<Vec<u8>, AllocError> {
    let mut text = Text::new(alloc);
    match Claim::read(alloc, claim_text) {
        Ok(_) => {}
        Err(ClaimStop::OutOfMemory) => return Err(AllocError),
        Err(stop) => say_refusal(&mut text, claim_text, stop)?,
    }
    Ok(text.into_bytes())
}
