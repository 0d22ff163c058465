//! Sentences on a shift that a claim can't have.

use crate::amounts::amount_of;
use crate::claim_lines::{Spotted, key_at};
use crate::limits::MOST_SHIFT;
use crate::placed::say_at;
use crate::refused::Refused;
use crate::typographic::first_mark;
use crate::words;
use edf_claim::claim_key;
use edf_sentences::{Piece, Text};
use std::alloc::AllocError;
use toml::Value;

/// Says what is wrong with the shift.
pub(crate) fn say_shift(text: &mut Text, refused: Refused<'_>) -> Result<(), AllocError> {
    let place = key_at(refused.claim_text, claim_key::SHIFT);
    match refused.table.get(claim_key::SHIFT) {
        Some(Value::Integer(_)) => say_too_large(text, place),
        Some(Value::Float(_)) => say_at(text, place, words::SHIFT_NOT_WHOLE, &[]),
        Some(Value::String(said)) => {
            let said = said.as_str().as_bytes();
            if !say_amount(text, place, said)? {
                say_at(text, place, words::SHIFT_QUOTED, &[])?;
            }
            say_mark(text, said)
        }
        _ => say_at(text, place, words::SHIFT_OTHER, &[]),
    }
}

/// Says how large a shift may be.
fn say_too_large(text: &mut Text, place: Option<Spotted<'_>>) -> Result<(), AllocError> {
    let most = Piece::Number(MOST_SHIFT);
    say_at(text, place, words::SHIFT_TOO_LARGE, &[most])
}

/// Says how many seconds an amount of time has that stands for a shift; answers whether it is one.
pub(crate) fn say_amount(
    text: &mut Text,
    place: Option<Spotted<'_>>,
    said: &[u8],
) -> Result<bool, AllocError> {
    let Some(amount) = amount_of(said) else {
        return Ok(false);
    };
    if amount.seconds.saturating_abs() > MOST_SHIFT {
        say_too_large(text, place)?;
        return Ok(true);
    }
    let pieces = [
        Piece::Quoted(said),
        Piece::Number(amount.seconds),
        Piece::Word(amount.unit),
        Piece::Number(amount.unit_seconds),
    ];
    say_at(text, place, words::SHIFT_IN_UNITS, &pieces)?;
    Ok(true)
}

/// Says which mark of typography a text has, if it has one.
pub(crate) fn say_mark(text: &mut Text, said: &[u8]) -> Result<(), AllocError> {
    match first_mark(said) {
        Some(mark) => {
            let pieces = [Piece::Word(mark.name), Piece::Word(mark.plain)];
            text.say(words::MARK_IN_LINE, &pieces)
        }
        None => Ok(()),
    }
}
