//! Sentences that say at which line of a claim something stands.

use crate::claim_lines::Spotted;
use crate::words;
use edf_sentences::{Piece, Text};
use std::alloc::AllocError;

/// Puts a line of a claim in front of what is said of it.
fn add_place(text: &mut Text, place: Spotted<'_>) -> Result<(), AllocError> {
    let words = if place.column > 1 {
        words::AT_COLUMN
    } else {
        words::AT_LINE
    };
    let pieces = [
        Piece::Number(place.line as i128),
        Piece::Number(place.column as i128),
    ];
    text.add(words, &pieces)?;
    match place.shown() {
        Some(content) => text.add(words::LINE_CONTENT, &[Piece::Plain(content)]),
        None => Ok(()),
    }
}

/// Says what was expected at a place of a claim, where the place is known.
pub(crate) fn say_at(
    text: &mut Text,
    place: Option<Spotted<'_>>,
    sentence: &str,
    pieces: &[Piece<'_>],
) -> Result<(), AllocError> {
    if let Some(place) = place {
        add_place(text, place)?;
    }
    text.say(sentence, pieces)
}
