//! Sentences on times that an interval can't have.

use crate::amounts::clock_seconds;
use crate::limits::{MOST_PLACES, MOST_SECONDS, MOST_WHOLE};
use crate::words;
use edf_sentences::{Piece, Text};
use std::alloc::AllocError;

/// What is wrong with whole seconds that stand without quotation marks.
pub(crate) fn number_fault(seconds: i64) -> &'static str {
    if seconds < 0 {
        words::TIME_WITH_SIGN
    } else if seconds > MOST_SECONDS {
        words::TIME_TOO_LONG
    } else {
        words::TIME_NOT_QUOTED
    }
}

/// How many digits stand in front of a dot, and behind it.
fn digits_of(said: &str) -> (usize, usize) {
    match said.split_once('.') {
        Some((whole, places)) => (whole.len(), places.len()),
        None => (said.len(), 0),
    }
}

/// Whether a text has digits and dots alone.
fn is_plain(said: &str) -> bool {
    said.bytes()
        .all(|byte: u8| byte.is_ascii_digit() || byte == b'.')
}

/// Why a text spells no time.
pub(crate) fn time_fault(said: &str) -> &'static str {
    if said.is_empty() {
        return words::TIME_EMPTY;
    }
    if said.contains(':') {
        return words::TIME_IS_A_CLOCK;
    }
    if said.contains(',') {
        return words::TIME_WITH_COMMA;
    }
    if said.starts_with('+') || said.starts_with('-') {
        return words::TIME_WITH_SIGN;
    }
    if said.contains('e') || said.contains('E') {
        return words::TIME_WITH_EXPONENT;
    }
    if said.starts_with('.') || said.ends_with('.') {
        return words::TIME_WITH_BARE_DOT;
    }
    let (whole, places) = digits_of(said);
    if is_plain(said) && (whole > MOST_WHOLE || places > MOST_PLACES) {
        return words::TIME_TOO_LONG;
    }
    words::TIME_OTHER
}

/// Says how many seconds a time of the day has, if a text is one.
pub(crate) fn say_clock<'a>(
    text: &mut Text,
    key: &'a str,
    said: &'a [u8],
) -> Result<(), AllocError> {
    let Some(seconds) = clock_seconds(said) else {
        return Ok(());
    };
    let pieces = [
        Piece::Word(key),
        Piece::Quoted(said),
        Piece::Number(seconds),
    ];
    text.say(words::TIME_IN_SECONDS, &pieces)
}
