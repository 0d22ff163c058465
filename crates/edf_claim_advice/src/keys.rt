//! Sentences on keys that a claim doesn't have, and on its format.

use crate::claim_lines::key_at;
use crate::placed::say_at;
use crate::refused::Refused;
use crate::words;
use edf_claim::{CLAIM_KEYS, MORE_KEYS, claim_key};
use edf_sentences::{Piece, Text, nearest};
use std::alloc::{AllocError, Global};
use toml::{Table, Value};

/// Whether the integer at `format` is this one.
fn is_format(table: &Table, format: i64) -> bool {
    match table.get(claim_key::FORMAT) {
        Some(value) => value.as_integer() == Some(format),
        None => false,
    }
}

/// Says what is wrong with the format.
pub(crate) fn say_format(text: &mut Text, refused: Refused<'_>) -> Result<(), AllocError> {
    let place = key_at(refused.claim_text, claim_key::FORMAT);
    match refused.table.get(claim_key::FORMAT) {
        Some(Value::String(_)) => say_at(text, place, words::FORMAT_QUOTED, &[]),
        Some(_) => say_at(text, place, words::FORMAT_OTHER, &[]),
        None if place.is_some() => say_at(text, place, words::FORMAT_IN_TABLE, &[]),
        None => text.say(words::FORMAT_MISSING, &[]),
    }
}

/// Says what is wrong with a key that a claim doesn't have.
fn say_key(text: &mut Text, claim_text: &[u8], key: &str) -> Result<(), AllocError> {
    let place = key_at(claim_text, key);
    let quoted = Piece::Quoted(key.as_bytes());
    if stands_in(&MORE_KEYS, key) {
        return say_at(text, place, words::KEY_OF_FORMAT_2, &[quoted]);
    }
    if key == claim_key::FROM || key == claim_key::TO {
        return say_at(text, place, words::KEY_OF_KEEP, &[quoted]);
    }
    match nearest_key(text.alloc(), key)? {
        Some(near) => {
            let pieces = [quoted, Piece::Word(near)];
            say_at(text, place, words::KEY_MISSPELT, &pieces)
        }
        None => {
            let keys = list_of(text.alloc(), &CLAIM_KEYS)?;
            let more = list_of(text.alloc(), &MORE_KEYS)?;
            let pieces = [quoted, Piece::Word(&keys), Piece::Word(&more)];
            say_at(text, place, words::KEY_UNKNOWN, &pieces)
        }
    }
}

/// Some words as a list: `a, b and c`.
fn list_of(alloc: Global, list: &[&str]) -> Result<String, AllocError> {
    let mut said = String::new(alloc);
    for (place, word) in list.iter().enumerate() {
        if place > 0 {
            let is_last = place.saturating_add(1) == list.len();
            said.push_str(if is_last { " and " } else { ", " })?;
        }
        said.push_str(word)?;
    }
    Ok(said)
}

/// The key of a claim that is spelled nearly so, where there is one.
fn nearest_key(alloc: Global, key: &str) -> Result<Option<&'static str>, AllocError> {
    match nearest(alloc, key, &CLAIM_KEYS)? {
        Some(near) => Ok(Some(near)),
        None => nearest(alloc, key, &MORE_KEYS),
    }
}

/// Whether a word is one of some others.
fn stands_in(words: &[&str], word: &str) -> bool {
    for other in words {
        if other.as_bytes() == word.as_bytes() {
            return true;
        }
    }
    false
}

/// Whether a key is one of a claim, and belongs in front of the intervals.
pub(crate) fn is_in_front(key: &str) -> bool {
    key != claim_key::KEEP && (stands_in(&CLAIM_KEYS, key) || stands_in(&MORE_KEYS, key))
}

/// Whether a claim of this table may have the key.
fn is_known(table: &Table, key: &str) -> bool {
    stands_in(&CLAIM_KEYS, key) || (!is_format(table, 1) && stands_in(&MORE_KEYS, key))
}

/// Says which keys a claim doesn't have.
pub(crate) fn say_keys(text: &mut Text, refused: Refused<'_>) -> Result<(), AllocError> {
    for key in refused.table.keys() {
        if !is_known(refused.table, key.as_str()) {
            say_key(text, refused.claim_text, key.as_str())?;
        }
    }
    Ok(())
}
