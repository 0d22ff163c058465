//! A text that is looked for in others.

use edf_fields::Which;
use std::alloc::{AllocError, Global};

/// From how many letters on a text is looked for within words, and as a word of its own.
const LEAST_WITHIN: usize = 4;

const LEAST_AS_WORD: usize = 3;

/// How many letters initials have.
pub(crate) const INITIALS: usize = 2;

/// Words of three letters that many names have, and many texts.
const PARTICLES: [&[u8]; 8] = [
    b"von", b"van", b"der", b"den", b"del", b"des", b"ter", b"ten",
];

/// Where a text has to stand to be found.
#[derive(Clone, Copy, PartialEq, Eq)]
enum Standing {
    /// Anywhere, also within a word.
    Within,
    /// As a word of its own.
    AsWord,
}

/// A text that is looked for, in small letters.
#[derive(Drop)]
pub(crate) struct Needle {
    pub(crate) which: Which,
    pub(crate) bytes: Vec<u8>,
    standing: Standing,
}

/// Whether a byte belongs to a word.
fn is_of_word(byte: u8) -> bool {
    byte.is_ascii_alphanumeric() || !byte.is_ascii()
}

/// Whether two bytes that stand side by side belong to one word.
fn are_joined(before: Option<&u8>, behind: Option<&u8>) -> bool {
    match (before, behind) {
        (Some(before), Some(behind)) => is_of_word(*before) && is_of_word(*behind),
        _ => false,
    }
}

/// Whether two bytes that stand side by side belong to one number.
fn are_digits(before: Option<&u8>, behind: Option<&u8>) -> bool {
    match (before, behind) {
        (Some(before), Some(behind)) => before.is_ascii_digit() && behind.is_ascii_digit(),
        _ => false,
    }
}

/// The byte in front of a place.
fn in_front(text: &[u8], place: usize) -> Option<&u8> {
    text.get(place.checked_sub(1)?)
}

/// Whether a part of a text, between two places, is cut off where it may be.
fn is_apart(text: &[u8], from: usize, to: usize, standing: Standing) -> bool {
    let (front, first) = (in_front(text, from), text.get(from));
    let (last, behind) = (in_front(text, to), text.get(to));
    if standing == Standing::AsWord {
        !are_joined(front, first) && !are_joined(last, behind)
    } else {
        !are_digits(front, first) && !are_digits(last, behind)
    }
}

impl Needle {
    /// A text of a subfield that is looked for as a whole; none where it is too short.
    pub(crate) fn of(
        alloc: Global,
        which: Which,
        text: &[u8],
    ) -> Result<Option<Needle>, AllocError> {
        if text.len() < LEAST_AS_WORD {
            return Ok(None);
        }
        let standing = if text.len() < LEAST_WITHIN {
            Standing::AsWord
        } else {
            Standing::Within
        };
        let mut bytes = Vec::from_slice(alloc, text)?;
        bytes.make_ascii_lowercase();
        Ok(Some(Needle {
            which,
            bytes,
            standing,
        }))
    }

    /// Whether it stands at a place of a folded text.
    pub(crate) fn stands_at(&self, text: &[u8], from: usize) -> bool {
        let rest = text.get(from..).unwrap_or(&[]);
        let to = from.saturating_add(self.bytes.len());
        rest.starts_with(&self.bytes) && is_apart(text, from, to, self.standing)
    }
}

/// Whether a text has a word of two capital letters.
pub(crate) fn has_initials(text: &[u8], initials: &[u8]) -> bool {
    for (from, pair) in text.windows(INITIALS).enumerate() {
        let to = from.saturating_add(INITIALS);
        if pair == initials && is_apart(text, from, to, Standing::AsWord) {
            return true;
        }
    }
    false
}

/// Whether a byte stands between two words.
pub(crate) fn is_between_words(byte: &u8) -> bool {
    byte.is_ascii() && !byte.is_ascii_alphanumeric()
}

/// Whether a word is one that many names have, and many texts.
pub(crate) fn is_particle(word: &[u8]) -> bool {
    for particle in &PARTICLES {
        if word.eq_ignore_ascii_case(*particle) {
            return true;
        }
    }
    false
}
