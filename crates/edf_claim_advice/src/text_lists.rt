//! Sentences on lists of texts that a claim can't have.

use crate::claim_lines::{Spotted, key_at, part_from};
use crate::placed::say_at;
use crate::refused::Refused;
use crate::words;
use edf_claim::claim_key;
use edf_fields::{ANNOTATIONS, LABEL_BYTES, Which, which_of};
use edf_sentences::{FULL_STOP, NEXT, Piece, Text, nearest};
use std::alloc::{AllocError, Global};
use toml::Value;
use toml::value::Array;

/// A list of texts in a claim, and where it stands.
#[derive(Clone, Copy)]
struct TextList<'a> {
    claim_text: &'a [u8],
    key: &'a str,
    array: &'a Array,
    place: Option<Spotted<'a>>,
}

impl<'a> TextList<'a> {
    /// The array at a key; none where there is another value, of which it says so.
    fn at(
        text: &mut Text,
        refused: Refused<'a>,
        key: &'a str,
    ) -> Result<Option<TextList<'a>>, AllocError> {
        let place = key_at(refused.claim_text, key);
        let Some(value) = refused.table.get(key) else {
            say_at(text, place, words::TEXTS_MISSING, &[Piece::Word(key)])?;
            return Ok(None);
        };
        let Some(array) = value.as_array() else {
            say_at(text, place, words::TEXTS_NO_ARRAY, &[Piece::Word(key)])?;
            return Ok(None);
        };
        Ok(Some(TextList {
            claim_text: refused.claim_text,
            key,
            array,
            place,
        }))
    }

    /// Where a text of the array stands.
    fn place_of(&self, said: &str) -> Option<Spotted<'a>> {
        let from = match self.place {
            Some(place) => place.line,
            None => 1,
        };
        match part_from(self.claim_text, said.as_bytes(), from) {
            Some(place) => Some(place),
            None => self.place,
        }
    }

    /// Says a sentence on a text of the array.
    fn say(&self, text: &mut Text, sentence: &str, said: &'a str) -> Result<(), AllocError> {
        let pieces = [
            Piece::Quoted(said.as_bytes()),
            Piece::Word(self.key),
            Piece::Number(LABEL_BYTES as i128),
        ];
        say_at(text, self.place_of(said), sentence, &pieces)
    }

    /// Says which values aren't texts.
    fn say_no_texts(&self, text: &mut Text) -> Result<(), AllocError> {
        let key = [Piece::Word(self.key)];
        for value in self.array {
            match value {
                Value::String(_) => {}
                Value::Array(_) => say_at(text, self.place, words::TEXTS_NESTED, &key)?,
                _ => say_at(text, self.place, words::TEXTS_NO_TEXT, &key)?,
            }
        }
        Ok(())
    }

    /// Its texts, in the order of their bytes.
    fn sorted(&self, alloc: Global) -> Result<Vec<&'a str>, AllocError> {
        let mut texts = Vec::new(alloc);
        for value in self.array {
            if let Some(said) = value.as_str() {
                texts.push(said)?;
            }
        }
        texts.sort_unstable();
        Ok(texts)
    }

    /// Says which texts stand twice.
    fn say_twice(&self, text: &mut Text) -> Result<(), AllocError> {
        let texts = self.sorted(text.alloc())?;
        let mut before = None;
        for said in &texts {
            if before == Some(*said) {
                self.say(text, words::TEXT_TWICE, *said)?;
            }
            before = Some(*said);
        }
        Ok(())
    }
}

/// Why a text is no label.
fn label_fault(label: &str) -> Option<&'static str> {
    if label.as_bytes() == ANNOTATIONS {
        return Some(words::LABEL_OF_ANNOTATIONS);
    }
    if !label.is_ascii() {
        return Some(words::LABEL_NOT_ASCII);
    }
    if label.bytes().any(|byte: u8| byte < 32 || byte == 127) {
        return Some(words::LABEL_WITH_CONTROL);
    }
    if label.len() > LABEL_BYTES {
        return Some(words::LABEL_TOO_LONG);
    }
    if label.ends_with(' ') {
        return Some(words::LABEL_WITH_SPACE);
    }
    None
}

/// Says what is wrong with the channels.
pub(crate) fn say_channels(text: &mut Text, refused: Refused<'_>) -> Result<(), AllocError> {
    let Some(list) = TextList::at(text, refused, claim_key::CHANNELS)? else {
        return Ok(());
    };
    if list.array.is_empty() {
        return say_at(text, list.place, words::CHANNELS_EMPTY, &[]);
    }
    list.say_no_texts(text)?;
    for value in list.array {
        if let Some(label) = value.as_str()
            && let Some(sentence) = label_fault(label)
        {
            list.say(text, sentence, label)?;
        }
    }
    list.say_twice(text)
}

/// Says that a name in `anonymous` is none of a subfield.
fn say_name(text: &mut Text, list: &TextList<'_>, name: &str) -> Result<(), AllocError> {
    let mut known = Vec::new(text.alloc());
    for which in Which::all() {
        known.push(which.name())?;
    }
    let place = list.place_of(name);
    let quoted = Piece::Quoted(name.as_bytes());
    match nearest(text.alloc(), name, &known)? {
        Some(near) => {
            let pieces = [quoted, Piece::Word(near)];
            say_at(text, place, words::NAME_MISSPELT, &pieces)
        }
        None => say_at(text, place, words::NAME_UNKNOWN, &[quoted]),
    }
}

/// Says the names of all subfields.
fn say_all_names(text: &mut Text) -> Result<(), AllocError> {
    let mut front = words::NAMES;
    for which in Which::all() {
        text.add(front, &[Piece::Word(which.name())])?;
        front = NEXT;
    }
    text.say(FULL_STOP, &[])
}

/// Says what is wrong with what is made anonymous.
pub(crate) fn say_anonymous(text: &mut Text, refused: Refused<'_>) -> Result<(), AllocError> {
    let Some(list) = TextList::at(text, refused, claim_key::ANONYMOUS)? else {
        return say_all_names(text);
    };
    list.say_no_texts(text)?;
    for value in list.array {
        if let Some(name) = value.as_str()
            && which_of(name.as_bytes()).is_none()
        {
            say_name(text, &list, name)?;
        }
    }
    list.say_twice(text)?;
    say_all_names(text)
}

/// Says what is wrong with the texts of annotations at a key.
pub(crate) fn say_texts(
    text: &mut Text,
    refused: Refused<'_>,
    key: &str,
) -> Result<(), AllocError> {
    let Some(list) = TextList::at(text, refused, key)? else {
        return Ok(());
    };
    list.say_no_texts(text)?;
    for value in list.array {
        if key == claim_key::REMOVE_PREFIX && value.as_str() == Some("") {
            say_at(text, list.place, words::PREFIX_EMPTY, &[])?;
        }
    }
    list.say_twice(text)
}
