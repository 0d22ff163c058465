//! Sentences on intervals that a claim can't have.

use crate::claim_lines::{Spotted, keep_at, key_at, key_from, value_behind};
use crate::keys::is_in_front;
use crate::limits::{MOST_PLACES, MOST_SECONDS, MOST_WHOLE};
use crate::placed::say_at;
use crate::refused::Refused;
use crate::times::{number_fault, say_clock, time_fault};
use crate::typographic::first_mark;
use crate::words;
use edf_claim::{MOST_INTERVALS, claim_key};
use edf_fields::span;
use edf_sentences::{Piece, Text};
use std::alloc::AllocError;
use toml::{Table, Value};

/// The table of an interval in a claim.
#[derive(Clone, Copy)]
struct IntervalTable<'a> {
    claim_text: &'a [u8],
    table: &'a Table,
    /// Which of the intervals it is, from 0 on.
    number: usize,
}

impl<'a> IntervalTable<'a> {
    /// Where the table begins.
    fn place(&self) -> Option<Spotted<'a>> {
        match keep_at(self.claim_text, self.number) {
            Some(place) => Some(place),
            None => key_at(self.claim_text, claim_key::KEEP),
        }
    }

    /// Where one of its keys stands.
    fn place_of(&self, key: &str) -> Option<Spotted<'a>> {
        let Some(begin) = keep_at(self.claim_text, self.number) else {
            return key_at(self.claim_text, claim_key::KEEP);
        };
        match key_from(self.claim_text, key, begin.line) {
            Some(place) if !self.is_behind(place) => Some(place),
            _ => Some(begin),
        }
    }

    /// Whether a place stands in a later table, or in the line with which the next one begins.
    fn is_behind(&self, place: Spotted<'_>) -> bool {
        match keep_at(self.claim_text, self.number.saturating_add(1)) {
            Some(next) => next.line <= place.line,
            None => false,
        }
    }

    /// Says a sentence on one of its keys.
    fn say(&self, text: &mut Text, sentence: &str, key: &str) -> Result<(), AllocError> {
        let number = Piece::Number((self.number as i128).saturating_add(1));
        say_at(
            text,
            self.place_of(key),
            sentence,
            &[Piece::Word(key), number],
        )
    }

    /// Says a sentence on what stands at one of its keys.
    fn say_of<'p>(
        &self,
        text: &mut Text,
        sentence: &str,
        key: &'p str,
        said: Piece<'p>,
    ) -> Result<(), AllocError> {
        let pieces = [
            Piece::Word(key),
            said,
            Piece::Number(MOST_WHOLE as i128),
            Piece::Number(MOST_PLACES as i128),
        ];
        say_at(text, self.place_of(key), sentence, &pieces)
    }

    /// Says why a text at one of its keys spells no time, and of a time of the day how many seconds it has.
    fn say_no_time(&self, text: &mut Text, key: &str, said: &str) -> Result<(), AllocError> {
        if let Some(mark) = first_mark(said.as_bytes()) {
            let pieces = [Piece::Word(key), Piece::Word(mark.name)];
            return say_at(text, self.place_of(key), words::TIME_WITH_MARK, &pieces);
        }
        let plain = Piece::Plain(said.as_bytes());
        self.say_of(text, time_fault(said), key, plain)?;
        say_clock(text, key, said.as_bytes())
    }

    /// Says of an interval's number that isn't a text how it is written.
    fn say_number(&self, text: &mut Text, key: &str, value: &Value) -> Result<(), AllocError> {
        match value {
            Value::Integer(seconds) => {
                let said = Piece::Number(i128::from(*seconds));
                self.say_of(text, number_fault(*seconds), key, said)
            }
            Value::Float(_) => self.say(text, words::TIME_FLOAT_NOT_QUOTED, key),
            Value::Datetime(_) => {
                self.say(text, words::TIME_IS_A_CLOCK, key)?;
                match self.place_of(key) {
                    Some(place) => {
                        say_clock(text, key, value_behind(place.content, key).unwrap_or(&[]))
                    }
                    None => Ok(()),
                }
            }
            _ => self.say(text, words::TIME_NO_TEXT, key),
        }
    }

    /// The time at a key; none where it isn't one, of which it says why.
    fn time(&self, text: &mut Text, key: &str) -> Result<Option<i128>, AllocError> {
        match self.table.get(key) {
            None => {
                self.say(text, words::TIME_MISSING, key)?;
                Ok(None)
            }
            Some(Value::String(said)) => {
                let time = span(said.as_bytes());
                if time.is_none() {
                    self.say_no_time(text, key, said.as_str())?;
                }
                Ok(time)
            }
            Some(value) => {
                self.say_number(text, key, value)?;
                Ok(None)
            }
        }
    }

    /// Says which keys an interval doesn't have.
    fn say_keys(&self, text: &mut Text) -> Result<(), AllocError> {
        for key in self.table.keys() {
            let key = key.as_str();
            if key != claim_key::FROM && key != claim_key::TO {
                let sentence = if is_in_front(key) {
                    words::KEEP_HAS_KEY_OF_CLAIM
                } else {
                    words::KEEP_HAS_OTHER_KEY
                };
                self.say(text, sentence, key)?;
            }
        }
        Ok(())
    }

    /// Says what is wrong with the interval, and answers where it ends. `before` is where the one before ends.
    fn say_wrong(&self, text: &mut Text, before: i128) -> Result<i128, AllocError> {
        self.say_keys(text)?;
        let from = self.time(text, claim_key::FROM)?;
        let to = self.time(text, claim_key::TO)?;
        if let Some(from) = from
            && let Some(to) = to
        {
            if from >= to {
                self.say(text, words::KEEP_BACKWARDS, claim_key::TO)?;
            }
            if from < before {
                self.say(text, words::KEEP_OUT_OF_ORDER, claim_key::FROM)?;
            }
        }
        Ok(to.unwrap_or(before))
    }
}

/// Says what is wrong with the intervals of an array.
fn say_intervals(text: &mut Text, claim_text: &[u8], array: &[Value]) -> Result<(), AllocError> {
    let mut before: i128 = 0;
    for (number, value) in array.iter().enumerate() {
        match value.as_table() {
            Some(table) => {
                let kept = IntervalTable {
                    claim_text,
                    table,
                    number,
                };
                before = kept.say_wrong(text, before)?;
            }
            None => say_at(
                text,
                key_at(claim_text, claim_key::KEEP),
                words::KEEP_NO_TABLE,
                &[],
            )?,
        }
    }
    Ok(())
}

/// Says that no interval is kept.
fn say_missing(text: &mut Text, place: Option<Spotted<'_>>) -> Result<(), AllocError> {
    let most = Piece::Number(i128::from(MOST_SECONDS));
    say_at(text, place, words::KEEP_MISSING, &[most])
}

/// Says how many intervals are too many.
fn say_too_many(
    text: &mut Text,
    place: Option<Spotted<'_>>,
    count: usize,
) -> Result<(), AllocError> {
    let pieces = [
        Piece::Number(count as i128),
        Piece::Number(MOST_INTERVALS as i128),
    ];
    say_at(text, place, words::KEEP_TOO_MANY, &pieces)
}

/// Says what is wrong with what is kept.
pub(crate) fn say_keep(text: &mut Text, refused: Refused<'_>) -> Result<(), AllocError> {
    let place = key_at(refused.claim_text, claim_key::KEEP);
    match refused.table.get(claim_key::KEEP) {
        None => say_missing(text, None),
        Some(Value::Table(_)) => say_at(text, place, words::KEEP_SINGLE, &[]),
        Some(Value::Array(array)) if array.is_empty() => say_missing(text, place),
        Some(Value::Array(array)) if array.len() > MOST_INTERVALS => {
            say_too_many(text, place, array.len())
        }
        Some(Value::Array(array)) => say_intervals(text, refused.claim_text, array),
        Some(_) => say_at(text, place, words::KEEP_NO_TABLE, &[]),
    }
}
