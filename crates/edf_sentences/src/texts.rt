//! A text that is put together from sentences, and what stands in their open places.

use crate::shown::shown;
use crate::words;
use edf_fields::SECOND_PS;
use edf_verdict::push_quoted;
use jiff::Timestamp;
use jiff::tz::Offset;
use std::alloc::{AllocError, Global};

/// How many picoseconds a second has, where a sign stands apart.
const UNSIGNED_SECOND_PS: u128 = SECOND_PS as u128;

/// What stands in an open place of a sentence.
#[derive(Clone, Copy)]
pub enum Piece<'a> {
    /// A word, as it stands.
    Word(&'a str),
    /// Bytes, as they stand.
    Plain(&'a [u8]),
    /// A text of a file or a claim, between quotation marks.
    ///
    /// In this as in words and in bytes as they stand, signs that aren't seen stand by their numbers.
    Quoted(&'a [u8]),
    /// Bytes, each by two digits.
    Hex(&'a [u8]),
    /// A number.
    Number(i128),
    /// A number in units of 10^-7, with a dot.
    Decimal(i64),
    /// A time in picoseconds, as seconds with their fraction.
    Seconds(i128),
    /// The same, without its unit.
    Bare(i128),
    /// A time in picoseconds after 1970-01-01 00:00:00, as a day and a time of the day.
    Moment(i128),
    /// A length of time in picoseconds, in words and without its sign.
    Length(i128),
}

/// A text that grows sentence by sentence.
#[derive(Drop)]
pub struct Text {
    alloc: Global,
    bytes: Vec<u8>,
}

impl Text {
    /// An empty one.
    pub fn new(alloc: Global) -> Text {
        Text {
            alloc,
            bytes: Vec::new(alloc),
        }
    }

    /// Its bytes.
    pub fn bytes(&self) -> &[u8] {
        &self.bytes
    }

    /// What it takes memory by.
    pub fn alloc(&self) -> Global {
        self.alloc
    }

    /// Its bytes, where it isn't needed any more.
    pub fn into_bytes(self) -> Vec<u8> {
        self.bytes
    }

    /// Whether nothing was said.
    pub fn is_empty(&self) -> bool {
        self.bytes.is_empty()
    }

    /// Puts words behind it.
    fn push(&mut self, words: &str) -> Result<(), AllocError> {
        self.bytes.extend_from_slice(words.as_bytes())
    }

    /// Puts a number behind it.
    fn push_number(&mut self, number: i128) -> Result<(), AllocError> {
        let digits = format!(in self.alloc; "{number}")?;
        self.push(&digits)
    }

    /// Puts a dot and a fraction of 12 digits behind it, without the zeros at its end.
    fn push_fraction(&mut self, fraction: u128) -> Result<(), AllocError> {
        if fraction == 0 {
            return Ok(());
        }
        let digits = format!(in self.alloc; ".{fraction:012}")?;
        self.push(digits.trim_end_matches('0'))
    }

    /// Puts a time without a sign, in seconds, behind it.
    fn push_unsigned_seconds(&mut self, ps: u128) -> Result<(), AllocError> {
        let whole = format!(in self.alloc; "{}", ps / UNSIGNED_SECOND_PS)?;
        self.push(&whole)?;
        self.push_fraction(ps % UNSIGNED_SECOND_PS)
    }

    /// Puts a time in seconds behind it.
    fn push_seconds(&mut self, ps: i128) -> Result<(), AllocError> {
        if ps < 0 {
            self.push("-")?;
        }
        self.push_unsigned_seconds(ps.unsigned_abs())
    }

    /// Puts a number in units of 10^-7 behind it.
    fn push_decimal(&mut self, number: i64) -> Result<(), AllocError> {
        if number < 0 {
            self.push("-")?;
        }
        let size = number.unsigned_abs();
        let whole = format!(in self.alloc; "{}", size / 10_000_000)?;
        self.push(&whole)?;
        let rest = size % 10_000_000;
        if rest != 0 {
            let digits = format!(in self.alloc; ".{rest:07}")?;
            self.push(digits.trim_end_matches('0'))?;
        }
        Ok(())
    }

    /// Puts the day and the time of the day of a second behind it.
    fn push_second(&mut self, second: i64) -> Result<(), AllocError> {
        let Ok(timestamp) = Timestamp::from_second(second) else {
            return self.push(words::NO_DAY);
        };
        let moment = Offset::UTC.to_datetime(timestamp);
        let day = format!(in self.alloc;
            "{:04}-{:02}-{:02}",
            moment.year(),
            moment.month(),
            moment.day()
        )?;
        let clock = format!(in self.alloc;
            " {:02}:{:02}:{:02}",
            moment.hour(),
            moment.minute(),
            moment.second()
        )?;
        self.push(&day)?;
        self.push(&clock)
    }

    /// Puts a day and a time of the day behind it.
    fn push_moment(&mut self, ps: i128) -> Result<(), AllocError> {
        let Ok(second) = i64::try_from(ps.div_euclid(SECOND_PS)) else {
            return self.push(words::NO_DAY);
        };
        self.push_second(second)?;
        self.push_fraction(ps.rem_euclid(SECOND_PS).unsigned_abs())
    }

    /// Puts a number of units behind it, where it isn't 0.
    fn push_units(&mut self, count: u128, unit: words::Unit) -> Result<(), AllocError> {
        if count == 0 {
            return Ok(());
        }
        let word = if count == 1 { unit.one } else { unit.more };
        let units = format!(in self.alloc; "{count} {word} ")?;
        self.push(&units)
    }

    /// Puts a length of time behind it, in days, hours, minutes and seconds.
    fn push_length(&mut self, ps: u128) -> Result<(), AllocError> {
        let seconds = ps / UNSIGNED_SECOND_PS;
        let rest = ps % UNSIGNED_SECOND_PS + seconds % 60 * UNSIGNED_SECOND_PS;
        self.push_units(seconds / 86_400, words::DAYS)?;
        self.push_units(seconds / 3_600 % 24, words::HOURS)?;
        self.push_units(seconds / 60 % 60, words::MINUTES)?;
        if rest == 0 {
            return self.drop_space();
        }
        self.push_unsigned_seconds(rest)?;
        self.push(words::SECONDS_UNIT)
    }

    /// Takes a space at its end away.
    fn drop_space(&mut self) -> Result<(), AllocError> {
        if self.bytes.last() == Some(&b' ') {
            self.bytes.pop();
        }
        Ok(())
    }

    /// Puts a text of a file, a claim or a path behind it.
    fn push_text(&mut self, text: &[u8]) -> Result<(), AllocError> {
        if text.is_ascii() {
            return self.bytes.extend_from_slice(text);
        }
        let shown = shown(self.alloc, text)?;
        self.bytes.extend_from_slice(&shown)
    }

    /// Puts a text of a file or a claim behind it, between quotation marks.
    fn push_quoted(&mut self, text: &[u8]) -> Result<(), AllocError> {
        if text.is_ascii() {
            return push_quoted(&mut self.bytes, text);
        }
        let shown = shown(self.alloc, text)?;
        push_quoted(&mut self.bytes, &shown)
    }

    /// Puts bytes behind it, each by two digits.
    fn push_hex(&mut self, bytes: &[u8]) -> Result<(), AllocError> {
        let front = match bytes.len() {
            0 => return self.push(words::NO_BYTES),
            1 => words::ONE_BYTE,
            _ => words::SOME_BYTES,
        };
        self.push(front)?;
        for byte in bytes {
            let digits = format!(in self.alloc; " {byte:02x}")?;
            self.push(&digits)?;
        }
        Ok(())
    }

    /// Puts a piece behind it.
    fn push_piece(&mut self, piece: Piece<'_>) -> Result<(), AllocError> {
        match piece {
            Piece::Word(word) => self.push_text(word.as_bytes()),
            Piece::Plain(bytes) => self.push_text(bytes),
            Piece::Quoted(text) => self.push_quoted(text),
            Piece::Hex(bytes) => self.push_hex(bytes),
            Piece::Number(number) => self.push_number(number),
            Piece::Decimal(number) => self.push_decimal(number),
            Piece::Seconds(ps) => {
                self.push_seconds(ps)?;
                self.push(words::SECONDS_UNIT)
            }
            Piece::Bare(ps) => self.push_seconds(ps),
            Piece::Moment(ps) => self.push_moment(ps),
            Piece::Length(ps) => self.push_length(ps.unsigned_abs()),
        }
    }

    /// Puts what stands between two open places behind it, with the piece of the place in front.
    fn push_part(&mut self, part: &[u8], pieces: &[Piece<'_>]) -> Result<(), AllocError> {
        let [digit, b'}', rest @ ..] = part else {
            return self.bytes.extend_from_slice(part);
        };
        if let Some(piece) = pieces.get(usize::from(digit.wrapping_sub(b'0'))) {
            self.push_piece(*piece)?;
        }
        self.bytes.extend_from_slice(rest)
    }

    /// Puts words behind it; `{0}` stands for the first of the pieces, `{1}` for the second.
    pub fn add(&mut self, sentence: &str, pieces: &[Piece<'_>]) -> Result<(), AllocError> {
        for part in sentence.as_bytes().split(|byte: &u8| *byte == b'{') {
            self.push_part(part, pieces)?;
        }
        Ok(())
    }

    /// Puts a sentence and the end of its line behind it, as `add` does.
    pub fn say(&mut self, sentence: &str, pieces: &[Piece<'_>]) -> Result<(), AllocError> {
        self.add(sentence, pieces)?;
        self.bytes.push(b'\n')?;
        Ok(())
    }
}
