//! Where something stands in the text of a claim.

use edf_claim::claim_key;

/// A place in a text: its line and its column, both from 1, and the whole line.
#[derive(Clone, Copy)]
pub(crate) struct Spotted<'a> {
    pub(crate) line: usize,
    pub(crate) column: usize,
    pub(crate) content: &'a [u8],
}

impl<'a> Spotted<'a> {
    /// The place at a column of a line, by the number of the line from 0 on.
    fn new(number: usize, column: usize, line: &'a [u8]) -> Spotted<'a> {
        Spotted {
            line: number.saturating_add(1),
            column,
            content: line.trim_ascii(),
        }
    }
}

/// The front of a table of an interval.
const KEEP: &[u8] = b"[[keep]]";

/// What stands behind a key in a line, where the line is one of this key, from its `=` on.
fn behind_key<'a>(line: &'a [u8], key: &[u8]) -> Option<&'a [u8]> {
    let line = line.trim_ascii_start();
    let line = match line {
        [b'"' | b'\'', rest @ ..] => rest,
        _ => line,
    };
    let rest = line.strip_prefix(key)?;
    let rest = match rest {
        [b'"' | b'\'', rest @ ..] => rest,
        _ => rest,
    };
    let rest = rest.trim_ascii_start();
    match rest {
        [b'=', ..] => Some(rest),
        _ => None,
    }
}

/// How many bytes stand before some others in a line.
fn offset_of(line: &[u8], part: &[u8]) -> Option<usize> {
    if part.is_empty() {
        return None;
    }
    for (offset, window) in line.windows(part.len()).enumerate() {
        if window == part {
            return Some(offset);
        }
    }
    None
}

/// How many characters UTF-8 bytes have.
fn characters(bytes: &[u8]) -> usize {
    let mut count: usize = 0;
    for byte in bytes {
        if *byte & 0xc0 != 0x80 {
            count = count.saturating_add(1);
        }
    }
    count
}

/// The column behind so many bytes of a line.
fn column_behind(line: &[u8], offset: usize) -> usize {
    characters(line.get(..offset).unwrap_or(line)).saturating_add(1)
}

/// The line of a key, of the lines from one on.
pub(crate) fn key_from<'a>(text: &'a [u8], key: &str, from: usize) -> Option<Spotted<'a>> {
    for (place, line) in text.split(|byte: &u8| *byte == b'\n').enumerate() {
        let number = place.saturating_add(1);
        if number >= from && behind_key(line, key.as_bytes()).is_some() {
            let indent = line.len().saturating_sub(line.trim_ascii_start().len());
            return Some(Spotted::new(place, indent.saturating_add(1), line));
        }
    }
    None
}

/// The line of a key.
pub(crate) fn key_at<'a>(text: &'a [u8], key: &str) -> Option<Spotted<'a>> {
    key_from(text, key, 1)
}

/// The first place of some bytes, of the lines from one on.
pub(crate) fn part_from<'a>(text: &'a [u8], part: &[u8], from: usize) -> Option<Spotted<'a>> {
    for (place, line) in text.split(|byte: &u8| *byte == b'\n').enumerate() {
        let number = place.saturating_add(1);
        if number >= from
            && let Some(offset) = offset_of(line, part)
        {
            return Some(Spotted::new(place, column_behind(line, offset), line));
        }
    }
    None
}

/// What stands behind a key and its `=` in a line, where the line is one of this key.
pub(crate) fn value_behind<'a>(line: &'a [u8], key: &str) -> Option<&'a [u8]> {
    match behind_key(line, key.as_bytes())? {
        [b'=', value @ ..] => Some(value.trim_ascii()),
        _ => None,
    }
}

/// The place of the brace in a line that begins the table of an interval, where so many tables begin in front of it. The
/// count is what is left of it behind the line.
fn brace_in(line: &[u8], left: &mut usize) -> Option<usize> {
    let mut is_in_text = false;
    for (place, byte) in line.iter().enumerate() {
        match byte {
            b'"' => is_in_text = !is_in_text,
            b'#' if !is_in_text => return None,
            b'{' if !is_in_text => {
                if *left == 0 {
                    return Some(place);
                }
                *left = left.saturating_sub(1);
            }
            _ => {}
        }
    }
    None
}

/// Where the table of an interval begins that stands in a list behind `keep`, by its number from 0 on.
fn listed_keep_at<'a>(text: &'a [u8], interval: usize) -> Option<Spotted<'a>> {
    let first = key_at(text, claim_key::KEEP)?.line;
    let mut left = interval;
    for (place, line) in text.split(|byte: &u8| *byte == b'\n').enumerate() {
        let number = place.saturating_add(1);
        if number >= first
            && let Some(offset) = brace_in(line, &mut left)
        {
            return Some(Spotted::new(place, column_behind(line, offset), line));
        }
    }
    None
}

/// Where the table of an interval begins, by its number from 0 on: its line `[[keep]]`, or its place in the list behind
/// `keep`.
pub(crate) fn keep_at<'a>(text: &'a [u8], interval: usize) -> Option<Spotted<'a>> {
    match headed_keep_at(text, interval) {
        Some(place) => Some(place),
        None => listed_keep_at(text, interval),
    }
}

/// The line with which the table of an interval begins, by its number from 0 on.
fn headed_keep_at<'a>(text: &'a [u8], interval: usize) -> Option<Spotted<'a>> {
    let mut before: usize = 0;
    for (place, line) in text.split(|byte: &u8| *byte == b'\n').enumerate() {
        if line.trim_ascii_start().starts_with(KEEP) {
            if before == interval {
                return Some(Spotted::new(place, 1, line));
            }
            before = before.saturating_add(1);
        }
    }
    None
}

/// The place behind so many bytes of a text.
pub(crate) fn place_at(text: &[u8], offset: usize) -> Spotted<'_> {
    let mut start: usize = 0;
    let mut found = Spotted {
        line: 1,
        column: 1,
        content: &[],
    };
    for (place, line) in text.split(|byte: &u8| *byte == b'\n').enumerate() {
        if start <= offset {
            let column = column_behind(line, offset.saturating_sub(start));
            found = Spotted::new(place, column, line);
        }
        start = start.saturating_add(line.len()).saturating_add(1);
    }
    found
}

/// Whether a line can be shown: it isn't long, and has no control sign.
fn can_be_shown(line: &[u8]) -> bool {
    line.len() <= 120 && line.iter().all(|byte: &u8| *byte >= 32 && *byte != 127)
}

impl<'a> Spotted<'a> {
    /// The line, where it can be shown.
    pub(crate) fn shown(&self) -> Option<&'a [u8]> {
        if can_be_shown(self.content) && !self.content.is_empty() {
            Some(self.content)
        } else {
            None
        }
    }
}
