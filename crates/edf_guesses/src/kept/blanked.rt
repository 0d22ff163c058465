//! Which of the texts that an export lacks were blanked: told by when their annotations begin, how long they are, and how
//! many they are.

use std::alloc::{AllocError, Global};
use std::mem;

/// When an annotation begins, and its duration.
pub(crate) type Span = (i128, Option<i128>);

/// An annotation that an export lacks: its span, and its text.
pub(crate) type Lacked<'a> = (Span, &'a [u8]);

/// How often it is looked at most which texts are told by those that were told before.
const MOST_ROUNDS: u32 = 64;

/// Whether a text is one of these, which stand in the order of their bytes.
pub(crate) fn is_found(sorted: &[&[u8]], text: &[u8]) -> bool {
    sorted.binary_search(&text).is_ok()
}

/// Passes over the spans in front that are before another one; answers whether that one comes next, and passes over it, too.
fn takes(spans: &mut &[Span], span: Span) -> bool {
    let before = spans.partition_point(|other| *other < span);
    let rest = spans.get(before..).unwrap_or(&[]);
    match rest {
        [first, behind @ ..] if *first == span => {
            *spans = behind;
            true
        }
        _ => {
            *spans = rest;
            false
        }
    }
}

/// The spans that are left where each of others takes one away that is the same; all in order.
pub(crate) fn spans_left(
    alloc: Global,
    spans: &[Span],
    others: &[Span],
) -> Result<Vec<Span>, AllocError> {
    let mut rest = others;
    let mut left = Vec::new(alloc);
    for span in spans {
        if !takes(&mut rest, *span) {
            left.push(*span)?;
        }
    }
    Ok(left)
}

/// The same annotations by their texts, and then their spans.
fn by_text<'a>(alloc: Global, notes: &[Lacked<'a>]) -> Result<Vec<(&'a [u8], Span)>, AllocError> {
    let mut sorted: Vec<(&'a [u8], Span)> = Vec::new(alloc);
    for (span, text) in notes {
        sorted.push((*text, *span))?;
    }
    sorted.sort_unstable();
    Ok(sorted)
}

/// The texts that can't have been blanked, since there isn't a blank for each of their annotations; in the order of their bytes.
fn unblanked_texts<'a>(
    alloc: Global,
    notes: &[Lacked<'a>],
    blanks: &[Span],
) -> Result<Vec<&'a [u8]>, AllocError> {
    let mut left = blanks;
    let mut last: Option<&'a [u8]> = None;
    let mut texts: Vec<&'a [u8]> = Vec::new(alloc);
    for (text, span) in &by_text(alloc, notes)? {
        if last != Some(*text) {
            left = blanks;
            last = Some(*text);
        }
        if !takes(&mut left, *span) {
            texts.push(*text)?;
        }
    }
    Ok(texts)
}

/// How many annotations of other texts have the span of one, among these in order.
fn other_count(notes: &[Lacked<'_>], note: Lacked<'_>) -> usize {
    let (span, _) = note;
    let first = notes.partition_point(|(other, _)| *other < span);
    let behind = notes.partition_point(|(other, _)| *other <= span);
    let own = notes.partition_point(|other| *other < note);
    let behind_own = notes.partition_point(|other| *other <= note);
    let before = own.checked_sub(first).unwrap_or(0);
    let after = behind.checked_sub(behind_own).unwrap_or(0);
    before.checked_add(after).unwrap_or(before)
}

/// How many blanks have a span, among these in order.
fn blank_count(blanks: &[Span], span: Span) -> usize {
    let first = blanks.partition_point(|other| *other < span);
    let behind = blanks.partition_point(|other| *other <= span);
    behind.checked_sub(first).unwrap_or(0)
}

/// The texts that were blanked, since at the span of one of their annotations there are more blanks than annotations of other
/// texts; in the order of their bytes.
fn needed_texts<'a>(
    alloc: Global,
    notes: &[Lacked<'a>],
    blanks: &[Span],
) -> Result<Vec<&'a [u8]>, AllocError> {
    let mut texts: Vec<&'a [u8]> = Vec::new(alloc);
    for note in notes {
        let (span, text) = *note;
        if other_count(notes, *note) < blank_count(blanks, span) {
            texts.push(text)?;
        }
    }
    texts.sort_unstable();
    Ok(texts)
}

/// The spans of the annotations with one of these texts, in the order of the annotations.
fn spans_of(alloc: Global, notes: &[Lacked<'_>], texts: &[&[u8]]) -> Result<Vec<Span>, AllocError> {
    let mut spans = Vec::new(alloc);
    for (span, text) in notes {
        if is_found(texts, text) {
            spans.push(*span)?;
        }
    }
    Ok(spans)
}

/// The annotations with none of these texts, in their order.
fn notes_without<'a>(
    alloc: Global,
    notes: &[Lacked<'a>],
    texts: &[&[u8]],
) -> Result<Vec<Lacked<'a>>, AllocError> {
    let mut left: Vec<Lacked<'a>> = Vec::new(alloc);
    for note in notes {
        let (_, text) = *note;
        if !is_found(texts, text) {
            left.push(*note)?;
        }
    }
    Ok(left)
}

/// What is told so far.
#[derive(Drop)]
struct Told<'a> {
    /// The annotations of texts of which it isn't told yet, by their spans and then their texts.
    open: Vec<Lacked<'a>>,
    /// The blanks that stand for none yet, in order.
    blanks: Vec<Span>,
    /// The texts that were blanked.
    blanked: Vec<&'a [u8]>,
}

impl<'a> Told<'a> {
    /// Takes these texts, which stand in order, for blanked.
    fn blank(&mut self, alloc: Global, texts: &[&'a [u8]]) -> Result<(), AllocError> {
        let spans = spans_of(alloc, &self.open, texts)?;
        self.blanks = spans_left(alloc, &self.blanks, &spans)?;
        self.open = notes_without(alloc, &self.open, texts)?;
        self.blanked.extend_from_slice(texts)
    }

    /// Leaves aside the texts that can't have been blanked, and takes those for blanked that have to be, or else the first one;
    /// answers whether there was one.
    fn go_on(&mut self, alloc: Global) -> Result<bool, AllocError> {
        let others = unblanked_texts(alloc, &self.open, &self.blanks)?;
        self.open = notes_without(alloc, &self.open, &others)?;
        let needed = needed_texts(alloc, &self.open, &self.blanks)?;
        let first = match self.open.first() {
            Some((_, text)) => *text,
            None => return Ok(false),
        };
        if needed.is_empty() {
            self.blank(alloc, &[first])?;
        } else {
            self.blank(alloc, &needed)?;
        }
        Ok(true)
    }
}

/// The texts of some annotations that an export has blanked, in the order of their bytes; these stand by their spans and then
/// their texts, and there are these blanks, in order, each for one of them.
pub(crate) fn blanked_texts<'a>(
    alloc: Global,
    lacked: &[Lacked<'a>],
    blanks: &[Span],
) -> Result<Vec<&'a [u8]>, AllocError> {
    let mut told = Told {
        open: Vec::from_slice(alloc, lacked)?,
        blanks: Vec::from_slice(alloc, blanks)?,
        blanked: Vec::new(alloc),
    };
    for _ in 0..MOST_ROUNDS {
        if !told.go_on(alloc)? {
            break;
        }
    }
    let mut texts = mem::replace(&mut told.blanked, Vec::new(alloc));
    texts.sort_unstable();
    Ok(texts)
}
