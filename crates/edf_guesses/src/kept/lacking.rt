//! The texts of annotations that an original has, and its export hasn't.

use crate::kept::back::Back;
use crate::kept::blanked::{Lacked, Span, blanked_texts, is_found, spans_left};
use crate::kept::intervals::is_kept;
use edf_claim::{BLANK, Interval};
use edf_recording::RecordedNote;
use std::alloc::{AllocError, Global};

/// CountedTexts, and how often each of them stands in the original.
#[derive(Drop)]
pub struct CountedTexts {
    pub texts: Vec<Vec<u8>>,
    pub counts: Vec<u64>,
}

/// The texts of the annotations that begin in the intervals, in the order of their bytes.
fn sorted_texts<'a>(
    alloc: Global,
    notes: &'a [RecordedNote],
    keep: &[Interval],
    back: Back,
) -> Result<Vec<&'a [u8]>, AllocError> {
    let mut texts: Vec<&'a [u8]> = Vec::new(alloc);
    for note in notes {
        if is_kept(keep, back.of(note.onset)) {
            texts.push(note.bytes())?;
        }
    }
    texts.sort_unstable();
    Ok(texts)
}

impl CountedTexts {
    /// No texts.
    fn none(alloc: Global) -> CountedTexts {
        CountedTexts {
            texts: Vec::new(alloc),
            counts: Vec::new(alloc),
        }
    }

    /// Takes in a text once more; those that are the same come one behind the other.
    fn take_in(&mut self, alloc: Global, text: &[u8]) -> Result<(), AllocError> {
        match (self.texts.last(), self.counts.last_mut()) {
            (Some(last), Some(count)) if last.as_slice() == text => {
                *count = count.checked_add(1).unwrap_or(*count);
            }
            _ => {
                self.texts.push(Vec::from_slice(alloc, text)?)?;
                self.counts.push(1)?;
            }
        }
        Ok(())
    }
}

/// The texts of annotations that an export lacks, in the order of their bytes.
#[derive(Drop)]
pub struct Lacking {
    /// Those that it has nothing for.
    pub removed: CountedTexts,
    /// Those for each of which it has the text `X`, at its time and with its duration.
    pub blanked: CountedTexts,
}

/// The spans of the annotations that begin in the intervals and say `X`, in order.
fn blanks_of(
    alloc: Global,
    notes: &[RecordedNote],
    keep: &[Interval],
    back: Back,
) -> Result<Vec<Span>, AllocError> {
    let mut blanks = Vec::new(alloc);
    for note in notes {
        let at_ps = back.of(note.onset);
        if note.bytes() == BLANK.as_bytes() && is_kept(keep, at_ps) {
            blanks.push((at_ps, note.duration))?;
        }
    }
    blanks.sort_unstable();
    Ok(blanks)
}

/// The blanks of an export, in order, that aren't those of annotations of the original that say `X` themselves. None where one
/// of these isn't there: then `X` was removed, and all of them were made.
fn made_blanks(
    alloc: Global,
    own: &[Span],
    blanks: &[Span],
) -> Result<Option<Vec<Span>>, AllocError> {
    let missing = spans_left(alloc, own, blanks)?;
    if missing.is_empty() {
        Ok(Some(spans_left(alloc, blanks, own)?))
    } else {
        Ok(None)
    }
}

/// The annotations that begin in the intervals and have none of these texts, by their spans and then their texts.
fn lacking_notes<'a>(
    alloc: Global,
    notes: &'a [RecordedNote],
    keep: &[Interval],
    exported: &[&[u8]],
) -> Result<Vec<Lacked<'a>>, AllocError> {
    let mut lacking: Vec<Lacked<'a>> = Vec::new(alloc);
    for note in notes {
        let text = note.bytes();
        if is_kept(keep, note.onset) && !is_found(exported, text) {
            lacking.push(((note.onset, note.duration), text))?;
        }
    }
    lacking.sort_unstable();
    Ok(lacking)
}

/// The texts of annotations, in the order of their bytes.
fn texts_of<'a>(alloc: Global, lacking: &[Lacked<'a>]) -> Result<Vec<&'a [u8]>, AllocError> {
    let mut texts: Vec<&'a [u8]> = Vec::new(alloc);
    for (_, text) in lacking {
        texts.push(*text)?;
    }
    texts.sort_unstable();
    Ok(texts)
}

/// The texts of annotations, but for `X`.
fn without_x<'a>(alloc: Global, texts: &[&'a [u8]]) -> Result<Vec<&'a [u8]>, AllocError> {
    let mut others: Vec<&'a [u8]> = Vec::new(alloc);
    for text in texts {
        if *text != BLANK.as_bytes() {
            others.push(*text)?;
        }
    }
    Ok(others)
}

/// The texts of some annotations, those that were blanked apart from the others, which were removed.
fn lacking_of(
    alloc: Global,
    lacked: &[Lacked<'_>],
    blanks: &[Span],
) -> Result<Lacking, AllocError> {
    let blanked = blanked_texts(alloc, lacked, blanks)?;
    let mut lacking = Lacking {
        removed: CountedTexts::none(alloc),
        blanked: CountedTexts::none(alloc),
    };
    for text in &texts_of(alloc, lacked)? {
        let texts = if is_found(&blanked, text) {
            &mut lacking.blanked
        } else {
            &mut lacking.removed
        };
        texts.take_in(alloc, text)?;
    }
    Ok(lacking)
}

/// The texts of annotations in the intervals that the original has, and the export hasn't.
pub fn lacking_texts(
    alloc: Global,
    original: &[RecordedNote],
    export: &[RecordedNote],
    keep: &[Interval],
    back: Back,
) -> Result<Lacking, AllocError> {
    let exported = sorted_texts(alloc, export, keep, back)?;
    let own = blanks_of(alloc, original, keep, Back::none())?;
    let blanks = blanks_of(alloc, export, keep, back)?;
    match made_blanks(alloc, &own, &blanks)? {
        Some(made) => {
            let lacked = lacking_notes(alloc, original, keep, &exported)?;
            lacking_of(alloc, &lacked, &made)
        }
        None => {
            let others = without_x(alloc, &exported)?;
            let lacked = lacking_notes(alloc, original, keep, &others)?;
            lacking_of(alloc, &lacked, &blanks)
        }
    }
}

/// The times and texts of annotations, in order.
fn times_and_texts<'a>(
    alloc: Global,
    notes: &'a [RecordedNote],
    back: Back,
) -> Result<Vec<(i128, &'a [u8])>, AllocError> {
    let mut found: Vec<(i128, &'a [u8])> = Vec::new(alloc);
    for note in notes {
        found.push((back.of(note.onset), note.bytes()))?;
    }
    found.sort_unstable();
    Ok(found)
}

/// All texts of annotations, in the order of their bytes.
fn all_texts<'a>(alloc: Global, notes: &'a [RecordedNote]) -> Result<Vec<&'a [u8]>, AllocError> {
    let mut texts: Vec<&'a [u8]> = Vec::new(alloc);
    for note in notes {
        texts.push(note.bytes())?;
    }
    texts.sort_unstable();
    Ok(texts)
}

/// The times of annotations of the original that the export lacks, though it has their texts elsewhere; in order.
pub(crate) fn lacking_times(
    alloc: Global,
    original: &[RecordedNote],
    export: &[RecordedNote],
    back: Back,
) -> Result<Vec<i128>, AllocError> {
    let exported = times_and_texts(alloc, export, back)?;
    let texts = all_texts(alloc, export)?;
    let mut times = Vec::new(alloc);
    for note in original {
        let text = note.bytes();
        if is_found(&texts, text) && exported.binary_search(&(note.onset, text)).is_err() {
            times.push(note.onset)?;
        }
    }
    times.sort_unstable();
    Ok(times)
}
