//! What an annotation of an export looks like that isn't kept.

use crate::words::annotations as words;
use edf_claim::{BLANK, Claim};
use edf_findings::is_at_end;
use edf_sentences::{Piece, Text, look_alike, other_bytes};
use edf_stream::Note;
use std::alloc::{AllocError, Global};

/// To how many bytes some writers cut texts, at the most and, where a sign of several bytes would be cut, at the least.
const MOST_CUT_BYTES: usize = 40;

const LEAST_CUT_BYTES: usize = 37;

/// To how many picoseconds some writers round times: 0.1 ms.
const ROUNDED_PS: u128 = 100_000_000;

/// Whether a text is the begin of a longer one, as long as some writers cut texts.
fn is_cut_text(short: &str, long: &str) -> bool {
    short.len() <= MOST_CUT_BYTES
        && short.len() >= LEAST_CUT_BYTES
        && short.len() < long.len()
        && long.as_bytes().starts_with(short.as_bytes())
}

/// Whether two annotations have one text, at times of which one may be the other one rounded.
fn is_rounded(note: &Note, other: &Note) -> bool {
    note.onset != other.onset
        && note.onset.saturating_sub(other.onset).unsigned_abs() <= ROUNDED_PS
        && note.text == other.text
}

/// What an annotation that the export has looks like beside one that it lacks.
fn likeness_of(extra: &Note, missing: &Note) -> Option<&'static str> {
    if is_rounded(extra, missing) {
        return Some(words::LIKE_ROUNDED);
    }
    if extra.onset != missing.onset {
        return None;
    }
    if is_cut_text(extra.text.as_str(), missing.text.as_str()) {
        return Some(words::LIKE_CUT);
    }
    if extra.text == missing.text {
        return Some(words::LIKE_OTHER_DURATION);
    }
    if extra.text.as_str() == BLANK {
        return Some(words::LIKE_BLANKED);
    }
    Some(words::LIKE_OTHER_TEXT)
}

/// What an annotation that the export has looks like beside those that it lacks.
fn likeness_among(extra: &Note, kept: &[Note], missing: &[usize]) -> Option<&'static str> {
    for place in missing {
        if let Some(other) = kept.get(*place)
            && let Some(words) = likeness_of(extra, other)
        {
            return Some(words);
        }
    }
    None
}

/// The one of those that the export lacks that has the time and the duration of an annotation, and a text that looks like
/// its own.
fn alike_among<'a>(
    alloc: Global,
    extra: &Note,
    kept: &'a [Note],
    missing: &[usize],
) -> Result<Option<&'a Note>, AllocError> {
    for place in missing {
        if let Some(other) = kept.get(*place)
            && other.onset == extra.onset
            && other.duration == extra.duration
            && look_alike(alloc, other.text.as_str(), extra.text.as_str())?
        {
            return Ok(Some(other));
        }
    }
    Ok(None)
}

/// Says which bytes of an annotation's text are others than those of one that looks alike, if there is one; answers
/// whether there is one.
fn say_alike(
    text: &mut Text,
    extra: &Note,
    kept: &[Note],
    missing: &[usize],
) -> Result<bool, AllocError> {
    let Some(other) = alike_among(text.alloc(), extra, kept, missing)? else {
        return Ok(false);
    };
    let (old, new) = other_bytes(
        other.text.as_str().as_bytes(),
        extra.text.as_str().as_bytes(),
    );
    text.say(words::LIKE_ALIKE, &[Piece::Hex(old), Piece::Hex(new)])?;
    Ok(true)
}

/// Whether this annotation is one of those that are kept.
fn has_note(kept: &[Note], extra: &Note) -> bool {
    for note in kept {
        if note == extra {
            return true;
        }
    }
    false
}

/// Whether one of those that the export lacks has the text of an annotation.
fn has_text_among(extra: &Note, kept: &[Note], missing: &[usize]) -> bool {
    for place in missing {
        if let Some(other) = kept.get(*place)
            && other.text == extra.text
        {
            return true;
        }
    }
    false
}

/// A time that a claim keeps: the one at which its first interval begins.
fn kept_time(claim: &Claim) -> i128 {
    claim.border_behind(-1, i128::MAX)
}

/// Whether a claim removes the text of an annotation, wherever that begins.
fn removes(claim: &Claim, text: &str) -> bool {
    let at_ps = kept_time(claim);
    claim.keeps_instant(at_ps, 1) && !claim.keeps_annotation(at_ps, text)
}

/// Says what an annotation that isn't kept looks like.
pub(crate) fn say_likeness(
    text: &mut Text,
    claim: &Claim,
    extra: &Note,
    kept: &[Note],
    missing: &[usize],
) -> Result<(), AllocError> {
    if removes(claim, extra.text.as_str()) {
        return text.say(words::REMOVED_BUT_THERE, &[]);
    }
    if claim.blanks(extra.text.as_str()) && extra.text.as_str() != BLANK {
        return text.say(words::NOT_BLANKED, &[]);
    }
    if say_alike(text, extra, kept, missing)? {
        return Ok(());
    }
    if let Some(words) = likeness_among(extra, kept, missing) {
        return text.say(words, &[]);
    }
    let sentence = if has_text_among(extra, kept, missing) {
        words::LIKE_MOVED
    } else if is_at_end(claim, extra.onset) {
        words::AT_END
    } else if !claim.keeps_instant(extra.onset, 1) {
        words::OUTSIDE
    } else if has_note(kept, extra) {
        words::LESS_OFTEN
    } else {
        words::NOT_IN_ORIGINAL
    };
    text.say(sentence, &[])
}
