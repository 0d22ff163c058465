//! Texts of a claim that no annotation has.

ghost use Rattle.std.specs.Prelude.{◌≡◌, ◌||◌, length, nat_lt};

use crate::read_texts::ReadTexts;
use crate::words;
use edf_claim::{Claim, claim_key};
use edf_findings::Notes;
use edf_sentences::{Piece, Text, look_alike, other_bytes};
use std::alloc::{AllocError, Global};

/// Of how many texts that no annotation has it is asked which annotation has one that looks alike.
const MOST_ALIKE: usize = 20;

/// The texts of the annotations that are kept.
fn kept_texts(alloc: Global, notes: &Notes) -> Result<Vec<&str>, AllocError> {
    let mut kept = Vec::new(alloc);
    for note in &notes.kept {
        kept.push(note.text.as_str())?;
    }
    Ok(kept)
}

/// The texts that the annotations in the kept intervals of the original have, each once, in the order of their bytes.
fn texts_seen(alloc: Global, notes: &Notes) -> Result<Vec<&str>, AllocError> {
    let mut seen = kept_texts(alloc, notes)?;
    for text in &notes.hidden {
        seen.push(text.as_str())?;
    }
    seen.sort_unstable();
    seen.dedup();
    Ok(seen)
}

/// Whether a claim removes or blanks texts, so that it is asked whether annotations have them.
pub fn asks_for_texts(claim: &Claim) -> bool
    ensures { result ≡ (nat_lt 0 (length claim.now.remove) || nat_lt 0 (length claim.now.remove_prefix)
        || nat_lt 0 (length claim.now.blank)) }
{
    !claim.removed().is_empty()
        || !claim.removed_by_begin().is_empty()
        || !claim.blanked().is_empty()
}

/// Says which text that was seen looks like one of a claim, and which bytes are others.
fn say_alike(text: &mut Text, seen: &[&str], said: &str) -> Result<(), AllocError> {
    for other in seen {
        if look_alike(text.alloc(), said, other)? {
            let (claimed, found) = other_bytes(said.as_bytes(), other.as_bytes());
            let pieces = [Piece::Hex(claimed), Piece::Hex(found)];
            return text.say(words::SEEN_ALIKE, &pieces);
        }
    }
    Ok(())
}

/// Whether one of the sorted texts is this one.
fn is_seen(seen: &[&str], text: &str) -> bool {
    seen.binary_search(&text).is_ok()
}

/// Whether one of the sorted texts begins with this one.
fn is_begin_seen(seen: &[&str], begin: &str) -> bool {
    match seen.binary_search(&begin) {
        Ok(_) => true,
        Err(place) => match seen.get(place) {
            Some(text) => text.starts_with(begin),
            None => false,
        },
    }
}

/// Says which of these texts of a claim, which stand there at this key, no annotation has in the kept intervals.
fn say_unseen(
    text: &mut Text,
    texts: &[Vec<u8>],
    key: &str,
    seen: &[&str],
) -> Result<(), AllocError> {
    let mut count: usize = 0;
    for bytes in texts {
        if let Ok(said) = std::str::from_utf8(bytes)
            && !is_seen(seen, said)
        {
            let pieces = [Piece::Quoted(bytes), Piece::Word(key)];
            text.say(words::TEXT_UNSEEN, &pieces)?;
            if count < MOST_ALIKE {
                say_alike(text, seen, said)?;
            }
            count = count.saturating_add(1);
        }
    }
    Ok(())
}

/// Says with which of these texts no annotation begins there.
fn say_begins_unseen(
    text: &mut Text,
    texts: &[Vec<u8>],
    key: &str,
    seen: &[&str],
) -> Result<(), AllocError> {
    for bytes in texts {
        if let Ok(said) = std::str::from_utf8(bytes)
            && !is_begin_seen(seen, said)
        {
            let pieces = [Piece::Quoted(bytes), Piece::Word(key)];
            text.say(words::BEGIN_UNSEEN, &pieces)?;
        }
    }
    Ok(())
}

/// Says which texts of a claim may be misspelt.
pub(crate) fn say_misspelt(text: &mut Text, read: ReadTexts<'_>) -> Result<(), AllocError> {
    let claim = read.claim;
    if !asks_for_texts(claim) {
        return Ok(());
    }
    let seen = texts_seen(text.alloc(), read.notes)?;
    say_unseen(text, claim.removed(), claim_key::REMOVE, &seen)?;
    say_begins_unseen(
        text,
        claim.removed_by_begin(),
        claim_key::REMOVE_PREFIX,
        &seen,
    )?;
    say_unseen(text, claim.blanked(), claim_key::BLANK, &seen)
}
