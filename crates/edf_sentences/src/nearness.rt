//! Words that are spelled nearly alike.

use std::alloc::{AllocError, Global};
use strsim::osa_distance;

/// How many letters of a word may be wrong, and it still is taken for a misspelt one.
const MOST_WRONG: usize = 2;

/// The one of some words that is nearest to another, where it is near enough to be meant.
pub fn nearest<'a>(
    alloc: Global,
    word: &str,
    known: &[&'a str],
) -> Result<Option<&'a str>, AllocError> {
    let mut best = None;
    let mut least = MOST_WRONG;
    for other in known {
        if word.len() <= 40 {
            let wrong = osa_distance(alloc, word, other)?;
            if wrong <= least && (best.is_none() || wrong < least) {
                least = wrong;
                best = Some(*other);
            }
        }
    }
    Ok(best)
}
