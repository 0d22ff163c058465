//! Texts that look alike and have other bytes.

use crate::shown::is_unseen;
use std::alloc::{AllocError, Global};
use unicode_normalization::to_nfc;

/// A text as it looks: each letter with its marks as one, without signs that aren't seen, and each kind of space as one.
fn look_of(alloc: Global, text: &str) -> Result<String, AllocError> {
    let composed = to_nfc(alloc, text)?;
    let mut look = String::new(alloc);
    for sign in composed.chars() {
        if sign.is_whitespace() {
            look.push(' ')?;
        } else if !is_unseen(sign) {
            look.push(sign)?;
        }
    }
    Ok(look)
}

/// Whether two texts look alike, and have other bytes.
pub fn look_alike(alloc: Global, one: &str, other: &str) -> Result<bool, AllocError> {
    if one.as_bytes() == other.as_bytes() {
        return Ok(false);
    }
    if one.is_ascii() && other.is_ascii() {
        return Ok(one.as_bytes().trim_ascii() == other.as_bytes().trim_ascii());
    }
    let first = look_of(alloc, one)?;
    let second = look_of(alloc, other)?;
    Ok(first.as_bytes().trim_ascii() == second.as_bytes().trim_ascii())
}

/// How many bytes two texts have in common at their fronts.
fn common_front(one: &[u8], other: &[u8]) -> usize {
    let mut count: usize = 0;
    for (first, second) in one.iter().zip(other) {
        if first != second {
            break;
        }
        count = count.saturating_add(1);
    }
    count
}

/// How many bytes two texts have in common at their ends.
fn common_end(one: &[u8], other: &[u8]) -> usize {
    let mut count: usize = 0;
    for (first, second) in one.iter().rev().zip(other.iter().rev()) {
        if first != second {
            break;
        }
        count = count.saturating_add(1);
    }
    count
}

/// A text without so many bytes at its front and at its end.
fn middle(text: &[u8], front: usize, end: usize) -> &[u8] {
    let to = text.len().saturating_sub(end);
    text.get(front..to).unwrap_or(&[])
}

/// The bytes in which two texts differ: what each has between the front and the end that are common.
pub fn other_bytes<'a>(one: &'a [u8], other: &'a [u8]) -> (&'a [u8], &'a [u8]) {
    let front = common_front(one, other);
    let behind = middle(one, front, 0);
    let behind_other = middle(other, front, 0);
    let end = common_end(behind, behind_other);
    (middle(behind, 0, end), middle(behind_other, 0, end))
}
