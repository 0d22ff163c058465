//! Texts without regard to case and to marks on letters, to be compared by how they are spelled.

use caseless::default_case_fold_str;
use edf_sentences::is_unseen;
use std::alloc::{AllocError, Global};
use unicode_normalization::Form;
use unicode_normalization::char::{decomposition, is_combining_mark};

/// What stands for each letter that has no spelling in plain letters.
const OTHER_LETTER: u8 = 0x80;

/// The two dots of an umlaut, and the ring above an a.
const DOTS: char = '\u{308}';

const RING: char = '\u{30a}';

/// How a letter with a mark is spelled in plain letters.
#[derive(Clone, Copy, PartialEq, Eq)]
pub(crate) enum Marks {
    /// By two letters where that is usual: ue for an umlaut of u.
    AsLetters,
    /// By the letter without its mark.
    Dropped,
}

/// The plain letters of a small letter that can't be taken apart into a letter and its mark.
fn plain_letters(letter: char, marks: Marks) -> &'static str {
    match letter {
        '\u{e6}' => "ae",
        '\u{153}' => "oe",
        '\u{f8}' if marks == Marks::AsLetters => "oe",
        '\u{f8}' => "o",
        '\u{142}' => "l",
        '\u{f0}' | '\u{111}' => "d",
        '\u{fe}' => "th",
        '\u{131}' => "i",
        _ => "",
    }
}

/// Puts a mark behind a letter that stands at the end.
fn push_mark(folded: &mut Vec<u8>, mark: char) -> Result<(), AllocError> {
    match (folded.last(), mark) {
        (Some(b'a' | b'o' | b'u'), DOTS) => folded.push(b'e')?,
        (Some(b'a'), RING) => folded.push(b'a')?,
        _ => {}
    }
    Ok(())
}

/// Puts a sign behind what was folded so far; it is none that can be taken apart. One that isn't seen is left out.
fn push_sign(folded: &mut Vec<u8>, sign: char, marks: Marks) -> Result<(), AllocError> {
    if is_combining_mark(sign) {
        if marks == Marks::AsLetters {
            push_mark(folded, sign)?;
        }
        return Ok(());
    }
    match u8::try_from(sign) {
        Ok(byte) if byte.is_ascii() => folded.push(byte)?,
        _ if is_unseen(sign) => {}
        _ => push_other(folded, sign, marks)?,
    }
    Ok(())
}

/// Puts a sign behind what was folded so far; it is no sign of English, and no mark.
fn push_other(folded: &mut Vec<u8>, sign: char, marks: Marks) -> Result<(), AllocError> {
    let plain = plain_letters(sign, marks);
    if !plain.is_empty() {
        return folded.extend_from_slice(plain.as_bytes());
    }
    let byte = if sign.is_alphanumeric() {
        OTHER_LETTER
    } else {
        b' '
    };
    folded.push(byte)?;
    Ok(())
}

/// Puts a sign behind what was folded so far, by its parts.
fn push_parts(folded: &mut Vec<u8>, sign: char, marks: Marks) -> Result<(), AllocError> {
    let mut room = [sign; 3];
    for part in decomposition(sign, Form::Nfd, &mut room) {
        push_sign(folded, *part, marks)?;
    }
    Ok(())
}

/// Puts a text in the place of what was folded before: in small letters, and letters with marks spelled in plain ones.
pub(crate) fn fold(
    alloc: Global,
    folded: &mut Vec<u8>,
    text: &str,
    marks: Marks,
) -> Result<(), AllocError> {
    folded.clear();
    if text.is_ascii() {
        folded.extend_from_slice(text.as_bytes())?;
        folded.make_ascii_lowercase();
        return Ok(());
    }
    let small = default_case_fold_str(alloc, text)?;
    for sign in small.chars() {
        push_parts(folded, sign, marks)?;
    }
    Ok(())
}
