//! Why a file can't be opened, or can't be read.

use crate::words::files as words;
use edf_sentences::{Piece, Text};
use std::alloc::{AllocError, Global};
use std::io;

/// A sentence on a path that can't be opened, with the reason that the system gives.
///
/// The error is want of memory.
pub fn explain_opening(
    alloc: Global,
    path: &str,
    fault: &io::Error,
) -> Result<Vec<u8>, AllocError> {
    let reason = format!(in alloc; "{fault}")?;
    let mut text = Text::new(alloc);
    text.say(
        words::CANNOT_OPEN,
        &[Piece::Word(path), Piece::Word(&reason)],
    )?;
    Ok(text.into_bytes())
}

/// A sentence on a path that is one of a folder, where a file of several can't be read.
///
/// The error is want of memory.
pub fn explain_folder(alloc: Global, path: &str) -> Result<Vec<u8>, AllocError> {
    let mut text = Text::new(alloc);
    text.say(words::IS_FOLDER, &[Piece::Word(path)])?;
    Ok(text.into_bytes())
}

/// A sentence on a file of which a read failed.
///
/// The error is want of memory.
pub fn explain_reading(alloc: Global, path: &str) -> Result<Vec<u8>, AllocError> {
    let mut text = Text::new(alloc);
    text.say(words::CANNOT_READ, &[Piece::Word(path)])?;
    Ok(text.into_bytes())
}
