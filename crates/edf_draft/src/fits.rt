//! The shifts by which an export's first samples are samples of its original.

use crate::tries::trial::Trial;
use edf_guesses::{front_of, places_of, shifts_at};
use edf_recording::Recorded;
use std::alloc::{AllocError, Global};

/// The whole seconds of shift by which the first samples of an export, of all its channels, are samples of its original, three
/// at the most; none where a file can't be read once more.
pub(crate) fn fitting_shifts<T: Trial>(
    alloc: Global,
    original: &Recorded,
    export: &Recorded,
    trial: &T,
) -> Result<Vec<i64>, AllocError> {
    let front = match trial.open_first(alloc)? {
        Some(mut source) => front_of(alloc, &mut source, original.reader.header())?,
        None => None,
    };
    let Some(front) = front else {
        return Ok(Vec::new(alloc));
    };
    let places = match trial.open_original()? {
        Some(mut source) => places_of(alloc, &mut source, &front)?,
        None => Vec::new(alloc),
    };
    shifts_at(alloc, original, export, &front, &places)
}
