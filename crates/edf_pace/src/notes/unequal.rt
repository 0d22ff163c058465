//! An annotation that two lists don't have equally often.

use edf_stream::Note;
use edf_verdict::AnnotationMismatch;

/// An annotation that two lists don't have equally often, borrowed from one of them.
#[derive(Clone, Copy)]
pub struct Unequal<'a> {
    pub mismatch: AnnotationMismatch,
    pub note: &'a Note,
}
