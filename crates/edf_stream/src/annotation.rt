//! The annotations of a data record, and those that are kept.

pub mod annotations;
pub mod note;
pub mod note_keeper;
pub mod notes;
pub mod own_text;
