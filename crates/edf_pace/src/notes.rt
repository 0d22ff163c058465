//! The annotations of two files, compared by how often each stands.

pub mod note_difference;
pub mod only_in_one;
pub mod unequal;
