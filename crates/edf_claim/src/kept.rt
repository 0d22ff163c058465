//! What a claim says, and what it keeps.

pub mod borders;
pub mod claim;
pub mod interval;
pub mod note_texts;
pub mod parts;
pub mod prefixes;
