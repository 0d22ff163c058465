//! What the header of a recording says and its annotations, for a person to read.
#![tactic(auto)]

mod head;
mod notes;
mod read;
mod words;

pub use read::read_to;
