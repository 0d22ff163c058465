//! What can be wrong with a file, and its words.

pub mod cause;
pub mod fault;
pub mod fault_text;
