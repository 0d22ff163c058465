//! What is said of a whole file.

pub mod conform;
pub mod meaning;
