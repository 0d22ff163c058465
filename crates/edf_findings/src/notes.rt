//! The annotations of both files.

pub mod both;
pub mod ends;
pub mod one_way;
