//! Who looks at two files while they are read in step.

pub mod at_hand;
pub mod common;
pub mod counts;
pub mod first_found;
pub mod found_in;
pub mod onlooker;
pub mod watcher;
