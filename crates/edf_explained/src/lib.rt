//! A check with its line, and sentences behind it.
#![tactic(auto)]

mod lent;
mod of_one;
mod of_parts;
mod question;
mod sentences;

pub use of_one::run_explained;
pub use of_parts::run_explained_parts;
pub use question::Question;
