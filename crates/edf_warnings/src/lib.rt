//! What to read before an export goes out: names that are spelled in it, texts of its claim that may be misspelt, and what its
//! header shows.
#![tactic(auto)]

mod folded;
mod hidden;
mod misspelt;
mod names;
mod needle;
mod read_texts;
mod warnings;
mod words;

pub use misspelt::asks_for_texts;
pub use read_texts::ReadTexts;
pub use warnings::{say_behind_no, say_warnings};
