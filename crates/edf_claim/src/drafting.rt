//! The draft of a claim, and its text.

pub mod draft;
pub mod draft_text;
pub mod draft_times;
pub mod spelling;
