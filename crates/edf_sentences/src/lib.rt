//! Sentences that are put together for whoever has to act on an answer: what stands in their open places, and what texts of
//! files and claims look like.
#![tactic(auto)]

mod alike;
mod looks;
mod nearness;
mod shown;
mod texts;
mod words;

pub use alike::{look_alike, other_bytes};
pub use looks::{FRONT, begins_as_bdf, begins_as_edf, looks_like_a_claim, looks_like_a_recording};
pub use nearness::nearest;
pub use shown::is_unseen;
pub use texts::{Piece, Text};
pub use words::{FULL_STOP, NEXT, NOT_LISTED};
