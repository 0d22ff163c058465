//! How many samples of a channel differ, by kind, with the first and the last.

pub mod alone;
pub mod blocks;
pub mod count;
pub mod counted;
pub mod front;
pub mod head;
pub mod meeting;
pub mod numbers;
pub mod places;
pub mod strides;
pub mod tally;
