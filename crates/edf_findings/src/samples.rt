//! The samples of a channel that both files have, and what was counted of them.

pub mod claimed;
pub mod compared;
pub mod kinds;
