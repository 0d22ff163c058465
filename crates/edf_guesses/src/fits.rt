//! The shifts by which an export's first samples are samples of its original.

pub mod front;
pub mod places;
pub mod shifts;
