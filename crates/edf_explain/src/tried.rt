//! Changes of a claim, each tried by a check.

pub mod other_channels;
pub mod other_end;
pub mod shifts;
