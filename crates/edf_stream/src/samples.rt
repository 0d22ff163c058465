//! The samples of channels.

pub mod sample;
pub mod value;
