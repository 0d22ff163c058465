//! How an export isn't as claimed.

pub mod annotations;
pub mod clocks;
pub mod compared;
pub mod headers;
pub mod likeness;
pub mod parts_then;
pub mod samples;
pub mod starts;
