//! The fixed part of a header.

pub mod fixed;
pub mod startdate;
