//! Where data records and samples stand in time.

pub mod instant;
pub mod lane_times;
pub mod start;
