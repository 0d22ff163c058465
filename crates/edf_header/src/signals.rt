//! The signals of a header, each by itself and all together.

pub mod calibration;
pub mod details;
pub mod judge_signal;
pub mod lane_place;
pub mod packed_texts;
pub mod signal;
pub mod together;
