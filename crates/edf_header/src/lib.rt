//! The header of an EDF+ file (sleep and other recordings): what its bytes say, or why they say
//! nothing, and the line from digital to physical values.
#![tactic(auto)]

mod field;
mod fixed_part;
mod header;
mod in_columns;
mod kind;
pub mod laws;
mod read;
mod signals;
mod stop;

pub use edf_fields::{Cause, Fault, Place};
pub use header::Header;
pub use kind::Kind;
pub use read::next_bytes;
pub use signals::calibration::Calibration;
pub use signals::lane_place::LanePlace;
pub use signals::signal::Signal;
pub use signals::together::MOST_RECORD_SAMPLES;
pub use stop::Stop;
