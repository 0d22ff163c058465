//! Why a check, a run of it or a report on an EDF+ recording stops before its end, and which file is to blame.
#![tactic(auto)]

mod parts_stops;
mod sides;
mod stops;

pub use parts_stops::{PartSide, PartsRunStop, PartsStop};
pub use sides::Side;
pub use stops::{CheckStop, ReportStop, RunStop};
