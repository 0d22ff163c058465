//! Plain sentences for whoever has to act on the answer of a check.
#![tactic(auto)]

mod differences;
mod explain;
mod faults;
mod heads;
mod limits;
mod opening;
mod parts;
mod tried;
mod words;

pub use explain::{Fronts, explain_one};
pub use opening::{explain_folder, explain_opening, explain_reading};
pub use parts::{PartsAsked, explain_parts, fault_in};
