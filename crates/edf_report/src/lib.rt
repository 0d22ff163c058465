//! The reports on one EDF+ file: whether it conforms, what its header says, and its annotations.
#![tactic(auto)]

mod conform;
mod notes;
mod report;
mod show;

pub use conform::conform_to;
pub use notes::notes_to;
pub use report::Report;
pub use show::show_to;
