//! The layout of an EDF+ file (sleep and other recordings): all that its bytes hold besides what it means.
#![tactic(auto)]

mod head_file;
mod head_layout;
mod head_lines;
mod laid_tal;
mod lane_layout;
pub mod laws;
mod note_places;
mod odd_places;
mod plain_lanes;
mod plain_number;
mod plain_tal;
mod signal_fields;
mod spaces;
mod whole;

pub use head_layout::head_layout_to;
pub use whole::layout::layout_to;
