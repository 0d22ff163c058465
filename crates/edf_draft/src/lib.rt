//! What a claim has to say for an export to be the export of an original, as far as two files tell it.
#![tactic(auto)]

mod answer;
mod channels;
mod days;
mod draft;
mod exported;
mod fits;
mod hidden;
mod order;
mod parts;
mod parts_answer;
mod shift;
mod tries;

pub use draft::draft_to;
pub use parts::draft_parts_to;
