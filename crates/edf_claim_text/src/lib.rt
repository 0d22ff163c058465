//! A claim as it was understood, printed in its plainest form.
#![tactic(auto)]

mod lines;
mod print;
mod printed;
mod same;

pub use print::claim_to;
pub use same::{are_same_intervals, are_same_labels, are_same_subfields, are_same_texts};
