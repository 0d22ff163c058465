//! The worked rows run: the files of each row built in memory and checked under its claim, and the line of the run
//! compared with the one that is stored for it.
#![tactic(auto)]

mod line_sink;
mod row_line;
mod vectors;

pub use line_sink::Line;
pub use vectors::vectors_to;
