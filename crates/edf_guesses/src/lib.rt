//! What is guessed of two files for a draft: what of the original the export has, and by how much it was moved.
#![tactic(auto)]

mod doubts;
mod fits;
mod kept;
mod obstacles;

pub use doubts::{Basis, doubts_of};
pub use fits::front::{Front, FrontLane, front_of};
pub use fits::places::places_of;
pub use fits::shifts::shifts_at;
pub use kept::back::Back;
pub use kept::keep::kept_intervals;
pub use kept::lacking::{CountedTexts, Lacking, lacking_texts};
pub use kept::sampling::Sampling;
pub use obstacles::obstacle;
