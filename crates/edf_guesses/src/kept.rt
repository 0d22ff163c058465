//! What an export keeps of its original: intervals of time, and the texts of annotations.

pub mod back;
pub mod blanked;
pub mod intervals;
pub mod keep;
pub mod lacking;
pub mod sampling;
