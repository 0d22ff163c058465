//! What two headers look like beside one another.

pub mod cut_off;
pub mod exchanged;
mod extremes;
