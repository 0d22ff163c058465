//! Several exports of one original, one after the other.

pub mod found;
pub mod part;
pub mod series;
pub mod together;
