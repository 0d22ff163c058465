//! What the texts of fields spell.

pub mod date;
pub mod identification;
pub mod number;
pub mod onset;
pub mod printable;
pub mod subfields;
