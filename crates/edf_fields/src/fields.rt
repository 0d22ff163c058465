//! The fields of a header: where they stand, what a claim calls the subfields, and the label of a signal.

pub mod label;
pub mod layout;
pub mod which;
