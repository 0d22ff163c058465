//! The drafts of two files, each tried by the check with it, and the one that is given.

pub mod chosen;
pub mod drafted;
pub mod trial;
pub mod tried;
