//! The commands of `edfclaim`, and which of them some words are.
#![tactic(auto)]

mod jobs;
mod words;

pub use jobs::Job;
pub use words::job_of;
