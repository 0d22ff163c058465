//! The command line of `edfclaim`: its grammar, its help, its version, and the job that it asks for.
#![tactic(auto)]

mod command;

pub use command::job;

pub const VERSION: &str = "0.2.0";
