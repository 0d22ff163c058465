//! What is found of the samples of claimed channels that both files have is all in which they differ; and a verdict on samples or
//! annotations is the first that is found.
#![tactic(auto)]

pub mod laws;
