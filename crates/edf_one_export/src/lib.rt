//! Two exports of one original under one claim, of whose layouts the same lines are written, are one file.
#![tactic(auto)]

pub mod laws;
