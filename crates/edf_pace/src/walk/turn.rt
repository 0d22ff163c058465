//! By what files are compared, and whose turn it is.

use crate::walk::clock::Clock;
use edf_claim::Claim;
use edf_samples::Time;
use std::alloc::Global;

/// What is the same for all exports: where memory is taken, how far files are moved, the claim, and its labels in the
/// order of their bytes.
#[derive(Clone, Copy)]
pub struct Setting<'a> {
    pub alloc: Global,
    pub clock: Clock,
    pub claim: &'a Claim,
    pub labels: &'a [&'a [u8]],
}

/// Which of several exports it is, and how much of it is compared.
#[derive(Clone, Copy)]
pub struct Turn<'a> {
    pub setting: Setting<'a>,
    /// Its number, counted from 0.
    pub part: u16,
    /// The time from which on it is compared: that at which the one before it ends.
    pub from: Time,
    /// Whether no further one follows.
    pub is_last: bool,
    /// Whether its samples are compared: those before it don't differ.
    pub is_compared: bool,
}
