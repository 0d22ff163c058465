//! What the benchmark measures: the jobs that the program's users wait for, on nights in memory that it makes of
//! a number.
//!
//! Its words are the name of a workload and that number. It prints a digest of all lines and texts that the jobs
//! gave, and how many of them answered Yes and No. With `all` for the name it does all workloads on short nights.
#![tactic(auto)]

mod claims;
mod jobs;
mod nights;
mod noise;
mod workloads;

use crate::workloads::{WORKLOADS, work};
use edf_refusal::Refusal;
use std::process::ExitCode;
use std::rt::Env;
use std::{env, io};

/// The words behind the program's name.
fn words_of(rt: &(impl Env + AllocGlobal)) -> io::Result<Vec<String>> {
    let words = env::args(rt)?.collect(rt.alloc())?;
    Ok(words)
}

/// Does a workload, and prints what its jobs gave. The answer says whether it was done.
fn answer(
    rt: &(impl Print + AllocGlobal),
    name: &str,
    seed: u64,
    is_short: bool,
) -> io::Result<bool> {
    match work(rt.alloc(), name, seed, is_short) {
        Ok(given) => {
            println!(rt; "{name} {} yes {} no {}", given.digest, given.yes, given.no)?;
            Ok(true)
        }
        Err(refusal) => {
            println!(rt; "{name}: {}", refusal.text())?;
            Ok(false)
        }
    }
}

/// Does all workloads on short nights.
fn answer_all(rt: &(impl Print + AllocGlobal), seed: u64) -> io::Result<bool> {
    let mut is_done = true;
    for name in WORKLOADS {
        is_done = answer(rt, name, seed, true)? && is_done;
    }
    Ok(is_done)
}

/// Does what the words say. The answer says whether it was done.
fn measure(rt: &(impl Env + Print + AllocGlobal)) -> io::Result<bool> {
    let words = words_of(rt)?;
    let (Some(name), Some(number)) = (words.get(1), words.get(2)) else {
        println!(rt; "a workload and a number are wanted")?;
        return Ok(false);
    };
    let Ok(seed) = number.as_str().parse::<u64>() else {
        println!(rt; "not a number: {number}")?;
        return Ok(false);
    };
    if name.as_str() == "all" {
        answer_all(rt, seed)
    } else {
        answer(rt, name.as_str(), seed, false)
    }
}

fn main(rt: HostRuntime) -> ExitCode {
    match measure(&rt) {
        Ok(true) => ExitCode::from(0),
        _ => ExitCode::from(2),
    }
}
