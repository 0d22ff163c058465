//! `edfclaim`: checks whether an exported sleep recording is the original night, cut as a claim says, and
//! nothing else.
//!
//! The check is `edf_check::check`; what its Yes means is the first clause of its contract. That of several
//! exports of one original is `edf_check::check_parts`. The
//! program reads its words (`edf_command_line`), does the job (`perform`), and ends with the status of its outcome
//! (`status`). Why a job is refused is a `Refusal`, whose one line goes to standard error.
#![tactic(auto)]

mod files;
mod files_again;
mod hints;
mod perform;
mod signs;

ghost use Rattle.edf_jobs.specs.Jobs.{HasExports};

use clap::error::ErrorKind;
use edf_command_line::job;
use edf_jobs::Job;
use edf_refusal::{Refusal, status};
use std::io::IsTerminal;
use std::process::ExitCode;
use std::rt::{Env, Files};
use std::time::Clock;
use std::{env, io};

/// Writes a line to standard error, and gives the status of a refusal.
///
/// Where standard error takes nothing, the status has to say it alone.
fn refuse(rt: &impl Eprint, line: &str) -> u8 {
    let _ = rt.eprintln(line);
    2
}

/// Answers a line that `clap` doesn't take, and gives the status: its text on standard error and 2, or on
/// standard output and 0 where help or the version was asked for.
fn answer_fault(rt: &(impl Print + Eprint), fault: &clap::Error) -> u8 {
    if fault.kind() == ErrorKind::OutOfMemory {
        return refuse(rt, Refusal::Memory.text());
    }
    let printed = fault.print(rt);
    if fault.use_stderr() {
        2
    } else if printed.is_err() {
        refuse(rt, Refusal::Writing.text())
    } else {
        0
    }
}

/// Writes the sentences behind the line of a refusal to standard error, where there are any. Where memory runs out, or
/// standard error takes nothing, the line has to do.
fn hint(rt: &(impl Files + Eprint + AllocGlobal), asked: Job<'_>, refusal: &Refusal) {
    if let Ok(sentences) = hints::hints(rt, asked, refusal) {
        if let Ok(text) = str::from_utf8(&sentences) {
            let _ = rt.eprint(text);
        }
    }
}

/// Does a job, and gives the status. Where standard error is a terminal, how much is read is shown there meanwhile.
fn answer_job(
    rt: &(impl Files + Print + Eprint + Clock + AllocGlobal),
    asked: Job<'_>,
    is_terminal: bool,
) -> u8
    requires { HasExports asked }
{
    let ended = perform::perform(rt, asked, is_terminal);
    if let Err(refusal) = &ended {
        refuse(rt, refusal.text());
        hint(rt, asked, refusal);
    }
    status(&ended)
}

/// Does what the words say, of which the first is the program's name, and gives the status.
fn answer(
    rt: &(impl Files + Print + Eprint + Clock + AllocGlobal),
    words: &[&str],
    is_terminal: bool,
) -> u8 {
    match job(rt.alloc(), words) {
        Ok(Some(asked)) => answer_job(rt, asked, is_terminal),
        Ok(None) => refuse(rt, "edfclaim: not a command"),
        Err(fault) => answer_fault(rt, &fault),
    }
}

/// The program's words. A word that isn't UTF-8 is an error, as is want of memory.
fn words_of(rt: &(impl Env + AllocGlobal)) -> io::Result<Vec<String>> {
    let words = env::args(rt)?.collect(rt.alloc())?;
    Ok(words)
}

/// Does what the command line says, and gives the status.
fn answer_words(
    rt: &(impl Env + Files + Print + Eprint + Clock + AllocGlobal),
    is_terminal: bool,
) -> u8 {
    let words = match words_of(rt) {
        Ok(words) => words,
        Err(fault) if fault.kind() == io::ErrorKind::OutOfMemory => {
            return refuse(rt, Refusal::Memory.text());
        }
        Err(_) => return refuse(rt, "edfclaim: not a command"),
    };
    match words
        .iter()
        .map(|word| word.as_str())
        .collect::<Vec<&str>>(rt.alloc())
    {
        Ok(texts) => answer(rt, &texts, is_terminal),
        Err(_) => refuse(rt, Refusal::Memory.text()),
    }
}

fn main(rt: HostRuntime) -> ExitCode {
    let is_terminal = rt.stderr().is_terminal();
    ExitCode::from(answer_words(&rt, is_terminal))
}
