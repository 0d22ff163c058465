//! What stands on standard error behind the line of an `explain` or an `explain-parts` that is refused.

use crate::files::claim_text;
use edf_claim_advice::explain_claim;
use edf_explain::{explain_folder, explain_opening, explain_reading};
use edf_jobs::Job;
use edf_refusal::{Refusal, Role};
use std::alloc::AllocError;
use std::fs;
use std::rt::Files;

/// Sentences on a claim that is refused. Where it can't be read once more there are none.
fn claim_hints<R: Files + AllocGlobal>(rt: &R, claim: &str) -> Result<Vec<u8>, AllocError> {
    match claim_text(rt, claim) {
        Ok(text) => explain_claim(rt.alloc(), &text),
        Err(_) => Ok(Vec::new(rt.alloc())),
    }
}

/// Why the system doesn't open a file. Where it does so now there is nothing.
fn opening_hints<R: Files + AllocGlobal>(rt: &R, path: &str) -> Result<Vec<u8>, AllocError> {
    match fs::open(rt, path) {
        Ok(_) => Ok(Vec::new(rt.alloc())),
        Err(fault) => explain_opening(rt.alloc(), path, &fault),
    }
}

/// The path of a file of `explain` or `explain-parts`; none where it is another command, or one of several exports.
fn path_of<'a>(job: Job<'a>, role: Role) -> Option<&'a str> {
    match (job, role) {
        (Job::Explain { claim, .. } | Job::ExplainParts { claim, .. }, Role::Claim) => Some(claim),
        (Job::Explain { original, .. } | Job::ExplainParts { original, .. }, Role::Original) => {
            Some(original)
        }
        (Job::Explain { export, .. }, Role::Export) => Some(export),
        _ => None,
    }
}

/// The first of several exports that can't be opened now, and why; nothing where each can.
fn opening_hints_of_parts<R: Files + AllocGlobal>(
    rt: &R,
    exports: &[&str],
) -> Result<Vec<u8>, AllocError> {
    for path in exports {
        if let Err(fault) = fs::open(rt, path) {
            return explain_opening(rt.alloc(), path, &fault);
        }
    }
    Ok(Vec::new(rt.alloc()))
}

/// Whether a path is that of a folder.
fn is_folder<R: Files>(rt: &R, path: &str) -> bool {
    match fs::metadata(rt, path) {
        Ok(metadata) => metadata.is_dir(),
        Err(_) => false,
    }
}

/// A sentence on the first of several exports that is a folder; nothing where none is, since it isn't known of which a read failed.
fn reading_hints_of_parts<R: Files + AllocGlobal>(
    rt: &R,
    exports: &[&str],
) -> Result<Vec<u8>, AllocError> {
    for path in exports {
        if is_folder(rt, path) {
            return explain_folder(rt.alloc(), path);
        }
    }
    Ok(Vec::new(rt.alloc()))
}

/// The sentences on one of several exports that can't be opened or read; nothing where that isn't why.
fn hints_of_parts<R: Files + AllocGlobal>(
    rt: &R,
    exports: &[&str],
    refusal: &Refusal,
) -> Result<Vec<u8>, AllocError> {
    match refusal {
        Refusal::CannotOpen(Role::Export) => opening_hints_of_parts(rt, exports),
        Refusal::Reading(Role::Export) => reading_hints_of_parts(rt, exports),
        _ => Ok(Vec::new(rt.alloc())),
    }
}

/// The sentences behind the line of a refusal: of `explain` and `explain-parts` alone, where the claim is refused, or a file can't
/// be opened or read. Of several exports one that can't be read is named where it is a folder.
pub fn hints<R: Files + AllocGlobal>(
    rt: &R,
    job: Job<'_>,
    refusal: &Refusal,
) -> Result<Vec<u8>, AllocError> {
    let role = match refusal {
        Refusal::Claim(_) => Role::Claim,
        Refusal::CannotOpen(role) | Refusal::Reading(role) => *role,
        Refusal::Memory | Refusal::Writing | Refusal::TooManyExports => Role::File,
    };
    match (path_of(job, role), refusal) {
        (Some(path), Refusal::Claim(_)) => claim_hints(rt, path),
        (Some(path), Refusal::CannotOpen(_)) => opening_hints(rt, path),
        (Some(path), Refusal::Reading(_)) => explain_reading(rt.alloc(), path),
        _ => match job {
            Job::ExplainParts { exports, .. } => hints_of_parts(rt, exports, refusal),
            _ => Ok(Vec::new(rt.alloc())),
        },
    }
}
