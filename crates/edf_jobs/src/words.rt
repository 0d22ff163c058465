//! Which command some words are.

ghost use Rattle.std.specs.Prelude.{map, IfSome, IfNone};
ghost use Rattle.std.specs.Bool.{Decides};
ghost use Rattle.edf_jobs.specs.Jobs.{HasExports, HaveEscape, SaysJob, SaysNoCheckOfParts, SaysNoExport, SaysNoFile, SaysNoJob, SaysNoOther, SaysNoParts, SaysNoDraftOfParts, behind_first};

use crate::jobs::Job;

/// Whether `--` stands among some words.
fn have_escape(words: &[&str]) -> bool
    ensures { Decides result (HaveEscape (map (λ w. w.now) words.now)) }
{
    words.contains(&"--")
}

/// The check of several exports that the words behind the first one are, or none where they aren't one.
fn parts_check<'a>(words: &'a [&'a str]) -> Option<Job<'a>>
    ensures some { IfSome result (SaysJob (behind_first words.entry.now)) }
    ensures none { IfNone result (SaysNoCheckOfParts (behind_first words.entry.now)) }
{
    match words {
        [_, "check-parts", original, claim, _, ..] if !have_escape(&words[1..]) => {
            Some(Job::CheckParts {
                original,
                claim,
                exports: &words[4..],
            })
        }
        [_, "receipt-parts", original, claim, _, ..] if !have_escape(&words[1..]) => {
            Some(Job::ReceiptParts {
                original,
                claim,
                exports: &words[4..],
            })
        }
        [_, "explain-parts", original, claim, _, ..] if !have_escape(&words[1..]) => {
            Some(Job::ExplainParts {
                original,
                claim,
                exports: &words[4..],
            })
        }
        _ => None,
    }
}

/// The draft of a claim for several exports that the words behind the first one are, or none where they aren't one.
fn parts_draft<'a>(words: &'a [&'a str]) -> Option<Job<'a>>
    ensures some { IfSome result (SaysJob (behind_first words.entry.now)) }
    ensures none { IfNone result (SaysNoDraftOfParts (behind_first words.entry.now)) }
{
    match words {
        [_, "draft-parts", original, _, ..] if !have_escape(&words[1..]) => {
            Some(Job::DraftParts {
                original,
                exports: &words[3..],
            })
        }
        _ => None,
    }
}

/// The command over several exports that the words behind the first one are, or none where they aren't one.
fn parts_job<'a>(words: &'a [&'a str]) -> Option<Job<'a>>
    ensures some { IfSome result (SaysJob (behind_first words.entry.now)) }
    ensures none { IfNone result (SaysNoParts (behind_first words.entry.now)) }
{
    match parts_check(words) {
        Some(job) => Some(job),
        None => parts_draft(words),
    }
}

/// The command over one export that the words behind the first one are, or none where they aren't one.
fn export_job<'a>(words: &'a [&'a str]) -> Option<Job<'a>>
    ensures some { IfSome result (SaysJob (behind_first words.entry.now)) }
    ensures none { IfNone result (SaysNoExport (behind_first words.entry.now)) }
{
    match words {
        [_, "check", original, export, claim] => Some(Job::Check {
            original,
            export,
            claim,
        }),
        [_, "receipt", original, export, claim] => Some(Job::Receipt {
            original,
            export,
            claim,
        }),
        [_, "draft", original, export] => Some(Job::Draft { original, export }),
        [_, "explain", original, export, claim] => Some(Job::Explain {
            original,
            export,
            claim,
        }),
        _ => None,
    }
}

/// The command over a file or none that the words behind the first one are, or none where they aren't one.
fn file_job<'a>(words: &'a [&'a str]) -> Option<Job<'a>>
    ensures some { IfSome result (SaysJob (behind_first words.entry.now)) }
    ensures none { IfNone result (SaysNoFile (behind_first words.entry.now)) }
{
    match words {
        [_, "conform", path] => Some(Job::Conform(path)),
        [_, "show", path] => Some(Job::Show(path)),
        [_, "notes", path] => Some(Job::Notes(path)),
        [_, "read", path] => Some(Job::Read(path)),
        [_, "layout", path] => Some(Job::Layout(path)),
        [_, "claim", path] => Some(Job::Claim(path)),
        [_, "vectors"] => Some(Job::Vectors),
        _ => None,
    }
}

/// The command that the words behind the first one are, where it isn't one over several exports.
fn other_job<'a>(words: &'a [&'a str]) -> Option<Job<'a>>
    ensures some { IfSome result (SaysJob (behind_first words.entry.now)) }
    ensures none { IfNone result (SaysNoOther (behind_first words.entry.now)) }
{
    match export_job(words) {
        Some(job) => Some(job),
        None => file_job(words),
    }
}

/// The command that the words behind the first one are, which is the program's name; or none where they
/// are no command with its arguments.
pub fn job_of<'a>(words: &'a [&'a str]) -> Option<Job<'a>>
    ensures some { IfSome result (SaysJob (behind_first words.entry.now)) }
    ensures exports { IfSome result HasExports }
    ensures none { IfNone result (SaysNoJob (behind_first words.entry.now)) }
{
    match parts_job(words) {
        Some(job) => Some(job),
        None => other_job(words),
    }
}
