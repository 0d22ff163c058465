//! The commands, on files and standard output.

ghost use Rattle.std.specs.Prelude.{◌≡◌, ◌<◌, length, Err, IfErr};
ghost use Rattle.edf_jobs.specs.Jobs.{HasExports};
ghost use Rattle.edf_refusal.specs.declared.refusals.Refusal.TheVariants as refusals;
ghost use Rattle.edfclaim.specs.Opening.{CheckIsRefused, ClaimIsRefused, DraftIsRefused, PartsAreRefused, PartsDraftIsRefused, ReportIsRefused};

use crate::files::{
    claim_text, digested_recordings, fronted_recordings, recording, recordings, watched,
};
use crate::files_again::{FilesAgain, PartsAgain};
use crate::signs::{Signs, Wiped};
use edf_check::{run, run_parts};
use edf_claim_text::claim_to;
use edf_command_line::VERSION;
use edf_draft::{draft_parts_to, draft_to};
use edf_explained::{Question, run_explained, run_explained_parts};
use edf_fields::{Sink, WriteSink};
use edf_findings::FrontSource;
use edf_jobs::Job;
use edf_layout::layout_to;
use edf_read::read_to;
use edf_receipt::{DigestSource, Printed, receipt_parts_to, receipt_to};
use edf_refusal::{Refusal, Role};
use edf_report::{conform_to, notes_to, show_to};
use edf_sentences::FRONT;
use edf_vectors::vectors_to;
use edf_verdict::Outcome;
use std::io;
use std::rt::Files;
use std::time::Clock;

/// The most exports that are checked together.
const MOST_EXPORTS: usize = 64;

/// Checks an export against its original under a claim.
///
/// The claim is opened and read first, then the original is opened, then the export; the text of the
/// claim is judged behind that.
fn check<'a, R: Files + Eprint + Clock + AllocGlobal, K: Sink>(
    signs: &'a Signs<'a, R>,
    original: &str,
    export: &str,
    claim: &str,
    sink: &mut K,
) -> Result<Outcome, Refusal>
    ensures stop { IfErr result CheckIsRefused }
{
    let text = claim_text(signs.rt(), claim)?;
    let mut first = watched(signs, original, Role::Original)?;
    let mut second = watched(signs, export, Role::Export)?;
    Ok(run(signs.rt().alloc(), &mut first, &mut second, &text, sink)?)
}

/// Checks exports, in the order of time, against their one original under a claim.
///
/// More than 64 exports are refused before a file is opened. Else the claim is opened and read first, then the
/// original is opened, then the exports in their order; the text of the claim is judged behind that.
fn check_parts<'a, R: Files + Eprint + Clock + AllocGlobal, K: Sink>(
    signs: &'a Signs<'a, R>,
    original: &str,
    claim: &str,
    exports: &[&str],
    sink: &mut K,
) -> Result<Outcome, Refusal>
    requires { 0 < length exports.now }
    ensures many { 64 < length exports.now → result ≡ Err refusals.TooManyExports }
    ensures stop { IfErr result (PartsAreRefused (length exports.now)) }
{
    if exports.len() > MOST_EXPORTS {
        return Err(Refusal::TooManyExports);
    }
    let text = claim_text(signs.rt(), claim)?;
    let mut first = watched(signs, original, Role::Original)?;
    let mut parts = recordings(signs, exports, Role::Export)?;
    Ok(run_parts(signs.rt().alloc(), &mut first, &mut parts, &text, sink)?)
}

/// The same as `check`, with a receipt for its answer.
fn receipt<'a, R: Files + Eprint + Clock + AllocGlobal, K: Sink>(
    signs: &'a Signs<'a, R>,
    original: &str,
    export: &str,
    claim: &str,
    sink: &mut K,
) -> Result<Outcome, Refusal>
    ensures stop { IfErr result CheckIsRefused }
{
    let text = claim_text(signs.rt(), claim)?;
    let mut first = DigestSource::new(watched(signs, original, Role::Original)?);
    let mut second = DigestSource::new(watched(signs, export, Role::Export)?);
    let printed = Printed {
        version: VERSION,
        claim_text: &text,
    };
    Ok(receipt_to(signs.rt().alloc(), &mut first, &mut second, printed, sink)?)
}

/// The same as `check_parts`, with a receipt for its answer.
fn receipt_parts<'a, R: Files + Eprint + Clock + AllocGlobal, K: Sink>(
    signs: &'a Signs<'a, R>,
    original: &str,
    claim: &str,
    exports: &[&str],
    sink: &mut K,
) -> Result<Outcome, Refusal>
    requires { 0 < length exports.now }
    ensures many { 64 < length exports.now → result ≡ Err refusals.TooManyExports }
    ensures stop { IfErr result (PartsAreRefused (length exports.now)) }
{
    if exports.len() > MOST_EXPORTS {
        return Err(Refusal::TooManyExports);
    }
    let text = claim_text(signs.rt(), claim)?;
    let mut first = DigestSource::new(watched(signs, original, Role::Original)?);
    let mut parts = digested_recordings(signs, exports, Role::Export)?;
    let printed = Printed {
        version: VERSION,
        claim_text: &text,
    };
    Ok(receipt_parts_to(signs.rt().alloc(), &mut first, &mut parts, printed, sink)?)
}

/// Drafts the claim by which a recording is the export of another.
///
/// The original is opened first, then the export. The draft is tried on both, which are opened anew for that.
fn draft<'a, R: Files + Eprint + Clock + AllocGlobal, K: Sink>(
    signs: &'a Signs<'a, R>,
    original: &str,
    export: &str,
    sink: &mut K,
) -> Result<Outcome, Refusal>
    ensures stop { IfErr result DraftIsRefused }
{
    let mut first = watched(signs, original, Role::Original)?;
    let mut second = watched(signs, export, Role::Export)?;
    let again = FilesAgain::new(signs, original, export);
    Ok(draft_to(signs.rt().alloc(), &mut first, &mut second, &again, sink)?)
}

/// Drafts the claim by which recordings, in the order of time, are together the export of another.
///
/// More than 64 exports are refused before a file is opened. Else the original is opened first, then the exports in their
/// order. The draft is tried on all, which are opened anew for that.
#[tactic(auto, using(crate::proofs::RefusalFacts::draft_parts_refused))]
fn draft_parts<'a, R: Files + Eprint + Clock + AllocGlobal, K: Sink>(
    signs: &'a Signs<'a, R>,
    original: &str,
    exports: &[&str],
    sink: &mut K,
) -> Result<Outcome, Refusal>
    requires { 0 < length exports.now }
    ensures many { 64 < length exports.now → result ≡ Err refusals.TooManyExports }
    ensures stop { IfErr result (PartsDraftIsRefused (length exports.now)) }
{
    if exports.len() > MOST_EXPORTS {
        return Err(Refusal::TooManyExports);
    }
    let mut first = watched(signs, original, Role::Original)?;
    let mut parts = recordings(signs, exports, Role::Export)?;
    let again = PartsAgain::new(signs, original, exports);
    Ok(draft_parts_to(signs.rt().alloc(), &mut first, &mut parts, &again, sink)?)
}

/// The same as `check`, with sentences behind its line, for which both recordings are opened anew.
fn explain<'a, R: Files + Eprint + Clock + AllocGlobal, K: Sink>(
    signs: &'a Signs<'a, R>,
    original: &str,
    export: &str,
    claim: &str,
    sink: &mut K,
) -> Result<Outcome, Refusal>
    ensures stop { IfErr result CheckIsRefused }
{
    let text = claim_text(signs.rt(), claim)?;
    let mut first = watched(signs, original, Role::Original)?;
    let mut second = watched(signs, export, Role::Export)?;
    let again = FilesAgain::new(signs, original, export);
    let question = Question {
        claim_text: &text,
        again: &again,
    };
    Ok(run_explained(signs.rt().alloc(), &mut first, &mut second, question, sink)?)
}

/// The same as `check_parts`, with sentences behind its line.
fn explain_parts<'a, R: Files + Eprint + Clock + AllocGlobal, K: Sink>(
    signs: &'a Signs<'a, R>,
    original: &str,
    claim: &str,
    exports: &[&str],
    sink: &mut K,
) -> Result<Outcome, Refusal>
    requires { 0 < length exports.now }
    ensures many { 64 < length exports.now → result ≡ Err refusals.TooManyExports }
    ensures stop { IfErr result (PartsAreRefused (length exports.now)) }
{
    if exports.len() > MOST_EXPORTS {
        return Err(Refusal::TooManyExports);
    }
    let alloc = signs.rt().alloc();
    let text = claim_text(signs.rt(), claim)?;
    let mut first = FrontSource::new(alloc, watched(signs, original, Role::Original)?, FRONT);
    let mut parts = fronted_recordings(signs, exports, Role::Export)?;
    let again = PartsAgain::new(signs, original, exports);
    let question = Question {
        claim_text: &text,
        again: &again,
    };
    Ok(run_explained_parts(alloc, &mut first, &mut parts, question, sink)?)
}

/// Says whether a file conforms.
fn conform<'a, R: Files + Eprint + Clock + AllocGlobal, K: Sink>(
    signs: &'a Signs<'a, R>,
    path: &str,
    sink: &mut K,
) -> Result<Outcome, Refusal>
    ensures stop { IfErr result ReportIsRefused }
{
    let mut source = watched(signs, path, Role::File)?;
    Ok(conform_to(signs.rt().alloc(), &mut source, sink)?)
}

/// Shows what the header of a file says.
fn show<R: Files + AllocGlobal, K: Sink>(
    rt: &R,
    path: &str,
    sink: &mut K,
) -> Result<Outcome, Refusal>
    ensures stop { IfErr result ReportIsRefused }
{
    let mut source = recording(rt, path, Role::File)?;
    Ok(show_to(rt.alloc(), &mut source, sink)?)
}

/// Lists the annotations of a file.
fn notes<R: Files + AllocGlobal, K: Sink>(
    rt: &R,
    path: &str,
    sink: &mut K,
) -> Result<Outcome, Refusal>
    ensures stop { IfErr result ReportIsRefused }
{
    let mut source = recording(rt, path, Role::File)?;
    Ok(notes_to(rt.alloc(), &mut source, sink)?)
}

/// Prints what the header of a file says, and its annotations, for reading.
fn read<'a, R: Files + Eprint + Clock + AllocGlobal, K: Sink>(
    signs: &'a Signs<'a, R>,
    path: &str,
    sink: &mut K,
) -> Result<Outcome, Refusal>
    ensures stop { IfErr result ReportIsRefused }
{
    let mut source = watched(signs, path, Role::File)?;
    Ok(read_to(signs.rt().alloc(), &mut source, sink)?)
}

/// Prints what the bytes of a file hold besides what it means.
fn layout<'a, R: Files + Eprint + Clock + AllocGlobal, K: Sink>(
    signs: &'a Signs<'a, R>,
    path: &str,
    sink: &mut K,
) -> Result<Outcome, Refusal>
    ensures stop { IfErr result ReportIsRefused }
{
    let mut source = watched(signs, path, Role::File)?;
    Ok(layout_to(signs.rt().alloc(), &mut source, sink)?)
}

/// Prints a claim as it is understood.
fn claim<R: Files + AllocGlobal, K: Sink>(
    rt: &R,
    path: &str,
    sink: &mut K,
) -> Result<Outcome, Refusal>
    ensures stop { IfErr result ClaimIsRefused }
{
    let text = claim_text(rt, path)?;
    Ok(claim_to(rt.alloc(), &text, sink)?)
}

/// Does a job, and writes its text to the sink.
fn write_job<'a, R: Files + Eprint + Clock + AllocGlobal, K: Sink>(
    signs: &'a Signs<'a, R>,
    job: Job<'_>,
    sink: &mut K,
) -> Result<Outcome, Refusal>
    requires { HasExports job }
{
    match job {
        Job::Check {
            original,
            export,
            claim,
        } => check(signs, original, export, claim, sink),
        Job::CheckParts {
            original,
            claim,
            exports,
        } => check_parts(signs, original, claim, exports, sink),
        Job::Receipt {
            original,
            export,
            claim,
        } => receipt(signs, original, export, claim, sink),
        Job::ReceiptParts {
            original,
            claim,
            exports,
        } => receipt_parts(signs, original, claim, exports, sink),
        Job::Draft { original, export } => draft(signs, original, export, sink),
        Job::DraftParts { original, exports } => draft_parts(signs, original, exports, sink),
        Job::Explain {
            original,
            export,
            claim,
        } => explain(signs, original, export, claim, sink),
        Job::ExplainParts {
            original,
            claim,
            exports,
        } => explain_parts(signs, original, claim, exports, sink),
        Job::Conform(path) => conform(signs, path, sink),
        Job::Show(path) => show(signs.rt(), path, sink),
        Job::Notes(path) => notes(signs.rt(), path, sink),
        Job::Read(path) => read(signs, path, sink),
        Job::Layout(path) => layout(signs, path, sink),
        Job::Claim(path) => claim(signs.rt(), path, sink),
        Job::Vectors => Ok(vectors_to(signs.rt().alloc(), sink)?),
    }
}

/// Does a job, and writes its text to standard output; a failed flush is a failed write. Where standard error is a terminal, it is
/// shown there meanwhile how much is read, and nothing of that is left.
pub fn perform<R: Files + Print + Eprint + Clock + AllocGlobal>(
    rt: &R,
    job: Job<'_>,
    is_terminal: bool,
) -> Result<Outcome, Refusal>
    requires { HasExports job }
{
    let signs = Signs::new(rt, is_terminal);
    let mut sink = Wiped::new(WriteSink::new(io::writer(rt)), &signs);
    let ended = write_job(&signs, job, &mut sink);
    signs.wipe();
    let outcome = ended?;
    sink.inner.flush()?;
    Ok(outcome)
}
