//! The files that a command reads.

ghost use Rattle.std.specs.Prelude.{◌≡◌, ◌≤◌, length, take, IfOk, IfErr, IsTrue};
ghost use Rattle.edf_fields.specs.in_out.Sources.{Fails};
ghost use Rattle.edf_refusal.specs.Refusals.{ClaimReadStops};
ghost use Rattle.edf_refusal.specs.declared.refusals.Refusal.TheVariants as refusals;
ghost use Rattle.edfclaim.specs.Opening.{ClaimTextStops, OpeningStops};

use crate::signs::{Signs, Watched};
use edf_claim::MOST_CLAIM_BYTES;
use edf_fields::{ReadSource, Source, fill};
use edf_findings::FrontSource;
use edf_receipt::DigestSource;
use edf_refusal::{Refusal, Role};
use edf_sentences::FRONT;
use std::alloc::Global;
use std::fs;
use std::io::{BufReader, ErrorKind, Read};
use std::rt::Files;
use std::time::Clock;

/// How many bytes are read ahead of what is asked for. A read that asks for as many or more goes past
/// the buffer where this is empty.
const READ_AHEAD: usize = 32_768;

/// The same of each of several exports, which are open at a time.
const READ_AHEAD_OF_SEVERAL: usize = 16_384;

/// How many bytes of a claim are read at most: one more than a claim may have, so that a longer one is
/// seen to be too long.
const CLAIM_BYTES: usize = MOST_CLAIM_BYTES + 1;

/// Opens a file to be read.
///
/// The error is `CannotOpen`, or want of memory.
fn open<R: Files>(rt: &R, path: &str, role: Role) -> Result<R::File, Refusal>
    ensures stop { IfErr result (OpeningStops role) }
{
    match fs::open(rt, path) {
        Ok(file) => Ok(file),
        Err(fault) if fault.kind() == ErrorKind::OutOfMemory => Err(Refusal::Memory),
        Err(_) => Err(Refusal::CannotOpen(role)),
    }
}

/// A file as a source, whose small reads are taken from larger ones of so many bytes.
///
/// The error is want of memory.
fn source_over<F: Read + Drop>(
    alloc: Global,
    file: F,
    ahead: usize,
) -> Result<ReadSource<BufReader<F>>, Refusal>
    ensures stop { IfErr result (λ refusal. refusal ≡ refusals.Memory) }
{
    match BufReader::with_capacity(alloc, ahead, file) {
        Ok(reader) => Ok(ReadSource::new(reader)),
        Err(_) => Err(Refusal::Memory),
    }
}

/// Opens a recording as a source, whose small reads are taken from larger ones.
///
/// The error is `CannotOpen`, or want of memory.
pub fn recording<R: Files + AllocGlobal>(
    rt: &R,
    path: &str,
    role: Role,
) -> Result<ReadSource<BufReader<R::File>>, Refusal>
    ensures stop { IfErr result (OpeningStops role) }
{
    let file = open(rt, path, role)?;
    source_over(rt.alloc(), file, READ_AHEAD)
}

/// Opens a recording as a source of which it is shown how much is read, with small reads taken from larger ones of so many
/// bytes.
///
/// The error is `CannotOpen`, or want of memory.
fn watched_ahead<'a, R: Files + Eprint + Clock + AllocGlobal>(
    signs: &'a Signs<'a, R>,
    path: &str,
    role: Role,
    ahead: usize,
) -> Result<Watched<'a, R, ReadSource<BufReader<R::File>>>, Refusal>
    ensures stop { IfErr result (OpeningStops role) }
{
    let file = open(signs.rt(), path, role)?;
    signs.opened(&file);
    let source = source_over(signs.rt().alloc(), file, ahead)?;
    Ok(Watched::new(source, signs))
}

/// The same as `recording`, by a source of which it is shown how much is read.
///
/// The error is `CannotOpen`, or want of memory.
pub fn watched<'a, R: Files + Eprint + Clock + AllocGlobal>(
    signs: &'a Signs<'a, R>,
    path: &str,
    role: Role,
) -> Result<Watched<'a, R, ReadSource<BufReader<R::File>>>, Refusal>
    ensures stop { IfErr result (OpeningStops role) }
{
    watched_ahead(signs, path, role, READ_AHEAD)
}

/// Opens recordings as sources, one after the other.
///
/// The error is `CannotOpen`, or want of memory.
pub fn recordings<'a, R: Files + Eprint + Clock + AllocGlobal>(
    signs: &'a Signs<'a, R>,
    paths: &[&str],
    role: Role,
) -> Result<Vec<Watched<'a, R, ReadSource<BufReader<R::File>>>>, Refusal>
    ensures each { IfOk result (λ sources. length sources.items ≡ length paths.now) }
    ensures stop { IfErr result (OpeningStops role) }
{
    let mut sources = Vec::with_capacity(signs.rt().alloc(), paths.len())?;
    for path in paths {
        sources.push(watched_ahead(signs, path, role, READ_AHEAD_OF_SEVERAL)?)?;
    }
    Ok(sources)
}

/// The same as `recordings`, by sources that digest what they give.
///
/// The error is `CannotOpen`, or want of memory.
pub fn digested_recordings<'a, R: Files + Eprint + Clock + AllocGlobal>(
    signs: &'a Signs<'a, R>,
    paths: &[&str],
    role: Role,
) -> Result<Vec<DigestSource<Watched<'a, R, ReadSource<BufReader<R::File>>>>>, Refusal>
    ensures each { IfOk result (λ sources. length sources.items ≡ length paths.now) }
    ensures stop { IfErr result (OpeningStops role) }
{
    let mut sources = Vec::with_capacity(signs.rt().alloc(), paths.len())?;
    for path in paths {
        let source = watched_ahead(signs, path, role, READ_AHEAD_OF_SEVERAL)?;
        sources.push(DigestSource::new(source))?;
    }
    Ok(sources)
}

/// The same as `recordings`, by sources that remember the front of what they give.
///
/// The error is `CannotOpen`, or want of memory.
pub fn fronted_recordings<'a, R: Files + Eprint + Clock + AllocGlobal>(
    signs: &'a Signs<'a, R>,
    paths: &[&str],
    role: Role,
) -> Result<Vec<FrontSource<Watched<'a, R, ReadSource<BufReader<R::File>>>>>, Refusal>
    ensures each { IfOk result (λ sources. length sources.items ≡ length paths.now) }
    ensures stop { IfErr result (OpeningStops role) }
{
    let alloc = signs.rt().alloc();
    let mut sources = Vec::with_capacity(alloc, paths.len())?;
    for path in paths {
        let source = watched_ahead(signs, path, role, READ_AHEAD_OF_SEVERAL)?;
        sources.push(FrontSource::new(alloc, source, FRONT))?;
    }
    Ok(sources)
}

/// Reads a claim's text: all of it, or its first `most` bytes.
///
/// The error is a failed read, or want of memory.
fn text_of<S: Source>(alloc: Global, source: &mut S, most: usize) -> Result<Vec<u8>, Refusal>
    ensures text { IfOk result (λ text. IsTrue (S.is_honest source.old) →
        text.items ≡ take most (S.left source.old)) }
    ensures short { IfOk result (λ text. length text.items ≤ most) }
    ensures stop { IfErr result (ClaimReadStops (Fails (S.reads source.old) (S.reads source.new))
        (S.reads source.new ≡ S.reads source.old)) }
{
    let mut text = vec![in alloc; 0u8; most]?;
    match fill(source, &mut text) {
        Ok(count) => {
            text.truncate(count);
            Ok(text)
        }
        Err(_) => Err(Refusal::Reading(Role::Claim)),
    }
}

/// Opens a claim and reads its text: all of it, or its first 65,537 bytes.
///
/// The error is `CannotOpen` or `Reading`, of the claim, or want of memory.
pub fn claim_text<R: Files + AllocGlobal>(rt: &R, path: &str) -> Result<Vec<u8>, Refusal>
    ensures short { IfOk result (λ text. length text.items ≤ 65537) }
    ensures stop { IfErr result ClaimTextStops }
{
    let file = open(rt, path, Role::Claim)?;
    text_of(rt.alloc(), &mut ReadSource::new(file), CLAIM_BYTES)
}
