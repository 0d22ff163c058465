//! The files that were judged, each read to its end.

ghost use Rattle.std.specs.Prelude.{◌≡◌, ◌+◌, ◌<◌, ◌≤◌, length, IfOk, IfErr, OnOk, OnErr};
ghost use Rattle.edf_check.specs.Checks.{CheckStopsOf};
ghost use Rattle.edf_pace.specs.PartsStops.{StopsOfAll};
ghost use Rattle.edf_receipt.specs.Digests.{FailsReading};
ghost use Rattle.edf_receipt.specs.ReceiptRuns.{AreFilesOf, AreFilesOfAll, ArePartsOf, IsLineOf, NeitherFails, NoneOfAllFails, NoPartFails, StopsOfParts};
ghost use Rattle.edf_receipt.specs.Receipts.{line_of as line_naming};
ghost use Rattle.edf_receipt.specs.declared.file_line.ReceiptFile.TheVariants as names;

use crate::digest_source::{DigestSource, digest_of};
use crate::file_line::{FileLine, ReceiptFile};
use edf_fields::{ReadFault, Source};
use edf_stop::{CheckStop, PartSide, PartsStop, Side};
use std::alloc::Global;

/// How many bytes are read at a time behind what the check has read.
const AT_A_TIME: usize = 65_536;

/// Reads a file to its end, and gives the line that names it.
///
/// The error is a failure of the source.
fn line_of<S: Source + Drop>(
    file: ReceiptFile,
    source: &mut DigestSource<S>,
    buf: &mut [u8],
) -> Result<FileLine, ReadFault>
    requires { 0 < length buf.old }
    ensures line { IfOk result (IsLineOf ⟦<DigestSource<S> as Source>⟧ source.old file) }
    ensures room { length buf.new ≡ length buf.old }
    ensures failures { OnOk result (⟦<DigestSource<S> as Source>⟧.reads source.new ≡
        ⟦<DigestSource<S> as Source>⟧.reads source.old) }
    ensures fails { OnErr result (FailsReading ⟦<DigestSource<S> as Source>⟧ source.old source.new) }
{
    let digested = source.finish(buf)?;
    Ok(FileLine { file, digested })
}

/// The line that names a claim of this text.
fn claim_line(text: &[u8]) -> FileLine
    ensures { result ≡ line_naming names.Claim text.now }
{
    FileLine {
        file: ReceiptFile::Claim,
        digested: digest_of(text),
    }
}

/// The lines that name the files of a check, of which both recordings are read to their ends.
///
/// The error is want of memory, or a failure of one of the sources.
pub(crate) fn files_of<O: Source + Drop, E: Source + Drop>(
    alloc: Global,
    original: &mut DigestSource<O>,
    export: &mut DigestSource<E>,
    claim_text: &[u8],
) -> Result<[FileLine; 3], CheckStop>
    ensures files { IfOk result
        (AreFilesOf ⟦<DigestSource<O> as Source>⟧ ⟦<DigestSource<E> as Source>⟧ original.old export.old
        claim_text.now) }
    ensures failures { OnOk result
        (NeitherFails ⟦<DigestSource<O> as Source>⟧ ⟦<DigestSource<E> as Source>⟧ original.old original.new
        export.old export.new) }
    ensures stop { IfErr result
        (CheckStopsOf ⟦<DigestSource<O> as Source>⟧ ⟦<DigestSource<E> as Source>⟧ original.old original.new
        export.old export.new) }
{
    let mut buf = vec![in alloc; 0u8; AT_A_TIME]?;
    let Ok(first) = line_of(ReceiptFile::Original, original, &mut buf) else {
        return Err(CheckStop::ReadFailed(Side::Original));
    };
    let Ok(second) = line_of(ReceiptFile::Export, export, &mut buf) else {
        return Err(CheckStop::ReadFailed(Side::Export));
    };
    Ok([first, second, claim_line(claim_text)])
}

/// Reads exports to their ends, and puts the lines that name them behind those of other files; the first has this number.
///
/// The error is want of memory, or a failure of one of the sources.
fn push_parts<E: Source + Drop>(
    parts: &mut [DigestSource<E>],
    first: u16,
    buf: &mut [u8],
    files: &mut Vec<FileLine>,
) -> Result<(), PartsStop>
    requires few { first + length parts.old ≤ 64 }
    requires room { 0 < length buf.old }
    ensures files { OnOk result (ArePartsOf ⟦<DigestSource<E> as Source>⟧ parts.old first files.old.items
        files.new.items) }
    ensures failures { OnOk result (NoPartFails ⟦<DigestSource<E> as Source>⟧ parts.old parts.new) }
    ensures stop { IfErr result (StopsOfParts ⟦<DigestSource<E> as Source>⟧ first parts.old parts.new) }
{
    let Some((part, others)) = parts.split_first_mut() else {
        return Ok(());
    };
    let Ok(line) = line_of(ReceiptFile::Part(first), part, buf) else {
        return Err(PartsStop::ReadFailed(PartSide::Part(first)));
    };
    files.push(line)?;
    push_parts(others, first + 1, buf, files)
}

/// The lines that name the files of a check of several exports, of which all recordings are read to their ends.
///
/// The error is want of memory, or a failure of one of the sources.
pub(crate) fn files_of_parts<O: Source + Drop, E: Source + Drop>(
    alloc: Global,
    original: &mut DigestSource<O>,
    parts: &mut [DigestSource<E>],
    claim_text: &[u8],
) -> Result<Vec<FileLine>, PartsStop>
    requires few { length parts.old ≤ 64 }
    ensures files { IfOk result (λ files.
        AreFilesOfAll ⟦<DigestSource<O> as Source>⟧ ⟦<DigestSource<E> as Source>⟧ original.old parts.old
        claim_text.now files.items) }
    ensures failures { OnOk result
        (NoneOfAllFails ⟦<DigestSource<O> as Source>⟧ ⟦<DigestSource<E> as Source>⟧ original.old original.new
        parts.old parts.new) }
    ensures stop { IfErr result
        (StopsOfAll ⟦<DigestSource<O> as Source>⟧ original.old original.new ⟦<DigestSource<E> as Source>⟧ 0
        parts.old parts.new) }
{
    let mut buf = vec![in alloc; 0u8; AT_A_TIME]?;
    let mut files = Vec::with_capacity(alloc, parts.len() + 2)?;
    let Ok(first) = line_of(ReceiptFile::Original, original, &mut buf) else {
        return Err(PartsStop::ReadFailed(PartSide::Original));
    };
    files.push(first)?;
    push_parts(parts, 0, &mut buf, &mut files)?;
    files.push(claim_line(claim_text))?;
    Ok(files)
}
