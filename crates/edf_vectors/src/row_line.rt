//! The line of a worked row: its files and its claim built in memory, and run.

ghost use Rattle.std.specs.Prelude.{◌≡◌, ◌<◌, ◌≤◌, map, length, IfOk, IsTrue};
ghost use Rattle.std.specs.List.{AllByRecursion};
ghost use Rattle.edf_rows.specs.Rows.{are_several};
ghost use Rattle.edf_vectors.specs.Vectors.{IsLine, IsLineOfRow, IsPartsLine};

use crate::line_sink::Line;
use edf_check::{run, run_parts};
use edf_fields::{Sink, SliceSource, Source};
use edf_rows::{Exports, Row, bytes_of, claim_text};
use edf_stop::{PartsRunStop, RunStop};
use std::alloc::{AllocError, Global};

/// The line that a run writes on two files in memory.
///
/// The error is want of memory. A claim that is refused would be answered so, too: the claims of the
/// worked rows aren't.
fn line_of(alloc: Global, original: &[u8], export: &[u8], claim: &[u8]) -> Result<Line, AllocError>
    ensures { IfOk result (λ line. IsLine original.now export.now claim.now (⟦<Line as Sink>⟧.held line)) }
{
    let mut first = SliceSource::new(original);
    let mut second = SliceSource::new(export);
    let mut line = Line::new(alloc);
    match run(alloc, &mut first, &mut second, claim, &mut line) {
        Ok(_) => Ok(line),
        Err(RunStop::ReadFailed(_)) => unreachable!(),
        Err(_) => Err(AllocError),
    }
}

/// The line that a run writes on an original and exports in memory.
///
/// The error is want of memory. A claim that is refused would be answered so, too.
fn line_of_parts<'a>(
    alloc: Global,
    original: &[u8],
    parts: &mut [SliceSource<'a>],
    claim: &[u8],
) -> Result<Line, AllocError>
    requires some { 0 < length parts.old }
    requires few { length parts.old ≤ 64 }
    ensures { IfOk result (λ line.
        AllByRecursion IsTrue (map ⟦<SliceSource<'a> as Source>⟧.is_honest parts.old) →
        IsPartsLine original.now (map ⟦<SliceSource<'a> as Source>⟧.left parts.old) claim.now
        (⟦<Line as Sink>⟧.held line)) }
{
    let mut whole = SliceSource::new(original);
    let mut line = Line::new(alloc);
    match run_parts(alloc, &mut whole, parts, claim, &mut line) {
        Ok(_) => Ok(line),
        Err(PartsRunStop::ReadFailed(_)) => unreachable!(),
        Err(_) => Err(AllocError),
    }
}

/// The line of a row's run.
pub(crate) fn line_of_row(alloc: Global, row: &Row) -> Result<Line, AllocError>
    ensures { IfOk result (λ line. IsLineOfRow (are_several row.now.exports) (⟦<Line as Sink>⟧.held line)) }
{
    let original = bytes_of(alloc, &row.original)?;
    let claim = claim_text(alloc, row.claim)?;
    match row.exports {
        Exports::One(file) => line_of(alloc, &original, &bytes_of(alloc, &file)?, &claim),
        Exports::Several(file, None) => {
            let first = bytes_of(alloc, &file)?;
            line_of_parts(alloc, &original, &mut [SliceSource::new(&first)], &claim)
        }
        Exports::Several(file, Some(behind)) => {
            let first = bytes_of(alloc, &file)?;
            let second = bytes_of(alloc, &behind)?;
            let mut parts = [SliceSource::new(&first), SliceSource::new(&second)];
            line_of_parts(alloc, &original, &mut parts, &claim)
        }
    }
}
