//! The worked rows: files and claims built in memory, run, and their lines compared with those that are
//! stored for them.

ghost use Rattle.std.specs.Prelude.{◌≡◌, ◌++◌, map, IfOk, IfErr, OnOk, IsTrue};
ghost use Rattle.edf_fields.specs.in_out.Sources.{Rises};
ghost use Rattle.edf_rows.specs.Rows.{row_of};
ghost use Rattle.edf_vectors.specs.Vectors.{row_text, RowStops, IsRowWritten, AreAllRowsWritten};

use crate::row_line::line_of_row;
use edf_fields::{Sink, put_all};
use edf_rows::{Row, worked_rows};
use edf_stop::ReportStop;
use edf_verdict::Outcome;
use std::alloc::{AllocError, Global};

/// The text that a row writes: its number, a space, and the line.
#[tactic(auto, unfolding(crate::specs::Vectors::row_text))]
fn row_text(alloc: Global, number: u8, line: &[u8]) -> Result<Vec<u8>, AllocError>
    ensures { IfOk result (λ text. text.items ≡ row_text number line.now) }
{
    let mut text = Vec::new(alloc);
    text.extend_from_slice(number.to_string(alloc)?.as_bytes())?;
    text.extend_from_slice(b" ")?;
    text.extend_from_slice(line)?;
    Ok(text)
}

/// Runs a row and writes its number, a space and the line: `Yes` where it is the stored one.
fn write_row<K: Sink>(alloc: Global, row: &Row, sink: &mut K) -> Result<Outcome, ReportStop>
    ensures failures { OnOk result (K.failures sink.new ≡ K.failures sink.old) }
    ensures honesty { OnOk result (IsTrue (K.is_honest sink.old) → IsTrue (K.is_honest sink.new)) }
    ensures written { IfOk result (λ outcome. IsTrue (K.is_honest sink.old) →
        IsRowWritten (row_of row.now) (K.held sink.old) (K.held sink.new) outcome) }
    ensures stop { IfErr result (RowStops (Rises (K.failures sink.old) (K.failures sink.new))) }
{
    let line = line_of_row(alloc, row)?;
    let text = row_text(alloc, row.number, line.bytes())?;
    put_all(sink, &text)?;
    if line.bytes() == row.stored.as_bytes() {
        Ok(Outcome::Yes)
    } else {
        Ok(Outcome::No)
    }
}

/// Writes, for each worked row, its number, a space and the line of its run: first the rows of one export, and then
/// those of several.
///
/// The files of a row are built when its turn comes, and a row is written before the next is run. The
/// outcome is `Yes` where every line is the stored one. The error is want of memory, or a failure of the
/// sink; the rows before it stay written. The files stand in memory, so that no read fails.
pub fn vectors_to<K: Sink>(alloc: Global, sink: &mut K) -> Result<Outcome, ReportStop>
    ensures written { IfOk result (λ outcome. IsTrue (K.is_honest sink.old) →
        AreAllRowsWritten (K.held sink.old) (K.held sink.new) outcome) }
    ensures stop { IfErr result (RowStops (Rises (K.failures sink.old) (K.failures sink.new))) }
{
    let rows = worked_rows();
    let mut outcome = Outcome::Yes;
    for row in rows {
        outcome = outcome.and(write_row(alloc, row, sink)?);
    }
    Ok(outcome)
}
