//! Laws of receipts, each the contract of a function that does nothing, or no more than it says.

ghost use Rattle.edf_receipt.specs.Laws.{PartsRunIsLastLine, RunIsLastLine, TextTellsLine};
ghost use Rattle.edf_receipt.specs.ReceiptRuns.{IsFreshOver};

use crate::digest_source::DigestSource;
use edf_check::laws::{there_is_one_verdict, there_is_one_verdict_on_parts};
use edf_claim::laws::tables_say_one_claim;
use edf_fields::Source;

/// The text of a receipt of so many files determines the line of the verdict.
pub fn a_receipt_tells_its_line()
    ensures { TextTellsLine }
{}

/// What a run of the check writes of files is the last line of their receipt, and the outcome is the same.
pub fn a_run_writes_the_last_line()
    ensures one { RunIsLastLine }
    ensures several { PartsRunIsLastLine }
{
    tables_say_one_claim();
    there_is_one_verdict();
    there_is_one_verdict_on_parts();
}

/// Of a new source that digests an honest one nothing was read, as a receipt wants it.
pub fn a_new_source_is_fresh<S: Source + Drop>(source: S) -> DigestSource<S>
    ensures { IsFreshOver S.Source source ⟦<DigestSource<S> as Source>⟧ result }
{
    DigestSource::new(source)
}
