//! What a file says, for a person to read.

ghost use Rattle.std.specs.Prelude.{◌≡◌, ◌≢◌, IfOk, IfErr, OnOk, IsTrue};
ghost use Rattle.edf_fields.specs.in_out.Sources.{Fails, Rises};
ghost use Rattle.edf_report.specs.Reports.{StopsReading};
ghost use Rattle.edf_stop.specs.Stops.{ReportStops};
ghost use Rattle.edf_stop.specs.declared.stops.ReportStop.TheVariants as stops;
ghost use Rattle.edf_read.specs.ReadTexts.{IsPartRead, IsReadText, IsReadWritten};

use crate::head::say_head;
use crate::notes::say_notes;
use edf_fields::{Sink, Source};
use edf_recording::{Recorded, read_through};
use edf_report::Report;
use edf_sentences::Text;
use edf_stop::ReportStop;
use edf_verdict::Outcome;
use std::alloc::{AllocError, Global};

/// The text of a file that conforms.
fn text_of(alloc: Global, mut recorded: Recorded) -> Result<Vec<u8>, AllocError> {
    let mut text = Text::new(alloc);
    say_head(&mut text, &recorded)?;
    say_notes(&mut text, &mut recorded)?;
    Ok(text.into_bytes())
}

/// The text of a file, and `Yes` where it conforms; or the line of its first fault.
fn report<S: Source>(alloc: Global, source: &mut S) -> Result<Report, ReportStop>
    ensures report { IfOk result (λ r. IsTrue (S.is_honest source.old) →
        IsReadText (S.left source.old) r.text.items r.outcome) }
    ensures failures { OnOk result (S.reads source.new ≡ S.reads source.old) }
    ensures stop { IfErr result (StopsReading S.Source source.old source.new) }
{
    match read_through(alloc, source) {
        Ok(recorded) => Ok(Report {
            text: text_of(alloc, recorded)?,
            outcome: Outcome::Yes,
        }),
        Err(stop) => Report::of_stop(alloc, stop),
    }
}

/// Reads a whole file, and writes for a person to read what its header says and its annotations: times by the clock and in
/// seconds, values with a dot, and letters that a terminal hides, turns or obeys by their numbers. Annotations stand in the order of
/// time, and equal ones in one line.
///
/// A file with a fault has the line of its first fault alone, as `conform_to` writes it. The outcome is `Yes` exactly where the file
/// conforms. The errors are want of memory, a failed read and a failed write. Nothing is written before the file was read; where
/// the sink fails, a front of the text was written.
pub fn read_to<S: Source, K: Sink>(
    alloc: Global,
    source: &mut S,
    sink: &mut K,
) -> Result<Outcome, ReportStop>
    ensures written { IfOk result (λ outcome. IsTrue (S.is_honest source.old) →
        IsTrue (K.is_honest sink.old) →
        IsReadWritten (S.left source.old) (K.held sink.old) (K.held sink.new) outcome) }
    ensures nothing { IfErr result (λ stop. stop ≢ stops.WriteFailed → sink.new ≡ sink.old) }
    ensures part { IfErr result (λ stop. stop ≡ stops.WriteFailed → IsTrue (S.is_honest source.old) →
        IsTrue (K.is_honest sink.old) → IsPartRead (S.left source.old) (K.held sink.old) (K.held sink.new)) }
    ensures reads { OnOk result (S.reads source.new ≡ S.reads source.old) }
    ensures failures { OnOk result (K.failures sink.new ≡ K.failures sink.old) }
    ensures honesty { IsTrue (K.is_honest sink.old) → IsTrue (K.is_honest sink.new) }
    ensures stop { IfErr result (ReportStops (Fails (S.reads source.old) (S.reads source.new))
        (Rises (K.failures sink.old) (K.failures sink.new)) (S.reads source.new ≡ S.reads source.old)) }
{
    let report = report(alloc, source)?;
    report.put(sink)
}
