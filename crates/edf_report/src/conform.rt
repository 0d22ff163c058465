//! Whether a file conforms to the profile, in one line.

ghost use Rattle.std.specs.Prelude.{◌≡◌, ◌≢◌, IfOk, IfErr, OnOk, OnErr, IsTrue};
ghost use Rattle.edf_fields.specs.in_out.Sinks.{HoldsPrefix};
ghost use Rattle.edf_fields.specs.in_out.Sources.{Fails, Rises};
ghost use Rattle.edf_stream.specs.Faults.{file_fault};
ghost use Rattle.edf_stop.specs.declared.stops.ReportStop.TheVariants as stops;
ghost use Rattle.edf_report.specs.ConformTexts.{counts_line, conform_text};
ghost use Rattle.edf_report.specs.Reports.{IsReportBy, IsReported, StopsReading};
ghost use Rattle.edf_stop.specs.Stops.{ReportStops};

use crate::report::Report;
use edf_fields::{Sink, Source};
use edf_stop::ReportStop;
use edf_stream::{Summary, conform};
use edf_verdict::Outcome;
use std::alloc::{AllocError, Global};

/// The line of how much a file holds.
#[tactic(auto, unfolding(crate::specs::ConformTexts::counts_line))]
fn counts_line(alloc: Global, summary: &Summary) -> Result<Vec<u8>, AllocError>
    ensures { IfOk result (λ line.
        line.items ≡ counts_line summary.now.records summary.now.channels summary.now.samples
        summary.now.annotations) }
{
    let line = format!(in alloc;
        "CONFORMS records {} channels {} samples {} annotations {}\n",
        summary.records, summary.channels, summary.samples, summary.annotations
    )?;
    Ok(line.into_bytes())
}

/// The line of a file, and `Yes` where it conforms.
fn report<S: Source>(alloc: Global, source: &mut S) -> Result<Report, ReportStop>
    ensures report { IfOk result (λ r.
        IsReportBy S.Source source.old conform_text file_fault r.text.items r.outcome) }
    ensures failures { OnOk result (S.reads source.new ≡ S.reads source.old) }
    ensures stop { IfErr result (StopsReading S.Source source.old source.new) }
{
    match conform(alloc, source) {
        Ok(summary) => Ok(Report {
            text: counts_line(alloc, &summary)?,
            outcome: Outcome::Yes,
        }),
        Err(stop) => Report::of_stop(alloc, stop),
    }
}

/// Reads a whole file, and writes one line: how much it holds, where it conforms to the profile, which
/// docs/PROFILE.md tells, or its first fault.
///
/// The outcome is `Yes` exactly where the file conforms. The errors are want of memory, a failed read and
/// a failed write. Nothing is written before the file was read; where the sink fails, a front of the line
/// was written.
pub fn conform_to<S: Source, K: Sink>(
    alloc: Global,
    source: &mut S,
    sink: &mut K,
) -> Result<Outcome, ReportStop>
    ensures written { IfOk result (λ outcome. IsTrue (S.is_honest source.old) →
        IsTrue (K.is_honest sink.old) →
        IsReported (conform_text (S.left source.old)) (file_fault (S.left source.old)) (K.held sink.old)
        (K.held sink.new) outcome) }
    ensures nothing { IfErr result (λ stop. stop ≢ stops.WriteFailed → sink.new ≡ sink.old) }
    ensures part { OnErr result (IsTrue (S.is_honest source.old) → IsTrue (K.is_honest sink.old) →
        HoldsPrefix (K.held sink.old) (K.held sink.new) (conform_text (S.left source.old))) }
    ensures reads { OnOk result (S.reads source.new ≡ S.reads source.old) }
    ensures failures { OnOk result (K.failures sink.new ≡ K.failures sink.old) }
    ensures honesty { IsTrue (K.is_honest sink.old) → IsTrue (K.is_honest sink.new) }
    ensures stop { IfErr result (ReportStops (Fails (S.reads source.old) (S.reads source.new))
        (Rises (K.failures sink.old) (K.failures sink.new)) (S.reads source.new ≡ S.reads source.old)) }
{
    let report = report(alloc, source)?;
    report.put(sink)
}
