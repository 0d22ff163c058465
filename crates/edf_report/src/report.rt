//! The text of a report on one file, and what is written of a file that can't be read.

ghost use Rattle.std.specs.Prelude.{◌≡◌, ◌≢◌, IfOk, IfErr, OnOk, OnErr, IsTrue};
ghost use Rattle.edf_fields.specs.in_out.Sources.{Rises};
ghost use Rattle.edf_header.specs.declared.stop.Stop.TheVariants as read_stops;
ghost use Rattle.edf_stop.specs.declared.stops.ReportStop.TheVariants as stops;
ghost use Rattle.edf_stop.specs.Stops.{ReportStops};
ghost use Rattle.edf_report.specs.Reports.{fault_line, stop_line, HoldsPart, IsFault, IsFaultReport, IsPut, IsStopPut, StopsPutting};

use edf_fields::{Fault, Sink, put_all};
use edf_header::Stop;
use edf_stop::ReportStop;
use edf_verdict::Outcome;
use std::alloc::{AllocError, Global};

/// The text of a report and its outcome.
#[derive(Drop)]
pub struct Report {
    /// All that is written.
    pub text: Vec<u8>,
    /// `Yes` where the file has no fault.
    pub outcome: Outcome,
}

/// The line of a fault.
fn fault_line(alloc: Global, fault: &Fault) -> Result<Vec<u8>, AllocError>
    ensures { IfOk result (λ line. line.items ≡ fault_line fault.now) }
{
    let mut line = Vec::new(alloc);
    line.extend_from_slice("FAULT ".as_bytes())?;
    line.extend_from_slice(fault.text(alloc)?.as_bytes())?;
    line.push(b'\n')?;
    Ok(line)
}

impl Report {
    /// What stopped the reading of a file: a fault is reported, by its line and `No`, and all else stops the report, too.
    ///
    /// The error is want of memory, or the failed read that stopped it.
    pub fn of_stop(alloc: Global, stop: Stop) -> Result<Report, ReportStop>
        ensures report { IfOk result (λ report. IsFaultReport stop report.text.items report.outcome) }
        ensures stop { IfErr result
            (ReportStops (stop ≡ read_stops.ReadFailed) ⊥ (stop ≢ read_stops.ReadFailed)) }
    {
        match stop {
            Stop::Fault(fault) => Ok(Report {
                text: fault_line(alloc, &fault)?,
                outcome: Outcome::No,
            }),
            Stop::OutOfMemory => Err(ReportStop::OutOfMemory),
            Stop::ReadFailed => Err(ReportStop::ReadFailed),
        }
    }

    /// Writes the report, and gives its outcome.
    ///
    /// The error is that the sink failed; a front of the text was written then.
    pub fn put<K: Sink>(&self, sink: &mut K) -> Result<Outcome, ReportStop>
        ensures written { IfOk result (IsPut K.Sink self.now sink.old sink.new) }
        ensures failures { OnOk result (K.failures sink.new ≡ K.failures sink.old) }
        ensures honesty { IsTrue (K.is_honest sink.old) → IsTrue (K.is_honest sink.new) }
        ensures part { OnErr result (HoldsPart K.Sink sink.old sink.new self.now.text.items) }
        ensures stop { IfErr result (λ stop. (stop ≡ stops.WriteFailed) ×
            Rises (K.failures sink.old) (K.failures sink.new)) }
    {
        put_all(sink, &self.text)?;
        Ok(self.outcome)
    }
}

/// Writes what stopped the reading of a file: the line of a fault, with the outcome `No`. All else stops the
/// report, too.
pub(crate) fn put_stop<K: Sink>(
    alloc: Global,
    sink: &mut K,
    stop: Stop,
) -> Result<Outcome, ReportStop>
    ensures fault { OnOk result (IsFault stop) }
    ensures written { IfOk result (IsStopPut K.Sink stop sink.old sink.new) }
    ensures failures { OnOk result (K.failures sink.new ≡ K.failures sink.old) }
    ensures honesty { IsTrue (K.is_honest sink.old) → IsTrue (K.is_honest sink.new) }
    ensures part { OnErr result (HoldsPart K.Sink sink.old sink.new (stop_line stop)) }
    ensures stop { IfErr result (StopsPutting stop K.Sink sink.old sink.new) }
{
    let report = Report::of_stop(alloc, stop)?;
    report.put(sink)
}
