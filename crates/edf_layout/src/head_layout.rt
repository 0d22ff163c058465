//! The layout of the header of a file, for a person to read.

ghost use Rattle.std.specs.Prelude.{◌≡◌, ◌≢◌, ◌≤◌, ◌++◌, ◌==◌, if◌then◌else◌, length, map, drop, codes, IfOk, IfErr, OnOk, OnErr, IsTrue};
ghost use Rattle.edf_fields.specs.in_out.Sinks.{HoldsPrefix};
ghost use Rattle.edf_fields.specs.in_out.Sources.{Fails, Rises};
ghost use Rattle.edf_header.specs.Heads.{header_bytes};
ghost use Rattle.edf_header.specs.HeadsReading.{head_of};
ghost use Rattle.edf_report.specs.Reports.{StopsReading};
ghost use Rattle.edf_stop.specs.declared.stops.ReportStop.TheVariants as stops;
ghost use Rattle.edf_stop.specs.Stops.{ReportStops};
ghost use Rattle.edf_layout.specs.HeadFiles.{IsWhole};
ghost use Rattle.edf_layout.specs.HeadLayouts.{layout_in};
ghost use Rattle.edf_layout.specs.HeadReports.{last_line, plain_outcome, laid_out, places_of, layout_report, head_layout_text, head_layout_outcome, IsLayoutReport};
ghost use Rattle.edf_layout.specs.OddPlaces.{place_lines};

use crate::head_file::{HeadFile, read_head};
use crate::head_lines::push_head_lines;
use crate::odd_places::{Lines, push_odd_places};
use crate::signal_fields::RawSignals;
use edf_fields::{Sink, Source};
use edf_report::Report;
use edf_stop::ReportStop;
use edf_verdict::Outcome;
use std::alloc::{AllocError, Global};

/// Puts the lines behind the text, each with its end.
pub(crate) fn push_places(text: &mut Vec<u8>, places: &[Vec<u8>]) -> Result<(), AllocError>
    ensures { OnOk result (text.new.items ≡ text.old.items ++ place_lines (map (λ v. v.items) places.now)) }
{
    for place in places {
        text.extend_from_slice(place)?;
        text.push(b'\n')?;
    }
    Ok(())
}

/// The last line: whether the header is plain, or how many places aren't.
#[tactic(auto, unfolding(crate::specs::HeadReports::last_line))]
fn last_line(alloc: Global, count: usize) -> Result<Vec<u8>, AllocError>
    ensures { IfOk result (λ line. line.items ≡ last_line count) }
{
    let line = if count == 0 {
        format!(in alloc; "HEADER PLAIN\n")?
    } else {
        format!(in alloc; "HEADER NOT PLAIN {count}\n")?
    };
    Ok(line.into_bytes())
}

/// The outcome of so many places that aren't plain.
pub(crate) fn plain_outcome(count: usize) -> Outcome
    ensures { result ≡ plain_outcome count }
{
    if count == 0 {
        Outcome::Yes
    } else {
        Outcome::No
    }
}

/// The report of some lines, and of these places behind them.
#[tactic(auto, unfolding(crate::specs::HeadReports::laid_out))]
fn report_of(alloc: Global, lines: Vec<u8>, places: &[Vec<u8>]) -> Result<Report, AllocError>
    ensures text { IfOk result (λ r. r.text.items ≡ laid_out lines.items (map (λ v. v.items) places.now)) }
    ensures outcome { IfOk result (λ r. r.outcome ≡ plain_outcome (length places.now)) }
{
    let mut text = lines;
    push_places(&mut text, places)?;
    let last = last_line(alloc, places.len())?;
    text.extend_from_slice(&last)?;
    Ok(Report {
        text,
        outcome: plain_outcome(places.len()),
    })
}

/// The report of a header that was read.
fn laid_out(alloc: Global, file: &HeadFile) -> Result<Report, AllocError>
    requires { IsWhole file.now.front.items file.now.columns.items file.now.header }
    ensures text { IfOk result (λ r. r.text.items ≡ layout_report (layout_in file.now.front.items
        (length file.now.header.signals) file.now.columns.items) file.now.header) }
    ensures outcome { IfOk result (λ r. r.outcome ≡ plain_outcome (length (places_of (layout_in
        file.now.front.items (length file.now.header.signals) file.now.columns.items) file.now.header))) }
{
    let signals = RawSignals {
        columns: &file.columns,
        count: file.header.signals().len(),
    };
    let mut text = Vec::new(alloc);
    push_head_lines(&mut text, alloc, &file.front, signals)?;
    let mut places = Lines::new(alloc);
    push_odd_places(&mut places, alloc, &file.front, signals, &file.header)?;
    report_of(alloc, text, &places)
}

/// The lines of the layout of a header, or that of its fault.
fn report<S: Source>(alloc: Global, source: &mut S) -> Result<Report, ReportStop>
    ensures report { IfOk result (λ r. IsLayoutReport S.Source source.old r.text.items r.outcome) }
    ensures failures { OnOk result (S.reads source.new ≡ S.reads source.old) }
    ensures stop { IfErr result (StopsReading S.Source source.old source.new) }
{
    match read_head(alloc, source) {
        Ok(file) => Ok(laid_out(alloc, &file)?),
        Err(stop) => Report::of_stop(alloc, stop),
    }
}

/// Reads the header of a file, and no byte behind it, and writes its layout: what its bytes hold besides what it says.
///
/// These are the kind, the numbers as they are spelled, how many spaces stand between the subfields of the two
/// identifications, and the signals in their order; then a line for each place that isn't in plain form, and whether
/// there is one. Or it writes the first fault of the header, as `conform_to` does.
///
/// The outcome is `Yes` exactly where the header has no fault and is plain. The errors are want of memory, a failed
/// read and a failed write. Nothing is written before the header was read; where the sink fails, a front of the text
/// was written.
pub fn head_layout_to<S: Source, K: Sink>(
    alloc: Global,
    source: &mut S,
    sink: &mut K,
) -> Result<Outcome, ReportStop>
    ensures written { IfOk result (λ outcome. IsTrue (S.is_honest source.old) →
        IsTrue (K.is_honest sink.old) →
        (K.held sink.new ≡ K.held sink.old ++ head_layout_text (S.left source.old))
        × (outcome ≡ head_layout_outcome (S.left source.old))) }
    ensures nothing { IfErr result (λ stop. stop ≢ stops.WriteFailed → sink.new ≡ sink.old) }
    ensures part { OnErr result (IsTrue (S.is_honest source.old) → IsTrue (K.is_honest sink.old) →
        HoldsPrefix (K.held sink.old) (K.held sink.new) (head_layout_text (S.left source.old))) }
    ensures reads { OnOk result (S.reads source.new ≡ S.reads source.old) }
    ensures failures { OnOk result (K.failures sink.new ≡ K.failures sink.old) }
    ensures honesty { IsTrue (K.is_honest sink.old) → IsTrue (K.is_honest sink.new) }
    ensures stop { IfErr result (ReportStops (Fails (S.reads source.old) (S.reads source.new))
        (Rises (K.failures sink.old) (K.failures sink.new)) (S.reads source.new ≡ S.reads source.old)) }
{
    let report = report(alloc, source)?;
    report.put(sink)
}
