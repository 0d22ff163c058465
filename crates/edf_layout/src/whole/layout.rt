//! The layout of a file, for a person to read.

ghost use Rattle.std.specs.Prelude.{◌≡◌, ◌≢◌, ◌<◌, ◌≤◌, ◌+◌, ◌^◌, ◌++◌, ℕ, List, length, map, IfOk, IfErr, OnOk, OnErr, IsTrue};
ghost use Rattle.edf_fields.specs.in_out.Sinks.{HoldsPrefix};
ghost use Rattle.edf_fields.specs.in_out.Sources.{Fails, Rises};
ghost use Rattle.edf_report.specs.Reports.{StopsReading};
ghost use Rattle.edf_stop.specs.declared.stops.ReportStop.TheVariants as stops;
ghost use Rattle.edf_stop.specs.Stops.{ReportStops};
ghost use Rattle.edf_verdict.specs.declared.outcome.Outcome.{Outcome as OutcomeValue};
ghost use Rattle.edf_layout.specs.HeadFiles.{IsWhole};
ghost use Rattle.edf_layout.specs.HeadLayouts.{layout_in};
ghost use Rattle.edf_layout.specs.HeadTexts.{head_lines};
ghost use Rattle.edf_layout.specs.RawSignals.{AreRaw};
ghost use Rattle.edf_layout.specs.HeadReports.{plain_outcome as outcome_of};
ghost use Rattle.edf_layout.specs.OddPlaces.{place_lines};
ghost use Rattle.edf_layout.specs.body.BodyLayouts.{BodyLayout};
ghost use Rattle.edf_layout.specs.body.FileLayouts.{ending, lane_line, lane_lines, order_line};
ghost use Rattle.edf_layout.specs.body.PlainLanes.{order_view};
ghost use Rattle.edf_layout.specs.body.PlainOrders.{OneByOne, ByTime, lane_sizes as sizes_of};
ghost use Rattle.edf_layout.specs.whole.FileBodies.{IsSoundBody, lanes_kept, notes_kept};
ghost use Rattle.edf_layout.specs.whole.LaneRows.{HaveRowLayouts, IsLaidBody, odd_view};
ghost use Rattle.edf_layout.specs.whole.LayoutTexts.{IsLayoutOf, IsLayoutText, IsTextOf, layout_kept, layout_made};
ghost use Rattle.std.specs.List.{flat_map};

use crate::head_file::HeadFile;
use crate::head_layout::{plain_outcome, push_places};
use crate::head_lines::push_head_lines;
use crate::laid_tal::push_tals;
use crate::odd_places::{Lines, push_odd_places};
use crate::plain_lanes::{Order, do_orders_agree};
use crate::signal_fields::RawSignals;
use crate::whole::file_body::FileBody;
use crate::whole::odd_lanes::{OddLane, odd_lanes};
use crate::whole::whole_file::{WholeFile, read_file};
use edf_fields::{Sink, Source};
use edf_header::Header;
use edf_report::Report;
use edf_stop::ReportStop;
use edf_verdict::Outcome;
use std::alloc::{AllocError, Global};

/// The layout of the data records of a file.
#[derive(Debug, Drop)]
pub struct LaidBody<'a> {
    /// The plain order that fits best.
    pub order: Order,
    /// The annotation lanes that this order has otherwise.
    pub odd: Vec<OddLane<'a>>,
}

/// How many bytes each annotation lane of a data record has.
fn lane_sizes(alloc: Global, header: &Header) -> Result<Vec<usize>, AllocError>
    ensures { IfOk result (λ sizes. sizes.items ≡ sizes_of header.now) }
{
    let mut sizes = Vec::new(alloc);
    for place in header.annotation_places() {
        sizes.push(2 * place.samples as usize)?;
    }
    Ok(sizes)
}

/// The order that fewer lanes differ from, and these lanes; where as many do, the first order.
fn best_of<'a>(by_time: Vec<OddLane<'a>>, one_by_one: Vec<OddLane<'a>>) -> LaidBody<'a>
    ensures by_time { length by_time.entry.items < length one_by_one.entry.items →
        (order_view result.order ≡ ByTime) × (result.odd.items ≡ by_time.entry.items) }
    ensures one_by_one { length one_by_one.entry.items ≤ length by_time.entry.items →
        (order_view result.order ≡ OneByOne) × (result.odd.items ≡ one_by_one.entry.items) }
{
    if by_time.len() < one_by_one.len() {
        LaidBody {
            order: Order::ByTime,
            odd: by_time,
        }
    } else {
        LaidBody {
            order: Order::OneByOne,
            odd: one_by_one,
        }
    }
}

/// The order that fewer lanes of a file differ from, and these lanes; where as many do, the first order.
fn lay_body<'a>(
    alloc: Global,
    body: &'a FileBody,
    sizes: &[usize],
) -> Result<LaidBody<'a>, AllocError>
    requires { IsSoundBody body.now }
    ensures { IfOk result (λ laid. (layout : BodyLayout) →
        HaveRowLayouts (notes_kept body.entry.now) (lanes_kept sizes.now body.entry.now) layout →
        IsLaidBody (notes_kept body.entry.now) sizes.now body.entry.now.starts.items layout
        (order_view laid.order) (map odd_view laid.odd.items)) }
{
    let by_time = odd_lanes(alloc, Order::ByTime, body, sizes, usize::MAX)?;
    if do_orders_agree(&body.notes, &body.starts) {
        // then the first order has the same lanes otherwise, and goes before the other one
        return Ok(LaidBody {
            order: Order::OneByOne,
            odd: by_time,
        });
    }
    // the first order fits worse, once more lanes differ from it
    let one_by_one = odd_lanes(alloc, Order::OneByOne, body, sizes, by_time.len())?;
    Ok(best_of(by_time, one_by_one))
}

/// Puts the line of an order behind the text.
fn push_order(text: &mut Vec<u8>, order: Order) -> Result<(), AllocError>
    ensures { OnOk result (text.new.items ≡ text.old.items ++ order_line (order_view order)) }
{
    let line = match order {
        Order::OneByOne => "annotations one in each data record\n",
        Order::ByTime => "annotations by time\n",
    };
    text.extend_from_slice(line.as_bytes())
}

/// The line that says where a lane stands.
#[tactic(auto, unfolding(crate::specs::body::FileLayouts::lane_line))]
fn lane_line(alloc: Global, data_record: usize, number: usize) -> Result<Vec<u8>, AllocError>
    ensures { IfOk result (λ line. line.items ≡ lane_line data_record number) }
{
    let line = format!(in alloc; "data record {data_record} annotation signal {number}\n")?;
    Ok(line.into_bytes())
}

/// Puts the lines of a lane behind the text.
#[tactic(auto, unfolding(crate::specs::body::FileLayouts::lane_lines))]
fn push_lane(text: &mut Vec<u8>, alloc: Global, lane: &OddLane<'_>) -> Result<(), AllocError>
    ensures { OnOk result (text.new.items ≡ text.old.items ++ lane_lines (odd_view lane.now)) }
{
    let line = lane_line(alloc, lane.data_record, lane.number)?;
    text.extend_from_slice(&line)?;
    push_tals(text, alloc, &lane.tals)?;
    Ok(())
}

/// Puts the lines of these lanes behind the text.
fn push_odd_lanes(text: &mut Vec<u8>, alloc: Global, odd: &[OddLane<'_>]) -> Result<(), AllocError>
    ensures { OnOk result (text.new.items ≡ text.old.items ++ flat_map lane_lines (map odd_view odd.now)) }
{
    for lane in odd {
        push_lane(text, alloc, lane)?;
    }
    Ok(())
}

/// The last line: whether the file is plain, or how many places aren't.
#[tactic(auto, unfolding(crate::specs::body::FileLayouts::ending))]
fn ending(alloc: Global, count: usize) -> Result<Vec<u8>, AllocError>
    ensures { IfOk result (λ line. line.items ≡ ending count) }
{
    let line = if count == 0 {
        format!(in alloc; "PLAIN\n")?
    } else {
        format!(in alloc; "NOT PLAIN {count}\n")?
    };
    Ok(line.into_bytes())
}

/// The report of some lines, of these places of the header behind them, and of these odd lanes, whose lines stand
/// among the first.
fn report_of(
    alloc: Global,
    lines: Vec<u8>,
    places: &[Vec<u8>],
    odd: &[OddLane<'_>],
) -> Result<Report, AllocError>
    ensures text { IfOk result (λ r. r.text.items ≡ lines.items ++
        (place_lines (map (λ v. v.items) places.now) ++ ending (length odd.now + length places.now))) }
    ensures outcome { IfOk result (λ r. r.outcome ≡ outcome_of (length odd.now + length places.now)) }
{
    let mut text = lines;
    push_places(&mut text, places)?;
    let count = odd.len() + places.len();
    let last = ending(alloc, count)?;
    text.extend_from_slice(&last)?;
    Ok(Report {
        text,
        outcome: plain_outcome(count),
    })
}

/// Puts the lines of the layout of a header and of data records behind the text.
fn push_lines(
    text: &mut Vec<u8>,
    alloc: Global,
    front: &[u8],
    signals: RawSignals<'_>,
    laid: &LaidBody<'_>,
) -> Result<(), AllocError>
    requires front { 256 ≤ length front.now }
    requires signals { AreRaw signals }
    ensures { OnOk result (text.new.items ≡ text.old.items ++
        (head_lines (layout_in front.now signals.entry.count signals.entry.columns.now)
        ++ (order_line (order_view laid.now.order)
        ++ flat_map lane_lines (map odd_view laid.now.odd.items)))) }
{
    push_head_lines(text, alloc, front, signals)?;
    push_order(text, laid.order)?;
    push_odd_lanes(text, alloc, &laid.odd)
}

/// The report on the layout of a file with this header, whose data records have this layout.
fn report_on(alloc: Global, head: &HeadFile, laid: &LaidBody<'_>) -> Result<Report, AllocError>
    requires { IsWhole head.now.front.items head.now.columns.items head.now.header }
    ensures { IfOk result (λ r. IsTextOf (layout_made head.now.front.items head.now.columns.items
        head.now.header (order_view laid.now.order) (map odd_view laid.now.odd.items))
        head.now.header r.text.items r.outcome) }
{
    let signals = RawSignals {
        columns: &head.columns,
        count: head.header.signals().len(),
    };
    let mut text = Vec::new(alloc);
    push_lines(&mut text, alloc, &head.front, signals, laid)?;
    let mut places = Lines::new(alloc);
    push_odd_places(&mut places, alloc, &head.front, signals, &head.header)?;
    report_of(alloc, text, &places, &laid.odd)
}

/// The report on the layout of a file that was read.
fn laid_out(alloc: Global, file: &WholeFile) -> Result<Report, AllocError>
    requires head { IsWhole file.now.head.front.items file.now.head.columns.items file.now.head.header }
    requires body { IsSoundBody file.now.body }
    ensures { IfOk result (λ r. (layout : BodyLayout) →
        HaveRowLayouts (notes_kept file.now.body)
        (lanes_kept (sizes_of file.now.head.header) file.now.body) layout →
        IsTextOf (layout_kept file.now.head.front.items file.now.head.columns.items file.now.head.header
        file.now.body layout) file.now.head.header r.text.items r.outcome) }
{
    let sizes = lane_sizes(alloc, &file.head.header)?;
    let laid = lay_body(alloc, &file.body, &sizes)?;
    report_on(alloc, &file.head, &laid)
}

/// The lines of the layout of a file, or that of its fault.
fn report<S: Source>(alloc: Global, source: &mut S) -> Result<Report, ReportStop>
    ensures report { IfOk result (λ r. IsLayoutOf S.Source source.old r.text.items r.outcome) }
    ensures failures { OnOk result (S.reads source.new ≡ S.reads source.old) }
    ensures stop { IfErr result (StopsReading S.Source source.old source.new) }
{
    match read_file(alloc, source) {
        Ok(file) => Ok(laid_out(alloc, &file)?),
        Err(stop) => Report::of_stop(alloc, stop),
    }
}

/// Reads a whole file, and writes its layout: what its bytes hold besides what it means (EDF+, "The EDF+ header"
/// and "The 'EDF Annotations' signal").
///
/// These are the lines of its header (the kind, the numbers as they are spelled, how many spaces stand between
/// the subfields of the two identifications, and the signals in their order); a line that names the plain order
/// that the annotations fit best; the lines of each annotation lane that this order has otherwise, TAL by TAL; a
/// line for each place of the header that isn't in plain form; and whether all is plain, or how many lanes and
/// places aren't. Or it writes the first fault of the file, as `conform_to` does.
///
/// What is written is the same for two files that mean the same only where they are the same bytes
/// (`laws::lines_and_meaning_are_the_file`).
///
/// Of the file are held in memory its annotations, where each data record starts, and those annotation lanes that
/// have more than the time, spelled plainly; of its samples one data record is.
/// The outcome is `Yes` exactly where the file has no fault and is plain. The errors are want of memory, a failed
/// read and a failed write. Nothing is written before the file was read; where the sink fails, a front of the
/// text was written.
pub fn layout_to<S: Source, K: Sink>(
    alloc: Global,
    source: &mut S,
    sink: &mut K,
) -> Result<Outcome, ReportStop>
    ensures written { IfOk result (λ outcome. IsTrue (S.is_honest source.old) →
        IsTrue (K.is_honest sink.old) →
        (text : List ℕ) × IsLayoutText (S.left source.old) text outcome
        × (K.held sink.new ≡ K.held sink.old ++ text)) }
    ensures nothing { IfErr result (λ stop. stop ≢ stops.WriteFailed → sink.new ≡ sink.old) }
    ensures part { OnErr result (IsTrue (S.is_honest source.old) → IsTrue (K.is_honest sink.old) →
        (text : List ℕ) (outcome : OutcomeValue) → IsLayoutText (S.left source.old) text outcome →
        HoldsPrefix (K.held sink.old) (K.held sink.new) text) }
    ensures reads { OnOk result (S.reads source.new ≡ S.reads source.old) }
    ensures failures { OnOk result (K.failures sink.new ≡ K.failures sink.old) }
    ensures honesty { IsTrue (K.is_honest sink.old) → IsTrue (K.is_honest sink.new) }
    ensures stop { IfErr result (ReportStops (Fails (S.reads source.old) (S.reads source.new))
        (Rises (K.failures sink.old) (K.failures sink.new)) (S.reads source.new ≡ S.reads source.old)) }
{
    let report = report(alloc, source)?;
    report.put(sink)
}
