//! The annotation lanes of a file that a plain order has otherwise.

ghost use Rattle.std.specs.Prelude.{◌≡◌, ◌*◌, take, drop, ◌++◌, ◌∷◌, ◌==◌, ◌<◌, ◌^◌, true, false, ℕ, ℤ, List, length, map, unsigned_abs, IfOk, IsTrue, OnOk};
ghost use Rattle.std.specs.Option.{option_map, option_map_or};
ghost use Rattle.std.specs.Str.{bytes_eq};
ghost use Rattle.edf_stream.specs.Views.{note_value};
ghost use Rattle.edf_stream.specs.annotation.Notes.{NoteValue};
ghost use Rattle.edf_tal.specs.Tals.{TalValue};
ghost use Rattle.edf_layout.specs.body.LaneReading.{keeps_now as keeps_now_of};
ghost use Rattle.edf_layout.specs.body.BodyLayouts.{PlacedTal, RecordLayout, BodyLayout, content_of, timekeeping_of};
ghost use Rattle.edf_layout.specs.body.LaidNotes.{laid_note};
ghost use Rattle.edf_layout.specs.body.LaidTals.{content_view, laid_view};
ghost use Rattle.edf_layout.specs.body.MeaningLaws.{AreInOrder};
ghost use Rattle.edf_layout.specs.body.OddLanes.{odd_lane, odd_in, odd_lanes as odd_lanes_of, tal_lines};
ghost use Rattle.edf_layout.specs.body.PlainLanes.{order_view, plain_view, tals_in, time_in};
ghost use Rattle.edf_layout.specs.body.PlainOrders.{plain_record, tal_of_note};
ghost use Rattle.edf_layout.specs.whole.FileBodies.{IsSoundBody, lanes_kept, notes_kept};
ghost use Rattle.edf_layout.specs.whole.KeptLanes.{bare_bytes, bare_layout, record_kept};
ghost use Rattle.edf_layout.specs.whole.LaneRows.{AreFirst, HasLaneLayout, HaveLaneLayouts, HaveRowLayouts, plainly_laid, plain_tals, odd_view, tals_at};

use crate::laid_tal::{Content, LaidTal, push_tals};
use crate::lane_layout::{keeps_now, lay_lane};
use crate::note_places::{laid, place_of};
use crate::plain_lanes::{Order, PlainLane, PlainTal, filled_lanes};
use crate::plain_tal::LaidNote;
use crate::whole::file_body::FileBody;
use crate::whole::kept_lane::{KeptLane, own_bytes};
use edf_stream::Note;
use std::alloc::{AllocError, Global};

/// An annotation lane that a plain order has otherwise.
#[derive(Debug, Drop)]
pub struct OddLane<'a> {
    /// The number of its data record, from 0 on.
    pub data_record: usize,
    /// Its number among the annotation signals, from 0 on.
    pub number: usize,
    /// Its TALs.
    pub tals: Vec<LaidTal<'a>>,
}

/// A lane of a file, with its place, and its bytes where it isn't bare.
#[derive(Clone, Copy)]
struct LaneAt<'a> {
    data_record: usize,
    number: usize,
    bytes: Option<&'a [u8]>,
}

/// The lanes of a data record of a file, with its number: how many they are, and those that are kept.
#[derive(Clone, Copy)]
struct LanesAt<'a> {
    data_record: usize,
    count: usize,
    lanes: &'a [KeptLane],
}

/// The annotation that a plain TAL has; of one that keeps the time, its start and no text.
fn plain_note(notes: &[Note], tal: PlainTal) -> LaidNote<'_>
    ensures { tal_of_note (laid_note result) ≡ plain_view (map note_value notes.entry.now) tal }
{
    let onset = match tal {
        PlainTal::KeepsTime(start) => start,
        PlainTal::Annotates(number) => match notes.get(number) {
            Some(note) => return laid(note),
            None => 0,
        },
    };
    LaidNote {
        onset,
        duration: None,
        text: &[],
    }
}

/// What a plain TAL says.
fn plain_content(
    alloc: Global,
    notes: &[Note],
    tal: PlainTal,
    keeps_time: bool,
) -> Result<Content, AllocError>
    requires { AreInOrder (map note_value notes.now) }
    ensures time { IfOk result (λ content. keeps_time ≡ true →
        content_view content ≡ timekeeping_of (map note_value notes.now)
        (plain_view (map note_value notes.now) tal)) }
    ensures other { IfOk result (λ content. keeps_time ≡ false →
        content_view content ≡ content_of (map note_value notes.now)
        (plain_view (map note_value notes.now) tal)) }
{
    let note = plain_note(notes, tal);
    let mut places = Vec::new(alloc);
    if keeps_time {
        return Ok(Content::KeepsTime(note.duration, places));
    }
    places.push(place_of(notes, note))?;
    Ok(Content::Annotates(places))
}

/// Puts the layout of a plain TAL behind the TALs of its lane that are laid out; `keeps_time` says whether the first
/// of them keeps the time of its data record.
fn push_plain<'a>(
    laid: &mut Vec<LaidTal<'a>>,
    alloc: Global,
    notes: &[Note],
    tal: PlainTal,
    keeps_time: bool,
) -> Result<(), AllocError>
    requires { AreInOrder (map note_value notes.now) }
    ensures { OnOk result ((rest : List TalValue) → map laid_view laid.new.items ++
        plainly_laid (map note_value notes.now)
        (keeps_now_of keeps_time (map laid_view laid.new.items)) rest ≡
        map laid_view laid.old.items ++ plainly_laid (map note_value notes.now)
        (keeps_now_of keeps_time (map laid_view laid.old.items))
        (plain_view (map note_value notes.now) tal ∷ rest)) }
{
    let keeps = keeps_now(keeps_time, laid);
    laid.push(LaidTal {
        onset: None,
        duration: None,
        content: plain_content(alloc, notes, tal, keeps)?,
    })?;
    Ok(())
}

/// The layout of the TAL that keeps the time of a data record with this start, where there is one.
fn lay_start(
    alloc: Global,
    notes: &[Note],
    start: Option<&i128>,
    keeps_time: bool,
) -> Result<Vec<LaidTal<'static>>, AllocError>
    requires { AreInOrder (map note_value notes.now) }
    ensures { IfOk result (λ laid. (rest : List TalValue) → map laid_view laid.items ++
        plainly_laid (map note_value notes.now) (keeps_now_of keeps_time (map laid_view laid.items)) rest ≡
        plainly_laid (map note_value notes.now) keeps_time
        (map (plain_view (map note_value notes.now))
        (time_in (option_map (λ s. s.now) start.entry)) ++ rest)) }
{
    let mut laid = Vec::new(alloc);
    if let Some(start) = start {
        push_plain(
            &mut laid,
            alloc,
            notes,
            PlainTal::KeepsTime(*start),
            keeps_time,
        )?;
    }
    Ok(laid)
}

/// The layout of the TALs of a lane that a plain order fills; `keeps_time` says whether the first of them keeps the
/// time of its data record.
fn lay_plain(
    alloc: Global,
    notes: &[Note],
    plain: &PlainLane<'_>,
    keeps_time: bool,
) -> Result<Vec<LaidTal<'static>>, AllocError>
    requires { AreInOrder (map note_value notes.now) }
    ensures { IfOk result (λ laid. map laid_view laid.items ≡ plainly_laid (map note_value notes.now)
        keeps_time (map (plain_view (map note_value notes.now)) (tals_in plain.now))) }
{
    let mut laid = lay_start(alloc, notes, plain.start, keeps_time)?;
    for number in &plain.notes {
        push_plain(
            &mut laid,
            alloc,
            notes,
            PlainTal::Annotates(*number),
            keeps_time,
        )?;
    }
    Ok(laid)
}

/// The layout of the TALs that a plain order puts into the lane of this number of a data record; of none where there
/// is no such lane.
fn lay_plain_at(
    alloc: Global,
    notes: &[Note],
    plain: &[PlainLane<'_>],
    number: usize,
) -> Result<Vec<LaidTal<'static>>, AllocError>
    requires { AreInOrder (map note_value notes.now) }
    ensures { IfOk result (λ laid. map laid_view laid.items ≡ plainly_laid (map note_value notes.now)
        (number == 0) (map (plain_view (map note_value notes.now)) (tals_at plain.now number))) }
{
    match plain.get(number) {
        Some(lane) => lay_plain(alloc, notes, lane, number == 0),
        None => Ok(Vec::new(alloc)),
    }
}

/// Whether both TALs are spelled plainly and say the same.
fn are_plain(tal: &LaidTal<'_>, other: &LaidTal<'_>) -> bool
    ensures { IsTrue result → laid_view tal.now ≡ laid_view other.now }
{
    tal.onset.is_none()
        && tal.duration.is_none()
        && other.onset.is_none()
        && other.duration.is_none()
        && tal.content == other.content
}

/// Whether these TALs are spelled plainly, and are the same.
fn are_same(tals: &[LaidTal<'_>], others: &[LaidTal<'_>]) -> bool
    ensures { IsTrue result → map laid_view tals.now ≡ map laid_view others.now }
{
    if tals.len() != others.len() {
        return false;
    }
    for place in 0..tals.len() {
        if !are_plain(&tals[place], &others[place]) {
            return false;
        }
    }
    true
}

/// Whether the same lines are written of these TALs as of others.
fn have_same_lines(
    alloc: Global,
    tals: &[LaidTal<'_>],
    others: &[LaidTal<'_>],
) -> Result<bool, AllocError>
    ensures { IfOk result (λ same. same ≡ bytes_eq (tal_lines (map laid_view tals.now))
        (tal_lines (map laid_view others.now))) }
{
    if are_same(tals, others) {
        return Ok(true);
    }
    let mut lines = Vec::new(alloc);
    push_tals(&mut lines, alloc, tals)?;
    let mut other_lines = Vec::new(alloc);
    push_tals(&mut other_lines, alloc, others)?;
    Ok(lines == other_lines)
}

/// The layout of the TALs of a bare lane; `keeps_time` says whether it is the first one of its data record.
fn lay_bare(alloc: Global, keeps_time: bool) -> Result<Vec<LaidTal<'static>>, AllocError>
    ensures { IfOk result (λ laid. map laid_view laid.items ≡ bare_layout keeps_time) }
{
    let mut laid = Vec::new(alloc);
    if keeps_time {
        laid.push(LaidTal {
            onset: None,
            duration: None,
            content: Content::KeepsTime(None, Vec::new(alloc)),
        })?;
    }
    Ok(laid)
}

/// The layout of the TALs of a lane.
fn lay<'a>(alloc: Global, notes: &[Note], lane: LaneAt<'a>) -> Result<Vec<LaidTal<'a>>, AllocError>
    requires { AreInOrder (map note_value notes.now) }
    ensures { IfOk result (λ tals. (start : ℤ) (size : ℕ) (laid : List PlacedTal) →
        unsigned_abs start < 10 ^ 21 → HasLaneLayout (map note_value notes.now) (lane.entry.number == 0)
        (option_map_or (λ bytes. bytes.now) lane.entry.bytes (bare_bytes (lane.entry.number == 0) start size))
        laid → map laid_view tals.items ≡ laid) }
{
    let keeps_time = lane.number == 0;
    if let Some(bytes) = lane.bytes {
        return lay_lane(alloc, notes, bytes, keeps_time);
    }
    lay_bare(alloc, keeps_time)
}

/// Whether a lane that a plain order fills has only what a bare one has, which keeps the time or doesn't. Only speed
/// rests on a no.
fn has_no_note(plain: &PlainLane<'_>, keeps_time: bool) -> bool
    ensures { IsTrue result → (notes : List NoteValue) →
        plainly_laid notes keeps_time (map (plain_view notes) (tals_in plain.now)) ≡ bare_layout keeps_time }
{
    plain.notes.is_empty() && plain.start.is_some() == keeps_time
}

/// Whether a plain order puts into the lane of this number of a data record only what a bare one has. Only speed rests
/// on a no.
fn are_bare(plain: &[PlainLane<'_>], number: usize) -> bool
    ensures { IsTrue result → (notes : List NoteValue) → plainly_laid notes (number == 0)
        (map (plain_view notes) (tals_at plain.now number)) ≡ bare_layout (number == 0) }
{
    match plain.get(number) {
        Some(lane) => has_no_note(lane, number == 0),
        None => false,
    }
}

/// Puts a lane behind the odd ones, where other lines are written of it than of the one that a plain order, which
/// fills these of its data record, has in its place.
fn push_odd<'a>(
    odd: &mut Vec<OddLane<'a>>,
    alloc: Global,
    notes: &[Note],
    lane: LaneAt<'a>,
    plain: &[PlainLane<'_>],
) -> Result<(), AllocError>
    requires { AreInOrder (map note_value notes.now) }
    ensures { OnOk result ((start : ℤ) (size : ℕ) (laid : List PlacedTal) → unsigned_abs start < 10 ^ 21 →
        HasLaneLayout (map note_value notes.now) (lane.entry.number == 0)
        (option_map_or (λ bytes. bytes.now) lane.entry.bytes (bare_bytes (lane.entry.number == 0) start size))
        laid → map odd_view odd.new.items ≡ map odd_view odd.old.items ++ odd_lane lane.entry.data_record
        lane.entry.number laid (plainly_laid (map note_value notes.now) (lane.entry.number == 0)
        (map (plain_view (map note_value notes.now)) (tals_at plain.now lane.entry.number)))) }
{
    if lane.bytes.is_none() && are_bare(plain, lane.number) {
        return Ok(());
    }
    let tals = lay(alloc, notes, lane)?;
    let expected = lay_plain_at(alloc, notes, plain, lane.number)?;
    if !have_same_lines(alloc, &tals, &expected)? {
        odd.push(OddLane {
            data_record: lane.data_record,
            number: lane.number,
            tals,
        })?;
    }
    Ok(())
}

/// Puts the lanes of a data record behind the odd ones that a plain order, which puts these into it, has
/// otherwise.
fn push_odd_in<'a>(
    odd: &mut Vec<OddLane<'a>>,
    alloc: Global,
    notes: &[Note],
    at: LanesAt<'a>,
    plain: &[PlainLane<'_>],
) -> Result<(), AllocError>
    requires { AreInOrder (map note_value notes.now) }
    ensures { OnOk result ((start : ℤ) (sizes : List ℕ) (layout : RecordLayout) →
        unsigned_abs start < 10 ^ 21 → length sizes ≡ at.entry.count →
        HaveLaneLayouts (map note_value notes.now) 0
        (record_kept true start sizes at.entry.lanes.now) layout →
        map odd_view odd.new.items ≡ map odd_view odd.old.items ++ odd_in at.entry.data_record 0 layout
        (plain_record (map note_value notes.now) (map (plain_tals (map note_value notes.now)) plain.now))) }
{
    for number in 0..at.count {
        let lane = LaneAt {
            data_record: at.data_record,
            number,
            bytes: own_bytes(at.lanes, number),
        };
        push_odd(odd, alloc, notes, lane, plain)?;
    }
    Ok(())
}

/// The lanes of the data record of this number, where each has so many.
fn lanes_in<'a, 'b>(
    plain: &'a [PlainLane<'b>],
    width: usize,
    data_record: usize,
) -> &'a [PlainLane<'b>]
    ensures { result.now ≡ take width (drop (data_record * width) plain.entry.now) }
{
    let from = plain.len().min(data_record.saturating_mul(width));
    let rest = &plain[from..];
    &rest[..width.min(rest.len())]
}

/// The annotation lanes of a file that a plain order has otherwise, where a data record has lanes of these
/// sizes; or the first of them, where there are more than `most`, and then more than so many.
///
/// The error is want of memory.
pub fn odd_lanes<'a>(
    alloc: Global,
    order: Order,
    body: &'a FileBody,
    sizes: &[usize],
    most: usize,
) -> Result<Vec<OddLane<'a>>, AllocError>
    requires { IsSoundBody body.now }
    ensures { IfOk result (λ odd. (layout : BodyLayout) →
        HaveRowLayouts (notes_kept body.entry.now) (lanes_kept sizes.now body.entry.now) layout →
        AreFirst most (map odd_view odd.items) (odd_lanes_of (order_view order) (notes_kept body.entry.now)
        sizes.now body.entry.now.starts.items layout)) }
{
    let mut odd = Vec::new(alloc);
    let starts: &[i128] = &body.starts;
    if starts.is_empty() {
        return Ok(odd);
    }
    let plain = filled_lanes(alloc, order, &body.notes, sizes, starts)?;
    for (data_record, lanes) in body.lanes.iter().enumerate() {
        if odd.len() > most {
            return Ok(odd);
        }
        let at = LanesAt {
            data_record,
            count: sizes.len(),
            lanes,
        };
        let here = lanes_in(&plain, sizes.len(), data_record);
        push_odd_in(&mut odd, alloc, &body.notes, at, here)?;
    }
    Ok(odd)
}
