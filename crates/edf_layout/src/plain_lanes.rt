//! Where the plain orders put annotations.

ghost use Rattle.std.specs.Prelude.{◌≡◌, ◌≤◌, ◌<◌, ◌+◌, ◌*◌, ◌/◌, ◌^◌, ◌++◌, List, length, map, IfSome, IfOk, IsTrue, OnOk};
ghost use Rattle.std.specs.List.{flat_map};
ghost use Rattle.edf_stream.specs.Views.{note_value};
ghost use Rattle.edf_stream.specs.annotation.Notes.{NoteValue};
ghost use Rattle.edf_layout.specs.declared.plain_lanes.PlainTal.TheVariants as tals;
ghost use Rattle.edf_layout.specs.body.PlainLanes.{order_view, plain_view, lane_view, room_from as room_from_place, is_known_full, AreUnknown, AreFull, DoAgree, IsFirstRoom, AreRising};
ghost use Rattle.edf_layout.specs.body.PlainOrders.{bare_lane, bare_record, filled, put_from as put_from_place, record_for as record_in, record_of_onset as record_of, tal_bytes, tal_of_start, with_tal};

use crate::note_places::laid;
use crate::plain_tal::{note_bytes, start_bytes};
use edf_stream::Note;
use std::alloc::{AllocError, Global};

/// A plain order of the annotations in data records.
#[derive(Debug, Clone, Copy, PartialEq, Eq)]
pub enum Order {
    /// One in each data record, from the first data record on, and behind the last one from the first one on again.
    OneByOne,
    /// Each in the data record in whose time its onset lies.
    ByTime,
}

/// A TAL that is spelled plainly.
#[derive(Debug, Clone, Copy)]
pub enum PlainTal {
    /// It keeps the time alone: where its data record starts, in picoseconds after the start of the file.
    KeepsTime(i128),
    /// It has the annotation of this number, among all in order.
    Annotates(usize),
}

/// A lane that a plain order fills.
#[derive(Debug, Drop)]
pub struct PlainLane<'a> {
    /// How many bytes are free behind its TALs.
    pub free: usize,
    /// Where its data record starts, if its first TAL keeps the time: in picoseconds after the start of the file.
    pub start: Option<&'a i128>,
    /// The annotations that its other TALs have, one each: their numbers among all in order.
    pub notes: Vec<usize>,
}

/// How many lanes stand in a block, for which it is noted that none of them has so many bytes free.
const BLOCK: usize = 1024;

/// For each block of so many lanes how many bytes none of them has free; nothing is known of them at first.
fn unknown_blocks(alloc: Global, lanes: usize) -> Result<Vec<Option<usize>>, AllocError>
    ensures long { IfOk result (λ full. length full.items ≡ lanes / 1024 + 1) }
    ensures none { IfOk result (λ full. AreUnknown full.items) }
{
    vec![in alloc; None; lanes / BLOCK + 1]
}

/// Whether it is known of a block that none of its lanes has so many bytes free.
fn is_full(full: Option<usize>, need: usize) -> bool
    ensures { result ≡ is_known_full full need }
{
    match full {
        Some(least) => least <= need,
        None => false,
    }
}

/// The first lane from a place on that has so many bytes free, before another place; or that other place. Of each block
/// that was looked through as a whole it is noted that it has no such lane.
fn room_or(
    lanes: &[PlainLane<'_>],
    full: &mut [Option<usize>],
    from: usize,
    to: usize,
    need: usize,
) -> usize
    requires order { from ≤ to }
    requires within { to ≤ length lanes.now }
    requires full { AreFull lanes.now full.old }
    ensures first { IsFirstRoom lanes.now need from to result }
    ensures full { AreFull lanes.now full.new }
    ensures long { length full.new ≡ length full.old }
{
    let mut at = from;
    while at < to {
        if at % BLOCK == 0 && is_full(full[at / BLOCK], need) {
            at = to.min(at.saturating_add(BLOCK));
        } else if need <= lanes[at].free {
            return at;
        } else {
            at += 1;
            if at % BLOCK == 0 && at - from >= BLOCK {
                full[at / BLOCK - 1] = Some(need);
            }
        }
    }
    at
}

/// The first lane from a place on that has so many bytes free, or else the first of those before.
fn room_from(
    lanes: &[PlainLane<'_>],
    full: &mut [Option<usize>],
    at: usize,
    need: usize,
) -> Option<usize>
    requires within { at ≤ length lanes.now }
    requires full { AreFull lanes.now full.old }
    ensures place { result ≡ room_from_place lanes.now at need }
    ensures within { IfSome result (λ k. k < length lanes.now) }
    ensures full { AreFull lanes.now full.new }
    ensures long { length full.new ≡ length full.old }
{
    let place = room_or(lanes, full, at, lanes.len(), need);
    if place < lanes.len() {
        return Some(place);
    }
    let before = room_or(lanes, full, 0, at, need);
    if before < at { Some(before) } else { None }
}

/// Puts the annotation of this number, whose TAL takes so many bytes, into the first lane from a place on that has room
/// for it, and behind the last lane from the first one on; nowhere, where no lane has room.
fn put_from(
    lanes: &mut [PlainLane<'_>],
    full: &mut [Option<usize>],
    at: usize,
    need: usize,
    number: usize,
) -> Result<(), AllocError>
    requires within { at ≤ length lanes.old }
    requires full { AreFull lanes.old full.old }
    ensures filled { OnOk result ((notes : List NoteValue) →
        tal_bytes (plain_view notes (tals.Annotates number)) ≡ need → map (lane_view notes) lanes.new ≡
        put_from_place at (plain_view notes (tals.Annotates number)) (map (lane_view notes) lanes.old)) }
    ensures size { length lanes.new ≡ length lanes.old }
    ensures full { OnOk result (AreFull lanes.new full.new) }
    ensures long { length full.new ≡ length full.old }
{
    if let Some(place) = room_from(lanes, full, at, need) {
        let lane = &mut lanes[place];
        lane.free = lane.free.saturating_sub(need);
        lane.notes.push(number)?;
    }
    Ok(())
}

/// A lane of this size that holds the TAL that keeps the time of a data record with this start.
fn timed_lane(alloc: Global, size: usize, start: &i128) -> Result<PlainLane<'_>, AllocError>
    ensures { IfOk result (λ lane. (notes : List NoteValue) →
        lane_view notes lane ≡ with_tal (tal_of_start start.entry.now) (bare_lane size)) }
{
    Ok(PlainLane {
        free: size.saturating_sub(start_bytes(alloc, *start)?),
        start: Some(start),
        // most lanes get no annotation, and take no memory of their own
        notes: Vec::new(alloc),
    })
}

/// Puts lanes of these sizes with nothing in them behind the lanes.
fn push_empty(
    lanes: &mut Vec<PlainLane<'_>>,
    alloc: Global,
    sizes: &[usize],
) -> Result<(), AllocError>
    ensures { OnOk result ((notes : List NoteValue) → map (lane_view notes) lanes.new.items ≡
        map (lane_view notes) lanes.old.items ++ map bare_lane sizes.now) }
{
    for size in sizes {
        lanes.push(PlainLane {
            free: *size,
            start: None,
            notes: Vec::new(alloc),
        })?;
    }
    Ok(())
}

/// Puts the lanes of a data record with this start behind the lanes, before any annotation stands there.
fn push_bare<'a>(
    lanes: &mut Vec<PlainLane<'a>>,
    alloc: Global,
    sizes: &[usize],
    start: &'a i128,
) -> Result<(), AllocError>
    ensures { OnOk result ((notes : List NoteValue) → map (lane_view notes) lanes.new.items ≡
        map (lane_view notes) lanes.old.items ++ bare_record sizes.now start.entry.now) }
{
    if let [size, rest @ ..] = sizes {
        lanes.push(timed_lane(alloc, *size, start)?)?;
        push_empty(lanes, alloc, rest)?;
    }
    Ok(())
}

/// The lanes of data records with these starts, before any annotation stands there.
fn bare_lanes<'a>(
    alloc: Global,
    sizes: &[usize],
    starts: &'a [i128],
) -> Result<Vec<PlainLane<'a>>, AllocError>
    ensures { IfOk result (λ lanes. (notes : List NoteValue) → map (lane_view notes) lanes.items ≡
        flat_map (bare_record sizes.now) starts.entry.now) }
{
    let mut lanes = Vec::new(alloc);
    for start in starts {
        push_bare(&mut lanes, alloc, sizes, start)?;
    }
    Ok(lanes)
}

/// The data record in whose time an onset lies: the last one of those with these starts that doesn't start behind it, or
/// the first one.
fn record_of_onset(starts: &[i128], onset: i128) -> usize
    requires { AreRising starts.now }
    ensures place { result ≡ record_of starts.now onset }
    ensures within { 0 < length starts.now → result < length starts.now }
{
    let count = starts.partition_point(|start| *start <= onset);
    count.saturating_sub(1)
}

/// The data record into which an order puts an annotation of this number, at this onset.
fn record_for(order: Order, starts: &[i128], number: usize, onset: i128) -> usize
    requires some { 0 < length starts.now }
    requires rising { AreRising starts.now }
    ensures place { (note : NoteValue) → note.onset ≡ onset →
        result ≡ record_in (order_view order) starts.now number note }
    ensures within { result < length starts.now }
{
    match order {
        Order::OneByOne => number % starts.len(),
        Order::ByTime => record_of_onset(starts, onset),
    }
}

/// Whether both orders put each of these annotations into the same one of the data records with these starts. Only speed
/// rests on a no.
pub fn do_orders_agree(notes: &[Note], starts: &[i128]) -> bool
    requires { AreRising starts.now }
    ensures { IsTrue result → DoAgree starts.now 0 (map note_value notes.now) }
{
    if starts.is_empty() {
        return false;
    }
    for (number, note) in notes.iter().enumerate() {
        let one_by_one = record_for(Order::OneByOne, starts, number, note.onset);
        let by_time = record_for(Order::ByTime, starts, number, note.onset);
        if one_by_one != by_time {
            return false;
        }
    }
    true
}

/// The lanes of data records with these starts, with annotation lanes of these sizes, as an order fills them with
/// annotations that are in order.
///
/// The error is want of memory.
pub fn filled_lanes<'a>(
    alloc: Global,
    order: Order,
    notes: &[Note],
    sizes: &[usize],
    starts: &'a [i128],
) -> Result<Vec<PlainLane<'a>>, AllocError>
    requires some { 0 < length starts.now }
    requires rising { AreRising starts.now }
    ensures { IfOk result (λ lanes. map (lane_view (map note_value notes.now)) lanes.items ≡
        filled (order_view order) starts.entry.now (length sizes.now) 0 (map note_value notes.now)
        (flat_map (bare_record sizes.now) starts.entry.now)) }
{
    let mut lanes = bare_lanes(alloc, sizes, starts)?;
    let mut full = unknown_blocks(alloc, lanes.len())?;
    for (number, note) in notes.iter().enumerate() {
        let note = laid(note);
        let at = sizes.len() * record_for(order, starts, number, note.onset);
        let need = note_bytes(alloc, note)?;
        put_from(&mut lanes, &mut full, at, need, number)?;
    }
    Ok(lanes)
}
