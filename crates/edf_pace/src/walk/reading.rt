//! A file of the two while it is read, data record by data record.

ghost use Rattle.std.specs.Prelude.{◌≡◌, ◌<◌, ◌≤◌, ◌+◌, ◌^◌, ℤ, ◌≤ℤ◌, ◌<ℤ◌, ◌+ℤ◌, ◌⊎◌, true, false, [], None, Some, IfErr, OnOk, IfSome, IfNone, IsTrue, IfOk, MatchOption, unsigned_abs};
ghost use Rattle.edf_stream.specs.Faults.{file_fault};
ghost use Rattle.edf_stream.specs.records.Readers.{HasBegun, IsOpen, is_current};
ghost use Rattle.edf_pace.specs.Premises.{HasFault, IfFaulty, IfFound, IfNothing, IfRead};
ghost use Rattle.edf_pace.specs.PartsStops.{StopsOf};
ghost use Rattle.edf_pace.specs.walk.Readings.{HasCome, HasFirst, HasFollowed, HasGathered, HasGoneOn, HasMovedAs, HasOpened, going, notes_at_hand, standing};
ghost use Rattle.edf_pace.specs.walk.Shown.{IfAtHand, IsAhead, IsBehind, IsEndOf, IsGoing, IsNear, OneMore, Reaches, begins_at, ends_at};
ghost use Rattle.edf_pace.specs.walk.Ends.{HasFinished};

use crate::walk::clock::{Clock, start_ps_of};
use crate::walk::gather::{Delay, Gathering, View};
use crate::walk::offset::Offset;
use edf_fields::{Fault, Source};
use edf_header::Stop;
use edf_samples::{Time, Window};
use edf_stop::{PartSide, PartsStop};
use edf_stream::{FileReader, KeepsNone, Note, NoteKeeper, file_start_ps};
use std::alloc::Global;
use std::mem;

/// A file while it is read, and those of its annotations that have come so far.
#[derive(Drop)]
pub struct Reading {
    pub reader: FileReader,
    pub notes: Vec<Note>,
}

/// Begins to read a file, or finds the fault of its header.
///
/// The error is want of memory, or a failure of the source.
pub fn open<S: Source>(
    alloc: Global,
    source: &mut S,
    file: PartSide,
) -> Result<Result<Reading, Fault>, PartsStop>
    ensures begun { IfRead result (λ r. HasBegun r.reader × (r.notes.items ≡ [])) }
    ensures honesty { IfRead result (λ r. IsTrue (S.is_honest source.old) → IsTrue (S.is_honest source.new)) }
    ensures stands { IfRead result (HasOpened S.Source source.old source.new) }
    ensures fault { IfFaulty result (λ fault. IsTrue (S.is_honest source.old) →
        file_fault (S.left source.old) ≡ Some fault) }
    ensures failures { OnOk result (S.reads source.new ≡ S.reads source.old) }
    ensures stop { IfErr result (StopsOf S.Source file source.old source.new) }
{
    match FileReader::begin(alloc, source) {
        Ok(reader) => Ok(Ok(Reading {
            reader,
            notes: Vec::new(alloc),
        })),
        Err(Stop::Fault(fault)) => Ok(Err(fault)),
        Err(Stop::ReadFailed) => Err(PartsStop::ReadFailed(file)),
        Err(Stop::OutOfMemory) => Err(PartsStop::OutOfMemory),
    }
}

/// Reads the next data record, and answers the file's fault where it has one there. The annotations of the data
/// record go to the keeper.
///
/// The error is a failure of the source.
pub fn go_on<S: Source, K: NoteKeeper>(
    keeper: &mut K,
    reader: &mut FileReader,
    source: &mut S,
    file: PartSide,
) -> Result<Option<Fault>, PartsStop>
    requires open { IsOpen reader.old.status }
    ensures head { reader.new.head ≡ reader.old.head }
    ensures near { unsigned_abs reader.new.ended < 2 ^ 71 }
    ensures going { IfNothing result (IsGoing reader.new.status) }
    ensures later { IfNothing result (IfAtHand reader.new (reader.old.ended <ℤ reader.new.ended)) }
    ensures count { IfNothing result (IfAtHand reader.new (OneMore reader.old reader.new)) }
    ensures honesty { IfNothing result (IsTrue (S.is_honest source.old) → IsTrue (S.is_honest source.new)) }
    ensures comes { IfNothing result (HasCome S.Source reader.old source.old reader.new source.new) }
    ensures fault { IfFound result (HasFault (standing S.Source reader.old source.old)) }
    ensures failures { OnOk result (S.reads source.new ≡ S.reads source.old) }
    ensures kept { IfNothing result (IfAtHand reader.new
        (K.got keeper.old (notes_at_hand reader.new) keeper.new)) }
    ensures none { IfNothing result (is_current reader.new.status ≡ false → keeper.new ≡ keeper.old) }
    ensures stop { IfErr result (StopsOf S.Source file source.old source.new) }
{
    match reader.next_with(source, keeper) {
        Ok(_) => Ok(None),
        Err(Stop::Fault(fault)) => Ok(Some(fault)),
        Err(Stop::ReadFailed) => Err(PartsStop::ReadFailed(file)),
        Err(Stop::OutOfMemory) => Err(PartsStop::OutOfMemory),
    }
}

/// Reads a file to its end, and answers its fault, where it has one.
///
/// The error is a failure of the source.
pub fn finish<S: Source>(
    reader: &mut FileReader,
    source: &mut S,
    file: PartSide,
) -> Result<Option<Fault>, PartsStop>
    requires going { IsGoing reader.old.status }
    ensures goes { IfNothing result (HasGoneOn S.Source reader.old source.old reader.new source.new) }
    ensures read { IfOk result (HasFinished (going S.Source reader.old source.old)
        (S.left source.new) reader.new.ended) }
    ensures failures { OnOk result (S.reads source.new ≡ S.reads source.old) }
    ensures stop { IfErr result (StopsOf S.Source file source.old source.new) }
{
    while reader.has_current() {
        match go_on(&mut KeepsNone, reader, source, file) {
            Ok(None) => {}
            Ok(Some(fault)) => return Ok(Some(fault)),
            Err(stop) => return Err(stop),
        }
    }
    Ok(None)
}

/// Reads the next data record, and gathers its annotations; or answers the file's fault where it has one
/// there.
///
/// The error is want of memory, or a failure of the source.
fn gather_next<S: Source>(
    reading: &mut Reading,
    source: &mut S,
    file: PartSide,
    view: View<'_>,
) -> Result<Option<Fault>, PartsStop>
    requires open { IsOpen (reading.old.reader).status }
    ensures head { (reading.new.reader).head ≡ (reading.old.reader).head }
    ensures near { unsigned_abs (reading.new.reader).ended < 2 ^ 71 }
    ensures going { IfNothing result (IsGoing (reading.new.reader).status) }
    ensures later { IfNothing result (IfAtHand reading.new.reader
        ((reading.old.reader).ended <ℤ (reading.new.reader).ended)) }
    ensures count { IfNothing result
        (IfAtHand reading.new.reader (OneMore reading.old.reader reading.new.reader)) }
    ensures start { IfNothing result (IfAtHand reading.new.reader (IsNear (reading.new.reader).head)) }
    ensures gathered { IfNothing result (HasGathered view.entry reading.old reading.new) }
    ensures honesty { IfNothing result (IsTrue (S.is_honest source.old) → IsTrue (S.is_honest source.new)) }
    ensures comes { IfNothing result
        (HasCome S.Source reading.old.reader source.old reading.new.reader source.new) }
    ensures fault { IfFound result (HasFault (standing S.Source reading.old.reader source.old)) }
    ensures failures { OnOk result (S.reads source.new ≡ S.reads source.old) }
    ensures stop { IfErr result (StopsOf S.Source file source.old source.new) }
{
    let by = Delay {
        ps: file_start_ps(reading.reader.header()) + view.moved.ps,
    };
    let notes = mem::replace(&mut reading.notes, Vec::new(view.alloc));
    let mut gathering = Gathering::new(notes, by, view);
    match go_on(&mut gathering, &mut reading.reader, source, file) {
        Ok(None) => {
            reading.notes = gathering.notes;
            if gathering.whole {
                Ok(None)
            } else {
                Err(PartsStop::OutOfMemory)
            }
        }
        // a fault counts before want of memory for the annotations of its data record, which nobody needs
        Ok(Some(fault)) => Ok(Some(fault)),
        Err(stop) => Err(stop),
    }
}

/// Where the data record at hand ends, in picoseconds.
pub(crate) fn end_ps_of(reader: &FileReader, by: Offset) -> i128
    requires current { IsTrue (is_current reader.now.status) }
    ensures value { result ≡ ends_at reader.now by.ps }
    ensures lasts { result ≡ begins_at reader.now by.ps +ℤ (reader.now.head).duration }
    ensures small { unsigned_abs result < 2 ^ 82 }
{
    start_ps_of(reader.header(), by) + reader.end_ps()
}

/// Where the data record at hand begins, in picoseconds.
pub fn begin_ps_of(reader: &FileReader, by: Offset) -> i128
    requires current { IsTrue (is_current reader.now.status) }
    ensures value { result ≡ begins_at reader.now by.ps }
    ensures before { result <ℤ ends_at reader.now by.ps }
    ensures small { unsigned_abs result < 2 ^ 83 }
{
    end_ps_of(reader, by) - reader.header().duration_ps()
}

/// Where the last data record that was read ends, in picoseconds.
pub(crate) fn last_end(reader: &FileReader, by: Offset) -> Time
    ensures value { result.ps ≡ ends_at reader.now by.ps }
{
    Time {
        ps: start_ps_of(reader.header(), by) + reader.read_to_ps(),
    }
}

/// Where the data record at hand ends.
fn end_of(reader: &FileReader, by: Offset) -> Option<Time>
    ensures end { MatchOption result (is_current reader.now.status ≡ false) (λ t.
        IsEndOf reader.now by.ps t.ps) }
{
    if reader.has_current() {
        Some(Time {
            ps: end_ps_of(reader, by),
        })
    } else {
        None
    }
}

/// Whether the data record at hand ends at a time or before.
fn is_past(reader: &FileReader, by: Offset, time: Time) -> bool
    ensures yes { result ≡ true → (is_current reader.now.status ≡ true) ×
        (ends_at reader.now by.ps ≤ℤ time.ps) }
    ensures no { result ≡ false → IsAhead reader.now by.ps time.ps }
{
    match end_of(reader, by) {
        Some(end) => end.ps <= time.ps,
        None => false,
    }
}

/// Reads the next data record where the one at hand ends at a time or before.
///
/// The error is want of memory, or a failure of the source.
pub(crate) fn pass<S: Source>(
    reading: &mut Reading,
    source: &mut S,
    file: PartSide,
    view: View<'_>,
    within: Window,
) -> Result<Option<Fault>, PartsStop>
    requires going { IsGoing (reading.old.reader).status }
    requires reaches { Reaches reading.old.reader (view.moved).ps (within.to).ps }
    ensures moves { IfNothing result (HasMovedAs S.Source reading.old source.old reading.new source.new
        view.entry within) }
    ensures fault { IfFound result (HasFault (going S.Source reading.old.reader source.old)) }
    ensures failures { OnOk result (S.reads source.new ≡ S.reads source.old) }
    ensures stop { IfErr result (StopsOf S.Source file source.old source.new) }
{
    if !is_past(&reading.reader, view.moved, within.to) {
        return Ok(None);
    }
    match gather_next(reading, source, file, view) {
        Ok(None) => Ok(None),
        Ok(Some(fault)) => Ok(Some(fault)),
        Err(stop) => Err(stop),
    }
}

/// Reads the first data record of a file.
///
/// The error is want of memory, or a failure of the source.
pub fn start<S: Source>(
    reading: &mut Reading,
    source: &mut S,
    file: PartSide,
    view: View<'_>,
) -> Result<Option<Fault>, PartsStop>
    requires begun { HasBegun reading.old.reader }
    requires none { (reading.old.notes).items ≡ [] }
    ensures follows { IfNothing result (HasFollowed S.Source reading.old source.old reading.new source.new
        view.entry) }
    ensures begins { IfNothing result (HasFirst S.Source reading.old.reader source.old reading.new.reader) }
    ensures fault { IfFound result (HasFault (standing S.Source reading.old.reader source.old)) }
    ensures failures { OnOk result (S.reads source.new ≡ S.reads source.old) }
    ensures stop { IfErr result (StopsOf S.Source file source.old source.new) }
{
    match gather_next(reading, source, file, view) {
        Ok(None) => Ok(None),
        Ok(Some(fault)) => Ok(Some(fault)),
        Err(stop) => Err(stop),
    }
}

/// The earlier of two times, of which either may be none.
fn earlier_time(a: Option<Time>, b: Option<Time>) -> Option<Time>
    ensures none { IfNone result ((a ≡ None) × (b ≡ None)) }
    ensures below_a { IfSome result (λ t. IfSome a (λ x. t.ps ≤ℤ x.ps)) }
    ensures below_b { IfSome result (λ t. IfSome b (λ y. t.ps ≤ℤ y.ps)) }
    ensures one { IfSome result (λ t. (a ≡ Some t) ⊎ (b ≡ Some t)) }
{
    match (a, b) {
        (Some(x), Some(y)) => Some(if y.ps < x.ps { y } else { x }),
        (None, y) => y,
        (x, None) => x,
    }
}

/// The earlier end of the data records at hand; none where both files have ended.
pub(crate) fn lesser_end(original: &FileReader, export: &FileReader, clock: Clock) -> Option<Time>
    ensures none { IfNone result ((is_current original.now.status ≡ false) ×
        (is_current export.now.status ≡ false)) }
    ensures original { IfSome result (λ t. Reaches original.now (clock.original).ps t.ps) }
    ensures export { IfSome result (λ t. Reaches export.now (clock.export).ps t.ps) }
    ensures later { IfSome result (λ t. IsBehind original.now (clock.original).ps
        export.now (clock.export).ps t.ps) }
{
    earlier_time(
        end_of(original, clock.original),
        end_of(export, clock.export),
    )
}
