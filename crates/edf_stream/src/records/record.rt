//! The tests of one data record. EDF (1992), "Data record".

ghost use Rattle.std.specs.Prelude.{◌≡◌, ℕ, ℤ, pos, ◌+◌, ◌-◌, ◌≤◌, ◌<◌, ◌<ℤ◌, ◌+ℤ◌, ◌^◌, min, List, [], length, Ok, None, Some, MatchResult, IfOk, IfErr, IfSome, OnOk, unsigned_abs};
ghost use Rattle.edf_fields.specs.declared.faults.fault.Place.TheVariants.{AtRecord};
ghost use Rattle.edf_header.specs.Heads.{record_bytes};
ghost use Rattle.edf_stream.specs.records.Records.{annotation_lanes};
ghost use Rattle.edf_stream.specs.annotation.NotesReading.{notes_in, notes_of_lanes};
ghost use Rattle.edf_stream.specs.times.StartsReading.{start_by_lanes, said_start, start_in};
ghost use Rattle.edf_fields.specs.Tests.{first};
ghost use Rattle.edf_stream.specs.Faults.{cause_of_lanes, lanes_fault, time_fault, notes_fault, timed_faults, record_fault};
ghost use Rattle.edf_stream.specs.Views.{start_with, texts_said};

use crate::annotation::note_keeper::{KeepsNone, NoteKeeper};
use crate::records::lanes::{Said, lone_time, said_by_lanes, texts_of};
use crate::records::much::may_say_much;
use crate::times::start::{Progress, RecordStart, judge_start};
use edf_fields::{Cause, Fault, Place};
use edf_header::Header;

/// The most annotations that a file may have (this project's profile).
pub const MOST_NOTES: u32 = 1_000_000;

/// How many annotations there are with the texts of data record `k`, of which the first only keeps the
/// time: 1,000,000 at the most.
#[tactic(auto, unfolding(crate::specs::Faults::notes_fault))]
fn judge_notes(k: u32, before: u32, texts: u32) -> Result<u32, Fault>
    requires { before ≤ 1000000 }
    ensures judged { (n : ℕ) → texts ≡ min n (2 ^ 32 - 1) → MatchResult result
        (λ notes. (notes_fault k (before + (n - 1)) ≡ None) × (notes ≡ before + (n - 1)) × (notes ≤ 1000000))
        (λ f. notes_fault k (before + (n - 1)) ≡ Some f) }
    ensures place { IfErr result (λ f. f.place ≡ AtRecord k) }
{
    let notes = before.saturating_add(texts.saturating_sub(1));
    if notes <= MOST_NOTES {
        return Ok(notes);
    }
    Err(Fault {
        place: Place::AtRecord(k),
        cause: Cause::TooManyAnnotations,
    })
}

/// What the annotation lanes of data record `k` say, or that one of them is no list of TALs. Their annotations go
/// to the keeper, as long as there are not more than `most` texts.
#[tactic(auto, unfolding(crate::specs::Faults::lanes_fault, crate::specs::times::StartsReading::said_start, crate::specs::annotation::NotesReading::notes_in))]
fn judge_lanes<K: NoteKeeper>(
    keeper: &mut K,
    header: &Header,
    k: u32,
    bytes: &[u8],
    most: u32,
) -> Result<Option<Said>, Fault>
    ensures said { MatchResult result (λ found.
        (lanes_fault k (cause_of_lanes (annotation_lanes header.now.signals bytes.now)) ≡ None) ×
        (start_with found [] ≡ said_start header.now bytes.now) ×
        (texts_said found ≡ min (length (notes_of_lanes (annotation_lanes header.now.signals bytes.now)))
        (2 ^ 32 - 1))) (λ f. lanes_fault k (cause_of_lanes (annotation_lanes header.now.signals bytes.now)) ≡
        Some f) }
    ensures small { IfOk result (λ found. IfSome found (λ s. IfOk s.start (λ v. unsigned_abs v < 10 ^ 21))) }
    ensures place { IfErr result (λ f. f.place ≡ AtRecord k) }
    ensures kept { IfOk result (λ found. texts_said found ≤ most →
        K.got keeper.old (notes_in header.now bytes.now) keeper.new) }
{
    match said_by_lanes(keeper, header, bytes, most) {
        Ok(found) => Ok(found),
        Err(cause) => Err(Fault {
            place: Place::AtRecord(k),
            cause: Cause::BadTal(cause),
        }),
    }
}

/// Where data record `k` says that it starts, by what its annotation lanes say.
#[tactic(auto, unfolding(crate::specs::Faults::time_fault))]
fn judge_time(k: u32, found: Option<Said>) -> Result<RecordStart, Fault>
    requires { IfSome found (λ s. IfOk s.start (λ v. unsigned_abs v < 10 ^ 21)) }
    ensures judged { MatchResult result (λ start. (time_fault k (start_with found []) ≡ None) ×
        (start_with found [] ≡ Ok start.ps) × (unsigned_abs start.ps < 10 ^ 21)) (λ f.
        time_fault k (start_with found []) ≡ Some f) }
    ensures place { IfErr result (λ f. f.place ≡ AtRecord k) }
{
    match found {
        Some(Said { start: Ok(ps), .. }) => Ok(RecordStart { ps }),
        _ => Err(Fault {
            place: Place::AtRecord(k),
            cause: Cause::NoTimekeeping,
        }),
    }
}

/// Where a data record starts, and how many texts its annotation lanes have, up to the most that fit.
#[derive(Clone, Copy)]
struct Timed {
    start: RecordStart,
    texts: u32,
}

/// Where data record `k` says that it starts, with how many texts its annotation lanes have; or the first
/// fault of these lanes: by each of the lanes. Their annotations go to the keeper, as long as there are not more than
/// `most` texts.
#[tactic(auto, unfolding(crate::specs::Faults::lanes_fault, crate::specs::Faults::time_fault, crate::specs::times::StartsReading::said_start, crate::specs::annotation::NotesReading::notes_in))]
fn judge_each_lane<K: NoteKeeper>(
    keeper: &mut K,
    header: &Header,
    k: u32,
    bytes: &[u8],
    most: u32,
) -> Result<Timed, Fault>
    ensures judged { MatchResult result (λ timed.
        (lanes_fault k (cause_of_lanes (annotation_lanes header.now.signals bytes.now)) ≡ None) ×
        (time_fault k (said_start header.now bytes.now) ≡ None) ×
        (said_start header.now bytes.now ≡ Ok timed.start.ps) ×
        (timed.texts ≡ min (length (notes_of_lanes (annotation_lanes header.now.signals bytes.now)))
        (2 ^ 32 - 1))) (λ f. first (timed_faults header.now k bytes.now) ≡ Some f) }
    ensures small { IfOk result (λ timed. unsigned_abs timed.start.ps < 10 ^ 21) }
    ensures place { IfErr result (λ f. f.place ≡ AtRecord k) }
    ensures kept { IfOk result (λ timed. timed.texts ≤ most →
        K.got keeper.old (notes_in header.now bytes.now) keeper.new) }
{
    let found = judge_lanes(keeper, header, k, bytes, most)?;
    let start = judge_time(k, found)?;
    Ok(Timed {
        start,
        texts: texts_of(found),
    })
}

/// The same. In most data records there is one such lane, in which the TAL that keeps the time stands alone.
#[inline(always)]
#[tactic(auto, unfolding(crate::specs::Faults::lanes_fault, crate::specs::Faults::time_fault, crate::specs::times::StartsReading::said_start, crate::specs::annotation::NotesReading::notes_in))]
fn judge_timed<K: NoteKeeper>(
    keeper: &mut K,
    header: &Header,
    k: u32,
    bytes: &[u8],
    most: u32,
) -> Result<Timed, Fault>
    ensures judged { MatchResult result (λ timed.
        (lanes_fault k (cause_of_lanes (annotation_lanes header.now.signals bytes.now)) ≡ None) ×
        (time_fault k (said_start header.now bytes.now) ≡ None) ×
        (said_start header.now bytes.now ≡ Ok timed.start.ps) ×
        (timed.texts ≡ min (length (notes_of_lanes (annotation_lanes header.now.signals bytes.now)))
        (2 ^ 32 - 1))) (λ f. first (timed_faults header.now k bytes.now) ≡ Some f) }
    ensures small { IfOk result (λ timed. unsigned_abs timed.start.ps < 10 ^ 21) }
    ensures place { IfErr result (λ f. f.place ≡ AtRecord k) }
    ensures kept { IfOk result (λ timed. timed.texts ≤ most →
        K.got keeper.old (notes_in header.now bytes.now) keeper.new) }
{
    match lone_time(header, bytes) {
        Some(ps) => Ok(Timed {
            start: RecordStart { ps },
            texts: 1,
        }),
        None => judge_each_lane(keeper, header, k, bytes, most),
    }
}

/// Judges the bytes of data record `k`, and answers how far the records were followed with it; or its
/// first fault. Its annotations go to the keeper; behind as many as a file may have, none do.
#[inline(always)]
#[tactic(auto, unfolding(crate::specs::Faults::record_fault, crate::specs::annotation::NotesReading::notes_in), using(crate::proofs::annotation::NoteFacts::timed_found))]
fn judge_and_keep<K: NoteKeeper>(
    keeper: &mut K,
    header: &Header,
    k: u32,
    before: Progress,
    bytes: &[u8],
) -> Result<Progress, Fault>
    requires sized { length bytes.now ≡ record_bytes header.now }
    requires few { before.notes ≤ 1000000 }
    ensures judged { MatchResult result
        (λ after. (record_fault header.now k before.ended_ps before.notes bytes.now ≡ None)
        × (after.ended_ps ≡ start_in header.now bytes.now +ℤ header.now.duration)
        × (after.notes ≡ before.notes + length (notes_in header.now bytes.now)))
        (λ f. record_fault header.now k before.ended_ps before.notes bytes.now ≡ Some f) }
    ensures few { IfOk result (λ after. after.notes ≤ 1000000) }
    ensures small { IfOk result (λ after. unsigned_abs after.ended_ps < 2 ^ 71) }
    ensures later { IfOk result (λ after. (k ≡ 0 → before.ended_ps ≡ pos 0) →
        before.ended_ps <ℤ after.ended_ps) }
    ensures place { IfErr result (λ f. f.place ≡ AtRecord k) }
    ensures kept { OnOk result (K.got keeper.old (notes_in header.now bytes.now) keeper.new) }
{
    // with the text that only keeps the time
    let most = MOST_NOTES - before.notes + 1;
    let timed = judge_timed(keeper, header, k, bytes, most)?;
    judge_start(header.kind(), k, before, timed.start)?;
    match judge_notes(k, before.notes, timed.texts) {
        Ok(notes) => Ok(timed.start.with(header, notes)),
        Err(fault) => Err(fault),
    }
}

/// As `judge_and_keep`, but judges the data record before any of its annotations go to the keeper. Where there are
/// none, it isn't gone through again.
#[inline(never)]
fn judge_then_keep<K: NoteKeeper>(
    keeper: &mut K,
    header: &Header,
    k: u32,
    before: Progress,
    bytes: &[u8],
) -> Result<Progress, Fault>
    requires sized { length bytes.now ≡ record_bytes header.now }
    requires few { before.notes ≤ 1000000 }
    ensures judged { MatchResult result
        (λ after. (record_fault header.now k before.ended_ps before.notes bytes.now ≡ None)
        × (after.ended_ps ≡ start_in header.now bytes.now +ℤ header.now.duration)
        × (after.notes ≡ before.notes + length (notes_in header.now bytes.now)))
        (λ f. record_fault header.now k before.ended_ps before.notes bytes.now ≡ Some f) }
    ensures few { IfOk result (λ after. after.notes ≤ 1000000) }
    ensures small { IfOk result (λ after. unsigned_abs after.ended_ps < 2 ^ 71) }
    ensures later { IfOk result (λ after. (k ≡ 0 → before.ended_ps ≡ pos 0) →
        before.ended_ps <ℤ after.ended_ps) }
    ensures place { IfErr result (λ f. f.place ≡ AtRecord k) }
    ensures kept { OnOk result (K.got keeper.old (notes_in header.now bytes.now) keeper.new) }
{
    let after = judge_and_keep(&mut KeepsNone, header, k, before, bytes)?;
    if after.notes == before.notes {
        return Ok(after);
    }
    judge_and_keep(keeper, header, k, before, bytes)
}

/// Judges the bytes of data record `k`, and answers how far the records were followed with it; or its
/// first fault. Its annotations go to the keeper. A data record that may have many or long ones is judged before any
/// of them do, so that not many are kept of a faulty one.
#[inline(always)]
pub(crate) fn judge_record<K: NoteKeeper>(
    keeper: &mut K,
    header: &Header,
    k: u32,
    before: Progress,
    bytes: &[u8],
) -> Result<Progress, Fault>
    requires sized { length bytes.now ≡ record_bytes header.now }
    requires few { before.notes ≤ 1000000 }
    ensures judged { MatchResult result
        (λ after. (record_fault header.now k before.ended_ps before.notes bytes.now ≡ None)
        × (after.ended_ps ≡ start_in header.now bytes.now +ℤ header.now.duration)
        × (after.notes ≡ before.notes + length (notes_in header.now bytes.now)))
        (λ f. record_fault header.now k before.ended_ps before.notes bytes.now ≡ Some f) }
    ensures few { IfOk result (λ after. after.notes ≤ 1000000) }
    ensures small { IfOk result (λ after. unsigned_abs after.ended_ps < 2 ^ 71) }
    ensures later { IfOk result (λ after. (k ≡ 0 → before.ended_ps ≡ pos 0) →
        before.ended_ps <ℤ after.ended_ps) }
    ensures place { IfErr result (λ f. f.place ≡ AtRecord k) }
    ensures kept { OnOk result (K.got keeper.old (notes_in header.now bytes.now) keeper.new) }
{
    if !keeper.wants() || !may_say_much(header, bytes) {
        return judge_and_keep(keeper, header, k, before, bytes);
    }
    judge_then_keep(keeper, header, k, before, bytes)
}
