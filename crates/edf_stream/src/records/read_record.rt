//! Reading data records one after the other, and the end behind the last.

ghost use Rattle.std.specs.Prelude.{◌≡◌, ℕ, pos, ◌+◌, ◌≤◌, ◌<◌, ◌+ℤ◌, ◌<ℤ◌, ◌^◌, List, [], length, drop, None, Some, false, IfOk, IfErr, OnOk, OnErr, IsTrue, unsigned_abs};
ghost use Rattle.edf_fields.specs.in_out.Sources.{Fails};
ghost use Rattle.edf_fields.specs.Tests.{first};
ghost use Rattle.edf_fields.specs.declared.faults.fault.Place.TheVariants.{AtRecord, AtEnd};
ghost use Rattle.edf_fields.specs.declared.faults.fault.Cause.TheVariants.{TrailingBytes};
ghost use Rattle.edf_header.specs.Heads.{record_bytes};
ghost use Rattle.edf_stream.specs.annotation.NotesReading.{notes_in};
ghost use Rattle.edf_stream.specs.times.StartsReading.{start_in};
ghost use Rattle.edf_stream.specs.Faults.{records_tests, body_fault};
ghost use Rattle.edf_stream.specs.records.Readers.{HasPassed, StandsAt, StopsReading, StopsAt, place_behind};
ghost use Rattle.edf_stream.specs.records.Steps.{IsRead, GoesOn, followed};

use crate::annotation::note_keeper::NoteKeeper;
use crate::records::record::judge_record;
use crate::times::start::Progress;
use edf_fields::{Cause, Fault, Place, Source, fill};
use edf_header::{Header, Stop};

/// A data record that is to be read: number `k` of the file with this header.
#[derive(Clone, Copy)]
pub(crate) struct DueRecord<'a> {
    pub header: &'a Header,
    pub k: u32,
}

/// Reads the data record that is due into the buffer and judges it, and puts how far the records were followed with it
/// into `progress`. Its annotations go to the keeper.
fn read_record<S: Source, K: NoteKeeper>(
    source: &mut S,
    keeper: &mut K,
    buffer: &mut [u8],
    due: DueRecord<'_>,
    progress: &mut Progress,
) -> Result<(), Stop>
    requires sized { length buffer.old ≡ record_bytes due.header.now }
    requires few { progress.old.notes ≤ 1000000 }
    ensures few { progress.new.notes ≤ 1000000 }
    ensures small { OnOk result (unsigned_abs progress.new.ended_ps < 2 ^ 71) }
    ensures later { OnOk result ((due.entry.k ≡ 0 → progress.old.ended_ps ≡ pos 0) →
        progress.old.ended_ps <ℤ progress.new.ended_ps) }
    ensures end { OnOk result (progress.new.ended_ps ≡
        start_in due.entry.header.now buffer.new +ℤ due.entry.header.now.duration) }
    ensures notes { OnOk result (progress.new.notes ≡
        progress.old.notes + length (notes_in due.entry.header.now buffer.new)) }
    ensures held { OnErr result (progress.new ≡ progress.old) }
    ensures full { OnOk result (length buffer.new ≡ length buffer.old) }
    ensures failures { OnOk result (S.reads source.new ≡ S.reads source.old) }
    ensures honesty { OnOk result (IsTrue (S.is_honest source.old) → IsTrue (S.is_honest source.new)) }
    ensures found { OnOk result (IsTrue (S.is_honest source.old) → (file : List ℕ) →
        StandsAt file due.entry.header.now due.entry.k progress.old.ended_ps progress.old.notes
        (S.left source.old) →
        IsRead file due.entry.header.now due.entry.k progress.new.ended_ps progress.new.notes
        (S.left source.new) buffer.new) }
    ensures stop { IfErr result (StopsReading (λ f. (S.reads source.new ≡ S.reads source.old) ×
        (IsTrue (S.is_honest source.old) → (file : List ℕ) →
        StandsAt file due.entry.header.now due.entry.k progress.old.ended_ps progress.old.notes
        (S.left source.old) → first (records_tests file due.entry.header.now due.entry.k 1) ≡ Some f))
        (Fails (S.reads source.old) (S.reads source.new))) }
    ensures place { IfErr result (StopsAt (AtRecord due.entry.k)) }
    ensures kept { OnOk result (K.got keeper.old (notes_in due.entry.header.now buffer.new) keeper.new) }
{
    let DueRecord { header, k } = due;
    let got = match fill(source, buffer) {
        Ok(got) => got,
        Err(_) => return Err(Stop::ReadFailed),
    };
    if got < buffer.len() {
        return Err(Stop::Fault(Fault {
            place: Place::AtRecord(k),
            cause: Cause::Truncated,
        }));
    }
    match judge_record(keeper, header, k, *progress, buffer) {
        Ok(after) => {
            *progress = after;
            Ok(())
        }
        Err(fault) => Err(Stop::Fault(fault)),
    }
}

/// Sees that the source has nothing left.
fn check_end<S: Source>(source: &mut S) -> Result<(), Stop>
    ensures failures { OnOk result (S.reads source.new ≡ S.reads source.old) }
    ensures honesty { OnOk result (IsTrue (S.is_honest source.old) → IsTrue (S.is_honest source.new)) }
    ensures ended { OnOk result (IsTrue (S.is_honest source.old) → (S.left source.old ≡ []) ×
        (S.left source.new ≡ [])) }
    ensures stop { IfErr result (StopsReading (λ f. (S.reads source.new ≡ S.reads source.old) ×
        (IsTrue (S.is_honest source.old) → (0 < length (S.left source.old)) ×
        (f ≡ record { place = AtEnd; cause = TrailingBytes })))
        (Fails (S.reads source.old) (S.reads source.new))) }
    ensures place { IfErr result (StopsAt AtEnd) }
{
    let mut extra = [0u8; 1];
    let got = fill(source, &mut extra)?;
    if got > 0 {
        return Err(Stop::Fault(Fault {
            place: Place::AtEnd,
            cause: Cause::TrailingBytes,
        }));
    }
    Ok(())
}

/// Reads the data record that is due where the header announces it, and puts how far the records were followed with it
/// into `progress`: `Ok(true)`; else sees that the file ends there: `Ok(false)`. Its annotations go to the keeper.
pub(crate) fn advance<S: Source, K: NoteKeeper>(
    source: &mut S,
    keeper: &mut K,
    buffer: &mut [u8],
    due: DueRecord<'_>,
    progress: &mut Progress,
) -> Result<bool, Stop>
    requires sized { length buffer.old ≡ record_bytes due.header.now }
    requires few { progress.old.notes ≤ 1000000 }
    ensures few { progress.new.notes ≤ 1000000 }
    ensures small { IfOk result (λ more. IsTrue more → unsigned_abs progress.new.ended_ps < 2 ^ 71) }
    ensures later { IfOk result (λ more. IsTrue more → (due.entry.k ≡ 0 → progress.old.ended_ps ≡ pos 0) →
        progress.old.ended_ps <ℤ progress.new.ended_ps) }
    ensures end { IfOk result (λ more. IsTrue more →
        progress.new.ended_ps ≡ start_in due.entry.header.now buffer.new +ℤ due.entry.header.now.duration) }
    ensures notes { IfOk result (λ more. IsTrue more →
        progress.new.notes ≡ progress.old.notes + length (notes_in due.entry.header.now buffer.new)) }
    ensures stays { IfOk result (λ more. more ≡ false → progress.new ≡ progress.old) }
    ensures held { OnErr result (progress.new ≡ progress.old) }
    ensures full { OnOk result (length buffer.new ≡ length buffer.old) }
    ensures room { IfOk result (λ more. IsTrue more → due.entry.k < due.entry.header.now.records) }
    ensures failures { OnOk result (S.reads source.new ≡ S.reads source.old) }
    ensures honesty { OnOk result (IsTrue (S.is_honest source.old) → IsTrue (S.is_honest source.new)) }
    ensures goes_on { IfOk result (λ more. IsTrue (S.is_honest source.old) → (file : List ℕ) →
        HasPassed file due.entry.header.now due.entry.k →
        StandsAt file due.entry.header.now due.entry.k progress.old.ended_ps progress.old.notes
        (S.left source.old) →
        GoesOn file due.entry.header.now due.entry.k progress.old (followed more progress.new)
        (S.left source.new) buffer.new) }
    ensures stop { IfErr result (StopsReading (λ f. (S.reads source.new ≡ S.reads source.old) ×
        (IsTrue (S.is_honest source.old) → (file : List ℕ) → HasPassed file due.entry.header.now due.entry.k →
        StandsAt file due.entry.header.now due.entry.k progress.old.ended_ps progress.old.notes
        (S.left source.old) → body_fault file due.entry.header.now ≡ Some f))
        (Fails (S.reads source.old) (S.reads source.new))) }
    ensures place { IfErr result (StopsAt (place_behind due.entry.header.now due.entry.k)) }
    ensures kept { IfOk result (λ more. IsTrue more →
        K.got keeper.old (notes_in due.entry.header.now buffer.new) keeper.new) }
    ensures none { IfOk result (λ more. more ≡ false → keeper.new ≡ keeper.old) }
{
    let DueRecord { header, k } = due;
    if k < header.records() {
        return match read_record(source, keeper, buffer, due, progress) {
            Ok(()) => Ok(true),
            Err(stop) => Err(stop),
        };
    }
    match check_end(source) {
        Ok(()) => Ok(false),
        Err(stop) => Err(stop),
    }
}
