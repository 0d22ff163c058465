//! Several exports, one after the other, read beside the original.

ghost use Rattle.std.specs.Prelude.{◌≡◌, ◌+◌, ◌*◌, ◌<◌, ◌≤◌, ◌^◌, ◌++◌, ◌∷◌, [], map, length, IfErr, IfSome, OnOk};
ghost use Rattle.edf_stream.specs.Views.{note_value};
ghost use Rattle.edf_pace.specs.PartsStops.{NoneFailed, StopsOfAll};
ghost use Rattle.edf_pace.specs.Premises.{IfFaulty, IfRead};
ghost use Rattle.edf_check.specs.parts.Counted.{AreCountedBehind};
ghost use Rattle.edf_check.specs.parts.Ends.{IsReady};
ghost use Rattle.edf_pace.specs.walk.Ends.{IsFoundAmong};
ghost use Rattle.edf_check.specs.parts.Together.{SeriesFault, SeriesRead, held_notes};
ghost use Rattle.edf_pace.specs.walk.Windows.{is_last as is_last_of};
ghost use Rattle.edf_pace.specs.walk.Shown.{IsAhead, IsGoing};

use crate::parts::found::{PartsFound, found_with, nothing};
use crate::parts::part::{PartRead, Shown, read_part};
use edf_fields::Source;
use edf_pace::{FaultOf, Onlooker, Reading, Turn};
use edf_stop::PartsStop;
use edf_stream::Note;
use std::alloc::{AllocError, Global};

/// What the parts hold together that were read so far.
#[derive(Drop)]
pub(crate) struct Exported {
    /// How many samples their channels have.
    pub samples: u64,
    pub notes: Vec<Note>,
}

impl Exported {
    /// What no part holds: nothing was read yet.
    pub fn new(alloc: Global) -> Exported
        ensures none { (result.samples ≡ 0) × (result.notes.items ≡ []) }
    {
        Exported {
            samples: 0,
            notes: Vec::new(alloc),
        }
    }

    /// Takes in what a part holds that was read to its end: so many samples, and its annotations.
    ///
    /// The error is want of memory.
    fn take(&mut self, samples: u64, notes: Vec<Note>) -> Result<(), AllocError>
        requires held { self.old.samples ≤ 63 * 2 ^ 50 }
        requires few { samples ≤ 2 ^ 50 }
        ensures notes { OnOk result (held_notes self.new ≡ held_notes self.old ++
            map note_value notes.items) }
        ensures samples { OnOk result (self.new.samples ≡ self.old.samples + samples) }
    {
        self.samples += samples;
        if self.notes.is_empty() {
            self.notes = notes;
            return Ok(());
        }
        for note in notes {
            self.notes.push(note)?;
        }
        Ok(())
    }
}

/// What was read so far: the original, and what the parts hold.
#[derive(Drop)]
pub(crate) struct ReadSoFar {
    pub original: Reading,
    pub exported: Exported,
}

/// Whether there are no parts more.
fn are_none<E: Source>(parts: &[E]) -> bool
    ensures value { result ≡ is_last_of (map E.left parts.now) }
{
    parts.is_empty()
}

/// Reads a part and those behind it to their ends beside the original, which stands at the part's turn where its samples are
/// compared, and answers what is found in them; or the first fault of the original, or else of the first part that has one.
/// Where they are the same, their annotations stand behind those that were there.
///
/// The error is want of memory, or a failure of one of the sources.
pub(crate) fn read_parts<O: Source, E: Source, L: Onlooker>(
    so_far: &mut ReadSoFar,
    o: &mut O,
    part: &mut E,
    others: &mut [E],
    shown: &mut Shown<'_, '_, L>,
) -> Result<Result<PartsFound, FaultOf>, PartsStop>
    requires original { IsReady shown.old.turn (so_far.old.original).reader }
    requires few { shown.old.turn.part + length others.old < 64 }
    requires held { (so_far.old.exported).samples ≤ shown.old.turn.part * 2 ^ 50 }
    ensures modest { IfRead result (λ f.
        IfSome f.found (IsFoundAmong (length ((shown.old.turn.setting).labels).now))) }
    ensures read { IfRead result (SeriesRead O.Source E.Source shown.old.turn so_far.old so_far.new o.old
        o.new part.old part.new others.old others.new) }
    ensures lender { shown.new.onlooker.ghost_name ≡ shown.old.onlooker.ghost_name }
    ensures looks { L.looks shown.new.onlooker.now ≡ L.looks shown.old.onlooker.now }
    ensures counted { IfRead result (AreCountedBehind O.Source E.Source shown.old.turn so_far.old so_far.new
        o.old (part.old ∷ others.old) (L.looks shown.old.onlooker.now) (L.counted shown.old.onlooker.now)
        (L.counted shown.new.onlooker.now)) }
    ensures fault { IfFaulty result (SeriesFault O.Source E.Source shown.old.turn so_far.old o.old o.new
        part.old others.old) }
    ensures failures { OnOk result (NoneFailed O.Source o.old o.new E.Source part.old part.new others.old
        others.new) }
    ensures stop { IfErr result (StopsOfAll O.Source o.old o.new E.Source shown.old.turn.part
        (part.old ∷ others.old) (part.new ∷ others.new)) }
{
    let turn = Turn {
        is_last: are_none(others),
        ..shown.turn
    };
    let read = match read_part(&mut so_far.original, o, part, turn, &mut *shown.onlooker) {
        Ok(Ok(read)) => read,
        Ok(Err(fault)) => return Ok(Err(fault)),
        Err(stop) => return Err(stop),
    };
    let PartRead {
        heads,
        course,
        samples,
        notes,
    } = read;
    so_far.exported.take(samples, notes)?;
    match others.split_first_mut() {
        None => return Ok(Ok(found_with(turn.part, heads, course, nothing()))),
        Some((next, behind)) => {
            let next_turn = Turn {
                part: turn.part + 1,
                from: course.end,
                is_compared: course.is_beside,
                ..turn
            };
            let mut next_shown = Shown {
                turn: next_turn,
                onlooker: &mut *shown.onlooker,
            };
            match read_parts(so_far, o, next, behind, &mut next_shown) {
                Ok(Ok(rest)) => return Ok(Ok(found_with(turn.part, heads, course, rest))),
                Ok(Err(fault)) => return Ok(Err(fault)),
                Err(stop) => return Err(stop),
            }
        }
    }
}
