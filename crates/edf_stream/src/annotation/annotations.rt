//! The annotations of a data record. EDF+ (2003), "Time-stamped Annotations Lists (TALs) in an 'EDF
//! Annotations' signal".

ghost use Rattle.std.specs.Prelude.{◌≡◌, ◌∷◌, ◌++◌, ◌<◌, [], length, Some, IfSome, MatchOption};
ghost use Rattle.edf_tal.specs.Views.{tal_view, items_left};
ghost use Rattle.edf_stream.specs.annotation.Notes.{notes_of_tal};
ghost use Rattle.edf_stream.specs.annotation.NotesReading.{notes_of_lane, notes_of_lanes, notes_in};
ghost use Rattle.edf_stream.specs.Views.{note_view, notes_of_said, lane_notes_left, notes_left, placed_lanes};

use crate::annotation::note::{NoteRef, TalNotes};
use crate::records::lanes::placed_lane;
use edf_header::{Header, LanePlace};
use edf_tal::{Tal, Tals};

impl<'a> TalNotes<'a> {
    /// Those of the whole TAL.
    pub(crate) fn new(tal: &Tal<'a>) -> TalNotes<'a>
        ensures { notes_of_said (Some result) ≡ notes_of_tal (tal_view tal.now) }
    {
        TalNotes {
            onset: tal.onset(),
            duration: tal.duration(),
            texts: tal.texts(),
        }
    }

    /// The next one.
    fn next_note(&mut self) -> Option<NoteRef<'a>>
        ensures { MatchOption result ((notes_of_said (Some self.old) ≡ []) ×
            (notes_of_said (Some self.new) ≡ [])) (λ note. notes_of_said (Some self.old) ≡
            note_view note ∷ notes_of_said (Some self.new)) }
    {
        let text = self.texts.next()?;
        Some(NoteRef {
            onset: self.onset,
            duration: self.duration,
            text,
        })
    }
}

impl<'a> Iterator for TalNotes<'a> {
    ghost use Rattle.std.specs.Iterator.{YieldsFirstBy, item_count};
    ghost use Rattle.edf_stream.specs.annotation.Keeping.{tal_notes_left};
    ghost use Rattle.edf_stream.specs.Views.{note_view};

    type Item = NoteRef<'a>;

    ghost next_gives = { YieldsFirstBy note_view tal_notes_left };

    ghost remaining = { item_count tal_notes_left };

    fn next(&mut self) -> Option<NoteRef<'a>> {
        match self.next_note() {
            Some(note) => Some(note),
            None => None,
        }
    }
}

/// The annotations of a lane that are still to come.
#[derive(Drop)]
pub(crate) struct LaneNotes<'a> {
    tal: Option<TalNotes<'a>>,
    tals: Tals<'a>,
}

impl<'a> LaneNotes<'a> {
    /// Those of the whole lane.
    fn new(lane: &'a [u8]) -> LaneNotes<'a>
        ensures { lane_notes_left result ≡ notes_of_lane lane.now }
    {
        LaneNotes {
            tal: None,
            tals: Tals::new(lane),
        }
    }

    /// The next one of the TAL at hand.
    fn next_of_tal(&mut self) -> Option<NoteRef<'a>>
        ensures next { MatchOption result
            ((notes_of_said self.old.tal ≡ []) × (notes_of_said self.new.tal ≡ []))
            (λ note. notes_of_said self.old.tal ≡ note_view note ∷ notes_of_said self.new.tal) }
        ensures rest { items_left self.new.tals ≡ items_left self.old.tals }
    {
        let mut tal = self.tal.take()?;
        let note = tal.next_note()?;
        self.tal = Some(tal);
        Some(note)
    }

    /// The next one.
    fn next_note(&mut self) -> Option<NoteRef<'a>>
        ensures { MatchOption result ((lane_notes_left self.old ≡ []) × (lane_notes_left self.new ≡ []))
            (λ note. lane_notes_left self.old ≡ note_view note ∷ lane_notes_left self.new) }
    {
        loop {
            if let Some(note) = self.next_of_tal() {
                return Some(note);
            }
            match self.tals.next()? {
                Ok(tal) => self.tal = Some(TalNotes::new(&tal)),
                Err(_) => self.tal = None,
            }
        }
    }
}

/// The annotations of a data record, in order of annotation signal, TAL and text. The time-keeping text
/// is none of them.
#[derive(Drop)]
pub struct Annotations<'a> {
    lane: LaneNotes<'a>,
    places: &'a [LanePlace],
    bytes: &'a [u8],
}

impl<'a> Annotations<'a> {
    /// Those of the lanes at these places, with the time-keeping text.
    #[tactic(auto, unfolding(edf_tal::specs::Reading::items_of))]
    fn all(places: &'a [LanePlace], bytes: &'a [u8]) -> Annotations<'a>
        ensures { notes_left result ≡ notes_of_lanes (placed_lanes places.now bytes.now) }
    {
        Annotations {
            lane: LaneNotes::new(&[]),
            places,
            bytes,
        }
    }

    /// Those of the data record of these bytes: all texts but the first.
    #[tactic(auto, unfolding(crate::specs::annotation::NotesReading::notes_in), using(crate::proofs::records::SignalFacts::lanes_placed))]
    pub(crate) fn new(header: &'a Header, bytes: &'a [u8]) -> Annotations<'a>
        ensures { notes_left result ≡ notes_in header.now bytes.now }
    {
        let mut notes = Annotations::all(header.annotation_places(), bytes);
        // the first text keeps the time
        match notes.next_note() {
            Some(_time) => notes,
            None => notes,
        }
    }

    /// The lane of the next annotation signal, where there is one more.
    fn next_lane(&mut self) -> Option<LaneNotes<'a>>
        ensures lane { MatchOption result ((placed_lanes self.old.places.now self.old.bytes.now ≡ []) ×
            (placed_lanes self.new.places.now self.new.bytes.now ≡ [])) (λ lane.
            notes_of_lanes (placed_lanes self.old.places.now self.old.bytes.now) ≡ lane_notes_left lane ++
            notes_of_lanes (placed_lanes self.new.places.now self.new.bytes.now)) }
        ensures here { self.new.lane ≡ self.old.lane }
        ensures fewer { IfSome result (λ _. length self.new.places.now < length self.old.places.now) }
    {
        match self.places {
            [place, places @ ..] => {
                self.places = places;
                Some(LaneNotes::new(placed_lane(*place, self.bytes)))
            }
            [] => None,
        }
    }

    /// The next one.
    fn next_note(&mut self) -> Option<NoteRef<'a>>
        ensures { MatchOption result ((notes_left self.old ≡ []) × (notes_left self.new ≡ []))
            (λ note. notes_left self.old ≡ note_view note ∷ notes_left self.new) }
    {
        loop {
            if let Some(note) = self.lane.next_note() {
                return Some(note);
            }
            self.lane = self.next_lane()?;
        }
    }
}

impl<'a> Iterator for Annotations<'a> {
    ghost use Rattle.std.specs.Iterator.{YieldsFirstBy, item_count};
    ghost use Rattle.edf_stream.specs.Views.{note_view, notes_left};

    type Item = NoteRef<'a>;

    ghost next_gives = { YieldsFirstBy note_view notes_left };

    ghost remaining = { item_count notes_left };

    fn next(&mut self) -> Option<NoteRef<'a>> {
        match self.next_note() {
            Some(note) => Some(note),
            None => None,
        }
    }
}
