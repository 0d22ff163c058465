//! The places of annotations among all of a file in order.

ghost use Rattle.std.specs.Prelude.{◌≡◌, map, true, false, IfOk};
ghost use Rattle.std.specs.Ordering.{is_lt};
ghost use Rattle.edf_stream.specs.Views.{note_value};
ghost use Rattle.edf_tal.specs.Views.{tal_view, texts_left};
ghost use Rattle.edf_layout.specs.body.BodyLayouts.{note_places, content_of as content_in, timekeeping_of as timekeeping_in};
ghost use Rattle.edf_layout.specs.body.LaidNotes.{laid_note, note_with};
ghost use Rattle.edf_layout.specs.body.LaidTals.{content_view};
ghost use Rattle.edf_layout.specs.body.MeaningLaws.{AreInOrder};
ghost use Rattle.edf_layout.specs.body.NoteOrders.{note_cmp, place_of as place_among};

use crate::laid_tal::Content;
use crate::plain_tal::LaidNote;
use edf_stream::Note;
use edf_tal::{Tal, TalTexts};
use std::alloc::{AllocError, Global};

/// The annotation, with its text where it lies.
pub(crate) fn laid(note: &Note) -> LaidNote<'_>
    ensures { laid_note result ≡ note_value note.entry.now }
{
    LaidNote {
        onset: note.onset,
        duration: note.duration,
        text: note.text.as_str().as_bytes(),
    }
}

/// Whether an annotation comes before another one in order.
fn is_before(note: LaidNote<'_>, other: LaidNote<'_>) -> bool
    ensures { result ≡ is_lt (note_cmp (laid_note note.entry) (laid_note other.entry)) }
{
    note.cmp(&other).is_lt()
}

/// The place of an annotation among those in order: how many come before it.
pub(crate) fn place_of(notes: &[Note], note: LaidNote<'_>) -> usize
    requires { AreInOrder (map note_value notes.now) }
    ensures { result ≡ place_among (map note_value notes.now) (laid_note note.entry) }
{
    notes.partition_point(|other| is_before(laid(other), note))
}

/// The place of the annotation that a text of a TAL is.
fn place_of_text(notes: &[Note], tal: &Tal<'_>, text: &str) -> usize
    requires { AreInOrder (map note_value notes.now) }
    ensures { result ≡ place_among (map note_value notes.now)
        (note_with (tal_view tal.now).onset (tal_view tal.now).duration text.now) }
{
    let note = LaidNote {
        onset: tal.onset(),
        duration: tal.duration(),
        text: text.as_bytes(),
    };
    place_of(notes, note)
}

/// The places of the annotations that these texts of a TAL are.
fn places_of(
    alloc: Global,
    notes: &[Note],
    tal: &Tal<'_>,
    texts: TalTexts<'_>,
) -> Result<Vec<usize>, AllocError>
    requires { AreInOrder (map note_value notes.now) }
    ensures { IfOk result (λ places. places.items ≡ note_places (map note_value notes.now)
        (tal_view tal.now).onset (tal_view tal.now).duration (texts_left texts.entry)) }
{
    let mut places = Vec::new(alloc);
    for text in texts {
        places.push(place_of_text(notes, tal, text))?;
    }
    Ok(places)
}

/// What a TAL says that doesn't keep the time.
fn content_of(alloc: Global, notes: &[Note], tal: &Tal<'_>) -> Result<Content, AllocError>
    requires { AreInOrder (map note_value notes.now) }
    ensures { IfOk result (λ content.
        content_view content ≡ content_in (map note_value notes.now) (tal_view tal.now)) }
{
    if tal.text_count() == 0 {
        return Ok(Content::SaysNothing(tal.onset(), tal.duration()));
    }
    Ok(Content::Annotates(places_of(alloc, notes, tal, tal.texts())?))
}

/// What the TAL says that keeps the time.
fn timekeeping_of(alloc: Global, notes: &[Note], tal: &Tal<'_>) -> Result<Content, AllocError>
    requires { AreInOrder (map note_value notes.now) }
    ensures { IfOk result (λ content.
        content_view content ≡ timekeeping_in (map note_value notes.now) (tal_view tal.now)) }
{
    let mut texts = tal.texts();
    texts.next();
    Ok(Content::KeepsTime(tal.duration(), places_of(alloc, notes, tal, texts)?))
}

/// What a TAL says.
pub(crate) fn says(
    alloc: Global,
    notes: &[Note],
    tal: &Tal<'_>,
    keeps_time: bool,
) -> Result<Content, AllocError>
    requires { AreInOrder (map note_value notes.now) }
    ensures time { IfOk result (λ content. keeps_time ≡ true →
        content_view content ≡ timekeeping_in (map note_value notes.now) (tal_view tal.now)) }
    ensures other { IfOk result (λ content. keeps_time ≡ false →
        content_view content ≡ content_in (map note_value notes.now) (tal_view tal.now)) }
{
    if keeps_time {
        timekeeping_of(alloc, notes, tal)
    } else {
        content_of(alloc, notes, tal)
    }
}
