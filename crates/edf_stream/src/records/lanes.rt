//! The lanes of the annotation signals in a data record. EDF+ (2003), "The 'EDF Annotations' signal".

ghost use Rattle.std.specs.Prelude.{◌≡◌, ◌+◌, ◌-◌, ◌*◌, ◌≤◌, ◌<◌, ◌^◌, min, length, drop, [], None, Some, MatchResult, IfSome, IfOk, Option, unsigned_abs};
ghost use Rattle.edf_header.specs.Heads.{record_bytes};
ghost use Rattle.edf_tal.specs.Views.{tal_view, items_left, start_of};
ghost use Rattle.edf_tal.specs.Reading.{items_of};
ghost use Rattle.edf_stream.specs.records.Records.{lane_of as lane_of_signal, annotation_lanes};
ghost use Rattle.edf_stream.specs.records.RecordsReading.{lane_bytes, lane_in, numbered_lane};
ghost use Rattle.edf_stream.specs.annotation.Keeping.{behind_time};
ghost use Rattle.edf_stream.specs.annotation.Notes.{notes_of_tal};
ghost use Rattle.edf_stream.specs.annotation.NotesReading.{notes_of_items, notes_of_lane, notes_of_lanes};
ghost use Rattle.edf_stream.specs.times.StartsReading.{start_by_lanes};
ghost use Rattle.edf_stream.specs.Faults.{cause_of, cause_of_lanes};
ghost use Rattle.edf_stream.specs.Views.{texts_said, placed_lane, placed_lanes, IsSaidBy, IsTimedAlone};

use crate::annotation::note::TalNotes;
use crate::annotation::note_keeper::NoteKeeper;
use edf_fields::TalCause;
use edf_header::{Header, LanePlace, Signal};
use edf_tal::{StartCause, Tal, Tals, start_by_first, time_alone, time_alone_apart};

/// The lane at a place in the bytes of a data record, cut short where they end.
pub(crate) fn placed_lane(place: LanePlace, bytes: &[u8]) -> &[u8]
    ensures { result.now ≡ placed_lane place bytes.entry.now }
{
    let from = place.offset.min(bytes.len());
    let behind = &bytes[from..];
    let count = (2 * place.samples as usize).min(behind.len());
    &behind[..count]
}

/// The lane of a signal in the bytes of a data record, cut short where they end.
pub(crate) fn lane_of<'a>(signal: &Signal, bytes: &'a [u8]) -> &'a [u8]
    ensures { result.now ≡ lane_of_signal signal.now bytes.entry.now }
{
    let place = LanePlace {
        offset: signal.offset(),
        samples: signal.samples(),
    };
    placed_lane(place, bytes)
}

/// The lane of one of the signals, by its number.
fn numbered_lane<'a>(signals: &[Signal], bytes: &'a [u8], signal: usize) -> &'a [u8]
    requires { signal < length signals.now }
    ensures { result.now ≡ numbered_lane signals.now bytes.entry.now signal }
{
    lane_of(&signals[signal], bytes)
}

/// The lane of a signal, by its number, in the bytes of a data record.
pub(crate) fn lane_at<'a>(header: &Header, bytes: &'a [u8], signal: usize) -> &'a [u8]
    requires sized { length bytes.now ≡ record_bytes header.now }
    requires signal { signal < length header.now.signals }
    ensures lane { result.now ≡ lane_in header.now bytes.entry.now signal }
    ensures full { length result.now ≡ lane_bytes header.now signal }
{
    numbered_lane(header.signals(), bytes, signal)
}

/// How many texts a TAL has, up to the most that fit.
fn text_count(tal: &Tal<'_>) -> u32
    ensures { result ≡ min (length (tal_view tal.now).texts) (2 ^ 32 - 1) }
{
    tal.text_count().min(u32::MAX as usize) as u32
}

/// Gives the annotations of a TAL to the keeper, and answers how many texts there are with its own behind `count`
/// others of the data record, up to the most that fit. Where there are more than `most`, it gives none.
fn keep_tal<K: NoteKeeper>(keeper: &mut K, tal: &Tal<'_>, count: u32, most: u32) -> u32
    ensures texts { result ≡ min (count + length (notes_of_tal (tal_view tal.now))) (2 ^ 32 - 1) }
    ensures kept { result ≤ most →
        K.got keeper.old (behind_time count (notes_of_tal (tal_view tal.now))) keeper.new }
{
    let texts = count.saturating_add(text_count(tal));
    if texts <= most {
        let mut notes = TalNotes::new(tal);
        if count == 0 {
            // the first text keeps the time
            notes.next();
        }
        keeper.keep(notes);
    }
    texts
}

/// Gives the annotations in the TALs that are left of a lane to the keeper, and answers how many texts there are
/// with theirs behind `count` others of the data record, up to the most that fit; or why the lane is no list of
/// TALs. Of the texts behind `most` none are given.
fn rest_texts<K: NoteKeeper>(
    keeper: &mut K,
    tals: Tals<'_>,
    count: u32,
    most: u32,
) -> Result<u32, TalCause>
    ensures counted { MatchResult result (λ n. (cause_of (items_left tals.entry) ≡ None) ×
        (n ≡ min (count + length (notes_of_items (items_left tals.entry))) (2 ^ 32 - 1))) (λ cause.
        cause_of (items_left tals.entry) ≡ Some cause) }
    ensures kept { IfOk result (λ n. n ≤ most →
        K.got keeper.old (behind_time count (notes_of_items (items_left tals.entry))) keeper.new) }
{
    let mut texts = count;
    for item in tals {
        let tal = item?;
        texts = keep_tal(keeper, &tal, texts, most);
    }
    Ok(texts)
}

/// What annotation lanes say together.
#[derive(Clone, Copy)]
pub(crate) struct Said {
    /// Where the data record starts, by the first of them.
    pub start: Result<i128, StartCause>,
    /// How many texts they have, up to the most that fit.
    pub texts: u32,
}

/// What one lane says behind `before` other texts of the data record, or why it is no list of TALs, by its TALs.
/// Its annotations go to the keeper, as long as there are not more than `most` texts.
fn said_by_tals<K: NoteKeeper>(
    keeper: &mut K,
    lane: &[u8],
    before: u32,
    most: u32,
) -> Result<Said, TalCause>
    ensures said { MatchResult result
        (λ said. (cause_of (items_of lane.now) ≡ None) × (said.start ≡ start_of (items_of lane.now))
        × (said.texts ≡ min (before + length (notes_of_lane lane.now)) (2 ^ 32 - 1)))
        (λ cause. cause_of (items_of lane.now) ≡ Some cause) }
    ensures small { IfOk result (λ said. IfOk said.start (λ v. unsigned_abs v < 10 ^ 21)) }
    ensures kept { IfOk result (λ said. said.texts ≤ most →
        K.got keeper.old (behind_time before (notes_of_lane lane.now)) keeper.new) }
{
    let mut tals = Tals::new(lane);
    match tals.next() {
        None => Ok(Said {
            start: start_by_first(None),
            texts: before,
        }),
        Some(item) => {
            let start = start_by_first(Some(&item));
            let count = keep_tal(keeper, &item?, before, most);
            let texts = rest_texts(keeper, tals, count, most)?;
            Ok(Said { start, texts })
        }
    }
}

/// What one lane says behind `before` other texts of the data record, or why it is no list of TALs. Its annotations
/// go to the keeper, as long as there are not more than `most` texts. In most first lanes the TAL that keeps the time
/// stands alone; in a later lane such a TAL is an annotation, which is passed over where the keeper wants none.
fn said_by_lane<K: NoteKeeper>(
    keeper: &mut K,
    lane: &[u8],
    before: u32,
    most: u32,
) -> Result<Said, TalCause>
    ensures said { MatchResult result
        (λ said. (cause_of (items_of lane.now) ≡ None) × (said.start ≡ start_of (items_of lane.now))
        × (said.texts ≡ min (before + length (notes_of_lane lane.now)) (2 ^ 32 - 1)))
        (λ cause. cause_of (items_of lane.now) ≡ Some cause) }
    ensures small { IfOk result (λ said. IfOk said.start (λ v. unsigned_abs v < 10 ^ 21)) }
    ensures kept { IfOk result (λ said. said.texts ≤ most →
        K.got keeper.old (behind_time before (notes_of_lane lane.now)) keeper.new) }
{
    if before > 0 && keeper.wants() {
        return said_by_tals(keeper, lane, before, most);
    }
    match time_alone_apart(lane) {
        Some(start) => Ok(Said {
            start: Ok(start),
            texts: before.saturating_add(1),
        }),
        None => said_by_tals(keeper, lane, before, most),
    }
}

/// What the only annotation lane of a data record says, where the TAL that keeps the time stands alone in it;
/// none elsewhere.
#[inline(always)]
pub(crate) fn lone_time(header: &Header, bytes: &[u8]) -> Option<i128>
    ensures alone { IfSome result (λ v. IsTimedAlone (annotation_lanes header.now.signals bytes.now) v) }
    ensures small { IfSome result (λ v. unsigned_abs v < 10 ^ 21) }
{
    match header.annotation_places() {
        [place] => time_alone(placed_lane(*place, bytes)),
        _ => None,
    }
}

/// How many texts lanes have, up to the most that fit.
pub(crate) fn texts_of(found: Option<Said>) -> u32
    ensures { result ≡ texts_said found }
{
    match found {
        Some(said) => said.texts,
        None => 0,
    }
}

/// What lanes say with one more behind them, which counts their texts as well.
fn said_with(found: Option<Said>, lane: Said) -> Said
    requires found { IfSome found (λ s. IfOk s.start (λ v. unsigned_abs v < 10 ^ 21)) }
    requires lane { IfOk lane.start (λ v. unsigned_abs v < 10 ^ 21) }
    ensures first { found ≡ None → result.start ≡ lane.start }
    ensures later { IfSome found (λ s. result.start ≡ s.start) }
    ensures texts { result.texts ≡ lane.texts }
    ensures small { IfOk result.start (λ v. unsigned_abs v < 10 ^ 21) }
{
    match found {
        None => lane,
        Some(before) => Said {
            start: before.start,
            texts: lane.texts,
        },
    }
}

/// What the lanes at these places say, none where there is no lane; or why the first bad one is no list of
/// TALs. Their annotations go to the keeper, as long as there are not more than `most` texts.
fn said_at_places<K: NoteKeeper>(
    keeper: &mut K,
    places: &[LanePlace],
    bytes: &[u8],
    most: u32,
) -> Result<Option<Said>, TalCause>
    ensures said { IsSaidBy (placed_lanes places.now bytes.now) result }
    ensures small { IfOk result (λ found. IfSome found (λ s. IfOk s.start (λ v. unsigned_abs v < 10 ^ 21))) }
    ensures kept { IfOk result (λ found. texts_said found ≤ most →
        K.got keeper.old (drop 1 (notes_of_lanes (placed_lanes places.now bytes.now))) keeper.new) }
{
    let mut found = None;
    for place in places {
        let said = said_by_lane(keeper, placed_lane(*place, bytes), texts_of(found), most)?;
        found = Some(said_with(found, said));
    }
    Ok(found)
}

/// What the annotation lanes in the bytes of a data record say, none where there is no such lane; or
/// why the first bad one is no list of TALs. Their annotations go to the keeper, as long as there are not more than
/// `most` texts.
pub(crate) fn said_by_lanes<K: NoteKeeper>(
    keeper: &mut K,
    header: &Header,
    bytes: &[u8],
    most: u32,
) -> Result<Option<Said>, TalCause>
    ensures said { IsSaidBy (annotation_lanes header.now.signals bytes.now) result }
    ensures small { IfOk result (λ found. IfSome found (λ s. IfOk s.start (λ v. unsigned_abs v < 10 ^ 21))) }
    ensures kept { IfOk result (λ found. texts_said found ≤ most →
        K.got keeper.old (drop 1 (notes_of_lanes (annotation_lanes header.now.signals bytes.now)))
        keeper.new) }
{
    said_at_places(keeper, header.annotation_places(), bytes, most)
}
