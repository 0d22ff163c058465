//! One of several exports, read to its end beside the original.

ghost use Rattle.std.specs.Prelude.{◌≡◌, ◌≤◌, ◌^◌, ◌≤ℤ◌, ◌<ℤ◌, ◌&&◌, ◌||◌, not, is_some, [], length, true, false, None, IfErr, OnOk, IfSome};
ghost use Rattle.edf_stream.specs.records.Readers.{HasBegun, is_current};
ghost use Rattle.edf_pace.specs.PartsStops.{StopsOfTwo};
ghost use Rattle.edf_check.specs.parts.PartsVerdicts.{samples_in};
ghost use Rattle.edf_pace.specs.Premises.{IfFaulty, IfRead};
ghost use Rattle.edf_check.specs.parts.Ends.{FaultyOver, IsReady, PartFaultBy, PartFaulty, PartMatched, PartPassed, PartReadBy, PartStays, PartThrough, PassedOver, PassesBehind, PassesPart, Stays, ThroughOver, TurnEnded, TurnMatched, TurnThrough};
ghost use Rattle.edf_check.specs.parts.Counted.{IsUncounted, PartCounted, PartCountedBy, PartUncountedBy, StaysBeside, TurnCounted};
ghost use Rattle.edf_pace.specs.walk.Ends.{FaultyOn, IsFoundAmong};
ghost use Rattle.edf_pace.specs.walk.Readings.{HasGoneOn};
ghost use Rattle.edf_pace.specs.walk.Shown.{IfAtHand, IsAhead, IsGoing, StandsAt, begins_at};

use edf_fields::Source;
use edf_heads::head_difference;
use edf_pace::{
    FaultOf, FirstFound, Found, Frame, Offset, Onlooker, Reading, Time, Turn, View, Watch, Watcher,
    begin_ps_of, common_room, end_both, export_fault, finish, go_on, open, pairs_of, start,
    walk_on,
};
use edf_stop::{PartSide, PartsStop};
use edf_stream::{FileReader, KeepsNone, Note, Summary};
use edf_verdict::Verdict;

/// Whose turn it is, and who looks on.
#[derive(Drop)]
pub(crate) struct Shown<'a, 'b, L> {
    pub turn: Turn<'a>,
    pub onlooker: &'b mut L,
}

/// When the data records of a part begin and end, and what they differ in.
#[derive(Clone, Copy)]
pub(crate) struct Course {
    /// Whether the first one begins before the part's turn.
    pub is_early: bool,
    /// Where the last one ends.
    pub end: Time,
    /// The first difference of the samples, where these are compared.
    pub found: Option<Found>,
    /// Whether the original stands where the last one ends, so that the next part can be compared.
    pub is_beside: bool,
}

/// A part that was read to its end.
#[derive(Drop)]
pub(crate) struct PartRead {
    /// The verdict on its header, where that differs.
    pub heads: Option<Verdict>,
    pub course: Course,
    /// How many samples its channels have.
    pub samples: u64,
    /// Its annotations, where these are compared.
    pub notes: Vec<Note>,
}

/// How many samples the channels of a file have that was read to its end.
fn samples_of(reading: &Reading) -> u64
    ensures value { result ≡ samples_in (reading.now.reader).head }
    ensures few { result ≤ 2 ^ 50 }
{
    Summary::of(reading.reader.header(), 0).samples
}

/// Whether a data record is at hand that begins at a time or later.
fn begins_from(reader: &FileReader, by: Offset, time: Time) -> bool
    ensures current { result ≡ true → is_current reader.now.status ≡ true }
    ensures later { result ≡ true → time.ps ≤ℤ begins_at reader.now by.ps }
    ensures ahead { result ≡ true → IsAhead reader.now by.ps time.ps }
    ensures early { result ≡ false → IfAtHand reader.now (begins_at reader.now by.ps <ℤ time.ps) }
{
    reader.has_current() && time.ps <= begin_ps_of(reader, by)
}

/// Whether nothing more is compared behind a part: enough was seen, or no further part follows.
fn is_over(has_enough: bool, is_last: bool) -> bool
    ensures { result ≡ (has_enough || is_last) }
{
    has_enough || is_last
}

/// Compares a part, of which the first data record was read and doesn't begin early, with the original, which stands at the
/// part's turn; or finds the first fault of the original, or else of the part. The part is read to its end, and the
/// original, too, where no further part follows, or where the samples differ.
///
/// The error is want of memory, or a failure of one of the sources.
// the walk is inlined here, and is the slower the more stands around it
#[inline(never)]
fn compare_on<O: Source, E: Source, L: Onlooker>(
    original: &mut Reading,
    o: &mut O,
    export: &mut Reading,
    e: &mut E,
    shown: &mut Shown<'_, '_, L>,
) -> Result<Result<Course, FaultOf>, PartsStop>
    requires compared { shown.old.turn.is_compared ≡ true }
    requires original { StandsAt original.old.reader ((shown.old.turn.setting).clock.original).ps
        (shown.old.turn.from).ps }
    requires export { StandsAt export.old.reader ((shown.old.turn.setting).clock.export).ps
        (shown.old.turn.from).ps }
    requires at_hand { is_current (export.old.reader).status ≡ true }
    ensures modest { IfRead result (λ c.
        IfSome c.found (IsFoundAmong (length ((shown.old.turn.setting).labels).now))) }
    ensures head { IfRead result (λ c. (export.new.reader).head ≡ (export.old.reader).head) }
    ensures later { IfRead result (λ c. c.is_early ≡ false) }
    ensures passes { IfRead result (PassesBehind O.Source original.old o.old original.new o.new
        shown.old.turn) }
    ensures stays { IfRead result (Stays shown.old.turn) }
    ensures through { IfRead result (TurnThrough O.Source E.Source original.old o.old o.new export.old e.old
        shown.old.turn) }
    ensures ended { IfRead result (TurnEnded O.Source E.Source original.old o.old export.old e.old e.new
        shown.old.turn) }
    ensures matched { IfRead result (TurnMatched O.Source E.Source original.old o.old original.new export.old
        e.old export.new shown.old.turn) }
    ensures lender { shown.new.onlooker.ghost_name ≡ shown.old.onlooker.ghost_name }
    ensures looks { L.looks shown.new.onlooker.now ≡ L.looks shown.old.onlooker.now }
    ensures before { L.counted shown.new.onlooker.now ≡ L.counted shown.old.onlooker.now }
    ensures beside { IfRead result (StaysBeside (L.looks shown.old.onlooker.now) shown.old.turn) }
    ensures counted { IfRead result (λ c. TurnCounted O.Source E.Source original.old o.old original.new
        export.old e.old export.new shown.old.turn (L.looks shown.old.onlooker.now)
        (L.counts shown.new.onlooker.now)) }
    ensures fault { IfFaulty result (FaultyOn O.Source E.Source original.old o.old o.new export.old e.old
        shown.old.turn) }
    ensures failures { OnOk result ((O.reads o.new ≡ O.reads o.old) × (E.reads e.new ≡ E.reads e.old)) }
    ensures stop { IfErr result (StopsOfTwo O.Source o.old o.new E.Source shown.old.turn.part e.old
        e.new) }
{
    let turn = shown.turn;
    let (here, there) = (original.reader.header(), export.reader.header());
    let pairs = pairs_of(turn.setting.alloc, here, there, turn.setting.labels)?;
    let frame = Frame {
        turn,
        pairs: &pairs,
        room: common_room(here, there, &pairs),
    };
    shown.onlooker.begin(frame)?;
    let mut watch = Watch {
        frame,
        watcher: FirstFound {
            found: None,
            onlooker: &mut *shown.onlooker,
        },
    };
    let read = match walk_on(original, o, export, e, &mut watch) {
        Ok(Ok(read)) => read,
        Ok(Err(fault)) => return Ok(Err(fault)),
        Err(stop) => return Err(stop),
    };
    let found = watch.watcher.found;
    if !is_over(watch.watcher.has_enough(), turn.is_last) {
        return Ok(Ok(Course {
            is_early: false,
            end: read.reached,
            found,
            is_beside: true,
        }));
    }
    match end_both(&mut original.reader, o, &mut export.reader, e, turn) {
        Ok(Ok(end)) => Ok(Ok(Course {
            is_early: false,
            end,
            found,
            is_beside: false,
        })),
        Ok(Err(fault)) => Ok(Err(fault)),
        Err(stop) => Err(stop),
    }
}

/// Reads a part, of which the header was read and agrees, beside the original, which stands at the part's turn; or finds
/// the first fault of the original, or else of the part. The part is read to its end, and the original, too, where no
/// further part follows, or where the part isn't the same.
///
/// The error is want of memory, or a failure of one of the sources.
fn compare<O: Source, E: Source, L: Onlooker>(
    original: &mut Reading,
    o: &mut O,
    export: &mut Reading,
    e: &mut E,
    shown: &mut Shown<'_, '_, L>,
) -> Result<Result<Course, FaultOf>, PartsStop>
    requires compared { shown.old.turn.is_compared ≡ true }
    requires original { StandsAt original.old.reader ((shown.old.turn.setting).clock.original).ps
        (shown.old.turn.from).ps }
    requires export { HasBegun export.old.reader × ((export.old.notes).items ≡ []) }
    ensures modest { IfRead result (λ c.
        IfSome c.found (IsFoundAmong (length ((shown.old.turn.setting).labels).now))) }
    ensures head { IfRead result (λ c. (export.new.reader).head ≡ (export.old.reader).head) }
    ensures passes { IfRead result (PassesBehind O.Source original.old o.old original.new o.new
        shown.old.turn) }
    ensures stays { IfRead result (Stays shown.old.turn) }
    ensures through { IfRead result (PartThrough O.Source E.Source original.old o.old o.new export.old e.old
        shown.old.turn) }
    ensures passed { IfRead result (PartPassed O.Source E.Source original.old o.old export.old e.old e.new
        shown.old.turn) }
    ensures matched { IfRead result (PartMatched O.Source E.Source original.old o.old original.new export.old
        e.old export.new shown.old.turn) }
    ensures lender { shown.new.onlooker.ghost_name ≡ shown.old.onlooker.ghost_name }
    ensures looks { L.looks shown.new.onlooker.now ≡ L.looks shown.old.onlooker.now }
    ensures before { L.counted shown.new.onlooker.now ≡ L.counted shown.old.onlooker.now }
    ensures beside { IfRead result (StaysBeside (L.looks shown.old.onlooker.now) shown.old.turn) }
    ensures counted { IfRead result (PartCounted O.Source E.Source original.old o.old original.new export.old
        e.old export.new shown.old.turn (L.looks shown.old.onlooker.now)
        (L.counts shown.new.onlooker.now)) }
    ensures uncounted { IfRead result (IsUncounted (L.looks shown.old.onlooker.now) shown.old.turn
        (L.counts shown.new.onlooker.now)) }
    ensures fault { IfFaulty result (PartFaulty O.Source E.Source original.old o.old o.new export.old e.old
        shown.old.turn) }
    ensures failures { OnOk result ((O.reads o.new ≡ O.reads o.old) × (E.reads e.new ≡ E.reads e.old)) }
    ensures stop { IfErr result (StopsOfTwo O.Source o.old o.new E.Source shown.old.turn.part e.old
        e.new) }
{
    let turn = shown.turn;
    let view = View {
        alloc: turn.setting.alloc,
        moved: turn.setting.clock.export,
        claim: None,
    };
    match start(export, e, PartSide::Part(turn.part), view) {
        Ok(None) => {}
        Ok(Some(fault)) => {
            return match export_fault(&mut original.reader, o, turn.part, fault) {
                Ok(first) => Ok(Err(first)),
                Err(stop) => Err(stop),
            };
        }
        Err(stop) => return Err(stop),
    }
    if begins_from(&export.reader, turn.setting.clock.export, turn.from) {
        return match compare_on(original, o, export, e, shown) {
            Ok(Ok(course)) => Ok(Ok(course)),
            Ok(Err(fault)) => Ok(Err(fault)),
            Err(stop) => Err(stop),
        };
    }
    shown.onlooker.begin_without();
    match end_both(&mut original.reader, o, &mut export.reader, e, turn) {
        Ok(Ok(end)) => Ok(Ok(Course {
            is_early: true,
            end,
            found: None,
            is_beside: false,
        })),
        Ok(Err(fault)) => Ok(Err(fault)),
        Err(stop) => Err(stop),
    }
}

/// Reads a part, of which the header was read, to its end, and the original, too: its samples aren't compared. Or finds the
/// first fault of the original, or else of the part.
///
/// The error is a failure of one of the sources.
fn pass_over<O: Source, E: Source>(
    original: &mut FileReader,
    o: &mut O,
    export: &mut FileReader,
    e: &mut E,
    turn: Turn<'_>,
) -> Result<Result<Course, FaultOf>, PartsStop>
    requires original { IsGoing original.old.status }
    requires export { HasBegun export.old }
    ensures none { IfRead result (λ c. (c.found ≡ None) × (c.is_beside ≡ false)) }
    ensures head { IfRead result (λ c. export.new.head ≡ export.old.head) }
    ensures goes { IfRead result (λ c. HasGoneOn O.Source original.old o.old original.new o.new) }
    ensures through { IfRead result (ThroughOver O.Source E.Source original.old o.old o.new export.old
        e.old) }
    ensures passed { IfRead result (PassedOver O.Source E.Source original.old o.old export.old e.old e.new
        turn.entry) }
    ensures fault { IfFaulty result (FaultyOver O.Source E.Source original.old o.old o.new export.old e.old
        turn.entry.part) }
    ensures failures { OnOk result ((O.reads o.new ≡ O.reads o.old) × (E.reads e.new ≡ E.reads e.old)) }
    ensures stop { IfErr result (StopsOfTwo O.Source o.old o.new E.Source turn.entry.part e.old e.new) }
{
    match finish(original, o, PartSide::Original) {
        Ok(None) => {}
        Ok(Some(fault)) => return Ok(Err(FaultOf::Original(fault))),
        Err(stop) => return Err(stop),
    }
    match go_on(&mut KeepsNone, export, e, PartSide::Part(turn.part)) {
        Ok(None) => {}
        Ok(Some(fault)) => return Ok(Err(FaultOf::Part(turn.part, fault))),
        Err(stop) => return Err(stop),
    }
    let is_early = !begins_from(export, turn.setting.clock.export, turn.from);
    match end_both(original, o, export, e, turn) {
        Ok(Ok(end)) => Ok(Ok(Course {
            is_early,
            end,
            found: None,
            is_beside: false,
        })),
        Ok(Err(fault)) => Ok(Err(fault)),
        Err(stop) => Err(stop),
    }
}

/// Reads a part, of which the header was read, as far as its turn says beside the original.
///
/// The error is want of memory, or a failure of one of the sources.
fn read_course<O: Source, E: Source, L: Onlooker>(
    original: &mut Reading,
    o: &mut O,
    export: &mut Reading,
    e: &mut E,
    shown: &mut Shown<'_, '_, L>,
) -> Result<Result<Course, FaultOf>, PartsStop>
    requires original { IsReady shown.old.turn original.old.reader }
    requires export { HasBegun export.old.reader × ((export.old.notes).items ≡ []) }
    ensures modest { IfRead result (λ c.
        IfSome c.found (IsFoundAmong (length ((shown.old.turn.setting).labels).now))) }
    ensures head { IfRead result (λ c. (export.new.reader).head ≡ (export.old.reader).head) }
    ensures passes { IfRead result (PassesBehind O.Source original.old o.old original.new o.new
        shown.old.turn) }
    ensures stays { IfRead result (Stays shown.old.turn) }
    ensures through { IfRead result (PartThrough O.Source E.Source original.old o.old o.new export.old e.old
        shown.old.turn) }
    ensures passed { IfRead result (PartPassed O.Source E.Source original.old o.old export.old e.old e.new
        shown.old.turn) }
    ensures matched { IfRead result (PartMatched O.Source E.Source original.old o.old original.new export.old
        e.old export.new shown.old.turn) }
    ensures lender { shown.new.onlooker.ghost_name ≡ shown.old.onlooker.ghost_name }
    ensures looks { L.looks shown.new.onlooker.now ≡ L.looks shown.old.onlooker.now }
    ensures before { L.counted shown.new.onlooker.now ≡ L.counted shown.old.onlooker.now }
    ensures beside { IfRead result (StaysBeside (L.looks shown.old.onlooker.now) shown.old.turn) }
    ensures counted { IfRead result (PartCounted O.Source E.Source original.old o.old original.new export.old
        e.old export.new shown.old.turn (L.looks shown.old.onlooker.now)
        (L.counts shown.new.onlooker.now)) }
    ensures uncounted { IfRead result (IsUncounted (L.looks shown.old.onlooker.now) shown.old.turn
        (L.counts shown.new.onlooker.now)) }
    ensures fault { IfFaulty result (PartFaulty O.Source E.Source original.old o.old o.new export.old e.old
        shown.old.turn) }
    ensures failures { OnOk result ((O.reads o.new ≡ O.reads o.old) × (E.reads e.new ≡ E.reads e.old)) }
    ensures stop { IfErr result (StopsOfTwo O.Source o.old o.new E.Source shown.old.turn.part e.old
        e.new) }
{
    if shown.turn.is_compared {
        compare(original, o, export, e, shown)
    } else {
        shown.onlooker.begin_without();
        pass_over(&mut original.reader, o, &mut export.reader, e, shown.turn)
    }
}

/// Whether the samples of a part with this verdict on its header are compared: where that differs, only for who looks on.
fn is_compared(turn: Turn<'_>, heads: &Option<Verdict>, looks: bool) -> bool
    ensures { result ≡ (turn.entry.is_compared && (not (is_some heads.now) || looks)) }
{
    turn.is_compared && (heads.is_none() || looks)
}

/// Opens a part and reads it to its end beside the original, which stands at the part's turn where the part is compared; or
/// finds the first fault of the original, or else of the part.
///
/// The error is want of memory, or a failure of one of the sources.
pub(crate) fn read_part<O: Source, E: Source, L: Onlooker>(
    original: &mut Reading,
    o: &mut O,
    e: &mut E,
    turn: Turn<'_>,
    onlooker: &mut L,
) -> Result<Result<PartRead, FaultOf>, PartsStop>
    requires original { IsReady turn original.old.reader }
    ensures modest { IfRead result (λ p.
        IfSome (p.course).found (IsFoundAmong (length ((turn.entry.setting).labels).now))) }
    ensures few { IfRead result (λ p. p.samples ≤ 2 ^ 50) }
    ensures passes { IfRead result (PassesPart O.Source original.old o.old original.new o.new turn.entry) }
    ensures stays { IfRead result (PartStays turn.entry) }
    ensures looks { L.looks onlooker.new ≡ L.looks onlooker.old }
    ensures beside { IfRead result (λ p. StaysBeside (L.looks onlooker.old) turn.entry p.course) }
    ensures counted { IfRead result (PartCountedBy O.Source E.Source turn.entry original.old o.old original.new
        e.old (L.looks onlooker.old) (L.counted onlooker.old) (L.counted onlooker.new)) }
    ensures uncounted { IfRead result (PartUncountedBy E.Source turn.entry e.old (L.looks onlooker.old)
        (L.counted onlooker.old) (L.counted onlooker.new)) }
    ensures read { IfRead result (PartReadBy O.Source E.Source turn.entry original.old o.old original.new
        o.new e.old e.new) }
    ensures fault { IfFaulty result
        (PartFaultBy O.Source E.Source turn.entry original.old o.old o.new e.old) }
    ensures failures { OnOk result ((O.reads o.new ≡ O.reads o.old) × (E.reads e.new ≡ E.reads e.old)) }
    ensures stop { IfErr result (StopsOfTwo O.Source o.old o.new E.Source turn.entry.part e.old e.new) }
{
    let setting = turn.setting;
    let mut export = match open(setting.alloc, e, PartSide::Part(turn.part)) {
        Ok(Ok(reading)) => reading,
        Ok(Err(fault)) => {
            return match export_fault(&mut original.reader, o, turn.part, fault) {
                Ok(first) => Ok(Err(first)),
                Err(stop) => Err(stop),
            };
        }
        Err(stop) => return Err(stop),
    };
    let (here, there) = (original.reader.header(), export.reader.header());
    let heads = head_difference(setting.alloc, here, there, setting.claim)?;
    let turn = Turn {
        is_compared: is_compared(turn, &heads, onlooker.looks()),
        ..turn
    };
    let mut shown = Shown {
        turn,
        onlooker: &mut *onlooker,
    };
    match read_course(original, o, &mut export, e, &mut shown) {
        Ok(Ok(course)) => {
            let samples = samples_of(&export);
            onlooker.take_export(export.reader)?;
            Ok(Ok(PartRead {
                heads,
                course,
                samples,
                notes: export.notes,
            }))
        }
        Ok(Err(fault)) => Ok(Err(fault)),
        Err(stop) => Err(stop),
    }
}
