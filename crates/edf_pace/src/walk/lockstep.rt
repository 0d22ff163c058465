//! Two files read in step from a time on, a data record of each at a time, and shown to a watcher as far as both have come.

ghost use Rattle.std.specs.Prelude.{◌≡◌, ◌≤ℤ◌, ◌<ℤ◌, IfOk, IfErr, OnOk, IfSome, IfNone, true, false};
ghost use Rattle.edf_claim.specs.KeepsReading.{IsUncut};
ghost use Rattle.edf_stream.specs.records.Readers.{is_current};
ghost use Rattle.edf_pace.specs.Premises.{IfFaulty, IfFound, IfNothing, IfRead};
ghost use Rattle.edf_pace.specs.PartsStops.{StopsOf, StopsOfTwo};
ghost use Rattle.edf_pace.specs.walk.Ends.{BothFaulty, BothThrough, ExportReadOn, ExportSteps, FaultyIn, FaultyOn, HasSeenAll, IsFirstFaultOf, IsOver, OriginalReadOn, OriginalSteps, WalkedBy, at_turn, moved_export, moved_original};
ghost use Rattle.edf_pace.specs.walk.Pairs.{IsFrame};
ghost use Rattle.edf_pace.specs.walk.Readings.{HasGoneOn, going};
ghost use Rattle.edf_pace.specs.walk.Shown.{IsBehind, IsGoing, Reaches, StandsAt};
ghost use Rattle.edf_stop.specs.declared.parts_stops.PartSide.TheVariants as sides;

use crate::walk::clock::Clock;
use crate::walk::fault_of::FaultOf;
use crate::walk::gather::View;
use crate::walk::reading::{Reading, finish, last_end, lesser_end, pass};
use crate::walk::turn::Turn;
use crate::walk::watchers::watcher::{Watch, Watcher};
use edf_claim::Claim;
use edf_fields::{Fault, Source};
use edf_samples::{Time, Window};
use edf_stop::{PartSide, PartsStop};
use edf_stream::FileReader;

/// How far an original and a part were read, and seen.
#[derive(Clone, Copy)]
pub struct ReadOn {
    /// The time to which both were read.
    pub reached: Time,
    /// The time before which all was seen.
    pub seen: Time,
}

/// What a fault of a part comes to: the original is read to its end, and its fault goes before it.
///
/// The error is a failure of the original's source.
pub fn export_fault<S: Source>(
    original: &mut FileReader,
    source: &mut S,
    part: u16,
    fault: Fault,
) -> Result<FaultOf, PartsStop>
    requires going { IsGoing original.old.status }
    ensures found { IfOk result (IsFirstFaultOf (going S.Source original.old source.old)
        (S.left source.new) part fault) }
    ensures failures { OnOk result (S.reads source.new ≡ S.reads source.old) }
    ensures stop { IfErr result (StopsOf S.Source sides.Original source.old source.new) }
{
    match finish(original, source, PartSide::Original) {
        Ok(None) => Ok(FaultOf::Part(part, fault)),
        Ok(Some(first)) => Ok(FaultOf::Original(first)),
        Err(stop) => Err(stop),
    }
}

/// Reads an original and a part to their ends, and answers where the part ends; or their first fault: that of the
/// original, or else that of the part.
///
/// The error is a failure of one of the sources.
pub fn end_both<O: Source, E: Source>(
    original: &mut FileReader,
    o: &mut O,
    export: &mut FileReader,
    e: &mut E,
    turn: Turn<'_>,
) -> Result<Result<Time, FaultOf>, PartsStop>
    requires original { IsGoing original.old.status }
    requires export { IsGoing export.old.status }
    ensures goes { IfRead result (λ end. HasGoneOn O.Source original.old o.old original.new o.new) }
    ensures head { IfRead result (λ end. export.new.head ≡ export.old.head) }
    ensures through { IfRead result (BothThrough O.Source E.Source original.old o.old o.new export.old e.old
        e.new turn.entry) }
    ensures fault { IfFaulty result (BothFaulty O.Source E.Source original.old o.old o.new export.old e.old
        turn.entry.part) }
    ensures failures { OnOk result ((O.reads o.new ≡ O.reads o.old) × (E.reads e.new ≡ E.reads e.old)) }
    ensures stop { IfErr result (StopsOfTwo O.Source o.old o.new E.Source turn.entry.part e.old e.new) }
{
    match finish(original, o, PartSide::Original) {
        Ok(None) => match finish(export, e, PartSide::Part(turn.part)) {
            Ok(None) => Ok(Ok(last_end(export, turn.setting.clock.export))),
            Ok(Some(fault)) => Ok(Err(FaultOf::Part(turn.part, fault))),
            Err(stop) => Err(stop),
        },
        Ok(Some(fault)) => Ok(Err(FaultOf::Original(fault))),
        Err(stop) => Err(stop),
    }
}

/// The first time behind `from` at which an interval of the claim begins or ends, or `to`, where that is
/// earlier.
fn border(claim: &Claim, from: Time, to: Time) -> Time
    requires { from.ps <ℤ to.ps }
    ensures later { from.ps <ℤ result.ps }
    ensures within { result.ps ≤ℤ to.ps }
    ensures uncut { IsUncut claim.now.keep from.ps result.ps }
{
    Time {
        ps: claim.border_behind(from.ps, to.ps),
    }
}

/// Whose turn it is, and between which times.
#[derive(Clone, Copy)]
struct Step<'a> {
    turn: Turn<'a>,
    within: Window,
}

/// Reads on in both files, each where its data record at hand ends with the step or before.
///
/// The error is want of memory, or a failure of one of the sources.
fn pass_both<O: Source, E: Source>(
    original: &mut Reading,
    o: &mut O,
    export: &mut Reading,
    e: &mut E,
    step: Step<'_>,
) -> Result<Option<FaultOf>, PartsStop>
    requires original { IsGoing (original.old.reader).status }
    requires export { IsGoing (export.old.reader).status }
    requires original_reaches { Reaches original.old.reader (moved_original step.turn) (step.within.to).ps }
    requires export_reaches { Reaches export.old.reader (moved_export step.turn) (step.within.to).ps }
    ensures original { IfNothing result (OriginalSteps O.Source original.old o.old original.new o.new
        step.entry) }
    ensures export { IfNothing result (ExportSteps E.Source export.old e.old export.new e.new step.entry) }
    ensures fault { IfFound result (FaultyIn O.Source E.Source original.old o.old o.new export.old e.old
        step.entry) }
    ensures failures { OnOk result ((O.reads o.new ≡ O.reads o.old) × (E.reads e.new ≡ E.reads e.old)) }
    ensures stop { IfErr result (StopsOfTwo O.Source o.old o.new E.Source (step.entry.turn).part e.old
        e.new) }
{
    let Step { turn, within } = step;
    let setting = turn.setting;
    match pass(
        original,
        o,
        PartSide::Original,
        View {
            alloc: setting.alloc,
            moved: setting.clock.original,
            claim: Some(setting.claim),
        },
        within,
    ) {
        Ok(None) => match pass(
            export,
            e,
            PartSide::Part(turn.part),
            View {
                alloc: setting.alloc,
                moved: setting.clock.export,
                claim: None,
            },
            within,
        ) {
            Ok(None) => Ok(None),
            Ok(Some(fault)) => match export_fault(&mut original.reader, o, turn.part, fault) {
                Ok(found) => Ok(Some(found)),
                Err(stop) => Err(stop),
            },
            Err(stop) => Err(stop),
        },
        Ok(Some(fault)) => Ok(Some(FaultOf::Original(fault))),
        Err(stop) => Err(stop),
    }
}

/// The next end of a data record at hand. There is none where both files have ended, or, where further exports
/// follow, this export has.
fn next_end(original: &FileReader, export: &FileReader, clock: Clock, is_last: bool) -> Option<Time>
    ensures none { IfNone result (IsOver is_last original.now export.now) }
    ensures going { IfSome result (λ t. is_last ≡ false → is_current export.now.status ≡ true) }
    ensures original { IfSome result (λ t. Reaches original.now (clock.original).ps t.ps) }
    ensures export { IfSome result (λ t. Reaches export.now (clock.export).ps t.ps) }
    ensures later { IfSome result (λ t. IsBehind original.now (clock.original).ps
        export.now (clock.export).ps t.ps) }
{
    if is_last || export.has_current() {
        lesser_end(original, export, clock)
    } else {
        None
    }
}

/// Reads on in an original and a part that both stand at the begin of its turn, until the watcher has seen enough. Where it
/// never has, both are read to their ends or, where further parts follow, to the end of this one, and the annotations of
/// what was read are gathered that count. Or it answers the first fault of the original, or else of the part.
///
/// A data record of each is in memory at a time. The error is want of memory, or a failure of one of the
/// sources.
pub fn walk_on<O: Source, E: Source, W: Watcher>(
    original: &mut Reading,
    o: &mut O,
    export: &mut Reading,
    e: &mut E,
    watch: &mut Watch<'_, W>,
) -> Result<Result<ReadOn, FaultOf>, PartsStop>
    requires original { StandsAt original.old.reader (moved_original (watch.old.frame).turn)
        (((watch.old.frame).turn).from).ps }
    requires export { StandsAt export.old.reader (moved_export (watch.old.frame).turn)
        (((watch.old.frame).turn).from).ps }
    requires begins { ((watch.old.frame).turn).is_last ≡ false →
        is_current (export.old.reader).status ≡ true }
    requires frame { IsFrame (original.old.reader).head (export.old.reader).head watch.old.frame }
    requires fits { W.fits watch.old.watcher watch.old.frame }
    requires wants { W.has_enough watch.old.watcher ≡ false }
    ensures fits { IfRead result (λ r. W.fits watch.new.watcher watch.old.frame) }
    ensures lender { W.lender watch.new.watcher ≡ W.lender watch.old.watcher }
    ensures keeps { W.keeps watch.new.watcher ≡ W.keeps watch.old.watcher }
    ensures original { IfRead result (OriginalReadOn O.Source original.old o.old original.new o.new
        (watch.old.frame).turn) }
    ensures export { IfRead result (ExportReadOn E.Source export.old e.old export.new e.new
        (watch.old.frame).turn) }
    ensures over { IfRead result (HasSeenAll (W.has_enough watch.new.watcher) watch.old.frame original.new
        export.new) }
    ensures later { IfRead result (λ r. (((watch.old.frame).turn).from).ps ≤ℤ (r.seen).ps) }
    ensures walked { IfRead result (WalkedBy (at_turn O.Source E.Source original.old o.old export.old e.old
        (watch.old.frame).turn) (watch.old.frame).turn (W.holds watch.old.watcher watch.old.frame)
        (W.holds watch.new.watcher watch.old.frame) (W.has_enough watch.new.watcher)) }
    ensures fault { IfFaulty result (FaultyOn O.Source E.Source original.old o.old o.new export.old e.old
        (watch.old.frame).turn) }
    ensures failures { OnOk result ((O.reads o.new ≡ O.reads o.old) × (E.reads e.new ≡ E.reads e.old)) }
    ensures stop { IfErr result (StopsOfTwo O.Source o.old o.new E.Source ((watch.old.frame).turn).part e.old
        e.new) }
{
    let frame = watch.frame;
    let turn = frame.turn;
    let clock = turn.setting.clock;
    let mut time = turn.from;
    while let Some(end) = next_end(&original.reader, &export.reader, clock, turn.is_last) {
        let next = border(turn.setting.claim, time, end);
        let within = Window {
            from: time,
            to: next,
        };
        watch
            .watcher
            .see(&original.reader, &export.reader, frame, within);
        if watch.watcher.has_enough() {
            return Ok(Ok(ReadOn {
                reached: time,
                seen: next,
            }));
        }
        match pass_both(original, o, export, e, Step { turn, within }) {
            Ok(None) => {}
            Ok(Some(fault)) => return Ok(Err(fault)),
            Err(stop) => return Err(stop),
        }
        time = next;
    }
    Ok(Ok(ReadOn {
        reached: time,
        seen: time,
    }))
}
