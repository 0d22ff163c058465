//! An original and several exports, from the start of the original to the verdict on all of them together.

ghost use Rattle.std.specs.Prelude.{◌≡◌, ◌<◌, ◌∷◌, [], map, length, None, IfErr, IfOk, IfSome, OnOk};
ghost use Rattle.std.specs.List.Sorted.{IsPermutation};
ghost use Rattle.edf_stream.specs.records.Readers.{HasBegun};
ghost use Rattle.edf_stream.specs.Views.{note_value};
ghost use Rattle.edf_pace.specs.PartsStops.{NoneFailed, StopsOfAll};
ghost use Rattle.edf_pace.specs.Premises.{IfFaulty, IfRead};
ghost use Rattle.edf_pace.specs.walk.Readings.{IsSetting};
ghost use Rattle.edf_pace.specs.walk.Ends.{IsFoundAmong};
ghost use Rattle.edf_check.specs.parts.Counted.{SeriesCounted};
ghost use Rattle.edf_check.specs.parts.Together.{FollowsFrom, IsFindingOf, IsFirstFrom, SeriesGone, SeriesJudged};

use crate::finding::Finding;
use crate::parts::found::PartsFound;
use crate::parts::part::Shown;
use crate::parts::series::{Exported, ReadSoFar, read_parts};
use edf_claim::Claim;
use edf_fields::Source;
use edf_pace::{
    BEGINNING, FaultOf, Onlooker, Setting, Turn, View, note_difference, start, with_label,
};
use edf_stop::{PartSide, PartsStop};
use edf_stream::Note;
use edf_verdict::{PartsVerdict, Verdict};
use std::alloc::AllocError;

/// What is the same for all exports, and who looks on.
#[derive(Drop)]
pub(crate) struct Stage<'a, 'b, L> {
    pub setting: Setting<'a>,
    pub onlooker: &'b mut L,
}

/// Reads the first data record of the original, of which the header was read, and then it and the exports to their ends, and
/// answers what is found; or the first fault of the original, or else of the first export that has one.
///
/// The error is want of memory, or a failure of one of the sources.
pub(crate) fn walk_parts<O: Source, E: Source, L: Onlooker>(
    so_far: &mut ReadSoFar,
    o: &mut O,
    part: &mut E,
    others: &mut [E],
    stage: &mut Stage<'_, '_, L>,
) -> Result<Result<PartsFound, FaultOf>, PartsStop>
    requires original { HasBegun (so_far.old.original).reader × ((so_far.old.original).notes.items ≡ []) }
    requires few { length others.old < 64 }
    requires none { ((so_far.old.exported).samples ≡ 0) × ((so_far.old.exported).notes.items ≡ []) }
    requires setting { IsSetting ((so_far.old.original).reader).head stage.old.setting }
    ensures modest { IfRead result (λ f.
        IfSome f.found (IsFoundAmong (length (stage.old.setting.labels).now))) }
    ensures judged { IfRead result (SeriesJudged O.Source E.Source stage.old.setting so_far.old so_far.new
        o.old part.old others.old) }
    ensures gone { IfRead result (SeriesGone O.Source E.Source so_far.old o.old o.new part.old part.new
        others.old others.new) }
    ensures lender { stage.new.onlooker.ghost_name ≡ stage.old.onlooker.ghost_name }
    ensures looks { L.looks stage.new.onlooker.now ≡ L.looks stage.old.onlooker.now }
    ensures counted { IfRead result (λ f. SeriesCounted O.Source E.Source stage.old.setting so_far.old
        so_far.new o.old (part.old ∷ others.old) (L.looks stage.old.onlooker.now)
        (L.counted stage.old.onlooker.now) (L.counted stage.new.onlooker.now)) }
    ensures fault { IfFaulty result (IsFirstFrom O.Source E.Source so_far.old.original o.old o.new
        (part.old ∷ others.old)) }
    ensures failures { OnOk result (NoneFailed O.Source o.old o.new E.Source part.old part.new others.old
        others.new) }
    ensures stop { IfErr result (StopsOfAll O.Source o.old o.new E.Source 0 (part.old ∷ others.old)
        (part.new ∷ others.new)) }
{
    let setting = stage.setting;
    let view = View {
        alloc: setting.alloc,
        moved: setting.clock.original,
        claim: Some(setting.claim),
    };
    match start(&mut so_far.original, o, PartSide::Original, view) {
        Ok(None) => {}
        Ok(Some(fault)) => return Ok(Err(FaultOf::Original(fault))),
        Err(stop) => return Err(stop),
    }
    let turn = Turn {
        setting,
        part: 0,
        from: BEGINNING,
        is_last: others.is_empty(),
        is_compared: true,
    };
    let mut shown = Shown {
        turn,
        onlooker: &mut *stage.onlooker,
    };
    match read_parts(so_far, o, part, others, &mut shown) {
        Ok(Ok(found)) => return Ok(Ok(found)),
        Ok(Err(fault)) => return Ok(Err(fault)),
        Err(stop) => return Err(stop),
    }
}

/// How many channels a claim names.
fn channels_of(claim: &Claim) -> u64
    ensures { result ≡ length (claim.now).channels }
{
    claim.channels().len() as u64
}

/// What is found first in an original and its exports: that of their headers, of their order, of their samples or of their
/// annotations; none where they are the same.
///
/// The error is want of memory.
fn first_finding(
    setting: Setting<'_>,
    found: PartsFound,
    kept: &mut Vec<Note>,
    exported: &mut Exported,
) -> Result<Option<Finding>, AllocError>
    requires { IfSome found.found (IsFoundAmong (length (setting.labels).now)) }
    ensures value { IfOk result (IsFindingOf setting.entry (map note_value kept.old.items) exported.old
        found) }
    ensures kept { OnOk result (IsPermutation kept.old.items kept.new.items) }
    ensures exported { OnOk result (IsPermutation (exported.old.notes).items (exported.new.notes).items) }
{
    let PartsFound {
        heads,
        early,
        found,
    } = found;
    if let Some(heads) = heads {
        return Ok(Some(Finding::Heads(heads.part, heads.verdict)));
    }
    if let Some(part) = early {
        return Ok(Some(Finding::Order(part)));
    }
    if let Some(found) = found {
        let sample = with_label(setting.alloc, setting.labels, found)?;
        return Ok(Some(Finding::Sample(sample)));
    }
    match note_difference(setting.alloc, kept, &mut exported.notes)? {
        Some(note) => Ok(Some(Finding::Annotation(note))),
        None => Ok(None),
    }
}

/// The verdict on an original and its exports, of which none has a fault.
///
/// The error is want of memory.
pub(crate) fn conclude_parts(
    setting: Setting<'_>,
    found: PartsFound,
    kept: &mut Vec<Note>,
    exported: &mut Exported,
) -> Result<PartsVerdict, AllocError>
    requires { IfSome found.found (IsFoundAmong (length (setting.labels).now)) }
    ensures value { IfOk result (FollowsFrom setting.entry (map note_value kept.old.items) exported.old
        found) }
    ensures kept { OnOk result (IsPermutation kept.old.items kept.new.items) }
    ensures exported { OnOk result (IsPermutation (exported.old.notes).items (exported.new.notes).items) }
{
    let yes = Verdict::Yes {
        channels: channels_of(setting.claim),
        samples: exported.samples,
        annotations: exported.notes.len() as u64,
    };
    match first_finding(setting, found, kept, exported)? {
        Some(finding) => Ok(finding.verdict()),
        None => Ok(PartsVerdict {
            part: 0,
            verdict: yes,
        }),
    }
}
