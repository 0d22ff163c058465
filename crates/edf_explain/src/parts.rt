//! Sentences behind the line of a check of several exports, for whoever has to act on it.

use crate::differences::annotations::say_annotations;
use crate::differences::clocks::Clocks;
use crate::differences::compared::say_part_compared;
use crate::differences::headers::say_heads;
use crate::differences::parts_then::say_if_each_has_all;
use crate::differences::samples::say_samples;
use crate::differences::starts::{PartStart, say_nothing_kept, say_shifts_of_parts, starts_of_all};
use crate::faults::say_fault;
use crate::heads::Heads;
use crate::tried::other_channels::say_other_channels;
use crate::tried::other_end::say_other_end;
use crate::tried::shifts::{TriedShift, TriedShifts};
use crate::words::files::READ_ANEW;
use crate::words::parts as words;
use edf_fields::Fault;
use edf_findings::{
    CheckedParts, Findings, FrontSource, OnlyInOne, PartFindings, Wanted, claim_of,
    fault_of_export, findings_of_parts,
};
use edf_sentences::{FRONT, Piece, Text};
use edf_stop::{CheckStop, PartSide, PartsRunStop, Side};
use edf_trial::{Asked, PartsRecordings, SeveralExports, with_shift};
use edf_verdict::{Difference, Outcome, Verdict};
use edf_warnings::{ReadTexts, asks_for_texts, say_behind_no, say_warnings};
use std::alloc::{AllocError, Global};

/// What was asked of several exports, and how many of them it is said of.
#[derive(Drop)]
pub struct PartsAsked<'a, R: PartsRecordings> {
    pub asked: Asked<'a, SeveralExports<'a, R>>,
    /// The number of the export that the verdict is on.
    pub part: u16,
    /// Where a file has a fault: what stands in front of the original, and in front of each export as far as it was read.
    pub original_front: &'a [u8],
    pub fronts: &'a [Vec<u8>],
}

/// The file that a verdict says has a fault, and the fault.
pub fn fault_in(verdict: &Verdict) -> Option<(Side, Fault)> {
    match verdict {
        Verdict::No(Difference::OriginalFault(fault)) => Some((Side::Original, *fault)),
        Verdict::No(Difference::ExportFault(fault)) => Some((Side::Export, *fault)),
        _ => None,
    }
}

/// Says that what follows is of the part with this number.
fn say_part_name(text: &mut Text, number: u16) -> Result<(), AllocError> {
    text.say(words::PART, &[Piece::Number(i128::from(number))])
}

/// The stop of a reading of one of several exports, of which this is the number.
fn stop_of_part(stop: CheckStop, number: u16) -> PartsRunStop {
    match stop {
        CheckStop::OutOfMemory => PartsRunStop::OutOfMemory,
        CheckStop::ReadFailed(_) => PartsRunStop::ReadFailed(PartSide::Part(number)),
    }
}

/// Says the first fault of each of the exports from a number on, which the check left aside: they are opened anew. Where something
/// else stands in front of one than stood there before, it can't be read once more, as a pipe, and nothing is said of it.
fn say_faults_from<R: PartsRecordings>(
    text: &mut Text,
    parts: &PartsAsked<'_, R>,
    first: u16,
) -> Result<(), PartsRunStop> {
    let alloc = text.alloc();
    let mut number: u16 = 0;
    for source in parts.asked.tries.recordings.open_exports(alloc)? {
        if number >= first {
            let mut source = FrontSource::new(alloc, source, FRONT);
            let found = match fault_of_export(alloc, &mut source) {
                Ok(found) => found,
                Err(stop) => return Err(stop_of_part(stop, number)),
            };
            if let Some(fault) = found
                && let Some(seen) = parts.fronts.get(usize::from(number))
                && source.front().starts_with(seen)
            {
                say_part_name(text, number)?;
                say_fault(text, Side::Export, &fault, source.front())?;
            }
        }
        number = number.saturating_add(1);
    }
    Ok(())
}

/// Says the first fault of each file, of which the check says this one.
fn say_faults<R: PartsRecordings>(
    text: &mut Text,
    parts: &PartsAsked<'_, R>,
    side: Side,
    fault: Fault,
) -> Result<(), PartsRunStop> {
    match side {
        Side::Original => {
            say_fault(text, side, &fault, parts.original_front)?;
            say_faults_from(text, parts, 0)
        }
        Side::Export => {
            say_part_name(text, parts.part)?;
            let front: &[u8] = match parts.fronts.get(usize::from(parts.part)) {
                Some(front) => front,
                None => &[],
            };
            say_fault(text, side, &fault, front)?;
            say_faults_from(text, parts, parts.part.saturating_add(1))
        }
    }
}

/// Says how the samples of a part aren't as claimed.
fn say_samples_of_part(
    text: &mut Text,
    seen: &Findings<'_>,
    part: &PartFindings,
) -> Result<(), AllocError> {
    let clocks = Clocks::of(seen.original_header(), part);
    say_samples(text, seen.claim().channels(), part.channels(), clocks)
}

/// Says how a part, which starts so, isn't as claimed, or that it is, and answers whether its header isn't.
fn say_part(
    text: &mut Text,
    seen: &Findings<'_>,
    number: u16,
    part: &PartFindings,
    start: PartStart,
) -> Result<bool, AllocError> {
    say_part_name(text, number)?;
    let said = text.bytes().len();
    let heads_differ = say_heads(text, seen, part)?;
    if !part.is_compared() {
        return Ok(heads_differ);
    }
    if heads_differ {
        say_part_compared(text, part)?;
    }
    start.say(text, number)?;
    say_samples_of_part(text, seen, part)?;
    if text.bytes().len() == said {
        text.say(words::PART_AS_CLAIMED, &[])?;
    }
    Ok(heads_differ)
}

/// What was said of all parts.
#[derive(Clone, Copy)]
struct SaidOfEach {
    /// Whether the samples of all were compared.
    are_compared: bool,
    /// Whether the header of one of them isn't as claimed.
    heads_differ: bool,
}

/// Says how each part isn't as claimed, or that it is; the first one starts so. The first one that wasn't compared begins early.
fn say_each(
    text: &mut Text,
    seen: &Findings<'_>,
    start: PartStart,
) -> Result<SaidOfEach, AllocError> {
    let mut heads_differ = say_part(text, seen, 0, seen.first(), start)?;
    let mut number: u16 = 0;
    let mut are_compared = true;
    for part in seen.others() {
        number = number.saturating_add(1);
        let differs = say_part(text, seen, number, part, PartStart::of(part))?;
        heads_differ = heads_differ || differs;
        if !part.is_compared() {
            let sentence = if are_compared {
                words::PART_EARLY
            } else {
                words::PART_NOT_COMPARED
            };
            text.say(sentence, &[])?;
            are_compared = false;
        }
    }
    Ok(SaidOfEach {
        are_compared,
        heads_differ,
    })
}

/// Says how the annotations of all parts together aren't as claimed; or that they are, where a header isn't.
fn say_notes(
    text: &mut Text,
    seen: &Findings<'_>,
    only: &OnlyInOne,
    heads_differ: bool,
) -> Result<(), AllocError> {
    if only.missing.is_empty() && only.extra.is_empty() {
        if heads_differ {
            text.say(words::NOTES_OF_ALL_AS_CLAIMED, &[])?;
        }
        return Ok(());
    }
    text.say(words::NOTES_OF_ALL, &[])?;
    say_if_each_has_all(text, seen, only)?;
    let clocks = Clocks::of(seen.original_header(), seen.first());
    say_annotations(text, seen, only, clocks)
}

/// Says what is to be done behind the differences, or what to read where there is none.
fn say_behind<R: PartsRecordings>(
    text: &mut Text,
    parts: &PartsAsked<'_, R>,
    seen: &Findings<'_>,
) -> Result<(), AllocError> {
    let read = ReadTexts {
        claim: seen.claim(),
        original: seen.original_header(),
        export: seen.export_header(),
        others: seen.others(),
        notes: seen.notes(),
    };
    match parts.asked.verdict.outcome() {
        Outcome::Yes => say_warnings(text, read),
        Outcome::No => say_behind_no(text, read),
    }
}

/// Says how the parts aren't as claimed by what was seen of them, of which the first starts so under the claim, and what is to be
/// done. Where not all were compared, annotations weren't. Where no other shift was tried, another end of an interval is.
fn say_listed<R: PartsRecordings>(
    text: &mut Text,
    parts: &PartsAsked<'_, R>,
    seen: &mut Findings<'_>,
    shifts: &TriedShifts,
    start: PartStart,
) -> Result<(), PartsRunStop> {
    let only = seen.only_in_one(text.alloc())?;
    say_nothing_kept(text, seen)?;
    let said = say_each(text, seen, start)?;
    if !said.are_compared {
        return Ok(());
    }
    say_notes(text, seen, &only, said.heads_differ)?;
    if shifts.are_none() {
        say_other_end(text, &parts.asked, seen.claim(), seen.notes(), &only)?;
    }
    say_behind(text, parts, seen)?;
    Ok(())
}

/// What is seen of all exports under another claim; none where the check doesn't answer now what it answered when that was tried, as
/// where a file was changed.
fn seen_anew<'c, R: PartsRecordings>(
    alloc: Global,
    parts: &PartsAsked<'_, R>,
    wanted: Wanted<'_, 'c>,
    tried: &Verdict,
) -> Result<Option<Findings<'c>>, PartsRunStop> {
    let recordings = parts.asked.tries.recordings;
    let mut original = recordings.open_original()?;
    let mut exports = recordings.open_exports(alloc)?;
    let CheckedParts { verdict, found } = findings_of_parts(
        alloc,
        &mut original,
        &mut exports,
        wanted,
    )?;
    if verdict.verdict == *tried {
        Ok(found)
    } else {
        Ok(None)
    }
}

/// Says the same where samples and annotations are reckoned by another shift, which was tried.
fn say_reckoned<R: PartsRecordings>(
    text: &mut Text,
    parts: &PartsAsked<'_, R>,
    shifts: &TriedShifts,
    tried: &TriedShift,
    start: PartStart,
) -> Result<(), PartsRunStop> {
    let alloc = text.alloc();
    let Some(changed) = with_shift(alloc, parts.asked.claim_text, tried.seconds)? else {
        return Ok(());
    };
    let claim_text = changed.as_slice();
    let claim = claim_of(alloc, claim_text)?;
    let wanted = Wanted {
        claim_text,
        claim: &claim,
        hidden: asks_for_texts(&claim),
    };
    match seen_anew(alloc, parts, wanted, &tried.answer.verdict)? {
        Some(mut seen) => say_listed(text, parts, &mut seen, shifts, start),
        None => Ok(text.say(READ_ANEW, &[])?),
    }
}

/// Says what is to be said of what was seen of an original and its exports: what was tried, and how each export isn't as claimed.
/// Where the check answers with a Yes with another shift, it is said where the first one starts, and nothing else.
fn say_seen<R: PartsRecordings>(
    text: &mut Text,
    parts: &PartsAsked<'_, R>,
    mut seen: Findings<'_>,
) -> Result<(), PartsRunStop> {
    let heads = Heads::of(&seen, seen.first());
    say_other_channels(text, &parts.asked, heads)?;
    let shifts = TriedShifts::of(text.alloc(), &parts.asked, starts_of_all(&seen))?;
    say_shifts_of_parts(text, &seen, &shifts)?;
    let start = PartStart::of_first(&seen);
    if shifts.has_yes() {
        say_part_name(text, 0)?;
        start.say(text, 0)?;
        say_behind(text, parts, &seen)?;
        return Ok(());
    }
    match shifts.for_samples() {
        Some(tried) => say_reckoned(text, parts, &shifts, tried, start),
        None => say_listed(text, parts, &mut seen, &shifts, start),
    }
}

/// Sentences for whoever has to act on the line of a check of several exports: of each export all that differs, and of the
/// annotations of all together.
///
/// The verdict is that of the check, and what was found is what it showed (`findings_of_parts`). All files are opened anew for
/// each of at most three tries, once more where all samples are as claimed with another shift, and for the faults of exports that
/// the check left aside. The error is want of memory, or a failure of one of them.
pub fn explain_parts<R: PartsRecordings>(
    alloc: Global,
    parts: &PartsAsked<'_, R>,
    found: Option<Findings<'_>>,
) -> Result<Vec<u8>, PartsRunStop> {
    let mut text = Text::new(alloc);
    if let Some((side, fault)) = fault_in(parts.asked.verdict) {
        say_faults(&mut text, parts, side, fault)?;
        return Ok(text.into_bytes());
    }
    if let Some(seen) = found {
        say_seen(&mut text, parts, seen)?;
    }
    Ok(text.into_bytes())
}
