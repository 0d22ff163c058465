//! Sentences behind the line of a check, for whoever has to act on it.

use crate::differences::annotations::say_annotations;
use crate::differences::clocks::Clocks;
use crate::differences::compared::say_compared;
use crate::differences::headers::say_heads;
use crate::differences::samples::say_samples;
use crate::differences::starts::say_starts;
use crate::faults::{say_fault, say_fault_of_export};
use crate::heads::Heads;
use crate::tried::other_channels::say_other_channels;
use crate::tried::other_end::say_other_end;
use crate::tried::shifts::{TriedShift, TriedShifts};
use crate::words::files::READ_ANEW;
use edf_claim::Claim;
use edf_fields::Fault;
use edf_findings::{Checked, Findings, OnlyInOne, Wanted, findings_of};
use edf_sentences::Text;
use edf_stop::{RunStop, Side};
use edf_trial::{Asked, OneExport, Recordings, with_shift};
use edf_verdict::{Difference, Outcome, Verdict};
use edf_warnings::{ReadTexts, asks_for_texts, say_behind_no, say_warnings};
use std::alloc::{AllocError, Global};

/// What stands in front of each file.
#[derive(Clone, Copy)]
pub struct Fronts<'a> {
    pub original: &'a [u8],
    pub export: &'a [u8],
}

impl<'a> Fronts<'a> {
    /// That of the file of one side.
    fn of(self, side: Side) -> &'a [u8] {
        match side {
            Side::Original => self.original,
            Side::Export => self.export,
        }
    }
}

/// What was seen of two files under their claim, and what their samples and annotations are reckoned by: the same, or what
/// was seen of them under the shift with which all samples are as claimed.
#[derive(Clone, Copy)]
struct Both<'a, 'b, 'c, 'd> {
    claimed: &'a Findings<'c>,
    reckoned: &'b Findings<'d>,
    only: &'b OnlyInOne,
}

/// Says how the export isn't as claimed. Where the check answers with a Yes with another shift, the samples and annotations that
/// stand elsewhere aren't listed. Where the headers differ, it is said that these were compared all the same. Where no other shift was
/// tried, something else is.
fn say_differences<R: Recordings>(
    text: &mut Text,
    asked: &Asked<'_, OneExport<'_, R>>,
    both: Both<'_, '_, '_, '_>,
    shifts: &TriedShifts,
) -> Result<(), RunStop> {
    let heads = Heads::of(both.claimed, both.claimed.first());
    let heads_differ = say_heads(text, both.claimed, both.claimed.first())?;
    say_other_channels(text, asked, heads)?;
    say_starts(text, both.claimed, shifts)?;
    if shifts.has_yes() {
        return Ok(());
    }
    if heads_differ {
        say_compared(text, both.reckoned, both.only)?;
    }
    let clocks = Clocks::of(heads.original, both.reckoned.first());
    let notes = both.reckoned.notes();
    say_samples(
        text,
        heads.claim.channels(),
        both.reckoned.channels(),
        clocks,
    )?;
    say_annotations(text, both.reckoned, both.only, clocks)?;
    if shifts.are_none() {
        say_other_end(text, asked, heads.claim, notes, both.only)?;
    }
    Ok(())
}

/// Says what is to be done behind the differences, or what to read where there is none.
fn say_behind<R: Recordings>(
    text: &mut Text,
    asked: &Asked<'_, OneExport<'_, R>>,
    both: Both<'_, '_, '_, '_>,
) -> Result<(), AllocError> {
    let read = ReadTexts {
        claim: both.claimed.claim(),
        original: both.claimed.original_header(),
        export: both.claimed.export_header(),
        others: both.claimed.others(),
        notes: both.reckoned.notes(),
    };
    match asked.verdict.outcome() {
        Outcome::Yes => say_warnings(text, read),
        Outcome::No => say_behind_no(text, read),
    }
}

/// Says what is to be said of two files without a fault.
fn say_both<R: Recordings>(
    text: &mut Text,
    asked: &Asked<'_, OneExport<'_, R>>,
    both: Both<'_, '_, '_, '_>,
    shifts: &TriedShifts,
) -> Result<(), RunStop> {
    say_differences(text, asked, both, shifts)?;
    say_behind(text, asked, both)?;
    Ok(())
}

/// What is seen of both files under another claim; none where the check doesn't answer now what it answered when that was tried, as
/// where a file was changed.
fn seen_anew<'c, R: Recordings>(
    alloc: Global,
    asked: &Asked<'_, OneExport<'_, R>>,
    wanted: Wanted<'_, 'c>,
    tried: &Verdict,
) -> Result<Option<Findings<'c>>, RunStop> {
    let mut original = asked.tries.recordings.open_original()?;
    let mut export = asked.tries.recordings.open_export()?;
    let Checked { verdict, found } = findings_of(alloc, &mut original, &mut export, wanted)?;
    if verdict == *tried {
        Ok(found)
    } else {
        Ok(None)
    }
}

/// The same where samples and annotations are reckoned by another shift, which was tried.
fn say_reckoned<R: Recordings>(
    text: &mut Text,
    asked: &Asked<'_, OneExport<'_, R>>,
    claimed: &Findings<'_>,
    shifts: &TriedShifts,
    tried: &TriedShift,
) -> Result<(), RunStop> {
    let alloc = text.alloc();
    let Some(changed) = with_shift(alloc, asked.claim_text, tried.seconds)? else {
        return Ok(());
    };
    let claim_text = changed.as_slice();
    let claim = Claim::read(alloc, claim_text)?;
    let wanted = Wanted {
        claim_text,
        claim: &claim,
        hidden: asks_for_texts(&claim),
    };
    let Some(mut seen) = seen_anew(alloc, asked, wanted, &tried.answer.verdict)? else {
        text.say(READ_ANEW, &[])?;
        return Ok(());
    };
    let only = seen.only_in_one(alloc)?;
    let both = Both {
        claimed: &*claimed,
        reckoned: &seen,
        only: &only,
    };
    say_both(text, asked, both, shifts)
}

/// Says what is to be said of what was seen of two files.
fn say_seen<R: Recordings>(
    text: &mut Text,
    asked: &Asked<'_, OneExport<'_, R>>,
    mut seen: Findings<'_>,
) -> Result<(), RunStop> {
    let alloc = text.alloc();
    let shifts = TriedShifts::of(alloc, asked, seen.starts())?;
    if let Some(tried) = shifts.for_samples() {
        return say_reckoned(text, asked, &seen, &shifts, tried);
    }
    let only = seen.only_in_one(alloc)?;
    let both = Both {
        claimed: &seen,
        reckoned: &seen,
        only: &only,
    };
    say_both(text, asked, both, &shifts)
}

/// The fault that a verdict says, and of which file.
fn fault_in(verdict: &Verdict) -> Option<(Side, Fault)> {
    match verdict {
        Verdict::No(Difference::OriginalFault(fault)) => Some((Side::Original, *fault)),
        Verdict::No(Difference::ExportFault(fault)) => Some((Side::Export, *fault)),
        _ => None,
    }
}

/// Sentences for whoever has to act on the line of a check: all differences, and not the first alone, what mostly makes them, and
/// what to do; where there is none, what to read before the export goes out. A remedy is named only where the check was run with
/// it, and then with what it answers.
///
/// The verdict is that of the check, and what was found is what it showed (`findings_of`). Both recordings are opened anew for
/// each of at most three tries: of other shifts, of the channels that both files have, or of the end of an interval; and once
/// more where all samples are as claimed with another shift. The error is want of memory, or a failure of one of them.
pub fn explain_one<R: Recordings>(
    alloc: Global,
    asked: &Asked<'_, OneExport<'_, R>>,
    found: Option<Findings<'_>>,
    fronts: Fronts<'_>,
) -> Result<Vec<u8>, RunStop> {
    let mut text = Text::new(alloc);
    if let Some((side, fault)) = fault_in(asked.verdict) {
        say_fault(&mut text, side, &fault, fronts.of(side))?;
        if side == Side::Original {
            say_fault_of_export(&mut text, asked.tries.recordings, fronts.export)?;
        }
        return Ok(text.into_bytes());
    }
    if let Some(seen) = found {
        say_seen(&mut text, asked, seen)?;
    }
    Ok(text.into_bytes())
}
