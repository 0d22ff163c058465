//! Sentences on where an export starts.

use crate::tried::shifts::TriedShifts;
use crate::words::{parts, starts as words};
use edf_fields::SECOND_PS;
use edf_findings::{Findings, MOST_SHIFT, PartFindings, SampleKinds, Starts, start_of};
use edf_sentences::{Piece, Text};
use std::alloc::AllocError;

/// Says by how much an export starts elsewhere.
fn say_difference(text: &mut Text, starts: &Starts) -> Result<(), AllocError> {
    let later = starts.later_ps();
    let sentence = if later < 0 {
        words::STARTS_EARLIER
    } else {
        words::STARTS_LATER
    };
    text.say(
        sentence,
        &[
            Piece::Length(later),
            Piece::Moment(starts.exported_ps),
            Piece::Moment(starts.claimed_ps),
        ],
    )
}

/// Says what mistake it looks like.
fn say_likeness(text: &mut Text, starts: &Starts) -> Result<(), AllocError> {
    let back = starts.shift_ps.saturating_neg();
    if starts.shift_ps == 0 {
        return Ok(());
    }
    if starts.later_ps() == back {
        return text.say(words::SHIFT_FORGOTTEN, &[]);
    }
    if starts.later_ps() == back.saturating_mul(2) {
        return text.say(words::SHIFT_TURNED, &[]);
    }
    Ok(())
}

/// Says why no shift lets the export start as claimed, where none does.
fn say_unfitting(text: &mut Text, starts: &Starts) -> Result<(), AllocError> {
    if starts.can_fit() {
        return Ok(());
    }
    if starts.fitting_ps().rem_euclid(SECOND_PS) == 0 {
        text.say(words::SHIFT_BEYOND, &[Piece::Number(MOST_SHIFT)])
    } else {
        text.say(words::NO_SHIFT_FITS, &[])
    }
}

/// Says where the export starts, if it doesn't start as claimed, and what other shifts would change.
fn say_elsewhere(
    text: &mut Text,
    seen: &Findings<'_>,
    starts: &Starts,
    shifts: &TriedShifts,
) -> Result<(), AllocError> {
    if starts.are_same() {
        return Ok(());
    }
    say_difference(text, starts)?;
    if may_be_moved(seen.first()) {
        say_likeness(text, starts)?;
    }
    say_unfitting(text, starts)?;
    shifts.say(text, starts)
}

/// Whether samples of an export aren't as claimed, so that it may have been moved otherwise: those that it lacks don't tell that.
fn may_be_moved(part: &PartFindings) -> bool {
    let kinds = SampleKinds::of(part.channels());
    kinds.extra || kinds.changed
}

/// Says by how much a part starts elsewhere than the first sample that is kept behind the part in front of it. Which of the two parts
/// should have what is missing between them isn't known.
fn say_behind_front(text: &mut Text, starts: &Starts) -> Result<(), AllocError> {
    let later = starts.later_ps();
    let sentence = if later < 0 {
        parts::STARTS_EARLIER
    } else {
        parts::STARTS_LATER
    };
    text.say(
        sentence,
        &[
            Piece::Moment(starts.exported_ps),
            Piece::Length(later),
            Piece::Moment(starts.claimed_ps),
        ],
    )
}

/// Where one of several exports starts, under the claim, and whether it may have been moved otherwise.
#[derive(Clone, Copy)]
pub(crate) struct PartStart {
    starts: Option<Starts>,
    may_be_moved: bool,
}

/// Of exports behind the first one: the first sample that is kept, and where the one starts beside which it is. Where one lacks a
/// claimed channel, it isn't known.
fn first_kept(seen: &Findings<'_>) -> Option<Starts> {
    for part in seen.others() {
        if !part.has_all_channels(seen.claim()) {
            return None;
        }
        if let Some(starts) = part.starts() {
            return Some(starts);
        }
    }
    None
}

/// Where several exports start, of which the first ends before all that the claim keeps.
fn starts_early(seen: &Findings<'_>) -> Option<Starts> {
    let part = seen.first();
    if !keeps_nothing(seen, part) {
        return None;
    }
    let begin_ps = part.begin_ps()?;
    let kept = first_kept(seen)?;
    let exported_ps = start_of(part.header())
        .saturating_sub(part.moved_ps())
        .saturating_add(begin_ps);
    Some(Starts {
        claimed_ps: kept.claimed_ps,
        exported_ps,
        first_ps: kept.first_ps,
        shift_ps: kept.shift_ps,
    })
}

/// Where several exports start: the first of them, beside the first sample that is kept; none where none is.
pub(crate) fn starts_of_all(seen: &Findings<'_>) -> Option<Starts> {
    match seen.starts() {
        Some(starts) => Some(starts),
        None => starts_early(seen),
    }
}

impl PartStart {
    /// That of the first of several exports.
    pub(crate) fn of_first(seen: &Findings<'_>) -> PartStart {
        PartStart {
            starts: starts_of_all(seen),
            may_be_moved: may_be_moved(seen.first()),
        }
    }

    /// That of this export.
    pub(crate) fn of(part: &PartFindings) -> PartStart {
        PartStart {
            starts: part.starts(),
            may_be_moved: may_be_moved(part),
        }
    }

    /// Says where the export with this number starts, if it doesn't start as claimed. Only of the first one it is known where it
    /// should start.
    pub(crate) fn say(self, text: &mut Text, number: u16) -> Result<(), AllocError> {
        let starts = match self.starts {
            Some(starts) if !starts.are_same() => starts,
            _ => return Ok(()),
        };
        if number == 0 {
            say_difference(text, &starts)?;
        } else {
            say_behind_front(text, &starts)?;
        }
        if self.may_be_moved {
            say_likeness(text, &starts)?;
        }
        if number == 0 {
            say_unfitting(text, &starts)?;
        }
        Ok(())
    }
}

/// Whether the claim keeps no sample of the original beside this export, which has all claimed channels.
fn keeps_nothing(seen: &Findings<'_>, part: &PartFindings) -> bool {
    part.is_compared() && part.has_all_channels(seen.claim()) && part.starts().is_none()
}

/// Whether the claim keeps no sample of the original beside any of several exports, each of which has all claimed channels.
fn is_nothing_kept(seen: &Findings<'_>) -> bool {
    for part in seen.others() {
        if !keeps_nothing(seen, part) {
            return false;
        }
    }
    keeps_nothing(seen, seen.first())
}

/// Whether an interval was found beside one of several exports that has no sample in a data record of the original in which it lies.
fn is_between_samples(seen: &Findings<'_>) -> bool {
    for part in seen.others() {
        if part.keeps_between() {
            return true;
        }
    }
    seen.keeps_between()
}

/// Says that the claim keeps no sample of the original, where that is so beside each of several exports.
pub(crate) fn say_nothing_kept(text: &mut Text, seen: &Findings<'_>) -> Result<(), AllocError> {
    if !is_nothing_kept(seen) {
        return Ok(());
    }
    if is_between_samples(seen) {
        return text.say(words::KEPT_BETWEEN, &[]);
    }
    text.say(words::NOTHING_KEPT, &[])
}

/// Says what other shifts would change of several exports, of which the first doesn't start as claimed.
pub(crate) fn say_shifts_of_parts(
    text: &mut Text,
    seen: &Findings<'_>,
    shifts: &TriedShifts,
) -> Result<(), AllocError> {
    match starts_of_all(seen) {
        Some(starts) if !shifts.are_none() => shifts.say(text, &starts),
        _ => Ok(()),
    }
}

/// Says where the export starts, or that nothing is kept. Where one of the files lacks a claimed channel, it isn't known whether
/// nothing is.
pub(crate) fn say_starts(
    text: &mut Text,
    seen: &Findings<'_>,
    shifts: &TriedShifts,
) -> Result<(), AllocError> {
    match seen.starts() {
        Some(starts) => say_elsewhere(text, seen, &starts, shifts),
        None if !seen.has_all_channels() => Ok(()),
        None if seen.keeps_between() => text.say(words::KEPT_BETWEEN, &[]),
        None => text.say(words::NOTHING_KEPT, &[]),
    }
}
