//! Times of a draft as people say them.

use edf_fields::{DAY_PS, SECOND_PS};
use std::alloc::{AllocError, Global};

/// How many seconds a day has, and an hour, and a minute.
const DAY: i128 = DAY_PS / SECOND_PS;

const HOUR: i128 = 3_600;

const MINUTE: i128 = 60;

/// So many seconds of a day as hours, minutes and seconds.
fn of_day(alloc: Global, seconds: i128) -> Result<String, AllocError> {
    let hour = seconds.div_euclid(HOUR);
    let minute = seconds.rem_euclid(HOUR).div_euclid(MINUTE);
    let second = seconds.rem_euclid(MINUTE);
    format!(in alloc; "{hour:02}:{minute:02}:{second:02}")
}

/// Puts the fraction of a second in so many picoseconds behind a text, with its dot and without zeros at its end; nothing where
/// there is none.
fn push_fraction(text: &mut String, alloc: Global, ps: i128) -> Result<(), AllocError> {
    let rest = ps.rem_euclid(SECOND_PS);
    if rest == 0 {
        return Ok(());
    }
    let fraction = format!(in alloc; ".{rest:012}")?;
    text.push_str(fraction.trim_end_matches('0'))
}

/// Whether a time is a day or more behind the second at which a recording starts.
pub(crate) fn is_behind_a_day(ps: i128) -> bool {
    ps.div_euclid(SECOND_PS) >= DAY
}

/// A time of a recording by its own clock: so many picoseconds behind the second of the day at which it starts. It may say which
/// day it is, from 1 on, by the date at which the recording starts.
pub(crate) fn clock_time(
    alloc: Global,
    start: u32,
    ps: i128,
    says_day: bool,
) -> Result<String, AllocError> {
    let seconds = ps.div_euclid(SECOND_PS).saturating_add(i128::from(start));
    let mut text = of_day(alloc, seconds.rem_euclid(DAY))?;
    push_fraction(&mut text, alloc, ps)?;
    if says_day {
        let day = format!(in alloc; " of day {}", seconds.div_euclid(DAY).saturating_add(1))?;
        text.push_str(&day)?;
    }
    Ok(text)
}

/// So many seconds as days, hours, minutes and seconds.
fn length(alloc: Global, seconds: i128) -> Result<String, AllocError> {
    let days = seconds.div_euclid(DAY);
    let rest = seconds.rem_euclid(DAY);
    let clock = of_day(alloc, rest)?;
    match (days, rest) {
        (0, _) => Ok(clock),
        (1, 0) => format!(in alloc; "1 day"),
        (1, _) => format!(in alloc; "1 day and {clock}"),
        (_, 0) => format!(in alloc; "{days} days"),
        _ => format!(in alloc; "{days} days and {clock}"),
    }
}

/// By how much a shift moves, and which way.
pub(crate) fn way_of(alloc: Global, shift: i64) -> Result<String, AllocError> {
    if shift == 0 {
        return format!(in alloc; "not moved");
    }
    let moved = length(alloc, i128::from(shift.unsigned_abs()))?;
    let way = if shift < 0 { "back" } else { "forward" };
    format!(in alloc; "{moved} {way}")
}
