//! By how much an export was moved.

ghost use Rattle.std.specs.Prelude.{◌≡◌, ◌<◌, ◌^◌, ◌*ℤ◌, pos, false, unsigned_abs, IsTrue};
ghost use Rattle.edf_draft.specs.Days.{IsShift, LiesWithin};

use crate::days::days_between;
use edf_fields::SECOND_PS;
use edf_recording::Recorded;

/// A shift in seconds, and whether the starts of two files tell it. Where they don't, it is the one by which the export
/// begins with the original.
#[derive(Clone, Copy)]
pub(crate) struct Shift {
    pub seconds: i64,
    pub is_told: bool,
}

/// The shift of a draft in seconds, and what tells it.
#[derive(Clone, Copy)]
pub(crate) struct Moved<'a> {
    pub seconds: i64,
    /// Whether the starts of the two files tell it, or their samples do.
    pub is_told: bool,
    /// The shifts by which samples of the export are samples of the original, where these tell it, and not the starts.
    pub fits: &'a [i64],
}

impl<'a> Moved<'a> {
    /// By a shift that the starts tell, or don't.
    pub(crate) fn by_days(shift: Shift) -> Moved<'a>
        ensures { result.seconds ≡ shift.seconds }
    {
        Moved {
            seconds: shift.seconds,
            is_told: shift.is_told,
            fits: &[],
        }
    }

    /// By one of the shifts that the samples tell.
    pub(crate) fn by_samples(seconds: i64, fits: &'a [i64]) -> Moved<'a> {
        Moved {
            seconds,
            is_told: true,
            fits,
        }
    }
}

/// The shift by which one time becomes a later one, in whole seconds, rounded down; 0 where it is too large for a number.
fn guessed_shift(begin: i128, from: i128) -> Shift
    requires begin { unsigned_abs begin < 2 ^ 80 }
    requires from { unsigned_abs from < 2 ^ 80 }
    ensures { result.is_told ≡ false }
{
    let seconds = (from - begin).div_euclid(SECOND_PS);
    Shift {
        seconds: i64::try_from(seconds).unwrap_or(0),
        is_told: false,
    }
}

/// So many days in seconds.
fn seconds_of_days(days: i128) -> i64
    requires { unsigned_abs days < 2 ^ 25 }
    ensures { result ≡ days *ℤ pos 86400 }
{
    days as i64 * 86_400
}

/// Whether a time lies between two others as it is.
#[tactic(auto, using(crate::proofs::DayFacts::within_unmoved))]
fn lies_within(begin: i128, end: i128, from: i128, to: i128) -> bool
    ensures { IsTrue result → LiesWithin begin end from to (pos 0) }
{
    begin <= from && to <= end
}

/// The shift that puts the time from `from` to `to` between `begin` and `end`: a number of whole days, the one that gives the
/// least time.
fn shift_by_days(begin: i128, end: i128, from: i128, to: i128) -> Shift
    requires begin { unsigned_abs begin < 2 ^ 80 }
    requires from { unsigned_abs from < 2 ^ 80 }
    requires to { unsigned_abs to < 2 ^ 80 }
    ensures { IsShift begin end from to result.is_told result.seconds }
{
    match days_between(begin, end, from, to) {
        Some(days) => Shift {
            seconds: seconds_of_days(days),
            is_told: true,
        },
        None => guessed_shift(begin, from),
    }
}

/// The shift that puts the time from `from` to `to` between `begin` and `end`: none where it lies there as it is, or else a
/// number of whole days.
#[tactic(auto, using(crate::proofs::DayFacts::is_unmoved))]
fn shift_between(begin: i128, end: i128, from: i128, to: i128) -> Shift
    requires begin { unsigned_abs begin < 2 ^ 80 }
    requires from { unsigned_abs from < 2 ^ 80 }
    requires to { unsigned_abs to < 2 ^ 80 }
    ensures { IsShift begin end from to result.is_told result.seconds }
{
    if lies_within(begin, end, from, to) {
        Shift {
            seconds: 0,
            is_told: true,
        }
    } else {
        shift_by_days(begin, end, from, to)
    }
}

/// The shift between two recordings.
pub(crate) fn shift_of(original: &Recorded, export: &Recorded) -> Shift
    ensures { IsShift (original.now.times).begin_ps (original.now.times).end_ps (export.now.times).begin_ps
        (export.now.times).end_ps result.is_told result.seconds }
{
    let (old, new) = (original.times, export.times);
    shift_between(old.begin_ps, old.end_ps, new.begin_ps, new.end_ps)
}
