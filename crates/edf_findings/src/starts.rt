//! Where an export starts, beside where it starts by its claim.

ghost use Rattle.std.specs.Prelude.{◌≡◌, ◌↔◌, ◌^◌, ◌+ℤ◌, ◌*ℤ◌, ℤ, pos, IfOk, IsTrue, MatchOption, OnOk};
ghost use Rattle.std.specs.Int.{int_div_euclid};
ghost use Rattle.edf_stream.specs.times.Starts.{file_start};
ghost use Rattle.edf_findings.specs.Shifts.{AreTries, IsShift, fitting_of, later_of, nearest};

use crate::clock::start_of;
use crate::limits::MOST_SHIFT;
use edf_fields::{DAY_PS, SECOND_PS};
use edf_header::Header;
use std::alloc::{AllocError, Global};

/// The most shifts that are tried, each by a check.
const MOST_TRIES: usize = 3;

/// A shift in seconds of so many picoseconds, where a claim can have it.
fn seconds_of(shift_ps: i128) -> Option<i64>
    ensures { MatchOption result ((seconds : ℤ) → ¬ IsShift shift_ps seconds) (IsShift shift_ps) }
{
    let seconds = shift_ps.div_euclid(SECOND_PS);
    if shift_ps.rem_euclid(SECOND_PS) == 0 && -MOST_SHIFT <= seconds && seconds <= MOST_SHIFT {
        i64::try_from(seconds).ok()
    } else {
        None
    }
}

/// Where an export starts, and where it starts by its claim, in picoseconds after 1970-01-01 00:00:00.
#[derive(Clone, Copy)]
pub struct Starts {
    pub claimed_ps: i128,
    pub exported_ps: i128,
    /// When the first sample is taken that is kept, in picoseconds after the second at which the original starts.
    pub first_ps: i128,
    /// By how much the claim moves what it keeps.
    pub shift_ps: i128,
}

impl Starts {
    /// Those of an original and an export with these headers: the first sample that is kept is taken so late after the second at
    /// which the original starts, and the first data record of the export starts so late after that of the export.
    pub(crate) fn of(
        headers: (&Header, &Header),
        shift_ps: i128,
        first_ps: i128,
        begin_ps: i128,
    ) -> Starts
        ensures claimed { result.claimed_ps ≡
            nearest (nearest (file_start (headers.entry.0).now +ℤ first_ps) +ℤ shift_ps) }
        ensures exported { result.exported_ps ≡ nearest (file_start (headers.entry.1).now +ℤ begin_ps) }
        ensures first { result.first_ps ≡ first_ps }
        ensures shift { result.shift_ps ≡ shift_ps }
    {
        let (original, export) = headers;
        Starts {
            claimed_ps: start_of(original)
                .saturating_add(first_ps)
                .saturating_add(shift_ps),
            exported_ps: start_of(export).saturating_add(begin_ps),
            first_ps,
            shift_ps,
        }
    }

    /// By how much the export starts later than claimed.
    pub fn later_ps(&self) -> i128
        ensures { result ≡ later_of self.now }
    {
        self.exported_ps.saturating_sub(self.claimed_ps)
    }

    /// Whether the export starts where it is claimed to.
    pub fn are_same(&self) -> bool
        ensures { IsTrue result ↔ (self.now.exported_ps ≡ self.now.claimed_ps) }
    {
        self.exported_ps == self.claimed_ps
    }

    /// The shift with which the export would start as claimed.
    pub fn fitting_ps(&self) -> i128
        ensures { result ≡ fitting_of self.now }
    {
        self.shift_ps.saturating_add(self.later_ps())
    }

    /// The shift that differs from the claimed one by whole days, and with which the export would start less than a day
    /// from where it is claimed to.
    fn days_ps(&self) -> i128 {
        let later = self.later_ps();
        let half = if later < 0 { -DAY_PS / 2 } else { DAY_PS / 2 };
        let days = later.saturating_add(half) / DAY_PS;
        self.shift_ps.saturating_add(days.saturating_mul(DAY_PS))
    }

    /// Puts a shift behind those that are tried, where a claim can have it, it is none of these nor the claimed one, and they are few.
    ///
    /// The error is want of memory.
    fn try_too(&self, tries: &mut Vec<i64>, shift_ps: i128) -> Result<(), AllocError>
        ensures { OnOk result (AreTries self.now tries.old.items → AreTries self.now tries.new.items) }
    {
        if let Some(seconds) = seconds_of(shift_ps)
            && shift_ps != self.shift_ps
            && !tries.contains(&seconds)
            && tries.len() < MOST_TRIES
        {
            tries.push(seconds)?;
        }
        Ok(())
    }

    /// The shifts in seconds that are worth a try: the one with which the export would start as claimed, one that is whole days
    /// from the claimed one, none, and the claimed one turned; three at the most, each once and none the claimed one.
    pub fn candidates(&self, alloc: Global) -> Result<Vec<i64>, AllocError>
        ensures { IfOk result (λ tries. AreTries self.now tries.items) }
    {
        let mut tries = Vec::new(alloc);
        self.try_too(&mut tries, self.fitting_ps())?;
        self.try_too(&mut tries, self.days_ps())?;
        self.try_too(&mut tries, 0)?;
        self.try_too(&mut tries, self.shift_ps.saturating_neg())?;
        Ok(tries)
    }

    /// Whether a claim can have the shift with which the export would start as claimed.
    pub fn can_fit(&self) -> bool
        ensures { IsTrue result ↔ ((seconds : ℤ) × IsShift (fitting_of self.now) seconds) }
    {
        seconds_of(self.fitting_ps()).is_some()
    }

    /// The claimed shift in seconds.
    pub fn shift_seconds(&self) -> i128
        ensures { result ≡ int_div_euclid self.now.shift_ps (pos (10 ^ 12)) }
    {
        self.shift_ps.div_euclid(SECOND_PS)
    }
}
