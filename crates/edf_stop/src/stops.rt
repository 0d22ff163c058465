//! Why a check, a run of it or a report stops before its end.

ghost use Rattle.std.specs.Prelude.{◌≡◌};
ghost use Rattle.edf_stop.specs.declared.stops.CheckStop.TheVariants as check_stops;
ghost use Rattle.edf_stop.specs.declared.stops.ReportStop.TheVariants as report_stops;
ghost use Rattle.edf_stop.specs.declared.stops.RunStop.TheVariants as run_stops;
ghost use Rattle.edf_stop.specs.Stops.{stop_of_check, stop_of_claim};

use crate::sides::Side;
use edf_claim::ClaimStop;
use edf_fields::WriteFault;
use std::alloc::{AllocError, AllocFailed};

/// Why a check stopped without a verdict.
#[derive(Debug, Clone, Copy, PartialEq, Eq)]
pub enum CheckStop {
    /// Memory ran out.
    OutOfMemory,
    /// The source of this file failed.
    ReadFailed(Side),
}

impl From<AllocError> for CheckStop {
    ghost from_gives = { λ _ e. e ≡ check_stops.OutOfMemory };

    fn from(_error: AllocError) -> CheckStop {
        CheckStop::OutOfMemory
    }
}

impl<T: Drop> From<AllocFailed<T>> for CheckStop {
    ghost from_gives = { λ _ e. e ≡ check_stops.OutOfMemory };

    fn from(_error: AllocFailed<T>) -> CheckStop {
        CheckStop::OutOfMemory
    }
}

/// Why a run stopped before its line was written.
#[derive(Debug, Clone, Copy, PartialEq, Eq)]
pub enum RunStop {
    /// Memory ran out.
    OutOfMemory,
    /// The source of this file failed.
    ReadFailed(Side),
    /// The text says no claim: its first fault, which isn't want of memory.
    Claim(ClaimStop),
    /// The sink failed.
    WriteFailed,
}

impl From<AllocError> for RunStop {
    ghost from_gives = { λ _ e. e ≡ run_stops.OutOfMemory };

    fn from(_error: AllocError) -> RunStop {
        RunStop::OutOfMemory
    }
}

impl From<ClaimStop> for RunStop {
    ghost from_gives = { λ stop e. e ≡ stop_of_claim stop };

    fn from(stop: ClaimStop) -> RunStop {
        match stop {
            ClaimStop::OutOfMemory => RunStop::OutOfMemory,
            cause => RunStop::Claim(cause),
        }
    }
}

impl From<CheckStop> for RunStop {
    ghost from_gives = { λ stop e. e ≡ stop_of_check stop };

    fn from(stop: CheckStop) -> RunStop {
        match stop {
            CheckStop::OutOfMemory => RunStop::OutOfMemory,
            CheckStop::ReadFailed(side) => RunStop::ReadFailed(side),
        }
    }
}

impl From<WriteFault> for RunStop {
    ghost from_gives = { λ _ e. e ≡ run_stops.WriteFailed };

    fn from(_error: WriteFault) -> RunStop {
        RunStop::WriteFailed
    }
}

/// Why a report stopped before its end.
#[derive(Debug, Clone, Copy, PartialEq, Eq)]
pub enum ReportStop {
    /// Memory ran out.
    OutOfMemory,
    /// The source failed.
    ReadFailed,
    /// The sink failed.
    WriteFailed,
}

impl From<AllocError> for ReportStop {
    ghost from_gives = { λ _ e. e ≡ report_stops.OutOfMemory };

    fn from(_error: AllocError) -> ReportStop {
        ReportStop::OutOfMemory
    }
}

impl<T: Drop> From<AllocFailed<T>> for ReportStop {
    ghost from_gives = { λ _ e. e ≡ report_stops.OutOfMemory };

    fn from(_error: AllocFailed<T>) -> ReportStop {
        ReportStop::OutOfMemory
    }
}

impl From<WriteFault> for ReportStop {
    ghost from_gives = { λ _ e. e ≡ report_stops.WriteFailed };

    fn from(_error: WriteFault) -> ReportStop {
        ReportStop::WriteFailed
    }
}
