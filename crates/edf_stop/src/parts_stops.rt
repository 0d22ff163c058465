//! Why a check of several exports of one original, or a run of it, stops before its end.

ghost use Rattle.std.specs.Prelude.{◌≡◌};
ghost use Rattle.edf_stop.specs.declared.parts_stops.PartsRunStop.TheVariants as run_stops;
ghost use Rattle.edf_stop.specs.declared.parts_stops.PartsStop.TheVariants as stops;
ghost use Rattle.edf_stop.specs.Stops.{parts_stop_of_check};

use edf_claim::ClaimStop;
use edf_fields::WriteFault;
use std::alloc::{AllocError, AllocFailed};

/// One of the files of a check of several exports.
#[derive(Debug, Clone, Copy, PartialEq, Eq)]
pub enum PartSide {
    /// The recording that the sleep centre keeps.
    Original,
    /// The export of this number, counted from 0.
    Part(u16),
}

/// Why a check of several exports stopped without a verdict.
#[derive(Debug, Clone, Copy, PartialEq, Eq)]
pub enum PartsStop {
    /// Memory ran out.
    OutOfMemory,
    /// The source of this file failed.
    ReadFailed(PartSide),
}

impl From<AllocError> for PartsStop {
    ghost from_gives = { λ _ e. e ≡ stops.OutOfMemory };

    fn from(_error: AllocError) -> PartsStop {
        PartsStop::OutOfMemory
    }
}

impl<T: Drop> From<AllocFailed<T>> for PartsStop {
    ghost from_gives = { λ _ e. e ≡ stops.OutOfMemory };

    fn from(_error: AllocFailed<T>) -> PartsStop {
        PartsStop::OutOfMemory
    }
}

/// Why a run of such a check stopped before its line was written.
#[derive(Debug, Clone, Copy, PartialEq, Eq)]
pub enum PartsRunStop {
    /// Memory ran out.
    OutOfMemory,
    /// The source of this file failed.
    ReadFailed(PartSide),
    /// The text says no claim: its first fault, which isn't want of memory.
    Claim(ClaimStop),
    /// The sink failed.
    WriteFailed,
}

impl From<AllocError> for PartsRunStop {
    ghost from_gives = { λ _ e. e ≡ run_stops.OutOfMemory };

    fn from(_error: AllocError) -> PartsRunStop {
        PartsRunStop::OutOfMemory
    }
}

impl From<PartsStop> for PartsRunStop {
    ghost from_gives = { λ stop e. e ≡ parts_stop_of_check stop };

    fn from(stop: PartsStop) -> PartsRunStop {
        match stop {
            PartsStop::OutOfMemory => PartsRunStop::OutOfMemory,
            PartsStop::ReadFailed(side) => PartsRunStop::ReadFailed(side),
        }
    }
}

impl From<WriteFault> for PartsRunStop {
    ghost from_gives = { λ _ e. e ≡ run_stops.WriteFailed };

    fn from(_error: WriteFault) -> PartsRunStop {
        PartsRunStop::WriteFailed
    }
}
