//! Why reading a file stopped before its end.

ghost use Rattle.edf_header.specs.declared.stop.Stop.TheVariants as stops;
ghost use Rattle.std.specs.Prelude.{◌≡◌};

use edf_fields::{Fault, ReadFault};
use std::alloc::{AllocError, AllocFailed};

/// Why reading a file stopped before its end.
#[derive(Debug, Clone, Copy, PartialEq, Eq)]
pub enum Stop {
    /// Memory ran out.
    OutOfMemory,
    /// The source failed.
    ReadFailed,
    /// The file is no file of the profile.
    Fault(Fault),
}

impl From<AllocError> for Stop {
    ghost from_gives = { λ _ e. e ≡ stops.OutOfMemory };

    fn from(_error: AllocError) -> Stop {
        Stop::OutOfMemory
    }
}

impl<T: Drop> From<AllocFailed<T>> for Stop {
    ghost from_gives = { λ _ e. e ≡ stops.OutOfMemory };

    fn from(_error: AllocFailed<T>) -> Stop {
        Stop::OutOfMemory
    }
}

impl From<ReadFault> for Stop {
    ghost from_gives = { λ _ e. e ≡ stops.ReadFailed };

    fn from(_error: ReadFault) -> Stop {
        Stop::ReadFailed
    }
}

impl From<Fault> for Stop {
    ghost from_gives = { λ fault e. e ≡ stops.Fault fault };

    fn from(fault: Fault) -> Stop {
        Stop::Fault(fault)
    }
}
