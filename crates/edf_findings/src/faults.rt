//! The first fault of an export that a check left aside, since another file had one.

ghost use Rattle.std.specs.Prelude.{◌≡◌, IfErr, IfOk, IsTrue, OnOk};
ghost use Rattle.edf_check.specs.Checks.{CheckStops};
ghost use Rattle.edf_fields.specs.in_out.Sources.{Fails};
ghost use Rattle.edf_stream.specs.Faults.{file_fault};

use edf_fields::{Fault, Source};
use edf_header::Stop;
use edf_stop::{CheckStop, Side};
use edf_stream::conform;
use std::alloc::Global;

/// The first fault of an export, which is read up to there; none where it conforms, and then it is read to its end.
///
/// The error is a failed read of the export; or want of memory, where no read failed.
pub fn fault_of_export<S: Source>(alloc: Global, export: &mut S) -> Result<Option<Fault>, CheckStop>
    ensures fault { IfOk result (λ fault. IsTrue (S.is_honest export.old) →
        file_fault (S.left export.old) ≡ fault) }
    ensures failures { OnOk result (S.reads export.new ≡ S.reads export.old) }
    ensures stop { IfErr result (CheckStops ⊥ (Fails (S.reads export.old) (S.reads export.new))
        (S.reads export.new ≡ S.reads export.old)) }
{
    match conform(alloc, export) {
        Ok(_) => Ok(None),
        Err(Stop::Fault(fault)) => Ok(Some(fault)),
        Err(Stop::OutOfMemory) => Err(CheckStop::OutOfMemory),
        Err(Stop::ReadFailed) => Err(CheckStop::ReadFailed(Side::Export)),
    }
}
