//! Where a data record may start. EDF+ (2003), "Time keeping of data records".

ghost use Rattle.std.specs.Prelude.{◌≡◌, pos, ◌<◌, ◌^◌, ◌+ℤ◌, ◌<ℤ◌, ◌≤ℤ◌, None, Some, MatchResult, OnOk, IfErr, unsigned_abs};
ghost use Rattle.edf_fields.specs.declared.faults.fault.Place.TheVariants.{AtRecord};
ghost use Rattle.edf_stream.specs.Faults.{start_fault};

use edf_fields::{Cause, Fault, Place, SECOND_PS};
use edf_header::{Header, Kind};

/// How far the data records were followed.
#[derive(Clone, Copy)]
pub(crate) struct Progress {
    /// Where the last one ends, in picoseconds after the start of the file; 0 before the first one.
    pub ended_ps: i128,
    /// How many annotations they have together.
    pub notes: u32,
}

impl Progress {
    /// Before the first data record.
    pub(crate) fn new() -> Progress
        ensures ended { result.ended_ps ≡ pos 0 }
        ensures notes { result.notes ≡ 0 }
    {
        Progress {
            ended_ps: 0,
            notes: 0,
        }
    }
}

/// Where a data record starts, in picoseconds after the start of the file.
#[derive(Clone, Copy)]
pub(crate) struct RecordStart {
    pub ps: i128,
}

impl RecordStart {
    /// How far the data records were followed with the one that starts here, and so many annotations.
    pub(crate) fn with(self, header: &Header, notes: u32) -> Progress
        requires { unsigned_abs self.ps < 10 ^ 21 }
        ensures end { result.ended_ps ≡ self.ps +ℤ header.now.duration }
        ensures notes { result.notes ≡ notes }
        ensures small { unsigned_abs result.ended_ps < 2 ^ 71 }
        ensures later { self.ps <ℤ result.ended_ps }
    {
        Progress {
            ended_ps: self.ps + header.duration_ps(),
            notes,
        }
    }
}

/// Whether data record `k` may start there: the first one in the first second; each other one where the
/// one before ends, or, in an interrupted file, there or later.
#[tactic(auto, unfolding(crate::specs::Faults::start_fault))]
pub(crate) fn judge_start(
    kind: Kind,
    k: u32,
    before: Progress,
    start: RecordStart,
) -> Result<(), Fault>
    ensures judged { MatchResult result (λ _. start_fault kind k before.ended_ps start.ps ≡ None) (λ f.
        start_fault kind k before.ended_ps start.ps ≡ Some f) }

    ensures place { IfErr result (λ f. f.place ≡ AtRecord k) }

    // It starts at the end of those before it, or later.
    ensures later { OnOk result ((k ≡ 0 → before.ended_ps ≡ pos 0) → before.ended_ps ≤ℤ start.ps) }
{
    let (passes, cause) = match (k, kind) {
        (0, _) => ((0..SECOND_PS).contains(&start.ps), Cause::BadFirstStart),
        (_, Kind::Contiguous) => (start.ps == before.ended_ps, Cause::NotContiguous),
        (_, Kind::Interrupted) => (before.ended_ps <= start.ps, Cause::Overlap),
    };
    if passes {
        return Ok(());
    }
    Err(Fault {
        place: Place::AtRecord(k),
        cause,
    })
}
