//! The columns of a header: its signals, or the first fault of their fields.

ghost use Rattle.std.specs.Prelude.{◌≡◌, ◌*◌, ◌≤◌, ◌<◌, ◌^◌, None, Some, length, IfOk, IfErr};
ghost use Rattle.edf_header.specs.Faults.{signals_faults, columns_tests};
ghost use Rattle.edf_fields.specs.Tests.{first};
ghost use Rattle.edf_header.specs.HeaderParts.{IsBody};
ghost use Rattle.edf_header.specs.HeadsReading.{signals_in};
ghost use Rattle.edf_header.specs.Stops.{Stops};

use crate::in_columns::columns::Columns;
use crate::signals::judge_signal::judge_signal;
use crate::signals::lane_place::{LanePlace, annotation_places};
use crate::signals::signal::Signal;
use crate::signals::together::judge_together;
use crate::stop::Stop;
use std::alloc::Global;

/// The signals of the columns, or the first fault of their fields.
fn judge_signals(alloc: Global, columns: &Columns) -> Result<Vec<Signal>, Stop>
    requires { columns.now.signals < 10 ^ 4 }
    ensures ok { IfOk result (λ v.
        (first (signals_faults columns.entry.now.bytes columns.entry.now.signals 0
        columns.entry.now.signals) ≡ None) ×
        (v.items ≡ signals_in columns.entry.now.signals columns.entry.now.bytes)) }
    ensures stop { IfErr result
        (Stops (λ f.
        first (signals_faults columns.entry.now.bytes columns.entry.now.signals 0 columns.entry.now.signals) ≡
        Some f) ⊥ (Unit {0})) }
{
    let signals = columns.signals();
    let mut found = Vec::with_capacity(alloc, usize::from(signals))?;
    let mut offset = 0u64;
    for s in 0..signals {
        let signal = judge_signal(alloc, columns, s, offset, found.last())?;
        offset += 2 * u64::from(signal.samples());
        found.push(signal)?;
    }
    Ok(found)
}

/// What the columns of a header say.
#[derive(Drop)]
pub(crate) struct Body {
    pub signals: Vec<Signal>,
    /// Where the lanes of those that hold annotations lie.
    pub annotations: Vec<LanePlace>,
    /// How many bytes a data record has.
    pub record_bytes: u32,
}

/// The signals of the columns, or the first fault of the columns.
pub(crate) fn judge_columns(alloc: Global, columns: &Columns) -> Result<Body, Stop>
    requires few { columns.now.signals < 10 ^ 4 }
    requires whole { 256 * columns.now.signals ≤ length columns.now.bytes }
    ensures ok { IfOk result (IsBody columns.entry.now) }
    ensures stop { IfErr result
        (Stops (λ f. first (columns_tests columns.entry.now.signals columns.entry.now.bytes) ≡ Some f) ⊥
        (Unit {0})) }
{
    let signals = judge_signals(alloc, columns)?;
    let record_bytes = judge_together(alloc, &signals)?;
    let annotations = annotation_places(alloc, &signals)?;
    Ok(Body {
        signals,
        annotations,
        record_bytes,
    })
}
