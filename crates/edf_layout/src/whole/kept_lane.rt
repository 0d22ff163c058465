//! The annotation lanes of a data record as they are kept. EDF+ (2003), "Time keeping of data records".

ghost use Rattle.std.specs.Prelude.{◌≡◌, ◌↔◌, ◌<◌, ◌≤◌, ◌^◌, ◌+◌, ◌++◌, ◌∷◌, ℕ, ℤ, List, [], length, map, true, slice_get, unsigned_abs, IfOk, OnOk, IsTrue};
ghost use Rattle.std.specs.Option.{option_map};
ghost use Rattle.edf_stream.specs.records.Readers.{is_current};
ghost use Rattle.edf_stream.specs.records.Records.{annotation_lanes};
ghost use Rattle.edf_stream.specs.times.StartsReading.{start_in};
ghost use Rattle.edf_tal.specs.Reading.{are_zeros};
ghost use Rattle.edf_layout.specs.body.PlainOrders.{lane_sizes};
ghost use Rattle.edf_layout.specs.whole.KeptLanes.{IsBare, own_bytes, record_kept};

use crate::lane_layout::has_plain_onset;
use edf_stream::FileReader;
use edf_tal::{Tals, time_alone_apart};
use std::alloc::{AllocError, Global};

/// An annotation lane of a data record that was read.
#[derive(Debug, Drop)]
pub enum KeptLane {
    /// It is bare: as the first lane it has the TAL that only keeps the time, spelled plainly, and zeros behind
    /// it; as any other one zeros alone. So its size and the start of its data record tell it.
    Bare,
    /// Its bytes.
    Bytes(Vec<u8>),
}

/// Whether a lane is zeros alone.
fn has_zeros_alone(lane: &[u8]) -> bool
    ensures { IsTrue result ↔ (are_zeros lane.now ≡ true) }
{
    match Tals::new(lane).next() {
        None => true,
        Some(_) => false,
    }
}

/// Whether a lane has the TAL that only keeps the time of a data record with this start, spelled plainly, and zeros
/// behind it.
fn keeps_time_alone(lane: &[u8], start: i128) -> bool
    requires { unsigned_abs start < 10 ^ 21 }
    ensures { IsTrue result ↔ IsBare true start lane.now }
{
    let Some(onset) = time_alone_apart(lane) else {
        return false;
    };
    if onset != start {
        return false;
    }
    has_plain_onset(lane)
}

/// Whether a lane is bare, in a data record with this start.
fn is_bare(lane: &[u8], start: i128, is_first: bool) -> bool
    requires { unsigned_abs start < 10 ^ 21 }
    ensures { IsTrue result ↔ IsBare is_first start lane.now }
{
    if is_first {
        keeps_time_alone(lane, start)
    } else {
        has_zeros_alone(lane)
    }
}

/// Puts bare lanes behind those that are kept of a data record, until they are so many.
fn push_bare(lanes: &mut Vec<KeptLane>, count: usize) -> Result<(), AllocError>
    requires { length lanes.old.items ≤ count }
    ensures count { OnOk result (length lanes.new.items ≡ count) }
    ensures same { OnOk result ((start : ℤ) (sizes : List ℕ) → length sizes ≡ count →
        record_kept true start sizes lanes.new.items ≡ record_kept true start sizes lanes.old.items) }
{
    while lanes.len() < count {
        lanes.push(KeptLane::Bare)?;
    }
    Ok(())
}

/// Keeps the lane of this number of a data record with this start, behind those before it.
fn keep_lane(
    lanes: &mut Vec<KeptLane>,
    alloc: Global,
    number: usize,
    lane: &[u8],
    start: i128,
) -> Result<(), AllocError>
    requires few { length lanes.old.items ≤ number }
    requires near { unsigned_abs start < 10 ^ 21 }
    ensures few { OnOk result (length lanes.new.items ≤ number + 1) }
    ensures kept { OnOk result ((sizes : List ℕ) → length sizes ≡ number →
        record_kept true start (sizes ++ length lane.now ∷ []) lanes.new.items ≡
        record_kept true start sizes lanes.old.items ++ lane.now ∷ []) }
{
    if is_bare(lane, start, number == 0) {
        return Ok(());
    }
    push_bare(lanes, number)?;
    lanes.push(KeptLane::Bytes(Vec::from_slice(alloc, lane)?))?;
    Ok(())
}

/// The annotation lanes of the data record at hand, which has this start, in file order. Nothing is kept of those
/// behind the last one that isn't bare.
pub(crate) fn lanes_at_hand(
    alloc: Global,
    reader: &FileReader,
    start: i128,
) -> Result<Vec<KeptLane>, AllocError>
    requires current { IsTrue (is_current reader.now.status) }
    requires start { start ≡ start_in reader.now.head reader.now.current }
    ensures { IfOk result (λ v. record_kept true start (lane_sizes reader.now.head) v.items ≡
        annotation_lanes reader.now.head.signals reader.now.current) }
{
    let signals = reader.header().signals();
    let mut lanes = Vec::new(alloc);
    let mut count = 0usize;
    for (number, signal) in signals.iter().enumerate() {
        if signal.is_annotations() {
            keep_lane(&mut lanes, alloc, count, reader.run(number), start)?;
            count += 1;
        }
    }
    Ok(lanes)
}

/// The bytes of the lane of this number of a data record of which these are kept; nothing where it is bare.
pub(crate) fn own_bytes(lanes: &[KeptLane], number: usize) -> Option<&[u8]>
    ensures { option_map (λ bytes. bytes.now) result ≡ own_bytes (slice_get lanes.entry.now number) }
{
    match lanes.get(number) {
        Some(KeptLane::Bytes(bytes)) => Some(bytes),
        _ => None,
    }
}
