//! The samples of channels. EDF (1992), "Data record".

ghost use Rattle.std.specs.Prelude.{◌≡◌, ◌∷◌, [], ◌++◌, ◌+◌, ◌-◌, ◌*◌, ◌<◌, ◌≤◌, ◌^◌, length, IfOk, OnOk, unsigned_abs};
ghost use Rattle.std.specs.List.{All};
ghost use Rattle.edf_stream.specs.samples.Values.{digital_value};
ghost use Rattle.edf_stream.specs.samples.SamplesReading.{instant_on, lane_samples, samples_by};
ghost use Rattle.edf_stream.specs.times.InstantOrder.{IsSmall};
ghost use Rattle.edf_header.specs.signals.Channels.{channels_among};

use crate::records::lanes::lane_of;
use crate::samples::value::value_at;
use crate::times::instant::Instant;
use crate::times::lane_times::{LaneTimes, RecordTime};
use edf_header::{Header, Signal};
use std::alloc::AllocError;

/// A sample of a channel.
#[derive(Debug, Clone, Copy, PartialEq, Eq)]
pub struct Sample {
    /// Which channel: 0 for the first of the signals that hold no annotations.
    pub channel: u16,
    /// When it was taken, in picoseconds after 1970-01-01 00:00:00 (civil time, without a time zone).
    pub instant: Instant,
    /// The digital value.
    pub value: i16,
}

/// The sample at a place of the lane of a channel.
fn sample_at(channel: u16, grid: LaneTimes, lane: &[u8], place: usize) -> Sample
    requires near { unsigned_abs grid.start < 2 ^ 102 }
    requires step { unsigned_abs grid.step < 2 ^ 68 }
    requires some { 0 < grid.den }
    requires den { grid.den ≤ 2 ^ 23 }
    requires few { place < 2 ^ 24 }
    requires place { 2 * place + 1 < length lane.now }
    ensures channel { result.channel ≡ channel }
    ensures instant { result.instant ≡ instant_on grid place }
    ensures value { result.value ≡ digital_value lane.now place }
    ensures small { IsSmall result.instant }
{
    Sample {
        channel,
        instant: grid.instant(place),
        value: value_at(lane, place),
    }
}

/// Puts the samples of a lane of a channel behind `samples`.
pub(crate) fn push_lane(
    samples: &mut Vec<Sample>,
    channel: u16,
    grid: LaneTimes,
    lane: &[u8],
) -> Result<(), AllocError>
    requires near { unsigned_abs grid.start < 2 ^ 102 }
    requires step { unsigned_abs grid.step < 2 ^ 68 }
    requires some { 0 < grid.den }
    requires den { grid.den ≤ 2 ^ 23 }
    requires lane { length lane.now < 2 ^ 25 }
    requires small { All (λ x. IsSmall x.instant) samples.old.items }
    ensures value { OnOk result (samples.new.items ≡ samples.old.items ++
        lane_samples channel grid.den grid.start grid.step lane.now) }
    ensures small { OnOk result (All (λ x. IsSmall x.instant) samples.new.items) }
{
    for place in 0..lane.len() / 2 {
        samples.push(sample_at(channel, grid, lane, place))?;
    }
    Ok(())
}

/// Puts the samples of a signal behind `samples`, where it is a channel, and answers the number of the next
/// channel.
fn push_signal(
    samples: &mut Vec<Sample>,
    channel: u16,
    time: RecordTime,
    signal: &Signal,
    bytes: &[u8],
) -> Result<u16, AllocError>
    requires start { unsigned_abs time.start_ps < 2 ^ 79 }
    requires duration { unsigned_abs time.duration_ps < 2 ^ 68 }
    requires channel { channel < 2 ^ 16 - 1 }
    requires some { 0 < signal.now.samples }
    requires lane { signal.now.samples ≤ 2 ^ 23 }
    requires small { All (λ x. IsSmall x.instant) samples.old.items }
    ensures value { OnOk result (samples.new.items ≡ samples.old.items ++
        samples_by channel time.start_ps time.duration_ps (channels_among (signal.now ∷ [])) bytes.now) }
    ensures next { IfOk result (λ next. next ≡ channel + length (channels_among (signal.now ∷ []))) }
    ensures small { OnOk result (All (λ x. IsSmall x.instant) samples.new.items) }
{
    if signal.is_annotations() {
        return Ok(channel);
    }
    let grid = LaneTimes::new(time, signal.samples());
    push_lane(samples, channel, grid, lane_of(signal, bytes))?;
    Ok(channel + 1)
}

/// Puts the samples of the data record of these bytes behind `samples`.
pub(crate) fn push_samples(
    samples: &mut Vec<Sample>,
    header: &Header,
    time: RecordTime,
    bytes: &[u8],
) -> Result<(), AllocError>
    requires start { unsigned_abs time.start_ps < 2 ^ 79 }
    requires duration { unsigned_abs time.duration_ps < 2 ^ 68 }
    requires small { All (λ x. IsSmall x.instant) samples.old.items }
    ensures value { OnOk result (samples.new.items ≡ samples.old.items ++
        samples_by 0 time.start_ps time.duration_ps (channels_among header.now.signals) bytes.now) }
    ensures small { OnOk result (All (λ x. IsSmall x.instant) samples.new.items) }
{
    let mut channel = 0;
    for signal in header.signals() {
        channel = push_signal(samples, channel, time, signal, bytes)?;
    }
    Ok(())
}
