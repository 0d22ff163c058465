//! Whether a file conforms to the profile, and how much it holds.

ghost use Rattle.std.specs.Prelude.{◌≡◌, ◌*◌, ◌<◌, ◌≤◌, ◌^◌, length, Some, IfOk, IfErr, OnOk, IsTrue};
ghost use Rattle.edf_fields.specs.in_out.Sources.{Fails};
ghost use Rattle.edf_header.specs.Heads.{samples_together};
ghost use Rattle.edf_header.specs.Stops.{Stops};
ghost use Rattle.edf_stream.specs.Faults.{file_fault};
ghost use Rattle.edf_stream.specs.Summaries.{IsSummed};
ghost use Rattle.edf_header.specs.signals.Channels.{channels_among};

use crate::records::reader::FileReader;
use edf_fields::Source;
use edf_header::{Header, Signal, Stop};
use std::alloc::Global;

/// How much a file holds.
#[derive(Debug, Clone, Copy, PartialEq, Eq)]
pub struct Summary {
    /// How many data records.
    pub records: u64,
    /// How many channels: signals that hold no annotations.
    pub channels: u64,
    /// How many samples all channels have together.
    pub samples: u64,
    /// How many annotations, time-keeping texts not counted.
    pub annotations: u64,
}

/// How many channels there are among the signals.
fn channel_count(signals: &[Signal]) -> u64
    requires { length signals.now < 2 ^ 16 }
    ensures value { result ≡ length (channels_among signals.now) }
    ensures small { result < 2 ^ 16 }
{
    let mut count = 0;
    for signal in signals {
        if !signal.is_annotations() {
            count += 1;
        }
    }
    count
}

/// How many samples the channels among the signals have together in a data record.
fn channel_samples(signals: &[Signal]) -> u64
    requires { samples_together signals.now ≤ 2 ^ 23 }
    ensures value { result ≡ samples_together (channels_among signals.now) }
    ensures small { result ≤ 2 ^ 23 }
{
    let mut count = 0;
    for signal in signals {
        if !signal.is_annotations() {
            count += u64::from(signal.samples());
        }
    }
    count
}

impl Summary {
    /// That of a file with this header, which has so many annotations.
    pub fn of(header: &Header, annotations: u64) -> Summary
        ensures records { result.records ≡ header.now.records }
        ensures channels { result.channels ≡ length (channels_among header.now.signals) }
        ensures samples { result.samples ≡ header.now.records * samples_together
            (channels_among header.now.signals) }
        ensures few { result.samples < 2 ^ 50 }
        ensures annotations { result.annotations ≡ annotations }
    {
        let records = u64::from(header.records());
        let signals = header.signals();
        Summary {
            records,
            channels: channel_count(signals),
            samples: records * channel_samples(signals),
            annotations,
        }
    }
}

impl FileReader {
    /// How much the file holds, where all of its data records were read.
    fn summary(&self) -> Summary
        ensures records { result.records ≡ (self.now.head).records }
        ensures channels { result.channels ≡ length (channels_among (self.now.head).signals) }
        ensures samples { result.samples ≡ (self.now.head).records * samples_together
            (channels_among (self.now.head).signals) }
        ensures annotations { result.annotations ≡ self.now.notes }
    {
        Summary::of(&self.header, u64::from(self.progress.notes))
    }
}

/// Reads a whole file, and says how much it holds: `Ok` only where it conforms to the profile, which
/// docs/PROFILE.md tells; a `Fault` is its first one. The other errors are a failed read and want of
/// memory. The source is read to its end on `Ok`.
pub fn conform<S: Source>(alloc: Global, source: &mut S) -> Result<Summary, Stop>
    ensures failures { OnOk result (S.reads source.new ≡ S.reads source.old) }
    ensures conforms { IfOk result (λ summary. IsTrue (S.is_honest source.old) →
        IsSummed (S.left source.old) (S.left source.new) summary) }
    ensures stop { IfErr result (Stops (λ f. IsTrue (S.is_honest source.old) →
        file_fault (S.left source.old) ≡ Some f) (Fails (S.reads source.old) (S.reads source.new))
        (S.reads source.new ≡ S.reads source.old)) }
{
    let mut reader = match FileReader::begin(alloc, source) {
        Ok(reader) => reader,
        Err(stop) => return Err(stop),
    };
    loop {
        match reader.next(source) {
            Ok(true) => {}
            Ok(false) => return Ok(reader.summary()),
            Err(stop) => return Err(stop),
        }
    }
}
