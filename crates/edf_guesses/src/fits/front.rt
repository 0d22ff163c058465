//! The first samples of an export, by which its place in the original is told.

use edf_fields::Source;
use edf_header::{Header, Stop};
use edf_heads::ChannelIndex;
use edf_stream::FileReader;
use std::alloc::{AllocError, Global};

/// How many samples that aren't as the one before are enough, and how many bytes of a channel. A data record is always taken whole.
const ENOUGH_CHANGES: usize = 64;

const ENOUGH_BYTES: usize = 4_096;

/// The first samples of a channel that both files have.
#[derive(Drop)]
pub struct FrontLane {
    /// Which signal of the original the channel is.
    pub original: usize,
    /// Which signal of the export it is.
    pub export: usize,
    /// Its samples, two bytes each, the low byte first.
    pub samples: Vec<u8>,
    /// How many of them aren't as the one before.
    pub changes: usize,
}

/// The samples of one or more data records of an export that touch, of each channel that the original has, too. The one that
/// changes most often comes first.
#[derive(Drop)]
pub struct Front {
    /// Where they begin, and where they end, in picoseconds after the second at which the export starts.
    pub start_ps: i128,
    pub end_ps: i128,
    pub lanes: Vec<FrontLane>,
}

/// A reader of a source; none where the source can't be read as a file.
pub(crate) fn reader_of<S: Source>(
    alloc: Global,
    source: &mut S,
) -> Result<Option<FileReader>, AllocError> {
    match FileReader::begin(alloc, source) {
        Ok(reader) => Ok(Some(reader)),
        Err(Stop::OutOfMemory) => Err(AllocError),
        Err(_) => Ok(None),
    }
}

/// The samples of a signal in the data record at hand; none where there is no such.
pub(crate) fn lane_of(reader: &FileReader, signal: usize) -> &[u8] {
    if reader.has_current() && signal < reader.header().signals().len() {
        reader.run(signal)
    } else {
        &[]
    }
}

/// How many of some samples aren't as the one before.
fn change_count(samples: &[u8]) -> usize {
    let mut count: usize = 0;
    let mut last: Option<&[u8]> = None;
    for sample in samples.chunks_exact(2) {
        if let Some(other) = last
            && sample != other
        {
            count = count.checked_add(1).unwrap_or(count);
        }
        last = Some(sample);
    }
    count
}

/// The channels that both files have, without samples yet.
fn lanes_of(
    alloc: Global,
    original: &Header,
    export: &Header,
) -> Result<Vec<FrontLane>, AllocError> {
    let index = ChannelIndex::new(alloc, original)?;
    let mut lanes = Vec::new(alloc);
    for (place, signal) in export.signals().iter().enumerate() {
        if !signal.is_annotations()
            && let Some(channel) = index.channel(signal.label())
        {
            lanes.push(FrontLane {
                original: usize::from(channel.at),
                export: place,
                samples: Vec::new(alloc),
                changes: 0,
            })?;
        }
    }
    Ok(lanes)
}

impl FrontLane {
    /// Takes in the samples of the data record at hand of the export.
    fn take_in(&mut self, reader: &FileReader) -> Result<(), AllocError> {
        let last = self.samples.len().checked_sub(2).unwrap_or(0);
        self.samples
            .extend_from_slice(lane_of(reader, self.export))?;
        let more = change_count(self.samples.get(last..).unwrap_or(&[]));
        self.changes = self.changes.checked_add(more).unwrap_or(self.changes);
        Ok(())
    }

    /// Whether it has enough samples to tell a place.
    fn is_enough(&self) -> bool {
        ENOUGH_CHANGES <= self.changes || ENOUGH_BYTES <= self.samples.len()
    }
}

impl Front {
    /// Whether the data record at hand of the export belongs to it, too: it touches the last one, and there aren't enough samples.
    fn goes_on(&self, reader: &FileReader) -> bool {
        for lane in &self.lanes {
            if lane.is_enough() {
                return false;
            }
        }
        reader.has_current() && reader.start_ps() == self.end_ps
    }

    /// Takes in the samples of the data record at hand of the export.
    fn take_in(&mut self, reader: &FileReader) -> Result<(), AllocError> {
        for lane in self.lanes.iter_mut() {
            lane.take_in(reader)?;
        }
        if reader.has_current() {
            self.end_ps = reader.end_ps();
        }
        Ok(())
    }

    /// Forgets its samples, to begin with the data record at hand of the export.
    fn begin_with(&mut self, reader: &FileReader) {
        for lane in self.lanes.iter_mut() {
            lane.samples.clear();
            lane.changes = 0;
        }
        if reader.has_current() {
            self.start_ps = reader.start_ps();
        }
    }

    /// Puts the channel that changes most often in front; answers how often that is.
    fn put_most_first(&mut self) -> usize {
        let mut most = 0;
        let mut first = 0;
        for (place, lane) in self.lanes.iter().enumerate() {
            if most < lane.changes {
                most = lane.changes;
                first = place;
            }
        }
        if first < self.lanes.len() {
            self.lanes.swap(0, first);
        }
        most
    }
}

/// The first samples of an export that aren't all the same, of the channels that the original has, too; or the last ones, where each
/// channel stands still as long as data records touch. None where the export can't be read, or has no such channel.
pub fn front_of<S: Source>(
    alloc: Global,
    source: &mut S,
    original: &Header,
) -> Result<Option<Front>, AllocError> {
    let Some(mut reader) = reader_of(alloc, source)? else {
        return Ok(None);
    };
    let mut front = Front {
        start_ps: 0,
        end_ps: -1,
        lanes: lanes_of(alloc, original, reader.header())?,
    };
    for _ in 0..reader.header().records() {
        if reader.next(source).is_err() || !reader.has_current() {
            return Ok(None);
        }
        if !front.goes_on(&reader) {
            if 0 < front.put_most_first() {
                return Ok(Some(front));
            }
            front.begin_with(&reader);
        }
        front.take_in(&reader)?;
    }
    front.put_most_first();
    Ok(if front.lanes.is_empty() {
        None
    } else {
        Some(front)
    })
}
