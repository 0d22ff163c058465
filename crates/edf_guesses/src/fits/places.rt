//! Where the first samples of an export stand in its original.

use crate::fits::front::{Front, FrontLane, lane_of, reader_of};
use edf_fields::{SECOND_PS, Source};
use edf_stream::FileReader;
use std::alloc::{AllocError, Global};
use std::mem;

/// How many places are looked into at the most at a time, and how many are found. Where there are so many, channels stand still,
/// and no other one is looked for.
const MOST_PLACES: usize = 1_024;

/// Whether samples stand at a place, as far as data records were read.
#[derive(Clone, Copy)]
enum Stand {
    /// Others stand there.
    No,
    /// Some of them do, and the next data record is to have the others.
    SoFar,
    /// All of them do.
    All,
}

/// The data record at hand of an original.
#[derive(Clone, Copy)]
struct RecordAt<'a> {
    reader: &'a FileReader,
    start_ps: i128,
    end_ps: i128,
}

/// How many samples lie between two times, if so many lie in a duration; none where it isn't a whole number.
fn samples_between(from_ps: i128, to_ps: i128, count: usize, duration_ps: i128) -> Option<usize> {
    let product = to_ps
        .checked_sub(from_ps)?
        .checked_mul(i128::try_from(count).ok()?)?;
    if product.checked_rem_euclid(duration_ps)? != 0 {
        return None;
    }
    usize::try_from(product.checked_div_euclid(duration_ps)?).ok()
}

/// The samples behind so many others.
fn samples_behind(samples: &[u8], count: usize) -> &[u8] {
    match count.checked_mul(2) {
        Some(bytes) => samples.get(bytes..).unwrap_or(&[]),
        None => &[],
    }
}

/// Whether the samples that stand somewhere are those that are wanted, or as many of them as there are.
fn stand_of(there: &[u8], wanted: &[u8]) -> Stand {
    let least = there.len().min(wanted.len());
    if there.get(..least) != wanted.get(..least) {
        Stand::No
    } else if least < wanted.len() {
        Stand::SoFar
    } else {
        Stand::All
    }
}

impl<'a> RecordAt<'a> {
    /// Whether samples of a channel stand in the data record that are to begin at a time.
    fn has_lane(self, lane: &FrontLane, at_ps: i128) -> Stand {
        let samples = lane_of(self.reader, lane.original);
        let count = samples.len() / 2;
        let duration_ps = self.reader.header().duration_ps();
        if at_ps < self.start_ps {
            match samples_between(at_ps, self.start_ps, count, duration_ps) {
                Some(passed) => stand_of(samples, samples_behind(&lane.samples, passed)),
                None => Stand::No,
            }
        } else {
            match samples_between(self.start_ps, at_ps, count, duration_ps) {
                Some(before) => stand_of(samples_behind(samples, before), &lane.samples),
                None => Stand::No,
            }
        }
    }

    /// Whether the samples of a front stand in the data record that are to begin at a time.
    fn has_front(self, front: &Front, at_ps: i128) -> Stand {
        let mut stand = Stand::All;
        for lane in &front.lanes {
            match self.has_lane(lane, at_ps) {
                Stand::No => return Stand::No,
                Stand::SoFar => stand = Stand::SoFar,
                Stand::All => {}
            }
        }
        stand
    }

    /// The first time in the data record that is a whole number of seconds from another one.
    fn first_whole_second(self, from_ps: i128) -> Option<i128> {
        let rest = from_ps
            .checked_sub(self.start_ps)?
            .checked_rem_euclid(SECOND_PS)?;
        self.start_ps.checked_add(rest)
    }

    /// The time of so many samples behind the first one of a channel, where it is a whole number of seconds from another one.
    fn sample_time(self, count: usize, number: usize, from_ps: i128) -> Option<i128> {
        let product = self
            .reader
            .header()
            .duration_ps()
            .checked_mul(i128::try_from(number).ok()?)?;
        let count = i128::try_from(count).ok()?;
        if product.checked_rem_euclid(count)? != 0 {
            return None;
        }
        let at_ps = self
            .start_ps
            .checked_add(product.checked_div_euclid(count)?)?;
        if at_ps.checked_sub(from_ps)?.checked_rem_euclid(SECOND_PS)? == 0 {
            Some(at_ps)
        } else {
            None
        }
    }
}

/// The times at which a front may begin in an original, as far as its data records were read.
#[derive(Drop)]
pub(crate) struct Places {
    /// Those of which the next data record decides.
    open: Vec<i128>,
    /// Those at which the whole front stands.
    pub found: Vec<i128>,
}

impl Places {
    /// Takes in a time, if the samples of the front that the data record has stand there.
    fn take(&mut self, record: RecordAt<'_>, front: &Front, at_ps: i128) -> Result<(), AllocError> {
        match record.has_front(front, at_ps) {
            Stand::SoFar if self.open.len() < MOST_PLACES => self.open.push(at_ps)?,
            Stand::All if self.found.len() < MOST_PLACES => self.found.push(at_ps)?,
            _ => {}
        }
        Ok(())
    }

    /// Looks in the data record for what is left of the front at the times that are open.
    fn go_on(
        &mut self,
        alloc: Global,
        record: RecordAt<'_>,
        front: &Front,
    ) -> Result<(), AllocError> {
        let open = mem::replace(&mut self.open, Vec::new(alloc));
        for at_ps in &open {
            self.take(record, front, *at_ps)?;
        }
        Ok(())
    }

    /// Looks for the front at each whole second of shift by which it begins in the data record.
    fn begin_by_seconds(
        &mut self,
        record: RecordAt<'_>,
        front: &Front,
        count: usize,
    ) -> Result<(), AllocError> {
        let mut next = record.first_whole_second(front.start_ps);
        for _ in 0..count {
            let Some(at_ps) = next else {
                break;
            };
            if record.end_ps <= at_ps {
                break;
            }
            self.take(record, front, at_ps)?;
            next = at_ps.checked_add(SECOND_PS);
        }
        Ok(())
    }

    /// The same, where there are fewer samples than seconds.
    fn begin_by_samples(
        &mut self,
        record: RecordAt<'_>,
        front: &Front,
        count: usize,
    ) -> Result<(), AllocError> {
        for number in 0..count {
            if let Some(at_ps) = record.sample_time(count, number, front.start_ps) {
                self.take(record, front, at_ps)?;
            }
        }
        Ok(())
    }

    /// Looks for the front at each time at which it may begin in the data record.
    fn begin(&mut self, record: RecordAt<'_>, front: &Front) -> Result<(), AllocError> {
        let Some(lane) = front.lanes.first() else {
            return Ok(());
        };
        let samples = lane_of(record.reader, lane.original).len() / 2;
        let duration_ps = record.reader.header().duration_ps();
        let seconds = usize::try_from(duration_ps / SECOND_PS).unwrap_or(usize::MAX);
        if seconds < samples {
            self.begin_by_seconds(record, front, samples)
        } else {
            self.begin_by_samples(record, front, samples)
        }
    }
}

/// The times in a file at which a front stands, in picoseconds after the second at which the file starts, each a whole number
/// of seconds from where it begins in the export; those that were found before a fault or a failed read.
pub fn places_of<S: Source>(
    alloc: Global,
    source: &mut S,
    front: &Front,
) -> Result<Vec<i128>, AllocError> {
    let mut places = Places {
        open: Vec::new(alloc),
        found: Vec::new(alloc),
    };
    let Some(mut reader) = reader_of(alloc, source)? else {
        return Ok(places.found);
    };
    let mut ended_ps = None;
    for _ in 0..reader.header().records() {
        if MOST_PLACES <= places.found.len()
            || reader.next(source).is_err()
            || !reader.has_current()
        {
            break;
        }
        let record = RecordAt {
            reader: &reader,
            start_ps: reader.start_ps(),
            end_ps: reader.end_ps(),
        };
        if ended_ps == Some(record.start_ps) {
            places.go_on(alloc, record, front)?;
        } else {
            places.open.clear();
        }
        places.begin(record, front)?;
        ended_ps = Some(record.end_ps);
    }
    Ok(places.found)
}
