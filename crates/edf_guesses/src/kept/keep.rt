//! The intervals that an export keeps of its original.

use crate::kept::back::{Back, moved_stretches, times_beside};
use crate::kept::intervals::{ended_count, is_kept};
use crate::kept::lacking::lacking_times;
use crate::kept::sampling::Sampling;
use edf_claim::{Interval, MOST_INTERVALS};
use edf_recording::{Recorded, Stretch};
use std::alloc::{AllocError, Global};

/// What of an original an interval may reach over.
#[derive(Clone, Copy)]
struct Ground<'a> {
    sampling: &'a Sampling,
    /// The time of the original's data records.
    stretches: &'a [Stretch],
    /// The times, in order, of annotations that no interval may have.
    barred: &'a [i128],
}

impl<'a> Ground<'a> {
    /// Whether one of the annotations that no interval may have lies between two times, or at the first of them.
    fn is_barred(self, from_ps: i128, to_ps: i128) -> bool {
        let before = self.barred.partition_point(|at_ps| *at_ps < from_ps);
        match self.barred.get(before) {
            Some(at_ps) => *at_ps < to_ps,
            None => false,
        }
    }

    /// Whether an interval may go on from one time to another: no sample stands there, and no such annotation.
    fn is_free(self, from_ps: i128, to_ps: i128) -> bool {
        let has_sample = match self.sampling.next_sample(self.stretches, from_ps) {
            Some(sample) => sample < to_ps,
            None => false,
        };
        !has_sample && !self.is_barred(from_ps, to_ps)
    }

    /// How far a time lies behind an interval that may go on as far; none where it may not.
    fn way_on(self, before: Interval, at_ps: i128) -> Option<i128> {
        if self.is_free(before.to_ps, at_ps.saturating_add(1)) {
            Some(at_ps.saturating_sub(before.to_ps))
        } else {
            None
        }
    }

    /// How far a time that a claim can say lies before an interval that may begin as early; none where it may not.
    fn way_back(self, behind: Interval, at_ps: i128) -> Option<i128> {
        match self.sampling.sample_before(self.stretches, behind.from_ps) {
            Some(sample) if at_ps <= sample => None,
            _ if at_ps < 0 || self.is_barred(at_ps, behind.from_ps) => None,
            _ => Some(behind.from_ps.saturating_sub(at_ps)),
        }
    }
}

/// Keeps the time of an annotation that the export has beside its data records. The interval before it reaches as far, or the
/// one behind it, of both the nearer one; where neither may, a time that a claim can say and at which no sample stands is an
/// interval of its own.
fn reach_to(keep: &mut Vec<Interval>, ground: Ground<'_>, at_ps: i128) -> Result<(), AllocError> {
    let ended = ended_count(keep, at_ps);
    let on = match ended.checked_sub(1).and_then(|place| keep.get(place)) {
        Some(before) => ground.way_on(*before, at_ps),
        None => None,
    };
    let back = match keep.get(ended) {
        Some(behind) => ground.way_back(*behind, at_ps),
        None => None,
    };
    let behind_ps = at_ps.saturating_add(1);
    if let Some(way) = on
        && back.is_none_or(|other| way <= other)
    {
        if let Some(before) = ended.checked_sub(1).and_then(|place| keep.get_mut(place)) {
            before.to_ps = behind_ps;
        }
    } else if back.is_some() {
        if let Some(behind) = keep.get_mut(ended) {
            behind.from_ps = at_ps;
        }
    } else if at_ps >= 0 && ended <= keep.len() && ground.is_free(at_ps, behind_ps) {
        keep.insert(
            ended,
            Interval {
                from_ps: at_ps,
                to_ps: behind_ps,
            },
        )?;
    }
    Ok(())
}

/// The same intervals, but that two are one where one may go on to the other.
fn joined(
    alloc: Global,
    keep: &[Interval],
    ground: Ground<'_>,
) -> Result<Vec<Interval>, AllocError> {
    let mut joined: Vec<Interval> = Vec::new(alloc);
    for interval in keep {
        match joined.last_mut() {
            Some(last) if ground.is_free(last.to_ps, interval.from_ps) => {
                last.to_ps = interval.to_ps;
            }
            _ => joined.push(*interval)?,
        }
    }
    Ok(joined)
}

/// The intervals of the original that an export has, by its data records. They reach to annotations that the export has beside
/// these, where no sample of the original stands between, and no annotation that the export lacks and that can't be removed, since
/// the export has its text elsewhere. Where they are more than a claim may have, two are one if nothing such stands between.
pub fn kept_intervals(
    alloc: Global,
    original: &Recorded,
    export: &Recorded,
    sampling: &Sampling,
    back: Back,
) -> Result<Vec<Interval>, AllocError> {
    let mut keep = moved_stretches(alloc, export, back)?;
    let beside = times_beside(alloc, &export.notes, &keep, back)?;
    if beside.is_empty() && keep.len() <= MOST_INTERVALS {
        return Ok(keep);
    }
    let barred = lacking_times(alloc, &original.notes, &export.notes, back)?;
    let ground = Ground {
        sampling,
        stretches: &original.stretches,
        barred: &barred,
    };
    for at_ps in &beside {
        if !is_kept(&keep, *at_ps) {
            reach_to(&mut keep, ground, *at_ps)?;
        }
    }
    if keep.len() > MOST_INTERVALS {
        return joined(alloc, &keep, ground);
    }
    Ok(keep)
}
