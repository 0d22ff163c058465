//! Where samples of the original stand beside a time.

use edf_header::Header;
use edf_recording::Stretch;
use std::alloc::{AllocError, Global};

/// The channels of an original that an export has, by how often they are sampled.
#[derive(Drop)]
pub struct Sampling {
    /// The duration of a data record in picoseconds.
    duration_ps: i128,
    /// How many samples each of these channels has in a data record.
    counts: Vec<u32>,
}

/// The place of the first of `count` samples in `duration_ps` that doesn't stand before `offset_ps`, counted on through data
/// records.
fn place_from(offset_ps: i128, count: u32, duration_ps: i128) -> Option<i128> {
    let product = offset_ps.checked_mul(i128::from(count))?;
    let place = product
        .checked_add(duration_ps.checked_sub(1)?)?
        .checked_div_euclid(duration_ps)?;
    Some(place.max(0))
}

/// Where the sample at a place stands, in picoseconds rounded down.
fn instant_of(place: i128, count: u32, duration_ps: i128) -> Option<i128> {
    place
        .checked_mul(duration_ps)?
        .checked_div_euclid(i128::from(count))
}

/// Where the sample before a place stands, in picoseconds rounded down; none where there is none.
fn instant_before(place: i128, count: u32, duration_ps: i128) -> Option<i128> {
    if place <= 0 {
        return None;
    }
    instant_of(place.checked_sub(1)?, count, duration_ps)
}

impl Sampling {
    /// The channels of the original that have one of these labels.
    pub fn new(
        alloc: Global,
        original: &Header,
        labels: &[Vec<u8>],
    ) -> Result<Sampling, AllocError> {
        let mut counts = Vec::new(alloc);
        for signal in original.signals() {
            let count = signal.samples();
            let is_kept = labels
                .iter()
                .any(|label| label.as_slice() == signal.label());
            if is_kept && !counts.contains(&count) {
                counts.push(count)?;
            }
        }
        Ok(Sampling {
            duration_ps: original.duration_ps(),
            counts,
        })
    }

    /// The first sample in a stretch of data records that doesn't stand before a time, in picoseconds rounded down.
    fn first_from(&self, stretch: Stretch, at_ps: i128) -> Option<i128> {
        let offset = at_ps.saturating_sub(stretch.from_ps).max(0);
        let mut first = None;
        for count in &self.counts {
            let Some(place) = place_from(offset, *count, self.duration_ps) else {
                continue;
            };
            let Some(instant) = instant_of(place, *count, self.duration_ps) else {
                continue;
            };
            let at = stretch.from_ps.saturating_add(instant);
            if at < stretch.to_ps && first.is_none_or(|other: i128| at < other) {
                first = Some(at);
            }
        }
        first
    }

    /// The last sample in a stretch of data records that stands before a time, in picoseconds rounded down.
    fn last_before(&self, stretch: Stretch, at_ps: i128) -> Option<i128> {
        let offset = at_ps.min(stretch.to_ps).saturating_sub(stretch.from_ps);
        let mut last = None;
        for count in &self.counts {
            let Some(place) = place_from(offset, *count, self.duration_ps) else {
                continue;
            };
            let Some(instant) = instant_before(place, *count, self.duration_ps) else {
                continue;
            };
            let at = stretch.from_ps.saturating_add(instant);
            if last.is_none_or(|other: i128| other < at) {
                last = Some(at);
            }
        }
        last
    }

    /// The first sample that doesn't stand before a time, in picoseconds rounded down; none where there is none.
    pub(crate) fn next_sample(&self, stretches: &[Stretch], at_ps: i128) -> Option<i128> {
        if self.counts.is_empty() {
            return None;
        }
        let ended = stretches.partition_point(|stretch| stretch.to_ps <= at_ps);
        let (_, behind) = stretches.split_at_checked(ended)?;
        behind
            .iter()
            .find_map(|stretch| self.first_from(*stretch, at_ps))
    }

    /// The last sample that stands before a time, in picoseconds rounded down; none where there is none.
    pub(crate) fn sample_before(&self, stretches: &[Stretch], at_ps: i128) -> Option<i128> {
        if self.counts.is_empty() {
            return None;
        }
        let begun = stretches.partition_point(|stretch| stretch.from_ps < at_ps);
        let (before, _) = stretches.split_at_checked(begun)?;
        before
            .iter()
            .rev()
            .find_map(|stretch| self.last_before(*stretch, at_ps))
    }
}
