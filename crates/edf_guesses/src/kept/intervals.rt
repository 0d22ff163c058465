//! Intervals of time, in their order.

use edf_claim::Interval;

/// How many of some intervals end at a time or before; they stand in order.
pub(crate) fn ended_count(intervals: &[Interval], at_ps: i128) -> usize {
    intervals.partition_point(|interval| interval.to_ps <= at_ps)
}

/// Whether a time lies in one of the intervals.
pub(crate) fn is_kept(keep: &[Interval], at_ps: i128) -> bool {
    match keep.get(ended_count(keep, at_ps)) {
        Some(interval) => interval.from_ps <= at_ps,
        None => false,
    }
}
