//! The times of an export as those of its original.

use crate::kept::intervals::is_kept;
use edf_claim::Interval;
use edf_fields::SECOND_PS;
use edf_recording::{Recorded, RecordedNote, Stretch};
use std::alloc::{AllocError, Global};

/// The times of an export as those of its original: both counted from the second at which their file starts.
#[derive(Clone, Copy)]
pub struct Back {
    /// How many picoseconds are added.
    ps: i128,
}

impl Back {
    /// Where the original starts at one second and the export at another, which was moved by so many seconds.
    pub fn new(original_second: i64, export_second: i64, shift: i64) -> Back {
        let seconds = i128::from(export_second)
            .saturating_sub(i128::from(original_second))
            .saturating_sub(i128::from(shift));
        Back {
            ps: seconds.saturating_mul(SECOND_PS),
        }
    }

    /// Where times are those of the original.
    pub(crate) fn none() -> Back {
        Back { ps: 0 }
    }

    /// A time of the export.
    pub fn of(self, at_ps: i128) -> i128 {
        at_ps.saturating_add(self.ps)
    }

    /// A time of the export's data records.
    pub fn of_stretch(self, stretch: Stretch) -> Stretch {
        Stretch {
            from_ps: self.of(stretch.from_ps),
            to_ps: self.of(stretch.to_ps),
        }
    }
}

/// The time of the export's data records in the original.
pub(crate) fn moved_stretches(
    alloc: Global,
    export: &Recorded,
    back: Back,
) -> Result<Vec<Interval>, AllocError> {
    let mut keep = Vec::with_capacity(alloc, export.stretches.len())?;
    for stretch in &export.stretches {
        let Stretch { from_ps, to_ps } = back.of_stretch(*stretch);
        keep.push(Interval { from_ps, to_ps })?;
    }
    Ok(keep)
}

/// The times of annotations that the export has beside its data records, in those of the original.
pub(crate) fn times_beside(
    alloc: Global,
    notes: &[RecordedNote],
    keep: &[Interval],
    back: Back,
) -> Result<Vec<i128>, AllocError> {
    let mut beside = Vec::new(alloc);
    for note in notes {
        let at_ps = back.of(note.onset);
        if !is_kept(keep, at_ps) {
            beside.push(at_ps)?;
        }
    }
    Ok(beside)
}
