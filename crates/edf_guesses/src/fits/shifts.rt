//! The shifts by which the first samples of an export are samples of its original.

use crate::fits::front::Front;
use crate::kept::back::Back;
use edf_fields::SECOND_PS;
use edf_recording::{Recorded, Stretch};
use std::alloc::{AllocError, Global};

/// How many shifts are tried at the most.
const MOST_TRIES: usize = 3;

/// The shift in seconds by which a front that begins at one time of the original begins where it does in the export.
fn shift_at(original: &Recorded, export: &Recorded, front: &Front, at_ps: i128) -> Option<i64> {
    let moved_ps = front.start_ps.checked_sub(at_ps)?;
    let moved = i64::try_from(moved_ps.checked_div_euclid(SECOND_PS)?).ok()?;
    export
        .start_second()
        .checked_sub(original.start_second())?
        .checked_add(moved)
}

/// Whether a stretch lies in one of others, which are in order.
fn lies_in(stretch: Stretch, others: &[Stretch]) -> bool {
    let before = others.partition_point(|other| other.to_ps < stretch.to_ps);
    match others.get(before) {
        Some(other) => other.from_ps <= stretch.from_ps,
        None => false,
    }
}

/// Whether the time of the export's data records lies in that of the original's with a shift.
fn has_room(original: &Recorded, export: &Recorded, shift: i64) -> bool {
    let back = Back::new(original.start_second(), export.start_second(), shift);
    for stretch in &export.stretches {
        if !lies_in(back.of_stretch(*stretch), &original.stretches) {
            return false;
        }
    }
    true
}

/// The shifts by which a front that stands at these times of the original is the export's, and by which the original has data
/// records wherever the export has some.
pub fn shifts_at(
    alloc: Global,
    original: &Recorded,
    export: &Recorded,
    front: &Front,
    places: &[i128],
) -> Result<Vec<i64>, AllocError> {
    let mut shifts = Vec::new(alloc);
    for at_ps in places {
        if let Some(shift) = shift_at(original, export, front, *at_ps)
            && shifts.len() < MOST_TRIES
            && has_room(original, export, shift)
        {
            shifts.push(shift)?;
        }
    }
    Ok(shifts)
}
