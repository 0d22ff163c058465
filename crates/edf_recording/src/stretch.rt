//! The time that data records cover.

use std::alloc::AllocError;

/// The time of data records that touch, in picoseconds after the second at which their file starts: `from_ps` is included, `to_ps`
/// is not.
#[derive(Clone, Copy)]
pub struct Stretch {
    /// Where the first of them starts.
    pub from_ps: i128,
    /// Where the last of them ends.
    pub to_ps: i128,
}

/// Takes in the time behind some stretches; where it begins with the end of the last one, that one goes on.
pub fn push_stretch(stretches: &mut Vec<Stretch>, next: Stretch) -> Result<(), AllocError> {
    if let Some(last) = stretches.last_mut() {
        if last.to_ps == next.from_ps {
            last.to_ps = next.to_ps;
            return Ok(());
        }
    }
    stretches.push(next)?;
    Ok(())
}
