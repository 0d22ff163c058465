//! Whether it looks like files were typed in another order.

use crate::exported::Exported;
use crate::hidden::hidden_subfields;
use crate::shift::{Moved, shift_of};
use edf_fields::Which;
use edf_recording::Recorded;
use std::alloc::{AllocError, Global};

/// Whether it looks like files were swapped: the original lies in the time of the export and not the other way round, or
/// the export shows what the original hides, and hides nothing.
pub(crate) fn look_swapped(
    alloc: Global,
    original: &Recorded,
    export: &Exported,
    moved: Moved<'_>,
) -> Result<bool, AllocError> {
    if !moved.is_told && shift_of(&export.together, original).is_told {
        return Ok(true);
    }
    let (old, new) = (original.reader.header(), export.together.reader.header());
    let hidden = hidden_subfields(alloc, old, new, &export.others)?;
    let shown = hidden_subfields(alloc, new, old, &[])?;
    Ok(hidden.is_empty() && shown.iter().any(|which| tells_order(*which)))
}

/// Whether a subfield that only one file shows tells which of them is the export. Many writers show the date, and of those behind
/// the name and behind the equipment there may be none.
fn tells_order(which: Which) -> bool {
    !matches!(
        which,
        Which::Date | Which::PatientExtras | Which::RecordingExtras
    )
}
