//! Where the lane of a signal lies in a data record. EDF (1992), "Data record".

ghost use Rattle.std.specs.Prelude.{◌≡◌, ◌++◌, IfOk};
ghost use Rattle.edf_header.specs.signals.Lanes.{annotation_places as places_of_annotations};

use crate::signals::signal::Signal;
use std::alloc::{AllocError, Global};

/// Where the lane of a signal lies in each data record: so many bytes stand before it, and it has two for
/// each of its samples.
#[derive(Debug, Clone, Copy, PartialEq, Eq)]
pub struct LanePlace {
    pub offset: usize,
    pub samples: u32,
}

/// Where the lanes of those of the signals that hold annotations lie, in their order.
pub(crate) fn annotation_places(
    alloc: Global,
    signals: &[Signal],
) -> Result<Vec<LanePlace>, AllocError>
    ensures { IfOk result (λ v. v.items ≡ places_of_annotations signals.now) }
{
    let mut places = Vec::new(alloc);
    for signal in signals {
        if signal.is_annotations() {
            places.push(LanePlace {
                offset: signal.offset(),
                samples: signal.samples(),
            })?;
        }
    }
    Ok(places)
}
