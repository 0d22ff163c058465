//! The clocks of both files.

use crate::words::samples::AT;
use edf_findings::{PartFindings, start_of};
use edf_header::Header;
use edf_sentences::{Piece, Text};
use std::alloc::AllocError;

/// The clocks of both files: what is added to a time after the second at which the original starts, in picoseconds after
/// 1970-01-01 00:00:00.
#[derive(Clone, Copy)]
pub(crate) struct Clocks {
    original_ps: i128,
    export_ps: i128,
}

impl Clocks {
    /// Those of an original and an export.
    pub(crate) fn of(original: &Header, part: &PartFindings) -> Clocks {
        let export_ps = start_of(part.header());
        Clocks {
            original_ps: start_of(original),
            export_ps: export_ps.saturating_sub(part.moved_ps()),
        }
    }

    /// Puts a time behind a text: in seconds, and by both clocks.
    pub(crate) fn add(self, text: &mut Text, at_ps: i128) -> Result<(), AllocError> {
        text.add(
            AT,
            &[
                Piece::Seconds(at_ps),
                Piece::Moment(self.original_ps.saturating_add(at_ps)),
                Piece::Moment(self.export_ps.saturating_add(at_ps)),
            ],
        )
    }
}
