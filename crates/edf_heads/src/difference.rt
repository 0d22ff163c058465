//! A rule of two headers that is broken.

ghost use Rattle.std.specs.Prelude.{◌≡◌, IfOk};
ghost use Rattle.edf_heads.specs.Comparisons.{difference_of};

use edf_fields::Which;
use edf_verdict::{Difference, FreeText, Label, SubfieldMismatch, TextField};
use std::alloc::{AllocError, Global};

/// A rule of two headers that is broken; its label is borrowed: from the claim or, of a channel that isn't claimed, from
/// the export.
#[derive(Clone, Copy)]
pub enum HeadDifference<'a> {
    /// A claimed channel isn't in the original.
    UnknownChannel(&'a [u8]),
    /// A claimed channel isn't in the export.
    MissingChannel(&'a [u8]),
    /// A channel of the export isn't claimed.
    ExtraChannel(&'a [u8]),
    /// A text of a channel isn't the original's.
    ChannelText(&'a [u8], TextField),
    /// The calibration of a channel isn't the original's.
    Calibration(&'a [u8]),
    /// A subfield isn't as claimed.
    Subfield(Which, SubfieldMismatch),
    /// The export has free text in its header.
    FreeTextInHeader,
    /// The export has free text in a channel.
    FreeTextInChannel(&'a [u8]),
}

impl<'a> HeadDifference<'a> {
    /// The difference, with a label of its own.
    ///
    /// The error is want of memory.
    pub(crate) fn difference(self, alloc: Global) -> Result<Difference, AllocError>
        ensures { IfOk result (λ difference. difference ≡ difference_of self.entry) }
    {
        Ok(match self {
            HeadDifference::UnknownChannel(label) => {
                Difference::UnknownChannel(Label::new(alloc, label)?)
            }
            HeadDifference::MissingChannel(label) => {
                Difference::MissingChannel(Label::new(alloc, label)?)
            }
            HeadDifference::ExtraChannel(label) => {
                Difference::ExtraChannel(Label::new(alloc, label)?)
            }
            HeadDifference::ChannelText(label, field) => {
                Difference::ChannelText(Label::new(alloc, label)?, field)
            }
            HeadDifference::Calibration(label) => {
                Difference::Calibration(Label::new(alloc, label)?)
            }
            HeadDifference::Subfield(which, mismatch) => Difference::Subfield(which, mismatch),
            HeadDifference::FreeTextInHeader => Difference::NotClean(FreeText::Header),
            HeadDifference::FreeTextInChannel(label) => {
                Difference::NotClean(FreeText::Channel(Label::new(alloc, label)?))
            }
        })
    }
}
