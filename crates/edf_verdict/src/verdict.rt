//! What a check of an export against its original and a claim says.

use crate::label::Label;
use crate::note_text::NoteText;
use edf_fields::{Fault, Which};

/// What a check says.
#[derive(Debug, Drop, PartialEq, Eq)]
pub enum Verdict {
    /// The export is what the claim says of the original; it holds so many channels, samples and
    /// annotations.
    Yes {
        channels: u64,
        samples: u64,
        annotations: u64,
    },
    /// It isn't.
    No(Difference),
}

/// Why an export isn't what a claim says of its original. Of several reasons a check names the first in
/// the order of these variants.
#[derive(Debug, Drop, PartialEq, Eq)]
pub enum Difference {
    /// The original doesn't conform: its first fault.
    OriginalFault(Fault),
    /// The export doesn't conform: its first fault.
    ExportFault(Fault),
    /// A channel of this label is claimed, and isn't in the original: the first such label of the claim.
    UnknownChannel(Label),
    /// A channel of this label is claimed, and isn't in the export: the first such label of the claim.
    MissingChannel(Label),
    /// A channel of this label is in the export, and isn't claimed: the least such label in the order of
    /// bytes.
    ExtraChannel(Label),
    /// A text of the channel of this label isn't the original's: the first such label of the claim, and
    /// its first such text.
    ChannelText(Label, TextField),
    /// The channel of this label has another dimension than in the original, or another line from digital
    /// to physical values: the first such label of the claim.
    Calibration(Label),
    /// A subfield of an identification isn't as claimed: the first such subfield, in the order of `Which`.
    Subfield(Which, SubfieldMismatch),
    /// The export has free text.
    NotClean(FreeText),
    /// Of several exports of one original, this one begins before the one before it ends. Of a single export it is
    /// never said.
    PartOrder,
    /// At one instant of a channel a sample is missing, extra or has another value: the earliest such
    /// instant, and at it the least label in the order of bytes.
    Sample {
        label: Label,
        /// The floor of the instant, in picoseconds after the second at which the original starts.
        at_ps: i128,
        mismatch: SampleMismatch,
    },
    /// An annotation stands more often among the kept ones than in the export, or the other way round:
    /// the least by onset, then duration, none before any, then the bytes of the text.
    Annotation {
        mismatch: AnnotationMismatch,
        /// In picoseconds after the second at which the original starts, before the shift.
        onset: i128,
        /// In picoseconds, where there is one.
        duration: Option<i128>,
        text: NoteText,
    },
}

/// A text of a channel that an export keeps (EDF, "Header record").
#[derive(Debug, Clone, Copy, PartialEq, Eq)]
pub enum TextField {
    /// The kind of the transducer.
    Transducer,
    /// How the signal was filtered before it was sampled.
    Prefilter,
}

/// How a subfield isn't as claimed.
#[derive(Debug, Clone, Copy, PartialEq, Eq)]
pub enum SubfieldMismatch {
    /// It is claimed anonymous, and isn't `X` in the export.
    NotX,
    /// It isn't claimed anonymous, and isn't the original's in the export; of a date: one is `X`, and the
    /// other isn't.
    Changed,
}

/// Where an export has free text.
#[derive(Debug, Drop, PartialEq, Eq)]
pub enum FreeText {
    /// Behind `EDF+C` or `EDF+D` in the reserved field of the header, or in a text of an annotation
    /// signal.
    Header,
    /// In the reserved field of the channel of this label: the first such label of the claim.
    Channel(Label),
}

/// How the samples at an instant of a channel differ.
#[derive(Debug, Clone, Copy, PartialEq, Eq)]
pub enum SampleMismatch {
    /// One is kept, and the export has none.
    Missing,
    /// The export has one, and none is kept.
    Extra,
    /// Both have one, of another value: the original's, then the export's.
    Value(i16, i16),
}

/// How often an annotation stands in the export.
#[derive(Debug, Clone, Copy, PartialEq, Eq)]
pub enum AnnotationMismatch {
    /// Less often than among the kept ones.
    Missing,
    /// More often than among the kept ones.
    Extra,
}
