//! Whether a file is interrupted.

/// Whether the data records of a file follow one another without a gap.
#[derive(Debug, Clone, Copy, PartialEq, Eq)]
pub enum Kind {
    /// Each data record starts where the one before ends (`EDF+C`).
    Contiguous,
    /// There may be gaps between data records (`EDF+D`).
    Interrupted,
}
