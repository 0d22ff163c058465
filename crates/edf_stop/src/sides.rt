//! The two files of a check.

/// One of the two files of a check.
#[derive(Debug, Clone, Copy, PartialEq, Eq)]
pub enum Side {
    /// The recording that the sleep centre keeps.
    Original,
    /// The recording that it hands out.
    Export,
}
