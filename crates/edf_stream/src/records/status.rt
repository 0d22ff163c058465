//! How far a reader is.

use edf_header::Stop;

/// What the last call of `next` answered.
#[derive(Clone, Copy, Debug, PartialEq, Eq)]
pub enum Status {
    /// `next` wasn't called yet.
    Begun,
    /// A data record is at hand.
    Current,
    /// The file has ended, and conforms.
    Ended,
    /// Reading stopped.
    Stopped(Stop),
}
