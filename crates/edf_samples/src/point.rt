//! The samples of one channel.

/// A sample of a channel. It stands at the instant `num / den` picoseconds, where `den` is the channel's
/// number of samples in a data record, which is kept once for the channel.
#[derive(Clone, Copy)]
pub struct Point {
    pub num: i128,
    /// The digital value.
    pub value: i16,
}
