//! Where a channel stands among those of its file.

/// A channel of a file: its number among the channels, and how many samples it has in a data record.
#[derive(Clone, Copy)]
pub struct ChannelPlace {
    pub number: u16,
    pub samples: u32,
}
