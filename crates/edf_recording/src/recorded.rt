//! What is held of a file that was read to its end.

ghost use Rattle.std.specs.Prelude.{◌≡◌};
ghost use Rattle.edf_header.specs.HeadsReading.{start_second as second_of};

use crate::stretch::Stretch;
use crate::times::Times;
use edf_stream::{FileReader, OwnText};

/// An annotation of a file, and the data record in which it stands. Annotations are ordered by their onset, then by their duration,
/// none before any, then by the bytes of their texts.
#[derive(Drop, PartialEq, Eq, PartialOrd, Ord)]
pub struct RecordedNote {
    /// In picoseconds after the second at which the file starts.
    pub onset: i128,
    /// In picoseconds; none where the annotation has none.
    pub duration: Option<i128>,
    /// What it says.
    pub text: OwnText,
    /// Counted from 0.
    pub record: u32,
}

impl RecordedNote {
    /// The bytes of its text.
    pub fn bytes(&self) -> &[u8]
        ensures { result.now ≡ self.entry.now.text }
    {
        self.text.as_str().as_bytes()
    }
}

/// A file that conforms, without its samples.
#[derive(Drop)]
pub struct Recorded {
    /// The reader, at the end of the file.
    pub reader: FileReader,
    /// When it begins and ends.
    pub times: Times,
    /// The time of its data records; those that touch are one stretch.
    pub stretches: Vec<Stretch>,
    /// Its annotations, in the order of the file.
    pub notes: Vec<RecordedNote>,
}

impl Recorded {
    /// The second at which the file starts, 0 for 1970-01-01 00:00:00.
    pub fn start_second(&self) -> i64
        ensures { result ≡ second_of (self.now.reader).head }
    {
        self.reader.header().start_second()
    }
}
