//! When a file begins and ends.

ghost use Rattle.std.specs.Prelude.{◌≡◌, ◌<◌, ◌^◌, ◌*ℤ◌, ◌+ℤ◌, pos, unsigned_abs, IfSome, IfNone, IsTrue};
ghost use Rattle.edf_stream.specs.records.Readers.{is_current};
ghost use Rattle.edf_stream.specs.times.Starts.{file_start};
ghost use Rattle.edf_stream.specs.times.StartsReading.{start_in};

use edf_fields::SECOND_PS;
use edf_stream::FileReader;

/// When a file begins and ends, in picoseconds after 1970-01-01 00:00:00 (civil time, without a time zone).
#[derive(Clone, Copy)]
pub struct Times {
    /// Where its first data record starts.
    pub begin_ps: i128,
    /// Where its last data record ends.
    pub end_ps: i128,
    ghost begin_near: { unsigned_abs begin_ps < 2 ^ 80 },
    ghost end_near: { unsigned_abs end_ps < 2 ^ 80 },
}

impl Times {
    /// The time from its begin to the end of another.
    pub fn up_to(self, last: Times) -> Times
        ensures begins { result.begin_ps ≡ self.begin_ps }
        ensures ends { result.end_ps ≡ last.end_ps }
    {
        Times {
            begin_ps: self.begin_ps,
            end_ps: last.end_ps,
        }
    }
}

/// Where a data record starts, in picoseconds after the second at which the file starts.
#[derive(Clone, Copy)]
pub(crate) struct RecordStart {
    ps: i128,
    ghost near: { unsigned_abs ps < 2 ^ 72 },
}

/// Where the first data record starts: where it was seen to start, or else where the one at hand starts.
pub(crate) fn first_start(seen: Option<RecordStart>, reader: &FileReader) -> RecordStart
    requires { IsTrue (is_current reader.now.status) }
    ensures seen { IfSome seen (λ start. result.ps ≡ start.ps) }
    ensures first { IfNone seen (result.ps ≡ start_in reader.now.head reader.now.current) }
{
    match seen {
        Some(start) => start,
        None => RecordStart {
            ps: reader.start_ps(),
        },
    }
}

/// A time of a file that starts at this second, in picoseconds after 1970-01-01 00:00:00.
fn absolute_ps(second: i64, at_ps: i128) -> i128
    requires second { unsigned_abs second < 2 ^ 39 }
    requires at { unsigned_abs at_ps < 2 ^ 72 }
    ensures value { result ≡ (second *ℤ pos (10 ^ 12)) +ℤ at_ps }
    ensures near { unsigned_abs result < 2 ^ 80 }
{
    i128::from(second) * SECOND_PS + at_ps
}

/// When a file begins and ends, where its first data record was seen to start there; a file without one begins with its
/// second.
pub(crate) fn times_of(reader: &FileReader, seen: Option<RecordStart>) -> Times
    ensures begins { IfSome seen (λ start. result.begin_ps ≡ file_start reader.now.head +ℤ start.ps) }
    ensures ends { result.end_ps ≡ file_start reader.now.head +ℤ reader.now.ended }
{
    let second = reader.header().start_second();
    let begin = match seen {
        Some(start) => start.ps,
        None => 0,
    };
    Times {
        begin_ps: absolute_ps(second, begin),
        end_ps: absolute_ps(second, reader.read_to_ps()),
    }
}
