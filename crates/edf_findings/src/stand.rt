//! Where a file stands that is read: its data record at hand, on the clock of the original.

ghost use Rattle.std.specs.Prelude.{◌≡◌, ◌<◌, ◌^◌, if◌then◌else◌, option_map, unsigned_abs};
ghost use Rattle.edf_findings.specs.Times.{is_another, joined, offset_of, time_at_hand};

use crate::clock::start_of;
use crate::record_time::RecordTime;
use edf_pace::{Offset, Window, begin_ps_of};
use edf_stream::FileReader;

/// How many data records of a file were taken in.
#[derive(Clone, Copy)]
pub(crate) struct RecordCount {
    read: u32,
}

impl RecordCount {
    /// None was there so far.
    pub(crate) const NONE: RecordCount = RecordCount { read: 0 };

    /// Takes in the data record at hand, and answers whether it is another one than before.
    pub(crate) fn take_in(&mut self, reader: &FileReader) -> bool
        ensures value { result ≡ is_another self.old.read reader.now }
        ensures read { self.new.read ≡ if is_another self.old.read reader.now then reader.now.read
            else self.old.read }
    {
        if !reader.has_current() || self.read == reader.record_count() {
            return false;
        }
        self.read = reader.record_count();
        true
    }
}

/// A file that is read, of which a data record is at hand or was.
#[derive(Clone, Copy)]
pub(crate) struct Stand<'a> {
    pub(crate) reader: &'a FileReader,
    /// What the times of the file have to be moved by, so that they count from the second at which the original starts.
    pub(crate) by: Offset,
}

impl Stand<'_> {
    /// The time of the data record at hand.
    fn time(self) -> Option<RecordTime>
        ensures { result ≡ time_at_hand self.entry }
    {
        if !self.reader.has_current() {
            return None;
        }
        let from_ps = begin_ps_of(self.reader, self.by);
        Some(RecordTime {
            from_ps,
            to_ps: from_ps + self.reader.header().duration_ps(),
        })
    }

    /// The time of the data record at hand and of those in front of it, if there are any.
    pub(crate) fn time_behind(self, front: Option<RecordTime>) -> Option<RecordTime>
        ensures { result ≡ option_map (joined front) (time_at_hand self.entry) }
    {
        Some(self.time()?.behind(front))
    }

    /// What the times of the file are moved by, from the second on at which it starts.
    pub(crate) fn moved_ps(self) -> i128
        ensures value { result ≡ offset_of self.entry }
        ensures small { unsigned_abs result < 2 ^ 81 }
    {
        start_of(self.reader.header()) + self.by.ps
    }

    /// Whether a data record is at hand that begins before a time.
    pub(crate) fn has_begun_before(self, at_ps: i128) -> bool {
        match self.time() {
            Some(time) => time.from_ps < at_ps,
            None => false,
        }
    }

    /// When the first sample between two times is taken, rounded down, of a signal that has so many samples in the data record at
    /// hand.
    pub(crate) fn first_between(self, samples: u32, within: Window) -> Option<i128> {
        let time = self.time()?;
        let at_ps = time.first_since(samples, within.from.ps)?;
        if at_ps < within.to.ps {
            Some(at_ps)
        } else {
            None
        }
    }
}
