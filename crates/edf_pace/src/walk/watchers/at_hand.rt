//! The data records at hand of two files that are read in step.

ghost use Rattle.std.specs.Prelude.{◌≡◌, ◌<◌, ◌^◌, ◌≤ℤ◌, IsTrue, false, unsigned_abs};
ghost use Rattle.edf_samples.specs.InstantOrder.{is_before};
ghost use Rattle.edf_samples.specs.Stretches.{whole};
ghost use Rattle.edf_pace.specs.walk.Hands.{AreHandsOf, IsHandOf, number_in, records_at};

use crate::walk::clock::Clock;
use crate::walk::offset::Offset;
use crate::walk::reading::begin_ps_of;
use crate::walk::watchers::found_in::RecordsAt;
use edf_samples::{BEGINNING, Time};
use edf_stream::{FileReader, Instant};

/// Whether an instant is before a time.
pub(crate) fn is_before_time(at: Instant, time: Time) -> bool
    ensures { result ≡ is_before at (whole time.ps) }
{
    at.num < time.ps * i128::from(at.den)
}

/// A data record at hand: when it begins, and its number from 0 on; no number where none is at hand.
#[derive(Clone, Copy)]
pub(crate) struct Hand {
    from: Time,
    number: Option<u32>,
}

impl Hand {
    /// That of a file that is read, moved by so much.
    fn of(reader: &FileReader, by: Offset) -> Hand
        ensures { IsHandOf reader.now by.ps result }
    {
        if !reader.has_current() {
            return Hand {
                from: BEGINNING,
                number: None,
            };
        }
        Hand {
            from: Time {
                ps: begin_ps_of(reader, by),
            },
            number: reader.record_count().checked_sub(1),
        }
    }

    /// Whether the data record has begun by a time. Only speed rests on a no.
    fn has_begun_by(self, time: Time) -> bool
        ensures { IsTrue result → (self.from).ps ≤ℤ time.ps }
    {
        self.from.ps <= time.ps
    }

    /// The number of the data record, where an instant isn't before its begin.
    fn number_at(self, at: Instant) -> Option<u32>
        ensures { result ≡ number_in self at }
    {
        if is_before_time(at, self.from) {
            None
        } else {
            self.number
        }
    }
}

/// The data records at hand of both files.
#[derive(Clone, Copy)]
pub(crate) struct Hands {
    original: Hand,
    export: Hand,
}

impl Hands {
    /// Those of an original and an export that are read.
    pub(crate) fn of(original: &FileReader, export: &FileReader, clock: Clock) -> Hands
        ensures { AreHandsOf original.now (clock.original).ps export.now (clock.export).ps result }
    {
        Hands {
            original: Hand::of(original, clock.original),
            export: Hand::of(export, clock.export),
        }
    }

    /// Which of them an instant lies in that is before the ends of both, and isn't before a time: where both have begun by then, it
    /// isn't compared with their begins.
    #[inline(always)]
    pub(crate) fn records_since(&self, since: Time, at: Instant) -> RecordsAt
        requires { is_before at (whole since.ps) ≡ false }
        ensures { result ≡ records_at self.now at }
    {
        if self.original.has_begun_by(since) && self.export.has_begun_by(since) {
            return RecordsAt {
                original: self.original.number,
                export: self.export.number,
            };
        }
        self.records_at(at)
    }

    /// Which of them an instant lies in that is before the ends of both.
    pub(crate) fn records_at(&self, at: Instant) -> RecordsAt
        ensures { result ≡ records_at self.now at }
    {
        RecordsAt {
            original: self.original.number_at(at),
            export: self.export.number_at(at),
        }
    }
}
