//! Where data records and the samples of their lanes stand in time, in exact numerators.

ghost use Rattle.std.specs.Prelude.{◌≡◌, ◌<◌, ◌≤◌, ◌+◌, ◌*◌, ◌^◌, ◌*ℤ◌, ◌+ℤ◌, pos, unsigned_abs};
ghost use Rattle.edf_stream.specs.times.InstantOrder.{IsSmall};
ghost use Rattle.edf_stream.specs.samples.SamplesReading.{instant_on};
ghost use Rattle.edf_stream.specs.times.Starts.{file_start};

use crate::times::instant::Instant;
use edf_fields::SECOND_PS;
use edf_header::Header;

/// So many seconds, in picoseconds.
fn in_picoseconds(seconds: i64) -> i128
    requires { unsigned_abs seconds < 2 ^ 39 }
    ensures value { result ≡ seconds *ℤ pos (10 ^ 12) }
    ensures small { unsigned_abs result < 2 ^ 39 * 10 ^ 12 }
{
    i128::from(seconds) * SECOND_PS
}

/// The start of the file, in picoseconds after 1970-01-01 00:00:00 (civil time, without a time zone).
pub fn file_start_ps(header: &Header) -> i128
    ensures value { result ≡ file_start header.now }
    ensures small { unsigned_abs result < 2 ^ 39 * 10 ^ 12 }
{
    in_picoseconds(header.start_second())
}

/// The time of a data record: where it starts, in picoseconds after 1970-01-01 00:00:00, and how long it
/// lasts.
#[derive(Clone, Copy)]
pub(crate) struct RecordTime {
    pub start_ps: i128,
    pub duration_ps: i128,
}

impl RecordTime {
    /// That of a data record that starts so long after the start of the file.
    pub(crate) fn new(header: &Header, start_ps: i128) -> RecordTime
        requires { unsigned_abs start_ps < 2 ^ 72 }
        ensures start { result.start_ps ≡ file_start header.now +ℤ start_ps }
        ensures duration { result.duration_ps ≡ header.now.duration }
        ensures near { unsigned_abs result.start_ps < 2 ^ 79 }
        ensures short { unsigned_abs result.duration_ps < 2 ^ 68 }
    {
        RecordTime {
            start_ps: file_start_ps(header) + start_ps,
            duration_ps: header.duration_ps(),
        }
    }
}

/// Where the samples of a lane stand: the first at the numerator `start`, each further one `step` behind
/// the one before, in units of 1 / `den` picoseconds. `den` is the number of samples of the lane, and so
/// `step` the duration of a data record.
#[derive(Clone, Copy)]
pub(crate) struct LaneTimes {
    pub start: i128,
    pub step: i128,
    pub den: u32,
}

/// How far so many steps lead.
///
/// It is asked for steps and counts as the data records of a file have them.
pub fn distance(step: i128, count: usize) -> i128
    requires step { unsigned_abs step < 2 ^ 68 }
    requires count { count < 2 ^ 24 }
    ensures value { result ≡ pos count *ℤ step }
    ensures small { unsigned_abs result < 2 ^ 92 }
{
    count as i128 * step
}

/// The numerator of the sample at a place of a lane whose first sample has the numerator `start`, and each
/// further one that of the one before it and `step`. EDF (1992), "Data record".
///
/// It is asked for numerators, steps and places as the data records of a file have them.
pub fn num_at(start: i128, step: i128, place: usize) -> i128
    requires start { unsigned_abs start < 2 ^ 104 }
    requires step { unsigned_abs step < 2 ^ 68 }
    requires place { place < 2 ^ 24 }
    ensures value { result ≡ start +ℤ pos place *ℤ step }
    ensures small { unsigned_abs result < unsigned_abs start + 2 ^ 92 }
{
    start + distance(step, place)
}

/// A number of picoseconds in units of 1 / `den` picoseconds.
fn scaled(ps: i128, den: u32) -> i128
    requires ps { unsigned_abs ps < 2 ^ 79 }
    requires den { den ≤ 2 ^ 23 }
    ensures value { result ≡ pos den *ℤ ps }
    ensures small { unsigned_abs result < 2 ^ 102 }
{
    i128::from(den) * ps
}

impl LaneTimes {
    /// Where the samples of a lane stand that has `den` of them in a data record.
    pub(crate) fn new(time: RecordTime, den: u32) -> LaneTimes
        requires ps { unsigned_abs time.start_ps < 2 ^ 79 }
        requires den { den ≤ 2 ^ 23 }
        ensures start { result.start ≡ pos den *ℤ time.start_ps }
        ensures step { result.step ≡ time.duration_ps }
        ensures den { result.den ≡ den }
        ensures near { unsigned_abs result.start < 2 ^ 102 }
    {
        LaneTimes {
            start: scaled(time.start_ps, den),
            step: time.duration_ps,
            den,
        }
    }

    /// The instant of the sample at a place.
    pub(crate) fn instant(self, place: usize) -> Instant
        requires near { unsigned_abs self.start < 2 ^ 102 }
        requires step { unsigned_abs self.step < 2 ^ 68 }
        requires some { 0 < self.den }
        requires den { self.den ≤ 2 ^ 23 }
        requires place { place < 2 ^ 24 }
        ensures value { result ≡ instant_on self place }
        ensures small { IsSmall result }
    {
        Instant {
            num: num_at(self.start, self.step, place),
            den: self.den,
        }
    }
}
