//! The data record that a reader has at hand. EDF (1992), "Data record".

ghost use Rattle.std.specs.Prelude.{◌≡◌, ◌<◌, ◌^◌, ◌+ℤ◌, IsTrue, length, unsigned_abs};
ghost use Rattle.edf_stream.specs.records.Readers.{is_current};
ghost use Rattle.edf_stream.specs.records.RecordsReading.{lane_bytes, lane_in, samples_at};
ghost use Rattle.edf_stream.specs.annotation.NotesReading.{notes_in};
ghost use Rattle.edf_stream.specs.times.StartsReading.{start_in};
ghost use Rattle.edf_stream.specs.samples.Values.{digital_value};
ghost use Rattle.edf_stream.specs.Views.{notes_left};

use crate::annotation::annotations::Annotations;
use crate::records::lanes::lane_at;
use crate::records::reader::FileReader;
use crate::records::status::Status;
use crate::samples::value::value_at;

impl FileReader {
    /// Whether a data record is at hand: the last call of `next` or `next_with` answered `Ok(true)`.
    pub fn has_current(&self) -> bool
        ensures { result ≡ is_current self.now.status }
    {
        match self.status {
            Status::Current => true,
            Status::Begun | Status::Ended | Status::Stopped(_) => false,
        }
    }

    /// Where the data record at hand starts, in picoseconds after the start of the file (EDF+, "Time
    /// keeping of data records").
    pub fn start_ps(&self) -> i128
        requires { IsTrue (is_current self.now.status) }
        ensures value { result ≡ start_in self.now.head self.now.current }
        ensures small { unsigned_abs result < 2 ^ 72 }
    {
        self.progress.ended_ps - self.header.duration_ps()
    }

    /// Where the data record at hand ends, in picoseconds after the start of the file: its start and the
    /// duration of a data record.
    pub fn end_ps(&self) -> i128
        requires { IsTrue (is_current self.now.status) }
        ensures value { result ≡ start_in self.now.head self.now.current +ℤ self.now.head.duration }
        ensures ended { result ≡ self.now.ended }
        ensures small { unsigned_abs result < 2 ^ 72 }
    {
        self.progress.ended_ps
    }

    /// Where the last data record that was read ends, in picoseconds after the start of the file; 0 where none
    /// was read. Once the file has ended, it is where its last data record ends.
    pub fn read_to_ps(&self) -> i128
        ensures value { result ≡ self.now.ended }
        ensures small { unsigned_abs result < 2 ^ 71 }
    {
        self.progress.ended_ps
    }

    /// The bytes of the data record at hand (EDF, "Data record").
    pub fn record(&self) -> &[u8]
        requires { IsTrue (is_current self.now.status) }
        ensures { result.now ≡ self.entry.now.current }
    {
        &self.buffer
    }

    /// The lane of a signal in the data record at hand: its samples, two bytes each, the low byte first
    /// (EDF, "Data record"), or the bytes of its TALs.
    pub fn run(&self, signal: usize) -> &[u8]
        requires current { IsTrue (is_current self.now.status) }
        requires signal { signal < length self.now.head.signals }
        ensures lane { result.now ≡ lane_in self.entry.now.head self.entry.now.current signal }
        ensures full { length result.now ≡ lane_bytes self.entry.now.head signal }
    {
        lane_at(&self.header, &self.buffer, signal)
    }

    /// The digital value of the sample of a signal at a place of its lane in the data record at hand (EDF,
    /// "Data record").
    pub fn sample(&self, signal: usize, place: usize) -> i16
        requires current { IsTrue (is_current self.now.status) }
        requires signal { signal < length self.now.head.signals }
        requires place { place < samples_at self.now.head signal }
        ensures { result ≡ digital_value (lane_in self.now.head self.now.current signal) place }
    {
        value_at(self.run(signal), place)
    }

    /// The annotations of the data record at hand, in order of annotation signal, TAL and text, with
    /// onsets as the file has them. The time-keeping text is none of them (EDF+, "Time keeping of data
    /// records").
    pub fn annotations(&self) -> Annotations<'_>
        requires { IsTrue (is_current self.now.status) }
        ensures { notes_left result ≡ notes_in self.entry.now.head self.entry.now.current }
    {
        Annotations::new(&self.header, &self.buffer)
    }
}
