//! What a whole file means: its samples and its annotations, at once. EDF (1992), "Data record"; EDF+
//! (2003), "The 'EDF Annotations' signal".

ghost use Rattle.std.specs.Prelude.{◌≡◌, ℕ, ◌++◌, [], List, map, Some, IfOk, IfErr, OnOk, IsTrue};
ghost use Rattle.std.specs.List.{All};
ghost use Rattle.edf_fields.specs.in_out.Sources.{Fails};
ghost use Rattle.edf_header.specs.HeadsReading.{head_of};
ghost use Rattle.edf_header.specs.Stops.{Stops};
ghost use Rattle.edf_stream.specs.Faults.{body_fault, file_fault};
ghost use Rattle.edf_stream.specs.times.InstantOrder.{IsSmall};
ghost use Rattle.edf_stream.specs.Meanings.{IsMeaning, IsWhole};
ghost use Rattle.edf_stream.specs.annotation.NotesReading.{moved_notes_in};
ghost use Rattle.edf_stream.specs.records.Readers.{HasBegun, is_current, StandsIn};
ghost use Rattle.edf_stream.specs.samples.SamplesReading.{samples_in};
ghost use Rattle.edf_stream.specs.Views.{note_value, IsNear};

use crate::annotation::notes::{Note, push_notes};
use crate::records::reader::FileReader;
use crate::samples::sample::{Sample, push_samples};
use crate::times::lane_times::{RecordTime, file_start_ps};
use edf_fields::Source;
use edf_header::{Header, Stop};
use std::alloc::{AllocError, Global};

/// The samples of a file at their instants, and its annotations.
#[derive(Debug, Drop)]
pub struct Meaning {
    /// The samples of all channels, in order of data record, channel and place.
    pub samples: Vec<Sample>,
    /// The annotations, in order of data record, annotation signal, TAL and text, without the texts that
    /// keep the time.
    pub notes: Vec<Note>,
}

impl Meaning {
    /// Of no data record.
    fn new(alloc: Global) -> Meaning
        ensures samples { result.samples.items ≡ [] }
        ensures notes { result.notes.items ≡ [] }
    {
        Meaning {
            samples: Vec::new(alloc),
            notes: Vec::new(alloc),
        }
    }

    /// Puts the samples and the annotations of the data record at hand behind those that it has.
    fn add(&mut self, alloc: Global, reader: &FileReader) -> Result<(), AllocError>
        requires current { IsTrue (is_current reader.now.status) }
        requires small { All (λ x. IsSmall x.instant) self.old.samples.items }
        requires near { All IsNear self.old.notes.items }
        ensures samples { OnOk result (self.new.samples.items ≡ self.old.samples.items ++
            samples_in reader.now.head reader.now.current) }
        ensures notes { OnOk result (map note_value self.new.notes.items ≡ map note_value self.old.notes.items
            ++ moved_notes_in reader.now.head reader.now.current) }
        ensures small { OnOk result (All (λ x. IsSmall x.instant) self.new.samples.items) }
        ensures near { OnOk result (All IsNear self.new.notes.items) }
    {
        reader.push_samples(&mut self.samples)?;
        reader.push_notes(alloc, &mut self.notes)
    }
}

impl FileReader {
    /// Puts the samples of the data record at hand behind `samples`.
    #[tactic(auto, unfolding(crate::specs::samples::SamplesReading::samples_in))]
    fn push_samples(&self, samples: &mut Vec<Sample>) -> Result<(), AllocError>
        requires current { IsTrue (is_current self.now.status) }
        requires small { All (λ x. IsSmall x.instant) samples.old.items }
        ensures value { OnOk result (samples.new.items ≡ samples.old.items ++
            samples_in self.now.head self.now.current) }
        ensures small { OnOk result (All (λ x. IsSmall x.instant) samples.new.items) }
    {
        let time = RecordTime::new(&self.header, self.start_ps());
        push_samples(samples, &self.header, time, &self.buffer)
    }

    /// Puts the annotations of the data record at hand behind `notes`.
    #[tactic(auto, unfolding(crate::specs::annotation::NotesReading::moved_notes_in))]
    fn push_notes(&self, alloc: Global, notes: &mut Vec<Note>) -> Result<(), AllocError>
        requires current { IsTrue (is_current self.now.status) }
        requires near { All IsNear notes.old.items }
        ensures value { OnOk result (map note_value notes.new.items ≡ map note_value notes.old.items ++
            moved_notes_in self.now.head self.now.current) }
        ensures near { OnOk result (All IsNear notes.new.items) }
    {
        let file_start = file_start_ps(&self.header);
        push_notes(alloc, notes, file_start, self.annotations())
    }

    /// Reads the data records of a file of which only the header was read, and answers the header and what
    /// the file means: `Ok` only where the file conforms to the profile; a `Fault` is its first one. The
    /// other errors are a failed read and want of memory. The source is read to its end on `Ok`.
    pub fn into_meaning<S: Source>(
        self,
        alloc: Global,
        source: &mut S,
    ) -> Result<(Header, Meaning), Stop>
        requires { HasBegun self }
        ensures head { IfOk result (λ found. found.0 ≡ self.head) }
        ensures small { IfOk result (λ found. All (λ x. IsSmall x.instant) found.1.samples.items) }
        ensures near { IfOk result (λ found. All IsNear found.1.notes.items) }
        ensures failures { OnOk result (S.reads source.new ≡ S.reads source.old) }
        ensures honesty { OnOk result (IsTrue (S.is_honest source.old) → IsTrue (S.is_honest source.new)) }
        ensures meaning { IfOk result (λ found. IsTrue (S.is_honest source.old) → (file : List ℕ) →
            StandsIn self (S.left source.old) file → IsMeaning file self.head (S.left source.new) found.1) }
        ensures stop { IfErr result (Stops (λ f. IsTrue (S.is_honest source.old) → (file : List ℕ) →
            StandsIn self (S.left source.old) file →
            body_fault file self.head ≡ Some f) (Fails (S.reads source.old) (S.reads source.new))
            (S.reads source.new ≡ S.reads source.old)) }
    {
        let mut reader = self;
        let mut meaning = Meaning::new(alloc);
        while reader.next(source)? {
            meaning.add(alloc, &reader)?;
        }
        Ok((reader.header, meaning))
    }
}

/// Reads a whole file, and answers its header and what it means: `Ok` only where it conforms to the profile,
/// which docs/PROFILE.md tells; a `Fault` is its first one. The other errors are a failed read and want of
/// memory. The source is read to its end on `Ok`.
///
/// This is the plain slow way: everything is in memory at once.
pub fn whole_file<S: Source>(alloc: Global, source: &mut S) -> Result<(Header, Meaning), Stop>
    ensures small { IfOk result (λ found. All (λ x. IsSmall x.instant) found.1.samples.items) }
    ensures near { IfOk result (λ found. All IsNear found.1.notes.items) }
    ensures failures { OnOk result (S.reads source.new ≡ S.reads source.old) }
    ensures head { IfOk result (λ found. IsTrue (S.is_honest source.old) →
        found.0 ≡ head_of (S.left source.old)) }
    ensures meaning { IfOk result (λ found. IsTrue (S.is_honest source.old) →
        IsWhole (S.left source.old) (S.left source.new) found.1) }
    ensures stop { IfErr result (Stops (λ f. IsTrue (S.is_honest source.old) →
        file_fault (S.left source.old) ≡ Some f) (Fails (S.reads source.old) (S.reads source.new))
        (S.reads source.new ≡ S.reads source.old)) }
{
    let reader = FileReader::begin(alloc, source)?;
    let (header, meaning) = reader.into_meaning(alloc, source)?;
    Ok((header, meaning))
}

/// What `whole_file` says of the file besides its header, with the same errors.
pub fn whole_meaning<S: Source>(alloc: Global, source: &mut S) -> Result<Meaning, Stop>
    ensures small { IfOk result (λ meaning. All (λ x. IsSmall x.instant) meaning.samples.items) }
    ensures near { IfOk result (λ meaning. All IsNear meaning.notes.items) }
    ensures failures { OnOk result (S.reads source.new ≡ S.reads source.old) }
    ensures meaning { IfOk result (λ meaning. IsTrue (S.is_honest source.old) →
        IsWhole (S.left source.old) (S.left source.new) meaning) }
    ensures stop { IfErr result (Stops (λ f. IsTrue (S.is_honest source.old) →
        file_fault (S.left source.old) ≡ Some f) (Fails (S.reads source.old) (S.reads source.new))
        (S.reads source.new ≡ S.reads source.old)) }
{
    match whole_file(alloc, source) {
        Ok((_header, meaning)) => Ok(meaning),
        Err(stop) => Err(stop),
    }
}
