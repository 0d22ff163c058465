//! A reader of a file, data record by data record.

ghost use Rattle.std.specs.Prelude.{◌≡◌, ℕ, ◌+◌, ◌≤◌, ◌+ℤ◌, ◌<ℤ◌, ◌<◌, ◌^◌, unsigned_abs, List, length, false, Some, Ok, Err, IfOk, IfErr, OnOk, OnErr, IsTrue};
ghost use Rattle.edf_fields.specs.in_out.Sources.{Fails};
ghost use Rattle.edf_header.specs.declared.stop.Stop.{Stop};
ghost use Rattle.edf_header.specs.Faults.{header_fault};
ghost use Rattle.edf_header.specs.Heads.{record_bytes};
ghost use Rattle.edf_header.specs.Stops.{Stops};
ghost use Rattle.edf_stream.specs.declared.records.status.Status.TheVariants.{Ended, Stopped};
ghost use Rattle.edf_stream.specs.annotation.NotesReading.{notes_in};
ghost use Rattle.edf_stream.specs.times.StartsReading.{start_in};
ghost use Rattle.edf_stream.specs.Faults.{body_fault};
ghost use Rattle.edf_stream.specs.Views.{IsContent};
ghost use Rattle.edf_stream.specs.records.Readers.{HasBegun, IsOpen, status_after, StandsIn, Comes, StopsReading, StopsAt, place_behind};

use crate::annotation::note_keeper::{KeepsNone, NoteKeeper};
use crate::records::read_record::{DueRecord, advance};
use crate::records::status::Status;
use crate::times::start::Progress;
use edf_fields::Source;
use edf_header::{Header, Stop};
use std::alloc::Global;
use std::marker::Model;

/// A reader of a file, with one data record in memory (EDF, "Data record"). It doesn't hold the source.
///
/// What its calls say of the file is said of any file of which it has read the header and the data
/// records so far, and of which the source has the rest left (`StandsIn`).
#[derive(Drop)]
pub struct FileReader {
    pub(crate) header: Header,
    pub(crate) buffer: Vec<u8>,
    pub(crate) read: u32,
    pub(crate) progress: Progress,
    pub(crate) status: Status,
}

impl Model for FileReader {
    ghost use Rattle.edf_stream.specs.records.Readers.{Reader};
    ghost use Rattle.edf_stream.specs.Views.{IsReader};

    ghost Value = { Reader };

    ghost view = { λ r. record {
      head = r.header;
      read = r.read;
      ended = r.progress.ended_ps;
      notes = r.progress.notes;
      current = r.buffer.items;
      status = r.status;
    } };

    ghost invariant = { λ r. IsReader r.header r.read r.progress.ended_ps r.progress.notes r.buffer.items r.status };
}

impl FileReader {
    /// Reads the header of a file, from its first byte on, and makes the buffer of one data record.
    ///
    /// A `Fault` is the first one of the header. After `Ok` the source stands at the first byte of the
    /// first data record. The buffer has the bytes of one data record, and keeps that size.
    pub fn begin<S: Source>(alloc: Global, source: &mut S) -> Result<FileReader, Stop>
        ensures begun { IfOk result HasBegun }
        ensures room { IfOk result (λ r. length r.current ≡ record_bytes r.head) }
        ensures failures { OnOk result (S.reads source.new ≡ S.reads source.old) }
        ensures honesty { OnOk result (IsTrue (S.is_honest source.old) → IsTrue (S.is_honest source.new)) }
        ensures stands { IfOk result (λ r. IsTrue (S.is_honest source.old) →
            StandsIn r (S.left source.new) (S.left source.old)) }
        ensures stop { IfErr result (Stops (λ f. IsTrue (S.is_honest source.old) →
            header_fault (S.left source.old) ≡ Some f) (Fails (S.reads source.old) (S.reads source.new))
            (S.reads source.new ≡ S.reads source.old)) }
    {
        let header = Header::read(alloc, source)?;
        let buffer = vec![in alloc; 0u8; header.record_bytes()]?;
        Ok(FileReader {
            header,
            buffer,
            read: 0,
            progress: Progress::new(),
            status: Status::Begun,
        })
    }

    /// Reads the next data record, which is then at hand: `Ok(true)`. `Ok(false)` is the end of a file
    /// that conforms to the profile: behind its last data record one byte more was asked for, and there
    /// was none. A `Fault` is the first one of the file, and stands in the data record that was to be
    /// read, or behind the last.
    ///
    /// No memory is taken. After an `Err` each further call answers the same one and reads nothing, and
    /// after `Ok(false)` it answers `Ok(false)` and reads nothing.
    pub fn next<S: Source>(&mut self, source: &mut S) -> Result<bool, Stop>
        // What was answered last, whatever the source.
        ensures repeats { (s : Stop) → self.old.status ≡ Stopped s → (result ≡ Err s) ×
            (self.new ≡ self.old) × (source.new ≡ source.old) }
        ensures ended { self.old.status ≡ Ended → (result ≡ Ok false) × (self.new ≡ self.old) ×
            (source.new ≡ source.old) }
        ensures status { self.new.status ≡ status_after result }
        ensures memory { OnErr result (IsContent (status_after result)) }
        ensures head { self.new.head ≡ self.old.head }
        ensures room { length self.new.current ≡ record_bytes self.new.head }
        ensures count { IfOk result (λ more. IsTrue more → (self.new.read ≡ self.old.read + 1) ×
            (self.new.read ≤ (self.new.head).records)) }
        ensures notes { IfOk result (λ more. IsTrue more →
            self.new.notes ≡ self.old.notes + length (notes_in self.new.head self.new.current)) }
        ensures near { unsigned_abs self.new.ended < 2 ^ 71 }
        ensures later { IfOk result (λ more. IsTrue more → (self.old.ended <ℤ self.new.ended)
            × (self.new.ended ≡ start_in self.new.head self.new.current +ℤ (self.new.head).duration)) }
        ensures failures { OnOk result (S.reads source.new ≡ S.reads source.old) }
        ensures honesty { OnOk result (IsTrue (S.is_honest source.old) → IsTrue (S.is_honest source.new)) }

        // The file: the next data record, the end, or the first fault.
        ensures comes { IfOk result (λ more. IsOpen self.old.status → IsTrue (S.is_honest source.old) →
            (file : List ℕ) → StandsIn self.old (S.left source.old) file →
            Comes more self.old self.new (S.left source.new) file) }
        ensures stop { IfErr result (λ s. IsOpen self.old.status →
            StopsReading (λ f. (S.reads source.new ≡ S.reads source.old) ×
            (IsTrue (S.is_honest source.old) → (file : List ℕ) → StandsIn self.old (S.left source.old) file →
            body_fault file self.old.head ≡ Some f)) (Fails (S.reads source.old) (S.reads source.new)) s) }
        ensures place { IfErr result (λ s. IsOpen self.old.status →
            StopsAt (place_behind self.old.head self.old.read) s) }
    {
        self.next_with(source, &mut KeepsNone)
    }

    /// As `next`, and gives the annotations of the data record to the keeper while it judges them: those that
    /// `annotations` would give, with onsets as the file has them. Where it answers an error, it may have given some
    /// of them, and nothing is said of which; with those of the data records before they are no more than a file may
    /// have.
    pub fn next_with<S: Source, K: NoteKeeper>(
        &mut self,
        source: &mut S,
        keeper: &mut K,
    ) -> Result<bool, Stop>
        // What was answered last, whatever the source.
        ensures repeats { (s : Stop) → self.old.status ≡ Stopped s → (result ≡ Err s) ×
            (self.new ≡ self.old) × (source.new ≡ source.old) × (keeper.new ≡ keeper.old) }
        ensures ended { self.old.status ≡ Ended → (result ≡ Ok false) × (self.new ≡ self.old) ×
            (source.new ≡ source.old) × (keeper.new ≡ keeper.old) }
        ensures status { self.new.status ≡ status_after result }
        ensures memory { OnErr result (IsContent (status_after result)) }
        ensures head { self.new.head ≡ self.old.head }
        ensures room { length self.new.current ≡ record_bytes self.new.head }
        ensures count { IfOk result (λ more. IsTrue more → (self.new.read ≡ self.old.read + 1) ×
            (self.new.read ≤ (self.new.head).records)) }
        ensures notes { IfOk result (λ more. IsTrue more →
            self.new.notes ≡ self.old.notes + length (notes_in self.new.head self.new.current)) }
        ensures near { unsigned_abs self.new.ended < 2 ^ 71 }
        ensures later { IfOk result (λ more. IsTrue more → (self.old.ended <ℤ self.new.ended)
            × (self.new.ended ≡ start_in self.new.head self.new.current +ℤ (self.new.head).duration)) }
        ensures failures { OnOk result (S.reads source.new ≡ S.reads source.old) }
        ensures honesty { OnOk result (IsTrue (S.is_honest source.old) → IsTrue (S.is_honest source.new)) }

        // The file: the next data record, the end, or the first fault.
        ensures comes { IfOk result (λ more. IsOpen self.old.status → IsTrue (S.is_honest source.old) →
            (file : List ℕ) → StandsIn self.old (S.left source.old) file →
            Comes more self.old self.new (S.left source.new) file) }
        ensures stop { IfErr result (λ s. IsOpen self.old.status →
            StopsReading (λ f. (S.reads source.new ≡ S.reads source.old) ×
            (IsTrue (S.is_honest source.old) → (file : List ℕ) → StandsIn self.old (S.left source.old) file →
            body_fault file self.old.head ≡ Some f)) (Fails (S.reads source.old) (S.reads source.new)) s) }
        ensures place { IfErr result (λ s. IsOpen self.old.status →
            StopsAt (place_behind self.old.head self.old.read) s) }

        // Its annotations, in order of annotation signal, TAL and text.
        ensures kept { IfOk result (λ more. IsTrue more →
            K.got keeper.old (notes_in self.new.head self.new.current) keeper.new) }
        ensures none { IfOk result (λ more. (more ≡ false) → keeper.new ≡ keeper.old) }
    {
        match self.status {
            Status::Ended => Ok(false),
            Status::Stopped(stop) => Err(stop),
            Status::Begun | Status::Current => {
                let due = DueRecord {
                    header: &self.header,
                    k: self.read,
                };
                match advance(source, keeper, &mut self.buffer, due, &mut self.progress) {
                    Ok(true) => {
                        self.read += 1;
                        self.status = Status::Current;
                        Ok(true)
                    }
                    Ok(false) => {
                        self.status = Status::Ended;
                        Ok(false)
                    }
                    Err(stop) => {
                        self.status = Status::Stopped(stop);
                        Err(stop)
                    }
                }
            }
        }
    }

    /// How many data records were read so far.
    pub fn record_count(&self) -> u32
        ensures { result ≡ self.now.read }
    {
        self.read
    }

    /// How many annotations the data records have that were read so far; the time-keeping texts are none
    /// of them.
    pub fn note_count(&self) -> u32
        ensures { result ≡ self.now.notes }
    {
        self.progress.notes
    }

    /// The header of the file.
    pub fn header(&self) -> &Header
        ensures { result.now ≡ self.now.head }
    {
        &self.header
    }

    /// The header of the file; what else the reader has in memory is given back.
    pub fn into_header(self) -> Header
        ensures { result ≡ self.head }
    {
        let FileReader { header, .. } = self;
        header
    }
}
