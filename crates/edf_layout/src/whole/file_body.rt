//! What is kept of the data records of a file: all but their samples. EDF+ (2003), "The 'EDF Annotations'
//! signal".

ghost use Rattle.std.specs.Prelude.{◌≡◌, ℕ, List, length, ◌++◌, ◌∷◌, [], map, None, Some, IfOk, IfErr, OnOk, IsTrue};
ghost use Rattle.std.specs.List.Sorted.{IsPermutation, IsSorted};
ghost use Rattle.edf_fields.specs.in_out.Sources.{Fails};
ghost use Rattle.edf_header.specs.Stops.{Stops};
ghost use Rattle.edf_stream.specs.Faults.{body_fault};
ghost use Rattle.edf_stream.specs.annotation.NotesReading.{notes_in};
ghost use Rattle.edf_stream.specs.records.Readers.{HasBegun, is_current, StandsIn};
ghost use Rattle.edf_stream.specs.records.Records.{annotation_lanes};
ghost use Rattle.edf_stream.specs.times.StartsReading.{start_in};
ghost use Rattle.edf_stream.specs.Views.{note_view, note_value, notes_left};
ghost use Rattle.edf_layout.specs.body.NoteOrders.{note_cmp};
ghost use Rattle.edf_layout.specs.body.PlainOrders.{lane_sizes};
ghost use Rattle.edf_layout.specs.whole.FileBodies.{lanes_kept, notes_kept, IsSoundBody, IsBody};

use crate::whole::kept_lane::{KeptLane, lanes_at_hand};
use edf_fields::Source;
use edf_header::Stop;
use edf_stream::laws::annotations_are_said;
use edf_stream::{Annotations, FileReader, Note, NoteRef, OwnText};
use std::alloc::{AllocError, Global};

/// What is kept of the data records of a file: all but their samples.
#[derive(Debug, Drop)]
pub struct FileBody {
    /// The annotations, in order, with onsets in picoseconds after the start of the file.
    pub notes: Vec<Note>,
    /// Where each data record starts, in picoseconds after the start of the file.
    pub starts: Vec<i128>,
    /// The annotation lanes of each data record, up to the last one that isn't bare.
    pub lanes: Vec<Vec<KeptLane>>,
}

/// Puts a copy of an annotation behind `notes`, with its onset as the file has it.
fn push_note(alloc: Global, notes: &mut Vec<Note>, note: NoteRef<'_>) -> Result<(), AllocError>
    ensures { OnOk result (map note_value notes.new.items ≡ map note_value notes.old.items ++
        note_view note.entry ∷ []) }
{
    notes.push(Note {
        onset: note.onset,
        duration: note.duration,
        text: OwnText::new(alloc, note.text)?,
    })?;
    Ok(())
}

/// Puts copies of the annotations that are left of a data record behind `notes`, with onsets as the file
/// has them.
fn push_notes(
    alloc: Global,
    notes: &mut Vec<Note>,
    annotations: Annotations<'_>,
) -> Result<(), AllocError>
    ensures { OnOk result (map note_value notes.new.items ≡ map note_value notes.old.items ++
        notes_left annotations.entry) }
{
    for note in annotations {
        push_note(alloc, notes, note)?;
    }
    Ok(())
}

impl FileBody {
    /// Nothing is kept yet.
    fn new(alloc: Global) -> FileBody
        ensures notes { notes_kept result ≡ [] }
        ensures starts { result.starts.items ≡ [] }
        ensures lanes { result.lanes.items ≡ [] }
    {
        FileBody {
            notes: Vec::new(alloc),
            starts: Vec::new(alloc),
            lanes: Vec::new(alloc),
        }
    }

    /// Keeps the start, the annotation lanes and the annotations of the data record at hand, behind those of
    /// the data records before it.
    fn add(&mut self, alloc: Global, reader: &FileReader) -> Result<(), AllocError>
        requires current { IsTrue (is_current reader.now.status) }
        requires alike { length self.old.lanes.items ≡ length self.old.starts.items }
        ensures alike { OnOk result (length self.new.lanes.items ≡ length self.new.starts.items) }
        ensures starts { OnOk result (self.new.starts.items ≡ self.old.starts.items ++
            start_in reader.now.head reader.now.current ∷ []) }
        ensures lanes { OnOk result (lanes_kept (lane_sizes reader.now.head) self.new ≡
            lanes_kept (lane_sizes reader.now.head) self.old ++
            annotation_lanes reader.now.head.signals reader.now.current ∷ []) }
        ensures notes { OnOk result (notes_kept self.new ≡ notes_kept self.old ++
            notes_in reader.now.head reader.now.current) }
    {
        let start = reader.start_ps();
        let lanes = lanes_at_hand(alloc, reader, start)?;
        let are_bare = lanes.is_empty();
        self.starts.push(start)?;
        self.lanes.push(lanes)?;
        // bare lanes have no annotation
        if are_bare {
            return Ok(());
        }
        push_notes(alloc, &mut self.notes, reader.annotations())
    }

    /// Puts the annotations in order.
    fn sort(&mut self)
        ensures same { IsPermutation self.old.notes.items self.new.notes.items }
        ensures order { IsSorted (λ x y. note_cmp (note_value x) (note_value y)) self.new.notes.items }
        ensures starts { self.new.starts.items ≡ self.old.starts.items }
        ensures lanes { self.new.lanes.items ≡ self.old.lanes.items }
    {
        self.notes.sort_unstable();
    }
}

/// Reads the data records of a file of which only the header was read, and keeps all of them but the
/// samples: `Ok` only where the file conforms to the profile; a `Fault` is its first one. The other errors
/// are a failed read and want of memory. The source is read to its end on `Ok`.
pub(crate) fn read_body<S: Source>(
    alloc: Global,
    reader: FileReader,
    source: &mut S,
) -> Result<FileBody, Stop>
    requires { HasBegun reader }
    ensures sound { IfOk result IsSoundBody }
    ensures failures { OnOk result (S.reads source.new ≡ S.reads source.old) }
    ensures body { IfOk result (λ body. IsTrue (S.is_honest source.old) → (file : List ℕ) →
        StandsIn reader (S.left source.old) file →
        IsBody file reader.head body × (body_fault file reader.head ≡ None)) }
    ensures stop { IfErr result (Stops (λ f. IsTrue (S.is_honest source.old) → (file : List ℕ) →
        StandsIn reader (S.left source.old) file →
        body_fault file reader.head ≡ Some f) (Fails (S.reads source.old) (S.reads source.new))
        (S.reads source.new ≡ S.reads source.old)) }
{
    // so what is read of a data record is what it says
    annotations_are_said();
    let mut reading = reader;
    let mut body = FileBody::new(alloc);
    while reading.next(source)? {
        body.add(alloc, &reading)?;
    }
    body.sort();
    Ok(body)
}
