//! The annotations of a file, line by line.

ghost use Rattle.std.specs.Prelude.{◌≡◌, [], ◌++◌, IfOk, IfErr, OnOk, OnErr, IsTrue};
ghost use Rattle.edf_fields.specs.in_out.Sinks.{HoldsPrefix};
ghost use Rattle.edf_fields.specs.in_out.Sources.{Fails, Rises};
ghost use Rattle.edf_stream.specs.Faults.{file_fault};
ghost use Rattle.edf_stream.specs.annotation.Keeping.{tal_notes_left};
ghost use Rattle.edf_stream.specs.records.Readers.{HasBegun};
ghost use Rattle.edf_stream.specs.Views.{note_view};
ghost use Rattle.edf_report.specs.NotesKept.{LinesArePut, PartOfLinesIsPut, PartOfRecordsIsPut, RecordsArePut};
ghost use Rattle.edf_report.specs.NotesTexts.{note_line, note_lines, notes_text};
ghost use Rattle.edf_report.specs.Reports.{IsReported, StopsReport};
ghost use Rattle.edf_stop.specs.Stops.{ReportStops};

use crate::report::put_stop;
use edf_fields::{Sink, Source, put_all};
use edf_stop::ReportStop;
use edf_stream::{FileReader, NoteKeeper, NoteRef, TalNotes};
use edf_verdict::{NoteTimes, Outcome, push_with_quoted};
use std::alloc::{AllocError, Global};
use std::fmt::Write;

/// Puts the line of an annotation behind the text. The words in front of its text are made in `words`.
#[tactic(auto, unfolding(crate::specs::NotesTexts::note_line))]
fn push_note(text: &mut Vec<u8>, words: &mut String, note: NoteRef<'_>) -> Result<(), AllocError>
    ensures { OnOk result (text.new.items ≡ text.old.items ++ note_line (note_view note.entry)) }
{
    let times = NoteTimes {
        onset: note.onset,
        duration: note.duration,
    };
    words.clear();
    write!(words, "{times} text ")?;
    push_with_quoted(text, words, note.text.as_bytes())?;
    text.push(b'\n')?;
    Ok(())
}

/// Puts the lines of these annotations behind the text.
fn push_lines(
    text: &mut Vec<u8>,
    words: &mut String,
    annotations: TalNotes<'_>,
) -> Result<(), AllocError>
    ensures { OnOk result (text.new.items ≡ text.old.items ++ note_lines (tal_notes_left annotations.entry)) }
{
    for note in annotations {
        push_note(text, words, note)?;
    }
    Ok(())
}

/// The largest room for lines, in bytes, that is kept for the next data record.
const MOST_ROOM: usize = 65_536;

/// The lines of the annotations of a data record, which are made while it is read. Data records with few lines have
/// one room, so that memory isn't taken for each of them.
#[derive(Drop)]
struct Lines {
    text: Vec<u8>,
    words: String,
    /// Whether there was memory for all of them.
    whole: bool,
}

impl Lines {
    /// Leaves out the lines of the data record before. A large room is given back.
    fn clear(&mut self, alloc: Global)
        ensures text { self.new.text.items ≡ [] }
        ensures whole { self.new.whole ≡ self.old.whole }
    {
        if self.text.capacity() > MOST_ROOM {
            self.text = Vec::new(alloc);
        } else {
            self.text.clear();
        }
    }
}

impl NoteKeeper for Lines {
    ghost use Rattle.edf_report.specs.NotesKept.{GotLines, lines_none, lines_both};

    ghost got = { GotLines };

    fn wants(&self) -> bool {
        true
    }

    fn keep(&mut self, notes: TalNotes<'_>) {
        if self.whole {
            self.whole = push_lines(&mut self.text, &mut self.words, notes).is_ok();
        }
    }

    ghost got_none = { lines_none };

    ghost got_both = { lines_both };
}

/// Writes the lines of a data record, where all could be made.
fn put_lines<K: Sink>(lines: &Lines, sink: &mut K) -> Result<(), ReportStop>
    ensures failures { OnOk result (K.failures sink.new ≡ K.failures sink.old) }
    ensures honesty { IsTrue (K.is_honest sink.old) → IsTrue (K.is_honest sink.new) }
    ensures written { OnOk result (LinesArePut K.Sink lines.now sink.old sink.new) }
    ensures part { OnErr result (PartOfLinesIsPut K.Sink lines.now sink.old sink.new) }
    ensures stop { IfErr result (ReportStops ⊥ (Rises (K.failures sink.old) (K.failures sink.new))
        (Unit {0})) }
{
    if !lines.whole {
        return Err(ReportStop::OutOfMemory);
    }
    put_all(sink, &lines.text)?;
    Ok(())
}

/// Reads the data records of a file of which the header was read, and writes their annotations; behind
/// those of the data records before a fault stands its line.
fn put_records<S: Source, K: Sink>(
    alloc: Global,
    reader: &mut FileReader,
    source: &mut S,
    sink: &mut K,
) -> Result<Outcome, ReportStop>
    requires { HasBegun reader.old }
    ensures written { IfOk result (RecordsArePut S.Source reader.old source.old K.Sink sink.old sink.new) }
    ensures part { OnErr result (PartOfRecordsIsPut S.Source reader.old source.old K.Sink sink.old
        sink.new) }
    ensures reads { OnOk result (S.reads source.new ≡ S.reads source.old) }
    ensures failures { OnOk result (K.failures sink.new ≡ K.failures sink.old) }
    ensures honesty { IsTrue (K.is_honest sink.old) → IsTrue (K.is_honest sink.new) }
    ensures stop { IfErr result (StopsReport S.Source source.old source.new K.Sink sink.old sink.new) }
{
    let mut lines = Lines {
        text: Vec::new(alloc),
        words: String::new(alloc),
        whole: true,
    };
    loop {
        lines.clear(alloc);
        match reader.next_with(source, &mut lines) {
            Ok(true) => put_lines(&lines, sink)?,
            Ok(false) => return Ok(Outcome::Yes),
            Err(stop) => {
                // their room is given back before memory is taken for the line of a fault
                drop(lines);
                return put_stop(alloc, sink, stop);
            }
        }
    }
}

/// Reads a whole file, and writes its annotations, a line each, in the order of data record, annotation
/// signal, TAL and text, with onsets as the file has them. The annotations of a data record are written
/// before the next one is read.
///
/// Where the file has a fault, the annotations of the data records before it are written and then the line
/// of the fault; the outcome is `Yes` exactly where it has none. The errors are want of memory, a failed
/// read and a failed write; a front of the text was written then.
pub fn notes_to<S: Source, K: Sink>(
    alloc: Global,
    source: &mut S,
    sink: &mut K,
) -> Result<Outcome, ReportStop>
    ensures written { IfOk result (λ outcome. IsTrue (S.is_honest source.old) →
        IsTrue (K.is_honest sink.old) →
        IsReported (notes_text (S.left source.old)) (file_fault (S.left source.old)) (K.held sink.old)
        (K.held sink.new) outcome) }
    ensures part { OnErr result (IsTrue (S.is_honest source.old) → IsTrue (K.is_honest sink.old) →
        HoldsPrefix (K.held sink.old) (K.held sink.new) (notes_text (S.left source.old))) }
    ensures reads { OnOk result (S.reads source.new ≡ S.reads source.old) }
    ensures failures { OnOk result (K.failures sink.new ≡ K.failures sink.old) }
    ensures honesty { IsTrue (K.is_honest sink.old) → IsTrue (K.is_honest sink.new) }
    ensures stop { IfErr result (ReportStops (Fails (S.reads source.old) (S.reads source.new))
        (Rises (K.failures sink.old) (K.failures sink.new)) (S.reads source.new ≡ S.reads source.old)) }
{
    match FileReader::begin(alloc, source) {
        Ok(mut reader) => put_records(alloc, &mut reader, source, sink),
        Err(stop) => put_stop(alloc, sink, stop),
    }
}
