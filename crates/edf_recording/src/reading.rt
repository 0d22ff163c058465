//! A file is read to its end.

ghost use Rattle.std.specs.Prelude.{◌≡◌, IfOk, IfErr, OnOk};
ghost use Rattle.edf_stream.specs.Conforming.{Conforms};
ghost use Rattle.edf_recording.specs.Readings.{OfSource, StopsAtFault};
ghost use Rattle.edf_recording.specs.Times.{begin_of, end_of};

use crate::recorded::{Recorded, RecordedNote};
use crate::stretch::{Stretch, push_stretch};
use crate::times::{first_start, times_of};
use edf_fields::Source;
use edf_header::Stop;
use edf_stream::{Annotations, FileReader, OwnText};
use std::alloc::{AllocError, Global};

/// Takes in the annotations of one more data record.
fn push_notes(
    notes: &mut Vec<RecordedNote>,
    alloc: Global,
    annotations: Annotations<'_>,
    record: u32,
) -> Result<(), AllocError> {
    for note in annotations {
        notes.push(RecordedNote {
            onset: note.onset,
            duration: note.duration,
            text: OwnText::new(alloc, note.text)?,
            record,
        })?;
    }
    Ok(())
}

/// Reads a file to its end, one data record at a time.
///
/// The error is the file's first fault, a failed read, or want of memory.
pub fn read_through<S: Source>(alloc: Global, source: &mut S) -> Result<Recorded, Stop>
    ensures failures { OnOk result (S.reads source.new ≡ S.reads source.old) }
    ensures conforms { IfOk result (λ r.
        OfSource S.Source source.old (λ file. Conforms file (r.reader).head)) }
    ensures begins { IfOk result (λ r.
        OfSource S.Source source.old (λ file. (r.times).begin_ps ≡ begin_of file (r.reader).head)) }
    ensures ends { IfOk result (λ r.
        OfSource S.Source source.old (λ file. (r.times).end_ps ≡ end_of file (r.reader).head)) }
    ensures stop { IfErr result (StopsAtFault S.Source source.old source.new) }
{
    let mut reader = match FileReader::begin(alloc, source) {
        Ok(reader) => reader,
        Err(stop) => return Err(stop),
    };
    let mut stretches = Vec::new(alloc);
    let mut notes = Vec::new(alloc);
    let mut begin = None;
    let mut record = 0u32;
    loop {
        match reader.next(source) {
            Ok(true) => {
                begin = Some(first_start(begin, &reader));
                let (from_ps, to_ps) = (reader.start_ps(), reader.end_ps());
                push_stretch(&mut stretches, Stretch { from_ps, to_ps })?;
                push_notes(&mut notes, alloc, reader.annotations(), record)?;
                record += 1;
            }
            Ok(false) => {
                return Ok(Recorded {
                    times: times_of(&reader, begin),
                    reader,
                    stretches,
                    notes,
                });
            }
            Err(stop) => return Err(stop),
        }
    }
}
