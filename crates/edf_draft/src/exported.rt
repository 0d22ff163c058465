//! One export, or several in the order of time, as one recording.

ghost use Rattle.std.specs.Prelude.{◌≡◌, ◌∷◌, []};
ghost use Rattle.edf_draft.specs.Exported.{heads_of};

use edf_guesses::Back;
use edf_recording::{Recorded, RecordedNote, push_stretch};
use edf_stream::FileReader;
use std::alloc::{AllocError, Global};

/// One export, or several in the order of time, none of which begins before the one before it ends.
#[derive(Drop)]
pub(crate) struct Exported {
    /// The first one, with the time, the data records and the annotations of all, which count from the second at which it starts.
    pub together: Recorded,
    /// The readers of those behind it, in their order.
    pub others: Vec<FileReader>,
}

/// Counts annotations from another second.
fn move_notes(notes: &mut [RecordedNote], back: Back) {
    for note in notes.iter_mut() {
        note.onset = back.of(note.onset);
    }
}

impl Exported {
    /// A single one.
    pub(crate) fn of_one(alloc: Global, export: Recorded) -> Exported
        ensures together { result.together ≡ export }
        ensures alone { heads_of result ≡ (export.reader).head ∷ [] }
    {
        Exported {
            together: export,
            others: Vec::new(alloc),
        }
    }

    /// Takes in the next one.
    pub(crate) fn take_in(&mut self, next: Recorded) -> Result<(), AllocError> {
        let Recorded {
            reader,
            times,
            stretches,
            mut notes,
        } = next;
        let back = Back::new(
            self.together.start_second(),
            reader.header().start_second(),
            0,
        );
        for stretch in &stretches {
            push_stretch(&mut self.together.stretches, back.of_stretch(*stretch))?;
        }
        move_notes(&mut notes, back);
        self.together.notes.append(&mut notes)?;
        self.together.times = self.together.times.up_to(times);
        self.others.push(reader)?;
        Ok(())
    }
}
