//! The data records of an EDF+ file, one at a time in one buffer: where each starts, what each signal
//! has in it, its annotations; and whether the file conforms to the profile.
#![tactic(auto)]

mod annotation;
pub mod laws;
mod records;
mod samples;
mod times;
mod whole;

pub use annotation::annotations::Annotations;
pub use annotation::note::{NoteRef, TalNotes};
pub use annotation::note_keeper::{KeepsNone, NoteKeeper};
pub use annotation::notes::Note;
pub use annotation::own_text::OwnText;
pub use records::reader::FileReader;
pub use records::record::MOST_NOTES;
pub use records::status::Status;
pub use samples::sample::Sample;
pub use samples::value::value_at;
pub use times::instant::Instant;
pub use times::lane_times::{distance, file_start_ps, num_at};
pub use whole::conform::{Summary, conform};
pub use whole::meaning::{Meaning, whole_file, whole_meaning};
