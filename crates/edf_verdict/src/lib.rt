//! What a check of an export of an EDF+ recording can answer, and its line of text.
#![tactic(auto)]

mod label;
mod line;
mod note_text;
mod note_times;
mod outcome;
mod parts_line;
mod parts_verdict;
mod quote;
mod verdict;

pub use label::Label;
pub use note_text::NoteText;
pub use note_times::NoteTimes;
pub use outcome::Outcome;
pub use parts_verdict::PartsVerdict;
pub use quote::{push_quoted, push_with_quoted};
pub use verdict::{
    AnnotationMismatch, Difference, FreeText, SampleMismatch, SubfieldMismatch, TextField, Verdict,
};
