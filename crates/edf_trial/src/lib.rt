//! Tries: a check that is run anew under a claim that was changed, so that a remedy is named only where it was tried.
#![tactic(auto)]

mod alike;
mod anew;
mod answers;
mod better;
mod changed;
mod channels;
mod ends;
mod parts_anew;
mod parts_recordings;
mod recordings;
mod shifted;

pub use anew::check_anew;
pub use answers::{Asked, OneExport, SeveralExports, TriedAnswer, Tries, is_of_channels};
pub use better::is_better;
pub use channels::with_channels;
pub use ends::with_end;
pub use parts_anew::{PartsAnswer, check_parts_anew};
pub use parts_recordings::PartsRecordings;
pub use recordings::{Recordings, SliceRecordings};
pub use shifted::with_shift;
