//! A file that is read to its end: when it was recorded, and its annotations, without its samples.
#![tactic(auto)]

mod reading;
mod recorded;
mod stretch;
mod times;

pub use reading::read_through;
pub use recorded::{Recorded, RecordedNote};
pub use stretch::{Stretch, push_stretch};
pub use times::Times;
