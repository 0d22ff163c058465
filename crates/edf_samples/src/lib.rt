//! The samples of one channel of two files, compared at their instants: where they differ first, and how many of each kind
//! differ.
#![tactic(auto)]

mod between;
mod bytes;
mod counts;
mod difference;
mod earliest;
mod instants;
mod point;
mod sample_difference;
mod share;
mod stretch;
mod times;

pub use between::{part_by, share_of, share_of_none};
pub use bytes::first_difference;
pub use counts::blocks::numbers_of;
pub use counts::count::count_differences;
pub use counts::counted::Counted;
pub use counts::meeting::Meeting;
pub use counts::places::Places;
pub use counts::tally::Tally;
pub use difference::PointDifference;
pub use earliest::{Found, keep_earlier};
pub use sample_difference::{SampleDifference, with_label};
pub use share::Share;
pub use stretch::{Stretch, no_samples, stretch_difference};
pub use times::{BEGINNING, Time, Window};
