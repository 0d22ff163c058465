//! Two EDF+ files in step: an original and an export of it, read from a time on, a data record of each at a time, and
//! shown to a watcher as far as both have come; and what they differ in there.
#![tactic(auto)]

pub mod laws;
mod notes;
mod walk;

pub use edf_samples::{
    BEGINNING, Counted, Found, Places, PointDifference, SampleDifference, Tally, Time, Window,
    first_difference, numbers_of, with_label,
};
pub use notes::note_difference::{NoteDifference, note_difference};
pub use notes::only_in_one::{OnlyInOne, only_in_one};
pub use notes::unequal::Unequal;
pub use walk::clock::Clock;
pub use walk::fault_of::FaultOf;
pub use walk::frame::Frame;
pub use walk::gather::View;
pub use walk::layout::common_room;
pub use walk::lockstep::{ReadOn, end_both, export_fault, walk_on};
pub use walk::offset::Offset;
pub use walk::reading::{Reading, begin_ps_of, finish, go_on, open, start};
pub use walk::track::{Pair, Track, pairs_of};
pub use walk::turn::{Setting, Turn};
pub use walk::watchers::counts::Counts;
pub use walk::watchers::first_found::FirstFound;
pub use walk::watchers::found_in::{ChannelCount, FoundIn, RecordsAt};
pub use walk::watchers::onlooker::{Nobody, Onlooker};
pub use walk::watchers::watcher::{Watch, Watcher};
