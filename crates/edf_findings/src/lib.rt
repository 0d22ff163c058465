//! What an original and an export of it differ in, all of it and not the first difference alone: values, without any
//! sentence.
#![tactic(auto)]

mod clock;
mod faults;
mod findings;
mod front_source;
mod heads;
pub mod laws;
mod limits;
mod looker;
mod noted;
mod notes;
mod of_files;
mod part;
mod record_time;
mod samples;
mod stand;
mod starts;
mod wanted;

pub use clock::start_of;
pub use edf_pace::OnlyInOne;
pub use faults::fault_of_export;
pub use findings::Findings;
pub use front_source::FrontSource;
pub use heads::cut_off::are_extremes_cut_off;
pub use heads::exchanged::{Exchange, exchange_of, has_subfield, have_same_texts};
pub use limits::MOST_SHIFT;
pub use notes::both::Notes;
pub use notes::ends::is_at_end;
pub use notes::one_way::{OneWay, one_way};
pub use of_files::{Checked, CheckedParts, findings_of, findings_of_parts};
pub use part::PartFindings;
pub use samples::compared::{ComparedChannel, Samples, Spot};
pub use samples::kinds::SampleKinds;
pub use starts::Starts;
pub use wanted::{Wanted, claim_of};
