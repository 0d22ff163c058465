//! Whether the header of an export is what a claim says of its original's: the channels, their texts and
//! calibrations, the subfields of the identifications, and no free text.
#![tactic(auto)]

mod blank;
mod broken;
mod calibrations;
mod channel_index;
mod channel_texts;
mod channels;
mod comparison;
mod difference;
mod heads;
mod labels;
pub mod laws;
mod rules;
mod subfields;

pub use blank::is_blank_header;
pub use broken::head_differences;
pub use calibrations::has_other_calibration;
pub use channel_index::{Channel, ChannelIndex};
pub use channel_texts::text_difference;
pub use difference::HeadDifference;
pub use heads::head_difference;
pub use labels::{in_order, place_among};
pub use subfields::{is_anonymous, is_unchanged};
