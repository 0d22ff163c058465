//! Time-stamped annotation lists (TALs) of EDF+, read from one lane of an annotation signal.
//!
//! EDF+ (2003), "Time-stamped Annotations Lists (TALs) in an 'EDF Annotations' signal".
#![tactic(auto)]

mod annotation_text;
pub mod laws;
mod piece;
mod separator;
mod start;
mod tal;
mod tal_texts;
mod tals;
mod zeros;

pub use annotation_text::TEXT_END;
pub use start::{StartCause, record_start, start_by_first, time_alone, time_alone_apart};
pub use tal::Tal;
pub use tal_texts::TalTexts;
pub use tals::Tals;
