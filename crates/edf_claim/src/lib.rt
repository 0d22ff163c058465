//! What a sleep centre claims of an export: which channels, intervals of time and annotations of the
//! original it keeps, what it makes anonymous, which texts it blanks, and by how much it moves the rest.
#![tactic(auto)]

pub mod claim_key;
mod drafting;
mod kept;
pub mod laws;
mod reading;
mod stop;

pub use drafting::draft::{Comments, Draft};
pub use drafting::spelling::{push_said_interval, push_said_text};
pub use kept::claim::{BLANK, Claim, MOST_CLAIM_BYTES};
pub use kept::interval::Interval;
pub use reading::keep::MOST_INTERVALS;
pub use reading::keys::{CLAIM_KEYS, MORE_KEYS};
pub use reading::shift::MOST_SHIFT_SECONDS;
pub use stop::ClaimStop;
