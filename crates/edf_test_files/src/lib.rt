//! What the tests of several crates stand on: the reference file and others like it, built in memory, sources
//! that fail, and memory that runs out. Nothing of the program stands on it, and no contract is wanted of it:
//! what these functions make is judged by the tests.
#![tactic(auto)]

mod file;
mod record;
mod scarce;
mod tape;

pub use file::{COLUMNS, Done, Edit, FIXED, edited, header_of, is_reference, put};
pub use record::{LANES, push_lane, recorded, small_file, temp_header, timed, twofold};
pub use scarce::Scarce;
pub use tape::{Tape, dripping, endless, tape_of};
