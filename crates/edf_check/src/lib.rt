//! Whether an export of an EDF+ recording is what a claim says of its original, and nothing else: the
//! verdict, as it is defined, the check that gives it, and the run that writes its line.
#![tactic(auto)]

mod finding;
mod judging;
pub mod laws;
mod of_one;
mod of_several;
mod parts;
mod running;
mod running_parts;

pub use edf_heads::head_difference;
pub use edf_pace::{Onlooker, first_difference};
pub use edf_verdict::{Difference, Outcome, PartsVerdict, Verdict};
pub use judging::{judge, judge_beside, judge_parts, judge_parts_beside};
pub use of_one::check;
pub use of_several::check_parts;
pub use running::run;
pub use running_parts::run_parts;
