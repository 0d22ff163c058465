//! How a command ends that gives no answer: the line that says why it is refused, and the status of the program.
#![tactic(auto)]

mod refusals;
mod statuses;

pub use refusals::{Refusal, Role};
pub use statuses::status;
