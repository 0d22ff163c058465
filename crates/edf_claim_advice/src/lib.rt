//! Sentences on a claim that is refused, for whoever has to mend it. They need no recordings.
#![tactic(auto)]

mod amounts;
mod claim_lines;
mod intervals;
mod keys;
mod limits;
mod placed;
mod refusal;
mod refused;
mod shift;
mod text_lists;
mod times;
mod typographic;
mod words;

pub use refusal::explain_claim;
