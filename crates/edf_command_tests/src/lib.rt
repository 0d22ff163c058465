//! Tests of `edf_report`, `edf_layout`, `edf_receipt`, `edf_trial`, `edf_jobs`, `edf_refusal` and `edf_vectors` by their
//! public names: the reports on one file, the layout of a header, digests, the receipts, the worked rows, tries, the
//! command that some words are, the line and the status of each refusal, and what is written where a source, a sink or
//! memory gives out.
#![tactic(auto)]

#[cfg(test)]
mod digest;
#[cfg(test)]
mod layouts;
#[cfg(test)]
mod receipts;
#[cfg(test)]
mod refusals;
#[cfg(test)]
mod reports;
#[cfg(test)]
mod rows;
#[cfg(test)]
mod trials;
#[cfg(test)]
mod words;
