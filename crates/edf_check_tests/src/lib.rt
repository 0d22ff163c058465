//! Tests of `edf_verdict`, `edf_heads`, `edf_pace` and `edf_check` by their public names: the differences of two headers,
//! labels in order, checks and their lines, a run that refuses its claim, how many annotations two lists don't
//! share, where two slices of bytes differ first, and what a call does where a source, a sink or memory gives out.
#![tactic(auto)]

#[cfg(test)]
mod counts;
#[cfg(test)]
mod first_difference;
#[cfg(test)]
mod headers;
#[cfg(test)]
mod labels;
#[cfg(test)]
mod large;
#[cfg(test)]
mod night;
#[cfg(test)]
mod parts_lines;
#[cfg(test)]
mod parts_sources;
#[cfg(test)]
mod scarce;
#[cfg(test)]
mod sinks;
#[cfg(test)]
mod sources;
#[cfg(test)]
mod timed;
#[cfg(test)]
mod verdict_lines;
