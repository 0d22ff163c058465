//! Tests of `edf_fields`, `edf_tal` and `edf_claim` by their public names: texts of numbers, times, dates and
//! identifications, sources and sinks, the TALs of a lane, and what a claim says and keeps.
#![tactic(auto)]

#[cfg(test)]
mod date;
#[cfg(test)]
mod distinct;
#[cfg(test)]
mod identification;
#[cfg(test)]
mod keeps;
#[cfg(test)]
mod label;
#[cfg(test)]
mod number;
#[cfg(test)]
mod onset;
#[cfg(test)]
mod printable;
#[cfg(test)]
mod refusals;
#[cfg(test)]
mod sink;
#[cfg(test)]
mod source;
#[cfg(test)]
mod subfields;
#[cfg(test)]
mod tals;
