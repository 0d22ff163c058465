//! Tests of `edf_header` and `edf_stream` by their public names: the values of a given header, of given data
//! records and of bytes, what whole files mean, texts of annotations, faults in words, signals that say the same, large
//! headers and data records, and what a call does where a source or memory gives out.
#![tactic(auto)]

#[cfg(test)]
mod conforming;
#[cfg(test)]
mod head;
#[cfg(test)]
mod lines;
#[cfg(test)]
mod meaning;
#[cfg(test)]
mod own_text;
#[cfg(test)]
mod reading;
#[cfg(test)]
mod samples;
#[cfg(test)]
mod scarce;
#[cfg(test)]
mod signals;
#[cfg(test)]
mod sizes;
#[cfg(test)]
mod sources;
#[cfg(test)]
mod texts;
#[cfg(test)]
mod values;
