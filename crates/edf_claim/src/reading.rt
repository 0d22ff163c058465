//! Reading a claim from its text: what stands at each key.

pub mod anonymous;
pub mod blank;
pub mod channels;
pub mod format;
pub mod keep;
pub mod keys;
pub mod read;
pub mod remove;
pub mod shift;
pub mod table;
pub mod text_arrays;
