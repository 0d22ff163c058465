//! The texts of all sentences. `{0}` stands for the first thing that is put into a sentence, `{1}` for the second.

pub mod annotations;
pub mod compared;
pub mod faults;
pub mod files;
pub mod headers;
pub mod parts;
pub mod samples;
pub mod starts;
pub mod tried;
