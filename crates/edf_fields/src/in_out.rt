//! Where bytes come from and where they go.

pub mod faulty_sink;
pub mod faulty_source;
pub mod sink;
pub mod source;
