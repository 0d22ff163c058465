//! The data records of a file, read and judged one at a time.

pub mod current;
pub mod lanes;
pub mod much;
pub mod read_record;
pub mod reader;
pub mod record;
pub mod status;
