//! A whole file: what is kept of it while it is read, and its layout.

pub mod file_body;
pub mod kept_lane;
pub mod layout;
pub mod odd_lanes;
pub mod whole_file;
