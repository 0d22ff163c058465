//! The receipt of a check: the digests of the files that were judged, by the very reads that judged them, and the line
//! of the verdict.
#![tactic(auto)]

mod digest_source;
mod file_line;
mod files;
pub mod laws;
mod parts_receipt;
mod printed;
mod receipt;
mod text;

pub use digest_source::{DigestSource, Digested, digest_of};
pub use parts_receipt::receipt_parts_to;
pub use printed::Printed;
pub use receipt::receipt_to;
