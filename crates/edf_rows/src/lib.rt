//! The worked rows: small EDF+ files, an original and one export or several, and a claim, and the line that is
//! stored for each.
#![tactic(auto)]

mod build;
mod claims;
mod files;
mod header;
mod lines;
mod rows;

pub use build::bytes_of;
pub use claims::claim_text;
pub use header::{COLUMNS, FIXED, HeaderTexts, push_header, push_padded};
pub use rows::{Exports, Row, worked_rows};
