//! A claim that is refused, and is TOML.

use toml::Table;

/// The text of a claim that is refused, and its table.
#[derive(Clone, Copy)]
pub(crate) struct Refused<'a> {
    pub(crate) claim_text: &'a [u8],
    pub(crate) table: &'a Table,
}
