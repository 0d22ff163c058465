//! Claims as tables, and such tables as texts.

use std::alloc::{AllocError, Global};
use toml::ser::Error;
use toml::{Table, Value};

/// The table that a text says; none where it isn't TOML.
pub(crate) fn table_of(alloc: Global, text: &[u8]) -> Result<Option<Table>, AllocError> {
    match toml::table_from_slice(alloc, text) {
        Ok(table) => Ok(Some(table)),
        Err(fault) if fault.is_memory() => Err(AllocError),
        Err(_) => Ok(None),
    }
}

/// The text of a table; none where it has no text.
pub(crate) fn text_of(alloc: Global, table: &Table) -> Result<Option<Vec<u8>>, AllocError> {
    match toml::table_to_string(alloc, table) {
        Ok(text) => Ok(Some(Vec::from_slice(alloc, text.as_bytes())?)),
        Err(Error::OutOfMemory) => Err(AllocError),
        Err(Error::DateInvalid) => Ok(None),
    }
}

/// Puts a value at a key of a table, in the place of the one that stands there.
pub(crate) fn put(
    alloc: Global,
    table: &mut Table,
    key: &str,
    value: Value,
) -> Result<(), AllocError> {
    let key = String::from_str(alloc, key)?;
    table.insert(key, value)?;
    Ok(())
}
