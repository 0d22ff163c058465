//! What stands at the keys of a table.

ghost use Rattle.std.specs.Prelude.{◌≡◌, option_map};
ghost use Rattle.toml.specs.Data.{get_member};
ghost use Rattle.toml.specs.View.{view, table_view};
ghost use Rattle.edf_claim.specs.Reading.{integer_of, text_at as text_at_key};

use toml::{Table, Value};

/// The value at a key.
pub(crate) fn value_at<'a>(table: &'a Table, key: &str) -> Option<&'a Value>
    ensures { option_map (λ v. view v.now) result ≡ get_member key.now (table_view table.now) }
{
    table.get(key)
}

/// The integer at a key.
pub(crate) fn integer_at(table: &Table, key: &str) -> Option<i64>
    ensures { result ≡ integer_of key.now (table_view table.now) }
{
    match value_at(table, key) {
        Some(value) => value.as_integer(),
        None => None,
    }
}

/// The text at a key.
pub(crate) fn text_at<'a>(table: &'a Table, key: &str) -> Option<&'a str>
    ensures { option_map (λ t. t.now) result ≡ text_at_key key.now (table_view table.now) }
{
    match value_at(table, key) {
        Some(value) => value.as_str(),
        None => None,
    }
}
