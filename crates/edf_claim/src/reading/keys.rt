//! The keys that the tables of a claim may have.

ghost use Rattle.std.specs.Prelude.{◌≡◌, map, string_bytes};
ghost use Rattle.std.specs.List.{list_all};
ghost use Rattle.toml.specs.View.{table_view};
ghost use Rattle.edf_claim.specs.Claims.{claim_keys, more_claim_keys, interval_keys};
ghost use Rattle.edf_fields.specs.Lists.{is_one_of};
ghost use Rattle.edf_claim.specs.Reading.{has_keys_of_format as has_keys_of_format_table, keys_are};

use crate::claim_key;
use crate::reading::format::is_format;
use crate::reading::text_arrays::stands_in;
use toml::Table;

/// The keys that a claim of format 1 may have.
pub const CLAIM_KEYS: [&str; 6] = [
    claim_key::FORMAT,
    claim_key::CHANNELS,
    claim_key::KEEP,
    claim_key::ANONYMOUS,
    claim_key::SHIFT,
    claim_key::REMOVE,
];

/// The keys that a claim of format 2 may have besides.
pub const MORE_KEYS: [&str; 2] = [claim_key::REMOVE_PREFIX, claim_key::BLANK];

/// Whether the key is one that a claim of format 1 may have.
fn is_claim_key(key: &str) -> bool
    ensures { result ≡ is_one_of claim_keys key.now }
{
    stands_in(&CLAIM_KEYS, key)
}

/// Whether the key is one that a claim of format 2 may have.
fn is_more_claim_key(key: &str) -> bool
    ensures { result ≡ is_one_of more_claim_keys key.now }
{
    stands_in(&MORE_KEYS, key) || is_claim_key(key)
}

/// Whether the keys are those of a claim of format 1, as a test of the table's entries.
fn claim_keys_alone(table: &Table) -> bool
    ensures { result ≡ list_all (λ key. is_one_of claim_keys (string_bytes key))
        (map (λ entry. entry.0) table.now.entries) }
{
    table.keys().all(|key| is_claim_key(key.as_str()))
}

/// Whether the keys are those of a claim of format 2, as a test of the table's entries.
fn more_claim_keys_alone(table: &Table) -> bool
    ensures { result ≡ list_all (λ key. is_one_of more_claim_keys (string_bytes key))
        (map (λ entry. entry.0) table.now.entries) }
{
    table.keys().all(|key| is_more_claim_key(key.as_str()))
}

/// Whether the table has no key but those of a claim of format 1.
fn has_claim_keys(table: &Table) -> bool
    ensures { result ≡ keys_are claim_keys (table_view table.now) }
{
    claim_keys_alone(table)
}

/// Whether the table has no key but those of a claim of format 2.
fn has_more_claim_keys(table: &Table) -> bool
    ensures { result ≡ keys_are more_claim_keys (table_view table.now) }
{
    more_claim_keys_alone(table)
}

/// Whether the table has no key but those of a claim of its format.
#[tactic(auto, unfolding(crate::specs::Reading::has_keys_of_format))]
pub(crate) fn has_keys_of_format(table: &Table) -> bool
    ensures { result ≡ has_keys_of_format_table (table_view table.now) }
{
    (is_format(table, 1) && has_claim_keys(table))
        || (is_format(table, 2) && has_more_claim_keys(table))
}

/// Whether the key is one of an interval.
fn is_interval_key(key: &str) -> bool
    ensures { result ≡ is_one_of interval_keys key.now }
{
    key == claim_key::FROM || key == claim_key::TO
}

/// Whether the keys are those of an interval, as a test of the table's entries.
fn interval_keys_alone(table: &Table) -> bool
    ensures { result ≡ list_all (λ key. is_one_of interval_keys (string_bytes key))
        (map (λ entry. entry.0) table.now.entries) }
{
    table.keys().all(|key| is_interval_key(key.as_str()))
}

/// Whether the table has no key but `from` and `to`.
pub(crate) fn has_interval_keys(table: &Table) -> bool
    ensures { result ≡ keys_are interval_keys (table_view table.now) }
{
    interval_keys_alone(table)
}
