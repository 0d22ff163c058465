//! The format of a claim.

ghost use Rattle.std.specs.Prelude.{◌≡◌};
ghost use Rattle.toml.specs.View.{table_view};
ghost use Rattle.edf_claim.specs.Reading.{has_format as has_format_table, is_format as is_format_table};

use crate::claim_key;
use crate::reading::table::integer_at;
use toml::Table;

/// Whether the format is this integer.
pub(crate) fn is_format(table: &Table, wanted: i64) -> bool
    ensures { result ≡ is_format_table wanted (table_view table.now) }
{
    match integer_at(table, claim_key::FORMAT) {
        Some(format) => format == wanted,
        None => false,
    }
}

/// Whether the format is the integer 1 or 2.
#[tactic(auto, unfolding(crate::specs::Reading::has_format))]
pub(crate) fn has_format(table: &Table) -> bool
    ensures { result ≡ has_format_table (table_view table.now) }
{
    is_format(table, 1) || is_format(table, 2)
}
