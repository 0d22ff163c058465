//! By how much a claim moves what it keeps.

ghost use Rattle.std.specs.Prelude.{◌≡◌, ℤ, pos, option_and_then, None, Some, unsigned_abs, ◌≤◌, ◌^◌};
ghost use Rattle.toml.specs.View.{view, table_view};
ghost use Rattle.edf_claim.specs.Reading.{shift_of};

use crate::claim_key;
use crate::reading::table::value_at;
use toml::Table;

/// The most seconds by which a claim may move what it keeps, back or on.
pub const MOST_SHIFT_SECONDS: i64 = 10_000_000_000;

/// The shift in seconds, 0 where the key is absent.
#[tactic(auto, unfolding(crate::specs::Reading::shift_of))]
pub(crate) fn shift(table: &Table) -> Option<i64>
    ensures { result ≡ shift_of (table_view table.now) }
{
    let Some(value) = value_at(table, claim_key::SHIFT) else {
        return Some(0);
    };
    match value.as_integer() {
        Some(shift) if shift >= -MOST_SHIFT_SECONDS && shift <= MOST_SHIFT_SECONDS => Some(shift),
        _ => None,
    }
}
