//! The annotations whose texts a claim blanks.

ghost use Rattle.std.specs.Prelude.{◌≡◌, [], map, option_map, option_and_then, IfOk, None, Some};
ghost use Rattle.toml.specs.View.{view, table_view};
ghost use Rattle.edf_claim.specs.Reading.{blank_of};

use crate::claim_key;
use crate::reading::table::value_at;
use crate::reading::text_arrays::{copies_of, distinct_texts};
use std::alloc::{AllocError, Global};
use toml::Table;

/// The texts of annotations that are blanked: distinct texts, none where the key is absent.
#[tactic(auto, unfolding(crate::specs::Reading::blank_of))]
pub(crate) fn blank(alloc: Global, table: &Table) -> Result<Option<Vec<Vec<u8>>>, AllocError>
    ensures { IfOk result (λ r. option_map (λ v. map (λ t. t.items) v.items) r ≡
        blank_of (table_view table.now)) }
{
    match value_at(table, claim_key::BLANK) {
        Some(value) => match distinct_texts(alloc, value)? {
            Some(texts) => Ok(Some(copies_of(alloc, &texts)?)),
            None => Ok(None),
        },
        None => Ok(Some(Vec::new(alloc))),
    }
}
