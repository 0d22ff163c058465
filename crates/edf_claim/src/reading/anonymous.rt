//! What a claim makes anonymous.

ghost use Rattle.std.specs.Prelude.{◌≡◌, [], map, option_map, option_and_then, IfOk, None, Some};
ghost use Rattle.toml.specs.View.{view, table_view};
ghost use Rattle.edf_claim.specs.Reading.{whiches_of, anonymous_of};

use crate::claim_key;
use crate::reading::table::value_at;
use crate::reading::text_arrays::distinct_texts;
use edf_fields::{Which, which_of};
use std::alloc::{AllocError, Global};
use toml::Table;

/// The subfields of these names, where each names one.
fn whiches(alloc: Global, names: &[&str]) -> Result<Option<Vec<Which>>, AllocError>
    ensures { IfOk result (λ r. option_map (λ v. v.items) r ≡ whiches_of (map (λ t. t.now) names.now)) }
{
    let mut found = Vec::new(alloc);
    for name in names {
        match which_of(name.as_bytes()) {
            Some(which) => found.push(which)?,
            None => return Ok(None),
        }
    }
    Ok(Some(found))
}

/// What is made anonymous: distinct names of subfields, none where the key is absent.
#[tactic(auto, unfolding(crate::specs::Reading::anonymous_of))]
pub(crate) fn anonymous(alloc: Global, table: &Table) -> Result<Option<Vec<Which>>, AllocError>
    ensures { IfOk result (λ r. option_map (λ v. v.items) r ≡ anonymous_of (table_view table.now)) }
{
    let Some(value) = value_at(table, claim_key::ANONYMOUS) else {
        return Ok(Some(Vec::new(alloc)));
    };
    match distinct_texts(alloc, value)? {
        Some(names) => whiches(alloc, &names),
        None => Ok(None),
    }
}
