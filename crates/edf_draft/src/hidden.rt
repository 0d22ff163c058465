//! The subfields that an export hides, or all of several do.

ghost use Rattle.std.specs.Prelude.{◌↔◌, List, ◌∷◌, map, IsTrue, IfOk, OnOk};
ghost use Rattle.edf_fields.specs.Lists.{Has};
ghost use Rattle.edf_fields.specs.declared.fields.which.Which.{Which};
ghost use Rattle.edf_draft.specs.Hidden.{AreLeft, IsHidden, IsHiddenInAll};

use crate::exported::Exported;
use edf_fields::Which;
use edf_header::Header;
use edf_heads::{is_anonymous, is_unchanged};
use edf_stream::FileReader;
use std::alloc::{AllocError, Global};

/// Whether this subfield is `X` in the export, and not as in the original.
fn is_hidden(original: &Header, export: &Header, which: Which) -> bool
    ensures { IsTrue result ↔ IsHidden original.now export.now which }
{
    is_anonymous(export, which) && !is_unchanged(original, export, which)
}

/// Whether it is so in an export and in each of those behind it.
#[tactic(auto, using(crate::proofs::HiddenFacts::alone_hidden, crate::proofs::HiddenFacts::more_hidden, crate::proofs::HiddenFacts::not_hidden))]
fn is_hidden_in_all(original: &Header, export: &Header, others: &[FileReader], which: Which) -> bool
    ensures { IsTrue result ↔ IsHiddenInAll original.now (export.now ∷ map (λ r. r.head) others.now) which }
{
    match others.split_first() {
        None => is_hidden(original, export, which),
        Some((next, rest)) => {
            is_hidden(original, export, which)
                && is_hidden_in_all(original, next.header(), rest, which)
        }
    }
}

/// Takes in a subfield, where it is hidden.
#[tactic(auto, using(crate::proofs::HiddenFacts::one_found, crate::proofs::HiddenFacts::none_found))]
fn push_hidden(
    hidden: &mut Vec<Which>,
    original: &Header,
    export: &Header,
    others: &[FileReader],
    which: Which,
) -> Result<(), AllocError>
    ensures { OnOk result ((rest : List Which) →
        AreLeft original.now (export.now ∷ map (λ r. r.head) others.now) hidden.old.items (which ∷ rest) →
        AreLeft original.now (export.now ∷ map (λ r. r.head) others.now) hidden.new.items rest) }
{
    if is_hidden_in_all(original, export, others, which) {
        hidden.push(which)?;
    }
    Ok(())
}

/// The subfields that are `X` in an export and in each of those behind it, and not as in the original, in their written order.
pub(crate) fn hidden_subfields(
    alloc: Global,
    original: &Header,
    export: &Header,
    others: &[FileReader],
) -> Result<Vec<Which>, AllocError>
    ensures { IfOk result (λ hidden. (which : Which) → Has hidden.items which ↔
        IsHiddenInAll original.now (export.now ∷ map (λ r. r.head) others.now) which) }
{
    let mut hidden = Vec::new(alloc);
    for which in Which::all() {
        push_hidden(&mut hidden, original, export, others, *which)?;
    }
    Ok(hidden)
}

/// Whether an export, or one of those behind it, shows a subfield.
fn is_shown(export: &Exported, which: Which) -> bool {
    !is_anonymous(export.together.reader.header(), which)
        || export
            .others
            .iter()
            .any(|other| !is_anonymous(other.header(), which))
}

/// The subfields that an export shows, or one of several does, in their written order.
pub(crate) fn shown_subfields(alloc: Global, export: &Exported) -> Result<Vec<Which>, AllocError> {
    let mut shown = Vec::new(alloc);
    for which in Which::all() {
        if is_shown(export, *which) {
            shown.push(*which)?;
        }
    }
    Ok(shown)
}
