//! The channels that a claim keeps.

ghost use Rattle.std.specs.Prelude.{◌≡◌, map, true, option_map, option_and_then, MatchOption, IfOk, None, Some, codes, not, ◌&&◌, ◌-◌, ◌≤◌};
ghost use Rattle.std.specs.List.{list_all};
ghost use Rattle.toml.specs.View.{view, table_view};
ghost use Rattle.edf_claim.specs.Reading.{is_label as is_label_text, distinct_texts as distinct_texts_of, channels_of};

use crate::claim_key;
use crate::reading::table::value_at;
use crate::reading::text_arrays::distinct_texts;
use edf_fields::{ANNOTATIONS, LABEL_BYTES, SignalLabel, is_printable};
use std::alloc::{AllocError, Global};
use toml::Table;

/// Whether the text is the label of a channel, as a field can have it.
fn is_label(text: &[u8]) -> bool
    ensures { result ≡ is_label_text text.now }
{
    text.len() <= LABEL_BYTES
        && is_printable(text)
        && !matches!(text, [.., b' '])
        && text != ANNOTATIONS
}

/// Whether each of the texts is the label of a channel.
fn are_labels(texts: &[&str]) -> bool
    ensures { result ≡ list_all is_label_text (map (λ t. t.now) texts.now) }
{
    for text in texts {
        if !is_label(text.as_bytes()) {
            return false;
        }
    }
    true
}

/// The labels of these texts, each of which can be one.
fn labels_of(alloc: Global, texts: &[&str]) -> Result<Vec<SignalLabel>, AllocError>
    requires { list_all is_label_text (map (λ t. t.now) texts.now) ≡ true }
    ensures { IfOk result (λ v. v.items ≡ map (λ t. t.now) texts.now) }
{
    let mut labels = Vec::with_capacity(alloc, texts.len())?;
    for text in texts {
        labels.push(SignalLabel::new(text.as_bytes()))?;
    }
    Ok(labels)
}

/// The labels of the channels: distinct, at least one, each of at most 16 printable bytes, without a
/// space at its end, and not that of an annotation signal.
#[tactic(auto, unfolding(crate::specs::Reading::channels_of))]
pub(crate) fn channels(alloc: Global, table: &Table) -> Result<Option<Vec<SignalLabel>>, AllocError>
    ensures { IfOk result (λ r. option_map (λ v. v.items) r ≡ channels_of (table_view table.now)) }
{
    let Some(value) = value_at(table, claim_key::CHANNELS) else {
        return Ok(None);
    };
    match distinct_texts(alloc, value)? {
        Some(labels) if !labels.is_empty() && are_labels(&labels) => {
            Ok(Some(labels_of(alloc, &labels)?))
        }
        _ => Ok(None),
    }
}
