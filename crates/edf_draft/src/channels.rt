//! The channels of an export.

ghost use Rattle.std.specs.Prelude.{◌≡◌, [], ◌∷◌, ◌++◌, map, IfOk, OnOk};
ghost use Rattle.edf_header.specs.signals.Channels.{channel_labels as labels_of};

use edf_header::{Header, Signal};
use edf_heads::ChannelIndex;
use std::alloc::{AllocError, Global};

/// Takes in the label of a signal, where it is a channel.
fn push_label(alloc: Global, labels: &mut Vec<Vec<u8>>, signal: &Signal) -> Result<(), AllocError>
    ensures { OnOk result (map (λ t. t.items) labels.new.items ≡ map (λ t. t.items) labels.old.items ++
        labels_of (signal.now ∷ [])) }
{
    if !signal.is_annotations() {
        let label = Vec::from_slice(alloc, signal.label())?;
        labels.push(label)?;
    }
    Ok(())
}

/// The labels of a file's channels, in its order (EDF, "Header record": label).
pub(crate) fn channel_labels(alloc: Global, header: &Header) -> Result<Vec<Vec<u8>>, AllocError>
    ensures { IfOk result (λ labels. map (λ t. t.items) labels.items ≡ labels_of header.now.signals) }
{
    let mut labels = Vec::new(alloc);
    for signal in header.signals() {
        push_label(alloc, &mut labels, signal)?;
    }
    Ok(labels)
}

/// Of each label whether a file has a channel of it.
pub(crate) fn are_known(
    alloc: Global,
    header: &Header,
    labels: &[Vec<u8>],
) -> Result<Vec<bool>, AllocError> {
    let index = ChannelIndex::new(alloc, header)?;
    let mut known = Vec::new(alloc);
    for label in labels {
        known.push(index.channel(label).is_some())?;
    }
    Ok(known)
}
