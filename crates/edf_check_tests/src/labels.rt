//! Labels in the order of their bytes, and channels found by their labels.

use crate::headers::read;
use edf_fields::SignalLabel;
use edf_heads::{ChannelIndex, in_order};
use std::alloc::AllocError;
use std::process::Abort;

/// The order of bytes puts a text behind one that it begins with, and small letters behind capitals.
const ORDER: [&[u8]; 4] = [b"", b"EEG", b"EEG 2", b"ecg"];

/// Each label has the place that it has in the order.
fn assert_places(rt: &impl Abort, sorted: &[&[u8]]) {
    for place in 0..4 {
        let found = sorted
            .iter()
            .position(|label: &&[u8]| *label == ORDER[place]);
        assert_eq!(rt; found, Some(place), "place {place}");
    }
}

#[test]
fn puts_labels_in_the_order_of_their_bytes(rt: HostRuntime) -> Result<(), AllocError> {
    let labels = [
        SignalLabel::new(b"ecg"),
        SignalLabel::new(b"EEG 2"),
        SignalLabel::new(b""),
        SignalLabel::new(b"EEG"),
    ];
    let sorted = in_order(rt.alloc(), &labels)?;
    assert_eq!(rt; sorted.len(), 4);
    assert_places(&rt, &sorted);
    Ok(())
}

/// Labels, and which signal and which channel has each, of annotations, `ECG` and `EEG Fpz-Cz`.
const CHANNELS: &[(&[u8], Option<(u16, u16)>)] = &[
    (b"EDF Annotations", None),
    (b"ECG", Some((1, 0))),
    (b"EEG Fpz-Cz", Some((2, 1))),
    (b"", None),
    (b"EEG", None),
    (b"EEG Fpz-Cz ", None),
    (b"ecg", None),
];

#[test]
fn finds_channels_by_their_labels(rt: HostRuntime) -> Result<(), AllocError> {
    let header = read(rt.alloc(), &rt, (&[2, 1, 0], &[]))?;
    let index = ChannelIndex::new(rt.alloc(), &header)?;
    for (label, want) in CHANNELS {
        let found = index.channel(label);
        let place = found.map(|channel| (channel.at, channel.number));
        assert_eq!(rt; place, *want);
        assert!(rt; found.is_none_or(|channel| channel.signal.label() == *label));
    }
    Ok(())
}
