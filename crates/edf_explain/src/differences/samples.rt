//! Sentences on the samples that aren't as claimed.

use crate::differences::clocks::Clocks;
use crate::words::samples as words;
use edf_fields::SignalLabel;
use edf_findings::{ComparedChannel, SampleKinds, Samples, Spot};
use edf_sentences::{FULL_STOP, Piece, Text};
use std::alloc::AllocError;

/// Puts in which data record a sample stands behind a text.
fn add_record(text: &mut Text, words: &str, record: Option<u32>) -> Result<(), AllocError> {
    match record {
        Some(record) => text.add(words, &[Piece::Number(i128::from(record))]),
        None => Ok(()),
    }
}

/// Says where a sample stands, and its values.
fn say_spot(text: &mut Text, words: &str, spot: Spot, clocks: Clocks) -> Result<(), AllocError> {
    text.add(words, &[])?;
    clocks.add(text, spot.at_ps())?;
    add_record(text, words::RECORD_OF_ORIGINAL, spot.original_record)?;
    add_record(text, words::RECORD_OF_EXPORT, spot.export_record)?;
    if let Some((original, export)) = spot.values() {
        let pieces = [
            Piece::Number(i128::from(original)),
            Piece::Number(i128::from(export)),
        ];
        text.add(words::VALUES, &pieces)?;
    }
    text.say(FULL_STOP, &[])
}

/// Samples that were found, and what is said of one of them and of more.
#[derive(Clone, Copy)]
struct Counted {
    one: &'static str,
    more: &'static str,
    samples: Samples,
}

impl Counted {
    /// Says how many samples of a channel were found, and the first and the last of them.
    fn say(self, text: &mut Text, label: &[u8], clocks: Clocks) -> Result<(), AllocError> {
        let Some((first, last)) = self.samples.ends else {
            return Ok(());
        };
        let count = i128::from(self.samples.count);
        let pieces = [Piece::Quoted(label), Piece::Number(count)];
        if count == 1 {
            text.say(self.one, &pieces)?;
            return say_spot(text, words::THE_SAMPLE, first, clocks);
        }
        text.say(self.more, &pieces)?;
        say_spot(text, words::THE_FIRST, first, clocks)?;
        say_spot(text, words::THE_LAST, last, clocks)
    }
}

/// Says which samples of a channel aren't as claimed.
fn say_channel(
    text: &mut Text,
    label: &[u8],
    channel: &ComparedChannel,
    clocks: Clocks,
) -> Result<(), AllocError> {
    if channel.has_other_rate {
        text.say(words::OTHER_RATE, &[Piece::Quoted(label)])?;
    }
    let kinds = [
        Counted {
            one: words::SAMPLE_MISSING,
            more: words::SAMPLES_MISSING,
            samples: channel.missing,
        },
        Counted {
            one: words::SAMPLE_EXTRA,
            more: words::SAMPLES_EXTRA,
            samples: channel.extra,
        },
        Counted {
            one: words::SAMPLE_CHANGED,
            more: words::SAMPLES_CHANGED,
            samples: channel.changed,
        },
    ];
    for counted in &kinds {
        counted.say(text, label, clocks)?;
    }
    Ok(())
}

/// Says what mostly makes differences of these kinds.
fn say_causes(text: &mut Text, kinds: SampleKinds) -> Result<(), AllocError> {
    if kinds.missing {
        text.say(words::CAUSE_OF_MISSING, &[])?;
    }
    if kinds.extra {
        text.say(words::CAUSE_OF_EXTRA, &[])?;
    }
    if let Some((changed, compared)) = kinds.nearly_all {
        let pieces = [
            Piece::Number(i128::from(changed)),
            Piece::Number(i128::from(compared)),
        ];
        return text.say(words::CAUSE_OF_ALL_CHANGED, &pieces);
    }
    if kinds.changed {
        text.say(words::CAUSE_OF_CHANGED, &[])?;
    }
    Ok(())
}

/// Says which samples aren't as claimed, and what mostly makes that.
pub(crate) fn say_samples(
    text: &mut Text,
    labels: &[SignalLabel],
    channels: &[ComparedChannel],
    clocks: Clocks,
) -> Result<(), AllocError> {
    for channel in channels {
        if let Some(label) = labels.get(channel.place)
            && !channel.is_as_claimed()
        {
            say_channel(text, label.text(), channel, clocks)?;
        }
    }
    say_causes(text, SampleKinds::of(channels))
}
