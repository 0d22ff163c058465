//! How the header of an export isn't what a claim says of its original's: all differences, and not the first alone.

use crate::heads::Heads;
use crate::words::files::{EXCHANGED, EXPORT_TWICE, ORIGINAL_TWICE};
use crate::words::headers as words;
use edf_fields::Which;
use edf_findings::{
    Exchange, Findings, PartFindings, are_extremes_cut_off, exchange_of, has_subfield,
};
use edf_header::Signal;
use edf_heads::{ChannelIndex, HeadDifference, is_anonymous};
use edf_sentences::{Piece, Text};
use edf_verdict::{SubfieldMismatch, TextField};
use std::alloc::{AllocError, Global};

/// What it looks like where one file stands in the places of both, or each in the place of the other.
fn words_of(exchange: Exchange) -> &'static str {
    match exchange {
        Exchange::ExportTwice => EXPORT_TWICE,
        Exchange::OriginalTwice => ORIGINAL_TWICE,
        Exchange::Swapped => EXCHANGED,
    }
}

/// The channels of both headers, to be found by their labels.
#[derive(Drop)]
struct BothChannels<'a> {
    originals: ChannelIndex<'a>,
    exports: ChannelIndex<'a>,
}

impl<'a> BothChannels<'a> {
    /// Those of these headers.
    fn of(alloc: Global, heads: Heads<'a>) -> Result<BothChannels<'a>, AllocError> {
        Ok(BothChannels {
            originals: ChannelIndex::new(alloc, heads.original)?,
            exports: ChannelIndex::new(alloc, heads.export)?,
        })
    }

    /// The original's channel of a label, and the export's, where both have one.
    fn both(&self, label: &[u8]) -> Option<(&'a Signal, &'a Signal)> {
        let original = self.originals.channel(label)?;
        let export = self.exports.channel(label)?;
        Some((original.signal, export.signal))
    }
}

/// Says of a claimed channel that the original doesn't have it.
fn say_unknown(
    text: &mut Text,
    channels: &BothChannels<'_>,
    label: &[u8],
) -> Result<(), AllocError> {
    let sentence = match channels.exports.channel(label) {
        Some(_) => words::UNKNOWN_CHANNEL,
        None => words::CHANNEL_NOWHERE,
    };
    text.say(sentence, &[Piece::Quoted(label)])
}

/// Says of a claimed channel that the export doesn't have it, unless it was said that neither file does.
fn say_missing(
    text: &mut Text,
    channels: &BothChannels<'_>,
    label: &[u8],
) -> Result<(), AllocError> {
    match channels.originals.channel(label) {
        Some(_) => text.say(words::MISSING_CHANNEL, &[Piece::Quoted(label)]),
        None => Ok(()),
    }
}

/// The sentence that a text of a channel is another one, and the text that each channel has.
fn text_of<'a>(
    field: TextField,
    original: &'a Signal,
    export: &'a Signal,
) -> (&'static str, &'a [u8], &'a [u8]) {
    match field {
        TextField::Transducer => (
            words::TRANSDUCER,
            original.transducer(),
            export.transducer(),
        ),
        TextField::Prefilter => (words::PREFILTER, original.prefilter(), export.prefilter()),
    }
}

/// Says of a text of a channel that it is another one in the export.
fn say_text(
    text: &mut Text,
    label: &[u8],
    field: TextField,
    (original, export): (&Signal, &Signal),
) -> Result<(), AllocError> {
    let (sentence, original, export) = text_of(field, original, export);
    let pieces = [
        Piece::Quoted(label),
        Piece::Quoted(original),
        Piece::Quoted(export),
    ];
    text.say(sentence, &pieces)?;
    if !export.is_empty() && original.starts_with(export) {
        text.say(words::TEXT_CUT, &[])?;
    }
    Ok(())
}

/// Says what extremes a channel has, with its unit.
fn say_extremes(text: &mut Text, sentence: &str, signal: &Signal) -> Result<(), AllocError> {
    let (low, high) = signal.calibration().physical();
    let (least, most) = signal.calibration().digital();
    text.say(
        sentence,
        &[
            Piece::Decimal(low),
            Piece::Decimal(high),
            Piece::Quoted(signal.dimension()),
            Piece::Number(i128::from(least)),
            Piece::Number(i128::from(most)),
        ],
    )
}

/// Says of the calibration of a channel that it is another one in the export.
fn say_calibration(
    text: &mut Text,
    label: &[u8],
    (original, export): (&Signal, &Signal),
) -> Result<(), AllocError> {
    text.say(words::CALIBRATION, &[Piece::Quoted(label)])?;
    say_extremes(text, words::CALIBRATION_ORIGINAL, original)?;
    say_extremes(text, words::CALIBRATION_EXPORT, export)?;
    if original.dimension() != export.dimension() {
        text.say(words::CALIBRATION_DIMENSION, &[])?;
    } else if are_extremes_cut_off(original.calibration(), export.calibration()) {
        text.say(words::CALIBRATION_CUT_OFF, &[])?;
    } else {
        text.say(words::CALIBRATION_SCALE, &[])?;
    }
    Ok(())
}

/// Says which free text a channel of the export has.
fn say_free_text(
    text: &mut Text,
    channels: &BothChannels<'_>,
    label: &[u8],
) -> Result<(), AllocError> {
    match channels.exports.channel(label) {
        Some(channel) => {
            let pieces = [
                Piece::Quoted(label),
                Piece::Quoted(channel.signal.reserved()),
            ];
            text.say(words::FREE_TEXT_OF_CHANNEL, &pieces)
        }
        None => Ok(()),
    }
}

/// Says how the channels of a label differ.
fn say_channel(
    text: &mut Text,
    channels: &BothChannels<'_>,
    label: &[u8],
    field: Option<TextField>,
) -> Result<(), AllocError> {
    match (channels.both(label), field) {
        (Some(both), Some(field)) => say_text(text, label, field, both),
        (Some(both), None) => say_calibration(text, label, both),
        (None, _) => Ok(()),
    }
}

impl<'a> Heads<'a> {
    /// Says how a subfield isn't as claimed.
    fn say_subfield(
        self,
        text: &mut Text,
        which: Which,
        mismatch: SubfieldMismatch,
    ) -> Result<(), AllocError> {
        let pieces = [
            Piece::Word(which.name()),
            Piece::Word(words::meaning(which)),
        ];
        if mismatch == SubfieldMismatch::NotX {
            return text.say(words::SUBFIELD_NOT_X, &pieces);
        }
        if which == Which::Date {
            return text.say(words::DATE_CHANGED, &pieces);
        }
        if !has_subfield(self.export, which) {
            return text.say(words::SUBFIELD_LEFT_OUT, &pieces);
        }
        if is_anonymous(self.export, which) {
            return text.say(words::SUBFIELD_HIDDEN, &pieces);
        }
        text.say(words::SUBFIELD_CHANGED, &pieces)
    }

    /// Says that a rule is broken.
    fn say(
        self,
        text: &mut Text,
        channels: &BothChannels<'_>,
        difference: HeadDifference<'_>,
    ) -> Result<(), AllocError> {
        match difference {
            HeadDifference::UnknownChannel(label) => say_unknown(text, channels, label),
            HeadDifference::MissingChannel(label) => say_missing(text, channels, label),
            HeadDifference::ExtraChannel(label) => {
                text.say(words::EXTRA_CHANNEL, &[Piece::Quoted(label)])
            }
            HeadDifference::ChannelText(label, field) => {
                say_channel(text, channels, label, Some(field))
            }
            HeadDifference::Calibration(label) => say_channel(text, channels, label, None),
            HeadDifference::Subfield(which, mismatch) => self.say_subfield(text, which, mismatch),
            HeadDifference::FreeTextInHeader => text.say(words::FREE_TEXT_OF_HEADER, &[]),
            HeadDifference::FreeTextInChannel(label) => say_free_text(text, channels, label),
        }
    }
}

/// Says how the header of an export isn't as claimed, and answers whether it isn't.
pub(crate) fn say_heads(
    text: &mut Text,
    seen: &Findings<'_>,
    part: &PartFindings,
) -> Result<bool, AllocError> {
    let heads = Heads::of(seen, part);
    if let Some(exchange) = exchange_of(heads.claim, heads.original, heads.export) {
        text.say(words_of(exchange), &[])?;
    }
    let alloc = text.alloc();
    let channels = BothChannels::of(alloc, heads)?;
    let broken = seen.broken_rules(alloc, part)?;
    let are_some = !broken.is_empty();
    for difference in broken {
        heads.say(text, &channels, difference)?;
    }
    Ok(are_some)
}
