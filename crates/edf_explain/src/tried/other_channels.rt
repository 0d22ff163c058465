//! Other channels than the claimed ones, tried by a check.

use crate::heads::Heads;
use crate::words::tried as words;
use edf_claim::Claim;
use edf_header::Header;
use edf_heads::ChannelIndex;
use edf_sentences::{NEXT, Piece, Text, nearest};
use edf_trial::{Asked, TriedAnswer, Tries, is_of_channels, with_channels};
use std::alloc::{AllocError, Global};

/// Channels with which the check answers better than with the claimed ones.
#[derive(Drop)]
struct OtherChannels {
    labels: Vec<Vec<u8>>,
    answer: TriedAnswer,
}

/// The channels of both files, and the claim.
#[derive(Drop)]
struct Fitting<'a> {
    alloc: Global,
    claim: &'a Claim,
    originals: ChannelIndex<'a>,
    exports: ChannelIndex<'a>,
    /// The labels of channels that both files have and the claim doesn't name.
    unclaimed: Vec<&'a str>,
    labels: Vec<Vec<u8>>,
    /// Of how many labels it was asked which one may be meant.
    asked: usize,
}

/// Of how many labels at most it is asked which one may be meant.
const MOST_ASKED: usize = 20;

/// The labels of channels that both files have and the claim doesn't name, in the order of the export.
fn unclaimed_labels<'a>(
    alloc: Global,
    claim: &Claim,
    originals: &ChannelIndex<'_>,
    export: &'a Header,
) -> Result<Vec<&'a str>, AllocError> {
    let mut labels = Vec::new(alloc);
    for signal in export.signals() {
        if !signal.is_annotations()
            && !claim.keeps_channel(signal.label())
            && originals.channel(signal.label()).is_some()
            && let Ok(label) = std::str::from_utf8(signal.label())
        {
            labels.push(label)?;
        }
    }
    Ok(labels)
}

impl<'a> Fitting<'a> {
    /// No label so far.
    fn new(alloc: Global, heads: Heads<'a>) -> Result<Fitting<'a>, AllocError> {
        let originals = ChannelIndex::new(alloc, heads.original)?;
        let exports = ChannelIndex::new(alloc, heads.export)?;
        let unclaimed = unclaimed_labels(alloc, heads.claim, &originals, heads.export)?;
        Ok(Fitting {
            alloc,
            claim: heads.claim,
            originals,
            exports,
            unclaimed,
            labels: Vec::new(alloc),
            asked: 0,
        })
    }

    /// Takes in a label, if it isn't there.
    fn take_in(&mut self, label: &[u8]) -> Result<(), AllocError> {
        for other in &self.labels {
            if other.as_slice() == label {
                return Ok(());
            }
        }
        self.labels.push(Vec::from_slice(self.alloc, label)?)?;
        Ok(())
    }

    /// Takes in a claimed label where both files have it; or, where the original hasn't, the one that may be meant.
    fn take_claimed(&mut self, label: &[u8]) -> Result<(), AllocError> {
        if self.originals.channel(label).is_some() {
            if self.exports.channel(label).is_some() {
                self.take_in(label)?;
            }
            return Ok(());
        }
        let Ok(said) = std::str::from_utf8(label) else {
            return Ok(());
        };
        if self.asked >= MOST_ASKED {
            return Ok(());
        }
        self.asked = self.asked.saturating_add(1);
        match nearest(self.alloc, said, &self.unclaimed)? {
            Some(near) => self.take_in(near.as_bytes()),
            None => Ok(()),
        }
    }

    /// Takes in the labels that both files have and the claim doesn't name.
    fn take_unclaimed(&mut self) -> Result<(), AllocError> {
        for place in 0..self.unclaimed.len() {
            if let Some(label) = self.unclaimed.get(place) {
                let label: &'a str = *label;
                self.take_in(label.as_bytes())?;
            }
        }
        Ok(())
    }

    /// The labels of the channels that both files have: the claimed ones in the claim's order, with the one that may be meant
    /// in the place of each that is misspelt, and then the others.
    fn labels(mut self) -> Result<Vec<Vec<u8>>, AllocError> {
        for label in self.claim.channels() {
            self.take_claimed(label.text())?;
        }
        self.take_unclaimed()?;
        Ok(self.labels)
    }
}

impl OtherChannels {
    /// Tries the channels that both files have, where the first difference is one of channels; none where the answer isn't
    /// better, or is one of channels again.
    fn of<T: Tries + Drop>(
        alloc: Global,
        asked: &Asked<'_, T>,
        heads: Heads<'_>,
    ) -> Result<Option<OtherChannels>, T::Stop> {
        if !is_of_channels(asked.verdict) {
            return Ok(None);
        }
        let labels = Fitting::new(alloc, heads)?.labels()?;
        let Some(claim_text) = with_channels(alloc, asked.claim_text, &labels)? else {
            return Ok(None);
        };
        match asked.better_under(alloc, &claim_text)? {
            Some(answer) if answer.has_channels() => Ok(Some(OtherChannels { labels, answer })),
            _ => Ok(None),
        }
    }

    /// Says what the check answers with them.
    fn say(&self, text: &mut Text) -> Result<(), AllocError> {
        let mut sentence = words::WITH_CHANNEL;
        for label in &self.labels {
            text.add(sentence, &[Piece::Quoted(label)])?;
            sentence = NEXT;
        }
        let behind = if self.answer.is_yes() {
            words::CHANNELS_YES
        } else {
            words::CHANNELS_NO
        };
        text.say(behind, &[Piece::Plain(self.answer.line())])
    }
}

/// Says with which other channels the check answers better, if the first difference is one of channels and there are such.
pub(crate) fn say_other_channels<T: Tries + Drop>(
    text: &mut Text,
    asked: &Asked<'_, T>,
    heads: Heads<'_>,
) -> Result<(), T::Stop> {
    if let Some(other) = OtherChannels::of(text.alloc(), asked, heads)? {
        other.say(text)?;
    }
    Ok(())
}
