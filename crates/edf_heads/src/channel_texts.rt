//! The texts of the channels.

ghost use Rattle.std.specs.Prelude.{◌≡◌, map, option_map, MatchOption};
ghost use Rattle.edf_heads.specs.differences.TextDifference.{text_in};
ghost use Rattle.edf_heads.specs.Comparisons.{claimed_view, IsTextDifferenceIn, SameTextsIn, text_difference, text_difference_of, first_text_difference as first_text_difference_of};

use crate::channels::ClaimedChannel;
use crate::comparison::Comparison;
use edf_header::Signal;
use edf_verdict::TextField;

/// A claimed label, and a text in which its channels differ.
#[derive(Clone, Copy)]
pub(crate) struct TextDifference<'a> {
    pub(crate) label: &'a [u8],
    pub(crate) field: TextField,
}

/// A text of a channel (EDF, "Header record": transducer type, prefiltering).
pub(crate) fn text_of(signal: &Signal, field: TextField) -> &[u8]
    ensures { result.now ≡ text_in field signal.entry.now }
{
    match field {
        TextField::Transducer => signal.transducer(),
        TextField::Prefilter => signal.prefilter(),
    }
}

/// The first text in which two channels differ: the transducer, then the prefilter (EDF, "Header record").
pub fn text_difference(original: &Signal, export: &Signal) -> Option<TextField>
    ensures { result ≡ text_difference original.now export.now }
{
    if original.transducer() != export.transducer() {
        return Some(TextField::Transducer);
    }
    if original.prefilter() != export.prefilter() {
        return Some(TextField::Prefilter);
    }
    None
}

impl<'a> ClaimedChannel<'a> {
    /// The first text in which the label's two channels differ.
    fn text_difference(self) -> Option<TextField>
        ensures { result ≡ text_difference_of (claimed_view self.entry).original
            (claimed_view self.entry).export }
    {
        text_difference(self.original?, self.export?)
    }
}

/// The first of the labels whose channels differ in a text, and the first such text.
fn first_text_difference<'a>(claimed: &[ClaimedChannel<'a>]) -> Option<TextDifference<'a>>
    ensures { option_map (λ d. (d.label.now, d.field)) result ≡
        first_text_difference_of (map claimed_view claimed.now) }
{
    for channel in claimed {
        if let Some(field) = channel.text_difference() {
            return Some(TextDifference {
                label: channel.label.text(),
                field,
            });
        }
    }
    None
}

impl<'a> Comparison<'a> {
    /// The first claimed channel that hasn't the original's texts in the export, and its first such text.
    pub(crate) fn text_difference(&self) -> Option<TextDifference<'a>>
        ensures { MatchOption result (SameTextsIn self.now)
            (λ d. IsTextDifferenceIn self.now d.label.now d.field) }
    {
        first_text_difference(&self.claimed)
    }
}
