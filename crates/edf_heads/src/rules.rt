//! The rules that each claimed channel keeps or breaks by itself, and the first channel that breaks one.

ghost use Rattle.std.specs.Prelude.{◌≡◌, map, option_map, MatchOption};
ghost use Rattle.edf_heads.specs.Comparisons.{claimed_view, all_rules, breaks, difference_of, first_breaking as first_breaking_of, named_at, IsFirstBreaking, Keep};

use crate::calibrations::has_other_calibration;
use crate::channel_texts::text_of;
use crate::channels::ClaimedChannel;
use crate::comparison::Comparison;
use crate::difference::HeadDifference;
use edf_verdict::TextField;

/// What is asked of each claimed channel (this project's profile).
#[derive(Clone, Copy)]
pub(crate) enum ChannelRule {
    /// It is in the original.
    Known,
    /// It is in the export.
    Exported,
    /// It has the original's text of this field in the export.
    SameText(TextField),
    /// It has the original's calibration in the export.
    Calibrated,
    /// It has no free text in the export.
    Clean,
}

/// All rules of a channel, in the order in which they are found at a label.
const RULES: [ChannelRule; 6] = [
    ChannelRule::Known,
    ChannelRule::Exported,
    ChannelRule::SameText(TextField::Transducer),
    ChannelRule::SameText(TextField::Prefilter),
    ChannelRule::Calibrated,
    ChannelRule::Clean,
];

impl ChannelRule {
    /// All of them, in the order in which they are found at a label.
    pub(crate) fn all() -> &'static [ChannelRule]
        ensures { result.now ≡ all_rules }
    {
        &RULES
    }

    /// That the channels of a label break it.
    pub(crate) fn broken_at(self, label: &[u8]) -> HeadDifference<'_>
        ensures { difference_of result ≡ named_at self label.entry.now }
    {
        match self {
            ChannelRule::Known => HeadDifference::UnknownChannel(label),
            ChannelRule::Exported => HeadDifference::MissingChannel(label),
            ChannelRule::SameText(field) => HeadDifference::ChannelText(label, field),
            ChannelRule::Calibrated => HeadDifference::Calibration(label),
            ChannelRule::Clean => HeadDifference::FreeTextInChannel(label),
        }
    }
}

impl<'a> ClaimedChannel<'a> {
    /// Whether the channel breaks the rule.
    pub(crate) fn breaks(self, rule: ChannelRule) -> bool
        ensures { result ≡ breaks rule (claimed_view self.entry) }
    {
        match (rule, self.original, self.export) {
            (ChannelRule::Known, original, _) => original.is_none(),
            (ChannelRule::Exported, _, export) => export.is_none(),
            (ChannelRule::SameText(field), Some(original), Some(export)) => {
                text_of(original, field) != text_of(export, field)
            }
            (ChannelRule::Calibrated, Some(original), Some(export)) => {
                has_other_calibration(original, export)
            }
            (ChannelRule::Clean, _, Some(export)) => !export.reserved().is_empty(),
            _ => false,
        }
    }
}

/// The first of the labels whose channels break the rule.
fn first_breaking<'a>(claimed: &[ClaimedChannel<'a>], rule: ChannelRule) -> Option<&'a [u8]>
    ensures { option_map (λ label. label.now) result ≡ first_breaking_of rule (map claimed_view claimed.now) }
{
    for channel in claimed {
        if channel.breaks(rule) {
            return Some(channel.label.text());
        }
    }
    None
}

impl<'a> Comparison<'a> {
    /// The first claimed label whose channels break the rule.
    pub(crate) fn first_breaking(&self, rule: ChannelRule) -> Option<&'a [u8]>
        ensures { MatchOption result (Keep rule self.now) (λ label. IsFirstBreaking rule self.now label.now) }
    {
        first_breaking(&self.claimed, rule)
    }
}
