//! Free text of an export.

ghost use Rattle.std.specs.Prelude.{◌≡◌, ◌↔◌, IsTrue};
ghost use Rattle.std.specs.List.{list_all};
ghost use Rattle.edf_heads.specs.differences.BlankDifference.{IsBlankHeader};
ghost use Rattle.edf_heads.specs.Comparisons.{is_blank_signal};

use crate::comparison::Comparison;
use edf_header::{Header, Signal};

/// Whether the signal is a channel, or has no text but its label.
fn is_blank_signal(signal: &Signal) -> bool
    ensures { result ≡ is_blank_signal signal.now }
{
    !signal.is_annotations()
        || (signal.transducer().is_empty()
            && signal.dimension().is_empty()
            && signal.prefilter().is_empty()
            && signal.reserved().is_empty())
}

/// Whether each of the signals is a channel, or has no text but its label.
fn are_blank_signals(signals: &[Signal]) -> bool
    ensures { result ≡ list_all is_blank_signal signals.now }
{
    for signal in signals {
        if !is_blank_signal(signal) {
            return false;
        }
    }
    true
}

/// Whether nothing stands behind `EDF+C` or `EDF+D`, and the annotation signals have no texts (EDF+, "The EDF+ header").
pub fn is_blank_header(header: &Header) -> bool
    ensures { IsTrue result ↔ IsBlankHeader header.now }
{
    header.free().is_empty() && are_blank_signals(header.signals())
}

impl<'a> Comparison<'a> {
    /// Whether the export has no free text but that of its channels.
    pub(crate) fn is_header_blank(&self) -> bool
        ensures { IsTrue result ↔ IsBlankHeader self.now.export }
    {
        is_blank_header(self.export.header)
    }
}
