//! What is found first in an original and its exports, and the verdict No for it.

ghost use Rattle.std.specs.Prelude.{◌≡◌};
ghost use Rattle.edf_check.specs.Findings.{no_on, verdict_on};

use edf_pace::{FaultOf, NoteDifference, SampleDifference};
use edf_verdict::{Difference, PartsVerdict, Verdict};

/// What a check finds first. There are five kinds, of which an earlier one goes before those behind it.
#[derive(Drop)]
pub(crate) enum Finding {
    /// A fault of a file.
    Fault(FaultOf),
    /// A rule of two headers that the part of this number breaks, as the verdict on them says it.
    Heads(u16, Verdict),
    /// A part, of this number, that begins before the one before it ends.
    Order(u16),
    /// A difference of the samples.
    Sample(SampleDifference),
    /// A difference of the annotations.
    Annotation(NoteDifference),
}

/// The verdict No for a difference of this part; it is 0 where the difference is one of all together.
fn no(part: u16, difference: Difference) -> PartsVerdict
    ensures { result ≡ no_on part difference }
{
    PartsVerdict {
        part,
        verdict: Verdict::No(difference),
    }
}

impl Finding {
    /// The verdict on it.
    pub(crate) fn verdict(self) -> PartsVerdict
        ensures { result ≡ verdict_on self }
    {
        match self {
            Finding::Fault(FaultOf::Original(fault)) => no(0, Difference::OriginalFault(fault)),
            Finding::Fault(FaultOf::Part(part, fault)) => no(part, Difference::ExportFault(fault)),
            Finding::Heads(part, verdict) => PartsVerdict { part, verdict },
            Finding::Order(part) => no(part, Difference::PartOrder),
            Finding::Sample(
                SampleDifference {
                    label,
                    at_ps,
                    mismatch,
                },
            ) => no(
                0,
                Difference::Sample {
                    label,
                    at_ps,
                    mismatch,
                },
            ),
            Finding::Annotation(
                NoteDifference {
                    mismatch,
                    onset,
                    duration,
                    text,
                },
            ) => no(
                0,
                Difference::Annotation {
                    mismatch,
                    onset,
                    duration,
                    text,
                },
            ),
        }
    }
}
