//! What is found first in several exports of one original.

ghost use Rattle.std.specs.Prelude.{◌≡◌, Some, None};
ghost use Rattle.edf_check.specs.parts.PartsFirst.{rank as rank_of};
ghost use Rattle.edf_check.specs.parts.PartsFound.{earlier_of, first_of, found_with as found_with_those, nothing as found_nothing};

use crate::parts::part::Course;
use edf_pace::Found;
use edf_verdict::Verdict;

/// The verdict on the header of a part.
#[derive(Drop)]
pub(crate) struct PartVerdict {
    pub part: u16,
    pub verdict: Verdict,
}

/// What is found in parts of which none has a fault. Each counts only where those before it aren't there.
#[derive(Drop)]
pub(crate) struct PartsFound {
    /// The first difference of their headers, where one differs.
    pub heads: Option<PartVerdict>,
    /// The first part that begins before the one before it ends.
    pub early: Option<u16>,
    /// The first difference of the samples.
    pub found: Option<Found>,
}

/// What is found where there is no part.
pub(crate) fn nothing() -> PartsFound
    ensures { result ≡ found_nothing }
{
    PartsFound {
        heads: None,
        early: None,
        found: None,
    }
}

/// The number of a verdict No.
fn rank(verdict: &Verdict) -> u8
    ensures { result ≡ rank_of verdict.now }
{
    match verdict {
        Verdict::Yes { .. } => 0,
        Verdict::No(difference) => difference.number(),
    }
}

/// Of a part's verdict and of the first one of the parts behind it, the one that goes first: the one with the lower
/// number, and of the same number that of the part.
fn earlier_verdict(part: u16, verdict: Verdict, later: Option<PartVerdict>) -> PartVerdict
    ensures { result ≡ earlier_of part verdict later }
{
    match later {
        Some(later) if rank(&later.verdict) < rank(&verdict) => later,
        _ => PartVerdict { part, verdict },
    }
}

/// The same, where the part may have none.
fn first_verdict(
    part: u16,
    verdict: Option<Verdict>,
    later: Option<PartVerdict>,
) -> Option<PartVerdict>
    ensures { result ≡ first_of part verdict later }
{
    match verdict {
        None => later,
        Some(verdict) => Some(earlier_verdict(part, verdict, later)),
    }
}

/// What is found in a part with this verdict on its header, and in those behind it.
pub(crate) fn found_with(
    part: u16,
    heads: Option<Verdict>,
    course: Course,
    rest: PartsFound,
) -> PartsFound
    ensures { result ≡ found_with_those part heads course rest }
{
    PartsFound {
        heads: first_verdict(part, heads, rest.heads),
        early: if course.is_early {
            Some(part)
        } else {
            rest.early
        },
        found: course.found.or(rest.found),
    }
}
