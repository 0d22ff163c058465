//! Which of two verdicts is the better one.

ghost use Rattle.std.specs.Prelude.{◌≡◌};
ghost use Rattle.edf_trial.specs.Better.{instant_of, is_behind as is_behind_of, is_better as is_better_of};

use edf_verdict::{Difference, Verdict};

/// The instant of a difference, in picoseconds after the second at which the original starts; 0 where it has none.
fn instant(difference: &Difference) -> i128
    ensures { result ≡ instant_of difference.now }
{
    match difference {
        Difference::Sample { at_ps, .. } => *at_ps,
        Difference::Annotation { onset, .. } => *onset,
        _ => 0,
    }
}

/// Whether a difference has a greater number than another, or the same number and a later instant.
fn is_behind(difference: &Difference, other: &Difference) -> bool
    ensures { result ≡ is_behind_of difference.now other.now }
{
    let (number, other_number) = (difference.number(), other.number());
    other_number < number || (number == other_number && instant(other) < instant(difference))
}

/// Whether a verdict is better than another of the same files under another claim: it is a Yes and the other one isn't, or
/// its difference has a greater number, or the same number and a later instant.
pub fn is_better(verdict: &Verdict, than: &Verdict) -> bool
    ensures { result ≡ is_better_of verdict.now than.now }
{
    match (verdict, than) {
        (_, Verdict::Yes { .. }) => false,
        (Verdict::Yes { .. }, Verdict::No(_)) => true,
        (Verdict::No(difference), Verdict::No(other)) => is_behind(difference, other),
    }
}
