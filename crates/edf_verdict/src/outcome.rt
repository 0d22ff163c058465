//! What a check or a report found, as a yes or a no.

ghost use Rattle.std.specs.Prelude.{◌≡◌, ◌↔◌};
ghost use Rattle.edf_verdict.specs.declared.outcome.Outcome.TheVariants as outcomes;
ghost use Rattle.edf_verdict.specs.Outcomes.{outcome_of};

use crate::verdict::Verdict;

/// What a report found.
#[derive(Debug, Clone, Copy, PartialEq, Eq)]
pub enum Outcome {
    /// What it asks for holds.
    Yes,
    /// It doesn't.
    No,
}

impl Outcome {
    /// What two parts of a report found together: `Yes` where both found it.
    pub fn and(self, other: Outcome) -> Outcome
        ensures { (result ≡ outcomes.Yes) ↔ ((self ≡ outcomes.Yes) × (other ≡ outcomes.Yes)) }
    {
        match self {
            Outcome::Yes => other,
            Outcome::No => Outcome::No,
        }
    }
}

impl Verdict {
    /// `Yes` for a Yes, `No` for every difference.
    pub fn outcome(&self) -> Outcome
        ensures { result ≡ outcome_of self.now }
    {
        match self {
            Verdict::Yes { .. } => Outcome::Yes,
            Verdict::No(_) => Outcome::No,
        }
    }
}
