//! How many samples of a channel differ.

ghost use Rattle.std.specs.Prelude.{◌≡◌, [], ◌∷◌};
ghost use Rattle.edf_samples.specs.Tallies.{all_extra, all_missing, joined, tally_of};

use crate::counts::counted::{Counted, keep_first, keep_first_of};
use crate::difference::PointDifference;
use edf_verdict::SampleMismatch;

/// The differences of a channel, counted by kind, and the first of all.
#[derive(Clone, Copy)]
pub struct Tally {
    pub missing: Counted,
    pub extra: Counted,
    pub changed: Counted,
    pub first: Option<PointDifference>,
}

impl Tally {
    /// That of no difference.
    #[tactic(auto, unfolding(crate::specs::Tallies::tally_of))]
    pub fn none() -> Tally
        ensures { result ≡ tally_of [] }
    {
        Tally {
            missing: Counted::none(),
            extra: Counted::none(),
            changed: Counted::none(),
            first: None,
        }
    }

    /// Takes in missing samples, which are behind the others.
    #[inline(always)]
    #[tactic(auto, using(crate::proofs::TallyFacts::missing_joined))]
    pub(crate) fn add_missing(&mut self, missing: Counted)
        ensures { self.new ≡ joined self.old (all_missing missing) }
    {
        self.missing.add(&missing);
        keep_first_of(&mut self.first, missing.first);
    }

    /// Takes in extra samples.
    #[inline(always)]
    #[tactic(auto, using(crate::proofs::TallyFacts::extra_joined))]
    pub(crate) fn add_extra(&mut self, extra: Counted)
        ensures { self.new ≡ joined self.old (all_extra extra) }
    {
        self.extra.add(&extra);
        keep_first_of(&mut self.first, extra.first);
    }

    /// Takes in one difference.
    #[tactic(auto, using(crate::proofs::TallyFacts::one_missing, crate::proofs::TallyFacts::one_extra, crate::proofs::TallyFacts::one_changed))]
    pub(crate) fn add_one(&mut self, difference: PointDifference)
        ensures { self.new ≡ joined self.old (tally_of (difference ∷ [])) }
    {
        keep_first(&mut self.first, difference);
        match difference.mismatch {
            SampleMismatch::Missing => self.missing.add_one(difference),
            SampleMismatch::Extra => self.extra.add_one(difference),
            SampleMismatch::Value(_, _) => self.changed.add_one(difference),
        }
    }
}
