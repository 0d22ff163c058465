//! Differences of the samples of a channel that were counted.

ghost use Rattle.std.specs.Prelude.{◌≡◌, [], ◌∷◌, Some};
ghost use Rattle.std.specs.Option.{option_or};
ghost use Rattle.edf_samples.specs.Tallies.{counted, joined_kind};

use crate::difference::PointDifference;

/// Differences of one kind: how many, the first and the last. The counter stays at the largest value that it holds.
#[derive(Clone, Copy)]
pub struct Counted {
    pub count: u64,
    pub first: Option<PointDifference>,
    pub last: Option<PointDifference>,
}

/// Keeps a difference as the first one, if there is none before it.
pub(crate) fn keep_first(first: &mut Option<PointDifference>, difference: PointDifference)
    ensures { first.new ≡ option_or first.old (Some difference) }
{
    if first.is_none() {
        *first = Some(difference);
    }
}

/// Keeps the first of others as the first one, if there is none before it. What is kept isn't moved: this is done for each
/// channel in each data record.
#[inline(always)]
pub(crate) fn keep_first_of(first: &mut Option<PointDifference>, others: Option<PointDifference>)
    ensures { first.new ≡ option_or first.old others }
{
    if first.is_none() && others.is_some() {
        *first = others;
    }
}

/// Keeps the last of others as the last one, if there is one.
#[inline(always)]
fn keep_last_of(last: &mut Option<PointDifference>, others: Option<PointDifference>)
    ensures { last.new ≡ option_or others last.old }
{
    if others.is_some() {
        *last = others;
    }
}

impl Counted {
    /// No difference.
    #[tactic(auto, unfolding(crate::specs::Tallies::counted))]
    pub(crate) fn none() -> Counted
        ensures { result ≡ counted [] }
    {
        Counted {
            count: 0,
            first: None,
            last: None,
        }
    }

    /// Takes in others, which are behind these.
    #[inline(always)]
    #[tactic(auto, using(crate::proofs::TallyFacts::kind_joined))]
    pub(crate) fn add(&mut self, others: &Counted)
        ensures { self.new ≡ joined_kind self.old others.now }
    {
        self.count = self.count.saturating_add(others.count);
        keep_first_of(&mut self.first, others.first);
        keep_last_of(&mut self.last, others.last);
    }

    /// Takes in one more, which is behind these.
    #[tactic(auto, using(crate::proofs::TallyFacts::one_joined))]
    pub(crate) fn add_one(&mut self, difference: PointDifference)
        ensures { self.new ≡ joined_kind self.old (counted (difference ∷ [])) }
    {
        self.count = self.count.saturating_add(1);
        keep_first(&mut self.first, difference);
        self.last = Some(difference);
    }
}
