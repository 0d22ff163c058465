//! What a claim says, part by part.

ghost use Rattle.std.specs.Prelude.{◌≡◌, map};

use crate::kept::claim::Claim;
use crate::kept::interval::Interval;
use edf_fields::Which;

impl Claim {
    /// The intervals of time that are kept, in order.
    pub fn intervals(&self) -> &[Interval]
        ensures { result.now ≡ self.entry.now.keep }
    {
        &self.keep
    }

    /// The subfields that are made anonymous, in the claim's order.
    pub fn anonymous(&self) -> &[Which]
        ensures { result.now ≡ self.entry.now.anonymous }
    {
        &self.anonymous
    }

    /// By how many seconds what is kept moves.
    pub fn shift(&self) -> i64
        ensures { result ≡ self.now.shift }
    {
        self.shift
    }

    /// The texts of annotations that are removed, in the claim's order.
    pub fn removed(&self) -> &[Vec<u8>]
        ensures { map (λ t. t.items) result.now ≡ self.entry.now.remove }
    {
        &self.texts.remove
    }

    /// The texts with which those of removed annotations begin, in the claim's order.
    pub fn removed_by_begin(&self) -> &[Vec<u8>]
        ensures { map (λ t. t.items) result.now ≡ self.entry.now.remove_prefix }
    {
        &self.texts.remove_prefix
    }

    /// The texts of annotations that are blanked, in the claim's order.
    pub fn blanked(&self) -> &[Vec<u8>]
        ensures { map (λ t. t.items) result.now ≡ self.entry.now.blank }
    {
        &self.texts.blank
    }
}
