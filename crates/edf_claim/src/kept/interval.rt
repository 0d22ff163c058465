//! An interval of time that a claim keeps.

ghost use Rattle.std.specs.Prelude.{◌≡◌, ◌<◌, ◌^◌, ◌*ℤ◌, pos, unsigned_abs, int_le};
ghost use Rattle.edf_claim.specs.KeepsReading.{is_within};

/// An interval of time in picoseconds after the second at which the original starts: `from_ps` is
/// included, `to_ps` is not.
#[derive(Debug, Clone, Copy, PartialEq, Eq)]
pub struct Interval {
    /// The first instant that is in it.
    pub from_ps: i128,
    /// The first instant behind it.
    pub to_ps: i128,
}

/// A bound in picoseconds, in units of 1 / den picoseconds.
fn scaled_bound(bound: i128, den: u32) -> i128
    requires bound { unsigned_abs bound < 2 ^ 100 }
    requires den { den < 2 ^ 24 }
    ensures { result ≡ bound *ℤ pos den }
{
    bound * i128::from(den)
}

impl Interval {
    /// Whether the interval has begun at the instant `num / den`, by an exact product.
    pub(crate) fn has_begun(self, num: i128, den: u32) -> bool
        requires from { unsigned_abs self.from_ps < 2 ^ 100 }
        requires den { den < 2 ^ 24 }
        ensures { result ≡ int_le (self.from_ps *ℤ pos den) num }
    {
        scaled_bound(self.from_ps, den) <= num
    }

    /// Whether the instant `num / den` is in the interval, by exact products.
    pub(crate) fn contains(self, num: i128, den: u32) -> bool
        requires from { unsigned_abs self.from_ps < 2 ^ 100 }
        requires to { unsigned_abs self.to_ps < 2 ^ 100 }
        requires den { den < 2 ^ 24 }
        ensures { result ≡ is_within self num den }
    {
        self.has_begun(num, den) && num < scaled_bound(self.to_ps, den)
    }
}
