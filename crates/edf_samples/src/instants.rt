//! Instants compared and moved, exactly.

ghost use Rattle.std.specs.Prelude.{◌≡◌, ◌<◌, ◌≤◌, ◌^◌, ◌*ℤ◌, pos, unsigned_abs};
ghost use Rattle.edf_samples.specs.InstantOrder.{IsModest, floor_of, is_before as is_before_instant};

use edf_stream::Instant;

/// The product of a numerator and the other instant's denominator.
pub(crate) fn product(num: i128, den: u32) -> i128
    requires num { unsigned_abs num < 2 ^ 104 }
    requires den { den ≤ 2 ^ 23 }
    ensures { result ≡ num *ℤ pos den }
{
    num * i128::from(den)
}

/// Whether the first instant is the earlier one.
pub(crate) fn is_before(this: Instant, other: Instant) -> bool
    requires this { IsModest this }
    requires other { IsModest other }
    ensures { result ≡ is_before_instant this other }
{
    product(this.num, other.den) < product(other.num, this.den)
}

/// The whole picoseconds of an instant, rounded down.
pub(crate) fn floor(instant: Instant) -> i128
    requires { 0 < instant.den }
    ensures { result ≡ floor_of instant }
{
    instant.num.div_euclid(i128::from(instant.den))
}
