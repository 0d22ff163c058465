//! The extremes of two signals beside one another.

ghost use Rattle.std.specs.Prelude.{◌≡◌, ◌&&◌};
ghost use Rattle.edf_findings.specs.Likeness.{have_same_digital as have_same_digital_of, have_same_physical as have_same_physical_of};

use edf_header::Calibration;

/// Whether the physical extremes are the same.
pub(crate) fn have_same_physical(one: &Calibration, other: &Calibration) -> bool
    ensures { result ≡ have_same_physical_of one.now other.now }
{
    let (low, high) = one.physical();
    let (other_low, other_high) = other.physical();
    low == other_low && high == other_high
}

/// Whether the digital extremes are the same.
pub(crate) fn have_same_digital(one: &Calibration, other: &Calibration) -> bool
    ensures { result ≡ have_same_digital_of one.now other.now }
{
    let (low, high) = one.digital();
    let (other_low, other_high) = other.digital();
    low == other_low && high == other_high
}

/// Whether all extremes are the same.
pub(crate) fn have_same_extremes(one: &Calibration, other: &Calibration) -> bool
    ensures { result ≡
        (have_same_physical_of one.now other.now && have_same_digital_of one.now other.now) }
{
    have_same_physical(one, other) && have_same_digital(one, other)
}
