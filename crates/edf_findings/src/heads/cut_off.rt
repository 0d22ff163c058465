//! Numbers of a header of which the last digits were cut off.

ghost use Rattle.std.specs.Prelude.{◌≡◌, ◌↔◌, false, true, IsTrue};
ghost use Rattle.edf_findings.specs.Likeness.{IsKeptOrNearer, IsNearer, have_same_digital as have_same_digital_of, have_same_physical as have_same_physical_of};

use crate::heads::extremes::{have_same_digital, have_same_physical};
use edf_header::Calibration;

/// The most digits in front of the dot that are gone through.
const MOST_WHOLE: usize = 12;

/// How many units of 10^-7 a unit of a whole number has.
const WHOLE: i128 = 10_000_000;

/// One unit of the last digit that eight characters hold of a number, in units of 10^-7. A sign and a dot take one character
/// each.
fn last_digit(number: i64) -> i128 {
    let mut unit: i128 = if number < 0 { 100 } else { 10 };
    let mut whole = number.unsigned_abs() / 100_000_000;
    for _ in 0..MOST_WHOLE {
        if whole == 0 {
            break;
        }
        whole /= 10;
        unit = unit.saturating_mul(10);
    }
    unit.min(WHOLE)
}

/// Whether a number is nearer to 0 than another one, and on the same side of it, or 0.
fn is_nearer(original: i64, export: i64) -> bool
    ensures { IsTrue result ↔ IsNearer original export }
{
    (0 <= export && export < original) || (original < export && export <= 0)
}

/// Whether a number is another one with its last digits cut off: nearer to 0, and by one unit of its last digit at most.
fn is_cut_off(original: i64, export: i64) -> bool
    ensures { IsTrue result → IsNearer original export }
{
    let lost = i128::from(original).saturating_sub(i128::from(export));
    is_nearer(original, export) && lost.saturating_abs() <= last_digit(original)
}

/// Whether a number is another one, or that with its last digits cut off.
#[tactic(auto, unfolding(crate::specs::Likeness::IsKeptOrNearer))]
fn is_kept_or_cut_off(original: i64, export: i64) -> bool
    ensures { IsTrue result → IsKeptOrNearer original export }
{
    original == export || is_cut_off(original, export)
}

/// Whether one of the physical extremes is cut off, and each is cut off or kept, for the same numbers.
pub fn are_extremes_cut_off(original: &Calibration, export: &Calibration) -> bool
    ensures minimum { IsTrue result →
        IsKeptOrNearer original.now.physical_minimum export.now.physical_minimum }
    ensures maximum { IsTrue result →
        IsKeptOrNearer original.now.physical_maximum export.now.physical_maximum }
    ensures changed { IsTrue result → have_same_physical_of original.now export.now ≡ false }
    ensures digital { IsTrue result → have_same_digital_of original.now export.now ≡ true }
{
    if have_same_physical(original, export) {
        return false;
    }
    if !have_same_digital(original, export) {
        return false;
    }
    let (low, high) = original.physical();
    let (new_low, new_high) = export.physical();
    is_kept_or_cut_off(low, new_low) && is_kept_or_cut_off(high, new_high)
}
