//! Annotations at the end of an interval.

ghost use Rattle.std.specs.Prelude.{◌≡◌, ◌&&◌, ◌-ℤ◌, pos, not};
ghost use Rattle.edf_claim.specs.Keeps.{keeps_instant};
ghost use Rattle.edf_findings.specs.Shifts.{nearest};

use edf_claim::Claim;

/// Whether a time is the end of a kept interval, and in none.
pub fn is_at_end(claim: &Claim, at_ps: i128) -> bool
    ensures { result ≡ (not (keeps_instant claim.now at_ps 1)
        && keeps_instant claim.now (nearest (at_ps -ℤ pos 1)) 1) }
{
    !claim.keeps_instant(at_ps, 1) && claim.keeps_instant(at_ps.saturating_sub(1), 1)
}
