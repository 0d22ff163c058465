//! The status with which the program ends.

ghost use Rattle.std.specs.Prelude.{◌≡◌};
ghost use Rattle.edf_refusal.specs.Statuses.{status_of};

use crate::refusals::Refusal;
use edf_verdict::Outcome;

/// The status of a command: 0 for Yes, 1 for No, 2 for a refusal.
pub fn status(ended: &Result<Outcome, Refusal>) -> u8
    ensures { result ≡ status_of ended.now }
{
    match ended {
        Ok(Outcome::Yes) => 0,
        Ok(Outcome::No) => 1,
        Err(_) => 2,
    }
}
