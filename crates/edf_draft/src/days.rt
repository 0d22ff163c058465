//! By how many days an export was moved.

ghost use Rattle.std.specs.Prelude.{◌≡◌, ◌<◌, ◌^◌, ◌*ℤ◌, ◌-ℤ◌, ℤ, pos, unsigned_abs, IfSome, IfNone};
ghost use Rattle.std.specs.Int.{int_div_euclid};
ghost use Rattle.edf_draft.specs.Days.{LiesWithin};

use edf_fields::DAY_PS;

/// How many whole days lie between two times, rounded down.
#[tactic(auto, using(crate::proofs::DayFacts::days_fit))]
fn days_from(earlier: i128, later: i128) -> i128
    requires earlier { unsigned_abs earlier < 2 ^ 80 }
    requires later { unsigned_abs later < 2 ^ 80 }
    ensures days { result ≡ int_div_euclid (later -ℤ earlier) (pos 86400000000000000) }
    ensures few { unsigned_abs result < 2 ^ 25 }
{
    (later - earlier).div_euclid(DAY_PS)
}

/// A time moved back by so many days.
fn moved_back(at: i128, days: i128) -> i128
    requires at { unsigned_abs at < 2 ^ 80 }
    requires days { unsigned_abs days < 2 ^ 25 }
    ensures { result ≡ at -ℤ (days *ℤ pos 86400000000000000) }
{
    at - days * DAY_PS
}

/// The number of days by which a time from `from` to `to` was moved, if it lies between `begin` and `end` then: the one that
/// gives the least time. None where no number of days does that.
#[tactic(auto, using(crate::proofs::DayFacts::within_then, crate::proofs::DayFacts::never_within))]
pub(crate) fn days_between(begin: i128, end: i128, from: i128, to: i128) -> Option<i128>
    requires begin { unsigned_abs begin < 2 ^ 80 }
    requires from { unsigned_abs from < 2 ^ 80 }
    requires to { unsigned_abs to < 2 ^ 80 }
    ensures some { IfSome result (LiesWithin begin end from to) }
    ensures none { IfNone result ((days : ℤ) → LiesWithin begin end from to days → ⊥) }
    ensures few { IfSome result (λ days. unsigned_abs days < 2 ^ 25) }
{
    let days = days_from(begin, from);
    if moved_back(to, days) <= end {
        Some(days)
    } else {
        None
    }
}
