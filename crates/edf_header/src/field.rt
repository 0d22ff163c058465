//! What the fields of a header have in common: printable bytes and numbers.

ghost use Rattle.std.specs.Prelude.{◌≡◌, ◌≤◌, ◌<◌, ◌^◌, ◌≤ℤ◌, ℤ, pos, neg_ℤ, None, Some, length, MatchResult, unsigned_abs};
ghost use Rattle.edf_fields.specs.texts.NumbersReading.{whole_number_of};
ghost use Rattle.edf_header.specs.Faults.{not_printable, no_number, not_within, not_positive};

use edf_fields::{Cause, Fault, Place, header_whole, is_printable};

/// A field whose bytes are printable ASCII.
#[tactic(auto, unfolding(crate::specs::Faults::not_printable))]
pub(crate) fn printable(place: Place, field: &[u8]) -> Result<(), Fault>
    ensures { MatchResult result (λ _. not_printable place field.now ≡ None) (λ f.
        not_printable place field.now ≡ Some f) }
{
    if is_printable(field) {
        return Ok(());
    }
    Err(Fault {
        place,
        cause: Cause::NotPrintable,
    })
}

/// The number that is spelled.
pub(crate) fn some_number(place: Place, value: Option<i64>) -> Result<i64, Fault>
    ensures { MatchResult result (λ v. (no_number place value ≡ None) ×
        (value ≡ Some v)) (λ f. no_number place value ≡ Some f) }
{
    match value {
        Some(number) => Ok(number),
        None => Err(Fault {
            place,
            cause: Cause::BadNumber,
        }),
    }
}

/// The number that is spelled, where it is 1 or more.
pub(crate) fn positive(place: Place, value: Option<i64>) -> Result<i64, Fault>
    ensures { MatchResult result (λ v. (not_positive place value ≡ None) × (value ≡ Some v) ×
        (pos 1 ≤ℤ v)) (λ f. not_positive place value ≡ Some f) }
{
    match value {
        Some(number) if number >= 1 => Ok(number),
        Some(_) => Err(Fault {
            place,
            cause: Cause::BadRange,
        }),
        None => Err(Fault {
            place,
            cause: Cause::BadNumber,
        }),
    }
}

/// The number that is spelled, where two bytes can hold it.
pub(crate) fn two_bytes(place: Place, value: Option<i64>) -> Result<i16, Fault>
    ensures { MatchResult result (λ v. (not_within place (neg_ℤ (pos 32768)) (pos 32767) value ≡ None) ×
        (value ≡ Some v)) (λ f. not_within place (neg_ℤ (pos 32768)) (pos 32767) value ≡ Some f) }
{
    match value {
        Some(number) if number >= -32768 && number <= 32767 => Ok(number as i16),
        Some(_) => Err(Fault {
            place,
            cause: Cause::BadRange,
        }),
        None => Err(Fault {
            place,
            cause: Cause::BadNumber,
        }),
    }
}

/// A number from 1 to 99,999,999, as what it counts.
fn as_count(number: i64) -> u32
    requires low { pos 1 ≤ℤ number }
    requires high { unsigned_abs number < 10 ^ 8 }
    ensures value { pos result ≡ number }
    ensures low { 1 ≤ result }
    ensures high { result < 10 ^ 8 }
{
    number as u32
}

/// What a field of at most 8 bytes counts, from 1 on.
pub(crate) fn count(place: Place, field: &[u8]) -> Result<u32, Fault>
    requires { length field.now ≤ 8 }
    ensures { MatchResult result (λ v. (not_positive place (whole_number_of field.now) ≡ None) ×
        (whole_number_of field.now ≡ Some (pos v)) × (1 ≤ v) ×
        (v < 10 ^ 8)) (λ f. not_positive place (whole_number_of field.now) ≡ Some f) }
{
    let number = positive(place, header_whole(field))?;
    Ok(as_count(number))
}
