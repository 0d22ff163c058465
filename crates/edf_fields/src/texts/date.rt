//! The days and times of the day that the texts of a header name.
//!
//! A startdate is `dd.mm.yy` and a starttime `hh.mm.ss` (EDF, "Header record"); after 2084 a startdate has the
//! letters `yy` for its year, and a birthdate and the startdate in the recording identification are `dd-MMM-yyyy`
//! (EDF+, "Additional specifications in EDF+"). `jiff` knows which days exist and how they are numbered. The calls take the text of
//! a field, without the spaces that fill it.
ghost use Rattle.std.specs.Prelude.{◌≡◌, ◌+◌, ◌≤◌, ◌<◌, ◌^◌, ℕ, ℤ, pos, length, MatchOption, IfSome, option_map};
ghost use Rattle.jiff.specs.Words.{IsYmd, epoch_day};
ghost use Rattle.edf_fields.specs.texts.Dates.{number_at, month_of, full_year, IsDayNumber, IsDotted, NamesDottedDay, NamesDayMonth, NamesDashedDay, NamesClockTime, civil_day};
ghost use Rattle.edf_fields.specs.texts.DatesReading.{dotted_day_of, day_month_of, dashed_day_of, clock_time_of};
ghost use Rattle.edf_fields.specs.texts.Numbers.{AreDigits};
ghost use Rattle.edf_fields.specs.Parts.{part};

use crate::texts::number::{bytes_at, digits};
use jiff::civil::Date;

/// The number that `count` digits from place `at` on spell; none where a byte there is no digit.
fn number_at(text: &[u8], at: usize, count: usize) -> Option<u16>
    requires within { at + count ≤ length text.now }
    requires few { count ≤ 4 }
    ensures { MatchOption result (¬ AreDigits (part text.now at count))
        (λ v. AreDigits (part text.now at count) × (v ≡ number_at text.now at count) × (v < 10 ^ count)) }
{
    let value = digits(bytes_at(text, at, count))?;
    Some(value as u16)
}

/// The three numbers of a text `dd.dd.dd`.
#[derive(Clone, Copy)]
struct DottedNumbers {
    first: u16,
    second: u16,
    third: u16,
}

/// The numbers of a text of two digits, a dot, two digits, a dot and two digits; none of any other
/// text.
fn dotted_numbers(text: &[u8]) -> Option<DottedNumbers>
    ensures { MatchOption result (¬ IsDotted text.now)
        (λ numbers. IsDotted text.now
        × (numbers.first ≡ number_at text.now 0 2)
        × (numbers.second ≡ number_at text.now 3 2)
        × (numbers.third ≡ number_at text.now 6 2)
        × (numbers.first < 100) × (numbers.second < 100) × (numbers.third < 100)) }
{
    if text.len() != 8 || text[2] != b'.' || text[5] != b'.' {
        return None;
    }
    let first = number_at(text, 0, 2)?;
    let second = number_at(text, 3, 2)?;
    let third = number_at(text, 6, 2)?;
    Some(DottedNumbers {
        first,
        second,
        third,
    })
}

/// The number of the month with this name, from 1 for `JAN` on; none where no month has it.
fn month_number(name: &[u8]) -> Option<u16>
    ensures { MatchOption result (month_of name.now ≡ 0) (λ month. (month ≡ month_of name.now) × (1 ≤ month) ×
        (month ≤ 12)) }
{
    match name {
        b"JAN" => Some(1),
        b"FEB" => Some(2),
        b"MAR" => Some(3),
        b"APR" => Some(4),
        b"MAY" => Some(5),
        b"JUN" => Some(6),
        b"JUL" => Some(7),
        b"AUG" => Some(8),
        b"SEP" => Some(9),
        b"OCT" => Some(10),
        b"NOV" => Some(11),
        b"DEC" => Some(12),
        _ => None,
    }
}

/// The day with this year, month and day; none where the calendar has no such day.
fn existing_day(year: u16, month: u16, day: u16) -> Option<Date>
    requires year { year ≤ 9999 }
    requires month { month < 100 }
    requires day { day < 100 }
    ensures { MatchOption result ((n : ℤ) → ¬ IsDayNumber year month day n)
        (λ date. IsYmd (pos year) (pos month) (pos day) date) }
{
    match Date::new(year as i16, month as i8, day as i8) {
        Ok(date) => Some(date),
        Err(_) => None,
    }
}

/// The year that two digits stand for: 1985 is the first, 2084 the last.
fn full_year(two_digits: u16) -> u16
    requires { two_digits < 100 }
    ensures year { result ≡ full_year two_digits }
    ensures within { result ≤ 9999 }
{
    if two_digits >= 85 {
        1900 + two_digits
    } else {
        2000 + two_digits
    }
}

/// The day that a text names, as `dotted_date`.
fn dotted_day(text: &[u8]) -> Option<Date>
    ensures { MatchOption result ((n : ℤ) → ¬ NamesDottedDay text.now n) (λ date.
        NamesDottedDay text.now (epoch_day date)) }
{
    let numbers = dotted_numbers(text)?;
    existing_day(full_year(numbers.third), numbers.second, numbers.first)
}

/// The day of the month and the month that a text names, as `dotted_day_month`.
fn day_month(text: &[u8]) -> Option<(u8, u8)>
    ensures { MatchOption result ((day month : ℕ) → ¬ NamesDayMonth text.now day month) (λ said.
        NamesDayMonth text.now said.0 said.1) }
{
    if text.len() != 8 || text[2] != b'.' || text[5] != b'.' || text[6] != b'y' || text[7] != b'y' {
        return None;
    }
    let day = number_at(text, 0, 2)?;
    let month = number_at(text, 3, 2)?;
    if day < 1 || day > 31 || month < 1 || month > 12 {
        return None;
    }
    Some((day as u8, month as u8))
}

/// The day that a text names, as `dashed_date`.
fn dashed_day(text: &[u8]) -> Option<Date>
    ensures { MatchOption result ((n : ℤ) → ¬ NamesDashedDay text.now n) (λ date.
        NamesDashedDay text.now (epoch_day date)) }
{
    if text.len() != 11 || text[2] != b'-' || text[6] != b'-' {
        return None;
    }
    let day = number_at(text, 0, 2)?;
    let month = month_number(bytes_at(text, 3, 3))?;
    let year = number_at(text, 7, 4)?;
    existing_day(year, month, day)
}

/// The second of the day that a text names, as `clock_time`.
fn clock_second(text: &[u8]) -> Option<u32>
    ensures named { MatchOption result ((second : ℕ) →
        ¬ NamesClockTime text.now second) (NamesClockTime text.now) }
    ensures small { IfSome result (λ second. second < 86400) }
{
    let DottedNumbers {
        first: hours,
        second: minutes,
        third: seconds,
    } = dotted_numbers(text)?;
    if hours > 23 || minutes > 59 || seconds > 59 {
        return None;
    }
    Some(u32::from(hours) * 3600 + u32::from(minutes) * 60 + u32::from(seconds))
}

/// The day that a text `dd.mm.yy` names: `31.12.84` is 2084-12-31 (EDF, "Header record":
/// startdate).
///
/// The years 85 to 99 are 1985 to 1999, and 00 to 84 are 2000 to 2084 (EDF+, "Additional
/// specifications in EDF+"). None where the text has another form, the letters `yy` for the year
/// included, and where there is no such day.
pub fn dotted_date(text: &[u8]) -> Option<Date>
    ensures named { MatchOption result ((n : ℤ) → ¬ NamesDottedDay text.now n) (λ date.
        NamesDottedDay text.now (epoch_day date)) }
    ensures day { option_map civil_day result ≡ dotted_day_of text.now }
{
    dotted_day(text)
}

/// The day of the month, from 1 to 31, and the month, from 1 to 12, of a text `dd.mm.yy` with the letters `yy`:
/// `31.12.yy` (EDF+, "Additional specifications in EDF+": the startdate after 2084, where only the recording
/// identification says the year).
///
/// None where the text has another form, capitals included, and where the day or the month is out of these bounds.
/// Whether some year has such a day isn't asked: `31.02.yy` is 31 and 2.
pub fn dotted_day_month(text: &[u8]) -> Option<(u8, u8)>
    ensures named { MatchOption result ((day month : ℕ) → ¬ NamesDayMonth text.now day month) (λ said.
        NamesDayMonth text.now said.0 said.1) }
    ensures value { result ≡ day_month_of text.now }
{
    day_month(text)
}

/// The day that a text `dd-MMM-yyyy` names: `29-FEB-2000` (EDF+, "Additional specifications in
/// EDF+": birthdate, and startdate in the recording identification).
///
/// The month is JAN, FEB, MAR, APR, MAY, JUN, JUL, AUG, SEP, OCT, NOV or DEC, in capitals. The
/// year is from 0000 to 9999 of the proleptic Gregorian calendar (this project's profile), in
/// which 29-FEB-0000 is a day. None where the text has another form, and where there is no such
/// day.
pub fn dashed_date(text: &[u8]) -> Option<Date>
    ensures named { MatchOption result ((n : ℤ) → ¬ NamesDashedDay text.now n) (λ date.
        NamesDashedDay text.now (epoch_day date)) }
    ensures day { option_map civil_day result ≡ dashed_day_of text.now }
{
    dashed_day(text)
}

/// The second of the day that a text `hh.mm.ss` names, from 0 for `00.00.00` to 86399 for
/// `23.59.59` (EDF, "Header record": starttime).
///
/// None where the text has another form, and where an hour is above 23, or a minute or a second
/// above 59.
#[tactic(auto, using(crate::proofs::texts::DateFacts::clock_time_read))]
pub fn clock_time(text: &[u8]) -> Option<u32>
    ensures named { MatchOption result ((second : ℕ) →
        ¬ NamesClockTime text.now second) (NamesClockTime text.now) }
    ensures value { result ≡ clock_time_of text.now }
    ensures small { IfSome result (λ second. second < 86400) }
{
    clock_second(text)
}
