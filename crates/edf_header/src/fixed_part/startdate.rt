//! The day at which a recording starts, which the header says twice: the date in the recording
//! identification, where it isn't `X`, is the startdate (EDF+, "Additional specifications in EDF+"). After 2084 the
//! startdate has no year, and the recording identification alone says it.

ghost use Rattle.std.specs.Prelude.{◌≡◌, None, Some, MatchResult, option_map};
ghost use Rattle.edf_fields.specs.Parts.{text_of};
ghost use Rattle.edf_fields.specs.texts.Dates.{civil_day};
ghost use Rattle.edf_fields.specs.Tests.{first};
ghost use Rattle.edf_fields.specs.declared.faults.fault.Place.TheVariants.{AtField};
ghost use Rattle.edf_fields.specs.declared.fields.layout.FixedField.TheVariants as fixed;
ghost use Rattle.edf_fields.specs.texts.DatesReading.{dotted_day_of, day_month_of, dashed_day_of};
ghost use Rattle.edf_fields.specs.texts.IdentificationsReading.{recording_cause, recording_of};
ghost use Rattle.edf_header.specs.HeadsReading.{late_day, startdate_of, recording_in};
ghost use Rattle.edf_header.specs.Faults.{is_same_day, has_day_month, is_same_start, start_tests, recording_fault, startdate_fault};

use crate::field::printable;
use edf_fields::{
    Cause, Fault, FieldCause, FixedField, Place, RecordingId, dashed_date, dotted_date,
    dotted_day_month, text,
};
use jiff::civil::Date;

/// The first year of which a startdate has the letters `yy` in the place of two digits.
const FIRST_LATE_YEAR: i16 = 2085;

/// The date of the recording that the field says.
fn read_date(field: &[u8]) -> Result<&[u8], FieldCause>
    ensures { MatchResult result
        (λ date. (recording_cause field.entry.now ≡ None) × (date.now ≡ (recording_in field.entry.now).date))
        (λ cause. recording_cause field.entry.now ≡ Some cause) }
{
    match RecordingId::read(field) {
        Ok(recording) => Ok(recording.date()),
        Err(cause) => Err(cause),
    }
}

/// The date of the recording that the field says, or why it says none.
#[tactic(auto, unfolding(crate::specs::Faults::recording_fault))]
pub(crate) fn recording_date(field: &[u8]) -> Result<&[u8], Fault>
    ensures { MatchResult result (λ date. (recording_fault field.entry.now ≡ None) ×
        (recording_cause field.entry.now ≡ None) × (date.now ≡ (recording_in field.entry.now).date)) (λ f.
        recording_fault field.entry.now ≡ Some f) }
{
    let place = Place::AtField(FixedField::Recording);
    printable(place, field)?;
    match read_date(field) {
        Ok(date) => Ok(date),
        Err(cause) => Err(Fault {
            place,
            cause: Cause::BadSubfields(cause),
        }),
    }
}

/// What is wrong with the startdate.
fn wrong(cause: Cause) -> Fault
    ensures place { result.place ≡ AtField fixed.Startdate }
    ensures cause { result.cause ≡ cause }
{
    Fault {
        place: Place::AtField(FixedField::Startdate),
        cause,
    }
}

/// The day of a startdate without a year: the recording date, after 2084, which has to be of this day and month.
fn late_day(recorded: Option<Date>, day: u8, month: u8) -> Result<Date, Fault>
    ensures { MatchResult result (λ d.
        (first (start_tests (late_day (option_map civil_day recorded))
        (has_day_month (day, month) (option_map civil_day recorded))) ≡ None) ×
        (late_day (option_map civil_day recorded) ≡ Some (civil_day d))) (λ f.
        first (start_tests (late_day (option_map civil_day recorded))
        (has_day_month (day, month) (option_map civil_day recorded))) ≡ Some f) }
{
    match recorded {
        Some(date) if date.year() >= FIRST_LATE_YEAR => {
            if i16::from(date.day()) != i16::from(day)
                || i16::from(date.month()) != i16::from(month)
            {
                return Err(wrong(Cause::StartdateDiffers));
            }
            Ok(date)
        }
        _ => Err(wrong(Cause::BadStart)),
    }
}

/// The day of a startdate with a year, which the recording date has to be, where that isn't `X`.
fn full_day(recorded: Option<Date>, dotted: Option<Date>) -> Result<Date, Fault>
    ensures { MatchResult result (λ d.
        (first (start_tests (option_map civil_day dotted)
        (is_same_day (option_map civil_day recorded) (option_map civil_day dotted))) ≡ None) ×
        (option_map civil_day dotted ≡ Some (civil_day d))) (λ f.
        first (start_tests (option_map civil_day dotted)
        (is_same_day (option_map civil_day recorded) (option_map civil_day dotted))) ≡ Some f) }
{
    let Some(date) = dotted else {
        return Err(wrong(Cause::BadStart));
    };
    match recorded {
        Some(day) if day != date => Err(wrong(Cause::StartdateDiffers)),
        _ => Ok(date),
    }
}

/// The day that a startdate says; `recorded` is the date in the recording identification.
fn day_of(recorded: &[u8], text: &[u8]) -> Result<Date, Fault>
    ensures { MatchResult result (λ d.
        (first (start_tests (startdate_of text.now recorded.now)
        (is_same_start (day_month_of text.now) (dotted_day_of text.now) (dashed_day_of recorded.now))) ≡
        None) × (startdate_of text.now recorded.now ≡ Some (civil_day d))) (λ f.
        first (start_tests (startdate_of text.now recorded.now)
        (is_same_start (day_month_of text.now) (dotted_day_of text.now) (dashed_day_of recorded.now))) ≡
        Some f) }
{
    match dotted_day_month(text) {
        Some((day, month)) => late_day(dashed_date(recorded), day, month),
        None => full_day(dashed_date(recorded), dotted_date(text)),
    }
}

/// The day at which the recording starts; `recorded` is the date in the recording identification.
#[tactic(auto, unfolding(crate::specs::Faults::startdate_fault))]
pub(crate) fn startdate(recorded: &[u8], field: &[u8]) -> Result<Date, Fault>
    ensures { MatchResult result (λ d. (startdate_fault recorded.now field.now ≡ None) ×
        (startdate_of (text_of field.now) recorded.now ≡ Some (civil_day d))) (λ f.
        startdate_fault recorded.now field.now ≡ Some f) }
{
    printable(Place::AtField(FixedField::Startdate), field)?;
    day_of(recorded, text(field))
}
