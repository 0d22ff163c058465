//! The fixed part of a header: its fields in order, each with the first fault of its text.

ghost use Rattle.std.specs.Prelude.{◌≡◌, ◌*◌, ◌+◌, ◌≤◌, ◌<◌, ◌^◌, ◌≤ℤ◌, ◌*ℤ◌, ◌||◌, ℤ, pos, take, length, None, Some, codes, MatchOption, MatchResult, option_map, unwrap_or, unsigned_abs};
ghost use Rattle.std.specs.Str.{bytes_eq};
ghost use Rattle.jiff.specs.Words.{epoch_day};
ghost use Rattle.edf_fields.specs.Parts.{text_of};
ghost use Rattle.edf_fields.specs.texts.NumbersReading.{whole_number_of, header_number_of};
ghost use Rattle.edf_fields.specs.texts.Dates.{civil_day};
ghost use Rattle.edf_fields.specs.texts.DatesReading.{clock_time_of};
ghost use Rattle.edf_fields.specs.texts.IdentificationsReading.{patient_cause, recording_cause, recording_of};
ghost use Rattle.edf_fields.specs.declared.faults.fault.Place.TheVariants.{AtField};
ghost use Rattle.edf_fields.specs.declared.faults.fault.Cause.TheVariants.{Truncated};
ghost use Rattle.edf_header.specs.HeaderParts.{IsFixed};
ghost use Rattle.edf_fields.specs.fields.LayoutReading.{fixed_fields};
ghost use Rattle.edf_header.specs.HeadsReading.{first_day, kind_of, recording_in};
ghost use Rattle.edf_header.specs.Judged.{SaysStart, SaysExtent};
ghost use Rattle.edf_header.specs.Faults.{fixed_missing, start_faults, extent_faults, fixed_fault, version_fault, patient_fault, recording_fault, startdate_fault, starttime_fault, header_bytes_fault, reserved_fault, records_fault, duration_fault, signals_fault, header_size_fault};
ghost use Rattle.edf_fields.specs.Tests.{first};

use crate::field::{count, positive, printable, some_number};
use crate::fixed_part::startdate::{recording_date, startdate};
use crate::kind::Kind;
use edf_fields::{
    Cause, Fault, FixedField, PatientId, Place, clock_time, fixed_field, header_number,
    header_whole, text,
};
use jiff::civil::Date;

/// The fields of the fixed part, in file order.
const FIXED: [FixedField; 10] = [
    FixedField::Version,
    FixedField::Patient,
    FixedField::Recording,
    FixedField::Startdate,
    FixedField::Starttime,
    FixedField::HeaderBytes,
    FixedField::Reserved,
    FixedField::Records,
    FixedField::Duration,
    FixedField::Signals,
];

/// When the recording starts.
#[derive(Clone, Copy)]
pub(crate) struct RecordingStart {
    pub date: Date,
    /// The day's number, 0 for 1970-01-01.
    pub days: i32,
    /// The second of the day.
    pub clock: u32,
}

/// What the fixed part says of the data records.
#[derive(Clone, Copy)]
pub(crate) struct Extent {
    pub kind: Kind,
    pub records: u32,
    /// Of each data record, in picoseconds.
    pub duration_ps: i128,
    pub signals: u16,
}

/// What the fixed part says.
#[derive(Clone, Copy)]
pub(crate) struct Fixed {
    pub start: RecordingStart,
    pub extent: Extent,
}

/// Whether the version is 0.
#[tactic(auto, unfolding(crate::specs::Faults::version_fault))]
fn version(field: &[u8]) -> Result<(), Fault>
    ensures { MatchResult result (λ _. version_fault field.now ≡ None) (λ f. version_fault field.now ≡
        Some f) }
{
    let place = Place::AtField(FixedField::Version);
    printable(place, field)?;
    if text(field) == b"0".as_slice() {
        return Ok(());
    }
    Err(Fault {
        place,
        cause: Cause::BadVersion,
    })
}

/// Whether the field says a patient.
#[tactic(auto, unfolding(crate::specs::Faults::patient_fault))]
fn patient(field: &[u8]) -> Result<(), Fault>
    ensures { MatchResult result (λ _. (patient_fault field.now ≡ None) ×
        (patient_cause field.now ≡ None)) (λ f. patient_fault field.now ≡ Some f) }
{
    let place = Place::AtField(FixedField::Patient);
    printable(place, field)?;
    match PatientId::read(field) {
        Ok(_) => Ok(()),
        Err(cause) => Err(Fault {
            place,
            cause: Cause::BadSubfields(cause),
        }),
    }
}

/// The second of the day at which the recording starts.
#[tactic(auto, unfolding(crate::specs::Faults::starttime_fault))]
fn starttime(field: &[u8]) -> Result<u32, Fault>
    ensures { MatchResult result (λ v. (starttime_fault field.now ≡ None) ×
        (unwrap_or (clock_time_of (text_of field.now)) 0 ≡ v) ×
        (v < 86400)) (λ f. starttime_fault field.now ≡ Some f) }
{
    let place = Place::AtField(FixedField::Starttime);
    printable(place, field)?;
    match clock_time(text(field)) {
        Some(second) => Ok(second),
        None => Err(Fault {
            place,
            cause: Cause::BadStart,
        }),
    }
}

/// The field that tells how many bytes the header has: whether it spells a whole number.
#[tactic(auto, unfolding(crate::specs::Faults::header_bytes_fault))]
fn header_bytes(field: &[u8]) -> Result<i64, Fault>
    ensures { MatchResult result (λ v. (header_bytes_fault field.now ≡ None) ×
        (whole_number_of field.now ≡ Some v)) (λ f. header_bytes_fault field.now ≡ Some f) }
{
    let place = Place::AtField(FixedField::HeaderBytes);
    printable(place, field)?;
    some_number(place, header_whole(field))
}

/// Whether data records follow one another without a gap.
#[tactic(auto, unfolding(crate::specs::Faults::reserved_fault))]
fn kind(field: &[u8]) -> Result<Kind, Fault>
    requires { 5 ≤ length field.now }
    ensures { MatchResult result (λ v. (reserved_fault field.now ≡ None) × (kind_of field.now ≡ v)) (λ f.
        reserved_fault field.now ≡ Some f) }
{
    let place = Place::AtField(FixedField::Reserved);
    printable(place, field)?;
    let word = &field[..5];
    if word == b"EDF+C".as_slice() {
        Ok(Kind::Contiguous)
    } else if word == b"EDF+D".as_slice() {
        Ok(Kind::Interrupted)
    } else {
        Err(Fault {
            place,
            cause: Cause::NotEdfPlus,
        })
    }
}

/// How many data records there are: a whole number from 1 on.
#[tactic(auto, unfolding(crate::specs::Faults::records_fault))]
fn records(field: &[u8]) -> Result<u32, Fault>
    requires { length field.now ≤ 8 }
    ensures { MatchResult result (λ v. (records_fault field.now ≡ None) ×
        (whole_number_of field.now ≡ Some (pos v)) × (1 ≤ v) ×
        (v < 10 ^ 8)) (λ f. records_fault field.now ≡ Some f) }
{
    let place = Place::AtField(FixedField::Records);
    printable(place, field)?;
    count(place, field)
}

/// The duration of a data record in units of 10^-7 s, greater than 0.
#[tactic(auto, unfolding(crate::specs::Faults::duration_fault))]
fn duration(field: &[u8]) -> Result<i64, Fault>
    ensures { MatchResult result (λ v. (duration_fault field.now ≡ None) ×
        (unwrap_or (header_number_of field.now) (pos 0) ≡ v) × (pos 1 ≤ℤ v) ×
        (unsigned_abs v < 10 ^ 15)) (λ f. duration_fault field.now ≡ Some f) }
{
    let place = Place::AtField(FixedField::Duration);
    printable(place, field)?;
    positive(place, header_number(field))
}

/// How many signals there are: a whole number from 1 on.
#[tactic(auto, unfolding(crate::specs::Faults::signals_fault))]
fn signals(field: &[u8]) -> Result<u16, Fault>
    requires { length field.now ≤ 4 }
    ensures { MatchResult result (λ v. (signals_fault field.now ≡ None) ×
        (whole_number_of field.now ≡ Some (pos v)) × (1 ≤ v) ×
        (v < 10 ^ 4)) (λ f. signals_fault field.now ≡ Some f) }
{
    let place = Place::AtField(FixedField::Signals);
    printable(place, field)?;
    let number = positive(place, header_whole(field))?;
    Ok(number as u16)
}

/// Whether the header has the size that its signals need.
#[tactic(auto, unfolding(crate::specs::Faults::header_size_fault))]
fn header_size(signals: u16, field: &[u8], size: i64) -> Result<(), Fault>
    requires { whole_number_of field.now ≡ Some size }
    ensures { MatchResult result (λ _. header_size_fault signals field.now ≡ None) (λ f.
        header_size_fault signals field.now ≡ Some f) }
{
    if size == 256 * (i64::from(signals) + 1) {
        return Ok(());
    }
    Err(Fault {
        place: Place::AtField(FixedField::HeaderBytes),
        cause: Cause::BadHeaderSize,
    })
}

/// A duration in units of 10^-7 s, in picoseconds.
fn in_picoseconds(units: i64) -> i128
    ensures { result ≡ units *ℤ pos 100000 }
{
    i128::from(units) * 100_000
}

/// Who and what was recorded, and when: the fields up to the starttime, or their first fault.
fn judge_start(front: &[u8]) -> Result<RecordingStart, Fault>
    requires { 256 ≤ length front.now }
    ensures { MatchResult result
        (λ v. (first (start_faults front.now) ≡ None) × SaysStart front.now v)
        (λ f. first (start_faults front.now) ≡ Some f) }
{
    version(fixed_field(front, FixedField::Version))?;
    patient(fixed_field(front, FixedField::Patient))?;
    let recorded = recording_date(fixed_field(front, FixedField::Recording))?;
    let date = startdate(recorded, fixed_field(front, FixedField::Startdate))?;
    let clock = starttime(fixed_field(front, FixedField::Starttime))?;
    let days = date.to_plain().to_unix_epoch_day();
    Ok(RecordingStart { date, days, clock })
}

/// How the file goes on: the fields behind the starttime, or their first fault.
fn judge_extent(front: &[u8]) -> Result<Extent, Fault>
    requires { 256 ≤ length front.now }
    ensures { MatchResult result
        (λ v. (first (extent_faults front.now) ≡ None) × SaysExtent front.now v)
        (λ f. first (extent_faults front.now) ≡ Some f) }
{
    let size_field = fixed_field(front, FixedField::HeaderBytes);
    let size = header_bytes(size_field)?;
    let kind = kind(fixed_field(front, FixedField::Reserved))?;
    let records = records(fixed_field(front, FixedField::Records))?;
    let duration = duration(fixed_field(front, FixedField::Duration))?;
    let signals = signals(fixed_field(front, FixedField::Signals))?;
    header_size(signals, size_field, size)?;
    Ok(Extent {
        kind,
        records,
        duration_ps: in_picoseconds(duration),
        signals,
    })
}

/// The first of these fields of which a byte is missing, where there are `len` bytes.
fn missing_in(fields: &[FixedField], len: usize) -> Option<FixedField>
    ensures { MatchOption result (first (fixed_missing fields.now len) ≡ None) (λ field.
        first (fixed_missing fields.now len) ≡ Some (record { place = AtField field; cause = Truncated })) }
{
    for field in fields {
        let (from, count) = field.extent();
        if len < from + count {
            return Some(*field);
        }
    }
    None
}

/// The field of the first missing byte of the fixed part, of which there are `len` bytes.
#[tactic(auto, using(crate::proofs::fixed_part::FixedFacts::part_whole))]
fn missing_field(len: usize) -> Option<FixedField>
    ensures { MatchOption result ((first (fixed_missing fixed_fields len) ≡ None) ×
        (256 ≤ len)) (λ field. first (fixed_missing fixed_fields len) ≡
        Some (record { place = AtField field; cause = Truncated })) }
{
    missing_in(&FIXED, len)
}

/// What the fixed part says, or its first fault; of a file that is shorter, `front` is all of it.
pub(crate) fn judge_fixed(front: &[u8]) -> Result<Fixed, Fault>
    ensures { MatchResult result
        (IsFixed front.now)
        (λ f. fixed_fault front.now ≡ Some f) }
{
    if let Some(field) = missing_field(front.len()) {
        return Err(Fault {
            place: Place::AtField(field),
            cause: Cause::Truncated,
        });
    }
    let start = judge_start(front)?;
    let extent = judge_extent(front)?;
    Ok(Fixed { start, extent })
}
