//! The header of a file.

ghost use Rattle.std.specs.Prelude.{◌≡◌, ◌<◌, ◌≤◌, ◌≤ℤ◌, ◌^◌, ◌*ℤ◌, ◌+ℤ◌, pos, unsigned_abs};
ghost use Rattle.edf_fields.specs.texts.Dates.{civil_day};
ghost use Rattle.edf_fields.specs.texts.IdentificationsReading.{patient_of, recording_of};
ghost use Rattle.edf_header.specs.Heads.{record_bytes};
ghost use Rattle.edf_header.specs.HeadsReading.{start_second};
ghost use Rattle.edf_header.specs.signals.Lanes.{annotation_places};
ghost use Rattle.edf_header.specs.Sound.{IsSound};

use crate::fixed_part::fixed::{Extent, RecordingStart};
use crate::in_columns::judge_columns::Body;
use crate::kind::Kind;
use crate::signals::lane_place::LanePlace;
use crate::signals::signal::Signal;
use edf_fields::{FixedField, PatientId, RecordingId, fixed_field, text};
use jiff::civil::Date;
use std::marker::Model;

/// The header of a file of the profile (EDF, "Header record"; EDF+, "The EDF+ header").
///
/// Every header is sound (`IsSound`): its channels have distinct labels, there is one at least and an
/// annotation signal, extremes are in order and in range, and so on. Who holds one needs no premise;
/// `signals` hands this out as a clause.
#[derive(Drop)]
pub struct Header {
    pub(crate) front: Vec<u8>,
    pub(crate) start: RecordingStart,
    pub(crate) extent: Extent,
    pub(crate) body: Body,
}

impl Model for Header {
    ghost use Rattle.std.specs.Prelude.{◌≡◌};
    ghost use Rattle.edf_header.specs.Heads.{Head};
    ghost use Rattle.edf_header.specs.signals.Lanes.{annotation_places};
    ghost use Rattle.edf_header.specs.Views.{head_view, IsKept};

    ghost Value = { Head };

    ghost view = { λ h. head_view h.front.items h.start h.extent h.body.signals.items };

    ghost invariant = { λ h. IsKept h.front.items h.start h.extent h.body.signals.items h.body.record_bytes
        × (h.body.annotations.items ≡ annotation_places h.body.signals.items) };
}

/// The seconds of so many days.
fn seconds_of_days(days: i32) -> i64
    requires { unsigned_abs days < 5000000 }
    ensures value { result ≡ pos 86400 *ℤ days }
    ensures small { unsigned_abs result ≤ 432000000000 }
{
    86_400 * i64::from(days)
}

/// The second that is so many days and seconds behind 1970-01-01 00:00:00.
fn second_of(days: i32, clock: u32) -> i64
    requires near { unsigned_abs days < 5000000 }
    requires early { clock < 86400 }
    ensures value { result ≡ (pos 86400 *ℤ days) +ℤ pos clock }
    ensures small { unsigned_abs result < 2 ^ 39 }
{
    seconds_of_days(days) + i64::from(clock)
}

impl Header {
    /// The day at which the recording starts (EDF, "Header record": startdate; EDF+, "The EDF+ header").
    pub fn start_date(&self) -> Date
        ensures { civil_day result ≡ self.now.day }
    {
        self.start.date
    }

    /// The time of day at which the recording starts, in seconds (EDF, "Header record": starttime).
    pub fn start_clock(&self) -> u32
        ensures value { result ≡ self.now.clock }
        ensures small { result < 86400 }
    {
        self.start.clock
    }

    /// The second at which the recording starts, 0 for 1970-01-01 00:00:00: civil time, without a time
    /// zone (EDF, "Header record": startdate and starttime).
    pub fn start_second(&self) -> i64
        ensures value { result ≡ start_second self.now }
        ensures small { unsigned_abs result < 2 ^ 39 }
    {
        second_of(self.start.days, self.start.clock)
    }

    /// Whether the data records follow one another without a gap (EDF+, "The EDF+ header": `EDF+C` or
    /// `EDF+D`).
    pub fn kind(&self) -> Kind
        ensures { result ≡ self.now.kind }
    {
        self.extent.kind
    }

    /// How many data records the header announces (EDF, "Header record").
    pub fn records(&self) -> u32
        ensures { result ≡ self.now.records }
    {
        self.extent.records
    }

    /// The duration of each data record in picoseconds (EDF, "Header record": in seconds), at least 1.
    pub fn duration_ps(&self) -> i128
        ensures value { result ≡ self.now.duration }
        ensures some { pos 1 ≤ℤ result }
        ensures small { unsigned_abs result < 10 ^ 20 }
    {
        self.extent.duration_ps
    }

    /// How many bytes each data record has: two for each sample of each signal (EDF, "Data record").
    pub fn record_bytes(&self) -> usize
        ensures { result ≡ record_bytes self.now }
    {
        self.body.record_bytes as usize
    }

    /// The free text of the reserved field, behind `EDF+C` or `EDF+D` (EDF+, "The EDF+ header").
    pub fn free(&self) -> &[u8]
        ensures { result.now ≡ self.entry.now.free }
    {
        text(&fixed_field(&self.front, FixedField::Reserved)[5..])
    }

    /// The patient (EDF+, "Additional specifications in EDF+": local patient identification).
    pub fn patient(&self) -> PatientId<'_>
        ensures { patient_of result ≡ self.entry.now.patient }
    {
        PatientId::of_judged(fixed_field(&self.front, FixedField::Patient))
    }

    /// The recording (EDF+, "Additional specifications in EDF+": local recording identification).
    pub fn recording(&self) -> RecordingId<'_>
        ensures { recording_of result ≡ self.entry.now.recording }
    {
        RecordingId::of_judged(fixed_field(&self.front, FixedField::Recording))
    }

    /// The signals, in file order (EDF, "Header record"). The clause `sound` says what holds of every
    /// header.
    pub fn signals(&self) -> &[Signal]
        ensures signals { result.now ≡ self.entry.now.signals }
        ensures sound { IsSound self.entry.now }
    {
        &self.body.signals
    }

    /// Where the lanes of the signals that hold annotations lie in each data record, in file order (EDF,
    /// "Data record"; EDF+, "The 'EDF Annotations' signal").
    pub fn annotation_places(&self) -> &[LanePlace]
        ensures { result.now ≡ annotation_places self.entry.now.signals }
    {
        &self.body.annotations
    }
}
