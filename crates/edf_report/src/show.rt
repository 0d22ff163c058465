//! What the header of a file says, line by line.

ghost use Rattle.std.specs.Prelude.{◌≡◌, ◌≢◌, ◌++◌, IfOk, IfErr, OnOk, OnErr, IsTrue, Some, string_bytes};
ghost use Rattle.edf_fields.specs.texts.Dates.{civil_day};
ghost use Rattle.edf_fields.specs.texts.IdentificationsReading.{patient_of, recording_of};
ghost use Rattle.edf_fields.specs.in_out.Sinks.{HoldsPrefix};
ghost use Rattle.edf_fields.specs.in_out.Sources.{Fails, Rises};
ghost use Rattle.edf_fields.specs.texts.SubfieldsReading.{subfields_left};
ghost use Rattle.edf_header.specs.Faults.{header_fault};
ghost use Rattle.edf_header.specs.Heads.{kind_word};
ghost use Rattle.edf_stop.specs.declared.stops.ReportStop.TheVariants as stops;
ghost use Rattle.edf_report.specs.Reports.{IsReportBy, IsReported, StopsReading};
ghost use Rattle.edf_stop.specs.Stops.{ReportStops};
ghost use Rattle.edf_report.specs.ShowTexts.{word_line, two_digits, day_text, clock_text, start_text, duration_text, course_text, extras_text, patient_text, recording_text, numbers_text, texts_text, channel_line, channels_text, head_text, show_text, IsLeftBehind, LeavesBehind};

use crate::report::Report;
use edf_fields::{PatientId, RecordingId, Sink, Source, Subfields};
use edf_header::{Header, Kind, Signal};
use edf_stop::ReportStop;
use edf_verdict::{Outcome, push_with_quoted};
use jiff::civil::Date;
use std::alloc::{AllocError, Global};
use std::fmt;

/// The last two digits of a number.
#[derive(Clone, Copy)]
struct TwoDigits(u32);

impl fmt::Display for TwoDigits {
    ghost output = { λ n. Some (two_digits n.0) };

    fn fmt<W: fmt::Write>(&self, f: &mut fmt::Formatter<W>) -> fmt::Result {
        let tens = self.0 / 10 % 10;
        let ones = self.0 % 10;
        write!(f, "{tens}{ones}")
    }
}

/// A day, as yyyy-mm-dd.
#[derive(Clone, Copy)]
struct Day(Date);

impl fmt::Display for Day {
    ghost output = { λ day. Some (day_text (civil_day day.0)) };

    #[tactic(auto, unfolding(crate::specs::ShowTexts::day_text))]
    fn fmt<W: fmt::Write>(&self, f: &mut fmt::Formatter<W>) -> fmt::Result {
        let year = self.0.year();
        let month = TwoDigits(u32::from(self.0.month().unsigned_abs()));
        let day = TwoDigits(u32::from(self.0.day().unsigned_abs()));
        write!(f, "{year}-{month}-{day}")
    }
}

/// A time of the day in seconds, as hh:mm:ss.
#[derive(Clone, Copy)]
struct ClockTime(u32);

impl fmt::Display for ClockTime {
    ghost output = { λ clock. Some (clock_text clock.0) };

    #[tactic(auto, unfolding(crate::specs::ShowTexts::clock_text))]
    fn fmt<W: fmt::Write>(&self, f: &mut fmt::Formatter<W>) -> fmt::Result {
        let hours = TwoDigits(self.0 / 3600);
        let minutes = TwoDigits(self.0 / 60 % 60);
        let seconds = TwoDigits(self.0 % 60);
        write!(f, "{hours}:{minutes}:{seconds}")
    }
}

/// The word with which the reserved field begins.
fn kind_word(kind: Kind) -> &'static str
    ensures { result.now ≡ kind_word kind }
{
    match kind {
        Kind::Contiguous => "EDF+C",
        Kind::Interrupted => "EDF+D",
    }
}

/// Puts a line of a word and a text behind the text.
#[tactic(auto, unfolding(crate::specs::ShowTexts::word_line))]
fn push_line(text: &mut Vec<u8>, word: &str, said: &[u8]) -> Result<(), AllocError>
    ensures { OnOk result (text.new.items ≡ text.old.items ++ word_line word.now said.now) }
{
    text.extend_from_slice(word.as_bytes())?;
    text.push(b' ')?;
    text.extend_from_slice(said)?;
    text.push(b'\n')?;
    Ok(())
}

/// When the recording starts.
#[tactic(auto, unfolding(crate::specs::ShowTexts::start_text))]
fn start_text(alloc: Global, header: &Header) -> Result<String, AllocError>
    ensures { IfOk result (λ text. string_bytes text ≡ start_text header.now) }
{
    let day = Day(header.start_date());
    let clock = ClockTime(header.start_clock());
    format!(in alloc; "{day} {clock}")
}

/// The duration of a data record.
fn duration_text(alloc: Global, header: &Header) -> Result<String, AllocError>
    ensures { IfOk result (λ text. string_bytes text ≡ duration_text header.now.duration) }
{
    let duration = header.duration_ps();
    format!(in alloc; "{duration} ps")
}

/// Puts when the recording starts and how its data records lie behind the text.
#[tactic(auto, unfolding(crate::specs::ShowTexts::course_text))]
fn push_course(text: &mut Vec<u8>, alloc: Global, header: &Header) -> Result<(), AllocError>
    ensures { OnOk result (text.new.items ≡ text.old.items ++ course_text header.now) }
{
    let start = start_text(alloc, header)?;
    let records = header.records().to_string(alloc)?;
    let duration = duration_text(alloc, header)?;
    push_line(text, "kind", kind_word(header.kind()).as_bytes())?;
    push_line(text, "start", start.as_bytes())?;
    push_line(text, "records", records.as_bytes())?;
    push_line(text, "duration", duration.as_bytes())
}

/// Puts a line for each additional subfield behind the text.
fn push_extras(text: &mut Vec<u8>, word: &str, extras: Subfields<'_>) -> Result<(), AllocError>
    ensures { OnOk result (text.new.items ≡ text.old.items ++
        extras_text word.now (subfields_left extras.entry)) }
{
    for extra in extras {
        push_line(text, word, extra)?;
    }
    Ok(())
}

/// Puts the subfields of the patient behind the text.
#[tactic(auto, unfolding(crate::specs::ShowTexts::patient_text))]
fn push_patient(text: &mut Vec<u8>, patient: &PatientId<'_>) -> Result<(), AllocError>
    ensures { OnOk result (text.new.items ≡ text.old.items ++ patient_text (patient_of patient.now)) }
{
    push_line(text, "code", patient.code())?;
    push_line(text, "sex", patient.sex())?;
    push_line(text, "birthdate", patient.birthdate())?;
    push_line(text, "name", patient.name())?;
    push_extras(text, "patient-extra", patient.extras())
}

/// Puts the subfields of the recording behind the text.
#[tactic(auto, unfolding(crate::specs::ShowTexts::recording_text))]
fn push_recording(text: &mut Vec<u8>, recording: &RecordingId<'_>) -> Result<(), AllocError>
    ensures { OnOk result (text.new.items ≡ text.old.items ++ recording_text (recording_of recording.now)) }
{
    push_line(text, "date", recording.date())?;
    push_line(text, "administration", recording.admin())?;
    push_line(text, "technician", recording.technician())?;
    push_line(text, "equipment", recording.equipment())?;
    push_extras(text, "recording-extra", recording.extras())
}

/// Puts how many samples a channel has in a data record, and its extremes, behind the text.
#[tactic(auto, unfolding(crate::specs::ShowTexts::numbers_text))]
fn push_numbers(text: &mut Vec<u8>, alloc: Global, signal: &Signal) -> Result<(), AllocError>
    ensures { OnOk result (text.new.items ≡ text.old.items ++
        numbers_text signal.now.samples signal.now.calibration) }
{
    let samples = signal.samples();
    let (physical_minimum, physical_maximum) = signal.calibration().physical();
    let (digital_minimum, digital_maximum) = signal.calibration().digital();
    let numbers = format!(in alloc;
        " samples {samples} physical {physical_minimum} {physical_maximum} digital {digital_minimum} {digital_maximum}"
    )?;
    text.extend_from_slice(numbers.as_bytes())
}

/// Puts the texts of a channel beside its label behind the text.
#[tactic(auto, unfolding(crate::specs::ShowTexts::texts_text))]
fn push_texts(text: &mut Vec<u8>, signal: &Signal) -> Result<(), AllocError>
    ensures { OnOk result (text.new.items ≡ text.old.items ++ texts_text signal.now) }
{
    push_with_quoted(text, " dimension ", signal.dimension())?;
    push_with_quoted(text, " transducer ", signal.transducer())?;
    push_with_quoted(text, " prefilter ", signal.prefilter())
}

/// Puts the line of a channel behind the text.
#[tactic(auto, unfolding(crate::specs::ShowTexts::channel_line))]
fn push_channel(text: &mut Vec<u8>, alloc: Global, signal: &Signal) -> Result<(), AllocError>
    ensures { OnOk result (text.new.items ≡ text.old.items ++ channel_line signal.now) }
{
    push_with_quoted(text, "channel ", signal.label())?;
    push_numbers(text, alloc, signal)?;
    push_texts(text, signal)?;
    text.push(b'\n')?;
    Ok(())
}

/// Puts the lines of the channels among the signals behind the text.
fn push_channels(text: &mut Vec<u8>, alloc: Global, signals: &[Signal]) -> Result<(), AllocError>
    ensures { OnOk result (text.new.items ≡ text.old.items ++ channels_text signals.now) }
{
    for signal in signals {
        if !signal.is_annotations() {
            push_channel(text, alloc, signal)?;
        }
    }
    Ok(())
}

/// The lines of a header.
#[tactic(auto, unfolding(crate::specs::ShowTexts::head_text))]
fn header_text(alloc: Global, header: &Header) -> Result<Vec<u8>, AllocError>
    ensures { IfOk result (λ text. text.items ≡ head_text header.now) }
{
    let mut text = Vec::new(alloc);
    push_course(&mut text, alloc, header)?;
    push_patient(&mut text, &header.patient())?;
    push_recording(&mut text, &header.recording())?;
    push_channels(&mut text, alloc, header.signals())?;
    Ok(text)
}

/// The lines of the header of a file, or that of its fault.
fn report<S: Source>(alloc: Global, source: &mut S) -> Result<Report, ReportStop>
    ensures report { IfOk result (λ r.
        IsReportBy S.Source source.old show_text header_fault r.text.items r.outcome) }
    ensures behind { IfOk result (λ report. LeavesBehind S.Source source.old source.new report.outcome) }
    ensures failures { OnOk result (S.reads source.new ≡ S.reads source.old) }
    ensures stop { IfErr result (StopsReading S.Source source.old source.new) }
{
    match Header::read(alloc, source) {
        Ok(header) => Ok(Report {
            text: header_text(alloc, &header)?,
            outcome: Outcome::Yes,
        }),
        Err(stop) => Report::of_stop(alloc, stop),
    }
}

/// Reads the header of a file, and no byte behind it, and writes what it says: the course of the recording,
/// the patient, the recording and the channels, a line each; or the first fault of the header.
///
/// Labels and the texts of channels are quoted. Durations are in picoseconds, physical extremes in units of
/// 10^-7 of the dimension. The outcome is `Yes` exactly where the header has no fault. The errors are want
/// of memory, a failed read and a failed write. Nothing is written before the header was read; where the
/// sink fails, a front of the text was written.
pub fn show_to<S: Source, K: Sink>(
    alloc: Global,
    source: &mut S,
    sink: &mut K,
) -> Result<Outcome, ReportStop>
    ensures written { IfOk result (λ outcome. IsTrue (S.is_honest source.old) →
        IsTrue (K.is_honest sink.old) →
        IsReported (show_text (S.left source.old)) (header_fault (S.left source.old)) (K.held sink.old)
        (K.held sink.new) outcome) }
    ensures behind { IfOk result (λ outcome. IsTrue (S.is_honest source.old) →
        IsLeftBehind (S.left source.old) (S.left source.new) outcome) }
    ensures nothing { IfErr result (λ stop. stop ≢ stops.WriteFailed → sink.new ≡ sink.old) }
    ensures part { OnErr result (IsTrue (S.is_honest source.old) → IsTrue (K.is_honest sink.old) →
        HoldsPrefix (K.held sink.old) (K.held sink.new) (show_text (S.left source.old))) }
    ensures reads { OnOk result (S.reads source.new ≡ S.reads source.old) }
    ensures failures { OnOk result (K.failures sink.new ≡ K.failures sink.old) }
    ensures honesty { IsTrue (K.is_honest sink.old) → IsTrue (K.is_honest sink.new) }
    ensures stop { IfErr result (ReportStops (Fails (S.reads source.old) (S.reads source.new))
        (Rises (K.failures sink.old) (K.failures sink.new)) (S.reads source.new ≡ S.reads source.old)) }
{
    let report = report(alloc, source)?;
    report.put(sink)
}
