//! What the header of a file says, for a person to read.

ghost use Rattle.std.specs.Prelude.{◌<◌, ◌^◌, unsigned_abs};

use crate::words;
use edf_fields::{PatientId, RecordingId, SECOND_PS, Subfields};
use edf_header::{Header, Kind, Signal};
use edf_recording::Recorded;
use edf_sentences::{Piece, Text};
use std::alloc::AllocError;

/// When a file starts, in picoseconds after 1970-01-01 00:00:00.
pub(crate) fn start_ps(header: &Header) -> i128
    ensures { unsigned_abs result < 2 ^ 80 }
{
    i128::from(header.start_second()) * SECOND_PS
}

/// Says when the recording starts and ends, and how its data records lie.
fn say_course(text: &mut Text, recorded: &Recorded) -> Result<(), AllocError> {
    let header = recorded.reader.header();
    let start = start_ps(header);
    let end = recorded.reader.read_to_ps();
    let first = recorded.times.begin_ps - start;
    let kind = match header.kind() {
        Kind::Contiguous => words::CONTIGUOUS,
        Kind::Interrupted => words::INTERRUPTED,
    };
    text.say(kind, &[])?;
    text.say(words::START, &[Piece::Moment(start)])?;
    if first != 0 {
        text.say(words::FIRST, &[Piece::Seconds(first)])?;
    }
    text.say(
        words::END,
        &[Piece::Moment(start + end), Piece::Seconds(end)],
    )?;
    let (records, duration) = (i128::from(header.records()), header.duration_ps());
    text.say(
        words::RECORDS,
        &[Piece::Number(records), Piece::Seconds(duration)],
    )
}

/// Says a subfield.
fn say_subfield(text: &mut Text, name: &str, said: &[u8]) -> Result<(), AllocError> {
    text.say(words::SUBFIELD, &[Piece::Word(name), Piece::Plain(said)])
}

/// Says additional subfields, a line for each.
fn say_extras(text: &mut Text, name: &str, extras: Subfields<'_>) -> Result<(), AllocError> {
    for extra in extras {
        say_subfield(text, name, extra)?;
    }
    Ok(())
}

/// Says the subfields of the patient.
fn say_patient(text: &mut Text, patient: &PatientId<'_>) -> Result<(), AllocError> {
    say_subfield(text, "code", patient.code())?;
    say_subfield(text, "sex", patient.sex())?;
    say_subfield(text, "birthdate", patient.birthdate())?;
    say_subfield(text, "name", patient.name())?;
    say_extras(text, "patient-extra", patient.extras())
}

/// Says the subfields of the recording.
fn say_recording(text: &mut Text, recording: &RecordingId<'_>) -> Result<(), AllocError> {
    say_subfield(text, "date", recording.date())?;
    say_subfield(text, "administration", recording.admin())?;
    say_subfield(text, "technician", recording.technician())?;
    say_subfield(text, "equipment", recording.equipment())?;
    say_extras(text, "recording-extra", recording.extras())
}

/// Says a channel: its label, how many samples it has in a data record, its extremes and its texts.
fn say_channel(text: &mut Text, signal: &Signal) -> Result<(), AllocError> {
    let (low, high) = signal.calibration().physical();
    let (least, most) = signal.calibration().digital();
    text.say(
        words::CHANNEL,
        &[
            Piece::Quoted(signal.label()),
            Piece::Number(i128::from(signal.samples())),
            Piece::Number(i128::from(least)),
            Piece::Number(i128::from(most)),
            Piece::Decimal(low),
            Piece::Decimal(high),
            Piece::Quoted(signal.dimension()),
        ],
    )?;
    text.say(
        words::CHANNEL_TEXTS,
        &[
            Piece::Quoted(signal.transducer()),
            Piece::Quoted(signal.prefilter()),
        ],
    )
}

/// Says the channels among the signals.
fn say_channels(text: &mut Text, signals: &[Signal]) -> Result<(), AllocError> {
    for signal in signals {
        if !signal.is_annotations() {
            say_channel(text, signal)?;
        }
    }
    Ok(())
}

/// Says what the header says, and when the recording ends.
pub(crate) fn say_head(text: &mut Text, recorded: &Recorded) -> Result<(), AllocError> {
    let header = recorded.reader.header();
    say_course(text, recorded)?;
    text.say(words::EMPTY_LINE, &[])?;
    say_patient(text, &header.patient())?;
    say_recording(text, &header.recording())?;
    text.say(words::EMPTY_LINE, &[])?;
    say_channels(text, header.signals())
}
