//! The places of a header that aren't in plain form, a line each.

ghost use Rattle.std.specs.Prelude.{◌≡◌, ◌≤◌, ◌<◌, ◌++◌, length, map, nat_lt, IfOk, OnOk};
ghost use Rattle.edf_fields.specs.FaultTexts.{place_text};
ghost use Rattle.edf_fields.specs.declared.fields.layout.FixedField.TheVariants as fixed;
ghost use Rattle.edf_fields.specs.declared.faults.fault.Place.TheVariants.{AtField, AtSignal};
ghost use Rattle.edf_fields.specs.texts.SubfieldsReading.{subfields_left};
ghost use Rattle.edf_layout.specs.HeadLayouts.{signal_text, signal_layout, signal_layouts, front_layout, layout_in};
ghost use Rattle.edf_layout.specs.OddPlaces.{odd_line, odd_number, odd_space, odd_spaces, untold, words_if, odd_extras, odd_signal, odd_signals, odd_numbers, odd_identification, odd_front, odd_places};
ghost use Rattle.edf_layout.specs.RawSignals.{AreRaw};

use crate::plain_number::is_plain_number;
use crate::signal_fields::{RawSignals, fixed_text};
use crate::spaces::spaces_of;
use edf_fields::{FixedField, NOT_TOLD, Place, SignalField, Subfields};
use edf_header::Header;
use std::alloc::{AllocError, Global};

/// Lines, without the byte 10 at the end of each.
pub type Lines = Vec<Vec<u8>>;

/// The line of a place.
#[tactic(auto, unfolding(crate::specs::OddPlaces::odd_line))]
fn odd_line(alloc: Global, place: Place, words: &[u8]) -> Result<Vec<u8>, AllocError>
    ensures { IfOk result (λ line. line.items ≡ odd_line place words.now) }
{
    let front = format!(in alloc; "not plain: {place}")?;
    let mut line = front.into_bytes();
    line.extend_from_slice(words)?;
    Ok(line)
}

/// Puts the line of a number behind the lines, where it isn't spelled in its plain way.
#[tactic(auto, unfolding(crate::specs::OddPlaces::odd_number))]
fn push_odd_number(
    lines: &mut Lines,
    alloc: Global,
    place: Place,
    text: &[u8],
) -> Result<(), AllocError>
    ensures { OnOk result (map (λ v. v.items) lines.new.items ≡
        map (λ v. v.items) lines.old.items ++ odd_number place text.now) }
{
    if !is_plain_number(text) {
        let mut words = Vec::new(alloc);
        words.extend_from_slice(" spells ".as_bytes())?;
        words.extend_from_slice(text)?;
        lines.push(odd_line(alloc, place, &words)?)?;
    }
    Ok(())
}

/// Puts the line of spaces behind a subfield behind the lines, where it isn't one.
fn push_odd_space(
    lines: &mut Lines,
    alloc: Global,
    field: FixedField,
    subfield: usize,
    count: usize,
) -> Result<(), AllocError>
    ensures { OnOk result (map (λ v. v.items) lines.new.items ≡
        map (λ v. v.items) lines.old.items ++ odd_space field subfield count) }
{
    if count != 1 {
        let words = format!(in alloc; " has {count} spaces behind subfield {subfield}")?;
        lines.push(odd_line(alloc, Place::AtField(field), words.as_bytes())?)?;
    }
    Ok(())
}

/// Puts the lines of spaces that aren't one behind the lines.
fn push_odd_spaces(
    lines: &mut Lines,
    alloc: Global,
    field: FixedField,
    counts: &[usize],
) -> Result<(), AllocError>
    ensures { OnOk result (map (λ v. v.items) lines.new.items ≡
        map (λ v. v.items) lines.old.items ++ odd_spaces field 1 counts.now) }
{
    for (at, count) in counts.iter().enumerate() {
        push_odd_space(lines, alloc, field, at + 1, *count)?;
    }
    Ok(())
}

/// Puts the lines of the numbers of the fixed part that aren't spelled in their plain way behind the lines.
#[tactic(auto, unfolding(crate::specs::OddPlaces::odd_numbers))]
fn push_odd_numbers(lines: &mut Lines, alloc: Global, front: &[u8]) -> Result<(), AllocError>
    requires { 256 ≤ length front.now }
    ensures { OnOk result (map (λ v. v.items) lines.new.items ≡
        map (λ v. v.items) lines.old.items ++ odd_numbers (front_layout front.now)) }
{
    let size = FixedField::HeaderBytes;
    push_odd_number(lines, alloc, Place::AtField(size), fixed_text(front, size))?;
    let records = FixedField::Records;
    push_odd_number(
        lines,
        alloc,
        Place::AtField(records),
        fixed_text(front, records),
    )?;
    let duration = FixedField::Duration;
    push_odd_number(
        lines,
        alloc,
        Place::AtField(duration),
        fixed_text(front, duration),
    )?;
    let signals = FixedField::Signals;
    push_odd_number(
        lines,
        alloc,
        Place::AtField(signals),
        fixed_text(front, signals),
    )
}

/// Puts the line of a number of a signal behind the lines, where it isn't spelled in its plain way.
fn push_odd_field(
    lines: &mut Lines,
    alloc: Global,
    signals: RawSignals<'_>,
    signal: usize,
    field: SignalField,
) -> Result<(), AllocError>
    requires raw { AreRaw signals }
    requires there { signal < signals.count }
    ensures { OnOk result (map (λ v. v.items) lines.new.items ≡ map (λ v. v.items) lines.old.items ++
        odd_number (AtSignal signal field)
        (signal_text signals.entry.columns.now signals.entry.count signal field)) }
{
    let place = Place::AtSignal(signal as u16, field);
    push_odd_number(lines, alloc, place, signals.text(signal, field))
}

/// Puts the lines of the numbers of a signal that aren't spelled in their plain way behind the lines.
#[tactic(auto, unfolding(crate::specs::OddPlaces::odd_signal))]
fn push_odd_signal(
    lines: &mut Lines,
    alloc: Global,
    signals: RawSignals<'_>,
    signal: usize,
) -> Result<(), AllocError>
    requires raw { AreRaw signals }
    requires there { signal < signals.count }
    ensures { OnOk result (map (λ v. v.items) lines.new.items ≡ map (λ v. v.items) lines.old.items ++
        odd_signal signal (signal_layout signals.entry.columns.now signals.entry.count signal)) }
{
    push_odd_field(lines, alloc, signals, signal, SignalField::PhysicalMinimum)?;
    push_odd_field(lines, alloc, signals, signal, SignalField::PhysicalMaximum)?;
    push_odd_field(lines, alloc, signals, signal, SignalField::DigitalMinimum)?;
    push_odd_field(lines, alloc, signals, signal, SignalField::DigitalMaximum)?;
    push_odd_field(lines, alloc, signals, signal, SignalField::Samples)
}

/// Puts the lines of the numbers of signals that aren't spelled in their plain way behind the lines.
fn push_odd_signals(
    lines: &mut Lines,
    alloc: Global,
    signals: RawSignals<'_>,
) -> Result<(), AllocError>
    requires { AreRaw signals }
    ensures { OnOk result (map (λ v. v.items) lines.new.items ≡ map (λ v. v.items) lines.old.items ++
        odd_signals 0 (signal_layouts signals.entry.columns.now signals.entry.count 0 signals.entry.count)) }
{
    for signal in 0..signals.count {
        push_odd_signal(lines, alloc, signals, signal)?;
    }
    Ok(())
}

/// Whether more than one of the additional subfields is `X`.
fn are_untold(extras: Subfields<'_>) -> bool
    ensures { result ≡ nat_lt 1 (untold (subfields_left extras.entry)) }
{
    let mut seen = false;
    for extra in extras {
        if extra == NOT_TOLD {
            if seen {
                return true;
            }
            seen = true;
        }
    }
    false
}

/// Puts the line of these words on a field behind the lines, if they are to be said.
fn push_words_if(
    lines: &mut Lines,
    alloc: Global,
    field: FixedField,
    is_said: bool,
    words: &str,
) -> Result<(), AllocError>
    ensures { OnOk result (map (λ v. v.items) lines.new.items ≡ map (λ v. v.items) lines.old.items ++
        words_if is_said (AtField field) words.now) }
{
    if is_said {
        lines.push(odd_line(alloc, Place::AtField(field), words.as_bytes())?)?;
    }
    Ok(())
}

/// Puts the line of additional subfields behind the lines, where more than one is `X`.
fn push_odd_extras(
    lines: &mut Lines,
    alloc: Global,
    field: FixedField,
    extras: Subfields<'_>,
) -> Result<(), AllocError>
    ensures { OnOk result (map (λ v. v.items) lines.new.items ≡
        map (λ v. v.items) lines.old.items ++ odd_extras field (subfields_left extras.entry)) }
{
    push_words_if(
        lines,
        alloc,
        field,
        are_untold(extras),
        " has more than one additional subfield X",
    )
}

/// Puts the lines of an identification with these additional subfields behind the lines.
#[tactic(auto, unfolding(crate::specs::OddPlaces::odd_identification))]
fn push_odd_identification(
    lines: &mut Lines,
    alloc: Global,
    field: FixedField,
    counts: &[usize],
    extras: Subfields<'_>,
) -> Result<(), AllocError>
    ensures { OnOk result (map (λ v. v.items) lines.new.items ≡
        map (λ v. v.items) lines.old.items ++
        odd_identification field counts.now (subfields_left extras.entry)) }
{
    push_odd_spaces(lines, alloc, field, counts)?;
    push_odd_extras(lines, alloc, field, extras)
}

/// Puts the lines of the two identifications behind the lines.
fn push_odd_identifications(
    lines: &mut Lines,
    alloc: Global,
    front: &[u8],
    header: &Header,
) -> Result<(), AllocError>
    requires { 256 ≤ length front.now }
    ensures { OnOk result (map (λ v. v.items) lines.new.items ≡ map (λ v. v.items) lines.old.items ++
        (odd_identification fixed.Patient (front_layout front.now).patient_spaces
        header.now.patient.extras ++
        odd_identification fixed.Recording (front_layout front.now).recording_spaces
        header.now.recording.extras)) }
{
    let patient = spaces_of(alloc, fixed_text(front, FixedField::Patient))?;
    push_odd_identification(
        lines,
        alloc,
        FixedField::Patient,
        &patient,
        header.patient().extras(),
    )?;
    let recording = spaces_of(alloc, fixed_text(front, FixedField::Recording))?;
    push_odd_identification(
        lines,
        alloc,
        FixedField::Recording,
        &recording,
        header.recording().extras(),
    )
}

/// Puts a line for each place of the fixed part that isn't in plain form behind the lines.
#[tactic(auto, unfolding(crate::specs::OddPlaces::odd_front))]
fn push_odd_front(
    lines: &mut Lines,
    alloc: Global,
    front: &[u8],
    header: &Header,
) -> Result<(), AllocError>
    requires { 256 ≤ length front.now }
    ensures { OnOk result (map (λ v. v.items) lines.new.items ≡ map (λ v. v.items) lines.old.items ++
        odd_front (front_layout front.now) header.now.patient.extras header.now.recording.extras) }
{
    push_odd_identifications(lines, alloc, front, header)?;
    push_odd_numbers(lines, alloc, front)
}

/// Puts a line for each place of a header that isn't in plain form behind the lines; `front` is its fixed part.
///
/// The error is want of memory.
#[tactic(auto, unfolding(crate::specs::OddPlaces::odd_places))]
pub fn push_odd_places(
    lines: &mut Lines,
    alloc: Global,
    front: &[u8],
    signals: RawSignals<'_>,
    header: &Header,
) -> Result<(), AllocError>
    requires front { 256 ≤ length front.now }
    requires signals { AreRaw signals }
    ensures { OnOk result (map (λ v. v.items) lines.new.items ≡ map (λ v. v.items) lines.old.items ++
        odd_places (layout_in front.now signals.entry.count signals.entry.columns.now)
        header.now.patient.extras header.now.recording.extras) }
{
    push_odd_front(lines, alloc, front, header)?;
    push_odd_signals(lines, alloc, signals)
}
