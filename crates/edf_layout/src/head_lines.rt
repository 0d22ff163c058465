//! The lines of the layout of a header.

ghost use Rattle.std.specs.Prelude.{◌≡◌, ◌≤◌, ◌<◌, ◌*◌, ◌++◌, length, OnOk};
ghost use Rattle.edf_layout.specs.HeadLayouts.{signal_layout, signal_layouts, front_layout, layout_in};
ghost use Rattle.edf_layout.specs.RawSignals.{AreRaw};
ghost use Rattle.edf_layout.specs.Spaces.{spaces_of as spaces_in};
ghost use Rattle.edf_layout.specs.HeadTexts.{word_line, spaces_text, spaces_line, added_line, two_texts, extremes_text, signal_line, signal_lines, course_lines, size_lines, identification_lines, front_lines, head_lines};

use crate::signal_fields::{RawSignals, fixed_text};
use crate::spaces::spaces_of;
use edf_fields::{FixedField, SignalField, fixed_field};
use edf_verdict::push_with_quoted;
use std::alloc::{AllocError, Global};

/// Puts a line of a word and a text behind the text.
#[tactic(auto, unfolding(crate::specs::HeadTexts::word_line))]
fn push_line(text: &mut Vec<u8>, word: &str, said: &[u8]) -> Result<(), AllocError>
    ensures { OnOk result (text.new.items ≡ text.old.items ++ word_line word.now said.now) }
{
    text.extend_from_slice(word.as_bytes())?;
    text.push(b' ')?;
    text.extend_from_slice(said)?;
    text.push(b'\n')?;
    Ok(())
}

/// Puts each number behind a space behind the text.
pub(crate) fn push_counts(
    text: &mut Vec<u8>,
    alloc: Global,
    counts: &[usize],
) -> Result<(), AllocError>
    ensures { OnOk result (text.new.items ≡ text.old.items ++ spaces_text counts.now) }
{
    for count in counts {
        text.push(b' ')?;
        text.extend_from_slice(count.to_string(alloc)?.as_bytes())?;
    }
    Ok(())
}

/// Puts a line of a word and of how many spaces stand behind each subfield behind the text.
#[tactic(auto, unfolding(crate::specs::HeadTexts::spaces_line))]
fn push_spaces(
    text: &mut Vec<u8>,
    alloc: Global,
    word: &str,
    counts: &[usize],
) -> Result<(), AllocError>
    ensures { OnOk result (text.new.items ≡ text.old.items ++ spaces_line word.now counts.now) }
{
    text.extend_from_slice(word.as_bytes())?;
    text.extend_from_slice(" spaces".as_bytes())?;
    push_counts(text, alloc, counts)?;
    text.push(b'\n')?;
    Ok(())
}

/// Puts a line of a word and of how many additional subfields there are behind the text; a field has `least` without them.
#[tactic(auto, unfolding(crate::specs::HeadTexts::added_line))]
fn push_added(
    text: &mut Vec<u8>,
    alloc: Global,
    word: &str,
    least: usize,
    counts: &[usize],
) -> Result<(), AllocError>
    ensures { OnOk result (text.new.items ≡ text.old.items ++ added_line word.now least counts.now) }
{
    let more = (counts.len() + 1).saturating_sub(least);
    text.extend_from_slice(word.as_bytes())?;
    text.extend_from_slice(" added ".as_bytes())?;
    text.extend_from_slice(more.to_string(alloc)?.as_bytes())?;
    text.push(b'\n')?;
    Ok(())
}

/// Puts the two lines of an identification behind the text.
#[tactic(auto, unfolding(crate::specs::HeadTexts::identification_lines))]
fn push_identification(
    text: &mut Vec<u8>,
    alloc: Global,
    word: &str,
    least: usize,
    field: &[u8],
) -> Result<(), AllocError>
    ensures { OnOk result (text.new.items ≡ text.old.items ++
        identification_lines word.now least (spaces_in field.now)) }
{
    let counts = spaces_of(alloc, field)?;
    push_added(text, alloc, word, least, &counts)?;
    push_spaces(text, alloc, word, &counts)
}

/// Puts the lines of the kind and of the data records behind the text.
#[tactic(auto, unfolding(crate::specs::HeadTexts::course_lines))]
fn push_course(text: &mut Vec<u8>, front: &[u8]) -> Result<(), AllocError>
    requires { 256 ≤ length front.now }
    ensures { OnOk result (text.new.items ≡ text.old.items ++ course_lines (front_layout front.now)) }
{
    push_line(text, "kind", &fixed_field(front, FixedField::Reserved)[..5])?;
    push_line(text, "duration", fixed_text(front, FixedField::Duration))?;
    push_line(text, "records", fixed_text(front, FixedField::Records))
}

/// Puts the lines of the size of the header and of the count of signals behind the text.
#[tactic(auto, unfolding(crate::specs::HeadTexts::size_lines))]
fn push_sizes(text: &mut Vec<u8>, front: &[u8]) -> Result<(), AllocError>
    requires { 256 ≤ length front.now }
    ensures { OnOk result (text.new.items ≡ text.old.items ++ size_lines (front_layout front.now)) }
{
    push_line(text, "size", fixed_text(front, FixedField::HeaderBytes))?;
    push_line(text, "signals", fixed_text(front, FixedField::Signals))
}

/// Puts a word and two texts behind the text.
#[tactic(auto, unfolding(crate::specs::HeadTexts::two_texts))]
fn push_two(text: &mut Vec<u8>, word: &str, first: &[u8], second: &[u8]) -> Result<(), AllocError>
    ensures { OnOk result (text.new.items ≡ text.old.items ++ two_texts word.now first.now second.now) }
{
    text.extend_from_slice(word.as_bytes())?;
    text.extend_from_slice(first)?;
    text.push(b' ')?;
    text.extend_from_slice(second)
}

/// Puts the texts of the extremes of a signal behind the text.
#[tactic(auto, unfolding(crate::specs::HeadTexts::extremes_text))]
fn push_extremes(
    text: &mut Vec<u8>,
    signals: RawSignals<'_>,
    signal: usize,
) -> Result<(), AllocError>
    requires raw { AreRaw signals }
    requires there { signal < signals.count }
    ensures { OnOk result (text.new.items ≡ text.old.items ++
        extremes_text (signal_layout signals.entry.columns.now signals.entry.count signal)) }
{
    let least = signals.text(signal, SignalField::PhysicalMinimum);
    let most = signals.text(signal, SignalField::PhysicalMaximum);
    push_two(text, " physical ", least, most)?;
    let least = signals.text(signal, SignalField::DigitalMinimum);
    let most = signals.text(signal, SignalField::DigitalMaximum);
    push_two(text, " digital ", least, most)
}

/// Puts the line of a signal behind the text.
#[tactic(auto, unfolding(crate::specs::HeadTexts::signal_line))]
fn push_signal(
    text: &mut Vec<u8>,
    alloc: Global,
    signals: RawSignals<'_>,
    signal: usize,
) -> Result<(), AllocError>
    requires raw { AreRaw signals }
    requires there { signal < signals.count }
    ensures { OnOk result (text.new.items ≡ text.old.items ++
        signal_line signal (signal_layout signals.entry.columns.now signals.entry.count signal)) }
{
    text.extend_from_slice("signal ".as_bytes())?;
    text.extend_from_slice(signal.to_string(alloc)?.as_bytes())?;
    text.extend_from_slice(" samples ".as_bytes())?;
    text.extend_from_slice(signals.text(signal, SignalField::Samples))?;
    push_extremes(text, signals, signal)?;
    push_with_quoted(text, " label ", signals.text(signal, SignalField::Label))?;
    text.push(b'\n')?;
    Ok(())
}

/// Puts the lines of the signals behind the text.
fn push_signals(
    text: &mut Vec<u8>,
    alloc: Global,
    signals: RawSignals<'_>,
) -> Result<(), AllocError>
    requires { AreRaw signals }
    ensures { OnOk result (text.new.items ≡ text.old.items ++
        signal_lines 0 (signal_layouts signals.entry.columns.now signals.entry.count 0 signals.entry.count)) }
{
    for signal in 0..signals.count {
        push_signal(text, alloc, signals, signal)?;
    }
    Ok(())
}

/// Puts the lines of the layout of the fixed part behind the text.
#[tactic(auto, unfolding(crate::specs::HeadTexts::front_lines))]
fn push_front(text: &mut Vec<u8>, alloc: Global, front: &[u8]) -> Result<(), AllocError>
    requires { 256 ≤ length front.now }
    ensures { OnOk result (text.new.items ≡ text.old.items ++ front_lines (front_layout front.now)) }
{
    push_course(text, front)?;
    push_sizes(text, front)?;
    push_identification(
        text,
        alloc,
        "patient",
        4,
        fixed_text(front, FixedField::Patient),
    )?;
    push_identification(
        text,
        alloc,
        "recording",
        5,
        fixed_text(front, FixedField::Recording),
    )
}

/// Puts the lines of the layout of a header behind the text; `front` is its fixed part.
///
/// The error is want of memory.
#[tactic(auto, unfolding(crate::specs::HeadTexts::head_lines))]
pub fn push_head_lines(
    text: &mut Vec<u8>,
    alloc: Global,
    front: &[u8],
    signals: RawSignals<'_>,
) -> Result<(), AllocError>
    requires front { 256 ≤ length front.now }
    requires signals { AreRaw signals }
    ensures { OnOk result (text.new.items ≡ text.old.items ++
        head_lines (layout_in front.now signals.entry.count signals.entry.columns.now)) }
{
    push_front(text, alloc, front)?;
    push_signals(text, alloc, signals)
}
