//! A file that can't be judged: its fault, and what to do.

use crate::limits::{MOST_ANNOTATIONS, MOST_RECORD_BYTES};
use crate::words::faults as words;
use edf_fields::{Cause, Fault, FixedField, Place};
use edf_findings::{FrontSource, fault_of_export};
use edf_sentences::{FRONT, Piece, Text, begins_as_bdf, begins_as_edf, looks_like_a_claim};
use edf_stop::{RunStop, Side};
use edf_trial::Recordings;
use std::alloc::AllocError;

/// Whether the front of a file is that of one of the older EDF.
fn is_plain_edf(front: &[u8]) -> bool {
    match front.get(192..236) {
        Some(reserved) => {
            begins_as_edf(front)
                && !reserved.starts_with(b"EDF+C")
                && !reserved.starts_with(b"EDF+D")
        }
        None => false,
    }
}

/// Whether a file ends in its first field.
fn ends_at_once(fault: &Fault) -> bool {
    fault.cause == Cause::Truncated && fault.place == Place::AtField(FixedField::Version)
}

/// What the front of a file with a fault tells of it, where that is all that is to be said: it is empty, or of another kind.
fn kind_of(front: &[u8], fault: &Fault) -> Option<&'static str> {
    if front.is_empty() && ends_at_once(fault) {
        return Some(words::EMPTY);
    }
    if begins_as_bdf(front) {
        return Some(words::BDF);
    }
    if is_plain_edf(front) {
        return Some(words::NOT_EDF_PLUS);
    }
    None
}

/// How much a file may have of what a fault says there is too much of.
fn limit_of(fault: &Fault) -> i128 {
    match fault.cause {
        Cause::RecordTooLarge => MOST_RECORD_BYTES,
        _ => MOST_ANNOTATIONS,
    }
}

/// Says what a fault means.
fn say_meaning(text: &mut Text, fault: &Fault) -> Result<(), AllocError> {
    let most = Piece::Number(limit_of(fault));
    text.say(words::meaning_of(fault), &[most])
}

/// Says the fault of a file, what it means, and one remedy. `front` is what stands in front of the file.
pub(crate) fn say_fault(
    text: &mut Text,
    side: Side,
    fault: &Fault,
    front: &[u8],
) -> Result<(), AllocError> {
    let said = fault.text(text.alloc())?;
    let pieces = [Piece::Word(&said), Piece::Word(words::name(side))];
    text.say(words::FAULT, &pieces)?;
    if looks_like_a_claim(front) {
        return text.say(words::LOOKS_LIKE_A_CLAIM, &pieces);
    }
    if let Some(kind) = kind_of(front, fault) {
        return text.say(kind, &[]);
    }
    say_meaning(text, fault)?;
    if words::says_remedy(fault) {
        return Ok(());
    }
    text.say(words::remedy(side), &[])
}

/// Says the first fault of the export, where it has one, behind that of the original: a check doesn't read the export on then, so
/// it is opened anew. `seen` is what stood in front of it in the check; where something else does now, it can't be read once
/// more, as a pipe, and nothing is said.
pub(crate) fn say_fault_of_export<R: Recordings>(
    text: &mut Text,
    recordings: &R,
    seen: &[u8],
) -> Result<(), RunStop> {
    let alloc = text.alloc();
    let mut source = FrontSource::new(alloc, recordings.open_export()?, FRONT);
    let found = fault_of_export(alloc, &mut source)?;
    if let Some(fault) = found
        && source.front().starts_with(seen)
    {
        say_fault(text, Side::Export, &fault, source.front())?;
    }
    Ok(())
}
