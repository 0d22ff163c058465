//! The line of a TAL: how it is spelled, and which annotations it has.

ghost use Rattle.std.specs.Prelude.{◌≡◌, ◌++◌, map, OnOk};
ghost use Rattle.std.specs.Option.{option_map};
ghost use Rattle.edf_verdict.specs.NoteTimes.{duration_text};
ghost use Rattle.edf_layout.specs.body.LaidTals.{content_view, laid_view};
ghost use Rattle.edf_layout.specs.body.OddLanes.{onset_words, duration_words, content_words, tal_line, tal_lines};

use crate::head_lines::push_counts;
use edf_verdict::NoteTimes;
use std::alloc::{AllocError, Global};

/// What a TAL says; annotations by their places among all of the file in order.
#[derive(Debug, Drop, PartialEq, Eq)]
pub enum Content {
    /// It keeps the time: its duration, in picoseconds, and the annotations that its further texts are.
    KeepsTime(Option<i128>, Vec<usize>),
    /// It has no text: its onset and its duration, in picoseconds.
    SaysNothing(i128, Option<i128>),
    /// Its annotations.
    Annotates(Vec<usize>),
}

/// A TAL with its layout.
#[derive(Debug, Drop)]
pub struct LaidTal<'a> {
    /// The text of its onset, where that isn't spelled plainly.
    pub onset: Option<&'a [u8]>,
    /// The byte 21 and the text of its duration, where that isn't spelled plainly.
    pub duration: Option<&'a [u8]>,
    /// What it says.
    pub content: Content,
}

/// Puts the words on the spelling of an onset behind the text.
fn push_onset(text: &mut Vec<u8>, onset: Option<&[u8]>) -> Result<(), AllocError>
    ensures { OnOk result (text.new.items ≡ text.old.items ++ onset_words (option_map (λ t. t.now) onset.entry)) }
{
    match onset {
        None => text.extend_from_slice("plain".as_bytes()),
        Some(spelled) => text.extend_from_slice(spelled),
    }
}

/// Puts the words on the spelling of a duration behind the text.
fn push_duration(text: &mut Vec<u8>, duration: Option<&[u8]>) -> Result<(), AllocError>
    ensures { OnOk result (text.new.items ≡ text.old.items ++
        duration_words (option_map (λ t. t.now) duration.entry)) }
{
    match duration {
        None => text.extend_from_slice("plain".as_bytes()),
        Some([_separator, span @ ..]) => text.extend_from_slice(span),
        Some([]) => Ok(()),
    }
}

/// Puts a duration in picoseconds behind the text.
fn push_length(text: &mut Vec<u8>, alloc: Global, duration: Option<i128>) -> Result<(), AllocError>
    ensures { OnOk result (text.new.items ≡ text.old.items ++ duration_text duration) }
{
    match duration {
        None => text.extend_from_slice("none".as_bytes()),
        Some(ps) => text.extend_from_slice(format!(in alloc; "{ps} ps")?.as_bytes()),
    }
}

/// Puts the words on what a TAL says behind the text.
#[tactic(auto, unfolding(crate::specs::body::OddLanes::content_words))]
fn push_content(text: &mut Vec<u8>, alloc: Global, content: &Content) -> Result<(), AllocError>
    ensures { OnOk result (text.new.items ≡ text.old.items ++ content_words (content_view content.now)) }
{
    match content {
        Content::KeepsTime(duration, places) => {
            text.extend_from_slice("time lasting ".as_bytes())?;
            push_length(text, alloc, *duration)?;
            text.extend_from_slice(" annotations".as_bytes())?;
            push_counts(text, alloc, places)?;
        }
        Content::SaysNothing(onset, duration) => {
            let times = NoteTimes {
                onset: *onset,
                duration: *duration,
            };
            text.extend_from_slice(format!(in alloc; "no text at {times}")?.as_bytes())?;
        }
        Content::Annotates(places) => {
            text.extend_from_slice("annotations".as_bytes())?;
            push_counts(text, alloc, places)?;
        }
    }
    Ok(())
}

/// Puts the line of a TAL behind the text.
#[tactic(auto, unfolding(crate::specs::body::OddLanes::tal_line))]
fn push_tal(text: &mut Vec<u8>, alloc: Global, tal: &LaidTal<'_>) -> Result<(), AllocError>
    ensures { OnOk result (text.new.items ≡ text.old.items ++ tal_line (laid_view tal.now)) }
{
    text.extend_from_slice("  onset ".as_bytes())?;
    push_onset(text, tal.onset)?;
    text.extend_from_slice(" duration ".as_bytes())?;
    push_duration(text, tal.duration)?;
    text.push(b' ')?;
    push_content(text, alloc, &tal.content)?;
    text.push(b'\n')?;
    Ok(())
}

/// Puts the lines of the TALs of a lane behind the text.
///
/// The error is want of memory.
pub fn push_tals(text: &mut Vec<u8>, alloc: Global, tals: &[LaidTal<'_>]) -> Result<(), AllocError>
    ensures { OnOk result (text.new.items ≡ text.old.items ++ tal_lines (map laid_view tals.now)) }
{
    for tal in tals {
        push_tal(text, alloc, tal)?;
    }
    Ok(())
}
