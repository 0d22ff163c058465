//! What keeps each claim for several exports from a Yes, so that none is drafted.

use edf_header::Header;
use edf_heads::ChannelIndex;
use edf_recording::Recorded;
use edf_verdict::push_quoted;
use std::alloc::{AllocError, Global};

/// What is said where exports have other channels than the first one.
const CHANNELS: &str =
    "the parts don't have the same channels, and a claim has one list of channels for all of them\n";

/// A part of several, counted from 0.
#[derive(Clone, Copy)]
struct Part<'a> {
    number: usize,
    header: &'a Header,
}

/// The number of the first part that begins before the one before it ends, and when; none where they follow one another.
fn early_part(exports: &[Recorded]) -> Option<usize> {
    let mut ended_ps = i128::MIN;
    for (number, export) in exports.iter().enumerate() {
        if export.times.begin_ps < ended_ps {
            return Some(number);
        }
        ended_ps = export.times.end_ps;
    }
    None
}

/// Says which channels of one part another one lacks.
fn say_lacking(
    text: &mut String,
    alloc: Global,
    part: Part<'_>,
    other: Part<'_>,
) -> Result<(), AllocError> {
    let channels = ChannelIndex::new(alloc, part.header)?;
    for signal in other.header.signals() {
        if !signal.is_annotations() && channels.channel(signal.label()).is_none() {
            let mut quoted = Vec::new(alloc);
            push_quoted(&mut quoted, signal.label())?;
            if let Ok(label) = str::from_utf8(&quoted) {
                let line = format!(in alloc;
                    "# part {} lacks channel {label}, which part {} has\n",
                    part.number, other.number
                )?;
                text.push_str(&line)?;
            }
        }
    }
    Ok(())
}

/// The channels that the first part lacks beside another one, or the other way round, in lines; no line where they have the same.
fn lacking_channels(alloc: Global, exports: &[Recorded]) -> Result<String, AllocError> {
    let mut text = String::new(alloc);
    let Some((first, others)) = exports.split_first() else {
        return Ok(text);
    };
    let first = Part {
        number: 0,
        header: first.reader.header(),
    };
    let mut number: usize = 0;
    for other in others {
        number = number.saturating_add(1);
        let other = Part {
            number,
            header: other.reader.header(),
        };
        say_lacking(&mut text, alloc, other, first)?;
        say_lacking(&mut text, alloc, first, other)?;
    }
    Ok(text)
}

/// What keeps each claim for these exports from a Yes, in lines; none where nothing was found: one begins before the one before
/// it ends, or they have other channels.
pub fn obstacle(alloc: Global, exports: &[Recorded]) -> Result<Option<String>, AllocError> {
    if let Some(part) = early_part(exports) {
        let line = format!(in alloc;
            "part {part} begins before part {} ends, and the parts of an export follow one another, in the order of time\n",
            part.saturating_sub(1)
        )?;
        return Ok(Some(line));
    }
    let lacking = lacking_channels(alloc, exports)?;
    if lacking.is_empty() {
        return Ok(None);
    }
    let mut text = String::from_str(alloc, CHANNELS)?;
    text.push_str(&lacking)?;
    Ok(Some(text))
}
