//! The layout of the TALs of a lane.

ghost use Rattle.std.specs.Prelude.{◌≡◌, ◌==◌, ◌<◌, List, length, map, IfSome, IfOk};
ghost use Rattle.std.specs.List.{position};
ghost use Rattle.std.specs.Option.{option_map};
ghost use Rattle.edf_tal.specs.Reading.{until as until_byte, behind as behind_byte};
ghost use Rattle.edf_layout.specs.PlainLaws.{is_plain_onset as is_onset};
ghost use Rattle.edf_layout.specs.body.LaidTals.{laid_view, spelling_view};
ghost use Rattle.edf_layout.specs.body.LaneLayouts.{is_plain_duration as is_duration, unless_plain as text_unless};
ghost use Rattle.edf_layout.specs.body.LaneReading.{keeps_now, layout_at, IsLaidAs};
ghost use Rattle.edf_layout.specs.body.LaneLayouts.{TalLayout, IsLaidLane};
ghost use Rattle.edf_layout.specs.body.MeaningLaws.{AreInOrder};
ghost use Rattle.edf_stream.specs.Views.{note_value};
ghost use Rattle.edf_tal.specs.Tals.{TalValue};

use crate::laid_tal::LaidTal;
use crate::note_places::says;
use crate::plain_number::{begins_with, is_plain_unsigned};
use edf_stream::Note;
use edf_tal::Tals;
use std::alloc::{AllocError, Global};

/// How a TAL is spelled: its onset, and the byte 21 and its duration, each where it isn't spelled plainly.
#[derive(Debug, Clone, Copy)]
pub struct Spelling<'a> {
    pub onset: Option<&'a [u8]>,
    pub duration: Option<&'a [u8]>,
}

/// The place of the first byte of this value.
fn place_in(bytes: &[u8], byte: u8) -> Option<usize>
    ensures place { result ≡ position (λ b. b == byte) bytes.now }
    ensures within { IfSome result (λ k. k < length bytes.now) }
{
    bytes.iter().position(|other| *other == byte)
}

/// What stands before the first byte of this value, and all where there is none.
#[tactic(auto, using(edf_fields::proofs::ForCallers::before_at, edf_fields::proofs::ForCallers::before_none))]
fn until(bytes: &[u8], byte: u8) -> &[u8]
    ensures { result.now ≡ until_byte byte bytes.entry.now }
{
    match place_in(bytes, byte) {
        Some(place) => &bytes[..place],
        None => bytes,
    }
}

/// What stands behind the first byte of this value, and nothing where there is none.
#[tactic(auto, using(edf_fields::proofs::ForCallers::behind_at, edf_fields::proofs::ForCallers::behind_none))]
fn behind(bytes: &[u8], byte: u8) -> &[u8]
    ensures { result.now ≡ behind_byte byte bytes.entry.now }
{
    match place_in(bytes, byte) {
        Some(place) => &bytes[place + 1..],
        None => &[],
    }
}

/// A text where it isn't plain.
fn unless_plain(is_plain: bool, text: &[u8]) -> Option<&[u8]>
    ensures { option_map (λ t. t.now) result ≡ text_unless is_plain text.entry.now }
{
    if is_plain { None } else { Some(text) }
}

/// Whether the text of an onset is spelled plainly.
#[tactic(auto, unfolding(crate::specs::PlainLaws::is_plain_onset))]
fn is_plain_onset(text: &[u8]) -> bool
    ensures { result ≡ is_onset text.now }
{
    let digits = match text {
        [_sign, digits @ ..] => digits,
        [] => text,
    };
    is_plain_unsigned(digits) && !(begins_with(text, b'-') && digits == b"0".as_slice())
}

/// Whether a duration with the byte 21 in front of it is spelled plainly; where there is none, it is.
fn is_plain_duration(text: &[u8]) -> bool
    ensures { result ≡ is_duration text.now }
{
    match text {
        [_separator, span @ ..] => is_plain_unsigned(span),
        [] => true,
    }
}

/// Whether what stands before the first text of a lane's first TAL is an onset that is spelled plainly.
pub(crate) fn has_plain_onset(lane: &[u8]) -> bool
    ensures { result ≡ is_onset (until_byte 20 lane.now) }
{
    is_plain_onset(until(lane, 20))
}

/// How the first TAL of a lane is spelled.
fn spelling_at(lane: &[u8]) -> Spelling<'_>
    ensures { spelling_view result ≡ layout_at lane.entry.now }
{
    let head = until(lane, 20);
    let onset = until(head, 21);
    let duration = &head[onset.len()..];
    Spelling {
        onset: unless_plain(is_plain_onset(onset), onset),
        duration: unless_plain(is_plain_duration(duration), duration),
    }
}

/// Whether the next TAL of a lane keeps the time, where the first one does or doesn't and these stand before it.
pub(crate) fn keeps_now(keeps_time: bool, laid: &[LaidTal<'_>]) -> bool
    ensures { result ≡ keeps_now keeps_time (map laid_view laid.now) }
{
    keeps_time && laid.is_empty()
}

/// The TALs of a lane with their layout; `keeps_time` says whether the first of them keeps the time of its data record.
/// The annotations are all of the file in order.
///
/// The error is want of memory.
pub fn lay_lane<'a>(
    alloc: Global,
    notes: &[Note],
    lane: &'a [u8],
    keeps_time: bool,
) -> Result<Vec<LaidTal<'a>>, AllocError>
    requires { AreInOrder (map note_value notes.now) }
    ensures { IfOk result (λ laid. (tals : List TalValue) (layouts : List TalLayout) →
        IsLaidLane lane.entry.now tals layouts → IsLaidAs (map note_value notes.now) keeps_time tals layouts
        (map laid_view laid.items)) }
{
    // mostly a lane has one
    let mut laid = Vec::with_capacity(alloc, 1)?;
    let mut rest = lane;
    for item in Tals::new(lane) {
        let Ok(tal) = item else {
            return Ok(laid);
        };
        let spelling = spelling_at(rest);
        let keeps = keeps_now(keeps_time, &laid);
        laid.push(LaidTal {
            onset: spelling.onset,
            duration: spelling.duration,
            content: says(alloc, notes, &tal, keeps)?,
        })?;
        rest = behind(rest, 0);
    }
    Ok(laid)
}
