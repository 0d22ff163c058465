//! The workloads: which nights there are, and which jobs are done on them.

use crate::claims::claim_of;
use crate::jobs::{Desk, Given, ReportKind};
use crate::nights::{
    Cut, Event, Recorder, TEXTS, by_text, events_of, file_of, within, without_last,
};
use crate::noise::Noise;
use edf_refusal::{Refusal, Role};
use std::alloc::{AllocError, Global};

/// The names of the workloads.
pub const WORKLOADS: &[&str] = &[
    "copy", "recut", "weeks", "scored", "notes", "segments", "beats",
];

/// The samples of a polysomnograph's channels in a second.
const NIGHT: &[u32] = &[
    256, 256, 256, 256, 256, 256, 256, 256, 256, 256, 128, 128, 128, 128, 32, 32, 32, 32, 1, 1, 1,
    1,
];

/// The samples in a second of a device with one channel, and of one with two.
const ONE: &[u32] = &[1];

const TWO: &[u32] = &[1, 1];

/// How many of the texts a claim keeps.
const KEPT: usize = 12;

/// A file of a whole night.
fn whole(seconds: u32, step: u32, lane: u32) -> Cut {
    Cut {
        first: 0,
        seconds,
        step,
        lane,
        is_anonymous: false,
    }
}

/// So many milliseconds.
fn millis(seconds: u32) -> u32 {
    seconds.wrapping_mul(1000)
}

/// An export as its original is laid out, checked under several claims; at first it is honest, then a byte of a
/// sample is another one.
#[inline(never)]
fn copy(alloc: Global, noise: &mut Noise, seconds: u32) -> Result<Given, Refusal> {
    let recorder = Recorder::new(alloc, noise, NIGHT)?;
    let events = events_of(alloc, noise, seconds / 20, seconds)?;
    let cut = whole(seconds, 1, 256);
    let original = file_of(alloc, &recorder, &events, cut)?;
    let kept = without_last(alloc, &events, KEPT)?;
    let hidden = Cut {
        is_anonymous: true,
        ..cut
    };
    let mut export = file_of(alloc, &recorder, &kept, hidden)?;
    let mut desk = Desk::new(alloc, 4096)?;
    desk.report(alloc, &original, ReportKind::Conform)?;
    desk.report(alloc, &export, ReportKind::Conform)?;
    for turn in 0..24u32 {
        let middle = millis(noise.below(seconds)).wrapping_add(turn);
        let claim = claim_of(
            alloc,
            NIGHT.len(),
            KEPT,
            &[0, middle.max(1), millis(seconds)],
        )?;
        desk.check(alloc, &original, &export, &claim)?;
        if turn == 17 {
            // in a lane of 256 samples, of the data record where a sixteenth of the night is left
            let record = (seconds - seconds / 16) as usize;
            if let Some(byte) = export.get_mut(record.saturating_mul(6664).saturating_add(6244)) {
                *byte ^= 1;
            }
        }
    }
    Ok(desk.given)
}

/// An original, and an export of it that is cut like this.
#[derive(Clone, Copy)]
struct CutFiles<'a> {
    original: &'a [u8],
    export: &'a [u8],
    cut: Cut,
}

/// Checks an export in data records of other lengths than its original's, under several claims.
fn check_cut(
    alloc: Global,
    noise: &mut Noise,
    desk: &mut Desk,
    files: CutFiles<'_>,
) -> Result<(), Refusal> {
    let cut = files.cut;
    let end = millis(cut.first.wrapping_add(cut.seconds));
    for turn in 0..8u32 {
        let second = cut.first.wrapping_add(noise.below(cut.seconds));
        let middle = millis(second).wrapping_add(500).wrapping_add(turn);
        let bounds = [millis(cut.first), middle, end];
        let claim = claim_of(alloc, NIGHT.len(), KEPT, &bounds)?;
        desk.check(alloc, files.original, files.export, &claim)?;
    }
    Ok(())
}

/// The middle of a night, handed out in data records of other lengths.
#[inline(never)]
fn recut(alloc: Global, noise: &mut Noise, seconds: u32) -> Result<Given, Refusal> {
    let recorder = Recorder::new(alloc, noise, NIGHT)?;
    let events = events_of(alloc, noise, seconds / 20, seconds)?;
    let kept = without_last(alloc, &events, KEPT)?;
    let mut desk = Desk::new(alloc, 4096)?;
    let margin = seconds / 12;
    for (own, step) in [(1, 10), (1, 30), (4, 10), (1, 2)] {
        let original = file_of(alloc, &recorder, &events, whole(seconds, own, 512))?;
        let cut = Cut {
            first: margin,
            seconds: seconds.wrapping_sub(margin.wrapping_mul(2)),
            step,
            lane: 1024,
            is_anonymous: true,
        };
        let shown = within(alloc, &kept, margin, seconds.wrapping_sub(margin))?;
        let export = file_of(alloc, &recorder, &shown, cut)?;
        let files = CutFiles {
            original: &original,
            export: &export,
            cut,
        };
        check_cut(alloc, noise, &mut desk, files)?;
    }
    Ok(desk.given)
}

/// Weeks of an oximeter: very many small data records.
#[inline(never)]
fn weeks(alloc: Global, noise: &mut Noise, seconds: u32) -> Result<Given, Refusal> {
    let recorder = Recorder::new(alloc, noise, &[1, 1])?;
    let events = events_of(alloc, noise, seconds / 300, seconds)?;
    let kept = without_last(alloc, &events, KEPT)?;
    let cut = whole(seconds, 1, 64);
    let original = file_of(alloc, &recorder, &events, cut)?;
    let hidden = Cut {
        is_anonymous: true,
        ..cut
    };
    let export = file_of(alloc, &recorder, &kept, hidden)?;
    let mut desk = Desk::new(alloc, 4096)?;
    desk.report(alloc, &original, ReportKind::Conform)?;
    for turn in 0..8u32 {
        let middle = millis(noise.below(seconds)).wrapping_add(turn);
        let claim = claim_of(alloc, 2, KEPT, &[0, middle.max(1), millis(seconds)])?;
        desk.check(alloc, &original, &export, &claim)?;
    }
    Ok(desk.given)
}

/// A night with a great many annotations, whose export has them in another order or in the same.
#[inline(never)]
fn scored(alloc: Global, noise: &mut Noise, count: u32) -> Result<Given, Refusal> {
    let seconds = 28_800;
    let recorder = Recorder::new(alloc, noise, &[32])?;
    let events = events_of(alloc, noise, count, seconds)?;
    let kept = without_last(alloc, &events, KEPT)?;
    let others = by_text(alloc, &events)?;
    let cut = whole(seconds, 30, 24_576);
    let original = file_of(alloc, &recorder, &events, cut)?;
    let unsorted = file_of(alloc, &recorder, &others, cut)?;
    let hidden = Cut {
        step: 10,
        lane: 8192,
        is_anonymous: true,
        ..cut
    };
    let export = file_of(alloc, &recorder, &kept, hidden)?;
    let mut desk = Desk::new(alloc, 4096)?;
    for turn in 0..3u32 {
        let middle = millis(noise.below(seconds))
            .wrapping_add(500)
            .wrapping_add(turn);
        let claim = claim_of(alloc, 1, KEPT, &[0, middle, millis(seconds)])?;
        desk.check(alloc, &original, &export, &claim)?;
        desk.check(alloc, &unsorted, &export, &claim)?;
    }
    Ok(desk.given)
}

/// Lists the annotations of a night over and over, with other letters each time.
#[inline(never)]
fn notes(alloc: Global, noise: &mut Noise, count: u32) -> Result<Given, Refusal> {
    let seconds = 28_800;
    let recorder = Recorder::new(alloc, noise, &[1])?;
    let events: Vec<Event> = events_of(alloc, noise, count, seconds)?;
    let mut file = file_of(alloc, &recorder, &events, whole(seconds, 30, 24_576))?;
    let mut desk = Desk::new(alloc, (count as usize).saturating_mul(128))?;
    for (old, new) in [
        (b'S', b'T'),
        (b'e', b'o'),
        (b'a', b'u'),
        (b'p', b'"'),
        (b'n', b'\t'),
        (b'l', b'r'),
    ] {
        desk.report(alloc, &file, ReportKind::Notes)?;
        for byte in file.iter_mut().skip(768) {
            if *byte == old {
                *byte = new;
            }
        }
    }
    Ok(desk.given)
}

/// The milliseconds between which some nine hundred intervals lie, from the begin of a night to its end.
fn many_bounds(alloc: Global, noise: &mut Noise, seconds: u32) -> Result<Vec<u32>, AllocError> {
    let mut bounds = vec![in alloc; 0u32]?;
    for part in 0..900u32 {
        let begin = part.wrapping_mul(1066);
        bounds.push(begin.wrapping_add(noise.below(1000)).wrapping_add(1))?;
    }
    bounds.push(millis(seconds))?;
    Ok(bounds)
}

/// Very many channels, of which very many short intervals are kept.
#[inline(never)]
fn segments(alloc: Global, noise: &mut Noise, channels: usize) -> Result<Given, Refusal> {
    let seconds = 960;
    let rates = vec![in alloc; 1u32; channels]?;
    let recorder = Recorder::new(alloc, noise, &rates)?;
    let cut = whole(seconds, 1, 64);
    let events = events_of(alloc, noise, seconds / 30, seconds)?;
    let kept = without_last(alloc, &events, KEPT)?;
    let original = file_of(alloc, &recorder, &events, cut)?;
    let mut desk = Desk::new(alloc, channels.saturating_mul(256))?;
    desk.report(alloc, &original, ReportKind::Show)?;
    for step in [1, 2, 3, 4] {
        let hidden = Cut {
            step,
            lane: 256,
            is_anonymous: true,
            ..cut
        };
        let export = file_of(alloc, &recorder, &kept, hidden)?;
        let bounds = many_bounds(alloc, noise, seconds)?;
        let claim = claim_of(alloc, channels, KEPT, &bounds)?;
        desk.check(alloc, &original, &export, &claim)?;
    }
    Ok(desk.given)
}

/// Days of a device with so many channels, each with a sample a second, reported and checked under several claims.
fn check_beats(
    alloc: Global,
    noise: &mut Noise,
    desk: &mut Desk,
    rates: &[u32],
    cut: Cut,
) -> Result<(), Refusal> {
    let recorder = Recorder::new(alloc, noise, rates)?;
    let original = file_of(alloc, &recorder, &[], cut)?;
    let hidden = Cut {
        is_anonymous: true,
        ..cut
    };
    let export = file_of(alloc, &recorder, &[], hidden)?;
    desk.report(alloc, &original, ReportKind::Conform)?;
    for turn in 0..4u32 {
        let middle = millis(noise.below(cut.seconds)).wrapping_add(turn + 1);
        let bounds = [0, middle, millis(cut.seconds)];
        let claim = claim_of(alloc, rates.len(), KEPT, &bounds)?;
        desk.check(alloc, &original, &export, &claim)?;
    }
    Ok(())
}

/// Days of single channels and oximeters: very many data records of one or two samples, with short lanes and no
/// annotations.
#[inline(never)]
fn beats(alloc: Global, noise: &mut Noise, seconds: u32) -> Result<Given, Refusal> {
    let mut desk = Desk::new(alloc, 4096)?;
    check_beats(alloc, noise, &mut desk, &[1], whole(seconds, 1, 16))?;
    check_beats(alloc, noise, &mut desk, &[1, 1], whole(seconds, 1, 24))?;
    check_beats(alloc, noise, &mut desk, &[1], whole(seconds, 1, 30))?;
    Ok(desk.given)
}

/// Does a workload, on short nights if that is asked for, and answers what its jobs gave.
pub fn work(alloc: Global, name: &str, seed: u64, is_short: bool) -> Result<Given, Refusal> {
    let mut noise = Noise::new(seed);
    let part = if is_short { 20 } else { 1 };
    match name {
        "copy" => copy(alloc, &mut noise, 14_400 / part),
        "recut" => recut(alloc, &mut noise, 7_200 / part),
        "weeks" => weeks(alloc, &mut noise, 604_800 / part),
        "scored" => scored(alloc, &mut noise, 360_000 / part),
        "notes" => notes(alloc, &mut noise, 360_000 / part),
        "segments" => segments(alloc, &mut noise, 2_400 / part as usize),
        "beats" => beats(alloc, &mut noise, 172_800 / part),
        _ => Err(Refusal::CannotOpen(Role::File)),
    }
}
