//! The plain spelling of a TAL.

ghost use Rattle.std.specs.Prelude.{◌≡◌, ◌<◌, ◌≤◌, ◌^◌, ◌/◌, ◌%◌, ◌++◌, ◌∷◌, [], length, unsigned_abs, IfSome, IfOk, OnOk};
ghost use Rattle.std.specs.Fmt.{decimal};
ghost use Rattle.edf_layout.specs.body.LaidNotes.{laid_note};
ghost use Rattle.edf_layout.specs.body.PlainOrders.{last_digits, plain_time, plain_onset, plain_duration, plain_tal, tal_bytes, tal_of_note, tal_of_start};

use std::alloc::{AllocError, Global};

/// A second in picoseconds.
const SECOND: u128 = 1_000_000_000_000;

/// The same in 64 bits, by which processors divide faster.
const SHORT_SECOND: u64 = 1_000_000_000_000;

/// An annotation of a file. Annotations are ordered by their onset, then by their duration, none before any, then by
/// the bytes of their texts.
#[derive(Debug, Clone, Copy, PartialEq, Eq, PartialOrd, Ord)]
pub struct LaidNote<'a> {
    /// Its onset in picoseconds after the start of the file.
    pub onset: i128,
    /// Its duration in picoseconds, where it has one.
    pub duration: Option<i128>,
    /// Its text.
    pub text: &'a [u8],
}

/// Puts the last 12 digits of a number behind the text, but for the zeros at their end.
fn push_last_digits(text: &mut Vec<u8>, number: u64) -> Result<(), AllocError>
    requires { number < 10 ^ 12 }
    ensures { OnOk result (text.new.items ≡ text.old.items ++ last_digits 12 number) }
{
    let mut rest = number;
    let mut places = 12u32;
    while places > 0 && rest > 0 {
        places -= 1;
        let unit = 10u64.pow(places);
        text.push(b'0' + (rest / unit) as u8)?;
        rest %= unit;
    }
    Ok(())
}

/// Puts the plain spelling of so many picoseconds behind the text, in seconds.
#[tactic(auto, unfolding(crate::specs::body::PlainOrders::plain_time))]
fn push_time(text: &mut Vec<u8>, alloc: Global, ps: u128) -> Result<(), AllocError>
    ensures { OnOk result (text.new.items ≡ text.old.items ++ plain_time ps) }
{
    let seconds = ps / SECOND;
    text.extend_from_slice(format!(in alloc; "{seconds}")?.as_bytes())?;
    let rest = ps % SECOND;
    if rest != 0 {
        text.push(b'.')?;
        push_last_digits(text, rest as u64)?;
    }
    Ok(())
}

/// Puts the plain spelling of an onset behind the text.
fn push_onset(text: &mut Vec<u8>, alloc: Global, onset: i128) -> Result<(), AllocError>
    ensures { OnOk result (text.new.items ≡ text.old.items ++ plain_onset onset) }
{
    let sign = if onset < 0 { b'-' } else { b'+' };
    text.push(sign)?;
    push_time(text, alloc, onset.unsigned_abs())
}

/// Puts the plain spelling of a duration behind the text, with the byte 21 in front of it, where there is one.
fn push_duration(
    text: &mut Vec<u8>,
    alloc: Global,
    duration: Option<i128>,
) -> Result<(), AllocError>
    ensures { OnOk result (text.new.items ≡ text.old.items ++ plain_duration duration) }
{
    match duration {
        None => Ok(()),
        Some(ps) => {
            text.push(21)?;
            push_time(text, alloc, ps.unsigned_abs())
        }
    }
}

/// The plain spelling of the TAL of an annotation (EDF+, "Time-stamped Annotations Lists (TALs) in an 'EDF
/// Annotations' signal"), without the byte 0 behind it.
fn note_tal(alloc: Global, note: LaidNote<'_>) -> Result<Vec<u8>, AllocError>
    ensures { IfOk result (λ tal. tal.items ≡ plain_tal (tal_of_note (laid_note note.entry))) }
{
    let mut tal = Vec::new(alloc);
    push_onset(&mut tal, alloc, note.onset)?;
    push_duration(&mut tal, alloc, note.duration)?;
    tal.push(20)?;
    tal.extend_from_slice(note.text)?;
    tal.push(20)?;
    Ok(tal)
}

/// The plain spelling of the TAL that only keeps the time (EDF+, "Time keeping of data records"), of a data record with
/// this start, without the byte 0 behind it.
fn start_tal(alloc: Global, start: i128) -> Result<Vec<u8>, AllocError>
    ensures { IfOk result (λ tal. tal.items ≡ plain_tal (tal_of_start start)) }
{
    let mut tal = Vec::new(alloc);
    push_onset(&mut tal, alloc, start)?;
    tal.push(20)?;
    tal.push(20)?;
    Ok(tal)
}

/// How many bytes the TAL of an annotation takes, where it is spelled plainly.
///
/// The error is want of memory.
pub fn note_bytes(alloc: Global, note: LaidNote<'_>) -> Result<usize, AllocError>
    ensures { IfOk result (λ n. n ≡ tal_bytes (tal_of_note (laid_note note.entry))) }
{
    Ok(note_tal(alloc, note)?.len() + 1)
}

/// How many digits a number has.
fn digit_count(number: u64) -> usize
    ensures count { result ≡ length (decimal number) }
    ensures few { result ≤ 20 }
{
    let mut rest = number;
    let mut count = 1;
    while rest >= 10 {
        rest /= 10;
        count += 1;
    }
    count
}

/// The seconds of so many picoseconds, where these are whole seconds; none of 2^64 picoseconds, some 213 days, and more.
fn whole_seconds(ps: u128) -> Option<u64>
    ensures { IfSome result (λ seconds. (seconds ≡ ps / 10 ^ 12) × (ps % 10 ^ 12 ≡ 0)) }
{
    let short = u64::try_from(ps).ok()?;
    if short % SHORT_SECOND != 0 {
        return None;
    }
    Some(short / SHORT_SECOND)
}

/// How many bytes the TAL takes that only keeps the time of a data record with this start, where it is spelled plainly.
///
/// The error is want of memory.
pub fn start_bytes(alloc: Global, start: i128) -> Result<usize, AllocError>
    ensures { IfOk result (λ n. n ≡ tal_bytes (tal_of_start start)) }
{
    match whole_seconds(start.unsigned_abs()) {
        // the sign, the bytes 20 and 20, and the byte 0
        Some(seconds) => Ok(digit_count(seconds) + 4),
        None => Ok(start_tal(alloc, start)?.len() + 1),
    }
}
