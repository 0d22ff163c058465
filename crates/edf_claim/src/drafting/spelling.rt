//! Texts and intervals as a claim spells them.

ghost use Rattle.std.specs.Prelude.{◌≡◌, ◌++◌, ◌<◌, OnOk};
ghost use Rattle.std.specs.List.{flat_map};
ghost use Rattle.edf_claim.specs.Spellings.{hex_digit as hex_digit_of, last_digits, said_byte, said_fraction, said_interval, said_seconds, said_text};

use crate::kept::interval::Interval;
use edf_fields::SECOND_PS;
use std::alloc::{AllocError, Global};

/// How many digits the fraction of a second has at the most.
const PLACES: u32 = 12;

/// The lower-case hexadecimal digit of this value.
fn hex_digit(value: u8) -> u8
    requires { value < 16 }
    ensures { result ≡ hex_digit_of value }
{
    if value < 10 {
        b'0' + value
    } else {
        b'a' + (value - 10)
    }
}

/// Puts a byte behind a text as it stands between quotation marks.
fn push_byte(text: &mut Vec<u8>, byte: u8) -> Result<(), AllocError>
    ensures { OnOk result (text.new.items ≡ text.old.items ++ said_byte byte) }
{
    if byte == b'"' {
        text.extend_from_slice(&[b'\\', b'"'])?;
    } else if byte == b'\\' {
        text.extend_from_slice(&[b'\\', b'\\'])?;
    } else if byte < 32 || byte == 127 {
        let (high, low) = (hex_digit(byte / 16), hex_digit(byte % 16));
        text.extend_from_slice(&[b'\\', b'u', b'0', b'0', high, low])?;
    } else {
        text.push(byte)?;
    }
    Ok(())
}

/// Puts the bytes behind a text as they stand between quotation marks.
fn push_bytes(text: &mut Vec<u8>, bytes: &[u8]) -> Result<(), AllocError>
    ensures { OnOk result (text.new.items ≡ text.old.items ++ flat_map said_byte bytes.now) }
{
    for byte in bytes {
        push_byte(text, *byte)?;
    }
    Ok(())
}

/// Puts a text between quotation marks, as TOML 1.0 and 1.1 have it, behind another.
///
/// The error is want of memory.
#[tactic(auto, unfolding(crate::specs::Spellings::said_text))]
pub fn push_said_text(text: &mut Vec<u8>, said: &[u8]) -> Result<(), AllocError>
    ensures { OnOk result (text.new.items ≡ text.old.items ++ said_text said.now) }
{
    text.push(b'"')?;
    push_bytes(text, said)?;
    text.push(b'"')?;
    Ok(())
}

/// Puts the digits of the fraction of a second behind a text, without zeros at their end.
fn push_digits(text: &mut Vec<u8>, ps: u64) -> Result<(), AllocError>
    ensures { OnOk result (text.new.items ≡ text.old.items ++ last_digits 12 ps) }
{
    let mut left = ps;
    let mut places = PLACES;
    while left != 0 && places > 0 {
        places -= 1;
        let unit = 10u64.pow(places);
        text.push(b'0' + (left / unit % 10) as u8)?;
        left %= unit;
    }
    Ok(())
}

/// Puts the fraction of a second behind a text, with its dot and without zeros at its end; nothing where there is none.
fn push_fraction(text: &mut Vec<u8>, ps: u64) -> Result<(), AllocError>
    ensures { OnOk result (text.new.items ≡ text.old.items ++ said_fraction ps) }
{
    if ps == 0 {
        return Ok(());
    }
    text.push(b'.')?;
    push_digits(text, ps)
}

/// Puts a time of this many picoseconds as seconds with their fraction, without zeros at its end, behind a text.
#[tactic(auto, unfolding(crate::specs::Spellings::said_seconds))]
fn push_seconds(text: &mut Vec<u8>, alloc: Global, ps: u128) -> Result<(), AllocError>
    ensures { OnOk result (text.new.items ≡ text.old.items ++ said_seconds ps) }
{
    let whole = (ps / SECOND_PS as u128).to_string(alloc)?;
    text.extend_from_slice(whole.as_bytes())?;
    push_fraction(text, (ps % SECOND_PS as u128) as u64)
}

/// Puts an interval as a table in one line, `{ from = "30", to = "120" }`, behind a text: seconds with their fraction.
///
/// The error is want of memory.
#[tactic(auto, unfolding(crate::specs::Spellings::said_interval))]
pub fn push_said_interval(
    text: &mut Vec<u8>,
    alloc: Global,
    interval: Interval,
) -> Result<(), AllocError>
    ensures { OnOk result (text.new.items ≡ text.old.items ++ said_interval interval) }
{
    text.extend_from_slice("{ from = \"".as_bytes())?;
    push_seconds(text, alloc, interval.from_ps.unsigned_abs())?;
    text.extend_from_slice("\", to = \"".as_bytes())?;
    push_seconds(text, alloc, interval.to_ps.unsigned_abs())?;
    text.extend_from_slice("\" }".as_bytes())
}
