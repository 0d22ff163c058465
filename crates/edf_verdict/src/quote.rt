//! A text between quotation marks, in bytes that a line of text can hold.

ghost use Rattle.std.specs.Prelude.{◌≡◌, ◌<◌, ◌++◌, [], ◌∷◌, OnOk};
ghost use Rattle.std.specs.List.{flat_map, list_all};
ghost use Rattle.edf_verdict.specs.Quotes.{is_plain as is_plain_byte, hex_digit as hex_digit_of, quoted_byte, quoted, with_quoted};

use std::alloc::AllocError;

/// Whether the byte stands for itself between the quotation marks.
fn is_plain(byte: u8) -> bool
    ensures { result ≡ is_plain_byte byte }
{
    byte >= 32 && byte != b'"' && byte != b'\\' && byte != 127
}

/// The lower-case hexadecimal digit of this value.
fn hex_digit(value: u8) -> u8
    requires { value < 16 }
    ensures { result ≡ hex_digit_of value }
{
    if value < 10 {
        b'0' + value
    } else {
        b'a' + (value - 10)
    }
}

/// Puts a byte behind the line as it stands between quotation marks.
fn push_byte(line: &mut Vec<u8>, byte: u8) -> Result<(), AllocError>
    ensures { OnOk result (line.new.items ≡ line.old.items ++ quoted_byte byte) }
{
    if is_plain(byte) {
        line.push(byte)?;
    } else {
        line.extend_from_slice(&[b'\\', b'x', hex_digit(byte / 16), hex_digit(byte % 16)])?;
    }
    Ok(())
}

/// Whether all bytes stand for themselves between the quotation marks.
fn are_plain(text: &[u8]) -> bool
    ensures { result ≡ list_all is_plain_byte text.now }
{
    text.iter().all(|byte| is_plain(*byte))
}

/// Puts the bytes behind the line as they stand between quotation marks, byte by byte.
fn push_bytes(line: &mut Vec<u8>, text: &[u8]) -> Result<(), AllocError>
    ensures { OnOk result (line.new.items ≡ line.old.items ++ flat_map quoted_byte text.now) }
{
    for byte in text {
        push_byte(line, *byte)?;
    }
    Ok(())
}

/// Puts the bytes behind the line as they stand between quotation marks: most texts stand there as they are.
#[tactic(auto, using(crate::proofs::QuoteFacts::plain_quoted))]
fn push_inner(line: &mut Vec<u8>, text: &[u8]) -> Result<(), AllocError>
    ensures { OnOk result (line.new.items ≡ line.old.items ++ flat_map quoted_byte text.now) }
{
    if are_plain(text) {
        line.extend_from_slice(text)
    } else {
        push_bytes(line, text)
    }
}

/// How many bytes stand beside a text as a rule: the two quotation marks, and the end of its line.
const BESIDE: usize = 3;

/// Puts the text behind the line, between quotation marks.
///
/// There each byte below 32, a quotation mark, a backslash and byte 127 is `\x` and two lower-case
/// hexadecimal digits, and every other byte stands for itself. The error is want of memory.
pub fn push_quoted(line: &mut Vec<u8>, text: &[u8]) -> Result<(), AllocError>
    ensures { OnOk result (line.new.items ≡ line.old.items ++ quoted text.now) }
{
    line.reserve(text.len().saturating_add(BESIDE))?;
    line.push(b'"')?;
    push_inner(line, text)?;
    line.push(b'"')?;
    Ok(())
}

/// Puts the words and the quoted text behind the line. The error is want of memory.
#[tactic(auto, unfolding(crate::specs::Quotes::with_quoted))]
pub fn push_with_quoted(line: &mut Vec<u8>, words: &str, text: &[u8]) -> Result<(), AllocError>
    ensures { OnOk result (line.new.items ≡ line.old.items ++ with_quoted words.now text.now) }
{
    line.extend_from_slice(words.as_bytes())?;
    push_quoted(line, text)
}
