//! Judging the texts of a TAL.

ghost use Rattle.std.specs.Prelude.{◌≡◌, ◌<◌, ◌∷◌, [], length, Ok, Err, MatchOption, MatchResult};
ghost use Rattle.std.specs.List.{list_any};
ghost use Rattle.edf_tal.specs.Reading.{texts_of, judge_text, judge_texts, is_foreign, IsClosed, is_control};

use crate::separator::cut;
use crate::tal_texts::TalTexts;
use edf_fields::TalCause;

/// The byte that ends a text.
pub const TEXT_END: u8 = 20;

/// Whether a byte is a control byte other than 9, 10 and 13.
fn is_control(byte: u8) -> bool
    ensures { result ≡ is_control byte }
{
    byte < 32 && !(byte == 9 || byte == 10 || byte == 13)
}

/// Whether one of them stands among the bytes.
fn has_control(bytes: &[u8]) -> bool
    ensures { result ≡ list_any is_control bytes.now }
{
    bytes.iter().any(|byte| is_control(*byte))
}

/// Whether one of them stands among the bytes that doesn't end a text.
fn has_foreign(body: &[u8]) -> bool
    ensures { result ≡ list_any is_foreign body.now }
{
    body.iter()
        .any(|byte| is_control(*byte) && *byte != TEXT_END)
}

/// The first text, and what stands behind it.
fn first_text(body: &[u8]) -> Option<(&[u8], &[u8])>
    ensures { MatchOption result (texts_of body.now ≡ []) (λ x.
        (texts_of body.now ≡ x.0.now ∷ texts_of x.1.now) × (length x.1.now < length body.now)) }
{
    cut(body, TEXT_END)
}

/// Whether the bytes are a text of the profile.
#[tactic(auto, using(crate::proofs::TextFacts::not_utf8, crate::proofs::TextFacts::has_control, crate::proofs::TextFacts::is_fine))]
fn judge_text(text: &[u8]) -> Result<(), TalCause>
    ensures { result ≡ judge_text text.now }
{
    match simdutf8::basic::from_utf8(text) {
        Err(_) => Err(TalCause::NotUtf8),
        Ok(_) => {
            if has_control(text) {
                Err(TalCause::ControlByte)
            } else {
                Ok(())
            }
        }
    }
}

/// The first fault of the texts, each judged by itself.
fn judge_one_by_one(body: &[u8]) -> Result<(), TalCause>
    ensures { result ≡ judge_texts (texts_of body.now) }
{
    let mut left = body;
    while let Some((text, rest)) = first_text(left) {
        match judge_text(text) {
            Ok(()) => left = rest,
            Err(cause) => return Err(cause),
        }
    }
    Ok(())
}

/// The first fault of the texts, which are UTF-8 as a whole.
fn judge_utf8(body: &str) -> Result<(), TalCause>
    ensures { result ≡ judge_texts (texts_of body.now) }
{
    for text in (TalTexts { rest: body }) {
        if has_control(text.as_bytes()) {
            return Err(TalCause::ControlByte);
        }
    }
    Ok(())
}

/// The texts' part of a TAL as one text, or the first fault of the texts. Its encoding is checked once, for all
/// of them together, and so are their control bytes; only where one stands there the texts are gone through.
pub(crate) fn checked(body: &[u8]) -> Result<&str, TalCause>
    requires { IsClosed body.now }
    ensures { MatchResult result
        (λ text. (text.now ≡ body.now) × (judge_texts (texts_of body.now) ≡ Ok tt))
        (λ cause. judge_texts (texts_of body.now) ≡ Err cause) }
{
    match simdutf8::basic::from_utf8(body) {
        Ok(text) if !has_foreign(body) => Ok(text),
        Ok(text) => match judge_utf8(text) {
            Ok(()) => Ok(text),
            Err(cause) => Err(cause),
        },
        Err(_) => match judge_one_by_one(body) {
            Ok(()) => Err(TalCause::NotUtf8),
            Err(cause) => Err(cause),
        },
    }
}
