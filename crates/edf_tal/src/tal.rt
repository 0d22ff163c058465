//! One TAL.

ghost use Rattle.std.specs.Prelude.{◌≡◌, ◌<◌, ◌^◌, ◌≤ℤ◌, pos, length, unsigned_abs, IfSome};
ghost use Rattle.std.proofs.Props.{props};
ghost use Rattle.edf_tal.specs.Reading.{texts_of};

use crate::annotation_text::TEXT_END;
use crate::tal_texts::TalTexts;

/// A time-stamped annotation list: an onset, maybe a duration, and texts (EDF+, "Time-stamped Annotations
/// Lists (TALs) in an 'EDF Annotations' signal").
#[derive(Clone, Copy, Debug)]
pub struct Tal<'a> {
    pub(crate) onset: i128,
    pub(crate) duration: Option<i128>,
    pub(crate) body: &'a str,
    ghost onset_small: { unsigned_abs onset < 10 ^ 21 },
    ghost duration_small: { IfSome duration (λ v. unsigned_abs v < 10 ^ 21) } by { Prim.hlevel props },
    ghost not_negative: { IfSome duration (λ v. pos 0 ≤ℤ v) } by { Prim.hlevel props },
}

/// How many texts there are: each ends before a byte 20.
#[tactic(auto, using(crate::proofs::TextFacts::ends_counted))]
fn count_ends(body: &[u8]) -> usize
    ensures { result ≡ length (texts_of body.now) }
{
    let mut count = 0;
    for byte in body {
        if *byte == TEXT_END {
            count += 1;
        }
    }
    count
}

impl<'a> Tal<'a> {
    ghost use Rattle.edf_tal.specs.Views.{tal_view, texts_left};

    /// The onset in picoseconds after the start of the file, below 0 where it lies before it. The profile
    /// bounds it: it is less than 1,000,000,000 s before or after that start.
    pub fn onset(&self) -> i128
        ensures value { result ≡ (tal_view self.now).onset }
        ensures small { unsigned_abs result < 10 ^ 21 }
    {
        self.onset
    }

    /// The duration in picoseconds, where there is one: at least 0, and by the profile less than
    /// 1,000,000,000 s.
    pub fn duration(&self) -> Option<i128>
        ensures value { result ≡ (tal_view self.now).duration }
        ensures small { IfSome result (λ v. unsigned_abs v < 10 ^ 21) }
        ensures not_negative { IfSome result (λ v. pos 0 ≤ℤ v) }
    {
        self.duration
    }

    /// The texts, in order.
    pub fn texts(&self) -> TalTexts<'a>
        ensures { texts_left result ≡ (tal_view self.now).texts }
    {
        TalTexts { rest: self.body }
    }

    /// How many texts there are.
    pub fn text_count(&self) -> usize
        ensures { result ≡ length (tal_view self.now).texts }
    {
        count_ends(self.body.as_bytes())
    }
}
