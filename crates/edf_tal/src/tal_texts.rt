//! The texts of a TAL.

ghost use Rattle.std.specs.Prelude.{◌≡◌, ◌<◌, ◌∷◌, [], length, MatchOption};
ghost use Rattle.edf_tal.specs.Reading.{texts_of};

/// The first text, and what stands behind it; none where no byte 20 ends one.
fn first_text_of(body: &str) -> Option<(&str, &str)>
    ensures { MatchOption result (texts_of body.now ≡ []) (λ x.
        (texts_of body.now ≡ x.0.now ∷ texts_of x.1.now) × (length x.1.now < length body.now)) }
{
    if body.is_empty() {
        return None;
    }
    body.split_once('\u{14}')
}

/// The texts of a TAL, in order: each a slice of the lane, UTF-8 without control bytes (EDF+,
/// "Time-stamped Annotations Lists (TALs) in an 'EDF Annotations' signal").
#[derive(Clone, Debug, Drop)]
pub struct TalTexts<'a> {
    pub(crate) rest: &'a str,
}

impl<'a> Iterator for TalTexts<'a> {
    ghost use Rattle.std.specs.Iterator.{YieldsFirstRef, item_count};
    ghost use Rattle.edf_tal.specs.Views.{texts_left};

    type Item = &'a str;

    ghost next_gives = { YieldsFirstRef texts_left };

    ghost remaining = { item_count texts_left };

    fn next(&mut self) -> Option<&'a str> {
        let (text, rest) = first_text_of(self.rest)?;
        self.rest = rest;
        Some(text)
    }
}
