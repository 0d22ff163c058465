//! The subfields of a text.
//!
//! Subfields contain no space, and are separated by spaces (EDF+, "Additional specifications in
//! EDF+"); that more than one space may stand between two of them is this project's profile.
ghost use Rattle.std.specs.Prelude.{◌≡◌, ◌≢◌, ◌≤◌, ◌<◌, ◌∷◌, [], drop, length, slice_index, MatchOption, IfSome};
ghost use Rattle.std.specs.List.{position};
ghost use Rattle.edf_fields.specs.texts.SubfieldsReading.{is_space, subfields_of, subfields_left};

/// The subfields of a text, in order.
#[derive(Clone, Copy, Debug)]
pub struct Subfields<'a> {
    rest: &'a [u8],
}

/// How many spaces stand in front.
#[tactic(auto, using(crate::proofs::texts::SubfieldFacts::skip_space))]
fn leading_spaces(text: &[u8]) -> usize
    ensures rest { subfields_of (drop result text.now) ≡ subfields_of text.now }
    ensures first { result < length text.now → slice_index text.now result ≢ 32 }
    ensures within { result ≤ length text.now }
{
    let mut start = 0;
    while start < text.len() && text[start] == b' ' {
        start += 1;
    }
    start
}

/// The text without the spaces in front.
fn without_leading_spaces(text: &[u8]) -> &[u8]
    ensures rest { subfields_of result.now ≡ subfields_of text.entry.now }
    ensures first { 0 < length result.now → slice_index result.now 0 ≢ 32 }
{
    &text[leading_spaces(text)..]
}

/// The place of the first space.
fn space_place(text: &[u8]) -> Option<usize>
    ensures place { result ≡ position is_space text.now }
    ensures within { IfSome result (λ k. k < length text.now) }
{
    text.iter().position(|byte| *byte == b' ')
}

/// The first subfield, and what stands behind it; none where there are spaces alone.
#[tactic(auto, using(crate::proofs::texts::SubfieldFacts::none_left, crate::proofs::texts::SubfieldFacts::first_of_more, crate::proofs::texts::SubfieldFacts::only_one))]
fn first_subfield(text: &[u8]) -> Option<(&[u8], &[u8])>
    ensures { MatchOption result (subfields_of text.entry.now ≡ [])
        (λ x. subfields_of text.entry.now ≡ x.0.now ∷ subfields_of x.1.now) }
{
    let text = without_leading_spaces(text);
    if text.is_empty() {
        return None;
    }
    match space_place(text) {
        Some(end) => Some(text.split_at(end)),
        None => Some((text, &[])),
    }
}

impl<'a> Subfields<'a> {
    /// The subfields of this text.
    pub(crate) fn new(text: &'a [u8]) -> Subfields<'a>
        ensures { subfields_left result ≡ subfields_of text.entry.now }
    {
        Subfields { rest: text }
    }
}

impl<'a> Iterator for Subfields<'a> {
    ghost use Rattle.std.specs.Iterator.{YieldsFirstRef, item_count};
    ghost use Rattle.edf_fields.specs.texts.SubfieldsReading.{subfields_left};

    type Item = &'a [u8];

    ghost next_gives = { YieldsFirstRef subfields_left };

    ghost remaining = { item_count subfields_left };

    fn next(&mut self) -> Option<&'a [u8]> {
        match first_subfield(self.rest) {
            Some((subfield, rest)) => {
                self.rest = rest;
                Some(subfield)
            }
            None => None,
        }
    }
}
