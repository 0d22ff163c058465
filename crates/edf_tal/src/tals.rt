//! The TALs of a lane.

ghost use Rattle.std.specs.Prelude.{◌≡◌, ◌↔◌, List, map, ◌++◌, [], ◌∷◌, Ok, Err, MatchOption};
ghost use Rattle.edf_fields.specs.declared.faults.cause.TalCause.{TalCause};
ghost use Rattle.edf_tal.specs.Tals.{TalValue, IsLaneOf};
ghost use Rattle.edf_tal.specs.Reading.{items_of};
ghost use Rattle.edf_tal.specs.Faults.{FaultAfter};
ghost use Rattle.edf_tal.specs.Views.{item_view, items_left};

use crate::piece::read_tal;
use crate::separator::cut_far;
use crate::tal::Tal;
use crate::zeros::are_zeros;
use edf_fields::TalCause;

/// The first item of a lane, and the lane behind it; behind a fault nothing is left.
#[tactic(auto, using(crate::proofs::LaneFacts::nothing_there, crate::proofs::LaneFacts::zeros_alone, crate::proofs::LaneFacts::zeros_and_others, crate::proofs::LaneFacts::without_end, crate::proofs::LaneFacts::tal_read, crate::proofs::LaneFacts::tal_refused))]
fn first_item(lane: &[u8]) -> Option<(Result<Tal<'_>, TalCause>, &[u8])>
    ensures { MatchOption result (items_of lane.now ≡ []) (λ x.
        items_of lane.now ≡ item_view x.0 ∷ items_of x.1.now) }
{
    if lane.is_empty() {
        return None;
    }
    if lane[0] == 0 {
        return if are_zeros(lane) {
            None
        } else {
            Some((Err(TalCause::NotZeroFilled), &[]))
        };
    }
    match cut_far(lane, 0) {
        None => Some((Err(TalCause::NoEnd), &[])),
        Some((piece, rest)) => match read_tal(piece) {
            Ok(tal) => Some((Ok(tal), rest)),
            Err(cause) => Some((Err(cause), &[])),
        },
    }
}

/// The TALs of a lane, in order (EDF+, "Time-stamped Annotations Lists (TALs) in an 'EDF Annotations'
/// signal"). An `Err` is the last item.
#[derive(Clone, Debug, Drop)]
pub struct Tals<'a> {
    rest: &'a [u8],
}

impl<'a> Tals<'a> {
    /// The TALs of a lane: the bytes of one annotation signal in one data record.
    ///
    /// A lane is TALs one behind the other from its first byte, then zeros to its end. Where it is anything
    /// else, the last item is the first cause: of each TAL first that no byte 0 follows, or that the byte
    /// before the first one isn't 20; then its onset, its duration, then text by text its encoding and its
    /// control bytes; where a byte 0 stands in a TAL's first place, a later byte other than 0.
    pub fn new(lane: &'a [u8]) -> Tals<'a>
        ensures items { items_left result ≡ items_of lane.now }

        // No item is an `Err` exactly where the lane is one of TALs, and those are the items.
        ensures grammar { (tals : List TalValue) →
            IsLaneOf lane.now tals ↔ (items_of lane.now ≡ map Ok tals) }

        // Else they are the TALs before the first fault, and its cause.
        ensures fault { (tals : List TalValue) (cause : TalCause) →
            FaultAfter lane.now tals cause ↔ (items_of lane.now ≡ map Ok tals ++ Err cause ∷ []) }
    {
        Tals { rest: lane }
    }
}

impl<'a> Iterator for Tals<'a> {
    ghost use Rattle.std.specs.Iterator.{YieldsFirstBy, item_count};
    ghost use Rattle.edf_tal.specs.Views.{item_view, items_left};

    type Item = Result<Tal<'a>, TalCause>;

    ghost next_gives = { YieldsFirstBy item_view items_left };

    ghost remaining = { item_count items_left };

    fn next(&mut self) -> Option<Result<Tal<'a>, TalCause>> {
        match first_item(self.rest) {
            Some((item, rest)) => {
                self.rest = rest;
                Some(item)
            }
            None => None,
        }
    }
}
