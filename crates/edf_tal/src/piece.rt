//! Reading a TAL from a piece of a lane, which a byte 0 follows.

ghost use Rattle.std.specs.Prelude.{◌≡◌, ◌<◌, ◌^◌, ◌≤ℤ◌, pos, length, unsigned_abs, Ok, Some, IfSome, IfOk, MatchResult};
ghost use Rattle.edf_fields.specs.texts.OnsetsReading.{onset_of};
ghost use Rattle.edf_tal.specs.Reading.{until, duration_of, tal_of_parts, tal_of, IsClosed};
ghost use Rattle.edf_tal.specs.Times.{SaysNoTimes};
ghost use Rattle.edf_tal.specs.Views.{item_view};

use crate::annotation_text::{TEXT_END, checked};
use crate::separator::cut;
use crate::tal::Tal;
use edf_fields::{TalCause, onset, span};

/// The byte between an onset and a duration.
const DURATION: u8 = 21;

/// The onset of a TAL, and its duration, where it has one.
#[derive(Clone, Copy)]
struct TalTimes {
    onset: i128,
    duration: Option<i128>,
}

/// The times in what stands before the first byte 20: first the onset is read, then the duration.
fn times_in(head: &[u8]) -> Result<TalTimes, TalCause>
    ensures said { MatchResult result (λ times. (onset_of (until 21 head.now) ≡ Some times.onset) ×
        (duration_of head.now ≡ Ok times.duration)) (λ cause. SaysNoTimes head.now cause) }
    ensures small { IfOk result (λ times. unsigned_abs times.onset < 10 ^ 21) }
    ensures short { IfOk result (λ times. IfSome times.duration (λ v. unsigned_abs v < 10 ^ 21)) }
    ensures not_negative { IfOk result (λ times. IfSome times.duration (λ v. pos 0 ≤ℤ v)) }
{
    let Some((front, text)) = cut(head, DURATION) else {
        return match onset(head) {
            Some(onset) => Ok(TalTimes {
                onset,
                duration: None,
            }),
            None => Err(TalCause::BadOnset),
        };
    };
    let Some(begin) = onset(front) else {
        return Err(TalCause::BadOnset);
    };
    match span(text) {
        Some(duration) => Ok(TalTimes {
            onset: begin,
            duration: Some(duration),
        }),
        None => Err(TalCause::BadDuration),
    }
}

/// A TAL of what stands before its first byte 20, and what stands behind it: first the times are read, then the
/// texts.
#[tactic(auto, unfolding(crate::specs::Reading::tal_of_parts))]
fn read_parts<'a>(head: &[u8], body: &'a [u8]) -> Result<Tal<'a>, TalCause>
    requires { IsClosed body.now }
    ensures { item_view result ≡ tal_of_parts head.now body.now }
{
    match times_in(head) {
        Err(cause) => Err(cause),
        Ok(times) => match checked(body) {
            Err(cause) => Err(cause),
            Ok(body) => Ok(Tal {
                onset: times.onset,
                duration: times.duration,
                body,
            }),
        },
    }
}

/// A TAL of what stands before a byte 0, or the first cause why it is none.
#[tactic(auto, using(crate::proofs::LaneFacts::open_piece, crate::proofs::LaneFacts::closed_piece, crate::proofs::LaneFacts::closed_cut, crate::proofs::LaneFacts::closed_after))]
pub(crate) fn read_tal(piece: &[u8]) -> Result<Tal<'_>, TalCause>
    requires { 0 < length piece.now }
    ensures { item_view result ≡ tal_of piece.now }
{
    if piece[piece.len() - 1] != TEXT_END {
        return Err(TalCause::NoEnd);
    }
    match cut(piece, TEXT_END) {
        Some((head, body)) => read_parts(head, body),
        None => Err(TalCause::NoEnd),
    }
}
