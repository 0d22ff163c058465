//! Where a data record starts. EDF+ (2003), "Time keeping of data records".

ghost use Rattle.std.specs.Prelude.{◌≡◌, ◌↔◌, ◌<◌, ◌^◌, ℤ, List, [], ◌∷◌, Ok, Err, unsigned_abs, IfOk, IfSome, MatchOption};
ghost use Rattle.std.specs.Option.{option_map};
ghost use Rattle.edf_fields.specs.declared.faults.cause.TalCause.{TalCause};
ghost use Rattle.edf_tal.specs.Faults.{HasFault};
ghost use Rattle.edf_tal.specs.Reading.{Item, items_of, ends_alone, time_alone_of};
ghost use Rattle.edf_tal.specs.Timekeeping.{StartsAt, KeepsNoTime, IsTimeAlone, time_tal};
ghost use Rattle.edf_tal.specs.Views.{tal_view, item_view, kept_time, first_of, start_by, start_of};
ghost use Rattle.edf_tal.specs.declared.start.StartCause.TheVariants as start;

use crate::annotation_text::TEXT_END;
use crate::separator::{cut, cut_near};
use crate::tal::Tal;
use crate::tals::Tals;
use crate::zeros::are_zeros;
use edf_fields::{TalCause, onset};

/// Why a lane doesn't say where its data record starts (EDF+, "Time keeping of data records").
#[derive(Clone, Copy, Debug, PartialEq, Eq)]
pub enum StartCause {
    /// Its first TAL has a fault, or a bad filling stands in its place.
    Tal(TalCause),
    /// Its first TAL doesn't begin with an empty text, or it has none.
    NoTimekeeping,
}

/// The onset of a TAL whose first text is empty: its texts begin with the byte that ends one.
#[tactic(auto, using(crate::proofs::StartFacts::time_kept, crate::proofs::StartFacts::no_time_kept, crate::proofs::StartFacts::no_text))]
fn kept_time(tal: &Tal<'_>) -> Result<i128, StartCause>
    ensures value { result ≡ kept_time (tal_view tal.now).onset (tal_view tal.now).texts }
    ensures small { IfOk result (λ v. unsigned_abs v < 10 ^ 21) }
{
    let texts = tal.body.as_bytes();
    if !texts.is_empty() && texts[0] == TEXT_END {
        return Ok(tal.onset());
    }
    Err(StartCause::NoTimekeeping)
}

/// Where a data record starts, by the first item of its lane.
fn start_by(first: Option<&Result<Tal<'_>, TalCause>>) -> Result<i128, StartCause>
    ensures value { result ≡ start_by (option_map (λ item. item_view item.now) first.entry) }
    ensures small { IfOk result (λ v. unsigned_abs v < 10 ^ 21) }
{
    match first {
        Some(Ok(tal)) => kept_time(tal),
        Some(Err(cause)) => Err(StartCause::Tal(*cause)),
        None => Err(StartCause::NoTimekeeping),
    }
}

/// Where a data record starts, by the first TAL of the lane.
fn start_in(lane: &[u8]) -> Result<i128, StartCause>
    ensures value { result ≡ start_of (items_of lane.now) }
    ensures small { IfOk result (λ v. unsigned_abs v < 10 ^ 21) }
{
    start_by(Tals::new(lane).next().as_ref())
}

/// Where a data record starts, in picoseconds after the start of the file, by the first item that `Tals`
/// gives of the lane of its first annotation signal, or by there being none: what `record_start` says of
/// that lane. EDF+ (2003), "Time keeping of data records".
///
/// Who walks over the lane's TALs has the start by their first one, and no TAL is read twice.
pub fn start_by_first(first: Option<&Result<Tal<'_>, TalCause>>) -> Result<i128, StartCause>
    ensures value { result ≡ start_by (option_map (λ item. item_view item.now) first.entry) }

    // So it is for whatever items this one is the first of, as those of a lane.
    ensures walk { (items : List Item) →
        first_of items ≡ option_map (λ item. item_view item.now) first.entry → result ≡ start_of items }
    ensures small { IfOk result (λ v. unsigned_abs v < 10 ^ 21) }
{
    start_by(first)
}

/// Where a data record starts, in picoseconds after the start of the file, by the lane of its first
/// annotation signal: the onset of the first TAL, whose first text is empty. EDF+ (2003), "Time keeping of
/// data records".
///
/// Only the first TAL is looked at.
pub fn record_start(lane: &[u8]) -> Result<i128, StartCause>
    ensures start { (v : ℤ) → (result ≡ Ok v) ↔ StartsAt lane.now v }
    ensures fault { (cause : TalCause) → (result ≡ Err (start.Tal cause)) ↔ HasFault lane.now cause }
    ensures silent { (result ≡ Err start.NoTimekeeping) ↔ KeepsNoTime lane.now }
    ensures value { result ≡ start_of (items_of lane.now) }
    ensures small { IfOk result (λ v. unsigned_abs v < 10 ^ 21) }
{
    start_in(lane)
}

/// Whether what stands behind an onset is the end of an empty text, and zeros.
#[inline(always)]
fn ends_alone(texts: &[u8]) -> bool
    ensures { result ≡ ends_alone texts.now }
{
    texts.len() > 1 && texts[0] == TEXT_END && are_zeros(&texts[1..])
}

/// The onset of a lane that holds the TAL that keeps the time and nothing else.
#[inline(always)]
#[tactic(auto, unfolding(crate::specs::Reading::time_alone_of))]
fn time_alone_in(lane: &[u8]) -> Option<i128>
    ensures value { result ≡ time_alone_of lane.now }
    ensures small { IfSome result (λ v. unsigned_abs v < 10 ^ 21) }
{
    match cut_near(lane, TEXT_END) {
        Some((head, texts)) if ends_alone(texts) => onset(head),
        _ => None,
    }
}

/// Where a data record starts, in picoseconds after the start of the file, by a lane that holds the TAL that
/// keeps the time and nothing else, as that of most data records does; none where the lane holds anything
/// else. EDF+ (2003), "Time keeping of data records".
///
/// No TAL is made, so this is faster than a walk over the lane's TALs.
#[inline(always)]
#[tactic(auto, using(crate::proofs::AloneFacts::alone_decided, crate::proofs::AloneFacts::alone_items))]
pub fn time_alone(lane: &[u8]) -> Option<i128>
    ensures alone { MatchOption result ((v : ℤ) → ¬ IsTimeAlone lane.now v) (IsTimeAlone lane.now) }
    ensures items { IfSome result (λ v. items_of lane.now ≡ Ok (time_tal v) ∷ []) }
    ensures small { IfSome result (λ v. unsigned_abs v < 10 ^ 21) }
{
    time_alone_in(lane)
}

/// The onset of a lane that holds the TAL that keeps the time and nothing else, as `time_alone_in`.
#[tactic(auto, unfolding(crate::specs::Reading::time_alone_of))]
fn time_alone_by_bytes(lane: &[u8]) -> Option<i128>
    ensures value { result ≡ time_alone_of lane.now }
    ensures small { IfSome result (λ v. unsigned_abs v < 10 ^ 21) }
{
    match cut(lane, TEXT_END) {
        Some((head, texts)) if ends_alone(texts) => onset(head),
        _ => None,
    }
}

/// Where a data record starts, in picoseconds after the start of the file, by a lane that holds the TAL that
/// keeps the time and nothing else; none where the lane holds anything else. EDF+ (2003), "Time keeping of data
/// records".
///
/// `time_alone` says the same, and always stands in line where it is called; this is for one of several lanes.
#[tactic(auto, using(crate::proofs::AloneFacts::alone_decided, crate::proofs::AloneFacts::alone_items))]
pub fn time_alone_apart(lane: &[u8]) -> Option<i128>
    ensures alone { MatchOption result ((v : ℤ) → ¬ IsTimeAlone lane.now v) (IsTimeAlone lane.now) }
    ensures items { IfSome result (λ v. items_of lane.now ≡ Ok (time_tal v) ∷ []) }
    ensures small { IfSome result (λ v. unsigned_abs v < 10 ^ 21) }
{
    time_alone_by_bytes(lane)
}
