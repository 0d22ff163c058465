//! Files that were typed in the places of others: one twice, or the original and the export exchanged.

ghost use Rattle.std.specs.Prelude.{◌≡◌, ◌↔◌, IfSome, IsTrue};
ghost use Rattle.edf_heads.specs.Comparisons.{IsUnchanged};
ghost use Rattle.edf_findings.specs.Likeness.{AreUnchanged, HaveSameTexts, MayBe, SayTheSame, all_alike, are_same_signals_of, has_subfield_of, have_same_texts_of};

use crate::clock::start_of;
use crate::heads::extremes::have_same_extremes;
use edf_claim::Claim;
use edf_fields::Which;
use edf_header::{Header, Signal};
use edf_heads::{is_anonymous, is_unchanged};

/// Whether the texts of two signals are the same.
fn are_same_texts(one: &Signal, other: &Signal) -> bool
    ensures { result ≡ have_same_texts_of one.now other.now }
{
    one.label() == other.label()
        && one.transducer() == other.transducer()
        && one.prefilter() == other.prefilter()
}

/// Whether two signals are the same in all that a header says of them, but for free text.
fn are_same_signals(one: &Signal, other: &Signal) -> bool
    ensures { result ≡ are_same_signals_of one.now other.now }
{
    are_same_texts(one, other)
        && one.dimension() == other.dimension()
        && one.samples() == other.samples()
        && have_same_extremes(one.calibration(), other.calibration())
}

/// Whether each of these subfields is the same in two headers.
fn are_unchanged(one: &Header, other: &Header, whiches: &[Which]) -> bool
    ensures { IsTrue result ↔ AreUnchanged one.now other.now whiches.now }
{
    for which in whiches {
        if !is_unchanged(one, other, *which) {
            return false;
        }
    }
    true
}

/// Whether all subfields of two headers are the same.
fn are_same_subfields(one: &Header, other: &Header) -> bool
    ensures { IsTrue result ↔ ((which : Which) → IsUnchanged one.now other.now which) }
{
    are_unchanged(one, other, Which::all())
}

/// Whether these signals are as many, and each has the texts of the one at its place.
#[tactic(auto, using(crate::proofs::LikenessFacts::others_unlike))]
fn all_have_same_texts(one: &[Signal], other: &[Signal]) -> bool
    ensures { result ≡ all_alike have_same_texts_of one.now other.now }
{
    if one.len() != other.len() {
        return false;
    }
    for place in 0..one.len() {
        if !are_same_texts(&one[place], &other[place]) {
            return false;
        }
    }
    true
}

/// Whether two headers have the same texts: subfields, labels, sensors and filters.
pub fn have_same_texts(one: &Header, other: &Header) -> bool
    ensures { IsTrue result ↔ HaveSameTexts one.now other.now }
{
    all_have_same_texts(one.signals(), other.signals()) && are_same_subfields(one, other)
}

/// Whether these signals are as many, and each is the same as the one at its place, but for free text.
#[tactic(auto, using(crate::proofs::LikenessFacts::others_unlike))]
fn all_are_same(one: &[Signal], other: &[Signal]) -> bool
    ensures { result ≡ all_alike are_same_signals_of one.now other.now }
{
    if one.len() != other.len() {
        return false;
    }
    for place in 0..one.len() {
        if !are_same_signals(&one[place], &other[place]) {
            return false;
        }
    }
    true
}

/// Whether two headers say the same, but for free text.
fn are_same(one: &Header, other: &Header) -> bool
    ensures { IsTrue result ↔ SayTheSame one.now other.now }
{
    if start_of(one) != start_of(other) {
        return false;
    }
    if one.records() != other.records() {
        return false;
    }
    if one.duration_ps() != other.duration_ps() {
        return false;
    }
    all_are_same(one.signals(), other.signals()) && are_same_subfields(one, other)
}

/// Whether a header has a subfield: of those behind the name and behind the equipment there may be none.
pub fn has_subfield(header: &Header, which: Which) -> bool
    ensures { result ≡ has_subfield_of header.now which }
{
    let mut extras = match which {
        Which::PatientExtras => header.patient().extras(),
        Which::RecordingExtras => header.recording().extras(),
        _ => return true,
    };
    extras.next().is_some()
}

/// How many of the subfields that a claim hides are `X` in a header, and how many are shown. The date isn't counted, which many
/// writers show.
fn hidden_and_shown(claim: &Claim, header: &Header) -> (usize, usize) {
    let mut hidden: usize = 0;
    let mut shown: usize = 0;
    for which in Which::all() {
        if *which != Which::Date && claim.is_anonymous(*which) && has_subfield(header, *which) {
            if is_anonymous(header, *which) {
                hidden = hidden.saturating_add(1);
            } else {
                shown = shown.saturating_add(1);
            }
        }
    }
    (hidden, shown)
}

/// Whether a claim changes something of the header of this original.
fn changes_header(claim: &Claim, original: &Header) -> bool {
    let (_, shown) = hidden_and_shown(claim, original);
    claim.shift_ps() != 0 || shown > 0
}

/// What it looks like where one file stands in the places of both, or each in the place of the other.
#[derive(Clone, Copy)]
pub enum Exchange {
    /// The export was typed as the original, too.
    ExportTwice,
    /// The original was typed as the export, too, or nothing was changed in the export.
    OriginalTwice,
    /// Each was typed in the place of the other.
    Swapped,
}

/// What it looks like where one file stands in the places of both, or each in the place of the other; none where it doesn't
/// look so.
pub fn exchange_of(claim: &Claim, original: &Header, export: &Header) -> Option<Exchange>
    ensures { IfSome result (MayBe original.now export.now) }
{
    let (hidden, in_original) = hidden_and_shown(claim, original);
    let (_, in_export) = hidden_and_shown(claim, export);
    let is_hidden = hidden > 0 && in_original == 0;
    if !are_same(original, export) {
        return if is_hidden && in_export > 0 {
            Some(Exchange::Swapped)
        } else {
            None
        };
    }
    if !changes_header(claim, original) {
        None
    } else if is_hidden {
        Some(Exchange::ExportTwice)
    } else {
        Some(Exchange::OriginalTwice)
    }
}
