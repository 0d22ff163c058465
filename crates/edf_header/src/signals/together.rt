//! The tests of a header's signals together.

ghost use Rattle.std.specs.Prelude.{◌≡◌, ◌*◌, ◌≤◌, ◌<◌, ◌-◌, ◌^◌, IsTrue, nat_le, true, false, length, take, None, Some, IfSome, IfOk, IfErr, MatchOption, MatchResult, map};
ghost use Rattle.std.specs.List.{list_any, list_all};
ghost use Rattle.edf_header.specs.signals.Channels.{channel_labels as labels_of_channels};
ghost use Rattle.edf_header.specs.signals.ChannelsReading.{is_channel_of as is_channel_of_label, channel_place, is_repeated as is_repeated_label};
ghost use Rattle.edf_header.specs.Faults.{no_annotation_signal, no_ordinary_signal, labels_faults, record_too_large, joint_faults};
ghost use Rattle.edf_fields.specs.Distinct.{are_distinct as are_distinct_texts};
ghost use Rattle.edf_fields.specs.Tests.{first};
ghost use Rattle.edf_header.specs.Heads.{is_annotations, samples_together};
ghost use Rattle.edf_header.specs.Stops.{Stops};

use crate::signals::signal::Signal;
use crate::stop::Stop;
use edf_fields::{Cause, Fault, FixedField, Place, SignalField, are_distinct};
use std::alloc::{AllocError, Global};

/// The most samples that a data record may have, two bytes each.
pub const MOST_RECORD_SAMPLES: u64 = 8_388_608;

/// Whether one of the signals holds annotations.
fn any_annotations(signals: &[Signal]) -> bool
    ensures { result ≡ list_any (λ s. is_annotations s.label) signals.now }
{
    signals.iter().any(|signal| signal.is_annotations())
}

/// Whether all of the signals hold annotations.
fn all_annotations(signals: &[Signal]) -> bool
    ensures { result ≡ list_all (λ s. is_annotations s.label) signals.now }
{
    signals.iter().all(|signal| signal.is_annotations())
}

/// Whether one signal at least holds annotations.
#[tactic(auto, unfolding(crate::specs::Faults::no_annotation_signal))]
fn annotation_signal(signals: &[Signal]) -> Result<(), Fault>
    ensures { MatchResult result (λ _. no_annotation_signal signals.now ≡ None) (λ f.
        no_annotation_signal signals.now ≡ Some f) }
{
    if any_annotations(signals) {
        return Ok(());
    }
    Err(Fault {
        place: Place::AtField(FixedField::Signals),
        cause: Cause::NoAnnotationSignal,
    })
}

/// Whether one signal at least is a channel.
#[tactic(auto, unfolding(crate::specs::Faults::no_ordinary_signal))]
fn ordinary_signal(signals: &[Signal]) -> Result<(), Fault>
    ensures { MatchResult result (λ _. no_ordinary_signal signals.now ≡ None) (λ f.
        no_ordinary_signal signals.now ≡ Some f) }
{
    if !all_annotations(signals) {
        return Ok(());
    }
    Err(Fault {
        place: Place::AtField(FixedField::Signals),
        cause: Cause::NoOrdinarySignal,
    })
}

/// Whether the signal is a channel of this label.
fn is_channel_of(signal: &Signal, label: &[u8]) -> bool
    ensures { result ≡ is_channel_of_label label.now signal.now }
{
    signal.label() == label && !signal.is_annotations()
}

/// The place of the first channel of this label among the signals.
fn find_channel(signals: &[Signal], label: &[u8]) -> Option<usize>
    ensures value { result ≡ channel_place label.now signals.now }
    ensures within { IfSome result (λ s. s < length signals.now) }
{
    for (s, signal) in signals.iter().enumerate() {
        if is_channel_of(signal, label) {
            return Some(s);
        }
    }
    None
}

/// Whether an earlier channel has the label of signal `s`.
#[tactic(auto, using(crate::proofs::signals::RepeatFacts::label_here))]
fn is_repeated(signals: &[Signal], s: usize) -> bool
    requires { s < length signals.now }
    ensures { result ≡ is_repeated_label signals.now s }
{
    find_channel(&signals[..s], signals[s].label()).is_some()
}

/// The first channel that has the label of an earlier one, if there is one; those before `from` have none.
/// Each label from there on is looked up among all signals before it.
#[tactic(auto, using(crate::proofs::signals::RepeatFacts::label_passed, crate::proofs::signals::RepeatFacts::label_found))]
fn judge_labels(signals: &[Signal], from: usize) -> Result<(), Fault>
    requires few { length signals.now < 2 ^ 16 }
    requires within { from ≤ length signals.now }
    requires front { first (labels_faults signals.now 0 (length signals.now)) ≡
        first (labels_faults signals.now from (length signals.now - from)) }
    ensures { MatchResult result
        (λ _. first (labels_faults signals.now 0 (length signals.now)) ≡ None)
        (λ f. first (labels_faults signals.now 0 (length signals.now)) ≡ Some f) }
{
    for s in from..signals.len() {
        if is_repeated(signals, s) {
            return Err(Fault {
                place: Place::AtSignal(s as u16, SignalField::Label),
                cause: Cause::DuplicateLabel,
            });
        }
    }
    Ok(())
}

/// The labels of the channels; none of them is copied.
fn channel_labels(alloc: Global, signals: &[Signal]) -> Result<Vec<&[u8]>, AllocError>
    ensures { IfOk result (λ v. map (λ t. t.now) v.items ≡ labels_of_channels signals.now) }
{
    let mut labels = Vec::with_capacity(alloc, signals.len())?;
    for signal in signals {
        if !signal.is_annotations() {
            labels.push(signal.label())?;
        }
    }
    Ok(labels)
}

/// Whether no two channels have one label.
fn has_distinct_labels(alloc: Global, signals: &[Signal]) -> Result<bool, AllocError>
    ensures { IfOk result (λ r. r ≡ are_distinct_texts (labels_of_channels signals.now)) }
{
    let mut labels = channel_labels(alloc, signals)?;
    Ok(are_distinct(&mut labels))
}

/// So many signals, from the first on, have channels of distinct labels. They are all those before the first
/// channel that has the label of an earlier one; but only speed rests on there being no more, and no clause says
/// it. The number is searched for by halves, with a sort for each.
fn distinct_front(alloc: Global, signals: &[Signal]) -> Result<usize, AllocError>
    ensures within { IfOk result (λ m. m ≤ length signals.now) }
    ensures distinct { IfOk result (λ m.
        IsTrue (are_distinct_texts (labels_of_channels (take m signals.now)))) }
{
    let mut low = 0;
    let mut high = signals.len();
    while low < high {
        let middle = high - (high - low) / 2;
        if has_distinct_labels(alloc, &signals[..middle])? {
            low = middle;
        } else {
            high = middle - 1;
        }
    }
    Ok(low)
}

/// Whether no channel has the label of an earlier one. Where the labels are distinct, one sort of them
/// says so.
#[tactic(auto, using(crate::proofs::signals::RepeatFacts::labels_pass, crate::proofs::signals::RepeatFacts::front_passes))]
fn distinct_labels(alloc: Global, signals: &[Signal]) -> Result<(), Stop>
    requires { length signals.now < 2 ^ 16 }
    ensures ok { IfOk result (λ _. first (labels_faults signals.now 0 (length signals.now)) ≡ None) }
    ensures stop { IfErr result (Stops (λ f. first (labels_faults signals.now 0 (length signals.now)) ≡
        Some f) ⊥ (Unit {0})) }
{
    if has_distinct_labels(alloc, signals)? {
        return Ok(());
    }
    let front = distinct_front(alloc, signals)?;
    judge_labels(signals, front)?;
    Ok(())
}

/// How many samples the signals have together in a data record, where they are at most `most`.
fn sum_up_to(signals: &[Signal], most: u64) -> Option<u64>
    requires { most < 2 ^ 32 }
    ensures { MatchOption result (nat_le (samples_together signals.now) most ≡ false) (λ sum.
        (nat_le (samples_together signals.now) most ≡ true) × (sum ≡ samples_together signals.now) ×
        (sum ≤ most)) }
{
    let mut sum = 0u64;
    for signal in signals {
        sum += u64::from(signal.samples());
        if sum > most {
            return None;
        }
    }
    Some(sum)
}

/// How many bytes a data record has: 16,777,216 at the most.
#[tactic(auto, unfolding(crate::specs::Faults::record_too_large))]
fn record_size(signals: &[Signal]) -> Result<u32, Fault>
    ensures { MatchResult result (λ size. (record_too_large signals.now ≡ None) ×
        (size ≡ 2 * samples_together signals.now) × (size ≤ 16777216)) (λ f. record_too_large signals.now ≡
        Some f) }
{
    match sum_up_to(signals, MOST_RECORD_SAMPLES) {
        Some(sum) => Ok(2 * sum as u32),
        None => Err(Fault {
            place: Place::AtField(FixedField::Signals),
            cause: Cause::RecordTooLarge,
        }),
    }
}

/// How many bytes a data record has, or the first fault of the signals together. Memory is asked for
/// only where there are both an annotation signal and a channel.
#[tactic(auto, using(crate::proofs::signals::TogetherFacts::size_left))]
pub(crate) fn judge_together(alloc: Global, signals: &[Signal]) -> Result<u32, Stop>
    requires { length signals.now < 2 ^ 16 }
    ensures ok { IfOk result (λ size. (first (joint_faults signals.now) ≡ None) ×
        (size ≡ 2 * samples_together signals.now) × (size ≤ 16777216)) }
    ensures stop { IfErr result (Stops (λ f. first (joint_faults signals.now) ≡ Some f) ⊥ (Unit {0})) }
{
    annotation_signal(signals)?;
    ordinary_signal(signals)?;
    distinct_labels(alloc, signals)?;
    Ok(record_size(signals)?)
}
