//! Which kinds of differences the samples of all channels have.

ghost use Rattle.std.specs.Prelude.{◌≡◌, ◌==◌, ◌&&◌, ◌*◌, nat_le, nat_lt, not};
ghost use Rattle.std.specs.List.{list_any};
ghost use Rattle.edf_findings.specs.Kinds.{has_nearly_all as has_nearly_all_of, nearly_all_from};

use crate::samples::compared::ComparedChannel;

/// What was found of the samples of all channels.
#[derive(Clone, Copy)]
pub struct SampleKinds {
    pub missing: bool,
    pub extra: bool,
    pub changed: bool,
    /// How many samples have other values, and of how many, where that are nearly all of each channel.
    pub nearly_all: Option<(u64, u64)>,
}

/// Of how few samples it isn't said that they are nearly all.
const FEW: u64 = 20;

/// Whether so many samples that have other values are nearly all of so many.
fn are_nearly_all(changed: u64, compared: u64) -> bool
    ensures { result ≡ (not (compared == 0) && nat_le (compared * 99) (changed * 100)) }
{
    compared != 0 && u128::from(compared) * 99 <= u128::from(changed) * 100
}

/// Whether nearly all samples of a channel have other values that both files have. Where a channel was sampled anew it isn't said.
fn has_nearly_all(channel: &ComparedChannel) -> bool
    ensures { result ≡ has_nearly_all_of channel.now }
{
    !channel.has_other_rate && are_nearly_all(channel.changed.count, channel.compared)
}

/// How many samples have other values, and of how many that both files have, where that are nearly all of each channel, and more
/// than a few.
fn nearly_all(channels: &[ComparedChannel]) -> Option<(u64, u64)>
    ensures { result ≡ nearly_all_from 0 0 channels.now }
{
    let mut changed: u64 = 0;
    let mut compared: u64 = 0;
    for channel in channels {
        if !has_nearly_all(channel) {
            return None;
        }
        changed = changed.saturating_add(channel.changed.count);
        compared = compared.saturating_add(channel.compared);
    }
    if compared > FEW {
        Some((changed, compared))
    } else {
        None
    }
}

impl SampleKinds {
    /// Those of all channels.
    pub fn of(channels: &[ComparedChannel]) -> SampleKinds
        ensures missing { result.missing ≡
            list_any (λ channel. nat_lt 0 (channel.missing).count) channels.now }
        ensures extra { result.extra ≡
            list_any (λ channel. nat_lt 0 (channel.extra).count) channels.now }
        ensures changed { result.changed ≡
            list_any (λ channel. nat_lt 0 (channel.changed).count) channels.now }
        ensures nearly_all { result.nearly_all ≡ nearly_all_from 0 0 channels.now }
    {
        let mut kinds = SampleKinds {
            missing: false,
            extra: false,
            changed: false,
            nearly_all: nearly_all(channels),
        };
        for channel in channels {
            kinds.missing = kinds.missing || channel.missing.count > 0;
            kinds.extra = kinds.extra || channel.extra.count > 0;
            kinds.changed = kinds.changed || channel.changed.count > 0;
        }
        kinds
    }
}
