//! What is counted of a channel, and in which data records the first and the last of each kind lie.

ghost use Rattle.std.specs.Prelude.{◌≡◌, option_map};
ghost use Rattle.edf_pace.specs.walk.Hands.{counted_on, found_on, records_at};
ghost use Rattle.edf_pace.specs.walk.Spots.{no_count};

use crate::walk::watchers::at_hand::{Hands, is_before_time};
use edf_samples::{Counted, PointDifference, Tally, Time};
use std::mem::size_of;

/// In which data record of an original and in which of an export an instant lies, counted from 0; none where it lies in none.
#[derive(Clone, Copy)]
pub struct RecordsAt {
    pub original: Option<u32>,
    pub export: Option<u32>,
}

/// In which data records the first and the last of some samples lie.
#[derive(Clone, Copy)]
pub struct FoundIn {
    pub first: Option<RecordsAt>,
    pub last: Option<RecordsAt>,
}

/// In which of the data records at hand a difference lies, if there is one.
fn records_of(hands: &Hands, difference: Option<PointDifference>) -> Option<RecordsAt>
    ensures { result ≡ option_map (λ (d : PointDifference). records_at hands.now d.at) difference }
{
    match difference {
        Some(difference) => Some(hands.records_at(difference.at)),
        None => None,
    }
}

impl FoundIn {
    /// None was found.
    const NONE: FoundIn = FoundIn {
        first: None,
        last: None,
    };

    /// Notes where the first and the last of some differences lie, of which those since a time lie in the data records at hand.
    #[inline(always)]
    fn note(&mut self, counted: &Counted, hands: &Hands, since: Time)
        ensures { self.new ≡ found_on hands.now since.ps self.old counted.now }
    {
        let Some(last) = counted.last else {
            return;
        };
        if is_before_time(last.at, since) {
            return;
        }
        self.last = Some(hands.records_since(since, last.at));
        if self.first.is_none() {
            self.first = records_of(hands, counted.first);
        }
    }
}

/// The differences of a channel, counted by kind, and in which data records the first and the last of each kind lie.
#[derive(Clone, Copy)]
pub struct ChannelCount {
    pub tally: Tally,
    pub missing: FoundIn,
    pub extra: FoundIn,
    pub changed: FoundIn,
}

// An explanation holds one for each claimed channel, of which there are up to 9,998, of each of up to 64 exports.
const _: () = prove!(size_of::<ChannelCount>() == 624);

impl ChannelCount {
    /// That of no difference.
    pub(crate) fn none() -> ChannelCount
        ensures { result ≡ no_count }
    {
        ChannelCount {
            tally: Tally::none(),
            missing: FoundIn::NONE,
            extra: FoundIn::NONE,
            changed: FoundIn::NONE,
        }
    }

    /// Notes where the differences lie that were counted since a time, while these data records were at hand.
    pub(crate) fn note(&mut self, hands: &Hands, since: Time)
        ensures { self.new ≡ counted_on hands.now since.ps self.old self.old.tally }
    {
        self.missing.note(&self.tally.missing, hands, since);
        self.extra.note(&self.tally.extra, hands, since);
        self.changed.note(&self.tally.changed, hands, since);
    }
}
