//! The watcher of a check: it keeps the first difference of the samples, and lets somebody look on.

ghost use Rattle.std.specs.Prelude.{◌≡◌, ◌&&◌, IfSome, is_some, length, not, true};
ghost use Rattle.edf_claim.specs.KeepsReading.{IsUncut};
ghost use Rattle.edf_pace.specs.walk.Ends.{IsFoundAmong};
ghost use Rattle.edf_pace.specs.walk.Pairs.{IsFrame};
ghost use Rattle.edf_pace.specs.walk.Counting.{AreCounts};
ghost use Rattle.edf_pace.specs.walk.Watching.{HasSeenIn, IsFirst};
ghost use Rattle.edf_pace.specs.walk.Windows.{IsDifferenceBy};

use crate::walk::frame::Frame;
use crate::walk::watchers::onlooker::Onlooker;
use crate::walk::watchers::watcher::Watcher;
use crate::walk::window::{shows_the_same, window_difference};
use edf_samples::{Found, Window};
use edf_stream::FileReader;

/// The earliest difference of the channels between two times. Where the data records at hand show the same,
/// there is none.
#[inline(always)]
fn difference_in(
    original: &FileReader,
    export: &FileReader,
    frame: Frame<'_>,
    within: Window,
) -> Option<Found>
    requires frame { IsFrame original.now.head export.now.head frame }
    requires uncut { IsUncut ((frame.turn).setting.claim).now.keep (within.from).ps (within.to).ps }
    ensures value { IsDifferenceBy frame.entry original.now export.now within result }
    ensures modest { IfSome result (IsFoundAmong (length (frame.entry.pairs).now)) }
{
    if shows_the_same(original, export, frame, within) {
        return None;
    }
    window_difference(original, export, frame, within)
}

/// Keeps the earliest difference of the channels of a frame, of several at one instant that of the first label; then it
/// has seen enough, but for an onlooker that looks on.
#[derive(Drop)]
pub struct FirstFound<'a, L> {
    pub found: Option<Found>,
    pub onlooker: &'a mut L,
}

impl<'a, L: Onlooker> FirstFound<'a, L> {
    /// Finds the first difference, where there was none so far.
    #[inline(always)]
    fn find(&mut self, original: &FileReader, export: &FileReader, frame: Frame<'_>, within: Window)
        requires fits { IfSome self.old.found (IsFoundAmong (length (frame.pairs).now)) }
        requires frame { IsFrame original.now.head export.now.head frame }
        requires uncut { IsUncut ((frame.turn).setting.claim).now.keep (within.from).ps (within.to).ps }
        ensures fits { IfSome self.new.found (IsFoundAmong (length (frame.entry.pairs).now)) }
        ensures same { self.new.onlooker ≡ self.old.onlooker }
        ensures holds { HasSeenIn (IsFirst self.old.found) (IsFirst self.new.found) frame.entry original.now
            export.now within }
    {
        if self.found.is_none() {
            self.found = difference_in(original, export, frame, within);
        }
    }
}

impl<'a, L: Onlooker> Watcher for FirstFound<'a, L> {
    ghost fits = { λ w frame. IfSome w.found (IsFoundAmong (length (frame.pairs).now))
        × (L.looks w.onlooker.now ≡ true → length (L.counts w.onlooker.now) ≡ length (frame.pairs).now) };

    ghost has_enough = { λ w. is_some w.found && not (L.looks w.onlooker.now) };

    ghost lender = { λ w. w.onlooker.ghost_name };

    ghost keeps = { λ w. record { looks = L.looks w.onlooker.now; counted = L.counted w.onlooker.now } };

    ghost holds = { λ w frame files t u. IsFirst w.found frame files t u
        × (L.looks w.onlooker.now ≡ true → AreCounts (L.counts w.onlooker.now) frame files t u) };

    fn has_enough(&self) -> bool {
        self.found.is_some() && !self.onlooker.looks()
    }

    fn see(
        &mut self,
        original: &FileReader,
        export: &FileReader,
        frame: Frame<'_>,
        within: Window,
    ) {
        self.find(original, export, frame, within);
        if self.onlooker.looks() {
            self.onlooker.look(original, export, frame, within);
        }
    }
}
