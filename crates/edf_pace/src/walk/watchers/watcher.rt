//! Who looks at two files while they are read in step.

ghost use Rattle.std.specs.Prelude.{◌≡◌, ℕ, ℤ, Bool, false};
ghost use Rattle.edf_claim.specs.KeepsReading.{IsUncut};
ghost use Rattle.edf_pace.specs.declared.walk.frame.Frame.{Frame};
ghost use Rattle.edf_pace.specs.walk.Pairs.{IsFrame};
ghost use Rattle.edf_pace.specs.walk.Watching.{HasSeenIn, Kept, TwoFiles};

use crate::walk::frame::Frame;
use edf_samples::Window;
use edf_stream::FileReader;

/// Looks at what an original and a part show between two times, and then from the later one to the next, while both are
/// read in step.
pub trait Watcher {
    /// It can look at the channels of this frame.
    ghost fits: { Self → Frame → Type 0 };

    /// Whether it has seen enough.
    ghost has_enough: { Self → Bool };

    /// Whose onlooker it holds: a reference that it keeps.
    ghost lender: { Self → ℕ };

    /// What stays as it is while it sees.
    ghost keeps: { Self → Kept };

    /// What it holds is what it looks for in the channels of this frame of two files, from the first time on and before
    /// the second.
    ghost holds: { Self → Frame → TwoFiles → ℤ → ℤ → Type 0 };

    /// Whether it has seen enough.
    fn has_enough(&self) -> bool
        ensures { result ≡ has_enough self.now };

    /// Looks at what the data records at hand show between two times. Where it held what there is before the first one, it
    /// then holds what there is before the second.
    fn see(&mut self, original: &FileReader, export: &FileReader, frame: Frame<'_>, within: Window)
        requires fits { fits self.old frame }
        requires wants { has_enough self.old ≡ false }
        requires frame { IsFrame original.now.head export.now.head frame }
        requires uncut { IsUncut ((frame.turn).setting.claim).now.keep (within.from).ps (within.to).ps }
        ensures fits { fits self.new frame.entry }
        ensures lender { lender self.new ≡ lender self.old }
        ensures keeps { keeps self.new ≡ keeps self.old }
        ensures holds { HasSeenIn (holds self.old) (holds self.new) frame.entry original.now export.now
            within };
}

/// A watcher, and the channels that it looks at.
#[derive(Drop)]
pub struct Watch<'a, W> {
    pub frame: Frame<'a>,
    pub watcher: W,
}
