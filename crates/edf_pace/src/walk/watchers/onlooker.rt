//! Who looks on while a check compares two files.

ghost use Rattle.std.specs.Prelude.{◌≡◌, ◌++◌, ◌∷◌, [], ℤ, Bool, List, OnOk, Option, Some, length, true};
ghost use Rattle.edf_claim.specs.KeepsReading.{IsUncut};
ghost use Rattle.edf_pace.specs.declared.walk.watchers.found_in.ChannelCount.{ChannelCount};
ghost use Rattle.edf_pace.specs.walk.Counting.{AreCounts};
ghost use Rattle.edf_pace.specs.walk.Pairs.{IsFrame};
ghost use Rattle.edf_pace.specs.walk.Watching.{ExportCount, HasSeenIn, TwoFiles, WholeShown, shown_whole};

use crate::walk::frame::Frame;
use crate::walk::reading::Reading;
use edf_samples::Window;
use edf_stream::{FileReader, Note};
use std::alloc::AllocError;

/// Looks on while an original and its exports are compared, and counts the samples that differ. No answer of a check depends on
/// it, but that memory may be wanting for it.
pub trait Onlooker {
    /// Whether it looks on at all: then both files are shown to their ends, also behind a difference.
    ghost looks: { Self → Bool };

    /// What it counted so far of each channel of the export that is compared, and where the first and the last of each kind lie.
    ghost counts: { Self → List ChannelCount };

    /// What it counted of each export that was read to its end, with the export's header.
    ghost counted: { Self → List ExportCount };

    /// What it got of all files, once the original was read to its end.
    ghost shown: { Self → Option WholeShown };

    /// Whether it looks on at all.
    fn looks(&self) -> bool
        ensures { result ≡ looks self.now };

    /// Begins with an export: nothing was counted yet of the channels of this frame.
    ///
    /// The error is want of memory.
    fn begin(&mut self, frame: Frame<'_>) -> Result<(), AllocError>
        ensures looks { looks self.new ≡ looks self.old }
        ensures counted { counted self.new ≡ counted self.old }
        ensures each { OnOk result (looks self.old ≡ true →
            length (counts self.new) ≡ length (frame.entry.pairs).now) }
        ensures none { OnOk result (looks self.old ≡ true → (files : TwoFiles) (t : ℤ) →
            AreCounts (counts self.new) frame.entry files t t) };

    /// Begins with an export whose samples aren't compared: nothing is counted of any channel.
    fn begin_without(&mut self)
        ensures looks { looks self.new ≡ looks self.old }
        ensures counted { counted self.new ≡ counted self.old }
        ensures none { looks self.old ≡ true → counts self.new ≡ [] };

    /// Counts what the data records at hand show between two times, and notes where the first and the last of each kind lie.
    fn look(&mut self, original: &FileReader, export: &FileReader, frame: Frame<'_>, within: Window)
        requires frame { IsFrame original.now.head export.now.head frame }
        requires uncut { IsUncut ((frame.turn).setting.claim).now.keep (within.from).ps (within.to).ps }
        requires each { looks self.old ≡ true → length (counts self.old) ≡ length (frame.pairs).now }
        ensures looks { looks self.new ≡ looks self.old }
        ensures counted { counted self.new ≡ counted self.old }
        ensures each { looks self.old ≡ true → length (counts self.new) ≡ length (frame.entry.pairs).now }
        ensures holds { looks self.old ≡ true → HasSeenIn (AreCounts (counts self.old))
            (AreCounts (counts self.new)) frame.entry original.now export.now within };

    /// Gets an export that was read to its end. What it counted last is that of this export.
    ///
    /// The error is want of memory.
    fn take_export(&mut self, export: FileReader) -> Result<(), AllocError>
        ensures looks { looks self.new ≡ looks self.old }
        ensures counted { OnOk result (looks self.old ≡ true →
            counted self.new ≡ counted self.old ++
            (record { head = export.head; counts = counts self.old } ∷ [])) };

    /// Gets the original, which was read to its end, with those of its annotations that are kept; and the annotations of all
    /// exports. Behind a difference at which nobody looked on, and behind an export that begins early, they are those of a front.
    fn take_original(&mut self, original: Reading, exported: Vec<Note>)
        ensures looks { looks self.new ≡ looks self.old }
        ensures counted { counted self.new ≡ counted self.old }
        ensures shown { looks self.old ≡ true →
            shown self.new ≡ Some (shown_whole original exported.items) };
}

/// Nobody looks on.
#[derive(Clone, Copy)]
pub struct Nobody;

impl Onlooker for Nobody {
    ghost use Rattle.std.specs.Prelude.{[], None, false};

    ghost looks = { λ _. false };

    ghost counts = { λ _. [] };

    ghost counted = { λ _. [] };

    ghost shown = { λ _. None };

    #[inline(always)]
    fn looks(&self) -> bool {
        false
    }

    #[inline(always)]
    fn begin(&mut self, _frame: Frame<'_>) -> Result<(), AllocError> {
        Ok(())
    }

    #[inline(always)]
    fn begin_without(&mut self) {}

    #[inline(always)]
    fn look(
        &mut self,
        _original: &FileReader,
        _export: &FileReader,
        _frame: Frame<'_>,
        _within: Window,
    ) {}

    #[inline(always)]
    fn take_export(&mut self, _export: FileReader) -> Result<(), AllocError> {
        Ok(())
    }

    #[inline(always)]
    fn take_original(&mut self, _original: Reading, _exported: Vec<Note>) {}
}
