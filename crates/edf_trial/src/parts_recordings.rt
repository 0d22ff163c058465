//! An original and several exports that can be opened as often as they are needed.

ghost use Rattle.std.specs.Prelude.{◌≡◌, ◌<◌, ◌≤◌, ℕ, List, Bool, length, IfOk, IsTrue};
ghost use Rattle.edf_trial.specs.Parts.{AreHonestIf, AreLeftIf};

use edf_fields::Source;
use edf_stop::PartsStop;
use std::alloc::Global;

/// An original and one to 64 exports of it, in the order of time, each of which is opened anew for every reading.
///
/// In contracts `original` and `exports` are their bytes, and `are_honest` says that these are to be relied on: nothing is
/// known of files.
pub trait PartsRecordings {
    /// How the original is read.
    type Original: Source + Drop;

    /// How each export is read.
    type Export: Source + Drop;

    ghost original: { Self → List ℕ };

    ghost exports: { Self → List (List ℕ) };

    ghost are_honest: { Self → Bool };

    /// Opens the original, at its first byte.
    ///
    /// The error is want of memory; or it is a failed read of the original, also where it can't be opened any more.
    fn open_original(&self) -> Result<Self::Original, PartsStop>
        ensures honest { IfOk result (λ source. IsTrue (are_honest self.now) →
            IsTrue (Self.Original.Source.is_honest source)) }
        ensures bytes { IfOk result (λ source. IsTrue (are_honest self.now) →
            Self.Original.Source.left source ≡ original self.now) };

    /// Opens all exports, each at its first byte.
    ///
    /// The error is want of memory; or it is a failed read of one of them, also where it can't be opened any more.
    fn open_exports(&self, alloc: Global) -> Result<Vec<Self::Export>, PartsStop>
        ensures some { IfOk result (λ sources. 0 < length sources.items) }
        ensures few { IfOk result (λ sources. length sources.items ≤ 64) }
        ensures honest { IfOk result (λ sources.
            AreHonestIf (are_honest self.now) Self.Export.Source sources.items) }
        ensures bytes { IfOk result (λ sources.
            AreLeftIf (are_honest self.now) Self.Export.Source sources.items (exports self.now)) };
}
