//! Two recordings that can be opened as often as they are needed.

ghost use Rattle.std.specs.Prelude.{◌≡◌, ℕ, List, Bool, true, IfOk, IsTrue};

use edf_fields::{SliceSource, Source};
use edf_stop::CheckStop;

/// An original and its export, each of which is opened anew for every reading.
///
/// In contracts `original` and `export` are their bytes, and `are_honest` says that these are to be relied on: nothing is
/// known of files.
pub trait Recordings {
    /// How the original is read.
    type Original: Source + Drop;

    /// How the export is read.
    type Export: Source + Drop;

    ghost original: { Self → List ℕ };

    ghost export: { Self → List ℕ };

    ghost are_honest: { Self → Bool };

    /// Opens the original, at its first byte.
    ///
    /// The error is want of memory; or it is a failed read of the original, also where it can't be opened any more.
    fn open_original(&self) -> Result<Self::Original, CheckStop>
        ensures honest { IfOk result (λ s. IsTrue (are_honest self.now) →
            IsTrue (Self.Original.Source.is_honest s)) }
        ensures bytes { IfOk result (λ s. IsTrue (are_honest self.now) →
            Self.Original.Source.left s ≡ original self.now) };

    /// Opens the export, at its first byte.
    ///
    /// The error is want of memory; or it is a failed read of the export, also where it can't be opened any more.
    fn open_export(&self) -> Result<Self::Export, CheckStop>
        ensures honest { IfOk result (λ s. IsTrue (are_honest self.now) →
            IsTrue (Self.Export.Source.is_honest s)) }
        ensures bytes { IfOk result (λ s. IsTrue (are_honest self.now) →
            Self.Export.Source.left s ≡ export self.now) };
}

/// Two recordings in memory. Their bytes are known, and opening them never fails.
#[derive(Drop)]
pub struct SliceRecordings<'a> {
    original: &'a [u8],
    export: &'a [u8],
}

impl<'a> SliceRecordings<'a> {
    /// The recordings of these bytes.
    pub fn new(original: &'a [u8], export: &'a [u8]) -> SliceRecordings<'a>
        ensures original { ⟦<SliceRecordings<'a> as Recordings>⟧.original result ≡ original.entry.now }
        ensures export { ⟦<SliceRecordings<'a> as Recordings>⟧.export result ≡ export.entry.now }
        ensures honest { ⟦<SliceRecordings<'a> as Recordings>⟧.are_honest result ≡ true }
    {
        SliceRecordings { original, export }
    }
}

impl<'a> Recordings for SliceRecordings<'a> {
    type Original = SliceSource<'a>;

    type Export = SliceSource<'a>;

    ghost original = { λ r. r.original.now };

    ghost export = { λ r. r.export.now };

    ghost are_honest = { λ _. true };

    fn open_original(&self) -> Result<SliceSource<'a>, CheckStop> {
        Ok(SliceSource::new(self.original))
    }

    fn open_export(&self) -> Result<SliceSource<'a>, CheckStop> {
        Ok(SliceSource::new(self.export))
    }
}
