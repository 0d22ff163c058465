//! A file that was read for its layout. EDF (1992), "Header record" and "Data record"; EDF+ (2003), "The 'EDF
//! Annotations' signal".

ghost use Rattle.std.specs.Prelude.{◌≡◌, ℕ, List, Some, IfOk, IfErr, OnOk, IsTrue};
ghost use Rattle.edf_fields.specs.in_out.Sources.{Fails};
ghost use Rattle.edf_header.specs.Faults.{header_fault};
ghost use Rattle.edf_header.specs.Stops.{Stops};
ghost use Rattle.edf_stream.specs.Faults.{file_fault};
ghost use Rattle.edf_stream.specs.records.Readers.{HasBegun, StandsIn};
ghost use Rattle.edf_layout.specs.HeadFiles.{IsWhole};
ghost use Rattle.edf_layout.specs.whole.FileBodies.{IsSoundBody, IsFile};

use crate::head_file::{HeadFile, joined, read_head};
use crate::whole::file_body::{FileBody, read_body};
use edf_fields::{SliceSource, Source};
use edf_header::Stop;
use edf_stream::FileReader;
use std::alloc::Global;

/// A file that was read, but for its samples.
#[derive(Drop)]
pub(crate) struct WholeFile {
    /// Its header, with the bytes of it.
    pub head: HeadFile,
    /// What is kept of its data records.
    pub body: FileBody,
}

/// A reader of the data records behind a header of these bytes.
fn reader_behind(alloc: Global, bytes: &[u8]) -> Result<FileReader, Stop>
    ensures begun { IfOk result HasBegun }
    ensures stands { IfOk result (λ r. (left : List ℕ) × StandsIn r left bytes.now) }
    ensures stop { IfErr result (Stops (λ f. header_fault bytes.now ≡ Some f) ⊥ (Unit {0})) }
{
    FileReader::begin(alloc, &mut SliceSource::new(bytes))
}

/// Reads a whole file, and keeps its header and of its data records all but the samples: `Ok` only where it
/// conforms to the profile, which docs/PROFILE.md tells; a `Fault` is its first one. The other errors are a
/// failed read and want of memory. The source is read to its end on `Ok`.
pub(crate) fn read_file<S: Source>(alloc: Global, source: &mut S) -> Result<WholeFile, Stop>
    ensures head { IfOk result (λ f. IsWhole f.head.front.items f.head.columns.items f.head.header) }
    ensures sound { IfOk result (λ f. IsSoundBody f.body) }
    ensures failures { OnOk result (S.reads source.new ≡ S.reads source.old) }
    ensures file { IfOk result (λ f. IsTrue (S.is_honest source.old) →
        IsFile (S.left source.old) f.head.front.items f.head.columns.items f.head.header f.body) }
    ensures stop { IfErr result (Stops (λ f. IsTrue (S.is_honest source.old) →
        file_fault (S.left source.old) ≡ Some f) (Fails (S.reads source.old) (S.reads source.new))
        (S.reads source.new ≡ S.reads source.old)) }
{
    let head = read_head(alloc, source)?;
    let bytes = joined(alloc, &head.front, &head.columns)?;
    let reader = reader_behind(alloc, &bytes)?;
    let body = read_body(alloc, reader, source)?;
    Ok(WholeFile { head, body })
}
