//! The header of a file with its bytes.

ghost use Rattle.std.specs.Prelude.{◌≡◌, ◌<◌, ◌≤◌, ◌*◌, ◌+◌, ◌++◌, length, take, drop, None, Some, IfOk, IfErr, OnOk, IsTrue};
ghost use Rattle.edf_fields.specs.in_out.Sources.{Fails};
ghost use Rattle.edf_header.specs.Conforming.{HeaderConforms};
ghost use Rattle.edf_header.specs.Faults.{header_fault};
ghost use Rattle.edf_header.specs.HeadsReading.{signals_of, head_of};
ghost use Rattle.edf_header.specs.Stops.{Stops};
ghost use Rattle.edf_layout.specs.HeadFiles.{IsWhole, IsHeadFile};

use edf_fields::{FixedField, SliceSource, Source, fixed_field, header_whole};
use edf_header::{Header, Stop, next_bytes};
use std::alloc::{AllocError, Global};

/// The header of a file that was read, with its bytes.
#[derive(Drop)]
pub struct HeadFile {
    /// Its fixed part.
    pub front: Vec<u8>,
    /// The columns of its signals.
    pub columns: Vec<u8>,
    /// What both say.
    pub header: Header,
}

/// How many signals the fixed part announces; none where it isn't all there.
fn signal_count(front: &[u8]) -> usize
    ensures whole { 256 ≤ length front.now → result ≡ signals_of front.now }
    ensures short { length front.now < 256 → result ≡ 0 }
    ensures few { result < 10000 }
{
    if front.len() < 256 {
        return 0;
    }
    match header_whole(fixed_field(front, FixedField::Signals)) {
        Some(count) if count > 0 => count as usize,
        _ => 0,
    }
}

/// One text behind the other.
pub(crate) fn joined(alloc: Global, first: &[u8], second: &[u8]) -> Result<Vec<u8>, AllocError>
    ensures { IfOk result (λ v. v.items ≡ first.now ++ second.now) }
{
    let mut bytes = Vec::with_capacity(alloc, first.len().saturating_add(second.len()))?;
    bytes.extend_from_slice(first)?;
    bytes.extend_from_slice(second)?;
    Ok(bytes)
}

/// The header that stands at the front of some bytes, or its first fault.
fn judge_bytes(alloc: Global, bytes: &[u8]) -> Result<Header, Stop>
    ensures passed { OnOk result (header_fault bytes.now ≡ None) }
    ensures value { IfOk result (λ h. h ≡ head_of bytes.now) }
    ensures conforms { IfOk result (λ h. HeaderConforms bytes.now h) }
    ensures stop { IfErr result (Stops (λ f. header_fault bytes.now ≡ Some f) ⊥ (Unit {0})) }
{
    Header::read(alloc, &mut SliceSource::new(bytes))
}

/// Reads the header of a file, and no byte behind it, and keeps its bytes.
///
/// The errors are those of `Header::read`: the header's first fault, a failed read and want of memory.
pub fn read_head<S: Source>(alloc: Global, source: &mut S) -> Result<HeadFile, Stop>
    ensures whole { IfOk result (λ f. IsWhole f.front.items f.columns.items f.header) }
    ensures failures { OnOk result (S.reads source.new ≡ S.reads source.old) }
    ensures stop { IfErr result (Stops (λ f. IsTrue (S.is_honest source.old) →
        header_fault (S.left source.old) ≡ Some f) (Fails (S.reads source.old) (S.reads source.new))
        (S.reads source.new ≡ S.reads source.old)) }

    // What an honest source gives.
    ensures honesty { OnOk result (IsTrue (S.is_honest source.old) → IsTrue (S.is_honest source.new)) }
    ensures header { IfOk result (λ f. IsTrue (S.is_honest source.old) →
        IsHeadFile (S.left source.old) (S.left source.new) f.front.items f.columns.items f.header) }
{
    let front = next_bytes(alloc, source, 256)?;
    let columns = next_bytes(alloc, source, 256 * signal_count(&front))?;
    let bytes = joined(alloc, &front, &columns)?;
    let header = judge_bytes(alloc, &bytes)?;
    Ok(HeadFile {
        front,
        columns,
        header,
    })
}
