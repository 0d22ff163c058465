//! One column of a header: one field of every signal.

ghost use Rattle.std.specs.Prelude.{◌≡◌, ◌*◌, ◌≤◌, ◌<◌, ◌^◌, length, IfOk};
ghost use Rattle.edf_fields.specs.Parts.{part as part_of};
ghost use Rattle.edf_header.specs.Narrow.{longest_text as longest_text_of, narrowed, SaysTheSame};

use edf_fields::{bytes_at, text};
use std::alloc::{AllocError, Global};
use std::marker::Model;

/// One column of a header, without the spaces that all of its fields have at their ends (EDF, "Header
/// record": the fields stand to the left and are filled with spaces). Most texts are far shorter than their
/// fields, and a header has up to 9,999 signals, so a column takes less memory than it has bytes in the file.
#[derive(Drop)]
pub(crate) struct Column {
    bytes: Vec<u8>,
    /// How many bytes a field has in the file, and how many of them are kept.
    width: usize,
    kept: usize,
    count: usize,
}

impl Model for Column {
    ghost use Rattle.std.specs.Prelude.{◌≡◌, ◌*◌, ◌≤◌, ◌<◌, ◌^◌, length};
    ghost use Rattle.edf_header.specs.Narrow.{WideColumn, widened};

    ghost Value = { WideColumn };

    ghost view = { λ c. record { width = c.width; count = c.count; bytes = widened c.width c.kept c.count c.bytes.items } };

    ghost invariant = { λ c. (c.kept ≤ c.width) × (length c.bytes.items ≡ c.kept * c.count) × (c.width < 2 ^ 16) × (c.count < 2 ^ 16) };
}

/// How long the longest text is among fields of so many bytes each, one behind the other.
#[tactic(auto, using(crate::proofs::in_columns::NarrowFacts::longest_begins, crate::proofs::in_columns::NarrowFacts::longest_next, crate::proofs::in_columns::NarrowFacts::longest_ends))]
fn longest_text(bytes: &[u8], width: usize, count: usize) -> usize
    requires whole { length bytes.now ≡ width * count }
    requires narrow { width < 2 ^ 16 }
    requires few { count < 2 ^ 16 }
    ensures value { result ≡ longest_text_of width count bytes.now }
    ensures within { result ≤ width }
{
    let mut longest = 0;
    for field in 0..count {
        longest = text(bytes_at(bytes, width * field, width))
            .len()
            .max(longest);
    }
    longest
}

/// The first bytes of each of these fields, one behind the other.
#[tactic(auto, using(crate::proofs::in_columns::NarrowFacts::narrow_begins, crate::proofs::in_columns::NarrowFacts::narrow_next, crate::proofs::in_columns::NarrowFacts::narrow_ends))]
fn narrow(
    alloc: Global,
    bytes: &[u8],
    width: usize,
    kept: usize,
    count: usize,
) -> Result<Vec<u8>, AllocError>
    requires whole { length bytes.now ≡ width * count }
    requires narrow { width < 2 ^ 16 }
    requires few { count < 2 ^ 16 }
    requires within { kept ≤ width }
    ensures value { IfOk result (λ v. v.items ≡ narrowed width kept count bytes.now) }
{
    let mut fronts = Vec::with_capacity(alloc, kept * count)?;
    for field in 0..count {
        fronts.extend_from_slice(bytes_at(bytes, width * field, kept))?;
    }
    Ok(fronts)
}

impl Column {
    /// The column with these bytes in the file, so many for each of so many fields.
    ///
    /// The error is want of memory.
    pub(crate) fn new(
        alloc: Global,
        bytes: &[u8],
        width: usize,
        count: usize,
    ) -> Result<Column, AllocError>
        requires whole { length bytes.now ≡ width * count }
        requires narrow { width < 2 ^ 16 }
        requires few { count < 2 ^ 16 }
        ensures { IfOk result (λ c. c ≡ record { width = width; count = count; bytes = bytes.now }) }
    {
        let kept = longest_text(bytes, width, count);
        let bytes = narrow(alloc, bytes, width, kept, count)?;
        Ok(Column {
            bytes,
            width,
            kept,
            count,
        })
    }

    /// The field of a signal; spaces at its end may be missing.
    pub(crate) fn field(&self, signal: usize) -> &[u8]
        requires { signal < self.now.count }
        ensures { SaysTheSame result.now (part_of (self.entry.now).bytes ((self.entry.now).width * signal)
            (self.entry.now).width) }
    {
        bytes_at(&self.bytes, self.kept * signal, self.kept)
    }
}
