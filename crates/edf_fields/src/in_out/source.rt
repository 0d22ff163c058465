//! Where bytes come from: anything that gives them from front to back.
//!
//! A source's bytes are known to the proofs where the source is honest. Of a file or a pipe
//! nothing is known but that its failures are counted. A source may tell in its `reads` what it began with, so that
//! what is proved of a reader also says that it read on where the source stood, and nothing else.
ghost use Rattle.std.specs.Prelude.{◌≡◌, ℕ, ◌<◌, ◌≤◌, ◌-◌, ◌^◌, min, List, [], ◌++◌, length, take, drop, is_some, unwrap_or, Ok, IfOk, OnOk, OnErr, IsTrue, Bool, true};
ghost use Rattle.edf_fields.specs.in_out.Sources.{Fails, Reads};
ghost use Rattle.edf_fields.specs.in_out.PlainReads.{plain_reads};

use std::io::Read;

/// A read failed. Which bytes it took is not known.
#[derive(Debug, Clone, Copy, PartialEq, Eq, Drop)]
pub struct ReadFault;

/// A source of bytes, read from front to back.
///
/// In contracts `left` is the bytes that are still to come, and `is_honest` says that `left` is to be relied on: of a
/// file or a pipe this is assumed.
pub trait Source {
    ghost left: { Self → List ℕ };

    /// How many reads failed so far, up to `u64::MAX`, and, where a source remembers it, what was left at its start.
    ghost reads: { Self → Reads };

    ghost is_honest: { Self → Bool };

    /// Reads into the front of `buf`, and answers how many bytes it gave. `Ok(0)` says that
    /// nothing is left; fewer bytes than `buf` has room for say nothing of the kind.
    ///
    /// An `Err` is a failed read, and is counted as one. It is never tried again here.
    fn read(&mut self, buf: &mut [u8]) -> Result<usize, ReadFault>
        requires { 0 < length buf.old }
        ensures within { IfOk result (λ k. k ≤ length buf.old) }
        ensures failures { OnOk result (reads self.new ≡ reads self.old) }
        ensures honesty { OnOk result (IsTrue (is_honest self.old) → IsTrue (is_honest self.new)) }
        ensures bytes { IfOk result (λ k. IsTrue (is_honest self.old) →
            left self.old ≡ take k buf.new ++ left self.new) }
        ensures ends { IfOk result (λ k. IsTrue (is_honest self.old) → k ≡ 0 → left self.old ≡ []) }
        ensures fails { OnErr result (Fails (reads self.old) (reads self.new)) };
}

/// A source over bytes in memory. It is honest, and a read of it never fails.
#[derive(Drop)]
pub struct SliceSource<'a> {
    rest: &'a [u8],
}

impl<'a> SliceSource<'a> {
    /// A source that gives `bytes`.
    pub fn new(bytes: &'a [u8]) -> SliceSource<'a>
        ensures left { ⟦<SliceSource<'a> as Source>⟧.left result ≡ bytes.entry.now }
        ensures failures { ⟦<SliceSource<'a> as Source>⟧.reads result ≡ plain_reads 0 }
        ensures honest { ⟦<SliceSource<'a> as Source>⟧.is_honest result ≡ true }
    {
        SliceSource { rest: bytes }
    }
}

impl<'a> Source for SliceSource<'a> {
    ghost use Rattle.edf_fields.specs.in_out.SliceSource.{left_of, reads_of, is_known};

    ghost left = { left_of };

    ghost reads = { reads_of };

    ghost is_honest = { is_known };

    fn read(&mut self, buf: &mut [u8]) -> Result<usize, ReadFault>
        requires { 0 < length buf.old }

        // As for every source.
        ensures within { IfOk result (λ k. k ≤ length buf.old) }
        ensures failures { OnOk result (reads_of self.new ≡ reads_of self.old) }
        ensures honesty { OnOk result (IsTrue (is_known self.old) → IsTrue (is_known self.new)) }
        ensures bytes { IfOk result (λ k. IsTrue (is_known self.old) →
            left_of self.old ≡ take k buf.new ++ left_of self.new) }
        ensures ends { IfOk result (λ k. IsTrue (is_known self.old) → k ≡ 0 → left_of self.old ≡ []) }
        ensures fails { OnErr result (Fails (reads_of self.old) (reads_of self.new)) }

        // A read gives as many bytes as there are and fit.
        ensures count { result ≡ Ok (min (length buf.old) (length (left_of self.old))) }
    {
        let count = buf.len().min(self.rest.len());
        let (front, back) = self.rest.split_at(count);
        buf[..count].copy_from_slice(front);
        self.rest = back;
        Ok(count)
    }
}

/// A source over a reader. It is honest where the reader's bytes are known, as those of bytes in memory.
///
/// Each error of the reader is a failure, also one that says that the call was interrupted. Nothing is
/// tried again.
#[derive(Drop)]
pub struct ReadSource<R: Drop> {
    reader: R,
    failed: u64,
}

impl<R: Read + Drop> ReadSource<R> {
    /// A source that gives what `reader` gives.
    pub fn new(reader: R) -> ReadSource<R>
        ensures left { ⟦<ReadSource<R> as Source>⟧.left result ≡ unwrap_or (R.remaining reader) [] }
        ensures failures { ⟦<ReadSource<R> as Source>⟧.reads result ≡ plain_reads 0 }
        ensures honest { ⟦<ReadSource<R> as Source>⟧.is_honest result ≡ is_some (R.remaining reader) }
    {
        ReadSource { reader, failed: 0 }
    }
}

impl<R: Read + Drop> Source for ReadSource<R> {
    ghost left = { λ s. unwrap_or (R.remaining s.reader) [] };

    ghost reads = { λ s. plain_reads s.failed };

    ghost is_honest = { λ s. is_some (R.remaining s.reader) };

    fn read(&mut self, buf: &mut [u8]) -> Result<usize, ReadFault> {
        match self.reader.read(buf) {
            Ok(count) => Ok(count),
            Err(_) => {
                self.failed = self.failed.saturating_add(1);
                Err(ReadFault)
            }
        }
    }
}

/// Reads until `buf` is full or the source has nothing left, and answers how many bytes now
/// stand at the front of `buf`. Fewer than its length are all that the source had.
///
/// An `Err` comes only from a read that failed, and then at once. For an empty `buf` nothing is
/// read.
#[inline(always)]
pub fn fill<S: Source>(source: &mut S, buf: &mut [u8]) -> Result<usize, ReadFault>
    ensures within { IfOk result (λ k. k ≤ length buf.old) }
    ensures failures { OnOk result (S.reads source.new ≡ S.reads source.old) }
    ensures fails { OnErr result (Fails (S.reads source.old) (S.reads source.new)) }
    ensures empty { length buf.old ≡ 0 → (result ≡ Ok 0) × (source.new ≡ source.old) }

    // What an honest source gives.
    ensures honesty { OnOk result (IsTrue (S.is_honest source.old) → IsTrue (S.is_honest source.new)) }
    ensures bytes { IfOk result (λ k. IsTrue (S.is_honest source.old) →
        S.left source.old ≡ take k buf.new ++ S.left source.new) }
    ensures ends { IfOk result (λ k. IsTrue (S.is_honest source.old) → k < length buf.old →
        S.left source.new ≡ []) }
    ensures front { IfOk result (λ k. IsTrue (S.is_honest source.old) →
        take k buf.new ≡ take (length buf.old) (S.left source.old)) }
    ensures behind { OnOk result (IsTrue (S.is_honest source.old) →
        S.left source.new ≡ drop (length buf.old) (S.left source.old)) }
{
    let mut done = 0;
    while done < buf.len() {
        let got = source.read(&mut buf[done..])?;
        if got == 0 {
            break;
        }
        done += got;
    }
    Ok(done)
}

/// Reads on until nothing is left, and keeps nothing of it; `buf` is what is read into.
///
/// An `Err` comes only from a read that failed, and then at once. A source that never ends is left behind
/// `u64::MAX` reads.
pub fn skip_rest<S: Source>(source: &mut S, buf: &mut [u8]) -> Result<(), ReadFault>
    requires { 0 < length buf.old }
    ensures failures { OnOk result (S.reads source.new ≡ S.reads source.old) }
    ensures fails { OnErr result (Fails (S.reads source.old) (S.reads source.new)) }
    ensures honesty { OnOk result (IsTrue (S.is_honest source.old) → IsTrue (S.is_honest source.new)) }
    ensures end { OnOk result (IsTrue (S.is_honest source.old) → length (S.left source.old) < 2 ^ 64 - 1 →
        S.left source.new ≡ []) }
{
    'reads: for _ in 0..u64::MAX {
        if source.read(buf)? == 0 {
            break;
        }
    }
    Ok(())
}
