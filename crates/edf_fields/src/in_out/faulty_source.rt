//! A source that fails at a read that was chosen beforehand.

ghost use Rattle.std.specs.Prelude.{◌≡◌, ◌-◌, ◌<◌, ◌≤◌, [], ◌++◌, length, take, IsErr, IfOk, OnOk, OnErr, IsTrue};
ghost use Rattle.edf_fields.specs.in_out.Sources.{Fails, Rises};
ghost use Rattle.edf_fields.specs.in_out.PlainReads.{plain_reads};

use crate::in_out::source::{ReadFault, Source};

/// A source over another, of which so many reads pass and every later one fails. It shows what a program does
/// where a network drive drops out.
///
/// It is honest where the other one is. Its failures are counted together: its own, and those of the other one.
/// A read that passes is counted as one, whatever the other source answers.
#[derive(Drop)]
pub struct FaultySource<S: Drop> {
    inner: S,
    passes: u64,
    most: usize,
    failed: u64,
    ghost some: { 1 ≤ most },
}

impl<S: Source + Drop> FaultySource<S> {
    /// A source that gives what `inner` gives, by reads of at most `most` bytes each, and fails behind `passes` of
    /// them.
    pub fn new(inner: S, passes: u64, most: usize) -> FaultySource<S>
        requires { 1 ≤ most }
        ensures left { ⟦<FaultySource<S> as Source>⟧.left result ≡ S.left inner }
        ensures failures { ⟦<FaultySource<S> as Source>⟧.reads result ≡ plain_reads 0 }
        ensures honest { ⟦<FaultySource<S> as Source>⟧.is_honest result ≡ S.is_honest inner }
        ensures passes { result.passes ≡ passes }
        ensures most { result.most ≡ most }
        ensures inner { result.inner ≡ inner }
    {
        FaultySource {
            inner,
            passes,
            most,
            failed: 0,
        }
    }
}

impl<S: Source + Drop> Source for FaultySource<S> {
    ghost left = { λ s. S.left s.inner };

    ghost reads = { λ s. plain_reads s.failed };

    ghost is_honest = { λ s. S.is_honest s.inner };

    fn read(&mut self, buf: &mut [u8]) -> Result<usize, ReadFault>
        requires { 0 < length buf.old }

        // As for every source.
        ensures within { IfOk result (λ k. k ≤ length buf.old) }
        ensures failures { OnOk result (plain_reads self.new.failed ≡ plain_reads self.old.failed) }
        ensures honesty { OnOk result (IsTrue (S.is_honest self.old.inner) →
            IsTrue (S.is_honest self.new.inner)) }
        ensures bytes { IfOk result (λ k. IsTrue (S.is_honest self.old.inner) →
            S.left self.old.inner ≡ take k buf.new ++ S.left self.new.inner) }
        ensures ends { IfOk result (λ k. IsTrue (S.is_honest self.old.inner) → k ≡ 0 →
            S.left self.old.inner ≡ []) }
        ensures fails { OnErr result (Fails (plain_reads self.old.failed) (plain_reads self.new.failed)) }

        // It fails where all passes are spent, and nothing is read then; before that only where the other one does.
        ensures spent { self.old.passes ≡ 0 → IsErr result × (self.new.inner ≡ self.old.inner) }
        ensures passed { 0 < self.old.passes →
            OnErr result (Fails (S.reads self.old.inner) (S.reads self.new.inner)) }
        ensures counted { OnOk result (S.reads self.new.inner ≡ S.reads self.old.inner) }
        ensures passes { self.new.passes ≡ self.old.passes - 1 }
        ensures few { IfOk result (λ k. k ≤ self.old.most) }
        ensures most { self.new.most ≡ self.old.most }
    {
        let Some(left) = self.passes.checked_sub(1) else {
            self.failed = self.failed.saturating_add(1);
            return Err(ReadFault);
        };
        self.passes = left;
        let count = buf.len().min(self.most);
        match self.inner.read(&mut buf[..count]) {
            Ok(given) => Ok(given),
            Err(fault) => {
                self.failed = self.failed.saturating_add(1);
                Err(fault)
            }
        }
    }
}
