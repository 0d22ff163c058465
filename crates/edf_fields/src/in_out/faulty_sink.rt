//! A sink that fails at a write that was chosen beforehand.

ghost use Rattle.std.specs.Prelude.{◌≡◌, ◌-◌, ◌<◌, ◌≤◌, ◌++◌, length, take, IsErr, IfOk, OnOk, OnErr, IsTrue};
ghost use Rattle.edf_fields.specs.in_out.Sources.{Rises};

use crate::in_out::sink::{Sink, WriteFault};

/// A sink over another, to which so many writes pass and every later one fails. It shows what a program does where
/// a disk is full.
///
/// It is honest where the other one is. Its failures are counted together: its own, and those of the other one.
/// A write that passes is counted as one, whatever the other sink answers.
#[derive(Drop)]
pub struct FaultySink<K: Drop> {
    inner: K,
    passes: u64,
    most: usize,
    failed: u64,
    ghost some: { 1 ≤ most },
}

impl<K: Sink + Drop> FaultySink<K> {
    /// A sink that gives `inner` what it is given, by writes of at most `most` bytes each, and fails behind `passes`
    /// of them.
    pub fn new(inner: K, passes: u64, most: usize) -> FaultySink<K>
        requires { 1 ≤ most }
        ensures held { ⟦<FaultySink<K> as Sink>⟧.held result ≡ K.held inner }
        ensures failures { ⟦<FaultySink<K> as Sink>⟧.failures result ≡ 0 }
        ensures honest { ⟦<FaultySink<K> as Sink>⟧.is_honest result ≡ K.is_honest inner }
        ensures passes { result.passes ≡ passes }
        ensures most { result.most ≡ most }
        ensures inner { result.inner ≡ inner }
    {
        FaultySink {
            inner,
            passes,
            most,
            failed: 0,
        }
    }

    /// The sink that took what passed.
    pub fn inner(&self) -> &K
        ensures { result.now ≡ self.now.inner }
    {
        &self.inner
    }
}

impl<K: Sink + Drop> Sink for FaultySink<K> {
    ghost held = { λ s. K.held s.inner };

    ghost failures = { λ s. s.failed };

    ghost is_honest = { λ s. K.is_honest s.inner };

    fn write(&mut self, bytes: &[u8]) -> Result<usize, WriteFault>
        requires { 0 < length bytes.now }

        // As for every sink.
        ensures within { IfOk result (λ k. (1 ≤ k) × (k ≤ length bytes.now)) }
        ensures failures { OnOk result (self.new.failed ≡ self.old.failed) }
        ensures honesty { IsTrue (K.is_honest self.old.inner) → IsTrue (K.is_honest self.new.inner) }
        ensures bytes { IfOk result (λ k. IsTrue (K.is_honest self.old.inner) →
            K.held self.new.inner ≡ K.held self.old.inner ++ take k bytes.now) }
        ensures none { OnErr result (IsTrue (K.is_honest self.old.inner) →
            K.held self.new.inner ≡ K.held self.old.inner) }
        ensures fails { OnErr result (Rises self.old.failed self.new.failed) }

        // It fails where all passes are spent, and nothing is written then; before that only where the other one does.
        ensures spent { self.old.passes ≡ 0 → IsErr result × (self.new.inner ≡ self.old.inner) }
        ensures passed { 0 < self.old.passes →
            OnErr result (Rises (K.failures self.old.inner) (K.failures self.new.inner)) }
        ensures counted { OnOk result (K.failures self.new.inner ≡ K.failures self.old.inner) }
        ensures passes { self.new.passes ≡ self.old.passes - 1 }
        ensures few { IfOk result (λ k. k ≤ self.old.most) }
        ensures most { self.new.most ≡ self.old.most }
    {
        let Some(left) = self.passes.checked_sub(1) else {
            self.failed = self.failed.saturating_add(1);
            return Err(WriteFault);
        };
        self.passes = left;
        let count = bytes.len().min(self.most);
        match self.inner.write(&bytes[..count]) {
            Ok(taken) => Ok(taken),
            Err(fault) => {
                self.failed = self.failed.saturating_add(1);
                Err(fault)
            }
        }
    }
}
