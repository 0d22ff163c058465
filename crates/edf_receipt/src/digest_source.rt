//! A source that digests what it hands on.

ghost use Rattle.std.specs.Prelude.{◌≡◌, ◌&&◌, ◌<◌, ◌-◌, ◌^◌, length, min, nat_eq, IfOk, OnOk, OnErr, IsTrue};
ghost use Rattle.sha2.specs.Sha256.{sha256};
ghost use Rattle.edf_receipt.specs.Digests.{FailsReading, HasDigested, IsDigestOf, IsDigestOfAll, OfGone, digest_reads};

use edf_fields::{ReadFault, Source, skip_rest};
use sha2::{Digest, Sha256};
use std::snapshot::Snapshot;

/// The digest of some bytes, and how many they are.
#[derive(Debug, Clone, Copy, PartialEq, Eq)]
pub struct Digested {
    /// How many bytes, or `u64::MAX` where they are more.
    pub bytes: u64,
    /// Their digest by SHA-256 (FIPS 180-4).
    pub sha256: [u8; 32],
}

/// A source over another, which digests by SHA-256 what it hands on. It remembers what the other one had left when it was
/// made.
///
/// It is honest where the other one was then, until a read fails.
#[derive(Drop)]
pub struct DigestSource<S: Source + Drop> {
    source: S,
    hasher: Sha256,
    bytes: u64,
    failed: u64,
    start: Snapshot<S>,
    ghost agrees: { ∥ (failed ≡ 0 → IsTrue (S.is_honest start.value) → IsTrue (S.is_honest source) × HasDigested hasher bytes (S.left start.value) (S.left source)) ∥₁ },
}

impl<S: Source + Drop> DigestSource<S> {
    /// A source that gives what the other one gives, and digests from here on.
    pub fn new(source: S) -> DigestSource<S>
        ensures left { ⟦<DigestSource<S> as Source>⟧.left result ≡ S.left source }
        ensures reads { ⟦<DigestSource<S> as Source>⟧.reads result ≡
            digest_reads 0 (S.left source) (S.is_honest source) }
        ensures honest { ⟦<DigestSource<S> as Source>⟧.is_honest result ≡ S.is_honest source }
    {
        let start = Snapshot::of(&source);
        DigestSource {
            source,
            hasher: Sha256::new(),
            bytes: 0,
            failed: 0,
            start,
        }
    }

    /// The digest of what was handed on so far.
    pub fn digested(&self) -> Digested
        ensures digest { OfGone ⟦<DigestSource<S> as Source>⟧ self.now
            (λ gone. result.sha256 ≡ sha256 gone) }
        ensures bytes { OfGone ⟦<DigestSource<S> as Source>⟧ self.now
            (λ gone. result.bytes ≡ min (length gone) (2 ^ 64 - 1)) }
    {
        let hasher = self.hasher.clone().unwrap();
        Digested {
            bytes: self.bytes,
            sha256: hasher.finalize(),
        }
    }

    /// Reads on until nothing is left, and gives the digest of all that the other source had when this one was made;
    /// `buf` is what is read into.
    ///
    /// An `Err` comes only from a read that failed, and then at once.
    pub fn finish(&mut self, buf: &mut [u8]) -> Result<Digested, ReadFault>
        requires { 0 < length buf.old }
        ensures digest { IfOk result (IsDigestOfAll ⟦<DigestSource<S> as Source>⟧ self.old) }
        ensures failures { OnOk result (⟦<DigestSource<S> as Source>⟧.reads self.new ≡
            ⟦<DigestSource<S> as Source>⟧.reads self.old) }
        ensures fails { OnErr result (FailsReading ⟦<DigestSource<S> as Source>⟧ self.old self.new) }
    {
        skip_rest(self, buf)?;
        Ok(self.digested())
    }
}

/// The digest of bytes in memory.
pub fn digest_of(bytes: &[u8]) -> Digested
    ensures { IsDigestOf bytes.now result }
{
    Digested {
        bytes: bytes.len() as u64,
        sha256: Sha256::digest(bytes),
    }
}

impl<S: Source + Drop> Source for DigestSource<S> {
    ghost left = { λ s. S.left s.source };

    ghost reads = { λ s. digest_reads s.failed (S.left s.start.value) (S.is_honest s.start.value) };

    ghost is_honest = { λ s. S.is_honest s.start.value && nat_eq s.failed 0 };

    fn read(&mut self, buf: &mut [u8]) -> Result<usize, ReadFault> {
        match self.source.read(buf) {
            Ok(count) => {
                self.hasher.update(&buf[..count]);
                self.bytes = self.bytes.saturating_add(count as u64);
                Ok(count)
            }
            Err(fault) => {
                self.failed = self.failed.saturating_add(1);
                Err(fault)
            }
        }
    }
}
