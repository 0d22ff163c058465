//! Where bytes go: anything that takes them one behind the other.
//!
//! What a sink holds is known to the proofs where the sink is honest. Of a file or a terminal
//! nothing is known but that its failures are counted.
ghost use Rattle.std.specs.Prelude.{◌≡◌, ℕ, ◌+◌, ◌-◌, ◌<◌, ◌≤◌, ◌++◌, min, List, [], length, take, is_some, unwrap_or, IfOk, OnOk, OnErr, IsOk, IsTrue, Bool, true};
ghost use Rattle.edf_fields.specs.in_out.Sources.{Rises};
ghost use Rattle.edf_fields.specs.in_out.Sinks.{HoldsPrefix};

use std::io::Write;

/// A write failed.
#[derive(Debug, Clone, Copy, PartialEq, Eq, Drop)]
pub struct WriteFault;

/// A sink of bytes, which stand in it in the order of the writes.
///
/// In contracts `held` is the bytes that the sink has taken, `failures` counts the writes that
/// failed so far, up to `u64::MAX`, and `is_honest` says that `held` is to be relied on.
pub trait Sink {
    ghost held: { Self → List ℕ };

    ghost failures: { Self → ℕ };

    ghost is_honest: { Self → Bool };

    /// Appends bytes from the front of `bytes`, and answers how many: at least one.
    ///
    /// An `Err` is a failed write, and is counted as one; nothing was appended then. It is never
    /// tried again here.
    fn write(&mut self, bytes: &[u8]) -> Result<usize, WriteFault>
        requires { 0 < length bytes.now }
        ensures within { IfOk result (λ k. (1 ≤ k) × (k ≤ length bytes.now)) }
        ensures failures { OnOk result (failures self.new ≡ failures self.old) }
        ensures honesty { IsTrue (is_honest self.old) → IsTrue (is_honest self.new) }
        ensures bytes { IfOk result (λ k. IsTrue (is_honest self.old) → held self.new ≡ held self.old ++
            take k bytes.now) }
        ensures none { OnErr result (IsTrue (is_honest self.old) → held self.new ≡ held self.old) }
        ensures fails { OnErr result (Rises (failures self.old) (failures self.new)) };
}

/// A sink over bytes in memory, from their front on. It is honest. A write takes as many bytes as
/// there is room for, and fails only where there is none.
#[derive(Drop)]
pub struct SliceSink<'a> {
    room: &'a mut [u8],
    used: usize,
    failed: u64,
    ghost within: { used ≤ length room.now },
}

impl<'a> SliceSink<'a> {
    ghost use Rattle.edf_fields.specs.in_out.SliceSink.{bytes_of, room_of};

    /// An empty sink, with room for as many bytes as `room` has.
    pub fn new(room: &'a mut [u8]) -> SliceSink<'a>
        ensures held { ⟦<SliceSink<'a> as Sink>⟧.held result ≡ [] }
        ensures failures { ⟦<SliceSink<'a> as Sink>⟧.failures result ≡ 0 }
        ensures honest { ⟦<SliceSink<'a> as Sink>⟧.is_honest result ≡ true }
        ensures room { room_of result ≡ length room.entry.now }
    {
        SliceSink {
            room,
            used: 0,
            failed: 0,
        }
    }

    /// The bytes that the sink holds.
    pub fn written(&self) -> &[u8]
        ensures { result.now ≡ ⟦<SliceSink<'a> as Sink>⟧.held self.now }
    {
        &self.room[..self.used]
    }
}

impl<'a> Sink for SliceSink<'a> {
    ghost use Rattle.edf_fields.specs.in_out.SliceSink.{bytes_of, failures_of, is_known, room_of};

    ghost held = { bytes_of };

    ghost failures = { failures_of };

    ghost is_honest = { is_known };

    fn write(&mut self, bytes: &[u8]) -> Result<usize, WriteFault>
        requires { 0 < length bytes.now }

        // As for every sink.
        ensures within { IfOk result (λ k. (1 ≤ k) × (k ≤ length bytes.now)) }
        ensures failures { OnOk result (failures_of self.new ≡ failures_of self.old) }
        ensures honesty { IsTrue (is_known self.old) → IsTrue (is_known self.new) }
        ensures bytes { IfOk result (λ k. IsTrue (is_known self.old) →
            bytes_of self.new ≡ bytes_of self.old ++ take k bytes.now) }
        ensures none { OnErr result (IsTrue (is_known self.old) → bytes_of self.new ≡ bytes_of self.old) }
        ensures fails { OnErr result (Rises (failures_of self.old) (failures_of self.new)) }

        // A write takes as many bytes as there is room for.
        ensures room { room_of self.new ≡ room_of self.old }
        ensures count { IfOk result (λ k.
            k ≡ min (length bytes.now) (room_of self.old - length (bytes_of self.old))) }
        ensures full { OnErr result (length (bytes_of self.old) ≡ room_of self.old) }
    {
        let taken = bytes.len().min(self.room.len() - self.used);
        if taken == 0 {
            self.failed = self.failed.saturating_add(1);
            return Err(WriteFault);
        }
        let end = self.used + taken;
        self.room[self.used..end].copy_from_slice(&bytes[..taken]);
        self.used = end;
        Ok(taken)
    }
}

/// A sink over a writer. It is honest where the writer's bytes are known, as those of a `Vec`.
///
/// Each error of the writer is a failure, also one that says that the call was interrupted, and
/// so is an answer that it took no bytes. Nothing is tried again.
#[derive(Drop)]
pub struct WriteSink<W: Drop> {
    writer: W,
    failed: u64,
}

impl<W: Write + Drop> WriteSink<W> {
    /// A sink that writes to `writer`, and holds what `writer` has.
    pub fn new(writer: W) -> WriteSink<W>
        ensures held { ⟦<WriteSink<W> as Sink>⟧.held result ≡ unwrap_or (W.contents writer) [] }
        ensures failures { ⟦<WriteSink<W> as Sink>⟧.failures result ≡ 0 }
        ensures honest { ⟦<WriteSink<W> as Sink>⟧.is_honest result ≡ is_some (W.contents writer) }
    {
        WriteSink { writer, failed: 0 }
    }

    /// Passes on what the writer still keeps back, as a buffer does. An `Err` is a failed write,
    /// and is counted as one.
    pub fn flush(&mut self) -> Result<(), WriteFault>
        ensures held { IsTrue (⟦<WriteSink<W> as Sink>⟧.is_honest self.old) →
            ⟦<WriteSink<W> as Sink>⟧.held self.new ≡ ⟦<WriteSink<W> as Sink>⟧.held self.old }
        ensures honesty { IsTrue (⟦<WriteSink<W> as Sink>⟧.is_honest self.old) →
            IsTrue (⟦<WriteSink<W> as Sink>⟧.is_honest self.new) }
        ensures failures { OnOk result (⟦<WriteSink<W> as Sink>⟧.failures self.new ≡
            ⟦<WriteSink<W> as Sink>⟧.failures self.old) }
        ensures fails { OnErr result (Rises (⟦<WriteSink<W> as Sink>⟧.failures self.old)
            (⟦<WriteSink<W> as Sink>⟧.failures self.new)) }
    {
        match self.writer.flush() {
            Ok(()) => Ok(()),
            Err(_) => {
                self.failed = self.failed.saturating_add(1);
                Err(WriteFault)
            }
        }
    }
}

impl<W: Write + Drop> Sink for WriteSink<W> {
    ghost held = { λ s. unwrap_or (W.contents s.writer) [] };

    ghost failures = { λ s. s.failed };

    ghost is_honest = { λ s. is_some (W.contents s.writer) };

    fn write(&mut self, bytes: &[u8]) -> Result<usize, WriteFault> {
        match self.writer.write(bytes) {
            Ok(count) if count > 0 => Ok(count),
            _ => {
                self.failed = self.failed.saturating_add(1);
                Err(WriteFault)
            }
        }
    }
}

/// Appends all of `bytes`, by as many writes as it takes.
///
/// An `Err` comes only from a write that failed, and then at once; the bytes that were appended
/// before it stay. For empty `bytes` nothing is written.
pub fn put_all<K: Sink>(sink: &mut K, bytes: &[u8]) -> Result<(), WriteFault>
    ensures failures { OnOk result (K.failures sink.new ≡ K.failures sink.old) }
    ensures fails { OnErr result (Rises (K.failures sink.old) (K.failures sink.new)) }
    ensures empty { length bytes.now ≡ 0 → IsOk result × (sink.new ≡ sink.old) }

    // What an honest sink holds then.
    ensures honesty { IsTrue (K.is_honest sink.old) → IsTrue (K.is_honest sink.new) }
    ensures bytes { OnOk result (IsTrue (K.is_honest sink.old) → K.held sink.new ≡ K.held sink.old ++
        bytes.now) }
    ensures prefix { OnErr result (IsTrue (K.is_honest sink.old) →
        HoldsPrefix (K.held sink.old) (K.held sink.new) bytes.now) }
{
    let mut done = 0;
    while done < bytes.len() {
        done += sink.write(&bytes[done..])?;
    }
    Ok(())
}
