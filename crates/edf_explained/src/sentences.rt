//! Sentences behind a line.

ghost use Rattle.std.specs.Prelude.{IsTrue, OnOk};
ghost use Rattle.edf_explained.specs.Appending.{Appended};

use edf_fields::{Sink, WriteFault, put_all};

/// Writes sentences behind what a sink holds.
pub(crate) fn put_sentences<K: Sink>(sink: &mut K, sentences: &[u8]) -> Result<(), WriteFault>
    ensures appended { OnOk result (IsTrue (K.is_honest sink.old) →
        Appended (K.held sink.old) (K.held sink.new)) }
    ensures honesty { IsTrue (K.is_honest sink.old) → IsTrue (K.is_honest sink.new) }
{
    put_all(sink, sentences)?;
    Ok(())
}
