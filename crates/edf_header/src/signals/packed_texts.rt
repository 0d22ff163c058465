//! The texts of one signal but for its label.

ghost use Rattle.std.specs.Prelude.{◌≡◌, ◌+◌, ◌<◌, ◌++◌, length, IfOk, OnOk};
ghost use Rattle.edf_header.specs.signals.PackedTexts.{SignalTexts};

use std::alloc::{AllocError, Global};
use std::marker::Model;

/// The texts of a signal's fields but for its label, one behind the other in one piece of memory. A header
/// has up to 9,999 signals, so what each of them takes counts.
#[derive(Drop)]
pub(crate) struct PackedTexts {
    bytes: Vec<u8>,
    /// Where the transducer ends, and so on; the reserved text ends where the bytes do.
    transducer: u8,
    dimension: u8,
    prefilter: u8,
}

impl Model for PackedTexts {
    ghost use Rattle.edf_header.specs.signals.PackedTexts.{SignalTexts, texts_between, AreBehind};

    ghost Value = { SignalTexts };

    ghost view = { λ t. texts_between t.bytes.items t.transducer t.dimension t.prefilter };

    ghost invariant = { λ t. AreBehind t.bytes.items t.transducer t.dimension t.prefilter };
}

/// Puts a text behind others, and answers where it ends.
fn put_behind(bytes: &mut Vec<u8>, text: &[u8]) -> Result<u8, AllocError>
    requires { length bytes.old.items + length text.now < 256 }
    ensures behind { OnOk result (bytes.new.items ≡ bytes.old.items ++ text.now) }
    ensures end { IfOk result (λ end. end ≡ length bytes.old.items + length text.now) }
{
    bytes.extend_from_slice(text)?;
    Ok(bytes.len() as u8)
}

impl PackedTexts {
    /// These texts, which have less than 256 bytes together.
    #[tactic(auto, using(crate::proofs::signals::TextFacts::texts_kept, crate::proofs::signals::TextFacts::texts_behind))]
    pub(crate) fn new(
        alloc: Global,
        transducer: &[u8],
        dimension: &[u8],
        prefilter: &[u8],
        reserved: &[u8],
    ) -> Result<PackedTexts, AllocError>
        requires { length transducer.now + length dimension.now + length prefilter.now + length
            reserved.now < 256 }
        ensures { IfOk result (λ t. t ≡ record {
          transducer = transducer.now;
          dimension = dimension.now;
          prefilter = prefilter.now;
          reserved = reserved.now;
        }) }
    {
        let mut bytes = Vec::with_capacity(
            alloc,
            transducer.len() + dimension.len() + prefilter.len() + reserved.len(),
        )?;
        let transducer_end = put_behind(&mut bytes, transducer)?;
        let dimension_end = put_behind(&mut bytes, dimension)?;
        let prefilter_end = put_behind(&mut bytes, prefilter)?;
        put_behind(&mut bytes, reserved)?;
        Ok(PackedTexts {
            bytes,
            transducer: transducer_end,
            dimension: dimension_end,
            prefilter: prefilter_end,
        })
    }

    /// The transducer.
    pub(crate) fn transducer(&self) -> &[u8]
        ensures { result.now ≡ self.entry.now.transducer }
    {
        &self.bytes[..usize::from(self.transducer)]
    }

    /// The dimension.
    pub(crate) fn dimension(&self) -> &[u8]
        ensures { result.now ≡ self.entry.now.dimension }
    {
        &self.bytes[usize::from(self.transducer)..usize::from(self.dimension)]
    }

    /// The prefilter.
    pub(crate) fn prefilter(&self) -> &[u8]
        ensures { result.now ≡ self.entry.now.prefilter }
    {
        &self.bytes[usize::from(self.dimension)..usize::from(self.prefilter)]
    }

    /// The reserved text.
    pub(crate) fn reserved(&self) -> &[u8]
        ensures { result.now ≡ self.entry.now.reserved }
    {
        &self.bytes[usize::from(self.prefilter)..]
    }
}
