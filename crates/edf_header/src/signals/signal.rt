//! One signal of a file.

ghost use Rattle.std.specs.Prelude.{◌≡◌, ◌≤◌, length, IfOk};
ghost use Rattle.edf_header.specs.Heads.{is_annotations};

use crate::signals::calibration::Calibration;
use crate::signals::details::{Details, TextsOf};
use edf_fields::{ANNOTATIONS, SignalLabel};
use std::alloc::{AllocError, Global};
use std::marker::Model;
use std::rc::Rc;

/// One signal of a file: a channel, or a signal that holds annotations.
///
/// The texts are those of its fields (EDF, "Header record"), without trailing spaces.
///
/// A header has up to 9,999 signals, so what each of them takes counts: one that says what the one before
/// says but for its label takes 40 bytes.
#[derive(Drop)]
pub struct Signal {
    offset: u64,
    details: Rc<Details>,
    samples: u32,
    label: SignalLabel,
    /// Whether the label is that of a signal that holds annotations.
    holds_annotations: bool,
}

const _: () = prove!(size_of::<Signal>() == 40);

/// The numbers that the fields of a signal spell.
#[derive(Clone, Copy)]
pub(crate) struct SignalNumbers {
    pub calibration: Calibration,
    pub samples: u32,
}

/// Whether this is the label of a signal that holds annotations.
pub(crate) fn is_annotation_label(label: &[u8]) -> bool
    ensures { result ≡ is_annotations label.now }
{
    label == ANNOTATIONS
}

impl Model for Signal {
    ghost use Rattle.std.specs.Prelude.{◌≡◌};
    ghost use Rattle.edf_header.specs.Heads.{SignalHead, is_annotations};

    ghost Value = { SignalHead };

    ghost view = { λ s. record {
      label = s.label;
      transducer = s.details.value.texts.transducer;
      dimension = s.details.value.texts.dimension;
      prefilter = s.details.value.texts.prefilter;
      reserved = s.details.value.texts.reserved;
      calibration = s.details.value.calibration;
      samples = s.samples;
      offset = s.offset;
    } };

    ghost invariant = { λ s. s.holds_annotations ≡ is_annotations s.label };
}

impl Signal {
    /// A signal of these texts and numbers. It shares memory with the one before, where both say the same.
    pub(crate) fn new(
        alloc: Global,
        texts: TextsOf<'_>,
        numbers: SignalNumbers,
        offset: u64,
        before: Option<&Signal>,
    ) -> Result<Signal, AllocError>
        requires label { length texts.label.now ≤ 16 }
        requires transducer { length texts.transducer.now ≤ 80 }
        requires dimension { length texts.dimension.now ≤ 8 }
        requires prefilter { length texts.prefilter.now ≤ 80 }
        requires reserved { length texts.reserved.now ≤ 32 }
        ensures { IfOk result (λ s. s ≡ record {
          label = texts.entry.label.now;
          transducer = texts.entry.transducer.now;
          dimension = texts.entry.dimension.now;
          prefilter = texts.entry.prefilter.now;
          reserved = texts.entry.reserved.now;
          calibration = numbers.calibration;
          samples = numbers.samples;
          offset = offset;
        }) }
    {
        let before = match before {
            Some(signal) => Some(&signal.details),
            None => None,
        };
        Ok(Signal {
            offset,
            details: Details::shared(alloc, texts, numbers.calibration, before)?,
            samples: numbers.samples,
            label: SignalLabel::new(texts.label),
            holds_annotations: is_annotation_label(texts.label),
        })
    }

    /// The label (EDF, "Header record").
    pub fn label(&self) -> &[u8]
        ensures { result.now ≡ self.entry.now.label }
    {
        self.label.text()
    }

    /// The kind of the transducer (EDF, "Header record").
    pub fn transducer(&self) -> &[u8]
        ensures { result.now ≡ self.entry.now.transducer }
    {
        self.details.texts.transducer()
    }

    /// The physical dimension, as `uV` (EDF, "Header record").
    pub fn dimension(&self) -> &[u8]
        ensures { result.now ≡ self.entry.now.dimension }
    {
        self.details.texts.dimension()
    }

    /// How the signal was filtered before it was sampled, as `HP:0.1Hz` (EDF, "Header record").
    pub fn prefilter(&self) -> &[u8]
        ensures { result.now ≡ self.entry.now.prefilter }
    {
        self.details.texts.prefilter()
    }

    /// The free text of the signal's reserved field (EDF, "Header record").
    pub fn reserved(&self) -> &[u8]
        ensures { result.now ≡ self.entry.now.reserved }
    {
        self.details.texts.reserved()
    }

    /// The line from digital to physical values (EDF, "Header record": digital and physical minimum
    /// and maximum).
    pub fn calibration(&self) -> &Calibration
        ensures { result.now ≡ self.entry.now.calibration }
    {
        &self.details.calibration
    }

    /// How many samples it has in a data record, two bytes each (EDF, "Header record").
    pub fn samples(&self) -> u32
        ensures { result ≡ self.now.samples }
    {
        self.samples
    }

    /// How many bytes of a data record stand before its first sample (EDF, "Data record": signal behind
    /// signal).
    pub fn offset(&self) -> usize
        ensures { result ≡ self.now.offset }
    {
        self.offset as usize
    }

    /// Whether the signal holds annotations and is no channel (EDF+, "The 'EDF Annotations' signal").
    pub fn is_annotations(&self) -> bool
        ensures { result ≡ is_annotations self.now.label }
    {
        self.holds_annotations
    }
}
