//! What a signal says besides its label and its lane in a data record.

ghost use Rattle.std.specs.Prelude.{◌≡◌, ◌≤◌, length, None, Some, IsTrue, IfOk};
ghost use Rattle.edf_header.specs.Views.{details_of};

use crate::signals::calibration::Calibration;
use crate::signals::packed_texts::PackedTexts;
use std::alloc::{AllocError, Global};
use std::rc::Rc;

/// The texts of the fields of a signal.
#[derive(Clone, Copy)]
pub(crate) struct TextsOf<'a> {
    pub label: &'a [u8],
    pub transducer: &'a [u8],
    pub dimension: &'a [u8],
    pub prefilter: &'a [u8],
    pub reserved: &'a [u8],
}

/// The texts of a signal but for its label, and its calibration. Signals that stand one behind the other
/// mostly agree in these, and then have them together.
#[derive(Drop)]
pub(crate) struct Details {
    pub texts: PackedTexts,
    pub calibration: Calibration,
}

impl Details {
    /// These texts and this calibration.
    fn new(
        alloc: Global,
        texts: TextsOf<'_>,
        calibration: Calibration,
    ) -> Result<Details, AllocError>
        requires transducer { length texts.transducer.now ≤ 80 }
        requires dimension { length texts.dimension.now ≤ 8 }
        requires prefilter { length texts.prefilter.now ≤ 80 }
        requires reserved { length texts.reserved.now ≤ 32 }
        ensures { IfOk result (λ d. d ≡ details_of texts.entry calibration) }
    {
        let texts = PackedTexts::new(
            alloc,
            texts.transducer,
            texts.dimension,
            texts.prefilter,
            texts.reserved,
        )?;
        Ok(Details { texts, calibration })
    }

    /// Whether they are these texts and this calibration.
    fn are(&self, texts: TextsOf<'_>, calibration: &Calibration) -> bool
        ensures { IsTrue result → self.now ≡ details_of texts.entry calibration.now }
    {
        self.texts.transducer() == texts.transducer
            && self.texts.dimension() == texts.dimension
            && self.texts.prefilter() == texts.prefilter
            && self.texts.reserved() == texts.reserved
            && self.calibration.has_extremes_of(calibration)
    }

    /// These texts and this calibration, together with the signal before if it has the same.
    pub(crate) fn shared(
        alloc: Global,
        texts: TextsOf<'_>,
        calibration: Calibration,
        before: Option<&Rc<Details>>,
    ) -> Result<Rc<Details>, AllocError>
        requires transducer { length texts.transducer.now ≤ 80 }
        requires dimension { length texts.dimension.now ≤ 8 }
        requires prefilter { length texts.prefilter.now ≤ 80 }
        requires reserved { length texts.reserved.now ≤ 32 }
        ensures { IfOk result (λ d. d.value ≡ details_of texts.entry calibration) }
    {
        match before {
            Some(before) if before.are(texts, &calibration) => before.clone(),
            _ => Ok(Rc::new(alloc, Details::new(alloc, texts, calibration)?)?),
        }
    }
}
