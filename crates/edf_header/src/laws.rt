//! Laws of the definitions, each the contract of a function that does nothing.

ghost use Rattle.edf_header.specs.signals.CalibrationLaws.{SameLineIsEquivalence, SameLineIsSameValues, CalibrationsFit};
ghost use Rattle.edf_header.specs.ConformingLaws.{PassingHasHead, PassingIsSound, PassingIsConforming, ConformingIsSound};
ghost use Rattle.edf_header.specs.HeadsReading.{HasOneHead};

/// Being the same line is an equivalence of calibrations: each is the same line as itself, of two
/// that are the same line each is that of the other, and two are the same line where a third is that
/// of both.
#[tactic(auto, using(crate::proofs::signals::CalibrationFacts::same_line_is_equivalence))]
pub fn same_line_is_an_equivalence()
    ensures { SameLineIsEquivalence }
{}

/// Two are the same line exactly where each digital value has the same physical one.
#[tactic(auto, using(crate::proofs::signals::ValueFacts::same_line_is_same_values))]
pub fn same_line_is_same_values()
    ensures { SameLineIsSameValues }
{}

/// The products by which two calibrations of headers are compared fit 128 bits.
pub fn calibrations_fit()
    ensures { CalibrationsFit }
{}

/// A file has at most one header.
pub fn file_has_one_head()
    ensures { HasOneHead }
{}

/// A file whose header passes its tests has the header that is read of it, and that one is sound.
pub fn passing_file_has_a_sound_head()
    ensures head { PassingHasHead }
    ensures sound { PassingIsSound }
{}

/// The header of a file has no fault exactly where it is in order: all of it is there, in printable
/// ASCII, the version is 0, the size is right, and the fields say a header, which meets the standard. Such a
/// header is sound.
pub fn passing_is_being_in_order()
    ensures passing { PassingIsConforming }
    ensures sound { ConformingIsSound }
{}
