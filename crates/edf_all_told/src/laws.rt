//! Laws of the definitions, each the contract of a function that does nothing. The files conform, and a claim is one that can be
//! read.

ghost use Rattle.edf_all_told.specs.Laws.{
  AllIsTold,
  AllIsToldOfSeveral,
  FirstIsTold,
  FirstIsToldOfSeveral,
  FirstNoteIsTold,
  FirstNoteIsToldOfSeveral,
};

/// Of each claimed channel that an original and its export both have, and of no other, what is found tells all instants at which
/// what is kept of the original and the export differ, and no others: of each kind how many they are, as far as a counter goes,
/// the first and the last, with their data records. This holds where rules of the headers are broken, too.
pub fn all_differences_of_samples_are_told()
    ensures { AllIsTold }
{}

/// Of several exports that follow one another it tells the same of each, in its time: up to its end, but of the last one without
/// end, and from the end of the one before it on.
pub fn all_differences_of_samples_are_told_of_several_exports()
    ensures { AllIsToldOfSeveral }
{}

/// Where the verdict is a difference of samples, it is told: as the first one of its kind in its channel. No first one that is
/// told of any channel of any export is before it, and at its instant none of a lower label.
pub fn a_verdict_on_samples_is_told_first()
    ensures one { FirstIsTold }
    ensures several { FirstIsToldOfSeveral }
{}

/// Where the verdict is a difference of annotations, the one that it names is the first of its kind that
/// `Notes::only_in_one` finds.
pub fn a_verdict_on_annotations_is_told_first()
    ensures one { FirstNoteIsTold }
    ensures several { FirstNoteIsToldOfSeveral }
{}
