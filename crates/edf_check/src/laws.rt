//! Laws of the definitions, each the contract of a function that does nothing.

ghost use Rattle.edf_check.specs.Laws.{AllProductsFit, AnyCutOfExport, AnyCutOfOriginal, HeadlineExactly, NotesInWords, NothingIsCounted, NothingIsFound, OnePart, OnePartVerdict, OneVerdict, OneVerdictOnParts, SamplesInWords, SomeVerdict, StartFollows, YesExactly, YesTogether};

/// Two files have one verdict at most.
pub fn there_is_one_verdict()
    ensures { OneVerdict }
{}

/// Two files have a verdict under every claim that can be read: of any bytes there is an answer, and by the law before
/// it is the only one.
pub fn there_is_a_verdict()
    ensures { SomeVerdict }
{}

/// Where there is a verdict, it is a Yes exactly where both files conform and the second is the export of
/// the first; and that is so exactly where the headline holds of them.
pub fn a_yes_is_given_exactly_for_an_export()
    ensures yes { YesExactly }
    ensures headline { HeadlineExactly }
{}

/// The samples of an export are the kept ones at all instants exactly where they are so one by one, both
/// ways.
pub fn samples_are_the_same_in_words()
    ensures { SamplesInWords }
{}

/// Each annotation stands equally often in two lists exactly where one is a rearrangement of the other.
pub fn annotations_are_rearranged()
    ensures { NotesInWords }
{}

/// The start of an export follows from the samples that are kept, and so does its date where that is told: it
/// starts at the whole second of the first kept sample, moved by the claimed shift.
pub fn a_start_follows_from_the_samples()
    ensures { StartFollows }
{}

/// The products by which the samples of two files that conform are kept and compared under any claim, and
/// their calibrations, fit 128 bits.
pub fn products_fit()
    ensures { AllProductsFit }
{}

/// The verdict doesn't depend on how a writer cut a file into data records, ordered its signals, spelled its numbers or
/// placed its annotations: files that hold the same have the same verdict beside every other file, as originals, and as
/// exports where they also have free text in the same places.
pub fn the_cut_does_not_matter()
    ensures export { AnyCutOfExport }
    ensures original { AnyCutOfOriginal }
{}

/// A single file is the export of an original exactly where it is so as the only part, and what is said of it as the
/// only part is the verdict on it.
pub fn one_part_is_an_export()
    ensures export { OnePart }
    ensures verdict { OnePartVerdict }
{}

/// Several parts have one verdict at most, and it is said of one part.
pub fn there_is_one_verdict_on_parts()
    ensures { OneVerdictOnParts }
{}

/// Where there is a verdict on several parts, it is a Yes exactly where the original and all parts conform and the parts
/// are together the export.
pub fn a_yes_is_given_exactly_for_all_parts_together()
    ensures { YesTogether }
{}

/// Of exports whose headers agree and that follow one another an onlooker counts nothing exactly where the samples of all
/// together are what the claim keeps.
pub fn nothing_is_counted_exactly_where_samples_are_as_claimed()
    ensures { NothingIsCounted }
{}

/// Of an original and exports that conform nothing is found exactly where the answer is Yes: no rule of the headers is broken,
/// no export begins early, nothing is counted of the samples, and no annotation is in the original or the exports alone.
pub fn nothing_is_found_exactly_where_the_answer_is_yes()
    ensures { NothingIsFound }
{}
