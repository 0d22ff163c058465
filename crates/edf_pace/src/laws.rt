//! Laws of the definitions, each the contract of a function that does nothing.

ghost use Rattle.edf_pace.specs.Laws.{FirstIsCounted, FirstNoteIsCounted, NoneIsFoundWhereSame};

/// What a check finds first in the samples of two files is the earliest of the first differences that are counted of each
/// channel.
pub fn the_first_is_counted_first()
    ensures { FirstIsCounted }
{}

/// What a check finds first in the annotations of two files, in order, is the first of all that don't stand equally often in
/// both.
pub fn the_first_annotation_is_counted_first()
    ensures { FirstNoteIsCounted }
{}

/// No annotation of two files is found in one of them alone exactly where each stands equally often in both.
pub fn no_annotation_is_found_where_both_have_the_same()
    ensures { NoneIsFoundWhereSame }
{}
