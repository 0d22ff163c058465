//! Laws of the definitions, each the contract of a function that does nothing.

ghost use Rattle.edf_findings.specs.Laws.{NoFindingIsYes};

/// Of an original and exports that conform and follow one another nothing is found exactly where the answer is Yes: no rule of
/// the headers is broken, each claimed channel that both files have is as claimed, and no annotation is in the original or the
/// exports alone.
pub fn there_is_no_finding_exactly_where_the_answer_is_yes()
    ensures { NoFindingIsYes }
{}
