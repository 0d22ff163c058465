//! Laws of the definitions, each the contract of a function that does nothing.

ghost use Rattle.edf_heads.specs.Laws.{FirstIsBroken, NothingIsBrokenWhereHeadsAgree};

/// The rule that a verdict on two headers names is one of those that are broken.
pub fn the_first_is_broken()
    ensures { FirstIsBroken }
{}

/// No rule is broken exactly where the export's header is what the claim says of the original's.
pub fn nothing_is_broken_where_headers_agree()
    ensures { NothingIsBrokenWhereHeadsAgree }
{}
