//! Laws of the definitions, each the contract of a function that does nothing.

ghost use Rattle.edf_layout.specs.body.BodyLaws.{LanesAreTheRest};
ghost use Rattle.edf_layout.specs.PlainLaws.{OnePlainHeaderNumber, OnePlainOnset, OnePlainSpan, OnePlainWholeNumber, PlainHeadersAreOne};
ghost use Rattle.edf_layout.specs.body.FileLaws.{FileIsItsParts, LaneIsItsTals, LanesHaveLayouts};
ghost use Rattle.edf_layout.specs.HeadLaws.{LayoutIsTheRest, TextTellsLayout};
ghost use Rattle.edf_layout.specs.body.MeaningLaws.{BodyHasOneLayout, LayoutAndMeaningAreTheFile, OneOrder, PlacesTell};
ghost use Rattle.edf_layout.specs.body.LayoutLaws.{FileHasOneLayout, LinesAndMeaningAreTheFile, LinesTellLayout, PlainBodiesHaveNoOddLane};
ghost use Rattle.edf_layout.specs.body.PlainBodyLaws.{OneOrderAtMost, OnePlainTal, PlainBodiesAreOne, PlainLanesHoldAll};

/// Two headers in order are the same bytes exactly where they say the same and have the same layout.
pub fn layout_is_the_rest()
    ensures { LayoutIsTheRest }
{}

/// What is written of two headers in order is the same only where they have the same layout.
pub fn text_tells_the_layout()
    ensures { TextTellsLayout }
{}

/// Two files that conform, with the same header, the same samples and the same annotation lanes, are the same bytes.
pub fn lanes_are_the_rest()
    ensures { LanesAreTheRest }
{}

/// A number of a header, an onset and a duration have one plain spelling at the most.
pub fn spellings_are_plain_in_one_way()
    ensures header_number { OnePlainHeaderNumber }
    ensures whole_number { OnePlainWholeNumber }
    ensures onset { OnePlainOnset }
    ensures span { OnePlainSpan }
{}

/// Two headers in order that are read as one header, signals and numbers included, and have no place that isn't plain are
/// the same bytes.
pub fn plain_headers_are_one()
    ensures { PlainHeadersAreOne }
{}

/// A lane that holds TALs has a layout, and two lanes of one length that hold the same TALs with the same layouts are the same
/// bytes.
pub fn lane_is_its_tals()
    ensures some { LanesHaveLayouts }
    ensures one { LaneIsItsTals }
{}

/// Two files that conform are the same bytes where their headers say the same and have the same layout, and they have the same
/// samples, and the same TALs in each lane, with the same layouts.
pub fn file_is_its_parts()
    ensures { FileIsItsParts }
{}

/// Annotations are put in order in one way, and each stands there at its place.
pub fn annotations_have_one_order()
    ensures one { OneOrder }
    ensures place { PlacesTell }
{}

/// The data records of a file that conforms have one layout.
pub fn body_has_one_layout()
    ensures { BodyHasOneLayout }
{}

/// Two files that conform are the same bytes exactly where their headers say the same and have the same layout, they
/// have the same samples and the same annotations, and their data records have the same layout.
pub fn layout_and_meaning_are_the_file()
    ensures { LayoutAndMeaningAreTheFile }
{}

/// Two files that conform and say the same, with headers of one layout and bodies of one plain order, are the same
/// bytes.
pub fn plain_bodies_are_one()
    ensures { PlainBodiesAreOne }
{}

/// The annotations of a file that conforms stand in one plain order at the most.
pub fn a_body_has_one_plain_order_at_most()
    ensures { OneOrderAtMost }
{}

/// A TAL has one plain spelling.
pub fn a_tal_has_one_plain_spelling()
    ensures { OnePlainTal }
{}

/// Where there is room for all annotations, a plain order has the TAL of each, and that of each start of a data record.
pub fn plain_lanes_hold_all()
    ensures { PlainLanesHoldAll }
{}

/// A file that conforms has one layout; the lines of it are the same for two files only where their layouts are; and two
/// files that conform and mean the same are the same bytes exactly where these lines are the same: there is no third
/// thing in the bytes of a file.
pub fn lines_and_meaning_are_the_file()
    ensures one { FileHasOneLayout }
    ensures told { LinesTellLayout }
    ensures all { LinesAndMeaningAreTheFile }
{}

/// The annotations of a file that conforms stand in a plain order exactly where this is the order that its layout names
/// and no lane is odd.
pub fn plain_bodies_have_no_odd_lane()
    ensures { PlainBodiesHaveNoOddLane }
{}
