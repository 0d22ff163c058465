//! Laws of the definitions, each the contract of a function that does nothing.

ghost use Rattle.edf_one_export.specs.Laws.{LinesTellExport, TextTellsExport};

/// What a Yes leaves open is told by the lines of the layout: two exports of one original under one claim are the same
/// bytes exactly where the lines of their layouts are the same, and so exactly where `layout_to` writes the same of both.
pub fn a_yes_and_the_lines_are_the_export()
    ensures lines { LinesTellExport }
    ensures text { TextTellsExport }
{}
