//! Printable ASCII, in which the fields of a header are written.
ghost use Rattle.std.specs.Prelude.{◌≡◌, ◌↔◌, IsTrue};
ghost use Rattle.std.specs.List.{list_all};
ghost use Rattle.edf_fields.specs.texts.Printable.{IsPrintable};
ghost use Rattle.edf_fields.specs.texts.PrintableReading.{is_printable as is_printable_byte};

/// Whether each byte is printable ASCII, as `is_printable`.
fn are_printable(bytes: &[u8]) -> bool
    ensures { result ≡ list_all is_printable_byte bytes.now }
{
    bytes.iter().all(|byte| *byte >= 32 && *byte <= 126)
}

/// Whether each byte is printable ASCII: from 32 to 126 (EDF, "Header record"; EDF+, "Additional
/// specifications in EDF+").
#[tactic(auto, using(crate::proofs::texts::PrintableFacts::printable_said))]
pub fn is_printable(bytes: &[u8]) -> bool
    ensures printable { IsTrue result ↔ IsPrintable bytes.now }
    ensures value { result ≡ list_all is_printable_byte bytes.now }
{
    are_printable(bytes)
}
