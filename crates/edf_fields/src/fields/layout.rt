//! The layout of a header (EDF, "Header record"): a fixed part of 256 bytes, then ten columns, each
//! with one field of every signal.

ghost use Rattle.std.specs.Prelude.{◌≡◌, ◌+◌, ◌≤◌, ◌<◌, length, get_or};
ghost use Rattle.edf_fields.specs.declared.fields.layout.SignalField.TheVariants.{Label};
ghost use Rattle.edf_fields.specs.fields.Layout.{fixed_field as fixed_field_of};
ghost use Rattle.edf_fields.specs.fields.LayoutReading.{fixed_field_name, columns, signal_field_name, fixed_from, fixed_bytes, column_width};

use crate::texts::number::bytes_at;

/// A field of the fixed part, the first 256 bytes, in file order.
#[derive(Debug, Clone, Copy, PartialEq, Eq)]
pub enum FixedField {
    Version,
    Patient,
    Recording,
    Startdate,
    Starttime,
    HeaderBytes,
    Reserved,
    Records,
    Duration,
    Signals,
}

impl FixedField {
    /// The field's name in the text of a fault.
    pub fn name(self) -> &'static str
        ensures { result.now ≡ fixed_field_name self }
    {
        match self {
            FixedField::Version => "version",
            FixedField::Patient => "patient",
            FixedField::Recording => "recording",
            FixedField::Startdate => "startdate",
            FixedField::Starttime => "starttime",
            FixedField::HeaderBytes => "header-bytes",
            FixedField::Reserved => "reserved",
            FixedField::Records => "records",
            FixedField::Duration => "duration",
            FixedField::Signals => "signals",
        }
    }

    /// The place of the field's first byte, and how many bytes it has.
    pub fn extent(self) -> (usize, usize)
        ensures from { result.0 ≡ fixed_from self }
        ensures count { result.1 ≡ fixed_bytes self }
        ensures within { result.0 + result.1 ≤ 256 }
    {
        match self {
            FixedField::Version => (0, 8),
            FixedField::Patient => (8, 80),
            FixedField::Recording => (88, 80),
            FixedField::Startdate => (168, 8),
            FixedField::Starttime => (176, 8),
            FixedField::HeaderBytes => (184, 8),
            FixedField::Reserved => (192, 44),
            FixedField::Records => (236, 8),
            FixedField::Duration => (244, 8),
            FixedField::Signals => (252, 4),
        }
    }
}

/// The bytes of a field of the fixed part.
pub fn fixed_field(fixed: &[u8], field: FixedField) -> &[u8]
    requires { 256 ≤ length fixed.now }
    ensures value { result.now ≡ fixed_field_of fixed.entry.now field }
    ensures len { length result.now ≡ fixed_bytes field }
{
    let (from, count) = field.extent();
    bytes_at(fixed, from, count)
}

/// A field of a signal, in the order of the columns behind the fixed part. Each column holds one
/// field of every signal.
#[derive(Debug, Clone, Copy, PartialEq, Eq)]
pub enum SignalField {
    Label,
    Transducer,
    Dimension,
    PhysicalMinimum,
    PhysicalMaximum,
    DigitalMinimum,
    DigitalMaximum,
    Prefilter,
    Samples,
    Reserved,
}

impl SignalField {
    /// The field's name in the text of a fault.
    pub fn name(self) -> &'static str
        ensures { result.now ≡ signal_field_name self }
    {
        match self {
            SignalField::Label => "label",
            SignalField::Transducer => "transducer",
            SignalField::Dimension => "dimension",
            SignalField::PhysicalMinimum => "physical-minimum",
            SignalField::PhysicalMaximum => "physical-maximum",
            SignalField::DigitalMinimum => "digital-minimum",
            SignalField::DigitalMaximum => "digital-maximum",
            SignalField::Prefilter => "prefilter",
            SignalField::Samples => "samples",
            SignalField::Reserved => "reserved",
        }
    }

    /// How many bytes it has.
    pub fn width(self) -> usize
        ensures width { result ≡ column_width self }
        ensures within { result ≤ 80 }
        ensures some { 8 ≤ result }
    {
        match self {
            SignalField::Label => 16,
            SignalField::Transducer | SignalField::Prefilter => 80,
            SignalField::Reserved => 32,
            SignalField::Dimension
            | SignalField::PhysicalMinimum
            | SignalField::PhysicalMaximum
            | SignalField::DigitalMinimum
            | SignalField::DigitalMaximum
            | SignalField::Samples => 8,
        }
    }

    /// Which of the columns it is.
    #[tactic(auto, unfolding(crate::specs::fields::LayoutReading::columns))]
    pub fn place(self) -> usize
        ensures within { result < length columns }
        ensures field { get_or columns result Label ≡ self }
    {
        match self {
            SignalField::Label => 0,
            SignalField::Transducer => 1,
            SignalField::Dimension => 2,
            SignalField::PhysicalMinimum => 3,
            SignalField::PhysicalMaximum => 4,
            SignalField::DigitalMinimum => 5,
            SignalField::DigitalMaximum => 6,
            SignalField::Prefilter => 7,
            SignalField::Samples => 8,
            SignalField::Reserved => 9,
        }
    }
}
