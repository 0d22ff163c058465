//! The texts of the fields of a signal, in the columns as they stand in a file (EDF, "Header record").

ghost use Rattle.std.specs.Prelude.{◌≡◌, ◌+◌, ◌*◌, ◌≤◌, ◌<◌, length};
ghost use Rattle.edf_fields.specs.fields.LayoutReading.{column_before, column_width};
ghost use Rattle.edf_layout.specs.RawSignals.{AreRaw};
ghost use Rattle.edf_layout.specs.HeadLayouts.{fixed_text as fixed_text_of, signal_text as signal_text_of};

use edf_fields::{FixedField, SignalField, bytes_at, fixed_field, text};

/// The text of a field of the fixed part.
pub(crate) fn fixed_text(front: &[u8], field: FixedField) -> &[u8]
    requires { 256 ≤ length front.now }
    ensures { result.now ≡ fixed_text_of front.entry.now field }
{
    text(fixed_field(front, field))
}

/// How many bytes of each signal stand in the columns before that of this field.
fn before(field: SignalField) -> usize
    ensures before { result ≡ column_before field }
    ensures within { result + column_width field ≤ 256 }
{
    match field {
        SignalField::Label => 0,
        SignalField::Transducer => 16,
        SignalField::Dimension => 96,
        SignalField::PhysicalMinimum => 104,
        SignalField::PhysicalMaximum => 112,
        SignalField::DigitalMinimum => 120,
        SignalField::DigitalMaximum => 128,
        SignalField::Prefilter => 136,
        SignalField::Samples => 216,
        SignalField::Reserved => 224,
    }
}

/// Where a field of signal `signal` of so many begins.
fn place_of(signals: usize, signal: usize, field: SignalField) -> usize
    requires few { signals < 10000 }
    requires there { signal < signals }
    ensures place { result ≡ column_before field * signals + column_width field * signal }
    ensures within { result + column_width field ≤ 256 * signals }
{
    before(field) * signals + field.width() * signal
}

/// The signals of a header: their columns as they stand in the file, one behind the other, and how many signals there are.
#[derive(Clone, Copy)]
pub struct RawSignals<'a> {
    /// The columns.
    pub columns: &'a [u8],
    /// How many signals there are.
    pub count: usize,
}

impl<'a> RawSignals<'a> {
    /// The text of a field of this signal.
    pub fn text(self, signal: usize, field: SignalField) -> &'a [u8]
        requires raw { AreRaw self }
        requires there { signal < self.count }
        ensures { result.now ≡ signal_text_of self.entry.columns.now self.entry.count signal field }
    {
        let place = place_of(self.count, signal, field);
        text(bytes_at(self.columns, place, field.width()))
    }
}
