//! The columns of a header, which hold the fields of its signals.

ghost use Rattle.std.specs.Prelude.{◌≡◌, ◌<◌};
ghost use Rattle.edf_fields.specs.fields.LayoutReading.{column_field};
ghost use Rattle.edf_header.specs.Narrow.{SaysTheSame};

use crate::in_columns::column::Column;
use edf_fields::SignalField;
use std::marker::Model;

/// The columns of a header: ten, one behind the other in the file, each with one field of every signal (EDF,
/// "Header record"). A signal's fields lie far apart there, so all columns are in memory while they are judged.
#[derive(Drop)]
pub(crate) struct Columns {
    pub columns: Vec<Column>,
    pub signals: u16,
}

impl Model for Columns {
    ghost use Rattle.edf_fields.specs.fields.LayoutReading.{columns as fields};
    ghost use Rattle.edf_header.specs.Narrow.{WideColumns, all_bytes, AreColumns};

    ghost Value = { WideColumns };

    ghost view = { λ c. record { signals = c.signals; bytes = all_bytes c.columns.items } };

    ghost invariant = { λ c. AreColumns c.signals fields c.columns.items };
}

impl Columns {
    /// How many signals there are.
    pub(crate) fn signals(&self) -> u16
        ensures { result ≡ self.now.signals }
    {
        self.signals
    }

    /// A field of a signal; spaces at its end may be missing.
    pub(crate) fn field(&self, signal: u16, field: SignalField) -> &[u8]
        requires { signal < self.now.signals }
        ensures { SaysTheSame result.now
            (column_field (self.entry.now).bytes (self.entry.now).signals signal field) }
    {
        self.columns[field.place()].field(usize::from(signal))
    }
}
