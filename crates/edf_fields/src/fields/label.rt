//! The label of a signal (EDF, "Header record": label).

ghost use Rattle.std.specs.Prelude.{◌≡◌, ◌≤◌, length};

use std::marker::Model;

/// The most bytes that a label has (EDF, "Header record").
pub const LABEL_BYTES: usize = 16;

/// The label of a signal that holds annotations (EDF+, "The 'EDF Annotations' signal").
pub const ANNOTATIONS: &[u8] = b"EDF Annotations";

/// The label of a signal: at most 16 bytes (EDF, "Header record"), with no memory besides. There are up to
/// 9,999 signals in a file, and as many labels in a claim.
#[derive(Debug, Drop)]
pub struct SignalLabel {
    bytes: [u8; 16],
    length: u8,
}

impl Model for SignalLabel {
    ghost use Rattle.std.specs.Prelude.{ℕ, ◌≤◌, List, take};

    ghost Value = { List ℕ };

    ghost view = { λ l. take l.length l.bytes };

    ghost invariant = { λ l. l.length ≤ 16 };
}

impl SignalLabel {
    /// The label of these bytes.
    pub fn new(text: &[u8]) -> SignalLabel
        requires { length text.now ≤ 16 }
        ensures { result ≡ text.now }
    {
        let mut bytes = [0; 16];
        bytes[..text.len()].copy_from_slice(text);
        SignalLabel {
            bytes,
            length: text.len() as u8,
        }
    }

    /// The bytes of the label.
    pub fn text(&self) -> &[u8]
        ensures { result.now ≡ self.entry.now }
    {
        &self.bytes[..usize::from(self.length)]
    }
}
