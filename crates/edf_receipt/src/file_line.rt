//! The line of a receipt that names a file.

ghost use Rattle.std.specs.Prelude.{◌≡◌, ◌++◌, Some, OnOk};
ghost use Rattle.edf_receipt.specs.Receipts.{file_line, file_name, file_words};

use crate::digest_source::Digested;
use std::alloc::{AllocError, Global};
use std::fmt;

/// A file that a receipt names.
#[derive(Debug, Clone, Copy, PartialEq, Eq)]
pub enum ReceiptFile {
    /// The recording that is kept.
    Original,
    /// The recording that is handed out.
    Export,
    /// Of several that are handed out the one of this number, counted from 0.
    Part(u16),
    /// The claim.
    Claim,
}

impl fmt::Display for ReceiptFile {
    ghost output = { λ file. Some (file_name file) };

    fn fmt<W: fmt::Write>(&self, f: &mut fmt::Formatter<W>) -> fmt::Result {
        match self {
            ReceiptFile::Original => write!(f, "original"),
            ReceiptFile::Export => write!(f, "export"),
            ReceiptFile::Part(part) => write!(f, "part {part}"),
            ReceiptFile::Claim => write!(f, "claim"),
        }
    }
}

/// Which file it is, its digest and how many bytes it has.
#[derive(Debug, Clone, Copy, PartialEq, Eq)]
pub struct FileLine {
    pub file: ReceiptFile,
    pub digested: Digested,
}

impl FileLine {
    /// Puts the line without its end behind a text.
    #[tactic(auto, unfolding(crate::specs::Receipts::file_words))]
    fn push_words(&self, text: &mut Vec<u8>, alloc: Global) -> Result<(), AllocError>
        ensures { OnOk result (text.new.items ≡ text.old.items ++ file_words self.now) }
    {
        let digits = hex::encode(alloc, self.digested.sha256)?;
        let words = format!(in alloc;
            "{} sha256 {digits} bytes {}",
            self.file, self.digested.bytes
        )?;
        text.extend_from_slice(words.as_bytes())
    }

    /// Puts the line behind a text.
    pub(crate) fn push(&self, text: &mut Vec<u8>, alloc: Global) -> Result<(), AllocError>
        ensures { OnOk result (text.new.items ≡ text.old.items ++ file_line self.now) }
    {
        self.push_words(text, alloc)?;
        text.push(b'\n')?;
        Ok(())
    }
}
