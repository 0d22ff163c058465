//! The text of a receipt.

ghost use Rattle.std.specs.Prelude.{◌≡◌, ◌++◌, IfOk, OnOk};
ghost use Rattle.std.specs.List.{flat_map};
ghost use Rattle.edf_receipt.specs.Receipts.{file_line, receipt, version_line};

use crate::file_line::FileLine;
use std::alloc::{AllocError, Global};

/// Puts the line that says the program behind a text.
fn push_version(text: &mut Vec<u8>, version: &str) -> Result<(), AllocError>
    ensures { OnOk result (text.new.items ≡ text.old.items ++ version_line version.now) }
{
    text.extend_from_slice("edfclaim ".as_bytes())?;
    text.extend_from_slice(version.as_bytes())?;
    text.push(b'\n')?;
    Ok(())
}

/// Puts the lines of files behind a text.
fn push_files(text: &mut Vec<u8>, alloc: Global, files: &[FileLine]) -> Result<(), AllocError>
    ensures { OnOk result (text.new.items ≡ text.old.items ++ flat_map file_line files.now) }
{
    for file in files {
        file.push(text, alloc)?;
    }
    Ok(())
}

/// The text of a receipt: the program, the files, and the line of the verdict.
///
/// The error is want of memory.
pub(crate) fn receipt_text(
    alloc: Global,
    version: &str,
    files: &[FileLine],
    line: &[u8],
) -> Result<Vec<u8>, AllocError>
    ensures { IfOk result (λ text. text.items ≡ receipt version.now files.now line.now) }
{
    let mut text = Vec::new(alloc);
    push_version(&mut text, version)?;
    push_files(&mut text, alloc, files)?;
    text.extend_from_slice(line)?;
    Ok(text)
}
