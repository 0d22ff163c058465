//! Files that can't be opened or read, or that stand in the places of others.

// A file that can't be opened: its path, and why the system doesn't open it. One that can't be read: its path. And of several exports,
// one of which can't be read, a path that is one of a folder.

pub(crate) const CANNOT_OPEN: &str = "{0}: {1}";

pub(crate) const CANNOT_READ: &str =
    "{0}: the file was opened, and reading it failed. It is a folder, or the disk or the network has a fault: copy it to a local disk, and try again.";

pub(crate) const IS_FOLDER: &str =
    "{0}: this is a folder, and reading a folder fails. Type the path of a file.";

// Files in the places of others.

pub(crate) const EXPORT_TWICE: &str =
    "Both files say the same in their headers, and have X where the claim hides something: it looks like the export was typed as the original, too. The order is: the original, the export, the claim; with explain-parts: the original, the claim, the exports.";

pub(crate) const ORIGINAL_TWICE: &str =
    "Both files say the same in their headers, though the claim moves or hides something: it looks like the original was typed as the export, too, or nothing was moved or hidden in the export. The order is: the original, the export, the claim; with explain-parts: the original, the claim, the exports.";

pub(crate) const EXCHANGED: &str =
    "The original has X where the claim hides something, and the export shows something that the claim hides: it looks like these two were exchanged. The order is: the original, the export, the claim; with explain-parts: the original, the claim, the exports.";

/// Where the check answers something else when the files are read once more under the shift by which all else is worked out than when it was
/// tried.
pub(crate) const READ_ANEW: &str =
    "When the files were read once more, the check didn't answer what it had answered before: a file was changed meanwhile, or can't be read twice. The first line is the answer: don't use these sentences.";
