//! What a command line asks for.

/// A command with its arguments, which are paths of files.
#[derive(Debug, Clone, Copy, PartialEq, Eq)]
pub enum Job<'a> {
    /// Checks an export against its original under a claim.
    Check {
        original: &'a str,
        export: &'a str,
        claim: &'a str,
    },
    /// Checks exports, in the order of time, which together are the export of one original under one claim.
    CheckParts {
        original: &'a str,
        claim: &'a str,
        exports: &'a [&'a str],
    },
    /// The same as `Check`, with a receipt for its answer.
    Receipt {
        original: &'a str,
        export: &'a str,
        claim: &'a str,
    },
    /// The same as `CheckParts`, with a receipt for its answer.
    ReceiptParts {
        original: &'a str,
        claim: &'a str,
        exports: &'a [&'a str],
    },
    /// Drafts the claim by which one recording is the export of another.
    Draft {
        original: &'a str,
        export: &'a str,
    },
    /// Drafts the claim by which several recordings, in the order of time, are together the export of another.
    DraftParts {
        original: &'a str,
        exports: &'a [&'a str],
    },
    /// The same as `Check`, with sentences behind its answer.
    Explain {
        original: &'a str,
        export: &'a str,
        claim: &'a str,
    },
    /// The same as `CheckParts`, with sentences behind its answer.
    ExplainParts {
        original: &'a str,
        claim: &'a str,
        exports: &'a [&'a str],
    },
    /// Says whether a file conforms.
    Conform(&'a str),
    /// Shows what the header of a file says.
    Show(&'a str),
    /// Lists the annotations of a file.
    Notes(&'a str),
    /// Prints what the header of a file says and its annotations, for reading.
    Read(&'a str),
    /// Prints what the bytes of a file hold besides what it means.
    Layout(&'a str),
    /// Prints a claim as it is understood.
    Claim(&'a str),
    /// Runs the worked rows.
    Vectors,
}
