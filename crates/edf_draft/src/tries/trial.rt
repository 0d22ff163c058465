//! What tries a draft: the check with it, on recordings that are opened anew.

ghost use Rattle.std.specs.Prelude.{◌≡◌, IfOk, IfSome};
ghost use Rattle.edf_draft.specs.FirstLines.{Anew, IsSaid, anew, anew_parts};

use edf_fields::Source;
use edf_stop::{CheckStop, PartsRunStop, PartsStop, RunStop};
use edf_trial::{PartsAnswer, PartsRecordings, Recordings, check_anew, check_parts_anew};
use edf_verdict::{Difference, PartsVerdict, Verdict};
use std::alloc::{AllocError, Global};

/// What the check answers with a draft, and the line of that.
#[derive(Drop)]
pub(crate) struct Said {
    pub verdict: Verdict,
    pub line: Vec<u8>,
}

/// The recordings of a draft, each of which is opened anew for every reading.
pub(crate) trait Trial {
    /// How the original is read.
    type Original: Source + Drop;

    /// How an export is read.
    type Export: Source + Drop;

    ghost files: { Self → Anew };

    /// Opens the original; none where that fails.
    fn open_original(&self) -> Result<Option<Self::Original>, AllocError>;

    /// Opens the first export; none where that fails.
    fn open_first(&self, alloc: Global) -> Result<Option<Self::Export>, AllocError>;

    /// What the check answers with the draft of this text; none where it couldn't be run.
    ///
    /// The error is want of memory.
    fn said_of(&self, alloc: Global, text: &[u8]) -> Result<Option<Said>, AllocError>
        ensures { IfOk result (λ said. IfSome said (IsSaid (files self.now) text.now)) };
}

/// Whether a verdict is that a file has a fault.
fn is_of_fault(verdict: &Verdict) -> bool {
    matches!(
        verdict,
        Verdict::No(Difference::OriginalFault(_) | Difference::ExportFault(_))
    )
}

/// A verdict with its line; none of a fault of a file, since all files were read without one before.
fn said_with(verdict: Verdict, line: Vec<u8>) -> Option<Said>
    ensures { IfSome result (λ said. (said.verdict ≡ verdict) × (said.line.items ≡ line.items)) }
{
    if is_of_fault(&verdict) {
        None
    } else {
        Some(Said { verdict, line })
    }
}

/// An original and one export.
#[derive(Drop)]
pub(crate) struct OneExport<'a, R> {
    again: &'a R,
}

impl<'a, R: Recordings> OneExport<'a, R> {
    /// Those that are opened so.
    pub(crate) fn new(again: &'a R) -> OneExport<'a, R>
        ensures { ⟦<OneExport<'a, R> as Trial>⟧.files result ≡
            anew (R.are_honest again.entry.now) (R.original again.entry.now) (R.export again.entry.now) }
    {
        OneExport { again }
    }
}

impl<'a, R: Recordings> Trial for OneExport<'a, R> {
    type Original = R::Original;

    type Export = R::Export;

    ghost files = { λ t. anew (R.are_honest t.again.now) (R.original t.again.now) (R.export t.again.now) };

    fn open_original(&self) -> Result<Option<R::Original>, AllocError> {
        match self.again.open_original() {
            Ok(source) => Ok(Some(source)),
            Err(CheckStop::OutOfMemory) => Err(AllocError),
            Err(_) => Ok(None),
        }
    }

    fn open_first(&self, _alloc: Global) -> Result<Option<R::Export>, AllocError> {
        match self.again.open_export() {
            Ok(source) => Ok(Some(source)),
            Err(CheckStop::OutOfMemory) => Err(AllocError),
            Err(_) => Ok(None),
        }
    }

    fn said_of(&self, alloc: Global, text: &[u8]) -> Result<Option<Said>, AllocError> {
        match check_anew(alloc, self.again, text) {
            Ok(verdict) => {
                let line = verdict.line(alloc)?;
                Ok(said_with(verdict, line))
            }
            Err(RunStop::OutOfMemory) => Err(AllocError),
            Err(_) => Ok(None),
        }
    }
}

/// An original and several exports, in the order of time.
#[derive(Drop)]
pub(crate) struct SeveralExports<'a, R> {
    again: &'a R,
}

impl<'a, R: PartsRecordings> SeveralExports<'a, R> {
    /// Those that are opened so.
    pub(crate) fn new(again: &'a R) -> SeveralExports<'a, R>
        ensures { ⟦<SeveralExports<'a, R> as Trial>⟧.files result ≡ anew_parts (R.are_honest again.entry.now)
            (R.original again.entry.now) (R.exports again.entry.now) }
    {
        SeveralExports { again }
    }
}

impl<'a, R: PartsRecordings> Trial for SeveralExports<'a, R> {
    type Original = R::Original;

    type Export = R::Export;

    ghost files = { λ t. anew_parts (R.are_honest t.again.now) (R.original t.again.now) (R.exports t.again.now) };

    fn open_original(&self) -> Result<Option<R::Original>, AllocError> {
        match self.again.open_original() {
            Ok(source) => Ok(Some(source)),
            Err(PartsStop::OutOfMemory) => Err(AllocError),
            Err(_) => Ok(None),
        }
    }

    fn open_first(&self, alloc: Global) -> Result<Option<R::Export>, AllocError> {
        match self.again.open_exports(alloc) {
            Ok(mut sources) => Ok(Some(sources.swap_remove(0))),
            Err(PartsStop::OutOfMemory) => Err(AllocError),
            Err(_) => Ok(None),
        }
    }

    fn said_of(&self, alloc: Global, text: &[u8]) -> Result<Option<Said>, AllocError> {
        match check_parts_anew(alloc, self.again, text) {
            Ok(answer) => {
                let PartsAnswer { verdict, parts } = answer;
                let line = verdict.line(alloc, parts)?;
                let PartsVerdict { verdict, .. } = verdict;
                Ok(said_with(verdict, line))
            }
            Err(PartsRunStop::OutOfMemory) => Err(AllocError),
            Err(_) => Ok(None),
        }
    }
}
