//! The text of a claim that is drafted: TOML with a comment behind each line that a person has to confirm.

ghost use Rattle.std.specs.Prelude.{IfOk, IfSome};
ghost use Rattle.edf_claim.specs.Claims.{SaysClaimText};

use crate::drafting::draft::{Comments, Draft};
use crate::drafting::draft_times::{clock_time, is_behind_a_day, way_of};
use crate::drafting::spelling::{push_said_interval, push_said_text};
use crate::kept::interval::Interval;
use edf_fields::Which;
use std::alloc::{AllocError, Global};

/// What stands at the head of a draft.
const HEAD: &str = "# A draft: it says what the export is, and not what was meant.
# Confirm each line, and remove its comment.
";

/// What stands in front of the texts that are blanked.
const BLANKED: &str = "
# the texts of annotations in this time in whose place the export has X, each at its time and with its duration
blank = [
";

/// Puts a text behind another.
fn push(text: &mut Vec<u8>, more: &str) -> Result<(), AllocError> {
    text.extend_from_slice(more.as_bytes())
}

/// Puts the times of an interval behind a text, by the clock of an original that starts at a second of the day. Both say their days
/// where the interval ends a day or more behind that.
fn push_clock(
    text: &mut Vec<u8>,
    alloc: Global,
    interval: Interval,
    start: u32,
) -> Result<(), AllocError> {
    let says_day = is_behind_a_day(interval.to_ps);
    let from = clock_time(alloc, start, interval.from_ps, says_day)?;
    let to = clock_time(alloc, start, interval.to_ps, says_day)?;
    let times = format!(in alloc; ": {from} to {to}")?;
    push(text, &times)
}

/// Puts the line of an interval behind a text, with its times by the clock where the start of the original is known.
fn push_interval(
    text: &mut Vec<u8>,
    alloc: Global,
    interval: Interval,
    start: Option<u32>,
) -> Result<(), AllocError> {
    push(text, "  ")?;
    push_said_interval(text, alloc, interval)?;
    push(text, ", # confirm")?;
    if let Some(start) = start {
        push_clock(text, alloc, interval, start)?;
    }
    push(text, "\n")
}

/// Puts a line of the subfields that the export shows behind a text, where there are some.
fn push_shown(text: &mut Vec<u8>, shown: &[Which]) -> Result<(), AllocError> {
    let mut front = "\n# the export shows: ";
    for which in shown {
        push(text, front)?;
        push(text, which.name())?;
        front = ", ";
    }
    push(text, "\n")
}

/// Puts the lines of some texts behind another, each with how often it stands.
fn push_texts(
    text: &mut Vec<u8>,
    alloc: Global,
    texts: &[Vec<u8>],
    counts: &[u64],
) -> Result<(), AllocError> {
    for (said, count) in texts.iter().zip(counts) {
        push(text, "  ")?;
        push_said_text(text, said)?;
        let stands = format!(in alloc; ", # confirm; how often it stands: {count}\n")?;
        push(text, &stands)?;
    }
    push(text, "]\n")
}

impl Draft {
    /// Puts the lines of the channels behind a text.
    fn push_channels(
        &self,
        text: &mut Vec<u8>,
        alloc: Global,
        are_known: &[bool],
    ) -> Result<(), AllocError> {
        push(
            text,
            "\n# the channels that the export has, in its order\nchannels = [\n",
        )?;
        for (label, is_known) in self.channels.iter().zip(are_known) {
            push(text, "  ")?;
            push_said_text(text, label)?;
            let behind = if *is_known {
                ", # confirm\n"
            } else {
                ", # the original has no such channel\n"
            };
            push(text, behind)?;
        }
        push(text, "]\n")
    }

    /// Puts the lines of the intervals behind a text.
    fn push_keep(
        &self,
        text: &mut Vec<u8>,
        alloc: Global,
        start: Option<u32>,
    ) -> Result<(), AllocError> {
        push(
            text,
            "\n# the time that the export's data records and annotations cover, in seconds from the original's start",
        )?;
        let behind = if start.is_some() {
            ", and by its clock"
        } else {
            ""
        };
        push(text, behind)?;
        push(text, "\nkeep = [\n")?;
        for interval in &self.keep {
            push_interval(text, alloc, *interval, start)?;
        }
        push(text, "]\n")
    }

    /// Puts the lines of the subfields that are made anonymous behind a text, with those that the export shows in front.
    fn push_anonymous(&self, text: &mut Vec<u8>, shown: &[Which]) -> Result<(), AllocError> {
        push_shown(text, shown)?;
        push(
            text,
            "# the subfields that are X in the export, and not in the original\nanonymous = [\n",
        )?;
        for which in &self.anonymous {
            push(text, "  \"")?;
            push(text, which.name())?;
            push(text, "\", # confirm\n")?;
        }
        push(text, "]\n")
    }

    /// Puts the line of the shift behind a text.
    fn push_shift(&self, text: &mut Vec<u8>, alloc: Global) -> Result<(), AllocError> {
        let way = way_of(alloc, self.shift)?;
        let shift = format!(in alloc;
            "\n# by how many seconds the export starts later than what it keeps\nshift = {} # confirm: {way}\n",
            self.shift
        )?;
        push(text, &shift)
    }

    /// Puts the lines of the texts that are removed behind a text, each with how often it stands.
    fn push_remove(
        &self,
        text: &mut Vec<u8>,
        alloc: Global,
        counts: &[u64],
    ) -> Result<(), AllocError> {
        push(
            text,
            "\n# the texts of annotations in this time that the original has, and the export hasn't\nremove = [\n",
        )?;
        push_texts(text, alloc, &self.remove, counts)
    }

    /// Puts the lines of the texts that are blanked behind a text, each with how often it stands, where there are some.
    fn push_blank(
        &self,
        text: &mut Vec<u8>,
        alloc: Global,
        counts: &[u64],
    ) -> Result<(), AllocError> {
        if self.blank.is_empty() {
            return Ok(());
        }
        push(text, BLANKED)?;
        push_texts(text, alloc, &self.blank, counts)
    }

    /// Puts the line of the format behind a text.
    fn push_format(&self, text: &mut Vec<u8>) -> Result<(), AllocError> {
        if self.blank.is_empty() {
            push(text, "format = 1\n")
        } else {
            push(text, "format = 2\n")
        }
    }

    /// The text of the claim, whatever it says.
    fn written(&self, alloc: Global, comments: &Comments<'_>) -> Result<Vec<u8>, AllocError> {
        let mut text = Vec::new(alloc);
        push(&mut text, HEAD)?;
        self.push_format(&mut text)?;
        push(&mut text, comments.remarks)?;
        self.push_channels(&mut text, alloc, comments.are_known)?;
        self.push_keep(&mut text, alloc, comments.start)?;
        self.push_anonymous(&mut text, comments.shown)?;
        self.push_shift(&mut text, alloc)?;
        self.push_remove(&mut text, alloc, comments.removed)?;
        self.push_blank(&mut text, alloc, comments.blanked)?;
        Ok(text)
    }

    /// The text of the claim, with comments: behind each line, which say what a person has to confirm, and lines of remarks; or
    /// none where no claim says this, as of a label that stands twice, or where the text is longer than a claim may be.
    ///
    /// The text is read as a claim before it is given. The error is want of memory.
    pub fn text(
        &self,
        alloc: Global,
        comments: &Comments<'_>,
    ) -> Result<Option<Vec<u8>>, AllocError>
        ensures { IfOk result (λ text. IfSome text (λ t. SaysClaimText t.items self.now)) }
    {
        let text = self.written(alloc, comments)?;
        if self.is_said_by(alloc, &text)? {
            Ok(Some(text))
        } else {
            Ok(None)
        }
    }
}
