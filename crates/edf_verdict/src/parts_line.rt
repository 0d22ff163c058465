//! The line of text of a verdict on several exports.

ghost use Rattle.std.specs.Prelude.{◌≡◌, ◌++◌, IfOk, OnOk};
ghost use Rattle.edf_verdict.specs.PartsLines.{is_of_part, part_words, parts_counts_text, part_difference_text, parts_verdict_text, parts_verdict_line};

use crate::line::{Counts, push_no};
use crate::parts_verdict::PartsVerdict;
use crate::verdict::{Difference, Verdict};
use std::alloc::{AllocError, Global};

/// Puts which export it is, counted from 0, behind the line.
#[tactic(auto, unfolding(crate::specs::PartsLines::part_words))]
fn push_part(line: &mut Vec<u8>, alloc: Global, part: u16) -> Result<(), AllocError>
    ensures { OnOk result (line.new.items ≡ line.old.items ++ part_words part) }
{
    let words = format!(in alloc; "part {part} ")?;
    line.extend_from_slice(words.as_bytes())
}

/// Puts what was compared behind the line.
#[tactic(auto, unfolding(crate::specs::PartsLines::parts_counts_text))]
fn push_parts_counts(
    line: &mut Vec<u8>,
    alloc: Global,
    parts: u16,
    counts: Counts,
) -> Result<(), AllocError>
    ensures { OnOk result (line.new.items ≡ line.old.items ++
        parts_counts_text parts counts.channels counts.samples counts.annotations) }
{
    let Counts {
        channels,
        samples,
        annotations,
    } = counts;
    let words = format!(in alloc;
        "YES parts {parts} channels {channels} samples {samples} annotations {annotations}"
    )?;
    line.extend_from_slice(words.as_bytes())
}

impl Difference {
    /// Whether it is said of one of several exports, whose number the line then has.
    fn is_of_part(&self) -> bool
        ensures { result ≡ is_of_part self.now }
    {
        !matches!(
            self,
            Difference::OriginalFault(_)
                | Difference::UnknownChannel(_)
                | Difference::Sample { .. }
                | Difference::Annotation { .. }
        )
    }

    /// Puts the difference in words behind the line, with the export of which it is said, where it is said of one.
    fn push_of_part(&self, line: &mut Vec<u8>, alloc: Global, part: u16) -> Result<(), AllocError>
        ensures { OnOk result (line.new.items ≡ line.old.items ++ part_difference_text part self.now) }
    {
        push_no(line, alloc, self.number())?;
        if self.is_of_part() {
            push_part(line, alloc, part)?;
        }
        self.push_what(line, alloc)
    }
}

impl PartsVerdict {
    /// Puts the verdict on so many exports in words behind the line.
    fn push(&self, line: &mut Vec<u8>, alloc: Global, parts: u16) -> Result<(), AllocError>
        ensures { OnOk result (line.new.items ≡ line.old.items ++
            parts_verdict_text parts self.now.part self.now.verdict) }
    {
        match &self.verdict {
            Verdict::Yes {
                channels,
                samples,
                annotations,
            } => {
                let counts = Counts {
                    channels: *channels,
                    samples: *samples,
                    annotations: *annotations,
                };
                push_parts_counts(line, alloc, parts, counts)
            }
            Verdict::No(difference) => difference.push_of_part(line, alloc, self.part),
        }
    }

    /// The verdict on so many exports as one line, with its end.
    ///
    /// The error is want of memory.
    pub fn line(&self, alloc: Global, parts: u16) -> Result<Vec<u8>, AllocError>
        ensures { IfOk result (λ line. line.items ≡ parts_verdict_line parts self.now) }
    {
        let mut line = Vec::new(alloc);
        self.push(&mut line, alloc, parts)?;
        line.push(b'\n')?;
        Ok(line)
    }
}
