//! The line of text of a verdict, and the number of a difference in it.

ghost use Rattle.std.specs.Prelude.{◌≡◌, ◌≤◌, ◌++◌, Some, IfOk, OnOk};
ghost use Rattle.edf_fields.specs.FaultTexts.{fault_text};
ghost use Rattle.edf_verdict.specs.Quotes.{with_quoted};
ghost use Rattle.edf_verdict.specs.Lines.{number_of, field_text, channel_text, subfield_mismatch_text, subfield_text, not_clean_text, sample_mismatch_text, moment_text, sample_text, note_mismatch_text, note_words, counts_text, what_text, no_text, difference_text, verdict_text, verdict_line};

use crate::label::Label;
use crate::note_text::NoteText;
use crate::note_times::NoteTimes;
use crate::quote::push_with_quoted;
use crate::verdict::{
    AnnotationMismatch, Difference, FreeText, SampleMismatch, SubfieldMismatch, TextField, Verdict,
};
use edf_fields::{Fault, Which};
use std::alloc::{AllocError, Global};
use std::fmt;

impl fmt::Display for TextField {
    ghost output = { λ field. Some (field_text field) };

    fn fmt<W: fmt::Write>(&self, f: &mut fmt::Formatter<W>) -> fmt::Result {
        match self {
            TextField::Transducer => write!(f, "transducer"),
            TextField::Prefilter => write!(f, "prefilter"),
        }
    }
}

impl fmt::Display for SubfieldMismatch {
    ghost output = { λ mismatch. Some (subfield_mismatch_text mismatch) };

    fn fmt<W: fmt::Write>(&self, f: &mut fmt::Formatter<W>) -> fmt::Result {
        match self {
            SubfieldMismatch::NotX => write!(f, "not X"),
            SubfieldMismatch::Changed => write!(f, "changed"),
        }
    }
}

impl fmt::Display for SampleMismatch {
    ghost output = { λ mismatch. Some (sample_mismatch_text mismatch) };

    fn fmt<W: fmt::Write>(&self, f: &mut fmt::Formatter<W>) -> fmt::Result {
        match self {
            SampleMismatch::Missing => write!(f, "missing"),
            SampleMismatch::Extra => write!(f, "extra"),
            SampleMismatch::Value(original, export) => {
                write!(f, "original {original} export {export}")
            }
        }
    }
}

impl fmt::Display for AnnotationMismatch {
    ghost output = { λ mismatch. Some (note_mismatch_text mismatch) };

    fn fmt<W: fmt::Write>(&self, f: &mut fmt::Formatter<W>) -> fmt::Result {
        match self {
            AnnotationMismatch::Missing => write!(f, "missing"),
            AnnotationMismatch::Extra => write!(f, "extra"),
        }
    }
}

/// The instant at which samples differ, in picoseconds, and how they do.
#[derive(Clone, Copy)]
struct SampleWords {
    at_ps: i128,
    mismatch: SampleMismatch,
}

impl fmt::Display for SampleWords {
    ghost output = { λ moment. Some (moment_text moment.at_ps moment.mismatch) };

    #[tactic(auto, unfolding(crate::specs::Lines::moment_text))]
    fn fmt<W: fmt::Write>(&self, f: &mut fmt::Formatter<W>) -> fmt::Result {
        write!(f, " at {} ps {}", self.at_ps, self.mismatch)
    }
}

/// An annotation, but for its text, and how often it stands in the export.
#[derive(Clone, Copy)]
struct NoteWords {
    mismatch: AnnotationMismatch,
    times: NoteTimes,
}

impl fmt::Display for NoteWords {
    ghost output = { λ note. Some (note_words note.mismatch (note.times).onset (note.times).duration) };

    #[tactic(auto, unfolding(crate::specs::Lines::note_words))]
    fn fmt<W: fmt::Write>(&self, f: &mut fmt::Formatter<W>) -> fmt::Result {
        write!(f, "annotation {} at {} text ", self.mismatch, self.times)
    }
}

/// Puts the words and the fault behind the line.
fn push_fault(
    line: &mut Vec<u8>,
    alloc: Global,
    words: &str,
    fault: &Fault,
) -> Result<(), AllocError>
    ensures { OnOk result (line.new.items ≡ line.old.items ++ (words.now ++ fault_text fault.now)) }
{
    let text = fault.text(alloc)?;
    line.extend_from_slice(words.as_bytes())?;
    line.extend_from_slice(text.as_bytes())
}

/// Puts the words and the quoted label behind the line.
fn push_label(line: &mut Vec<u8>, words: &str, label: &Label) -> Result<(), AllocError>
    ensures { OnOk result (line.new.items ≡ line.old.items ++ with_quoted words.now label.now) }
{
    push_with_quoted(line, words, label.bytes())
}

/// Puts the words, the quoted label and further words behind the line.
fn push_around(line: &mut Vec<u8>, words: &str, label: &Label, more: &str) -> Result<(), AllocError>
    ensures { OnOk result (line.new.items ≡ line.old.items ++ (with_quoted words.now label.now ++ more.now)) }
{
    push_label(line, words, label)?;
    line.extend_from_slice(more.as_bytes())
}

/// Puts a difference of a channel's texts behind the line.
fn push_channel_text(
    line: &mut Vec<u8>,
    alloc: Global,
    label: &Label,
    field: TextField,
) -> Result<(), AllocError>
    ensures { OnOk result (line.new.items ≡ line.old.items ++ channel_text label.now field) }
{
    let words = format!(in alloc; " {field}")?;
    push_around(line, "channel text ", label, &words)
}

/// Puts a difference of subfields behind the line.
fn push_subfield(
    line: &mut Vec<u8>,
    alloc: Global,
    which: Which,
    mismatch: SubfieldMismatch,
) -> Result<(), AllocError>
    ensures { OnOk result (line.new.items ≡ line.old.items ++ subfield_text which mismatch) }
{
    let words = format!(in alloc; "subfield {} {mismatch}", which.name())?;
    line.extend_from_slice(words.as_bytes())
}

/// Puts where the export has free text behind the line.
fn push_not_clean(line: &mut Vec<u8>, text: &FreeText) -> Result<(), AllocError>
    ensures { OnOk result (line.new.items ≡ line.old.items ++ not_clean_text text.now) }
{
    match text {
        FreeText::Header => line.extend_from_slice("not clean header".as_bytes()),
        FreeText::Channel(label) => push_label(line, "not clean ", label),
    }
}

/// Puts a difference of samples behind the line.
fn push_sample(
    line: &mut Vec<u8>,
    alloc: Global,
    label: &Label,
    moment: SampleWords,
) -> Result<(), AllocError>
    ensures { OnOk result (line.new.items ≡ line.old.items ++
        sample_text label.now moment.at_ps moment.mismatch) }
{
    let words = moment.to_string(alloc)?;
    push_around(line, "sample ", label, &words)
}

/// Puts a difference of annotations behind the line.
fn push_note(
    line: &mut Vec<u8>,
    alloc: Global,
    note: NoteWords,
    text: &NoteText,
) -> Result<(), AllocError>
    ensures { OnOk result (line.new.items ≡ line.old.items ++
        with_quoted (note_words note.mismatch (note.times).onset (note.times).duration) text.now) }
{
    let words = note.to_string(alloc)?;
    push_with_quoted(line, &words, text.as_str().as_bytes())
}

/// How much was compared.
#[derive(Clone, Copy)]
pub(crate) struct Counts {
    pub channels: u64,
    pub samples: u64,
    pub annotations: u64,
}

/// Puts what was compared behind the line.
fn push_counts(line: &mut Vec<u8>, alloc: Global, counts: Counts) -> Result<(), AllocError>
    ensures { OnOk result (line.new.items ≡ line.old.items ++
        counts_text counts.channels counts.samples counts.annotations) }
{
    let Counts {
        channels,
        samples,
        annotations,
    } = counts;
    let words = format!(in alloc;
        "YES channels {channels} samples {samples} annotations {annotations}"
    )?;
    line.extend_from_slice(words.as_bytes())
}

/// Puts `NO` and a number behind the line.
#[tactic(auto, unfolding(crate::specs::Lines::no_text))]
pub(crate) fn push_no(line: &mut Vec<u8>, alloc: Global, number: u8) -> Result<(), AllocError>
    ensures { OnOk result (line.new.items ≡ line.old.items ++ no_text number) }
{
    let words = format!(in alloc; "NO {number} ")?;
    line.extend_from_slice(words.as_bytes())
}

impl Difference {
    /// Its number in the line of a No: which of the kinds of differences it is, from 1 to 12.
    pub fn number(&self) -> u8
        ensures value { result ≡ number_of self.now }
        ensures small { result ≤ 12 }
    {
        match self {
            Difference::OriginalFault(_) => 1,
            Difference::ExportFault(_) => 2,
            Difference::UnknownChannel(_) => 3,
            Difference::MissingChannel(_) => 4,
            Difference::ExtraChannel(_) => 5,
            Difference::ChannelText(_, _) => 6,
            Difference::Calibration(_) => 7,
            Difference::Subfield(_, _) => 8,
            Difference::NotClean(_) => 9,
            Difference::Sample { .. } => 10,
            Difference::Annotation { .. } => 11,
            Difference::PartOrder => 12,
        }
    }

    /// Puts the kind of the difference and what it is about behind the line.
    pub(crate) fn push_what(&self, line: &mut Vec<u8>, alloc: Global) -> Result<(), AllocError>
        ensures { OnOk result (line.new.items ≡ line.old.items ++ what_text self.now) }
    {
        match self {
            Difference::OriginalFault(fault) => {
                push_fault(line, alloc, "original fault: ", fault)
            }
            Difference::ExportFault(fault) => { push_fault(line, alloc, "export fault: ", fault) }
            Difference::UnknownChannel(label) => push_label(line, "unknown channel ", label),
            Difference::MissingChannel(label) => push_label(line, "missing channel ", label),
            Difference::ExtraChannel(label) => push_label(line, "extra channel ", label),
            Difference::ChannelText(label, field) => push_channel_text(line, alloc, label, *field),
            Difference::Calibration(label) => push_label(line, "calibration ", label),
            Difference::Subfield(which, mismatch) => push_subfield(line, alloc, *which, *mismatch),
            Difference::NotClean(text) => push_not_clean(line, text),
            Difference::PartOrder => line.extend_from_slice("starts early".as_bytes()),
            Difference::Sample {
                label,
                at_ps,
                mismatch,
            } => {
                let moment = SampleWords {
                    at_ps: *at_ps,
                    mismatch: *mismatch,
                };
                push_sample(line, alloc, label, moment)
            }
            Difference::Annotation {
                mismatch,
                onset,
                duration,
                text,
            } => {
                let note = NoteWords {
                    mismatch: *mismatch,
                    times: NoteTimes {
                        onset: *onset,
                        duration: *duration,
                    },
                };
                push_note(line, alloc, note, text)
            }
        }
    }

    /// Puts the difference in words behind the line: `NO`, its number, its kind and what it is about.
    fn push(&self, line: &mut Vec<u8>, alloc: Global) -> Result<(), AllocError>
        ensures { OnOk result (line.new.items ≡ line.old.items ++ difference_text self.now) }
    {
        push_no(line, alloc, self.number())?;
        self.push_what(line, alloc)
    }
}

impl Verdict {
    /// Puts the verdict in words behind the line.
    fn push(&self, line: &mut Vec<u8>, alloc: Global) -> Result<(), AllocError>
        ensures { OnOk result (line.new.items ≡ line.old.items ++ verdict_text self.now) }
    {
        match self {
            Verdict::Yes {
                channels,
                samples,
                annotations,
            } => {
                let counts = Counts {
                    channels: *channels,
                    samples: *samples,
                    annotations: *annotations,
                };
                push_counts(line, alloc, counts)
            }
            Verdict::No(difference) => difference.push(line, alloc),
        }
    }

    /// The verdict as one line, with its end.
    ///
    /// The error is want of memory.
    pub fn line(&self, alloc: Global) -> Result<Vec<u8>, AllocError>
        ensures { IfOk result (λ line. line.items ≡ verdict_line self.now) }
    {
        let mut line = Vec::new(alloc);
        self.push(&mut line, alloc)?;
        line.push(b'\n')?;
        Ok(line)
    }
}
