//! What is noted of an export once for each of its data records.

ghost use Rattle.std.specs.Prelude.{◌≡◌, ◌++◌, ◌<◌, ◌^◌, unsigned_abs, OnOk};
ghost use Rattle.edf_stream.specs.Views.{notes_left};
ghost use Rattle.edf_findings.specs.Noting.{begin_of, lasts_over, noted_with, nothing_noted, onsets_by};

use crate::record_time::RecordTime;
use crate::stand::{RecordCount, Stand};
use edf_stream::Annotations;
use std::alloc::{AllocError, Global};
use std::marker::Model;

/// When an export begins and ends, and, where that is wanted, when its annotations begin, as far as its data records were noted. Times are
/// picoseconds after the second at which the original starts.
#[derive(Drop)]
pub(crate) struct Noted {
    records: RecordCount,
    /// From the begin of the first data record to the end of the last.
    time: Option<RecordTime>,
    wants_onsets: bool,
    /// When the annotations begin, in the order of the file.
    onsets: Vec<i128>,
}

impl Model for Noted {
    ghost use Rattle.edf_findings.specs.Noting.{NotedValue};

    ghost Value = { NotedValue };

    ghost view = { λ noted.
        record {
          read = noted.records.read;
          time = noted.time;
          wants_onsets = noted.wants_onsets;
          onsets = noted.onsets.items;
        } };
}

/// Puts behind `onsets` when these annotations begin, moved by so much.
///
/// The error is want of memory.
fn push_onsets(
    onsets: &mut Vec<i128>,
    moved_ps: i128,
    annotations: Annotations<'_>,
) -> Result<(), AllocError>
    requires { unsigned_abs moved_ps < 2 ^ 81 }
    ensures { OnOk result (onsets.new.items ≡
        onsets.old.items ++ onsets_by moved_ps (notes_left annotations.entry)) }
{
    for note in annotations {
        onsets.push(moved_ps + note.onset)?;
    }
    Ok(())
}

impl Noted {
    /// Nothing was noted so far. When annotations begin is noted if that is wanted.
    pub(crate) fn none(alloc: Global, wants_onsets: bool) -> Noted
        ensures { result ≡ nothing_noted wants_onsets }
    {
        Noted {
            records: RecordCount::NONE,
            time: None,
            wants_onsets,
            onsets: Vec::new(alloc),
        }
    }

    /// Notes the data record of the export at hand, if it is another one than before.
    ///
    /// The error is want of memory.
    pub(crate) fn take_record(&mut self, export: Stand<'_>) -> Result<(), AllocError>
        ensures { OnOk result (self.new ≡ noted_with export.entry self.old) }
    {
        if !self.records.take_in(export.reader) {
            return Ok(());
        }
        self.time = export.time_behind(self.time);
        if self.wants_onsets {
            push_onsets(
                &mut self.onsets,
                export.moved_ps(),
                export.reader.annotations(),
            )?;
        }
        Ok(())
    }

    /// When the annotations begin that were noted.
    pub(crate) fn onsets(&self) -> &[i128]
        ensures { result.now ≡ self.entry.now.onsets }
    {
        &self.onsets
    }

    /// When the first data record begins; none where none was noted.
    pub(crate) fn begin_ps(&self) -> Option<i128>
        ensures { result ≡ begin_of self.now.time }
    {
        match self.time {
            Some(time) => Some(time.from_ps),
            None => None,
        }
    }

    /// Whether the export has begun at a time, and isn't over.
    pub(crate) fn covers(&self, at_ps: i128) -> bool
        ensures { result ≡ lasts_over self.now.time at_ps }
    {
        match self.time {
            Some(time) => time.has(at_ps),
            None => false,
        }
    }
}
