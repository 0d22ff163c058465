//! What is seen of one export while it is compared.

ghost use Rattle.std.specs.Prelude.{◌≡◌, count_by, length, is_some, IfOk, OnOk};
ghost use Rattle.std.specs.List.{list_all};
ghost use Rattle.std.specs.Ordering.{int_eq};
ghost use Rattle.edf_heads.specs.Comparisons.{AreSorted};
ghost use Rattle.edf_findings.specs.Told.{AreTold};
ghost use Rattle.edf_findings.specs.Exports.{begins_in, channels_of, covers_in, has_all_of, head_in, is_clean, keeps_between_in, moved_in, onsets_of, starts_of};
ghost use Rattle.edf_findings.specs.Found.{IsFoundIn};
ghost use Rattle.edf_findings.specs.Noting.{noted_with, nothing_noted, stand_in};

use crate::noted::Noted;
use crate::samples::claimed::CountedLabels;
use crate::samples::compared::ComparedChannel;
use crate::stand::Stand;
use crate::starts::Starts;
use edf_claim::Claim;
use edf_header::Header;
use edf_pace::{ChannelCount, Frame, Pair, Window, pairs_of};
use edf_stream::FileReader;
use std::alloc::{AllocError, Global};

/// What was seen so far of an export that is compared, but for the counts of its samples.
#[derive(Drop)]
pub(crate) struct PartSoFar {
    noted: Noted,
    /// When the first sample is taken that is kept.
    first_ps: Option<i128>,
    /// When the first data record starts, as the export has it.
    begin_ps: Option<i128>,
    keeps_between: bool,
    moved_ps: i128,
}

/// The earlier one of two times, of which each may be missing.
pub(crate) fn earlier(first: Option<i128>, second: Option<i128>) -> Option<i128> {
    match (first, second) {
        (Some(first), Some(second)) => Some(first.min(second)),
        (Some(first), None) => Some(first),
        (None, second) => second,
    }
}

/// When the first sample is taken in the original between two times, rounded down, of the channels that both files have.
fn first_between(pairs: &[Pair], original: Stand<'_>, within: Window) -> Option<i128> {
    let mut first = None;
    for pair in pairs {
        if let (Some(here), Some(_)) = (pair.original, pair.export) {
            first = earlier(first, original.first_between(here.place.samples, within));
        }
    }
    first
}

impl PartSoFar {
    /// Nothing was seen of an export. Of its annotations it is noted when they begin, if that is wanted.
    pub(crate) fn none(alloc: Global, wants_onsets: bool) -> PartSoFar
        ensures { result.noted ≡ nothing_noted wants_onsets }
    {
        PartSoFar {
            noted: Noted::none(alloc, wants_onsets),
            first_ps: None,
            begin_ps: None,
            keeps_between: false,
            moved_ps: 0,
        }
    }

    /// Sees when the first sample of the original is taken that is kept between two times, where all are and none was seen so
    /// far.
    fn see_first(&mut self, pairs: &[Pair], original: Stand<'_>, within: Window)
        ensures { self.new.noted ≡ self.old.noted }
    {
        if self.first_ps.is_some() || !original.has_begun_before(within.to.ps) {
            return;
        }
        self.first_ps = first_between(pairs, original, within);
        self.keeps_between = self.keeps_between || self.first_ps.is_none();
    }

    /// Sees when the export begins and ends, and its annotations, and when the first sample is taken that is kept, of what both show
    /// between two times.
    ///
    /// The error is want of memory.
    pub(crate) fn see(
        &mut self,
        original: Stand<'_>,
        export: &FileReader,
        frame: Frame<'_>,
        within: Window,
    ) -> Result<(), AllocError>
        ensures { OnOk result (self.new.noted ≡
            noted_with (stand_in frame.entry export.entry) self.old.noted) }
    {
        let setting = frame.turn.setting;
        let there = Stand {
            reader: export,
            by: setting.clock.export,
        };
        if self.begin_ps.is_none() && export.has_current() {
            self.begin_ps = Some(export.start_ps());
        }
        self.noted.take_record(there)?;
        if setting.claim.keeps_instant(within.from.ps, 1) {
            self.see_first(frame.pairs, original, within);
        }
        self.moved_ps = there.moved_ps();
        Ok(())
    }

    /// Where the export starts; none where the original has no sample that is kept.
    fn starts(&self, headers: (&Header, &Header), claim: &Claim) -> Option<Starts> {
        let first_ps = self.first_ps?;
        let begin_ps = self.begin_ps?;
        Some(Starts::of(headers, claim.shift_ps(), first_ps, begin_ps))
    }
}

/// The header of an original, and the claim under which it was exported, with its labels in the order of their bytes.
#[derive(Clone, Copy)]
pub(crate) struct Under<'a> {
    pub(crate) original: &'a Header,
    pub(crate) claim: &'a Claim,
    pub(crate) labels: &'a [&'a [u8]],
}

/// The header of an export that was read to its end, what was counted in it, and what else was seen of it. Where it wasn't compared, nothing was
/// counted of any label.
#[derive(Drop)]
pub(crate) struct ReadPart {
    pub(crate) header: Header,
    pub(crate) so_far: PartSoFar,
    pub(crate) counts: Vec<ChannelCount>,
}

/// What was seen of an export that was compared.
#[derive(Drop)]
pub(crate) struct ComparedPart {
    channels: Vec<ComparedChannel>,
    starts: Option<Starts>,
    keeps_between: bool,
    moved_ps: i128,
    noted: Noted,
}

impl ComparedPart {
    /// What was seen of an export with this header, of which so much was counted.
    ///
    /// The error is want of memory.
    fn of(
        alloc: Global,
        export: &Header,
        so_far: PartSoFar,
        counts: &[ChannelCount],
        under: Under<'_>,
    ) -> Result<ComparedPart, AllocError>
        requires sorted { AreSorted (under.claim).now.channels under.labels.now }
        requires counts { length counts.now ≡ length under.labels.now }
        ensures told { IfOk result (λ part. AreTold (under.entry.claim).now.channels under.entry.labels.now
            (record {
              original = (under.entry.original).now;
              export = export.now;
              counts = counts.now;
            }) part.channels.items) }
        ensures noted { IfOk result (λ part. part.noted ≡ so_far.noted) }
    {
        let headers = (under.original, export);
        let pairs = pairs_of(alloc, under.original, export, under.labels)?;
        let counted = CountedLabels {
            headers,
            labels: under.labels,
            pairs: &pairs,
            counts,
        };
        let starts = so_far.starts(headers, under.claim);
        let PartSoFar {
            keeps_between,
            moved_ps,
            noted,
            ..
        } = so_far;
        Ok(ComparedPart {
            channels: counted.channels(alloc, under.claim)?,
            starts,
            keeps_between,
            moved_ps,
            noted,
        })
    }
}

/// The header of an export that was read to its end, and what it differs in from what the claim keeps.
#[derive(Drop)]
pub struct PartFindings {
    header: Header,
    compared: Option<ComparedPart>,
}

impl PartFindings {
    /// Those of an export: where it was compared, something was counted of each label, were it nothing.
    ///
    /// The error is want of memory.
    pub(crate) fn of(
        alloc: Global,
        part: ReadPart,
        under: Under<'_>,
    ) -> Result<PartFindings, AllocError>
        requires sorted { AreSorted (under.claim).now.channels under.labels.now }
        ensures { IfOk result (IsFoundIn (under.entry.claim).now under.entry.labels.now
            (under.entry.original).now part) }
    {
        let ReadPart {
            header,
            so_far,
            counts,
        } = part;
        if counts.len() != under.labels.len() {
            return Ok(PartFindings {
                header,
                compared: None,
            });
        }
        let compared = ComparedPart::of(alloc, &header, so_far, &counts, under)?;
        Ok(PartFindings {
            header,
            compared: Some(compared),
        })
    }

    /// The header of the export.
    pub fn header(&self) -> &Header
        ensures { result.now ≡ head_in self.entry.now }
    {
        &self.header
    }

    /// Whether its samples were compared.
    pub fn is_compared(&self) -> bool
        ensures { result ≡ is_some self.now.compared }
    {
        self.compared.is_some()
    }

    /// The claimed channels that both files have, and which of their samples aren't as claimed; none where they weren't compared.
    pub fn channels(&self) -> &[ComparedChannel]
        ensures { result.now ≡ channels_of self.entry.now }
    {
        match &self.compared {
            Some(compared) => &compared.channels,
            None => &[],
        }
    }

    /// Whether each of these channels is as claimed.
    pub fn is_as_claimed(&self) -> bool
        ensures { result ≡ list_all is_clean (channels_of self.now) }
    {
        self.channels().iter().all(|channel: &ComparedChannel| -> bool { channel.is_as_claimed() })
    }

    /// Whether the original and it have all channels of a claim.
    pub fn has_all_channels(&self, claim: &Claim) -> bool
        ensures { result ≡ has_all_of claim.now self.now }
    {
        self.channels().len() == claim.channels().len()
    }

    /// Where the export starts; none where the original has no sample that is kept.
    pub fn starts(&self) -> Option<Starts>
        ensures { result ≡ starts_of self.now }
    {
        match &self.compared {
            Some(compared) => compared.starts,
            None => None,
        }
    }

    /// When each of its annotations begins that was noted, in the order of the file, in picoseconds after the second at which the original
    /// starts. There is none where there is one export alone, and where it wasn't compared.
    pub fn onsets(&self) -> &[i128]
        ensures { result.now ≡ onsets_of self.entry.now }
    {
        match &self.compared {
            Some(compared) => compared.noted.onsets(),
            None => &[],
        }
    }

    /// How many of the noted ones begin at this time.
    pub fn count_at(&self, onset: i128) -> usize
        ensures { result ≡ count_by (λ t. int_eq t onset) (onsets_of self.now) }
    {
        self.onsets()
            .iter()
            .filter(|other| **other == onset)
            .count()
    }

    /// When its first data record begins, in picoseconds after the second at which the original starts; none where it wasn't compared.
    pub fn begin_ps(&self) -> Option<i128>
        ensures { result ≡ begins_in self.now.compared }
    {
        match &self.compared {
            Some(compared) => compared.noted.begin_ps(),
            None => None,
        }
    }

    /// Whether it had begun at a time, and wasn't over: from the begin of its first data record, and before the end of its last. The time is
    /// one in picoseconds after the second at which the original starts. It is so at none where it wasn't compared.
    pub fn covers(&self, at_ps: i128) -> bool
        ensures { result ≡ covers_in self.now.compared at_ps }
    {
        match &self.compared {
            Some(compared) => compared.noted.covers(at_ps),
            None => false,
        }
    }

    /// Whether an interval was found that has no sample in a data record of the original in which it lies.
    pub fn keeps_between(&self) -> bool
        ensures { result ≡ keeps_between_in self.now.compared }
    {
        match &self.compared {
            Some(compared) => compared.keeps_between,
            None => false,
        }
    }

    /// By how much the times of the export are moved.
    pub fn moved_ps(&self) -> i128
        ensures { result ≡ moved_in self.now.compared }
    {
        match &self.compared {
            Some(compared) => compared.moved_ps,
            None => 0,
        }
    }
}
