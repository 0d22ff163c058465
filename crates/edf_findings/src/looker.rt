//! Who looks on while an original and its exports are checked, and takes in what they differ in.

ghost use Rattle.std.specs.Prelude.{◌≡◌, ◌&&◌, ◌++◌, ◌∷◌, [], ℤ, is_some, length, nat_lt, IfOk, IfSome, OnOk, None, Some, false, true};
ghost use Rattle.edf_claim.specs.KeepsReading.{IsUncut};
ghost use Rattle.edf_heads.specs.Comparisons.{AreSorted};
ghost use Rattle.edf_findings.specs.Found.{AreFoundBy, AreFoundIn, counted_by, shown_by};
ghost use Rattle.edf_findings.specs.Gathered.{HaveNone, hidden_at};
ghost use Rattle.edf_findings.specs.Noting.{noted_with, nothing_noted, stand_in};
ghost use Rattle.edf_pace.specs.walk.Counting.{AreCounts};
ghost use Rattle.edf_pace.specs.walk.Pairs.{IsFrame};
ghost use Rattle.edf_pace.specs.walk.Watching.{HasSeenIn, TwoFiles};

use crate::findings::Findings;
use crate::notes::both::Notes;
use crate::part::{PartFindings, PartSoFar, ReadPart, Under};
use crate::stand::{RecordCount, Stand};
use edf_claim::Claim;
use edf_header::Header;
use edf_heads::in_order;
use edf_pace::{Counts, Frame, Onlooker, Reading, Watcher, Window};
use edf_stream::{FileReader, Note};
use std::alloc::{AllocError, Global};
use std::mem;

/// Looks on while an original and its exports are checked: it counts the samples that differ, and notes in which data records the first
/// and the last of them lie (`Counts` of `edf_pace`), and keeps the annotations of all files.
#[derive(Drop)]
pub(crate) struct Looker {
    alloc: Global,
    /// Whether texts are remembered that the claim removes or blanks.
    wants_hidden: bool,
    /// Whether it is noted when the annotations of each export begin.
    wants_onsets: bool,
    /// Whether there was memory for all that was noted.
    is_whole: bool,
    originals: RecordCount,
    /// What differs in the samples of the export that is compared.
    counts: Counts,
    /// What else was seen of it.
    part: PartSoFar,
    /// The exports that were read to their ends.
    parts: Vec<ReadPart>,
    notes: Notes,
    original: Option<Header>,
}

/// What each of these exports differs in.
///
/// The error is want of memory.
fn findings_in(
    alloc: Global,
    parts: Vec<ReadPart>,
    under: Under<'_>,
) -> Result<Vec<PartFindings>, AllocError>
    requires sorted { AreSorted (under.claim).now.channels under.labels.now }
    ensures { IfOk result (λ found. AreFoundIn (under.entry.claim).now under.entry.labels.now
        (under.entry.original).now parts.items found.items) }
{
    let mut found = Vec::with_capacity(alloc, parts.len())?;
    for part in parts {
        found.push(PartFindings::of(alloc, part, under)?)?;
    }
    Ok(found)
}

impl Looker {
    /// Nothing was seen so far. Of the texts of annotations that are removed or blanked it is remembered that they are there, if that
    /// is wanted.
    pub(crate) fn new(alloc: Global, wants_hidden: bool) -> Looker
        ensures counted { counted_by result ≡ [] }
        ensures original { result.original ≡ None }
        ensures notes { HaveNone result.notes }
        ensures hidden { result.wants_hidden ≡ wants_hidden }
        ensures onsets { result.wants_onsets ≡ false }
    {
        Looker {
            alloc,
            wants_hidden,
            wants_onsets: false,
            is_whole: true,
            originals: RecordCount::NONE,
            counts: Counts {
                channels: Vec::new(alloc),
            },
            part: PartSoFar::none(alloc, false),
            parts: Vec::new(alloc),
            notes: Notes::new(alloc),
            original: None,
        }
    }

    /// The same of so many exports: where they are several, it is noted of each when its annotations begin.
    pub(crate) fn of_parts(alloc: Global, wants_hidden: bool, count: usize) -> Looker
        ensures counted { counted_by result ≡ [] }
        ensures original { result.original ≡ None }
        ensures notes { HaveNone result.notes }
        ensures hidden { result.wants_hidden ≡ wants_hidden }
        ensures onsets { result.wants_onsets ≡ nat_lt 1 count }
    {
        let mut looker = Looker::new(alloc, wants_hidden);
        looker.wants_onsets = count > 1;
        looker
    }

    /// Takes in the data record of the original at hand, if it is another one than before: where it is wanted, the texts that the
    /// claim hides.
    fn take_record(&mut self, original: &FileReader, claim: &Claim) -> Result<(), AllocError>
        ensures counts { self.new.counts ≡ self.old.counts }
        ensures parts { self.new.parts ≡ self.old.parts }
        ensures part { self.new.part ≡ self.old.part }
        ensures wants { self.new.wants_onsets ≡ self.old.wants_onsets }
        ensures whole { self.new.is_whole ≡ self.old.is_whole }
        ensures notes { OnOk result (self.new.notes.hidden.items ≡
            self.old.notes.hidden.items ++ hidden_at self.old claim.now original.now) }
    {
        if !self.originals.take_in(original) {
            return Ok(());
        }
        if self.wants_hidden {
            self.notes
                .take_hidden(self.alloc, claim, original.annotations())?;
        }
        Ok(())
    }

    /// Notes when the export begins and ends, and its annotations, and what else is told of what both files show between two times.
    fn note(
        &mut self,
        original: &FileReader,
        export: &FileReader,
        frame: Frame<'_>,
        within: Window,
    ) -> Result<(), AllocError>
        ensures counts { self.new.counts ≡ self.old.counts }
        ensures parts { self.new.parts ≡ self.old.parts }
        ensures notes { OnOk result (self.new.notes.hidden.items ≡ self.old.notes.hidden.items ++
            hidden_at self.old ((frame.entry.turn).setting.claim).now original.now) }
        ensures noted { OnOk result (self.new.part.noted ≡
            noted_with (stand_in frame.entry export.entry) self.old.part.noted) }
        ensures wants { self.new.wants_onsets ≡ self.old.wants_onsets }
        ensures whole { self.new.is_whole ≡ self.old.is_whole }
    {
        let setting = frame.turn.setting;
        self.take_record(original, setting.claim)?;
        let here = Stand {
            reader: original,
            by: setting.clock.original,
        };
        self.part.see(here, export, frame, within)
    }

    /// Begins with an export: nothing was counted yet of the channels of this frame.
    ///
    /// The error is want of memory.
    fn begin_with(&mut self, frame: Frame<'_>) -> Result<(), AllocError>
        ensures each { OnOk result (length self.new.counts.channels.items ≡ length (frame.entry.pairs).now) }
        ensures none { OnOk result ((files : TwoFiles) (t : ℤ) →
            AreCounts self.new.counts.channels.items frame.entry files t t) }
        ensures noted { OnOk result (self.new.part.noted ≡ nothing_noted self.old.wants_onsets) }
        ensures wants { self.new.wants_onsets ≡ self.old.wants_onsets }
        ensures parts { self.new.parts ≡ self.old.parts }
    {
        self.counts = Counts::new(self.alloc, frame)?;
        self.part = PartSoFar::none(self.alloc, self.wants_onsets);
        Ok(())
    }

    /// Begins with an export whose samples aren't compared: nothing is counted of any channel.
    fn begin_with_none(&mut self)
        ensures counts { self.new.counts.channels.items ≡ [] }
        ensures noted { self.new.part.noted ≡ nothing_noted self.old.wants_onsets }
        ensures wants { self.new.wants_onsets ≡ self.old.wants_onsets }
        ensures parts { self.new.parts ≡ self.old.parts }
    {
        self.counts = Counts {
            channels: Vec::new(self.alloc),
        };
        self.part = PartSoFar::none(self.alloc, self.wants_onsets);
    }

    /// Counts what both files show between two times, and notes in which data records the first and the last of each kind lie.
    fn look_at(
        &mut self,
        original: &FileReader,
        export: &FileReader,
        frame: Frame<'_>,
        within: Window,
    )
        requires frame { IsFrame original.now.head export.now.head frame }
        requires uncut { IsUncut ((frame.turn).setting.claim).now.keep (within.from).ps (within.to).ps }
        requires each { length self.old.counts.channels.items ≡ length (frame.pairs).now }
        ensures each { length self.new.counts.channels.items ≡ length (frame.entry.pairs).now }
        ensures holds { HasSeenIn (AreCounts self.old.counts.channels.items)
            (AreCounts self.new.counts.channels.items) frame.entry original.now export.now within }
        ensures noted { self.new.is_whole ≡ true → self.new.part.noted ≡
            noted_with (stand_in frame.entry export.entry) self.old.part.noted }
        ensures wants { self.new.wants_onsets ≡ self.old.wants_onsets }
        ensures whole { self.new.is_whole ≡ true → self.old.is_whole ≡ true }
        ensures parts { self.new.parts ≡ self.old.parts }
    {
        self.counts.see(original, export, frame, within);
        match self.note(original, export, frame, within) {
            Ok(()) => {}
            Err(_) => self.is_whole = false,
        }
    }

    /// Keeps an export that was read to its end, with what was counted last.
    ///
    /// The error is want of memory.
    fn keep_export(&mut self, export: FileReader) -> Result<(), AllocError>
        ensures counted { OnOk result (counted_by self.new ≡ counted_by self.old ++
            (record { head = export.head; counts = self.old.counts.channels.items } ∷ [])) }
        ensures parts { OnOk result (self.new.parts.items ≡ self.old.parts.items ++ (record {
          header = export.head;
          so_far = self.old.part;
          counts = self.old.counts.channels;
        } ∷ [])) }
        ensures wants { self.new.wants_onsets ≡ self.old.wants_onsets }
        ensures notes { self.new.notes ≡ self.old.notes }
    {
        let counts = mem::replace(&mut self.counts.channels, Vec::new(self.alloc));
        let so_far = mem::replace(
            &mut self.part,
            PartSoFar::none(self.alloc, self.wants_onsets),
        );
        self.parts.push(ReadPart {
            header: export.into_header(),
            so_far,
            counts,
        })?;
        Ok(())
    }

    /// Keeps the original, which was read to its end, with those of its annotations that are kept; and the annotations of all exports.
    fn keep_original(&mut self, original: Reading, exported: Vec<Note>)
        ensures original { self.new.original ≡ Some (original.reader).head }
        ensures kept { self.new.notes.kept.items ≡ original.notes.items }
        ensures exported { self.new.notes.exported.items ≡ exported.items }
        ensures hidden { self.new.notes.hidden ≡ self.old.notes.hidden }
        ensures parts { self.new.parts ≡ self.old.parts }
    {
        self.original = Some(original.reader.into_header());
        self.notes.kept = original.notes;
        self.notes.exported = exported;
    }

    /// What an original and its exports differ in that were read to their ends, under this claim. There is none where one of them
    /// has a fault.
    ///
    /// The error is want of memory.
    pub(crate) fn findings(self, claim: &Claim) -> Result<Option<Findings<'_>>, AllocError>
        ensures whole { IfOk result (λ found. IfSome found (λ seen. self.is_whole ≡ true)) }
        ensures some { IfOk result (λ found.
            is_some found ≡ (is_some self.original && nat_lt 0 (length self.parts.items))) }
        ensures found { IfOk result (λ found. IfSome found (AreFoundBy claim.entry.now self)) }
    {
        let Looker {
            alloc,
            is_whole,
            parts,
            notes,
            original,
            ..
        } = self;
        let Some(original) = original else {
            return Ok(None);
        };
        if !is_whole {
            return Err(AllocError);
        }
        let labels = in_order(alloc, claim.channels())?;
        let under = Under {
            original: &original,
            claim,
            labels: &labels,
        };
        let found = findings_in(alloc, parts, under)?;
        Ok(Findings::of(claim, original, found, notes))
    }
}

impl Onlooker for Looker {
    ghost use Rattle.std.specs.Prelude.{true};

    ghost looks = { λ _. true };

    ghost counts = { λ w. w.counts.channels.items };

    ghost counted = { counted_by };

    ghost shown = { shown_by };

    fn looks(&self) -> bool {
        true
    }

    fn begin(&mut self, frame: Frame<'_>) -> Result<(), AllocError> {
        self.begin_with(frame)
    }

    fn begin_without(&mut self) {
        self.begin_with_none();
    }

    fn look(
        &mut self,
        original: &FileReader,
        export: &FileReader,
        frame: Frame<'_>,
        within: Window,
    ) {
        self.look_at(original, export, frame, within);
    }

    fn take_export(&mut self, export: FileReader) -> Result<(), AllocError> {
        self.keep_export(export)
    }

    fn take_original(&mut self, original: Reading, exported: Vec<Note>) {
        self.keep_original(original, exported);
    }
}
