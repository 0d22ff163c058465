//! The draft of a claim, of two files that conform.

ghost use Rattle.std.specs.Prelude.{IfOk, IfSome};
ghost use Rattle.edf_claim.specs.Claims.{SaysClaimText};
ghost use Rattle.edf_draft.specs.Drafts.{IsDraftFor};
ghost use Rattle.edf_draft.specs.Exported.{heads_of};
ghost use Rattle.edf_draft.specs.Tries.{IsTriedAs, IsTriedDraft};

use crate::channels::{are_known, channel_labels};
use crate::exported::Exported;
use crate::hidden::{hidden_subfields, shown_subfields};
use crate::order::look_swapped;
use crate::shift::Moved;
use crate::tries::trial::Trial;
use crate::tries::tried::Tried;
use edf_claim::{Comments, Draft};
use edf_fields::Which;
use edf_guesses::{Back, Basis, Lacking, Sampling, doubts_of, kept_intervals, lacking_texts};
use edf_recording::Recorded;
use std::alloc::{AllocError, Global};

/// A draft, and how often each text stands that it removes, and that it blanks.
#[derive(Drop)]
struct Drafted {
    draft: Draft,
    removed: Vec<u64>,
    blanked: Vec<u64>,
}

/// What a person is told of two files beside the lines of their draft: doubts, of each channel whether the original has it, and
/// the subfields that the export shows.
#[derive(Drop)]
struct Told {
    doubts: String,
    are_known: Vec<bool>,
    shown: Vec<Which>,
}

/// The second of the day at which a file starts.
fn start_of_day(recorded: &Recorded) -> u32 {
    u32::try_from(recorded.start_second().rem_euclid(86_400)).unwrap_or(0)
}

/// The draft of a claim by which one recording is the export of another, which was moved by so many seconds.
fn draft_of(
    alloc: Global,
    original: &Recorded,
    export: &Exported,
    shift: i64,
) -> Result<Drafted, AllocError>
    ensures { IfOk result (λ d. IsDraftFor ((original.now).reader).head (heads_of export.now) shift d.draft) }
{
    let Exported { together, others } = export;
    let channels = channel_labels(alloc, together.reader.header())?;
    let back = Back::new(original.start_second(), together.start_second(), shift);
    let sampling = Sampling::new(alloc, original.reader.header(), &channels)?;
    let keep = kept_intervals(alloc, original, together, &sampling, back)?;
    let Lacking { removed, blanked } = lacking_texts(
        alloc,
        &original.notes,
        &together.notes,
        &keep,
        back,
    )?;
    let anonymous = hidden_subfields(
        alloc,
        original.reader.header(),
        together.reader.header(),
        others,
    )?;
    Ok(Drafted {
        draft: Draft {
            channels,
            keep,
            anonymous,
            shift,
            remove: removed.texts,
            blank: blanked.texts,
        },
        removed: removed.counts,
        blanked: blanked.counts,
    })
}

/// What a person is told of two files whose draft has this shift and these channels.
fn told_of(
    alloc: Global,
    original: &Recorded,
    export: &Exported,
    moved: Moved<'_>,
    channels: &[Vec<u8>],
) -> Result<Told, AllocError> {
    let basis = Basis {
        shift: moved.seconds,
        is_told: moved.is_told,
        fits: moved.fits,
        are_swapped: look_swapped(alloc, original, export, moved)?,
        are_several: !export.others.is_empty(),
    };
    Ok(Told {
        doubts: doubts_of(alloc, original, &export.together, basis)?,
        are_known: are_known(alloc, original.reader.header(), channels)?,
        shown: shown_subfields(alloc, export)?,
    })
}

impl Drafted {
    /// The text of the draft, of an original that starts at this second of the day, or without times by its clock; none where no
    /// claim says it.
    fn text(
        &self,
        alloc: Global,
        start: Option<u32>,
        told: &Told,
    ) -> Result<Option<Vec<u8>>, AllocError>
        ensures { IfOk result (λ text. IfSome text (λ t. SaysClaimText t.items self.now.draft)) }
    {
        let comments = Comments {
            remarks: &told.doubts,
            are_known: &told.are_known,
            start,
            shown: &told.shown,
            removed: &self.removed,
            blanked: &self.blanked,
        };
        self.draft.text(alloc, &comments)
    }

    /// The same, with what the check answers with it in its first line.
    fn tried<T: Trial>(
        &self,
        alloc: Global,
        start: Option<u32>,
        told: &Told,
        trial: &T,
    ) -> Result<Option<Tried>, AllocError>
        ensures { IfOk result (λ tried. IfSome tried (IsTriedAs
            (T.files trial.now) self.now.draft)) }
    {
        match self.text(alloc, start, told)? {
            Some(text) => Tried::new(alloc, &self.draft, &text, trial),
            None => Ok(None),
        }
    }
}

/// The draft of a claim by which one recording is the export of another, which was moved by so much, with what the check answers
/// with it in its first line; none where no claim says it, as where it needs more than 1,000 intervals or 65,536 bytes. Where it
/// would be too long with times by the clock, it has none.
pub(crate) fn draft_tried<T: Trial>(
    alloc: Global,
    original: &Recorded,
    export: &Exported,
    moved: Moved<'_>,
    trial: &T,
) -> Result<Option<Tried>, AllocError>
    ensures { IfOk result (λ tried. IfSome tried (IsTriedDraft
        (T.files trial.now)
        ((original.now).reader).head (heads_of export.now) moved.entry.seconds)) }
{
    let drafted = draft_of(alloc, original, export, moved.seconds)?;
    let told = told_of(alloc, original, export, moved, &drafted.draft.channels)?;
    let start = Some(start_of_day(original));
    match drafted.tried(alloc, start, &told, trial)? {
        Some(tried) => Ok(Some(tried)),
        None => drafted.tried(alloc, None, &told, trial),
    }
}
