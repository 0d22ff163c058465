//! Which of the drafts of two files is given.

ghost use Rattle.std.specs.Prelude.{◌≡◌, ℤ, IfOk, IfSome};
ghost use Rattle.edf_draft.specs.Answers.{IsTextOf};
ghost use Rattle.edf_draft.specs.Choices.{IsChosen, IsGiven, IsOneOf, verdict_with};
ghost use Rattle.edf_draft.specs.Better.{is_taken as is_taken_of};
ghost use Rattle.edf_draft.specs.Exported.{heads_of};
ghost use Rattle.edf_draft.specs.FirstLines.{IsTrueOfYes};
ghost use Rattle.edf_draft.specs.Tries.{IsTriedDraft};

use crate::exported::Exported;
use crate::fits::fitting_shifts;
use crate::shift::{Moved, Shift, shift_of};
use crate::tries::drafted::draft_tried;
use crate::tries::trial::Trial;
use crate::tries::tried::Tried;
use edf_recording::Recorded;
use edf_trial::is_better;
use edf_verdict::Verdict;
use std::alloc::{AllocError, Global};

/// Whether the check with a draft is a Yes.
fn is_yes(tried: &Option<Tried>) -> bool {
    match tried {
        Some(tried) => matches!(tried.verdict, Some(Verdict::Yes { .. })),
        None => false,
    }
}

/// Whether the draft by the samples is taken, and not that by days: it is a Yes, or the other isn't better.
fn is_taken(by_days: &Option<Verdict>, by_samples: &Option<Verdict>) -> bool
    ensures { result ≡ is_taken_of by_days.now by_samples.now }
{
    match (by_days, by_samples) {
        (_, None) => false,
        (_, Some(Verdict::Yes { .. })) => true,
        (None, Some(Verdict::No(_))) => false,
        (Some(days), Some(samples)) => !is_better(days, samples),
    }
}

/// Whether the check with one draft gets further than with another.
fn gets_further(tried: &Tried, than: &Tried) -> bool {
    match (&tried.verdict, &than.verdict) {
        (Some(verdict), Some(other)) => is_better(verdict, other),
        (Some(_), None) => true,
        (None, _) => false,
    }
}

/// The one of two drafts with which the check gets further.
fn better_of(best: Option<Tried>, tried: Tried) -> Tried
    ensures { IsOneOf best tried result }
{
    let Some(best) = best else {
        return tried;
    };
    if gets_further(&tried, &best) {
        tried
    } else {
        best
    }
}

/// The shifts by which samples of the export are samples of the original, and the one with which a draft was tried before.
#[derive(Drop)]
struct Fits {
    shifts: Vec<i64>,
    tried: Option<i64>,
}

impl Fits {
    /// Whether the one that was tried before is one of them.
    fn have_tried(&self) -> bool {
        match self.tried {
            Some(shift) => self.shifts.contains(&shift),
            None => false,
        }
    }
}

/// The draft with a shift by which samples of the export are samples of the original, and which wasn't tried before; of several
/// that one with which the check gets furthest. None where there is no such shift.
fn draft_by_samples<T: Trial>(
    alloc: Global,
    original: &Recorded,
    export: &Exported,
    fits: &Fits,
    trial: &T,
) -> Result<Option<Tried>, AllocError>
    ensures { IfOk result (λ best. IfSome best (λ tried. (shift : ℤ) × IsTriedDraft
        (T.files trial.now)
        ((original.now).reader).head (heads_of export.now) shift tried)) }
{
    let mut best = None;
    for shift in &fits.shifts {
        let moved = Moved::by_samples(*shift, &fits.shifts);
        if fits.tried != Some(*shift)
            && let Some(tried) = draft_tried(alloc, original, export, moved, trial)?
        {
            best = Some(better_of(best, tried));
        }
        if is_yes(&best) {
            break;
        }
    }
    Ok(best)
}

/// Whether the draft by the samples is taken, and not the one by days, if there is one.
fn takes(by_days: &Option<Tried>, samples: &Tried) -> bool
    ensures { result ≡ is_taken_of (verdict_with by_days.now) samples.now.verdict }
{
    match by_days {
        Some(days) => is_taken(&days.verdict, &samples.verdict),
        None => is_taken(&None, &samples.verdict),
    }
}

/// The draft that is given, of one by days and one by the samples.
#[tactic(auto, using(crate::proofs::ChoiceFacts::days_chosen))]
fn chosen(by_days: Option<Tried>, by_samples: Option<Tried>) -> Option<Tried>
    ensures { IfSome result (IsChosen by_days by_samples) }
{
    let Some(samples) = by_samples else {
        return by_days;
    };
    if takes(&by_days, &samples) {
        Some(samples)
    } else {
        by_days
    }
}

/// The draft with the shift that the starts of the two files tell; or, where the check with that isn't a Yes, maybe one by the
/// samples: where these tell the same shift, too, only one with which it is a Yes.
#[tactic(auto, using(crate::proofs::ChoiceFacts::days_given, crate::proofs::ChoiceFacts::chosen_given))]
fn draft_of_told<T: Trial>(
    alloc: Global,
    original: &Recorded,
    export: &Exported,
    shift: Shift,
    trial: &T,
) -> Result<Option<Tried>, AllocError>
    ensures { IfOk result (λ tried. IfSome tried (IsGiven
        (T.files trial.now)
        ((original.now).reader).head (heads_of export.now) shift.seconds)) }
{
    let told = draft_tried(alloc, original, export, Moved::by_days(shift), trial)?;
    if is_yes(&told) {
        return Ok(told);
    }
    let fits = Fits {
        shifts: fitting_shifts(alloc, original, &export.together, trial)?,
        tried: Some(shift.seconds),
    };
    let by_samples = draft_by_samples(alloc, original, export, &fits, trial)?;
    if fits.have_tried() && !is_yes(&by_samples) {
        return Ok(told);
    }
    Ok(chosen(told, by_samples))
}

/// The draft by the samples; or, where the check with that isn't a Yes, maybe the one with a shift that is guessed.
#[tactic(auto, using(crate::proofs::ChoiceFacts::samples_given, crate::proofs::ChoiceFacts::chosen_given))]
fn draft_of_guess<T: Trial>(
    alloc: Global,
    original: &Recorded,
    export: &Exported,
    shift: Shift,
    trial: &T,
) -> Result<Option<Tried>, AllocError>
    ensures { IfOk result (λ tried. IfSome tried (IsGiven
        (T.files trial.now)
        ((original.now).reader).head (heads_of export.now) shift.seconds)) }
{
    let fits = Fits {
        shifts: fitting_shifts(alloc, original, &export.together, trial)?,
        tried: None,
    };
    let by_samples = draft_by_samples(alloc, original, export, &fits, trial)?;
    if is_yes(&by_samples) {
        return Ok(chosen(None, by_samples));
    }
    let guess = draft_tried(alloc, original, export, Moved::by_days(shift), trial)?;
    Ok(chosen(guess, by_samples))
}

/// The draft that is given of two files whose starts tell this shift, or don't.
fn draft_given<T: Trial>(
    alloc: Global,
    original: &Recorded,
    export: &Exported,
    shift: Shift,
    trial: &T,
) -> Result<Option<Tried>, AllocError>
    ensures { IfOk result (λ tried. IfSome tried (IsGiven
        (T.files trial.now)
        ((original.now).reader).head (heads_of export.now) shift.seconds)) }
{
    if shift.is_told {
        draft_of_told(alloc, original, export, shift, trial)
    } else {
        draft_of_guess(alloc, original, export, shift, trial)
    }
}

/// The text of a draft of a claim by which one recording is the export of another, with what the check answers with it in its
/// first line; none where no claim says it, as where it needs more than 1,000 intervals or 65,536 bytes.
///
/// Its shift is the number of days that the starts of the two files tell, or else one by which samples of the export are samples of
/// the original, where the check with the first isn't a Yes, and no better than with the second.
pub(crate) fn draft_text<T: Trial>(
    alloc: Global,
    original: &Recorded,
    export: &Exported,
    trial: &T,
) -> Result<Option<Vec<u8>>, AllocError>
    ensures text { IfOk result (λ text. IfSome text (λ t. IsTextOf
        (T.files trial.now) original.now export.now t.items)) }
    ensures first { IfOk result (λ text. IfSome text (λ t. IsTrueOfYes
        (T.files trial.now) t.items)) }
{
    let shift = shift_of(original, &export.together);
    let given = draft_given(alloc, original, export, shift, trial)?;
    match given {
        Some(tried) => Ok(Some(tried.into_text())),
        None => Ok(None),
    }
}
