//! The subfields of the patient and of the recording.

ghost use Rattle.std.specs.Prelude.{◌≡◌, ◌↔◌, IsTrue, MatchOption};
ghost use Rattle.std.specs.List.{list_all};
ghost use Rattle.edf_fields.specs.texts.SubfieldsReading.{subfields_left};
ghost use Rattle.edf_heads.specs.Comparisons.{is_x as is_x_text, are_same as are_same_texts, AllAsClaimedIn, IsAnonymous, IsAsClaimedIn, IsFoundAmong, IsMismatchIn, IsSubfieldDifferenceIn, IsUnchanged};

use crate::comparison::Comparison;
use edf_claim::Claim;
use edf_fields::{NOT_TOLD, Subfields, Which};
use edf_header::Header;
use edf_verdict::SubfieldMismatch;

/// A subfield that isn't as claimed, and how it isn't.
#[derive(Clone, Copy)]
pub(crate) struct SubfieldDifference {
    pub(crate) which: Which,
    pub(crate) mismatch: SubfieldMismatch,
}

/// Whether the text is `X`, which stands for what isn't told.
fn is_x(text: &[u8]) -> bool
    ensures { result ≡ is_x_text text.now }
{
    text == NOT_TOLD
}

/// Whether each of the subfields is `X`.
fn are_all_x(subfields: Subfields<'_>) -> bool
    ensures { result ≡ list_all is_x_text (subfields_left subfields.entry) }
{
    for subfield in subfields {
        if !is_x(subfield) {
            return false;
        }
    }
    true
}

/// Whether the subfields are the same as the others.
fn are_same(subfields: Subfields<'_>, mut others: Subfields<'_>) -> bool
    ensures { result ≡ are_same_texts (subfields_left subfields.entry) (subfields_left others.entry) }
{
    for subfield in subfields {
        let Some(other) = others.next() else {
            return false;
        };
        if subfield != other {
            return false;
        }
    }
    others.next().is_none()
}

/// Whether this subfield of the patient or the recording is `X`: of additional subfields, each of them (EDF+,
/// "Additional specifications in EDF+").
#[tactic(auto, using(crate::proofs::SubfieldFacts::all_x_tested))]
pub fn is_anonymous(header: &Header, which: Which) -> bool
    ensures { IsTrue result ↔ IsAnonymous header.now which }
{
    let patient = header.patient();
    let recording = header.recording();
    match which {
        Which::Code => is_x(patient.code()),
        Which::Sex => is_x(patient.sex()),
        Which::Birthdate => is_x(patient.birthdate()),
        Which::Name => is_x(patient.name()),
        Which::PatientExtras => are_all_x(patient.extras()),
        Which::Date => is_x(recording.date()),
        Which::Administration => is_x(recording.admin()),
        Which::Technician => is_x(recording.technician()),
        Which::Equipment => is_x(recording.equipment()),
        Which::RecordingExtras => are_all_x(recording.extras()),
    }
}

/// Whether this subfield of the export is the original's. Of the date only whether it is `X` is compared (EDF+,
/// "Additional specifications in EDF+").
#[tactic(auto, using(crate::proofs::SubfieldFacts::same_tested))]
pub fn is_unchanged(original: &Header, export: &Header, which: Which) -> bool
    ensures { IsTrue result ↔ IsUnchanged original.now export.now which }
{
    let (old, new) = (original.patient(), export.patient());
    let (before, after) = (original.recording(), export.recording());
    match which {
        Which::Code => new.code() == old.code(),
        Which::Sex => new.sex() == old.sex(),
        Which::Birthdate => new.birthdate() == old.birthdate(),
        Which::Name => new.name() == old.name(),
        Which::PatientExtras => are_same(new.extras(), old.extras()),
        Which::Date => is_x(after.date()) == is_x(before.date()),
        Which::Administration => after.admin() == before.admin(),
        Which::Technician => after.technician() == before.technician(),
        Which::Equipment => after.equipment() == before.equipment(),
        Which::RecordingExtras => are_same(after.extras(), before.extras()),
    }
}

impl<'a> Comparison<'a> {
    /// How this subfield isn't as claimed, if it isn't.
    #[tactic(auto, using(crate::proofs::SubfieldFacts::claimed_anonymous, crate::proofs::SubfieldFacts::claimed_unchanged, crate::proofs::SubfieldFacts::not_anonymous, crate::proofs::SubfieldFacts::not_unchanged))]
    pub(crate) fn subfield_mismatch(&self, which: Which) -> Option<SubfieldMismatch>
        ensures { MatchOption result (IsAsClaimedIn self.now which) (IsMismatchIn self.now which) }
    {
        if self.claim.is_anonymous(which) {
            if is_anonymous(self.export.header, which) {
                return None;
            }
            return Some(SubfieldMismatch::NotX);
        }
        if is_unchanged(self.original, self.export.header, which) {
            return None;
        }
        Some(SubfieldMismatch::Changed)
    }

    /// The first of these subfields that isn't as claimed, and how it isn't.
    #[tactic(auto, using(crate::proofs::SubfieldFacts::found_here, crate::proofs::SubfieldFacts::found_later, crate::proofs::SubfieldFacts::found_none))]
    fn first_subfield(&self, whiches: &[Which]) -> Option<SubfieldDifference>
        ensures { IsFoundAmong self.now.original self.now.export self.now.claim whiches.now result }
    {
        for which in whiches {
            if let Some(mismatch) = self.subfield_mismatch(*which) {
                return Some(SubfieldDifference {
                    which: *which,
                    mismatch,
                });
            }
        }
        None
    }

    /// The first subfield that isn't as claimed, in their written order, and how it isn't.
    #[tactic(auto, using(crate::proofs::SubfieldFacts::subfields_said), unfolding(edf_fields::specs::fields::SubfieldNamesReading::all_subfields))]
    pub(crate) fn subfield_difference(&self) -> Option<SubfieldDifference>
        ensures { MatchOption result (AllAsClaimedIn self.now)
            (λ d. IsSubfieldDifferenceIn self.now d.which d.mismatch) }
    {
        self.first_subfield(Which::all())
    }
}
