//! The patient and the recording that a header names.
//!
//! Both fields are subfields with spaces between them (EDF+, "Additional specifications in EDF+":
//! local patient identification, local recording identification). What is read borrows the field.
ghost use Rattle.std.specs.Prelude.{◌≡◌, ◌<◌, ◌∷◌, ◌==◌, None, Some, length, slice_index, IfOk, MatchOption, MatchResult, is_some, codes};
ghost use Rattle.std.specs.Result.{result_err};
ghost use Rattle.std.specs.Str.{bytes_eq};
ghost use Rattle.edf_fields.specs.texts.DatesReading.{dashed_day_of};
ghost use Rattle.edf_fields.specs.texts.IdentificationsReading.{is_sex, is_date_or_x, field_cause};
ghost use Rattle.edf_fields.specs.Parts.{text_of};

use crate::faults::cause::FieldCause;
use crate::fields::which::NOT_TOLD;
use crate::texts::date::dashed_date;
use crate::texts::number::text;
use crate::texts::printable::is_printable;
use crate::texts::subfields::Subfields;

/// Whether the field begins with a space.
fn begins_with_space(field: &[u8]) -> bool
    ensures { result ≡ (slice_index field.now 0 == 32) }
{
    matches!(field, [b' ', ..])
}

/// The text of an identification field, or the first cause that both fields can have.
#[tactic(auto, unfolding(crate::specs::texts::IdentificationsReading::field_cause))]
fn printable_text(field: &[u8]) -> Result<&[u8], FieldCause>
    ensures { MatchResult result
        (λ t. (t.now ≡ text_of field.entry.now) × (field_cause field.entry.now ≡ None))
        (λ cause. field_cause field.entry.now ≡ Some cause) }
{
    if !is_printable(field) {
        return Err(FieldCause::NotPrintable);
    }
    if begins_with_space(field) {
        return Err(FieldCause::LeadingSpace);
    }
    Ok(text(field))
}

/// Whether the subfield is a sex.
fn is_sex(subfield: &[u8]) -> bool
    ensures { result ≡ is_sex subfield.now }
{
    matches!(subfield, b"F" | b"M" | b"X")
}

/// Whether the subfield is the word before the startdate.
fn is_startdate_word(subfield: &[u8]) -> bool
    ensures { result ≡ bytes_eq subfield.now (codes "Startdate") }
{
    subfield == "Startdate".as_bytes()
}

/// Whether the subfield is `X`, which stands for what isn't told.
fn is_x(subfield: &[u8]) -> bool
    ensures { result ≡ bytes_eq subfield.now (codes "X") }
{
    subfield == NOT_TOLD
}

/// Whether the subfield names a day.
fn is_dashed_day(subfield: &[u8]) -> bool
    ensures { result ≡ is_some (dashed_day_of subfield.now) }
{
    dashed_date(subfield).is_some()
}

/// Whether the subfield is a day or `X`.
fn is_date_or_x(subfield: &[u8]) -> bool
    ensures { result ≡ is_date_or_x subfield.now }
{
    is_x(subfield) || is_dashed_day(subfield)
}

/// The patient that a header names: the subfields of its local patient identification (EDF+,
/// "Additional specifications in EDF+").
///
/// `X` stands for what isn't told. All texts borrow the field.
#[derive(Clone, Copy, Debug)]
pub struct PatientId<'a> {
    code: &'a [u8],
    sex: &'a [u8],
    birthdate: &'a [u8],
    name: &'a [u8],
    extras: Subfields<'a>,
}

impl<'a> PatientId<'a> {
    ghost use Rattle.edf_fields.specs.texts.SubfieldsReading.{subfields_of, subfields_left};
    ghost use Rattle.edf_fields.specs.texts.Identifications.{SaysPatient};
    ghost use Rattle.edf_fields.specs.texts.IdentificationsReading.{patient_of, patient_cause};

    /// The first four subfields of a text, and those behind them; none where there are fewer.
    fn split(text: &'a [u8]) -> Option<PatientId<'a>>
        ensures { MatchOption result (length (subfields_of text.entry.now) < 4) (λ p.
            subfields_of text.entry.now ≡
            p.code.now ∷ p.sex.now ∷ p.birthdate.now ∷ p.name.now ∷ subfields_left p.extras) }
    {
        let mut subfields = Subfields::new(text);
        let code = subfields.next()?;
        let sex = subfields.next()?;
        let birthdate = subfields.next()?;
        let name = subfields.next()?;
        Some(PatientId {
            code,
            sex,
            birthdate,
            name,
            extras: subfields,
        })
    }

    /// The patient of a local patient identification field, or the first cause why it says none.
    ///
    /// The field is printable ASCII (bytes 32 to 126), doesn't begin with a space, and may be
    /// filled with spaces. Its subfields, with at least one space between two of them, are a code,
    /// a sex (`F`, `M` or `X`), a birthdate (`dd-MMM-yyyy`, an existing day, or `X`), a name, and
    /// any number of others (EDF+, "Additional specifications in EDF+"). `NotPrintable`,
    /// `LeadingSpace`, `TooFewSubfields` (fewer than four), `BadSex` and `BadDate` say what is
    /// otherwise, and of several the first in this order is answered.
    #[tactic(auto, using(crate::proofs::texts::IdentificationFacts::patient_said), unfolding(crate::specs::texts::IdentificationsReading::patient_cause))]
    pub fn read(field: &'a [u8]) -> Result<PatientId<'a>, FieldCause>
        ensures said { IfOk result (λ p. SaysPatient field.entry.now (patient_of p)) }
        ensures cause { result_err result ≡ patient_cause field.entry.now }
    {
        let text = printable_text(field)?;
        let Some(patient) = PatientId::split(text) else {
            return Err(FieldCause::TooFewSubfields);
        };
        if !is_sex(patient.sex) {
            return Err(FieldCause::BadSex);
        }
        if !is_date_or_x(patient.birthdate) {
            return Err(FieldCause::BadDate);
        }
        Ok(patient)
    }

    /// The patient of a field that `read` took before: its subfields are found, and nothing is judged
    /// again.
    #[tactic(auto, using(crate::proofs::texts::IdentificationFacts::patient_is, crate::proofs::texts::IdentificationFacts::patient_whole))]
    pub fn of_judged(field: &'a [u8]) -> PatientId<'a>
        requires { patient_cause field.now ≡ None }
        ensures { SaysPatient field.entry.now (patient_of result) }
    {
        match PatientId::split(text(field)) {
            Some(patient) => patient,
            None => unreachable!(),
        }
    }

    /// The code by which the patient is known in the hospital.
    pub fn code(&self) -> &'a [u8]
        ensures { result.now ≡ (patient_of self.now).code }
    {
        self.code
    }

    /// The sex: `F`, `M` or `X`.
    pub fn sex(&self) -> &'a [u8]
        ensures { result.now ≡ (patient_of self.now).sex }
    {
        self.sex
    }

    /// The birthdate: `dd-MMM-yyyy`, which `dashed_date` reads, or `X`.
    pub fn birthdate(&self) -> &'a [u8]
        ensures { result.now ≡ (patient_of self.now).birthdate }
    {
        self.birthdate
    }

    /// The patient's name.
    pub fn name(&self) -> &'a [u8]
        ensures { result.now ≡ (patient_of self.now).name }
    {
        self.name
    }

    /// The additional subfields, in order.
    pub fn extras(&self) -> Subfields<'a>
        ensures { subfields_left result ≡ (patient_of self.now).extras }
    {
        self.extras
    }
}

/// The recording that a header names: the subfields of its local recording identification behind
/// the word `Startdate` (EDF+, "Additional specifications in EDF+").
///
/// `X` stands for what isn't told. All texts borrow the field.
#[derive(Clone, Copy, Debug)]
pub struct RecordingId<'a> {
    date: &'a [u8],
    admin: &'a [u8],
    technician: &'a [u8],
    equipment: &'a [u8],
    extras: Subfields<'a>,
}

/// The first subfield of a recording identification, and what stands behind it.
#[derive(Clone, Copy)]
struct WordAndRecording<'a> {
    word: &'a [u8],
    recording: RecordingId<'a>,
}

impl<'a> RecordingId<'a> {
    ghost use Rattle.edf_fields.specs.texts.SubfieldsReading.{subfields_of, subfields_left};
    ghost use Rattle.edf_fields.specs.texts.Identifications.{SaysRecording};
    ghost use Rattle.edf_fields.specs.texts.IdentificationsReading.{recording_of, recording_cause};

    /// The first five subfields of a text, and those behind them; none where there are fewer.
    fn split(text: &'a [u8]) -> Option<WordAndRecording<'a>>
        ensures { MatchOption result (length (subfields_of text.entry.now) < 5)
            (λ x. subfields_of text.entry.now ≡ x.word.now ∷ x.recording.date.now ∷ x.recording.admin.now
            ∷ x.recording.technician.now ∷ x.recording.equipment.now ∷ subfields_left x.recording.extras) }
    {
        let mut subfields = Subfields::new(text);
        let word = subfields.next()?;
        let date = subfields.next()?;
        let admin = subfields.next()?;
        let technician = subfields.next()?;
        let equipment = subfields.next()?;
        Some(WordAndRecording {
            word,
            recording: RecordingId {
                date,
                admin,
                technician,
                equipment,
                extras: subfields,
            },
        })
    }

    /// The recording of a local recording identification field, or the first cause why it says
    /// none.
    ///
    /// The field is printable ASCII (bytes 32 to 126), doesn't begin with a space, and may be
    /// filled with spaces. Its subfields, with at least one space between two of them, are the
    /// word `Startdate`, the startdate (`dd-MMM-yyyy`, an existing day, or `X`), an administration
    /// code, a technician, the equipment, and any number of others (EDF+, "Additional
    /// specifications in EDF+"). `NotPrintable`, `LeadingSpace`, `TooFewSubfields` (fewer than
    /// five), `BadDate` and `NoStartdateWord` say what is otherwise, and of several the first in
    /// this order is answered.
    #[tactic(auto, using(crate::proofs::texts::IdentificationFacts::recording_said), unfolding(crate::specs::texts::IdentificationsReading::recording_cause))]
    pub fn read(field: &'a [u8]) -> Result<RecordingId<'a>, FieldCause>
        ensures said { IfOk result (λ r. SaysRecording field.entry.now (recording_of r)) }
        ensures cause { result_err result ≡ recording_cause field.entry.now }
    {
        let text = printable_text(field)?;
        let Some(WordAndRecording { word, recording }) = RecordingId::split(text) else {
            return Err(FieldCause::TooFewSubfields);
        };
        if !is_date_or_x(recording.date) {
            return Err(FieldCause::BadDate);
        }
        if !is_startdate_word(word) {
            return Err(FieldCause::NoStartdateWord);
        }
        Ok(recording)
    }

    /// The recording of a field that `read` took before: its subfields are found, and nothing is judged
    /// again.
    #[tactic(auto, using(crate::proofs::texts::IdentificationFacts::recording_is, crate::proofs::texts::IdentificationFacts::recording_whole))]
    pub fn of_judged(field: &'a [u8]) -> RecordingId<'a>
        requires { recording_cause field.now ≡ None }
        ensures { SaysRecording field.entry.now (recording_of result) }
    {
        match RecordingId::split(text(field)) {
            Some(WordAndRecording { recording, .. }) => recording,
            None => unreachable!(),
        }
    }

    /// The startdate: `dd-MMM-yyyy`, which `dashed_date` reads, or `X`.
    pub fn date(&self) -> &'a [u8]
        ensures { result.now ≡ (recording_of self.now).date }
    {
        self.date
    }

    /// The administration code of the investigation.
    pub fn admin(&self) -> &'a [u8]
        ensures { result.now ≡ (recording_of self.now).admin }
    {
        self.admin
    }

    /// The code of the responsible investigator or technician.
    pub fn technician(&self) -> &'a [u8]
        ensures { result.now ≡ (recording_of self.now).technician }
    {
        self.technician
    }

    /// The code of the equipment.
    pub fn equipment(&self) -> &'a [u8]
        ensures { result.now ≡ (recording_of self.now).equipment }
    {
        self.equipment
    }

    /// The additional subfields, in order.
    pub fn extras(&self) -> Subfields<'a>
        ensures { subfields_left result ≡ (recording_of self.now).extras }
    {
        self.extras
    }
}
