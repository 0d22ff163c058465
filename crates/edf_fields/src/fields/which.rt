//! The subfields of the identification fields, by the names that a claim gives them.

ghost use Rattle.std.specs.Prelude.{◌≡◌};
ghost use Rattle.edf_fields.specs.fields.SubfieldNames.{name_of};
ghost use Rattle.edf_fields.specs.fields.SubfieldNamesReading.{all_subfields, which_of, named_in as first_named};

/// What stands in a subfield for what isn't told (EDF+, "Additional specifications in EDF+").
pub const NOT_TOLD: &[u8] = b"X";

/// A subfield that an export may make anonymous (EDF+, "Additional specifications in EDF+": local
/// patient identification, local recording identification).
#[derive(Debug, Clone, Copy, PartialEq, Eq)]
pub enum Which {
    /// The code by which the patient is known in the hospital.
    Code,
    /// The patient's sex.
    Sex,
    /// The patient's date of birth.
    Birthdate,
    /// The patient's name.
    Name,
    /// All additional subfields of the patient.
    PatientExtras,
    /// The date at which the recording starts.
    Date,
    /// The hospital's code of the investigation.
    Administration,
    /// The code of the investigator or technician.
    Technician,
    /// The code of the equipment.
    Equipment,
    /// All additional subfields of the recording.
    RecordingExtras,
}

impl Which {
    /// All of them, in their written order.
    #[tactic(auto, unfolding(crate::specs::fields::SubfieldNamesReading::all_subfields))]
    pub fn all() -> &'static [Which]
        ensures { result.now ≡ all_subfields }
    {
        &ALL
    }

    /// The name that a claim gives it.
    pub fn name(self) -> &'static str
        ensures { result.now ≡ name_of self }
    {
        match self {
            Which::Code => "code",
            Which::Sex => "sex",
            Which::Birthdate => "birthdate",
            Which::Name => "name",
            Which::PatientExtras => "patient-extras",
            Which::Date => "date",
            Which::Administration => "administration",
            Which::Technician => "technician",
            Which::Equipment => "equipment",
            Which::RecordingExtras => "recording-extras",
        }
    }
}

/// All of them, in their written order.
const ALL: [Which; 10] = [
    Which::Code,
    Which::Sex,
    Which::Birthdate,
    Which::Name,
    Which::PatientExtras,
    Which::Date,
    Which::Administration,
    Which::Technician,
    Which::Equipment,
    Which::RecordingExtras,
];

/// The first of these that has this name.
fn named_in(all: &[Which], name: &[u8]) -> Option<Which>
    ensures { result ≡ first_named all.now name.now }
{
    for which in all {
        if which.name().as_bytes() == name {
            return Some(*which);
        }
    }
    None
}

/// The subfield that a claim calls by this name.
#[tactic(auto, unfolding(crate::specs::fields::SubfieldNamesReading::which_of))]
pub fn which_of(name: &[u8]) -> Option<Which>
    ensures { result ≡ which_of name.now }
{
    named_in(Which::all(), name)
}
