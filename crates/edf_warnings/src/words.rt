//! The texts of the sentences on what to read before an export goes out. `{0}` stands for the first thing that is put into a
//! sentence, `{1}` for the second.

use edf_fields::Which;

// Behind a No.

pub(crate) const CHECK_AGAIN: &str = "Mend what is named here, and check again.";

// Behind a Yes.

pub(crate) const AS_CLAIMED: &str =
    "Before the export goes out, a person reads its texts: a Yes says nothing about names in them.";

/// The text, and its key.
pub(crate) const TEXT_UNSEEN: &str =
    "No annotation in the kept intervals of the original has exactly the text {0} of {1}: it may be misspelt.";

/// The bytes of the claim, and those of the annotation.
pub(crate) const SEEN_ALIKE: &str =
    "  An annotation has a text that looks the same, and has other bytes: the claim has {0} where the annotation has {1}.";

pub(crate) const BEGIN_UNSEEN: &str =
    "No annotation in the kept intervals of the original begins with exactly the text {0} of {1}: it may be misspelt.";

/// The time, the text, and what is spelled in it.
pub(crate) const NAME_IN_NOTE: &str = "The annotation at {0} has something spelled like {2}: {1}.";

/// The label, the text, and what is spelled in it.
pub(crate) const NAME_IN_CHANNEL: &str =
    "A text of channel {0} has something spelled like {2}: {1}.";

/// The subfield, its text, and what is spelled in it.
pub(crate) const NAME_IN_SUBFIELD: &str =
    "The subfield {0} of the export has something spelled like {2}: {1}.";

pub(crate) const SPELLED_ALIKE: &str =
    "Names were looked for in annotations, texts of channels and subfields that aren't hidden: what is spelled like the patient's name, or like something that the claim hides, is found, and nothing else. A name that is spelled in another way, a nickname or a relative isn't found, and what is found may be harmless.";

/// What is spelled in a text, by the subfield that has it.
pub(crate) fn spelled(which: Which) -> &'static str {
    match which {
        Which::Code => "the code by which the hospital knows the patient",
        Which::Sex => "the patient's sex",
        Which::Birthdate => "the day of birth",
        Which::Name => "a word of the patient's name",
        Which::PatientExtras => "a word of what comes after the patient's name",
        Which::Date => "the day of the recording",
        Which::Administration => "the number of the investigation",
        Which::Technician => "the name or the initials of who made the recording",
        Which::Equipment => "a word of the equipment",
        Which::RecordingExtras => "a word of what comes after the equipment",
    }
}

pub(crate) const SUBFIELDS_SHOWN: &str = "These subfields of the export aren't X: {0}";

pub(crate) const CHANNEL_TEXTS: &str =
    "These texts are in the header beside the labels of channels, and no claim hides them:";

/// The label, the sensor and the filter.
pub(crate) const CHANNEL_TEXT: &str = "  channel {0}, sensor {1}, filter {2}";

pub(crate) const READ_THE_TEXTS: &str = "Read all texts of the export with edfclaim read.";
