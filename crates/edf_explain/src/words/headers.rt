//! Headers: channels, of which the label is the first thing, and subfields, of which the name is the first thing and the
//! meaning the second.

use edf_fields::Which;

pub(crate) const UNKNOWN_CHANNEL: &str =
    "The claim names channel {0}, but the original doesn't have it: it may be misspelt. Compare the claim with what edfclaim show prints of the original. Small and capital letters and spaces count.";

pub(crate) const MISSING_CHANNEL: &str =
    "The claim names channel {0}, but the export doesn't have it: if it is to go out, export again with it.";

pub(crate) const CHANNEL_NOWHERE: &str =
    "The claim names channel {0}, and neither the original nor the export has it: it may be misspelt. Compare the claim with what edfclaim show prints of the original. Small and capital letters and spaces count.";

pub(crate) const EXTRA_CHANNEL: &str =
    "The export has channel {0}, and the claim doesn't name it: if it isn't to go out, export again without it.";

pub(crate) const TRANSDUCER: &str =
    "Channel {0} has another sensor in the export: the original has {1}, the export has {2}. Export again so that this text stays as it is.";

pub(crate) const PREFILTER: &str =
    "Channel {0} has another filter in the export: the original has {1}, the export has {2}. If the export was filtered, it is no cut of the original; if not, export again so that this text stays as it is.";

pub(crate) const TEXT_CUT: &str =
    "The export has only the beginning of the original's text: some writers cut such texts short.";

pub(crate) const CALIBRATION: &str =
    "Channel {0} has another scale or another unit in the export: the same numbers mean other values there.";

/// The extremes and the unit.
pub(crate) const CALIBRATION_ORIGINAL: &str =
    "  The original has {0} to {1} {2}, for the numbers {3} to {4}.";

pub(crate) const CALIBRATION_EXPORT: &str =
    "  The export has {0} to {1} {2}, for the numbers {3} to {4}.";

pub(crate) const CALIBRATION_CUT_OFF: &str =
    "  It looks like the original's extremes with their last digits cut off: they differ by no more than one unit of the last digit that eight characters hold. Some writers cut digits off and don't round: EDFlib writes 3276.7 as 3276.699. Have the recorder write extremes that survive, such as whole numbers, or export with other software.";

pub(crate) const CALIBRATION_DIMENSION: &str =
    "  The unit is different. Export again with the original's unit and extremes.";

pub(crate) const CALIBRATION_SCALE: &str =
    "  Export again with the original's extremes. They may have been rounded, or the samples were rescaled.";

pub(crate) const FREE_TEXT_OF_CHANNEL: &str =
    "In the export, channel {0} has the text {1} in its reserved field, where anybody can write anything: export again with this field empty, whatever it holds.";

pub(crate) const FREE_TEXT_OF_HEADER: &str =
    "In the export, words stand behind EDF+C or EDF+D, or in a text of an annotation signal, where anybody can write anything: export again with these places empty, whatever they hold.";

// Subfields. The name is the first thing, the meaning the second.

pub(crate) const SUBFIELD_NOT_X: &str =
    "The claim hides {0} ({1}), but the export shows something there. The export doesn't go out: make it again with X in this place.";

pub(crate) const SUBFIELD_CHANGED: &str =
    "The claim doesn't hide {0} ({1}), and the export has another text there than the original: export again with the original's text; or, if it is to be hidden, with X in this place, and add \"{0}\" to anonymous in the claim.";

pub(crate) const SUBFIELD_HIDDEN: &str =
    "The claim doesn't hide {0} ({1}), and the export has X there: if it is to be hidden, add \"{0}\" to anonymous in the claim; if not, export again with the original's text.";

pub(crate) const SUBFIELD_LEFT_OUT: &str =
    "The claim doesn't hide {0} ({1}), and the export has nothing there: if it is to be hidden, add \"{0}\" to anonymous in the claim; if not, export again with the original's text.";

pub(crate) const DATE_CHANGED: &str =
    "The claim doesn't hide {0} ({1}), and it is X in one of the files and a day in the other. If the export has X, add \"{0}\" to anonymous in the claim; if the original has X, export again with X.";

/// What a subfield is.
pub(crate) fn meaning(which: Which) -> &'static str {
    match which {
        Which::Code => "the code by which the hospital knows the patient",
        Which::Sex => "the patient's sex",
        Which::Birthdate => "the day of birth",
        Which::Name => "the patient's name",
        Which::PatientExtras => "everything that comes after the patient's name",
        Which::Date => "the day of the recording, as the recording's line says it",
        Which::Administration => "the number of the investigation",
        Which::Technician => "who made the recording",
        Which::Equipment => "the equipment that was used",
        Which::RecordingExtras => "everything that comes after the equipment",
    }
}
