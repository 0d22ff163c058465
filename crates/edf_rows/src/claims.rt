//! The claims of the worked rows.

use std::alloc::{AllocError, Global};

/// A claim of a worked row.
#[derive(Debug, Clone, Copy, PartialEq, Eq)]
pub enum Claimed {
    /// Both channels of the night, for 4 s.
    All,
    /// The channel `Temp`, for 6 s.
    Temp,
    /// The second and third second of the night, anonymous and a day earlier.
    Excerpt,
    /// The first and the fourth second of the night.
    Gap,
    /// One channel of the night.
    Ecg,
    /// No name.
    NoName,
    /// No additional subfields of the patient.
    NoPatientExtras,
    /// No recording date.
    NoDate,
    /// No annotation `Lights off`.
    NoLights,
    /// A channel that the night doesn't have.
    Unknown,
    /// `X` in the place of each text `Apnea`.
    BlankApnea,
    /// No annotation whose text begins with `Lights`.
    NoLightsByBegin,
    /// No annotation `Apnea`, which is blanked besides.
    NoApnea,
    /// The whole night, on the last day of 2099.
    Late,
    /// The same, and no recording date.
    LateAndDateless,
}

/// The format of a claim, and its channels: both of the night, but for three claims.
fn front_of(claim: Claimed) -> &'static str {
    match claim {
        Claimed::Temp => "format = 1\nchannels = [\"Temp\"]\n",
        Claimed::Ecg => "format = 1\nchannels = [\"ECG\"]\n",
        Claimed::Unknown => "format = 1\nchannels = [\"EEG Fpz-Cz\", \"ECG\", \"EMG\"]\n",
        Claimed::BlankApnea | Claimed::NoLightsByBegin | Claimed::NoApnea => {
            "format = 2\nchannels = [\"EEG Fpz-Cz\", \"ECG\"]\n"
        }
        _ => "format = 1\nchannels = [\"EEG Fpz-Cz\", \"ECG\"]\n",
    }
}

/// What a claim hides, moves, removes or blanks.
fn changes_of(claim: Claimed) -> &'static str {
    match claim {
        Claimed::Excerpt => { "anonymous = [\"code\", \"birthdate\", \"name\"]\nshift = -86400\n" }
        Claimed::NoName => "anonymous = [\"name\"]\n",
        Claimed::NoPatientExtras => "anonymous = [\"patient-extras\"]\n",
        Claimed::NoDate => "anonymous = [\"date\"]\n",
        Claimed::NoLights => "remove = [\"Lights off\"]\n",
        Claimed::BlankApnea => "blank = [\"Apnea\"]\n",
        Claimed::NoLightsByBegin => "remove-prefix = [\"Lights\"]\n",
        Claimed::NoApnea => "remove = [\"Apnea\"]\nblank = [\"Apnea\"]\n",
        Claimed::Late => "shift = 3087331200\n",
        Claimed::LateAndDateless => "anonymous = [\"date\"]\nshift = 3087331200\n",
        _ => "",
    }
}

/// What a claim keeps: 4 s, but for three claims.
fn kept_of(claim: Claimed) -> &'static str {
    match claim {
        Claimed::Temp => "[[keep]]\nfrom = \"0\"\nto = \"6\"\n",
        Claimed::Excerpt => "[[keep]]\nfrom = \"1\"\nto = \"3\"\n",
        Claimed::Gap => {
            "[[keep]]\nfrom = \"0\"\nto = \"1\"\n[[keep]]\nfrom = \"3\"\nto = \"4\"\n"
        }
        _ => "[[keep]]\nfrom = \"0\"\nto = \"4\"\n",
    }
}

/// The text of a claim. The error is want of memory.
pub fn claim_text(alloc: Global, claim: Claimed) -> Result<Vec<u8>, AllocError> {
    let mut text = Vec::new(alloc);
    for part in [front_of(claim), changes_of(claim), kept_of(claim)] {
        text.extend_from_slice(part.as_bytes())?;
    }
    Ok(text)
}
