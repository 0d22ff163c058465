//! What a person has to know of the files before their draft is confirmed, each as a comment of TOML.

use crate::kept::back::{Back, moved_stretches, times_beside};
use edf_fields::DAY_PS;
use edf_header::Header;
use edf_heads::ChannelIndex;
use edf_recording::{Recorded, Times};
use edf_verdict::push_quoted;
use std::alloc::{AllocError, Global};

/// What a draft rests on.
#[derive(Clone, Copy)]
pub struct Basis<'a> {
    /// Its shift, in seconds.
    pub shift: i64,
    /// Whether the starts of the two files tell it, or their samples do.
    pub is_told: bool,
    /// The shifts by which samples of the export are samples of the original, where these tell it, and not the starts.
    pub fits: &'a [i64],
    /// Whether it looks like files were swapped.
    pub are_swapped: bool,
    /// Whether there are several exports.
    pub are_several: bool,
}

/// What stands in a draft where the starts of the two files don't tell a shift.
const UNTOLD: &str = "
# NOT TOLD by the starts: no shift by whole days puts the export into the time of the original. The shift below lets
# both begin together, which is a guess, and the intervals follow from it. Set both right before anything else.
";

/// What stands in a draft whose shift was found by the samples.
const BY_SAMPLES: &str = "
# TOLD BY THE SAMPLES: with the shift below, samples of the export are samples of the original. The starts alone tell
# another shift, or none.
";

/// What stands in a draft by which nothing is moved.
const NOT_MOVED: &str = "
# NOT MOVED: with a shift of 0 the header of the export has the day and the time of the original's own clock, also where
# the date is hidden. Confirm that this was meant.
";

const SWAPPED: &str = "
# It looks like the two files were swapped. The order is: the original, the export.
";

/// The same where there are several exports.
const SWAPPED_PARTS: &str = "
# It looks like another file was typed in place of the original. The order is: the original, the exports.
";

/// Says which channels the original lacks.
fn say_channels(
    text: &mut String,
    alloc: Global,
    original: &Header,
    export: &Header,
) -> Result<(), AllocError> {
    let originals = ChannelIndex::new(alloc, original)?;
    for signal in export.signals() {
        if !signal.is_annotations() && originals.channel(signal.label()).is_none() {
            let mut quoted = Vec::new(alloc);
            push_quoted(&mut quoted, signal.label())?;
            if let Ok(label) = str::from_utf8(&quoted) {
                let line = format!(in alloc;
                    "\n# NOT IN THE ORIGINAL: channel {label}. With it in the export no claim is a Yes.\n"
                )?;
                text.push_str(&line)?;
            }
        }
    }
    Ok(())
}

/// Says how many annotations the export has beside the time of its data records.
fn say_beside(
    text: &mut String,
    alloc: Global,
    original: &Recorded,
    export: &Recorded,
    shift: i64,
) -> Result<(), AllocError> {
    let back = Back::new(original.start_second(), export.start_second(), shift);
    let stretches = moved_stretches(alloc, export, back)?;
    let beside = times_beside(alloc, &export.notes, &stretches, back)?;
    if beside.is_empty() {
        return Ok(());
    }
    let line = format!(in alloc;
        "\n# BESIDE THE DATA RECORDS: {} of the export's annotations begin outside of the time that its data records cover. The\n# intervals below reach to them where they can. Confirm that these were to go out.\n",
        beside.len()
    )?;
    text.push_str(&line)
}

/// The least and the greatest number of days by which an export lies in the time of the original.
fn fitting_days(original: Times, export: Times) -> (i128, i128) {
    let least = original.end_ps.saturating_sub(export.end_ps);
    let greatest = export.begin_ps.saturating_sub(original.begin_ps);
    (
        least.div_euclid(DAY_PS).saturating_neg(),
        greatest.div_euclid(DAY_PS),
    )
}

/// Says which other days fit as well.
fn say_days(
    text: &mut String,
    alloc: Global,
    original: &Recorded,
    export: &Recorded,
) -> Result<(), AllocError> {
    let (least, greatest) = fitting_days(original.times, export.times);
    if least < greatest {
        let line = format!(in alloc;
            "\n# OTHER DAYS FIT AS WELL: with a shift by {least} to {greatest} whole days the export lies in the time of the original.\n"
        )?;
        text.push_str(&line)?;
    }
    Ok(())
}

/// Says that the samples tell the shift, and which other shifts they tell as well.
fn say_fits(text: &mut String, alloc: Global, basis: Basis<'_>) -> Result<(), AllocError> {
    text.push_str(BY_SAMPLES)?;
    for shift in basis.fits {
        if *shift != basis.shift {
            let line = format!(in alloc;
                "# ANOTHER SHIFT FITS AS WELL: the same samples are also samples of the original with shift = {shift}.\n"
            )?;
            text.push_str(&line)?;
        }
    }
    Ok(())
}

/// What a person should know of an original and of one export, or several as one recording, and of the shift that their draft has.
pub fn doubts_of(
    alloc: Global,
    original: &Recorded,
    export: &Recorded,
    basis: Basis<'_>,
) -> Result<String, AllocError> {
    let mut text = String::new(alloc);
    if basis.are_swapped {
        text.push_str(if basis.are_several {
            SWAPPED_PARTS
        } else {
            SWAPPED
        })?;
    }
    if !basis.is_told {
        text.push_str(UNTOLD)?;
    } else if basis.fits.is_empty() {
        say_days(&mut text, alloc, original, export)?;
    } else {
        say_fits(&mut text, alloc, basis)?;
    }
    if basis.shift == 0 {
        text.push_str(NOT_MOVED)?;
    }
    say_beside(&mut text, alloc, original, export, basis.shift)?;
    say_channels(
        &mut text,
        alloc,
        original.reader.header(),
        export.reader.header(),
    )?;
    Ok(text)
}
