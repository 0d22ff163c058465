//! Where an export has what is spelled like something that its claim hides.

use crate::hidden::Hidden;
use crate::read_texts::ReadTexts;
use crate::words;
use edf_claim::Claim;
use edf_fields::{Subfields, Which};
use edf_findings::{Notes, have_same_texts};
use edf_header::Header;
use edf_heads::is_anonymous;
use edf_sentences::{NOT_LISTED, Piece, Text};
use std::alloc::AllocError;

/// The most annotations that are listed.
const MOST_LISTED: usize = 20;

/// A search for what is hidden, and how often something was found.
#[derive(Drop)]
struct Search<'a> {
    text: &'a mut Text,
    hidden: Hidden,
    found: usize,
}

impl<'a> Search<'a> {
    /// The subfield of which something is spelled in a text of a header.
    fn found_in(&mut self, said: &[u8], but: Option<Which>) -> Result<Option<Which>, AllocError> {
        match std::str::from_utf8(said) {
            Ok(said) => self.hidden.found_in(said, but),
            Err(_) => Ok(None),
        }
    }

    /// Says which annotations of the export have something of it.
    fn say_notes(&mut self, notes: &Notes) -> Result<(), AllocError> {
        for note in &notes.exported {
            let said = note.text.as_str();
            if let Some(which) = self.hidden.found_in(said, None)? {
                if self.found < MOST_LISTED {
                    let pieces = [
                        Piece::Seconds(note.onset),
                        Piece::Quoted(said.as_bytes()),
                        Piece::Word(words::spelled(which)),
                    ];
                    self.text.say(words::NAME_IN_NOTE, &pieces)?;
                }
                self.found = self.found.saturating_add(1);
            }
        }
        match self.found.saturating_sub(MOST_LISTED) {
            0 => Ok(()),
            others => {
                let count = Piece::Number(others as i128);
                self.text.say(NOT_LISTED, &[count])
            }
        }
    }

    /// Says of a text of a channel that it has something of it, if it has.
    fn say_channel_text(&mut self, label: &[u8], said: &[u8]) -> Result<(), AllocError> {
        if let Some(which) = self.found_in(said, None)? {
            let pieces = [
                Piece::Quoted(label),
                Piece::Quoted(said),
                Piece::Word(words::spelled(which)),
            ];
            self.text.say(words::NAME_IN_CHANNEL, &pieces)?;
            self.found = self.found.saturating_add(1);
        }
        Ok(())
    }

    /// Says which channels of the export have something of it in their texts.
    fn say_channels(&mut self, export: &Header) -> Result<(), AllocError> {
        for signal in export.signals() {
            self.say_channel_text(signal.label(), signal.label())?;
            self.say_channel_text(signal.label(), signal.transducer())?;
            self.say_channel_text(signal.label(), signal.prefilter())?;
        }
        Ok(())
    }

    /// Says of a text of a subfield that it has something of another one, if it has.
    fn say_subfield(&mut self, which: Which, said: &[u8]) -> Result<(), AllocError> {
        if let Some(other) = self.found_in(said, Some(which))? {
            let pieces = [
                Piece::Word(which.name()),
                Piece::Quoted(said),
                Piece::Word(words::spelled(other)),
            ];
            self.text.say(words::NAME_IN_SUBFIELD, &pieces)?;
            self.found = self.found.saturating_add(1);
        }
        Ok(())
    }

    /// The same of each of some subfields.
    fn say_extras(&mut self, which: Which, extras: Subfields<'_>) -> Result<(), AllocError> {
        for said in extras {
            self.say_subfield(which, said)?;
        }
        Ok(())
    }

    /// The same of a subfield of the export.
    fn say_one(&mut self, export: &Header, which: Which) -> Result<(), AllocError> {
        let patient = export.patient();
        let recording = export.recording();
        match which {
            Which::Code => self.say_subfield(which, patient.code()),
            Which::Sex => Ok(()),
            Which::Birthdate => self.say_subfield(which, patient.birthdate()),
            Which::Name => self.say_subfield(which, patient.name()),
            Which::PatientExtras => self.say_extras(which, patient.extras()),
            Which::Date => self.say_subfield(which, recording.date()),
            Which::Administration => self.say_subfield(which, recording.admin()),
            Which::Technician => self.say_subfield(which, recording.technician()),
            Which::Equipment => self.say_subfield(which, recording.equipment()),
            Which::RecordingExtras => self.say_extras(which, recording.extras()),
        }
    }

    /// The same of each subfield that the claim doesn't hide.
    fn say_subfields(&mut self, claim: &Claim, export: &Header) -> Result<(), AllocError> {
        for which in Which::all() {
            if !claim.is_anonymous(*which) && !is_anonymous(export, *which) {
                self.say_one(export, *which)?;
            }
        }
        Ok(())
    }

    /// The same of the texts of a header.
    fn say_header(&mut self, claim: &Claim, export: &Header) -> Result<(), AllocError> {
        self.say_channels(export)?;
        self.say_subfields(claim, export)
    }
}

/// Says where an export has what is spelled like something that its claim hides, or like the patient's name; and, where
/// something was found, or the export is as claimed, what such a search doesn't find.
pub(crate) fn say_names(
    text: &mut Text,
    read: ReadTexts<'_>,
    is_as_claimed: bool,
) -> Result<(), AllocError> {
    let hidden = Hidden::of(text.alloc(), read.claim, read.original)?;
    if hidden.is_empty() {
        return Ok(());
    }
    let mut search = Search {
        text,
        hidden,
        found: 0,
    };
    search.say_notes(read.notes)?;
    search.say_header(read.claim, read.export)?;
    for part in read.others {
        if !have_same_texts(part.header(), read.export) {
            search.say_header(read.claim, part.header())?;
        }
    }
    if is_as_claimed || search.found > 0 {
        search.text.say(words::SPELLED_ALIKE, &[])?;
    }
    Ok(())
}
