//! What a claim hides, and whether a text has what is spelled alike.

use crate::folded::{Marks, fold};
use crate::needle::{INITIALS, Needle, has_initials, is_between_words, is_particle};
use edf_claim::Claim;
use edf_fields::{Subfields, Which, dashed_date};
use edf_header::Header;
use std::alloc::{AllocError, Global};

/// What is looked for in texts: what a claim hides of an original, and the patient's name.
#[derive(Drop)]
pub(crate) struct Hidden {
    alloc: Global,
    needles: Vec<Needle>,
    /// The initials of who recorded, where there are some, in capitals.
    initials: Vec<u8>,
    /// Whether a needle has this byte as its first, or as its second.
    firsts: [bool; 256],
    seconds: [bool; 256],
    /// The text that is looked at, folded.
    folded: Vec<u8>,
}

/// Notes that a needle has this byte.
fn mark(bytes: &mut [bool; 256], byte: Option<&u8>) {
    if let Some(byte) = byte
        && let Some(place) = bytes.get_mut(usize::from(*byte))
    {
        *place = true;
    }
}

/// Whether a needle has this byte.
fn is_marked(bytes: &[bool; 256], byte: Option<&u8>) -> bool {
    match byte {
        Some(byte) => bytes.get(usize::from(*byte)) == Some(&true),
        None => false,
    }
}

impl Hidden {
    /// Nothing so far.
    fn none(alloc: Global) -> Hidden {
        Hidden {
            alloc,
            needles: Vec::new(alloc),
            initials: Vec::new(alloc),
            firsts: [false; 256],
            seconds: [false; 256],
            folded: Vec::new(alloc),
        }
    }

    /// What is looked for under a claim.
    pub(crate) fn of(
        alloc: Global,
        claim: &Claim,
        original: &Header,
    ) -> Result<Hidden, AllocError> {
        let mut hidden = Hidden::none(alloc);
        for which in Which::all() {
            if *which == Which::Name || claim.is_anonymous(*which) {
                hidden.add_subfield(original, *which)?;
            }
        }
        Ok(hidden)
    }

    /// Adds a subfield of the original.
    fn add_subfield(&mut self, original: &Header, which: Which) -> Result<(), AllocError> {
        let patient = original.patient();
        let recording = original.recording();
        match which {
            Which::Code => self.add(which, patient.code()),
            Which::Sex => Ok(()),
            Which::Birthdate => self.add_date(which, patient.birthdate()),
            Which::Name => self.add_words(which, patient.name()),
            Which::PatientExtras => self.add_all(which, patient.extras()),
            Which::Date => self.add_date(which, recording.date()),
            Which::Administration => self.add(which, recording.admin()),
            Which::Technician => self.add_technician(recording.technician()),
            Which::Equipment => self.add_words(which, recording.equipment()),
            Which::RecordingExtras => self.add_all(which, recording.extras()),
        }
    }

    /// Adds a text that is looked for as a whole, where it isn't too short.
    fn add(&mut self, which: Which, text: &[u8]) -> Result<(), AllocError> {
        if let Some(needle) = Needle::of(self.alloc, which, text)? {
            mark(&mut self.firsts, needle.bytes.get(0));
            mark(&mut self.seconds, needle.bytes.get(1));
            self.needles.push(needle)?;
        }
        Ok(())
    }

    /// Adds each word of a text.
    fn add_words(&mut self, which: Which, text: &[u8]) -> Result<(), AllocError> {
        for word in text.split(is_between_words) {
            if !is_particle(word) {
                self.add(which, word)?;
            }
        }
        Ok(())
    }

    /// Adds each word of some subfields.
    fn add_all(&mut self, which: Which, subfields: Subfields<'_>) -> Result<(), AllocError> {
        for subfield in subfields {
            self.add_words(which, subfield)?;
        }
        Ok(())
    }

    /// Adds who recorded: words, or initials alone.
    fn add_technician(&mut self, text: &[u8]) -> Result<(), AllocError> {
        if text.len() == INITIALS && text.is_ascii() {
            self.initials.clear();
            self.initials.extend_from_slice(text)?;
            self.initials.make_ascii_uppercase();
            return Ok(());
        }
        self.add_words(Which::Technician, text)
    }

    /// Adds a day in its usual spellings.
    fn add_date(&mut self, which: Which, text: &[u8]) -> Result<(), AllocError> {
        let Some(date) = dashed_date(text) else {
            return Ok(());
        };
        let (year, month, day) = (date.year(), date.month(), date.day());
        let short = i32::from(year).rem_euclid(100);
        let alloc = self.alloc;
        self.add(which, text)?;
        for spelled in [
            format!(in alloc; "{day:02}.{month:02}.{year:04}")?,
            format!(in alloc; "{day}.{month}.{year:04}")?,
            format!(in alloc; "{day:02}.{month:02}.{short:02}")?,
            format!(in alloc; "{day}.{month}.{short:02}")?,
            format!(in alloc; "{year:04}-{month:02}-{day:02}")?,
            format!(in alloc; "{day:02}/{month:02}/{year:04}")?,
            format!(in alloc; "{month:02}/{day:02}/{year:04}")?,
        ] {
            self.add(which, spelled.as_bytes())?;
        }
        Ok(())
    }

    /// Whether nothing is looked for.
    pub(crate) fn is_empty(&self) -> bool {
        self.needles.is_empty() && self.initials.is_empty()
    }

    /// Whether a needle may stand at a place of the folded text.
    fn may_stand_at(&self, place: usize) -> bool {
        is_marked(&self.firsts, self.folded.get(place))
            && is_marked(&self.seconds, self.folded.get(place.saturating_add(1)))
    }

    /// The subfield of which something stands at a place of the folded text.
    fn found_at(&self, place: usize, but: Option<Which>) -> Option<Which> {
        for needle in &self.needles {
            if but != Some(needle.which) && needle.stands_at(&self.folded, place) {
                return Some(needle.which);
            }
        }
        None
    }

    /// The subfield of which something stands in a text, by one spelling of its marks.
    fn found_by(
        &mut self,
        text: &str,
        marks: Marks,
        but: Option<Which>,
    ) -> Result<Option<Which>, AllocError> {
        fold(self.alloc, &mut self.folded, text, marks)?;
        for place in 0..self.folded.len() {
            if self.may_stand_at(place)
                && let Some(which) = self.found_at(place, but)
            {
                return Ok(Some(which));
            }
        }
        Ok(None)
    }

    /// Whether the initials of who recorded stand in a text.
    fn has_initials_in(&self, text: &[u8], but: Option<Which>) -> bool {
        !self.initials.is_empty()
            && but != Some(Which::Technician)
            && has_initials(text, &self.initials)
    }

    /// The subfield of which something is spelled in a text, but for one subfield.
    pub(crate) fn found_in(
        &mut self,
        text: &str,
        but: Option<Which>,
    ) -> Result<Option<Which>, AllocError> {
        let found = self.found_by(text, Marks::AsLetters, but)?;
        if found.is_some() {
            return Ok(found);
        }
        if self.has_initials_in(text.as_bytes(), but) {
            return Ok(Some(Which::Technician));
        }
        if text.is_ascii() {
            return Ok(None);
        }
        self.found_by(text, Marks::Dropped, but)
    }
}
