//! What a claim makes of the texts of annotations.

ghost use Rattle.std.specs.Prelude.{◌≡◌, ◌||◌, map, IfOk};
ghost use Rattle.std.specs.List.{list_any};
ghost use Rattle.edf_claim.specs.KeepsReading.{IsIndex, IsPrefixIndex, begins_with};
ghost use Rattle.edf_fields.specs.Lists.{is_one_of};

use crate::kept::prefixes::{begins_with_one, shortest_copies};
use crate::reading::text_arrays::{is_found, sorted_copies};
use std::alloc::{AllocError, Global};

/// The texts of annotations that a claim removes, those with which such texts begin, and those that it blanks.
///
/// They are asked for once for each annotation of a night. So beside each list stands one in which a text is
/// found by halves.
#[derive(Debug, Drop)]
pub(crate) struct NoteTexts {
    pub(crate) remove: Vec<Vec<u8>>,
    pub(crate) remove_prefix: Vec<Vec<u8>>,
    pub(crate) blank: Vec<Vec<u8>>,
    removed: Vec<Vec<u8>>,
    shortest: Vec<Vec<u8>>,
    blanked: Vec<Vec<u8>>,
    ghost removed_are: { IsIndex (map (λ t. t.items) remove.items) removed.items },
    ghost shortest_are: { IsPrefixIndex (map (λ t. t.items) remove_prefix.items) shortest.items },
    ghost blanked_are: { IsIndex (map (λ t. t.items) blank.items) blanked.items },
}

impl NoteTexts {
    /// These texts.
    ///
    /// The error is want of memory.
    pub(crate) fn new(
        alloc: Global,
        remove: Vec<Vec<u8>>,
        remove_prefix: Vec<Vec<u8>>,
        blank: Vec<Vec<u8>>,
    ) -> Result<NoteTexts, AllocError>
        ensures remove { IfOk result (λ texts. texts.remove ≡ remove) }
        ensures remove_prefix { IfOk result (λ texts. texts.remove_prefix ≡ remove_prefix) }
        ensures blank { IfOk result (λ texts. texts.blank ≡ blank) }
    {
        let removed = sorted_copies(alloc, &remove)?;
        let shortest = shortest_copies(alloc, &remove_prefix)?;
        let blanked = sorted_copies(alloc, &blank)?;
        Ok(NoteTexts {
            remove,
            remove_prefix,
            blank,
            removed,
            shortest,
            blanked,
        })
    }

    /// Whether the text is one of those that are removed.
    fn is_listed(&self, text: &[u8]) -> bool
        ensures { result ≡ is_one_of (map (λ t. t.items) self.now.remove.items) text.now }
    {
        is_found(&self.removed, text)
    }

    /// Whether the text begins with one of the prefixes.
    fn is_begun(&self, text: &[u8]) -> bool
        ensures { result ≡ list_any (λ prefix. begins_with prefix text.now)
            (map (λ t. t.items) self.now.remove_prefix.items) }
    {
        begins_with_one(&self.shortest, text)
    }

    /// Whether annotations with this text are removed.
    pub(crate) fn is_removed(&self, text: &[u8]) -> bool
        ensures { result ≡
            (is_one_of (map (λ t. t.items) self.now.remove.items) text.now || list_any (λ prefix.
            begins_with prefix text.now) (map (λ t. t.items) self.now.remove_prefix.items)) }
    {
        self.is_listed(text) || self.is_begun(text)
    }

    /// Whether the text is blanked.
    pub(crate) fn is_blanked(&self, text: &[u8]) -> bool
        ensures { result ≡ is_one_of (map (λ t. t.items) self.now.blank.items) text.now }
    {
        is_found(&self.blanked, text)
    }
}
