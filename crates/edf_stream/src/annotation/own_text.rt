//! The text of an annotation, where the annotation stands by itself.

ghost use Rattle.std.specs.Prelude.{◌≡◌, ◌≤◌, length, IfOk, IsOk, Some, refl};
ghost use Rattle.std.specs.Cmp.Lexicographic.{slice_cmp, nat_list_cmp_total, texts_po, texts_ties};
ghost use Rattle.std.specs.Cmp.Rules.{comparing};
ghost use Rattle.std.specs.Ordering.{nat_cmp};
ghost use Rattle.std.proofs.Common.{rules};
ghost use Rattle.edf_stream.specs.annotation.OwnTexts.{kept_bytes};

use arrayvec::ArrayString;
use std::alloc::{AllocError, Global};
use std::cmp::Ordering;
use std::marker::Model;

/// Where the bytes of a text lie.
#[derive(Debug, Drop)]
enum StoredText {
    Inline(ArrayString<16>),
    Apart(String),
}

/// The text of an annotation (EDF+, "Time-stamped Annotations Lists (TALs) in an 'EDF Annotations'
/// signal"), with no memory besides where it has at most 16 bytes. A file has up to 1,000,000 annotations,
/// and most of their texts are short.
///
/// Texts are ordered by their bytes.
#[derive(Debug, Drop)]
pub struct OwnText {
    kept: StoredText,
}

impl Model for OwnText {
    ghost use Rattle.std.specs.Prelude.{ℕ, List};
    ghost use Rattle.edf_stream.specs.annotation.OwnTexts.{kept_bytes};

    ghost Value = { List ℕ };

    ghost view = { λ t. kept_bytes t.kept };
}

impl OwnText {
    /// A copy of a text.
    ///
    /// The error is want of memory, of which a text of at most 16 bytes takes none.
    pub fn new(alloc: Global, text: &str) -> Result<OwnText, AllocError>
        ensures value { IfOk result (λ t. t ≡ text.now) }
        ensures short { length text.now ≤ 16 → IsOk result }
    {
        let kept = match ArrayString::from(text) {
            Ok(short) => StoredText::Inline(short),
            Err(_) => StoredText::Apart(String::from_str(alloc, text)?),
        };
        Ok(OwnText { kept })
    }

    /// Its characters.
    pub fn as_str(&self) -> &str
        ensures { result.now ≡ self.entry.now }
    {
        match &self.kept {
            StoredText::Inline(text) => text.as_str(),
            StoredText::Apart(text) => text.as_str(),
        }
    }
}

impl PartialEq for OwnText {
    ghost use Rattle.std.specs.Str.{bytes_eq};

    ghost eq = { bytes_eq };

    ghost laws = { Prim.search (comparing, rules) };

    fn eq(&self, other: &OwnText) -> bool {
        self.as_str().as_bytes() == other.as_str().as_bytes()
    }
}

impl Eq for OwnText {
    ghost laws = { Prim.search (comparing, rules) };
}

impl PartialOrd for OwnText {
    ghost partial_cmp = { λ x y. Some (slice_cmp nat_cmp x y) };

    ghost laws = { texts_po };

    fn partial_cmp(&self, other: &OwnText) -> Option<Ordering> {
        Some(self.cmp(other))
    }
}

impl Ord for OwnText {
    ghost cmp = { slice_cmp nat_cmp };

    ghost total = { nat_list_cmp_total };

    ghost matches_partial_cmp = { λ x y. refl };

    ghost matches_eq = { texts_ties };

    fn cmp(&self, other: &OwnText) -> Ordering {
        self.as_str().as_bytes().cmp(other.as_str().as_bytes())
    }
}
