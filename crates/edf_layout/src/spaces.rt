//! The spaces between the subfields of a text (EDF+, "Additional specifications in EDF+").

ghost use Rattle.std.specs.Prelude.{◌≡◌, ◌++◌, IfOk, OnOk};
ghost use Rattle.edf_layout.specs.Spaces.{spaces_of as spaces_in, stretch};

use std::alloc::{AllocError, Global};

/// Puts a stretch of so many spaces behind the counts, if there is one.
fn push_stretch(counts: &mut Vec<usize>, count: usize) -> Result<(), AllocError>
    ensures { OnOk result (counts.new.items ≡ counts.old.items ++ stretch count) }
{
    if count > 0 {
        counts.push(count)?;
    }
    Ok(())
}

/// How many spaces stand in each stretch of them, in order.
///
/// The error is want of memory.
pub fn spaces_of(alloc: Global, text: &[u8]) -> Result<Vec<usize>, AllocError>
    ensures { IfOk result (λ counts. counts.items ≡ spaces_in text.now) }
{
    let mut counts = Vec::new(alloc);
    let mut from = 0;
    for (at, byte) in text.iter().enumerate() {
        if *byte != b' ' {
            push_stretch(&mut counts, at - from)?;
            from = at + 1;
        }
    }
    push_stretch(&mut counts, text.len() - from)?;
    Ok(counts)
}
