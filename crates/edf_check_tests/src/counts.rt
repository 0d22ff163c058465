//! Which annotations don't stand equally often in two lists in order.

use edf_pace::only_in_one;
use edf_stream::{Note, OwnText};
use std::alloc::{AllocError, Global};
use std::test::Fail;

/// Annotations without durations: the onset of each, and its text.
type Texts<'a> = &'a [(i128, &'a str)];

fn notes(alloc: Global, texts: Texts<'_>) -> Result<Vec<Note>, AllocError> {
    let mut notes = Vec::new(alloc);
    for (onset, text) in texts {
        notes.push(Note {
            onset: *onset,
            duration: None,
            text: OwnText::new(alloc, text)?,
        })?;
    }
    Ok(notes)
}

/// What is kept, what the export has, and the places of those that only one of them has.
const CASES: &[(Texts, Texts, &[usize], &[usize])] = &[
    (&[], &[], &[], &[]),
    (&[(1, "a"), (2, "b")], &[(1, "a"), (2, "b")], &[], &[]),
    (
        &[(1, "a"), (2, "b"), (2, "b")],
        &[(2, "b"), (3, "c")],
        &[0, 2],
        &[1],
    ),
    (&[], &[(5, "y"), (5, "z")], &[], &[0, 1]),
    (&[(4, "a"), (9, "end")], &[(3, "a")], &[0, 1], &[0]),
];

#[test]
fn finds_annotations(rt: HostRuntime) -> Result<(), Fail> {
    for (kept, exported, missing, extra) in CASES {
        let kept = notes(rt.alloc(), kept)?;
        let exported = notes(rt.alloc(), exported)?;
        let only = only_in_one(rt.alloc(), &kept, &exported)?;
        assert_eq!(rt; only.missing.as_slice(), *missing);
        assert_eq!(rt; only.extra.as_slice(), *extra);
    }
    Ok(())
}
