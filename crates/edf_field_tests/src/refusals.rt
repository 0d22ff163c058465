//! A claim, and a text for each refusal.

use edf_claim::{Claim, ClaimStop};
use std::test::Fail;

/// Texts, and why they are refused, or none; `tests/cases/claim_texts.py` has many more.
const TEXTS: &[(&str, Option<ClaimStop>)] = &[
    (
        "format = 1\nchannels = ['ECG',]\nkeep = [{from = '0', to = '4'}]\n",
        None,
    ),
    ("format = ", Some(ClaimStop::NotToml)),
    ("", Some(ClaimStop::BadFormat)),
    ("format = 1\nnote = 1", Some(ClaimStop::UnknownKey)),
    ("format = 1\nchannels = []", Some(ClaimStop::BadChannels)),
    (
        "format = 1\nchannels = ['ECG']\nkeep = []",
        Some(ClaimStop::BadKeep),
    ),
    (
        "format = 1\nchannels = ['ECG']\nanonymous = [1]\nkeep = [{from = '0', to = '4'}]",
        Some(ClaimStop::BadAnonymous),
    ),
    (
        "format = 1\nchannels = ['ECG']\nshift = 1.0\nkeep = [{from = '0', to = '4'}]",
        Some(ClaimStop::BadShift),
    ),
    (
        "format = 1\nchannels = ['ECG']\nremove = ['a', 'a']\nkeep = [{from = '0', to = '4'}]",
        Some(ClaimStop::BadRemove),
    ),
    (
        "format = 2\nchannels = ['ECG']\nremove-prefix = ['a', 'ab']\nblank = ['']\nkeep = [{from = '0', to = '4'}]\n",
        None,
    ),
    ("format = 3\nblank = ['']", Some(ClaimStop::BadFormat)),
    (
        "format = 1\nchannels = ['ECG']\nblank = []\nkeep = [{from = '0', to = '4'}]",
        Some(ClaimStop::UnknownKey),
    ),
    (
        "format = 1\nchannels = ['ECG']\nremove-prefix = []\nkeep = [{from = '0', to = '4'}]",
        Some(ClaimStop::UnknownKey),
    ),
    (
        "format = 2\nchannels = ['ECG']\nremove-prefix = ['']\nblank = 1\nkeep = [{from = '0', to = '4'}]",
        Some(ClaimStop::BadRemovePrefix),
    ),
    (
        "format = 2\nchannels = ['ECG']\nblank = ['a', 'a']\nkeep = [{from = '0', to = '4'}]",
        Some(ClaimStop::BadBlank),
    ),
];

#[test]
fn judges_each_text(rt: HostRuntime) {
    for (text, want) in TEXTS {
        let stop = Claim::read(rt.alloc(), text.as_bytes()).err();
        assert_eq!(rt; stop, *want, "at {text}");
    }
}

/// The refusals and their names.
const NAMES: &[(ClaimStop, &str)] = &[
    (ClaimStop::OutOfMemory, "OutOfMemory"),
    (ClaimStop::TooLong, "TooLong"),
    (ClaimStop::NotToml, "NotToml"),
    (ClaimStop::BadFormat, "BadFormat"),
    (ClaimStop::UnknownKey, "UnknownKey"),
    (ClaimStop::BadChannels, "BadChannels"),
    (ClaimStop::BadKeep, "BadKeep"),
    (ClaimStop::BadAnonymous, "BadAnonymous"),
    (ClaimStop::BadShift, "BadShift"),
    (ClaimStop::BadRemove, "BadRemove"),
    (ClaimStop::BadRemovePrefix, "BadRemovePrefix"),
    (ClaimStop::BadBlank, "BadBlank"),
];

#[test]
fn names_each_refusal(rt: HostRuntime) -> Result<(), Fail> {
    for (stop, want) in NAMES {
        let text = stop.to_string(rt.alloc())?;
        assert_eq!(rt; text.as_str(), *want);
    }
    Ok(())
}
