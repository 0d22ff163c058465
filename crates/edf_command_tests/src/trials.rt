//! Tries: the check of two recordings that are opened anew, and the text of a claim with another shift, with other channels,
//! and with another end of an interval, which says in all else the same.

use edf_claim::Claim;
use edf_claim_text::{are_same_intervals, are_same_labels, are_same_subfields, are_same_texts};
use edf_stop::RunStop;
use edf_test_files::small_file;
use edf_trial::{SliceRecordings, check_anew, is_better, with_channels, with_end, with_shift};
use edf_verdict::Verdict;
use std::test::Fail;

/// A claim by which an export of the small file was moved a day on.
const CLAIM: &str =
    "# a day on\nformat = 1\nchannels = [\"Temp\"]\nshift = 86_400\nkeep = [{ from = \"0\", to = \"1\" }]\n";

/// What the check answers where it wasn't moved: it has two samples.
const YES: Verdict = Verdict::Yes {
    channels: 1,
    samples: 2,
    annotations: 0,
};

#[test]
fn another_shift_makes_a_yes(rt: HostRuntime) -> Result<(), Fail> {
    let file = small_file(rt.alloc())?;
    let again = SliceRecordings::new(&file, &file);
    let claimed = check_anew(rt.alloc(), &again, CLAIM.as_bytes());
    let text = with_shift(rt.alloc(), CLAIM.as_bytes(), 0)?;
    let tried = match &text {
        Some(text) => check_anew(rt.alloc(), &again, text),
        None => Err(RunStop::WriteFailed),
    };
    assert!(rt; text.is_some());
    assert!(rt; tried == Ok(YES));
    let is_named = match (&tried, &claimed) {
        (Ok(tried), Ok(claimed)) => is_better(tried, claimed) && !is_better(claimed, tried),
        _ => false,
    };
    assert!(rt; is_named);
    Ok(())
}

/// A claim that says something by each of its keys.
const WHOLE: &str =
    "format = 2\nchannels = [\"Temp\"]\nanonymous = [\"name\"]\nshift = 60\nremove = [\"Apnea\"]\n\
    remove-prefix = [\"Dr.\"]\nblank = [\"Haagse calls\"]\nkeep = [{ from = \"0\", to = \"1\" }]\n";

#[test]
fn a_shifted_claim_says_the_same_else(rt: HostRuntime) -> Result<(), Fail> {
    let claim = Claim::read(rt.alloc(), WHOLE.as_bytes())?;
    let other = match with_shift(rt.alloc(), WHOLE.as_bytes(), -60)? {
        Some(text) => Claim::read(rt.alloc(), &text)?,
        None => Claim::read(rt.alloc(), CLAIM.as_bytes())?,
    };
    assert!(rt; other.shift() == -60);
    assert!(rt; are_same_labels(claim.channels(), other.channels()));
    assert!(rt; are_same_intervals(claim.intervals(), other.intervals()));
    assert!(rt; are_same_subfields(claim.anonymous(), other.anonymous()));
    assert!(rt; are_same_texts(claim.removed(), other.removed()));
    assert!(rt; are_same_texts(claim.removed_by_begin(), other.removed_by_begin()));
    assert!(rt; are_same_texts(claim.blanked(), other.blanked()));
    assert!(rt; !are_same_texts(claim.blanked(), other.removed()));
    Ok(())
}

#[test]
fn what_is_no_claim_has_no_other_shift(rt: HostRuntime) -> Result<(), Fail> {
    assert!(rt; with_shift(rt.alloc(), b"format = 1\n", 0)?.is_none());
    assert!(rt; with_shift(rt.alloc(), b"format = ", 0)?.is_none());
    assert!(rt; with_shift(rt.alloc(), CLAIM.as_bytes(), 10_000_000_001)?.is_none());
    Ok(())
}

#[test]
fn other_channels_are_claimed(rt: HostRuntime) -> Result<(), Fail> {
    let file = small_file(rt.alloc())?;
    let again = SliceRecordings::new(&file, &file);
    let mut labels = Vec::new(rt.alloc());
    labels.push(Vec::from_slice(rt.alloc(), b"Temp")?)?;
    let other = "format = 1\nchannels = [\"Tmep\"]\nkeep = [{ from = \"0\", to = \"1\" }]\n";
    let tried = match with_channels(rt.alloc(), other.as_bytes(), &labels)? {
        Some(text) => check_anew(rt.alloc(), &again, &text),
        None => Err(RunStop::WriteFailed),
    };
    assert!(rt; tried == Ok(YES));
    labels.clear();
    assert!(rt; with_channels(rt.alloc(), other.as_bytes(), &labels)?.is_none());
    Ok(())
}

#[test]
fn an_interval_ends_a_picosecond_later(rt: HostRuntime) -> Result<(), Fail> {
    let claim = "format = 1\nchannels = [\"Temp\"]\nkeep = [{ from = \"0\", to = \"0.5\" }]\n";
    let text = with_end(rt.alloc(), claim.as_bytes(), 500_000_000_000)?;
    let kept = match &text {
        Some(text) => {
            let claim = Claim::read(rt.alloc(), text)?;
            claim.keeps_instant(500_000_000_000, 1) && !claim.keeps_instant(500_000_000_001, 1)
        }
        None => false,
    };
    assert!(rt; kept);
    assert!(rt; with_end(rt.alloc(), claim.as_bytes(), 400_000_000_001)?.is_none());
    Ok(())
}
