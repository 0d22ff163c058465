//! A run into a sink that is soon full or fails at one of its writes, and runs under a text that says no claim.

use crate::night::{ALL, SIX_SECONDS, YES};
use edf_check::run;
use edf_claim::ClaimStop;
use edf_fields::{FaultySink, SliceSink, SliceSource};
use edf_stop::RunStop;
use edf_test_files::{LANES, recorded, small_file};
use edf_verdict::Outcome;
use std::alloc::{AllocError, Global};
use std::test::Fail;

/// How a run ended, and what stands in its sink then.
type Ended = (Result<Outcome, RunStop>, Vec<u8>);

/// Runs the reference file under a claim, into a sink of so many bytes.
fn ran_into(alloc: Global, count: usize, claim: &str) -> Result<Ended, AllocError> {
    let file = recorded(alloc, &[], LANES)?;
    let mut room = vec![in alloc; 0; count]?;
    let mut first = SliceSource::new(&file);
    let mut second = SliceSource::new(&file);
    let mut sink = SliceSink::new(&mut room);
    let ended = run(alloc, &mut first, &mut second, claim.as_bytes(), &mut sink);
    let written = Vec::from_slice(alloc, sink.written())?;
    Ok((ended, written))
}

#[test]
fn holds_the_front_of_the_line(rt: HostRuntime) -> Result<(), Fail> {
    let alloc = rt.alloc();
    for count in [0usize, 1, 4, 39] {
        let (ended, written) = ran_into(alloc, count, ALL)?;
        assert_eq!(rt; ended, Err(RunStop::WriteFailed));
        assert_eq!(rt; &written[..], YES.as_bytes().get(..count).unwrap_or(&[]));
    }
    let (ended, written) = ran_into(alloc, 40, ALL)?;
    assert_eq!(rt; ended, Ok(Outcome::Yes));
    assert_eq!(rt; &written[..], YES.as_bytes());
    Ok(())
}

/// The line of the small file, cut to six seconds.
const SMALL: &str = "YES channels 1 samples 2 annotations 0\n";

/// A run of the small file whose sink takes one byte a write, and fails behind so many.
fn ran_with(alloc: Global, passes: u64) -> Result<Ended, AllocError> {
    let file = small_file(alloc)?;
    let mut room = [0; 64];
    let mut first = SliceSource::new(&file);
    let mut second = SliceSource::new(&file);
    let mut sink = FaultySink::new(SliceSink::new(&mut room), passes, 1);
    let text = SIX_SECONDS.as_bytes();
    let ended = run(alloc, &mut first, &mut second, text, &mut sink);
    let written = Vec::from_slice(alloc, sink.inner().written())?;
    Ok((ended, written))
}

#[test]
fn stops_at_each_failed_write(rt: HostRuntime) -> Result<(), Fail> {
    for passes in 0..SMALL.len() {
        let (ended, written) = ran_with(rt.alloc(), passes as u64)?;
        assert_eq!(rt; ended, Err(RunStop::WriteFailed));
        assert_eq!(rt; &written[..], SMALL.as_bytes().get(..passes).unwrap_or(&[]));
    }
    let (ended, written) = ran_with(rt.alloc(), SMALL.len() as u64)?;
    assert_eq!(rt; ended, Ok(Outcome::Yes));
    assert_eq!(rt; &written[..], SMALL.as_bytes());
    Ok(())
}

/// Texts that say no claim, and why.
const REFUSED: &[(&str, ClaimStop)] = &[
    ("format =", ClaimStop::NotToml),
    ("", ClaimStop::BadFormat),
    ("format = 1\nnote = 1\n", ClaimStop::UnknownKey),
    ("format = 1\nchannels = []\n", ClaimStop::BadChannels),
    (
        "format = 1\nchannels = [\"ECG\"]\n[[keep]]\nfrom = \"0\"\nto = \"0\"\n",
        ClaimStop::BadKeep,
    ),
    (
        "format = 1\nchannels = [\"ECG\"]\nanonymous = [\"street\"]\n[[keep]]\nfrom = \"0\"\nto = \"1\"\n",
        ClaimStop::BadAnonymous,
    ),
    (
        "format = 1\nchannels = [\"ECG\"]\nshift = 10000000001\n[[keep]]\nfrom = \"0\"\nto = \"1\"\n",
        ClaimStop::BadShift,
    ),
    (
        "format = 1\nchannels = [\"ECG\"]\nremove = [\"a\", \"a\"]\n[[keep]]\nfrom = \"0\"\nto = \"1\"\n",
        ClaimStop::BadRemove,
    ),
    (
        "format = 2\nchannels = [\"ECG\"]\nremove-prefix = [\"\"]\n[[keep]]\nfrom = \"0\"\nto = \"1\"\n",
        ClaimStop::BadRemovePrefix,
    ),
    (
        "format = 2\nchannels = [\"ECG\"]\nblank = [\"a\", \"a\"]\n[[keep]]\nfrom = \"0\"\nto = \"1\"\n",
        ClaimStop::BadBlank,
    ),
];

#[test]
fn writes_nothing_under_a_refused_claim(rt: HostRuntime) -> Result<(), Fail> {
    for (claim, cause) in REFUSED {
        let (ended, written) = ran_into(rt.alloc(), 64, claim)?;
        assert_eq!(rt; ended, Err(RunStop::Claim(*cause)));
        assert!(rt; written.is_empty());
    }
    Ok(())
}
