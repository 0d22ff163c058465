//! Runs and checks of sources that give single bytes, fail, or have no end.

use crate::night::{ALL, SIX_SECONDS, YES};
use edf_check::{check, run};
use edf_claim::Claim;
use edf_fields::SliceSink;
use edf_stop::{CheckStop, RunStop, Side};
use edf_test_files::{LANES, Tape, dripping, endless, recorded, small_file, tape_of};
use std::alloc::Global;
use std::process::Abort;
use std::test::Fail;

/// How a run of these sources ended where it stopped, and what it wrote.
fn ran_from(
    alloc: Global,
    original: &mut Tape,
    export: &mut Tape,
    claim: &str,
) -> Result<(Option<RunStop>, String), Fail> {
    let mut room = [0; 64];
    let mut line = SliceSink::new(&mut room);
    let stop = run(alloc, original, export, claim.as_bytes(), &mut line).err();
    let line = String::from_utf8(Vec::from_slice(alloc, line.written())?)?;
    Ok((stop, line))
}

/// How many bytes of the longer file the export has, and the line.
const LENGTHS: &[(usize, &str)] = &[
    (804, "YES channels 1 samples 2 annotations 0\n"),
    (803, "NO 2 export fault: Truncated at record 0\n"),
    (805, "NO 2 export fault: TrailingBytes at end\n"),
    (0, "NO 2 export fault: Truncated at header field version\n"),
];

#[test]
fn reads_byte_by_byte(rt: HostRuntime) -> Result<(), Fail> {
    let alloc = rt.alloc();
    let mut longer = small_file(alloc)?;
    longer.push(0)?;
    for (count, want) in LENGTHS {
        let mut first = dripping(longer.get(..804).unwrap_or(&[]), 1, u32::MAX);
        let mut second = dripping(longer.get(..*count).unwrap_or(&[]), 1, u32::MAX);
        let (stop, line) = ran_from(alloc, &mut first, &mut second, SIX_SECONDS)?;
        assert_eq!(rt; (stop, line.as_str()), (None, *want));
    }
    Ok(())
}

/// Eleven reads take the header of the reference file, its fixed part and ten columns, one takes each of its four data
/// records, and one asks for a byte behind them.
const READS: u32 = 16;

/// Asserts whose failed read is answered where so many reads of the original and of the export pass.
fn assert_stop(rt: &impl Abort, alloc: Global, passes: (u32, u32), side: Side) -> Result<(), Fail> {
    let file = recorded(alloc, &[], LANES)?;
    let mut first = tape_of(&file, passes.0);
    let mut second = tape_of(&file, passes.1);
    let (stop, line) = ran_from(alloc, &mut first, &mut second, ALL)?;
    assert_eq!(rt;
        (stop, line.as_str()),
        (Some(RunStop::ReadFailed(side)), "")
    );
    let failures = first.failures.saturating_add(second.failures);
    assert_eq!(rt; failures, 1);
    let claim = Claim::read(alloc, ALL.as_bytes())?;
    let mut first = tape_of(&file, passes.0);
    let mut second = tape_of(&file, passes.1);
    let stop = check(alloc, &mut first, &mut second, &claim).err();
    assert_eq!(rt; stop, Some(CheckStop::ReadFailed(side)));
    Ok(())
}

#[test]
fn answers_each_failed_read_of_the_original(rt: HostRuntime) -> Result<(), Fail> {
    for passes in 0..READS {
        assert_stop(&rt, rt.alloc(), (passes, READS), Side::Original)?;
    }
    Ok(())
}

#[test]
fn answers_each_failed_read_of_the_export(rt: HostRuntime) -> Result<(), Fail> {
    for passes in 0..READS {
        assert_stop(&rt, rt.alloc(), (READS, passes), Side::Export)?;
    }
    Ok(())
}

#[test]
fn reads_each_file_once(rt: HostRuntime) -> Result<(), Fail> {
    let alloc = rt.alloc();
    let file = recorded(alloc, &[], LANES)?;
    let mut first = tape_of(&file, READS);
    let mut second = tape_of(&file, READS);
    let (stop, line) = ran_from(alloc, &mut first, &mut second, ALL)?;
    assert_eq!(rt; (stop, line.as_str()), (None, YES));
    assert_eq!(rt; (first.reads, second.reads), (READS, READS));
    Ok(())
}

#[test]
fn asks_for_one_byte_behind_the_end(rt: HostRuntime) -> Result<(), Fail> {
    let alloc = rt.alloc();
    let file = recorded(alloc, &[], LANES)?;
    let mut first = tape_of(&file, READS);
    let mut second = endless(&file, usize::MAX, READS);
    let (stop, line) = ran_from(alloc, &mut first, &mut second, ALL)?;
    let want = "NO 2 export fault: TrailingBytes at end\n";
    assert_eq!(rt; (stop, line.as_str()), (None, want));
    Ok(())
}

/// Where the export has a fault, the original is read to its end.
#[test]
fn reads_the_original_of_a_bad_export(rt: HostRuntime) -> Result<(), Fail> {
    let alloc = rt.alloc();
    let file = recorded(alloc, &[], LANES)?;
    let mut first = tape_of(&file, READS);
    let mut second = tape_of(b"", READS);
    let (stop, line) = ran_from(alloc, &mut first, &mut second, ALL)?;
    let want = "NO 2 export fault: Truncated at header field version\n";
    assert_eq!(rt; (stop, line.as_str()), (None, want));
    assert_eq!(rt; (first.reads, first.failures), (READS, 0));
    Ok(())
}

/// How much is left of an original that breaks off, its fault, and how often the export is read then: not at all, or
/// its header and its first data record.
const BROKEN: &[(usize, &str, u32)] = &[
    (
        0,
        "NO 1 original fault: Truncated at header field version\n",
        0,
    ),
    (1050, "NO 1 original fault: Truncated at record 0\n", 0),
    (1090, "NO 1 original fault: Truncated at record 1\n", 12),
];

/// Behind a fault of the original the export isn't read on.
#[test]
fn reads_no_more_behind_a_bad_original(rt: HostRuntime) -> Result<(), Fail> {
    let alloc = rt.alloc();
    let file = recorded(alloc, &[], LANES)?;
    for (count, want, reads) in BROKEN {
        let mut first = tape_of(file.get(..*count).unwrap_or(&[]), READS);
        let mut second = tape_of(&file, READS);
        let (stop, line) = ran_from(alloc, &mut first, &mut second, ALL)?;
        assert_eq!(rt; (stop, line.as_str()), (None, *want));
        assert_eq!(rt; second.reads, *reads);
    }
    Ok(())
}
