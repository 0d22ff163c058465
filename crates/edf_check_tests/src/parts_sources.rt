//! Runs and checks of several exports whose sources fail.

use crate::night::ALL;
use edf_check::{check_parts, run_parts};
use edf_claim::Claim;
use edf_fields::SliceSink;
use edf_stop::{PartSide, PartsRunStop, PartsStop};
use edf_test_files::{LANES, Tape, recorded, tape_of};
use edf_verdict::{PartsVerdict, Verdict};
use std::alloc::Global;
use std::process::Abort;
use std::test::Fail;

/// So many reads take the reference file (`sources.rt`).
const READS: u32 = 16;

/// How a run of the reference file and three exports that are that file ended where it stopped, and what it wrote: so
/// many reads of each pass.
fn ran_from(
    alloc: Global,
    original: u32,
    passes: [u32; 3],
) -> Result<(Option<PartsRunStop>, String), Fail> {
    let file = recorded(alloc, &[], LANES)?;
    let mut first = tape_of(&file, original);
    let mut parts: [Tape; 3] = [
        tape_of(&file, passes[0]),
        tape_of(&file, passes[1]),
        tape_of(&file, passes[2]),
    ];
    let mut room = [0; 64];
    let mut line = SliceSink::new(&mut room);
    let stop = run_parts(alloc, &mut first, &mut parts, ALL.as_bytes(), &mut line).err();
    let line = String::from_utf8(Vec::from_slice(alloc, line.written())?)?;
    Ok((stop, line))
}

/// Asserts that no answer is given, and of which file a read failed.
fn assert_stop(
    rt: &impl Abort,
    alloc: Global,
    original: u32,
    passes: [u32; 3],
    side: PartSide,
) -> Result<(), Fail> {
    let (stop, line) = ran_from(alloc, original, passes)?;
    assert_eq!(rt;
        (stop, line.as_str()),
        (Some(PartsRunStop::ReadFailed(side)), "")
    );
    Ok(())
}

#[test]
fn names_the_file_of_which_a_read_failed(rt: HostRuntime) -> Result<(), Fail> {
    let alloc = rt.alloc();
    for passes in 0..READS {
        assert_stop(&rt, alloc, passes, [READS; 3], PartSide::Original)?;
        assert_stop(&rt, alloc, READS, [passes, READS, READS], PartSide::Part(0))?;
        assert_stop(&rt, alloc, READS, [READS, passes, READS], PartSide::Part(1))?;
        assert_stop(&rt, alloc, READS, [READS, READS, passes], PartSide::Part(2))?;
    }
    Ok(())
}

#[test]
fn answers_where_no_read_fails(rt: HostRuntime) -> Result<(), Fail> {
    let (stop, line) = ran_from(rt.alloc(), READS, [READS; 3])?;
    assert_eq!(rt;
        (stop, line.as_str()),
        (None, "NO 12 part 1 starts early\n")
    );
    Ok(())
}

#[test]
fn checks_a_single_part(rt: HostRuntime) -> Result<(), Fail> {
    let alloc = rt.alloc();
    let file = recorded(alloc, &[], LANES)?;
    let claim = Claim::read(alloc, ALL.as_bytes())?;
    let mut first = tape_of(&file, READS);
    let mut parts = [tape_of(&file, READS)];
    let want = PartsVerdict {
        part: 0,
        verdict: Verdict::Yes {
            channels: 2,
            samples: 24,
            annotations: 3,
        },
    };
    let found = check_parts(alloc, &mut first, &mut parts, &claim);
    assert_eq!(rt; found, Ok(want));
    let mut parts = [tape_of(&file, 0)];
    let mut first = tape_of(&file, READS);
    let stop = check_parts(alloc, &mut first, &mut parts, &claim).err();
    assert_eq!(rt; stop, Some(PartsStop::ReadFailed(PartSide::Part(0))));
    Ok(())
}
