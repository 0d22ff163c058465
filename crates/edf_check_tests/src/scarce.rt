//! Calls under ever more memory: each refused growth is answered, until there is enough.

ghost use Rattle.std.specs.Prelude.{◌<◌, ◌≤◌, length};

use crate::headers::{Answer, answer_of, claim, read};
use crate::night::{ALL, SIX_SECONDS};
use crate::timed::TimedSource;
use edf_check::{check, run, run_parts};
use edf_claim::{Claim, ClaimStop};
use edf_fields::{FixedField, Place, SignalField, SliceSink, SliceSource, Which};
use edf_header::Header;
use edf_heads::head_difference;
use edf_stop::{CheckStop, PartsRunStop, RunStop};
use edf_test_files::{LANES, Scarce, edited, push_lane, recorded, small_file};
use edf_verdict::Verdict;
use std::alloc::{AllocError, Global};
use std::process::Abort;
use std::test::Fail;

/// The most steps.
const STEPS: usize = 1200;

/// The size of the region that a step gives back, of which it leaves a part.
const REGION: usize = 40 << 10;

/// Two headers and a claim.
#[derive(Clone, Copy)]
struct TwoHeaders<'a> {
    original: &'a Header,
    export: &'a Header,
    claim: &'a Claim,
}

/// A run on two files under a claim, and its line.
#[derive(Clone, Copy)]
struct Run<'a> {
    original: &'a [u8],
    export: &'a [u8],
    claim: &'a str,
    line: &'a str,
}

/// One of the calls: reading a claim, refusing one, comparing two headers whose second channel has another
/// calibration, checking a file with this header that keeps the time for so many seconds against itself, a run, or
/// one that takes the export for the only one of several, or for the first two.
#[derive(Clone, Copy)]
enum Call<'a> {
    Claiming,
    Refusing,
    Comparing(TwoHeaders<'a>),
    Checking(&'a [u8], usize, &'a Claim),
    Running(Run<'a>),
    Alone(Run<'a>),
    Twice(Run<'a>),
}

/// Whether the comparison answers the calibration of the second channel; or none where it wants memory.
fn is_recalibrated(alloc: Global, pair: TwoHeaders) -> Option<bool> {
    let found = head_difference(alloc, pair.original, pair.export, pair.claim).ok()?;
    Some(answer_of(&found) == Answer::Calibration(b"ECG"))
}

/// Whether the check of a file of so many seconds against itself, with this header, answers how many samples
/// it has; or none where it wants memory.
fn is_taken(alloc: Global, header: &[u8], seconds: usize, claim: &Claim) -> Option<bool> {
    let mut original = TimedSource::new(header, seconds);
    let mut export = TimedSource::new(header, seconds);
    match check(alloc, &mut original, &mut export, claim) {
        Ok(Verdict::Yes { samples, .. }) => Some(samples == 6u64.saturating_mul(seconds as u64)),
        Err(CheckStop::OutOfMemory) => None,
        _ => Some(false),
    }
}

/// Whether the run writes its line; or none where it wants memory, and then it writes nothing.
fn is_run(alloc: Global, call: Run) -> Option<bool> {
    let mut room = [0u8; 128];
    let mut sink = SliceSink::new(&mut room);
    let mut first = SliceSource::new(call.original);
    let mut second = SliceSource::new(call.export);
    let ended = run(
        alloc,
        &mut first,
        &mut second,
        call.claim.as_bytes(),
        &mut sink,
    );
    let written = sink.written();
    match ended {
        Ok(_) => Some(written == call.line.as_bytes()),
        Err(RunStop::OutOfMemory) if written.is_empty() => None,
        Err(_) => Some(false),
    }
}

/// Whether the run over these exports writes the line; or none where it wants memory, and then it writes nothing.
fn is_run_over(alloc: Global, parts: &mut [SliceSource<'_>], call: Run) -> Option<bool>
    requires some { 0 < length parts.old }
    requires few { length parts.old ≤ 64 }
{
    let mut room = [0u8; 128];
    let mut sink = SliceSink::new(&mut room);
    let mut first = SliceSource::new(call.original);
    let ended = run_parts(alloc, &mut first, parts, call.claim.as_bytes(), &mut sink);
    let written = sink.written();
    match ended {
        Ok(_) => Some(written == call.line.as_bytes()),
        Err(PartsRunStop::OutOfMemory) if written.is_empty() => None,
        Err(_) => Some(false),
    }
}

/// The same of the export alone.
fn is_run_alone(alloc: Global, call: Run) -> Option<bool> {
    is_run_over(alloc, &mut [SliceSource::new(call.export)], call)
}

/// The same of the export and once more the export.
fn is_run_twice(alloc: Global, call: Run) -> Option<bool> {
    let mut parts = [SliceSource::new(call.export), SliceSource::new(call.export)];
    is_run_over(alloc, &mut parts, call)
}

/// A claim that has each key.
const CLAIM: &str = "format = 2
channels = [\"ECG\"]
anonymous = [\"name\"]
shift = -1
remove = [\"Lights off\"]
remove-prefix = [\"Mrs.\", \"Mrs. A\"]
blank = [\"Arousal\"]
[[keep]]
from = \"0\"
to = \"4\"
";

/// The same with a text twice.
const BAD_REMOVE: &str = "format = 1
channels = [\"ECG\"]
remove = [\"Lights off\", \"Lights off\"]
[[keep]]
from = \"0\"
to = \"4\"
";

/// Whether the claim is the one that has each key, as far as its channels and its rest go.
fn is_known(claim: &Claim) -> bool {
    claim.channels().len() == 1
        && claim.keeps_channel(b"ECG")
        && claim.is_anonymous(Which::Name)
        && claim.shift_ps() == -1_000_000_000_000
        && claim.keeps_annotation(0, "Apnea")
        && !claim.keeps_annotation(0, "Lights off")
        && !claim.keeps_annotation(0, "Mrs. Ames")
        && claim.blanks("Arousal")
        && !claim.keeps_annotation(4_000_000_000_000, "Apnea")
}

/// Whether a claim is read; or none where that wants memory.
fn is_claimed(alloc: Global) -> Option<bool> {
    match Claim::read(alloc, CLAIM.as_bytes()) {
        Ok(claim) => Some(is_known(&claim)),
        Err(ClaimStop::OutOfMemory) => None,
        Err(_) => Some(false),
    }
}

/// Whether a claim is refused as it should; or none where that wants memory.
fn is_refused(alloc: Global) -> Option<bool> {
    match Claim::read(alloc, BAD_REMOVE.as_bytes()) {
        Err(ClaimStop::OutOfMemory) => None,
        Err(stop) => Some(stop == ClaimStop::BadRemove),
        Ok(_) => Some(false),
    }
}

/// Whether the call ends as it should, or none where it wants memory.
fn called(alloc: Global, call: Call) -> Option<bool> {
    match call {
        Call::Claiming => is_claimed(alloc),
        Call::Refusing => is_refused(alloc),
        Call::Comparing(pair) => is_recalibrated(alloc, pair),
        Call::Checking(header, seconds, claim) => is_taken(alloc, header, seconds, claim),
        Call::Running(run) => is_run(alloc, run),
        Call::Alone(run) => is_run_alone(alloc, run),
        Call::Twice(run) => is_run_twice(alloc, run),
    }
}

/// Calls with ever more memory, so many bytes more in each step, until a call doesn't want any: whether that
/// one ended as it should, and how many did want memory before.
fn rise(alloc: Global, call: Call, more: u8) -> Result<(bool, u64), AllocError> {
    let mut scarce = Scarce::new(alloc, STEPS, REGION)?;
    let mut refused = 0u64;
    for step in 2..STEPS {
        scarce.leave(alloc, usize::from(more) * step)?;
        let found = called(alloc, call);
        scarce.take_back(alloc);
        if let Some(right) = found {
            return Ok((right, refused));
        }
        refused = refused.saturating_add(1);
    }
    Ok((false, refused))
}

#[test]
fn reads_a_claim_or_wants_memory(rt: HostRuntime) -> Result<(), Fail> {
    for call in [Call::Claiming, Call::Refusing] {
        let (is_right, refused) = rise(rt.alloc(), call, 32)?;
        assert!(rt; is_right && refused > 0, "{refused}");
    }
    Ok(())
}

/// A comparison of two headers wants memory for what it looks up, and for the label that it answers.
#[test]
fn compares_headers_or_wants_memory(rt: HostRuntime) -> Result<(), AllocError> {
    let alloc = rt.alloc();
    let edits = [(Place::AtSignal(1, SignalField::Dimension), "uV")];
    let original = read(alloc, &rt, (&[0, 1, 2], &[]))?;
    let export = read(alloc, &rt, (&[0, 1, 2], &edits))?;
    let claim = claim(alloc, &rt, "[\"EEG Fpz-Cz\", \"ECG\"]", "")?;
    let pair = TwoHeaders {
        original: &original,
        export: &export,
        claim: &claim,
    };
    let (is_right, refused) = rise(alloc, Call::Comparing(pair), 16)?;
    assert!(rt; is_right && refused > 4, "{refused}");
    Ok(())
}

/// The header of a file of so many data records of 1 s, and the claim that keeps them all.
fn lasting(alloc: Global, seconds: usize) -> Result<(Vec<u8>, Claim), Fail> {
    let count = seconds.to_string(alloc)?;
    let header = edited(
        alloc,
        &[(Place::AtField(FixedField::Records), count.as_str())],
    )?;
    let text = format!(in alloc;
        "format = 1\nchannels = [\"EEG Fpz-Cz\", \"ECG\"]\n[[keep]]\nfrom = \"0\"\nto = \"{seconds}\"\n"
    )?;
    let claim = Claim::read(alloc, text.as_bytes())?;
    Ok((header, claim))
}

/// A check wants the memory of both headers and of a data record of each file, however many they have.
#[test]
fn checks_in_the_memory_of_two_records(rt: HostRuntime) -> Result<(), Fail> {
    let (header, claim) = lasting(rt.alloc(), 4)?;
    let (is_right, refused) = rise(rt.alloc(), Call::Checking(&header, 4, &claim), 16)?;
    assert!(rt; is_right && refused >= 64, "{refused}");
    let (header, claim) = lasting(rt.alloc(), 400)?;
    let of_long = rise(rt.alloc(), Call::Checking(&header, 400, &claim), 16)?;
    assert_eq!(rt; of_long, (true, refused));
    Ok(())
}

/// Asserts that a run wants memory until there is enough.
fn assert_rise(
    rt: &impl Abort,
    alloc: Global,
    files: (&[u8], &[u8]),
    claim: &str,
    line: &str,
) -> Result<(), Fail> {
    let (original, export) = files;
    let run = Run {
        original,
        export,
        claim,
        line,
    };
    let (is_right, refused) = rise(alloc, Call::Running(run), 16)?;
    assert!(rt; is_right && refused > 0, "{refused}");
    Ok(())
}

/// The second and third second of the reference file, anonymous and a day earlier.
fn excerpt(alloc: Global) -> Result<Vec<u8>, AllocError> {
    let night = recorded(alloc, &[], LANES)?;
    let mut file = edited(
        alloc,
        &[
            (Place::AtField(FixedField::Records), "2"),
            (Place::AtField(FixedField::Patient), "X F X X"),
            (
                Place::AtField(FixedField::Recording),
                "Startdate 01-MAR-2002 PSG-1234/2002 NN Telemetry03",
            ),
            (Place::AtField(FixedField::Startdate), "01.03.02"),
            (Place::AtField(FixedField::Starttime), "22.00.01"),
        ],
    )?;
    file.extend_from_slice(night.get(1076..1088).unwrap_or(&[]))?;
    push_lane(&mut file, b"+0\x14\x14\0+0.5\x151\x14Apnea\x14\0", 40)?;
    file.extend_from_slice(night.get(1128..1140).unwrap_or(&[]))?;
    push_lane(&mut file, b"+1\x14\x14\0", 40)?;
    Ok(file)
}

/// The claim of it.
const MIDDLE: &str = "format = 1
channels = [\"EEG Fpz-Cz\", \"ECG\"]
anonymous = [\"code\", \"birthdate\", \"name\"]
shift = -86400
[[keep]]
from = \"1\"
to = \"3\"
";

#[test]
fn says_yes_or_wants_memory(rt: HostRuntime) -> Result<(), Fail> {
    let small = small_file(rt.alloc())?;
    let line = "YES channels 1 samples 2 annotations 0\n";
    assert_rise(&rt, rt.alloc(), (&small, &small), SIX_SECONDS, line)?;
    let night = recorded(rt.alloc(), &[], LANES)?;
    let excerpt = excerpt(rt.alloc())?;
    let line = "YES channels 2 samples 12 annotations 1\n";
    assert_rise(&rt, rt.alloc(), (&night, &excerpt), MIDDLE, line)
}

/// The lanes of the reference file with an annotation twice.
const TWICE: &[&[u8]] = &[
    b"+0\x14\x14\0+0.5\x14Lights off\x14\0",
    b"+1\x14\x14\0+1.5\x151\x14Apnea\x14\0+1.5\x151\x14Apnea\x14\0",
    b"+2\x14\x14\0",
    b"+3\x14\x14\0+3\x14Apnea\x14\0",
];

#[test]
fn says_a_difference_or_wants_memory(rt: HostRuntime) -> Result<(), Fail> {
    let twice = recorded(rt.alloc(), &[], TWICE)?;
    let night = recorded(rt.alloc(), &[], LANES)?;
    let line =
        "NO 11 annotation missing at 1500000000000 ps duration 1000000000000 ps text \"Apnea\"\n";
    assert_rise(&rt, rt.alloc(), (&twice, &night), ALL, line)
}

/// The lanes of the reference file, where the last text isn't UTF-8.
const ILL: &[&[u8]] = &[
    b"+0\x14\x14\0+0.5\x14Lights off\x14\0",
    b"+1\x14\x14\0+1.5\x151\x14Apnea\x14\0",
    b"+2\x14\x14\0",
    b"+3\x14\x14\0+3\x14\xffpnea\x14\0",
];

#[test]
fn says_a_fault_or_wants_memory(rt: HostRuntime) -> Result<(), Fail> {
    let night = recorded(rt.alloc(), &[], LANES)?;
    let ill = recorded(rt.alloc(), &[], ILL)?;
    let line = "NO 2 export fault: BadTal(NotUtf8) at record 3\n";
    assert_rise(&rt, rt.alloc(), (&night, &ill), ALL, line)
}

#[test]
fn says_what_several_exports_are_or_wants_memory(rt: HostRuntime) -> Result<(), Fail> {
    let night = recorded(rt.alloc(), &[], LANES)?;
    let run = Run {
        original: &night,
        export: &night,
        claim: ALL,
        line: "YES parts 1 channels 2 samples 24 annotations 3\n",
    };
    let (is_right, refused) = rise(rt.alloc(), Call::Alone(run), 16)?;
    assert!(rt; is_right && refused > 0, "{refused}");
    let early = Run {
        line: "NO 12 part 1 starts early\n",
        ..run
    };
    let (is_right, refused) = rise(rt.alloc(), Call::Twice(early), 16)?;
    assert!(rt; is_right && refused > 0, "{refused}");
    Ok(())
}
