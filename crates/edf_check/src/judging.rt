//! The check under the claim that a text says.

ghost use Rattle.std.specs.Prelude.{◌≡◌, ◌<◌, ◌≤◌, map, length, IfOk, IfErr, OnOk};
ghost use Rattle.edf_check.specs.Runs.{ArePartsJudgedBy, IsJudgedBy, JudgeStopsOf, JudgeStopsOfAll};
ghost use Rattle.edf_check.specs.parts.Counted.{AreCountedUnder, IsCountedUnder, looked_on};

use crate::of_one::check_beside;
use crate::of_several::{Asked, check_parts_beside};
use edf_claim::{Claim, ClaimStop};
use edf_fields::Source;
use edf_pace::{Nobody, Onlooker};
use edf_stop::{PartsRunStop, RunStop};
use edf_verdict::{PartsVerdict, Verdict};
use std::alloc::Global;

/// Reads the claim that a text says, and checks the export against the original under it. Somebody looks on while the samples
/// are compared, which changes no answer.
///
/// The error is the first fault of the text, want of memory, also for who looks on, or a failure of one of the sources.
pub fn judge_beside<O: Source, E: Source, L: Onlooker>(
    alloc: Global,
    original: &mut O,
    export: &mut E,
    claim_text: &[u8],
    onlooker: &mut L,
) -> Result<Verdict, RunStop>
    ensures under { IfOk result (IsJudgedBy O.Source E.Source original.old export.old claim_text.now) }
    ensures counted { IfOk result (λ v. IsCountedUnder O.Source E.Source original.old export.old
        claim_text.now (L.looks onlooker.old) (looked_on (L.counted onlooker.old) (L.counted onlooker.new)
        (L.shown onlooker.new))) }
    ensures failures { OnOk result ((O.reads original.new ≡ O.reads original.old)
        × (E.reads export.new ≡ E.reads export.old)) }
    ensures stop { IfErr result (JudgeStopsOf O.Source E.Source original.old original.new export.old
        export.new claim_text.now) }
{
    match Claim::read(alloc, claim_text) {
        Ok(claim) => {
            let mut asked = Asked {
                alloc,
                claim: &claim,
                onlooker: &mut *onlooker,
            };
            Ok(check_beside(original, export, &mut asked)?)
        }
        Err(cause) if cause != ClaimStop::OutOfMemory => Err(RunStop::Claim(cause)),
        Err(_) => Err(RunStop::OutOfMemory),
    }
}

/// Reads the claim that a text says, and checks the export against the original under it.
///
/// The error is the first fault of the text, want of memory, or a failure of one of the sources.
pub fn judge<O: Source, E: Source>(
    alloc: Global,
    original: &mut O,
    export: &mut E,
    claim_text: &[u8],
) -> Result<Verdict, RunStop>
    ensures under { IfOk result (IsJudgedBy O.Source E.Source original.old export.old claim_text.now) }
    ensures failures { OnOk result ((O.reads original.new ≡ O.reads original.old)
        × (E.reads export.new ≡ E.reads export.old)) }
    ensures stop { IfErr result (JudgeStopsOf O.Source E.Source original.old original.new export.old
        export.new claim_text.now) }
{
    judge_beside(alloc, original, export, claim_text, &mut Nobody)
}

/// Reads the claim that a text says, and checks one to 64 exports, in the order of time, against the original under it. Somebody
/// looks on while the samples are compared, which changes no answer.
///
/// The error is the first fault of the text, want of memory, or a failure of one of the sources.
pub fn judge_parts_beside<O: Source, E: Source, L: Onlooker>(
    alloc: Global,
    original: &mut O,
    parts: &mut [E],
    claim_text: &[u8],
    onlooker: &mut L,
) -> Result<PartsVerdict, PartsRunStop>
    requires some { 0 < length parts.old }
    requires few { length parts.old ≤ 64 }
    ensures under { IfOk result (ArePartsJudgedBy O.Source E.Source original.old parts.old claim_text.now) }
    ensures counted { IfOk result (λ v. AreCountedUnder O.Source E.Source original.old parts.old
        claim_text.now (L.looks onlooker.old) (looked_on (L.counted onlooker.old) (L.counted onlooker.new)
        (L.shown onlooker.new))) }
    ensures failures { OnOk result ((O.reads original.new ≡ O.reads original.old)
        × (map E.reads parts.new ≡ map E.reads parts.old)) }
    ensures size { length parts.new ≡ length parts.old }
    ensures stop { IfErr result (JudgeStopsOfAll O.Source E.Source original.old original.new parts.old
        parts.new claim_text.now) }
{
    match Claim::read(alloc, claim_text) {
        Ok(claim) => {
            let mut asked = Asked {
                alloc,
                claim: &claim,
                onlooker: &mut *onlooker,
            };
            Ok(check_parts_beside(original, parts, &mut asked)?)
        }
        Err(cause) if cause != ClaimStop::OutOfMemory => Err(PartsRunStop::Claim(cause)),
        Err(_) => Err(PartsRunStop::OutOfMemory),
    }
}

/// Reads the claim that a text says, and checks one to 64 exports, in the order of time, against the original under it.
///
/// The error is the first fault of the text, want of memory, or a failure of one of the sources.
pub fn judge_parts<O: Source, E: Source>(
    alloc: Global,
    original: &mut O,
    parts: &mut [E],
    claim_text: &[u8],
) -> Result<PartsVerdict, PartsRunStop>
    requires some { 0 < length parts.old }
    requires few { length parts.old ≤ 64 }
    ensures under { IfOk result (ArePartsJudgedBy O.Source E.Source original.old parts.old claim_text.now) }
    ensures failures { OnOk result ((O.reads original.new ≡ O.reads original.old)
        × (map E.reads parts.new ≡ map E.reads parts.old)) }
    ensures size { length parts.new ≡ length parts.old }
    ensures stop { IfErr result (JudgeStopsOfAll O.Source E.Source original.old original.new parts.old
        parts.new claim_text.now) }
{
    judge_parts_beside(alloc, original, parts, claim_text, &mut Nobody)
}
