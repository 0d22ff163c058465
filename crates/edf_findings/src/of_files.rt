//! What a check of an original and its exports answers, and what it shows that they differ in.

ghost use Rattle.std.specs.Prelude.{◌≡◌, ◌<◌, ◌≤◌, map, length, IfErr, IfOk, IfSome, OnOk};
ghost use Rattle.edf_check.specs.Runs.{ArePartsJudgedBy, IsJudgedBy, JudgeStopsOf, JudgeStopsOfAll};
ghost use Rattle.edf_findings.specs.Found.{AreFindingsOf, AreFindingsOfAll, HasFindingsOf, HasFindingsOfAll};

use crate::findings::Findings;
use crate::looker::Looker;
use crate::wanted::Wanted;
use edf_check::{judge_beside, judge_parts_beside};
use edf_fields::Source;
use edf_stop::{PartsRunStop, RunStop};
use edf_verdict::{PartsVerdict, Verdict};
use std::alloc::Global;

/// What a check of an original and an export answers.
#[derive(Drop)]
pub struct Checked<'c> {
    pub verdict: Verdict,
    /// What the export differs in from what the claim keeps of the original. There is none where one of them has a fault.
    pub found: Option<Findings<'c>>,
}

/// What a check of an original and several exports answers.
#[derive(Drop)]
pub struct CheckedParts<'c> {
    pub verdict: PartsVerdict,
    /// What the exports differ in from what the claim keeps of the original. There is none where one of the files has a fault.
    pub found: Option<Findings<'c>>,
}

/// The verdict on an export, and what it differs in from what the claim keeps of an original.
///
/// Both are read to their ends by one check, on which a `Looker` looks. The error is that of the check, or want of memory where
/// no read failed.
pub fn findings_of<'c, O: Source, E: Source>(
    alloc: Global,
    original: &mut O,
    export: &mut E,
    wanted: Wanted<'_, 'c>,
) -> Result<Checked<'c>, RunStop>
    ensures verdict { IfOk result (λ checked. IsJudgedBy O.Source E.Source original.old export.old
        wanted.entry.claim_text.now checked.verdict) }
    ensures found { IfOk result (λ checked. IfSome checked.found (AreFindingsOf O.Source E.Source
        original.old export.old (wanted.entry.claim).now)) }
    ensures some { IfOk result (λ checked. HasFindingsOf O.Source E.Source original.old export.old
        checked.found) }
    ensures failures { OnOk result ((O.reads original.new ≡ O.reads original.old)
        × (E.reads export.new ≡ E.reads export.old)) }
    ensures stop { IfErr result (JudgeStopsOf O.Source E.Source original.old original.new export.old
        export.new wanted.entry.claim_text.now) }
{
    let mut looker = Looker::new(alloc, wanted.hidden);
    let verdict = judge_beside(alloc, original, export, wanted.claim_text, &mut looker)?;
    let found = looker.findings(wanted.claim)?;
    Ok(Checked { verdict, found })
}

/// The same of one to 64 exports, in the order of time.
pub fn findings_of_parts<'c, O: Source, E: Source>(
    alloc: Global,
    original: &mut O,
    parts: &mut [E],
    wanted: Wanted<'_, 'c>,
) -> Result<CheckedParts<'c>, PartsRunStop>
    requires some { 0 < length parts.old }
    requires few { length parts.old ≤ 64 }
    ensures verdict { IfOk result (λ checked. ArePartsJudgedBy O.Source E.Source original.old parts.old
        wanted.entry.claim_text.now checked.verdict) }
    ensures found { IfOk result (λ checked. IfSome checked.found (AreFindingsOfAll O.Source E.Source
        original.old parts.old (wanted.entry.claim).now)) }
    ensures some { IfOk result (λ checked. HasFindingsOfAll O.Source E.Source original.old parts.old
        checked.found) }
    ensures failures { OnOk result ((O.reads original.new ≡ O.reads original.old)
        × (map E.reads parts.new ≡ map E.reads parts.old)) }
    ensures size { length parts.new ≡ length parts.old }
    ensures stop { IfErr result (JudgeStopsOfAll O.Source E.Source original.old original.new parts.old
        parts.new wanted.entry.claim_text.now) }
{
    let mut looker = Looker::of_parts(alloc, wanted.hidden, parts.len());
    let verdict = judge_parts_beside(alloc, original, parts, wanted.claim_text, &mut looker)?;
    let found = looker.findings(wanted.claim)?;
    Ok(CheckedParts { verdict, found })
}
