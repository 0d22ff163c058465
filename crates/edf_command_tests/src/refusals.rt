//! The line and the status of each refusal, and how a stopped check or report is refused.

use edf_claim::ClaimStop;
use edf_refusal::{Refusal, Role, status};
use edf_stop::{PartSide, PartsRunStop, ReportStop, RunStop, Side};
use edf_verdict::Outcome;
use std::process::Abort;

/// Each refusal, and its line.
const LINES: &[(Refusal, &str)] = &[
    (
        Refusal::CannotOpen(Role::Claim),
        "edfclaim: cannot open claim",
    ),
    (
        Refusal::CannotOpen(Role::Original),
        "edfclaim: cannot open original",
    ),
    (
        Refusal::CannotOpen(Role::Export),
        "edfclaim: cannot open export",
    ),
    (
        Refusal::CannotOpen(Role::File),
        "edfclaim: cannot open file",
    ),
    (
        Refusal::Reading(Role::Claim),
        "edfclaim: reading claim failed",
    ),
    (
        Refusal::Reading(Role::Original),
        "edfclaim: reading original failed",
    ),
    (
        Refusal::Reading(Role::Export),
        "edfclaim: reading export failed",
    ),
    (
        Refusal::Reading(Role::File),
        "edfclaim: reading file failed",
    ),
    (
        Refusal::Claim(ClaimStop::OutOfMemory),
        "edfclaim: out of memory",
    ),
    (
        Refusal::Claim(ClaimStop::TooLong),
        "edfclaim: claim refused: TooLong",
    ),
    (
        Refusal::Claim(ClaimStop::NotToml),
        "edfclaim: claim refused: NotToml",
    ),
    (
        Refusal::Claim(ClaimStop::BadFormat),
        "edfclaim: claim refused: BadFormat",
    ),
    (
        Refusal::Claim(ClaimStop::UnknownKey),
        "edfclaim: claim refused: UnknownKey",
    ),
    (
        Refusal::Claim(ClaimStop::BadChannels),
        "edfclaim: claim refused: BadChannels",
    ),
    (
        Refusal::Claim(ClaimStop::BadKeep),
        "edfclaim: claim refused: BadKeep",
    ),
    (
        Refusal::Claim(ClaimStop::BadAnonymous),
        "edfclaim: claim refused: BadAnonymous",
    ),
    (
        Refusal::Claim(ClaimStop::BadShift),
        "edfclaim: claim refused: BadShift",
    ),
    (
        Refusal::Claim(ClaimStop::BadRemove),
        "edfclaim: claim refused: BadRemove",
    ),
    (
        Refusal::Claim(ClaimStop::BadRemovePrefix),
        "edfclaim: claim refused: BadRemovePrefix",
    ),
    (
        Refusal::Claim(ClaimStop::BadBlank),
        "edfclaim: claim refused: BadBlank",
    ),
    (Refusal::Memory, "edfclaim: out of memory"),
    (Refusal::Writing, "edfclaim: writing failed"),
    (Refusal::TooManyExports, "edfclaim: too many exports"),
];

/// Compares the line and the status of each refusal.
fn assert_lines(rt: &impl Abort, lines: &[(Refusal, &str)]) {
    for (refusal, line) in lines {
        assert_eq!(rt; refusal.text(), *line);
        assert_eq!(rt; status(&Err(*refusal)), 2, "at {line}");
    }
}

#[test]
fn says_why_in_one_line(rt: HostRuntime) {
    assert_lines(&rt, LINES);
}

#[test]
fn ends_with_a_status_for_each_outcome(rt: HostRuntime) {
    assert_eq!(rt; status(&Ok(Outcome::Yes)), 0);
    assert_eq!(rt; status(&Ok(Outcome::No)), 1);
}

/// How a check stops, and how it is refused then.
const RUNS: &[(RunStop, Refusal)] = &[
    (RunStop::OutOfMemory, Refusal::Memory),
    (
        RunStop::ReadFailed(Side::Original),
        Refusal::Reading(Role::Original),
    ),
    (
        RunStop::ReadFailed(Side::Export),
        Refusal::Reading(Role::Export),
    ),
    (
        RunStop::Claim(ClaimStop::BadKeep),
        Refusal::Claim(ClaimStop::BadKeep),
    ),
    (RunStop::WriteFailed, Refusal::Writing),
];

/// How a check of several exports stops, and how it is refused then.
const PARTS_RUNS: &[(PartsRunStop, Refusal)] = &[
    (PartsRunStop::OutOfMemory, Refusal::Memory),
    (
        PartsRunStop::ReadFailed(PartSide::Original),
        Refusal::Reading(Role::Original),
    ),
    (
        PartsRunStop::ReadFailed(PartSide::Part(0)),
        Refusal::Reading(Role::Export),
    ),
    (
        PartsRunStop::ReadFailed(PartSide::Part(63)),
        Refusal::Reading(Role::Export),
    ),
    (
        PartsRunStop::Claim(ClaimStop::BadKeep),
        Refusal::Claim(ClaimStop::BadKeep),
    ),
    (PartsRunStop::WriteFailed, Refusal::Writing),
];

/// How a report on one file stops, and how it is refused then.
const REPORTS: &[(ReportStop, Refusal)] = &[
    (ReportStop::OutOfMemory, Refusal::Memory),
    (ReportStop::ReadFailed, Refusal::Reading(Role::File)),
    (ReportStop::WriteFailed, Refusal::Writing),
];

/// Compares how stops are refused.
fn assert_refused<S: Copy>(rt: &impl Abort, rows: &[(S, Refusal)])
where
    Refusal: From<S>,
{
    for (stop, refusal) in rows {
        assert_eq!(rt; Refusal::from(*stop), *refusal);
    }
}

#[test]
fn refuses_what_stopped(rt: HostRuntime) {
    assert_refused(&rt, RUNS);
    assert_refused(&rt, PARTS_RUNS);
    assert_refused(&rt, REPORTS);
}
