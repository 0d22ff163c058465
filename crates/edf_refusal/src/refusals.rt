//! Why a command is refused, and the line that says so.

ghost use Rattle.std.specs.Prelude.{◌≡◌};
ghost use Rattle.edf_refusal.specs.declared.refusals.Refusal.TheVariants as refusals;
ghost use Rattle.edf_refusal.specs.Refusals.{claim_text, opening_text, reading_text, refusal_of_parts_run, refusal_of_report, refusal_of_run, refusal_text};

use edf_claim::ClaimStop;
use edf_fields::WriteFault;
use edf_stop::{PartSide, PartsRunStop, ReportStop, RunStop, Side};
use std::alloc::{AllocError, AllocFailed};

/// What a file is to the command that reads it.
#[derive(Debug, Clone, Copy, PartialEq, Eq)]
pub enum Role {
    /// The claim of a check.
    Claim,
    /// The recording that the sleep centre keeps.
    Original,
    /// The recording that it hands out, or one of several that it hands out together.
    Export,
    /// The only file of its command.
    File,
}

/// Why a command ended without an outcome.
#[derive(Debug, Clone, Copy, PartialEq, Eq)]
pub enum Refusal {
    /// This file could not be opened.
    CannotOpen(Role),
    /// A read of this file failed.
    Reading(Role),
    /// The text of the claim says no claim: its first fault.
    Claim(ClaimStop),
    /// Memory ran out.
    Memory,
    /// Standard output didn't take what was written.
    Writing,
    /// More exports than a check of several takes.
    TooManyExports,
}

impl Refusal {
    /// The line that says so, without its newline.
    pub fn text(&self) -> &'static str
        ensures { result.now ≡ refusal_text self.now }
    {
        match self {
            Refusal::CannotOpen(role) => opening(*role),
            Refusal::Reading(role) => reading(*role),
            Refusal::Claim(stop) => claim_refused(*stop),
            Refusal::Memory => "edfclaim: out of memory",
            Refusal::Writing => "edfclaim: writing failed",
            Refusal::TooManyExports => "edfclaim: too many exports",
        }
    }
}

/// The line on a file that could not be opened.
fn opening(role: Role) -> &'static str
    ensures { result.now ≡ opening_text role }
{
    match role {
        Role::Claim => "edfclaim: cannot open claim",
        Role::Original => "edfclaim: cannot open original",
        Role::Export => "edfclaim: cannot open export",
        Role::File => "edfclaim: cannot open file",
    }
}

/// The line on a file of which a read failed.
fn reading(role: Role) -> &'static str
    ensures { result.now ≡ reading_text role }
{
    match role {
        Role::Claim => "edfclaim: reading claim failed",
        Role::Original => "edfclaim: reading original failed",
        Role::Export => "edfclaim: reading export failed",
        Role::File => "edfclaim: reading file failed",
    }
}

/// The line on a claim that is refused; want of memory says nothing of the claim.
fn claim_refused(stop: ClaimStop) -> &'static str
    ensures { result.now ≡ claim_text stop }
{
    match stop {
        ClaimStop::OutOfMemory => "edfclaim: out of memory",
        ClaimStop::TooLong => "edfclaim: claim refused: TooLong",
        ClaimStop::NotToml => "edfclaim: claim refused: NotToml",
        ClaimStop::BadFormat => "edfclaim: claim refused: BadFormat",
        ClaimStop::UnknownKey => "edfclaim: claim refused: UnknownKey",
        ClaimStop::BadChannels => "edfclaim: claim refused: BadChannels",
        ClaimStop::BadKeep => "edfclaim: claim refused: BadKeep",
        ClaimStop::BadAnonymous => "edfclaim: claim refused: BadAnonymous",
        ClaimStop::BadShift => "edfclaim: claim refused: BadShift",
        ClaimStop::BadRemove => "edfclaim: claim refused: BadRemove",
        ClaimStop::BadRemovePrefix => "edfclaim: claim refused: BadRemovePrefix",
        ClaimStop::BadBlank => "edfclaim: claim refused: BadBlank",
    }
}

impl From<AllocError> for Refusal {
    ghost from_gives = { λ _ refusal. refusal ≡ refusals.Memory };

    fn from(_error: AllocError) -> Refusal {
        Refusal::Memory
    }
}

impl<T: Drop> From<AllocFailed<T>> for Refusal {
    ghost from_gives = { λ _ refusal. refusal ≡ refusals.Memory };

    fn from(_error: AllocFailed<T>) -> Refusal {
        Refusal::Memory
    }
}

impl From<WriteFault> for Refusal {
    ghost from_gives = { λ _ refusal. refusal ≡ refusals.Writing };

    fn from(_error: WriteFault) -> Refusal {
        Refusal::Writing
    }
}

impl From<ReportStop> for Refusal {
    ghost from_gives = { λ stop refusal. refusal ≡ refusal_of_report stop };

    fn from(stop: ReportStop) -> Refusal {
        match stop {
            ReportStop::OutOfMemory => Refusal::Memory,
            ReportStop::ReadFailed => Refusal::Reading(Role::File),
            ReportStop::WriteFailed => Refusal::Writing,
        }
    }
}

impl From<RunStop> for Refusal {
    ghost from_gives = { λ stop refusal. refusal ≡ refusal_of_run stop };

    fn from(stop: RunStop) -> Refusal {
        match stop {
            RunStop::OutOfMemory => Refusal::Memory,
            RunStop::ReadFailed(Side::Original) => Refusal::Reading(Role::Original),
            RunStop::ReadFailed(Side::Export) => Refusal::Reading(Role::Export),
            RunStop::Claim(cause) => Refusal::Claim(cause),
            RunStop::WriteFailed => Refusal::Writing,
        }
    }
}

impl From<PartsRunStop> for Refusal {
    ghost from_gives = { λ stop refusal. refusal ≡ refusal_of_parts_run stop };

    fn from(stop: PartsRunStop) -> Refusal {
        match stop {
            PartsRunStop::OutOfMemory => Refusal::Memory,
            PartsRunStop::ReadFailed(PartSide::Original) => Refusal::Reading(Role::Original),
            PartsRunStop::ReadFailed(PartSide::Part(_)) => Refusal::Reading(Role::Export),
            PartsRunStop::Claim(cause) => Refusal::Claim(cause),
            PartsRunStop::WriteFailed => Refusal::Writing,
        }
    }
}
