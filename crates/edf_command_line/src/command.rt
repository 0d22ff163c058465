//! The command line.
//!
//! `clap` judges it, and says what is wrong with it; the job is taken from the words themselves.

ghost use Rattle.std.specs.Prelude.{◌≡◌, ◌≢◌, codes, false, IfOk, IfErr, IfSome, IfNone};
ghost use Rattle.clap.specs.Simple.{app_of, new_app, with_rule, with_subcommand};
ghost use Rattle.clap.specs.Values.{kind_of};
ghost use Rattle.clap.specs.declared.builder.command.Command.TheViews.{out-Command as fields_of};
ghost use Rattle.edf_command_line.specs.Commands.{needed, needed_some, bare_app, checking_app, claim_app, draft_app, explain_app, export_app, file_app, layout_app, pair_app, parts_app, program_app, receipt_app, reporting_app, series_app, with_both};
ghost use Rattle.edf_jobs.specs.Jobs.{ArePlain, HasExports, SaysJob, SaysNoJob, behind_first};

use crate::VERSION;
use clap::error::ErrorKind;
use clap::{Arg, Command, Error};
use edf_jobs::{Job, job_of};
use std::alloc::{AllocError, Global};

/// What the program is, in the help.
const ABOUT: &str =
    "Checks that an exported sleep recording (EDF+) is its original, cut and made anonymous exactly as a claim says";

/// What stands behind the commands in the help.
const BEHIND: &str = "Example, in the folder of the example night:
  edfclaim check original.edf cut.edf cut.toml

Status: 0 for Yes, 1 for No, and 2 for no answer, with a line on standard error that says why.

Pages: START.md is the one to begin with. They stand in /usr/share/doc/edfclaim where the package is
installed, and in the folder docs of the sources. `man edfclaim` has all of the commands.";

/// What several exports are, in the help.
const EXPORTS: &str = "The recordings that are handed out, in the order of time";

/// A command's name, what it does in a line of the help, and its place among the commands there.
#[derive(Clone, Copy)]
struct Named<'a> {
    name: &'a str,
    about: &'a str,
    place: usize,
}

/// A command without its arguments.
fn named_command<'a>(alloc: Global, named: Named<'a>) -> Command<'a>
    ensures shape { app_of result ≡ new_app named.entry.name.now }
    ensures local { (fields_of result).has_globals ≡ false }
{
    Command::new(alloc, named.name)
        .about(named.about)
        .display_order(named.place)
}

/// The command with one more argument, which has to be there.
fn needing<'a>(
    alloc: Global,
    command: Command<'a>,
    id: &'a str,
    help: &'a str,
) -> Result<Command<'a>, AllocError>
    ensures shape { IfOk result (λ r. (fields_of command.entry).has_globals ≡ false →
        app_of r ≡ with_rule (app_of command.entry) (needed id.entry.now)) }
    ensures local { IfOk result (λ r. (fields_of command.entry).has_globals ≡ false →
        (fields_of r).has_globals ≡ false) }
{
    command.arg(Arg::new(alloc, id).required(true).help(help))
}

/// The command with a last argument of one word or more.
fn needing_some<'a>(
    alloc: Global,
    command: Command<'a>,
    id: &'a str,
    help: &'a str,
) -> Result<Command<'a>, AllocError>
    ensures shape { IfOk result (λ r. (fields_of command.entry).has_globals ≡ false →
        app_of r ≡ with_rule (app_of command.entry) (needed_some id.entry.now)) }
    ensures local { IfOk result (λ r. (fields_of command.entry).has_globals ≡ false →
        (fields_of r).has_globals ≡ false) }
{
    command.arg(Arg::new(alloc, id).required(true).num_args(1..).help(help))
}

/// The command `NAME ORIGINAL EXPORT CLAIM`.
fn export_command<'a>(alloc: Global, named: Named<'a>) -> Result<Command<'a>, AllocError>
    ensures shape { IfOk result (λ c. app_of c ≡ export_app named.entry.name.now) }
    ensures local { IfOk result (λ c. (fields_of c).has_globals ≡ false) }
{
    let named = named_command(alloc, named);
    let one = needing(alloc, named, "ORIGINAL", "The recording that is kept")?;
    let two = needing(alloc, one, "EXPORT", "The recording that is handed out")?;
    needing(alloc, two, "CLAIM", "The claim, a TOML document")
}

/// The command `NAME ORIGINAL CLAIM EXPORT..`.
fn parts_command<'a>(alloc: Global, named: Named<'a>) -> Result<Command<'a>, AllocError>
    ensures shape { IfOk result (λ c. app_of c ≡ parts_app named.entry.name.now) }
    ensures local { IfOk result (λ c. (fields_of c).has_globals ≡ false) }
{
    let named = named_command(alloc, named);
    let one = needing(alloc, named, "ORIGINAL", "The recording that is kept")?;
    let two = needing(alloc, one, "CLAIM", "The claim, a TOML document")?;
    needing_some(alloc, two, "EXPORT", EXPORTS)
}

/// The command `NAME ORIGINAL EXPORT`.
fn pair_command<'a>(alloc: Global, named: Named<'a>) -> Result<Command<'a>, AllocError>
    ensures shape { IfOk result (λ c. app_of c ≡ pair_app named.entry.name.now) }
    ensures local { IfOk result (λ c. (fields_of c).has_globals ≡ false) }
{
    let named = named_command(alloc, named);
    let one = needing(alloc, named, "ORIGINAL", "The recording that is kept")?;
    needing(alloc, one, "EXPORT", "The recording that is handed out")
}

/// The command `NAME ORIGINAL EXPORT..`.
fn series_command<'a>(alloc: Global, named: Named<'a>) -> Result<Command<'a>, AllocError>
    ensures shape { IfOk result (λ c. app_of c ≡ series_app named.entry.name.now) }
    ensures local { IfOk result (λ c. (fields_of c).has_globals ≡ false) }
{
    let named = named_command(alloc, named);
    let one = needing(alloc, named, "ORIGINAL", "The recording that is kept")?;
    needing_some(alloc, one, "EXPORT", EXPORTS)
}

/// The command `NAME FILE`.
fn file_command<'a>(alloc: Global, named: Named<'a>) -> Result<Command<'a>, AllocError>
    ensures shape { IfOk result (λ c. app_of c ≡ file_app named.entry.name.now) }
    ensures local { IfOk result (λ c. (fields_of c).has_globals ≡ false) }
{
    let named = named_command(alloc, named);
    needing(alloc, named, "FILE", "The recording")
}

/// The command `claim CLAIM`.
fn claim_command<'a>(alloc: Global) -> Result<Command<'a>, AllocError>
    ensures shape { IfOk result (λ c. app_of c ≡ claim_app (codes "claim")) }
    ensures local { IfOk result (λ c. (fields_of c).has_globals ≡ false) }
{
    let claim = Named {
        name: "claim",
        about: "Prints a claim as it is understood, in its plainest form",
        place: 5,
    };
    let named = named_command(alloc, claim);
    needing(alloc, named, "CLAIM", "The claim, a TOML document")
}

/// The program with one more command of the form `NAME FILE`.
fn with_report<'a>(
    alloc: Global,
    program: Command<'a>,
    named: Named<'a>,
) -> Result<Command<'a>, AllocError>
    ensures { IfOk result (λ r.
        app_of r ≡ with_subcommand (app_of program.entry) (file_app named.entry.name.now).top) }
{
    let report = file_command(alloc, named)?;
    program.subcommand(report)
}

/// The command `vectors`.
fn vectors_command<'a>(alloc: Global) -> Command<'a>
    ensures shape { app_of result ≡ new_app (codes "vectors") }
    ensures local { (fields_of result).has_globals ≡ false }
{
    let vectors = Named {
        name: "vectors",
        about: "Runs the worked examples that are built in, and looks whether each gives its stored line",
        place: 13,
    };
    named_command(alloc, vectors)
}

/// The program with its version, and without a command.
fn bare_program<'a>(alloc: Global) -> Command<'a>
    ensures { app_of result ≡ bare_app }
{
    Command::new(alloc, "edfclaim")
        .version(VERSION)
        .about(ABOUT)
        .after_help(BEHIND)
}

/// The program with one more command of the form `NAME ORIGINAL EXPORT CLAIM`, and one of the form
/// `NAME ORIGINAL CLAIM EXPORT..`.
fn with_both<'a>(
    alloc: Global,
    program: Command<'a>,
    of_one: Named<'a>,
    of_several: Named<'a>,
) -> Result<Command<'a>, AllocError>
    ensures { IfOk result (λ c.
        app_of c ≡ with_both (app_of program.entry) of_one.entry.name.now of_several.entry.name.now) }
{
    let one = export_command(alloc, of_one)?;
    let first = program.subcommand(one)?;
    let several = parts_command(alloc, of_several)?;
    first.subcommand(several)
}

/// The program with its two checks, and without another command.
fn checking_program<'a>(alloc: Global) -> Result<Command<'a>, AllocError>
    ensures { IfOk result (λ c. app_of c ≡ checking_app) }
{
    let check = Named {
        name: "check",
        about: "Checks an export beside its original: Yes, or No with the first difference",
        place: 6,
    };
    let parts = Named {
        name: "check-parts",
        about: "Checks an export that goes out in several files, all of them together",
        place: 10,
    };
    with_both(alloc, bare_program(alloc), check, parts)
}

/// The program with its checks and their receipts, and without another command.
fn receipt_program<'a>(alloc: Global) -> Result<Command<'a>, AllocError>
    ensures { IfOk result (λ c. app_of c ≡ receipt_app) }
{
    let checking = checking_program(alloc)?;
    let receipt = Named {
        name: "receipt",
        about: "Checks as check does, and writes the SHA-256 of each file above the answer",
        place: 8,
    };
    let parts = Named {
        name: "receipt-parts",
        about: "Writes such a receipt of an export that goes out in several files",
        place: 12,
    };
    with_both(alloc, checking, receipt, parts)
}

/// The program with its checks, their receipts and the drafts of a claim, and without another command.
fn draft_program<'a>(alloc: Global) -> Result<Command<'a>, AllocError>
    ensures { IfOk result (λ c. app_of c ≡ draft_app) }
{
    let receipts = receipt_program(alloc)?;
    let draft = Named {
        name: "draft",
        about: "Drafts the claim by which this export would be the original's, for a person to confirm",
        place: 5,
    };
    let pair = pair_command(alloc, draft)?;
    let drafting = receipts.subcommand(pair)?;
    let parts = Named {
        name: "draft-parts",
        about: "Drafts the claim by which several files together would be the export of the original",
        place: 9,
    };
    let series = series_command(alloc, parts)?;
    drafting.subcommand(series)
}

/// The program with its checks, their receipts, the drafts of a claim and the checks that explain themselves, and without another
/// command.
fn explain_program<'a>(alloc: Global) -> Result<Command<'a>, AllocError>
    ensures { IfOk result (λ c. app_of c ≡ explain_app) }
{
    let drafting = draft_program(alloc)?;
    let explain = Named {
        name: "explain",
        about: "Checks as check does, and explains the answer in plain sentences",
        place: 7,
    };
    let parts = Named {
        name: "explain-parts",
        about: "Explains the answer on an export that goes out in several files",
        place: 11,
    };
    with_both(alloc, drafting, explain, parts)
}

/// The program with all of its commands but the layout of a recording and those on a claim alone and on no file.
fn reporting_program<'a>(alloc: Global) -> Result<Command<'a>, AllocError>
    ensures { IfOk result (λ c. app_of c ≡ reporting_app) }
{
    let first = explain_program(alloc)?;
    let conform = Named {
        name: "conform",
        about: "Says whether a recording can be judged at all, or its first fault",
        place: 1,
    };
    let show = Named {
        name: "show",
        about: "Shows what the header of a recording says",
        place: 2,
    };
    let notes = Named {
        name: "notes",
        about: "Lists the annotations of a recording",
        place: 3,
    };
    let read = Named {
        name: "read",
        about: "Prints what a recording's header says, and its annotations, for reading",
        place: 3,
    };
    let second = with_report(alloc, first, conform)?;
    let third = with_report(alloc, second, show)?;
    let fourth = with_report(alloc, third, notes)?;
    with_report(alloc, fourth, read)
}

/// The program with all of its commands but those on a claim alone and on no file.
fn layout_program<'a>(alloc: Global) -> Result<Command<'a>, AllocError>
    ensures { IfOk result (λ c. app_of c ≡ layout_app) }
{
    let reporting = reporting_program(alloc)?;
    let layout = Named {
        name: "layout",
        about: "Prints what a recording's bytes hold besides what it says, such as how numbers are spelled",
        place: 4,
    };
    with_report(alloc, reporting, layout)
}

/// The program with all of its commands.
fn program<'a>(alloc: Global) -> Result<Command<'a>, AllocError>
    ensures { IfOk result (λ c. app_of c ≡ program_app) }
{
    let reporting = layout_program(alloc)?;
    let claim = claim_command(alloc)?;
    let claiming = reporting.subcommand(claim)?;
    claiming.subcommand(vectors_command(alloc))
}

/// Reads the program's words, of which the first is the program's name: `None` where `clap` takes a
/// line that is no command with its arguments, as where nothing stands behind the name, or a `--` on the line.
///
/// The error is `clap`'s fault, also for a request for help or for the version, or want of memory. A line whose words
/// behind the first aren't empty and don't begin with `-` is such a fault only where it is no job.
pub fn job<'a>(alloc: Global, words: &'a [&'a str]) -> Result<Option<Job<'a>>, Error>
    ensures some { IfOk result (λ found. IfSome found (SaysJob (behind_first words.entry.now))) }
    ensures exports { IfOk result (λ found. IfSome found HasExports) }
    ensures none { IfOk result (λ found. IfNone found (SaysNoJob (behind_first words.entry.now))) }
    ensures fault { IfErr result (λ e. ArePlain (behind_first words.entry.now) →
        kind_of e ≢ ErrorKind.OutOfMemory → SaysNoJob (behind_first words.entry.now)) }
{
    let command = program(alloc)?;
    match command.try_get_matches_from(words) {
        Ok(_) => Ok(job_of(words)),
        Err(fault) => Err(fault),
    }
}
