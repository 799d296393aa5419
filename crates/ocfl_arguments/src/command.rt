//! The program's subcommands and arguments, as `clap` takes them.
ghost use Rattle.std.specs.Prelude.{◌≡◌, IfOk};
ghost use Rattle.clap.specs.Words.{Rule};
ghost use Rattle.ocfl_arguments.specs.Line.{IsArg, IsCommand, bare_app, line_app};
ghost use Rattle.ocfl_arguments.specs.Internal.Shapes.{app_for, range_parser, rule_for};
ghost use Rattle.ocfl_arguments.specs.Internal.Shapes.{value_rule, with_subcommands};

use crate::command::Taken::{Nothing, Number, Words, WordsOr};
use clap::builder::ValueParser;
use clap::{Arg, ArgAction, Command, value_parser};
use std::alloc::{AllocError, Global};

/// The version of the program.
const VERSION: &str = "1.0.0";

/// What is below the program's help.
const AFTER_HELP: &str = "\
Example:
  ocfl-scrub run --cursor root.cursor --budget 10G --files 5000 /srv/ocfl

Exit status:
  0  no finding
  1  findings
  2  usage
  3  stopped, worn or the cursor file failed
  4  cursor refused
  75 another night holds the lock";

/// The value of an argument.
#[derive(Clone, Copy)]
enum Taken<'a> {
    /// It takes no value: it is a flag.
    Nothing,
    /// A text, which help calls this.
    Words(&'a str),
    /// The same, and the text if it is left out.
    WordsOr(&'a str, &'a str),
    /// A number, which help calls this, within a range.
    Number(&'a str, Range),
}

/// Which numbers of 64 bits are taken.
#[derive(Clone, Copy)]
enum Range {
    /// Those of parts.
    Part,
    /// Those of how many there are at most.
    Count,
    /// Hours of a night.
    Hours,
    /// Days from one cycle to the next.
    Days,
    /// All.
    Any,
}

/// An argument of a subcommand: its id, what help says of it, its name if it is an option, whether
/// it must be given, and its value.
#[derive(Clone, Copy)]
struct Argument<'a>(&'a str, &'a str, Option<&'a str>, bool, Taken<'a>);

/// What `clap` reads the numbers of a range by.
fn parser_of<'a>(range: Range) -> ValueParser<'a>
    ensures { result ≡ range_parser range }
{
    match range {
        Range::Part => value_parser!(u64).range(1..=100001),
        Range::Count => value_parser!(u64).range(1..=100000),
        Range::Hours => value_parser!(u64).range(1..=24),
        Range::Days => value_parser!(u64).range(1..=3650),
        Range::Any => value_parser!(u64),
    }
}

/// The argument with its value.
fn with_value<'a>(arg: Arg<'a>, taken: Taken<'a>) -> Arg<'a>
    ensures { (rule : Rule) → IsArg rule arg.entry → IsArg (value_rule taken.entry rule) result }
{
    match taken {
        Nothing => arg.action(ArgAction::SetTrue),
        Words(name) => arg.value_name(name),
        WordsOr(name, text) => arg.value_name(name).default_value(text),
        Number(name, range) => arg.value_name(name).value_parser(parser_of(range)),
    }
}

/// The argument as `clap` takes it.
fn arg_of<'a>(alloc: Global, argument: Argument<'a>) -> Arg<'a>
    ensures { IsArg (rule_for argument.entry) result }
{
    let Argument(id, help, long, required, taken) = argument;
    let arg = Arg::new(alloc, id).help(help).required(required);
    match long {
        Some(name) => with_value(arg.long(name), taken),
        None => with_value(arg, taken),
    }
}

/// A subcommand.
#[derive(Clone, Copy)]
struct Subcommand<'a> {
    /// Its name.
    name: &'a str,
    /// One sentence on what it does.
    about: &'a str,
    /// How it is called, if its arguments do not say that.
    usage: Option<&'a str>,
    /// A whole line that calls it.
    example: &'a str,
    /// Its arguments, as help shows them.
    arguments: &'a [Argument<'a>],
}

/// The subcommand as `clap` takes it.
fn build_subcommand<'a>(
    alloc: Global,
    subcommand: Subcommand<'a>,
) -> Result<Command<'a>, AllocError>
    ensures { IfOk result (IsCommand (app_for subcommand.entry)) }
{
    let arguments = subcommand.arguments;
    let mut command = Command::new(alloc, subcommand.name)
        .about(subcommand.about)
        .after_help(subcommand.example);
    for &argument in arguments {
        command = command.arg(arg_of(alloc, argument))?;
    }
    match subcommand.usage {
        Some(usage) => Ok(command.override_usage(usage)),
        None => Ok(command),
    }
}

// The subcommands.
const AUDIT: Subcommand<'static> = Subcommand {
    name: "audit",
    about: "Writes the report lines of the whole storage root, of a branch or of a part",
    usage: None,
    example: "\
Example:
  ocfl-scrub audit --under letters /srv/ocfl",
    arguments: AUDIT_ARGUMENTS,
};

const RUN: Subcommand<'static> = Subcommand {
    name: "run",
    about: "Writes the report lines of one run, from where the cursor file says",
    usage: None,
    example: "\
Example:
  ocfl-scrub run --parts root.parts --part 7 --cursor 7.cursor --budget 10G /srv/ocfl",
    arguments: RUN_ARGUMENTS,
};

const CYCLE: Subcommand<'static> = Subcommand {
    name: "cycle",
    about: "Writes the report lines of one run after the other, without a cursor file",
    usage: None,
    example: "\
Example:
  ocfl-scrub cycle --budget 10G --runs 30 /srv/ocfl",
    arguments: CYCLE_ARGUMENTS,
};

const NIGHT: Subcommand<'static> = Subcommand {
    name: "night",
    about: "Makes one night: takes up what the last one left, makes runs until something ends it, \
and writes what was found",
    usage: None,
    example: "\
Example:
  ocfl-scrub night --state /var/lib/audit --until 06:00 /srv/ocfl",
    arguments: NIGHT_ARGUMENTS,
};

const CHECK: Subcommand<'static> = Subcommand {
    name: "check",
    about: "Writes the report lines of one place",
    usage: None,
    example: "\
Example:
  ocfl-scrub check /srv/ocfl letters/v1/content/good.txt",
    arguments: CHECK_ARGUMENTS,
};

const SPLIT: Subcommand<'static> = Subcommand {
    name: "split",
    about: "Writes the separators of parts: with --parts and ROOT by listing, with --budget and \
--report by cost",
    usage: Some(
        "ocfl-scrub split --parts <COUNT> <ROOT>
       ocfl-scrub split --budget <N> --report <FILE>",
    ),
    example: "\
Example:
  ocfl-scrub split --parts 100 /srv/ocfl > root.parts",
    arguments: SPLIT_ARGUMENTS,
};

const JOIN: Subcommand<'static> = Subcommand {
    name: "join",
    about: "Joins the closed reports of all parts of one cycle",
    usage: None,
    example: "\
Example:
  ocfl-scrub join --parts root.parts --state /shared/audit",
    arguments: JOIN_ARGUMENTS,
};

const SHOW: Subcommand<'static> = Subcommand {
    name: "show",
    about: "Writes what a cursor file or a checkpoint says",
    usage: None,
    example: "\
Example:
  ocfl-scrub show root.cursor",
    arguments: SHOW_ARGUMENTS,
};

const CODES: Subcommand<'static> = Subcommand {
    name: "codes",
    about: "Writes what the codes of report lines mean, and what to do first about each",
    usage: None,
    example: "\
Example:
  ocfl-scrub codes | grep E092",
    arguments: CODES_ARGUMENTS,
};

// The arguments of several subcommands.
const ROOT: Argument<'static> = Argument("root", ROOT_HELP, None, true, Words("ROOT"));

const CURSOR: Argument<'static> = Argument(
    "file",
    "The cursor file, which the run replaces; one that is not there is a new cursor",
    Some("cursor"),
    true,
    Words("FILE"),
);

const BUDGET: Argument<'static> = Argument(
    "budget",
    "A run starts a file only while it has read less than N, in bytes and 1 for each file: 1 to \
4611686018427387904, alone or with a unit: K, M, G, T, KiB, MiB, GiB or TiB (powers of 1024), or \
kB, MB, GB or TB (powers of 1000), in capitals or small letters",
    Some("budget"),
    true,
    Words("N"),
);

const FILES: Argument<'static> = Argument(
    "files",
    "The most files that a run starts: N as for the budget",
    Some("files"),
    false,
    WordsOr("N", MAX_FILES),
);

const MAX_FILES: &str = "4611686018427387904";

const PARTS: Argument<'static> = Argument("parts", PARTS_HELP, Some("parts"), false, Words("FILE"));

const PART: Argument<'static> = Argument(
    "part",
    "Takes only this one of the parts: 1 to 100001",
    Some("part"),
    false,
    Number("K", Range::Part),
);

const INVENTORIES: Argument<'static> = Argument(
    "inventories",
    "Also checks the inventories of version directories",
    Some("inventories"),
    false,
    Nothing,
);

const QUIET: Argument<'static> = Argument(
    "quiet",
    "Shows no progress; it is shown where standard error is a terminal",
    Some("quiet"),
    false,
    Nothing,
);

// What help says of an argument that is another one elsewhere.
const ROOT_HELP: &str = "The folder of the storage root";

const PARTS_HELP: &str = "The separators, one a line, which cut the root into parts; split writes \
them";

// The arguments of one subcommand.
const UNDER: Argument<'static> = Argument(
    "under",
    "Takes only this place and what is below it, written as in report lines",
    Some("under"),
    false,
    Words("PLACE"),
);

const RUNS: Argument<'static> = Argument(
    "runs",
    "The most runs: 1 to 100000",
    Some("runs"),
    true,
    Number("COUNT", Range::Count),
);

const STATE: Argument<'static> = Argument(
    "state",
    "The state folder, which keeps the checkpoint, the reports and the log: one for each storage \
root, or for each part of one",
    Some("state"),
    true,
    Words("DIR"),
);

const NIGHT_BUDGET: Argument<'static> = Argument(
    "budget",
    "The night begins no further run once it has read N, in bytes and 1 for each file; N as run \
takes it",
    Some("budget"),
    false,
    Words("N"),
);

const NIGHT_FILES: Argument<'static> = Argument(
    "files",
    "The night begins no further run once it has started N files: N as for the budget",
    Some("files"),
    false,
    Words("N"),
);

const SLICE: Argument<'static> = Argument(
    "slice",
    "How much each run reads before the next checkpoint: N as for the budget",
    Some("slice"),
    false,
    Words("N"),
);

const HOURS: Argument<'static> = Argument(
    "hours",
    "Begins no run once this many hours have passed: 1 to 24",
    Some("hours"),
    false,
    Number("H", Range::Hours),
);

const UNTIL: Argument<'static> = Argument(
    "until",
    "Begins no run after the clock next shows this time: 00:00 to 23:59",
    Some("until"),
    false,
    Words("HH:MM"),
);

const END: Argument<'static> = Argument(
    "end",
    "Begins no run from this time on, in seconds since 1970-01-01 00:00 UTC",
    Some("end"),
    false,
    Number("SECONDS", Range::Any),
);

const EVERY: Argument<'static> = Argument(
    "every",
    "Begins no new cycle before the last one ended DAYS days ago: 1 to 3650; one that is open goes \
on",
    Some("every"),
    false,
    Number("DAYS", Range::Days),
);

const KNOWN: Argument<'static> = Argument(
    "known",
    "A file of known findings, which messages leave out: report lines, one a line",
    Some("known"),
    false,
    Words("FILE"),
);

const EXPECTED: Argument<'static> = Argument(
    "expected",
    "A file of the objects that must be there, one path a line; of a part those that are in it \
count",
    Some("expected"),
    false,
    Words("FILE"),
);

const CREATE: Argument<'static> = Argument(
    "create",
    "Begins the first cycle if the state folder has no checkpoint",
    Some("create"),
    false,
    Nothing,
);

const FORCE_ROOT: Argument<'static> = Argument(
    "force-root",
    "Goes on even if the declaration of ROOT has changed or most of its names are gone; a root at \
another path needs a new state folder",
    Some("force-root"),
    false,
    Nothing,
);

const STOP_AT_FAULTS: Argument<'static> = Argument(
    "stop-at-faults",
    "Ends the night at the first place that cannot be read; without it, a place that fails twice \
is left out of the cycle, with all below it",
    Some("stop-at-faults"),
    false,
    Nothing,
);

const PATH: Argument<'static> = Argument(
    "path",
    "A place in it, as report lines write it or by its real name; . is the root",
    None,
    true,
    Words("PATH"),
);

const COUNT: Argument<'static> = Argument(
    "count",
    "The most parts, of about equally many directories each: 1 to 100000",
    Some("parts"),
    false,
    Number("COUNT", Range::Count),
);

const SPLIT_BUDGET: Argument<'static> = Argument(
    "budget",
    "Each part but the last costs N or one file more, in bytes and 1 for each file; N as run takes \
it",
    Some("budget"),
    false,
    Words("N"),
);

const REPORT: Argument<'static> = Argument(
    "report",
    "A report of the whole storage root, which says what each file cost",
    Some("report"),
    false,
    Words("FILE"),
);

const SPLIT_INVENTORIES: Argument<'static> = Argument(
    "inventories",
    "Changes nothing: the parts are the same for an audit with it",
    Some("inventories"),
    false,
    Nothing,
);

const SPLIT_ROOT: Argument<'static> = Argument("root", ROOT_HELP, None, false, Words("ROOT"));

const JOIN_PARTS: Argument<'static> = Argument(
    "parts",
    PARTS_HELP,
    Some("parts"),
    true,
    Words("FILE"),
);

const JOIN_STATE: Argument<'static> = Argument(
    "state",
    "The folder that has the state folders of the parts: part-000001 and so on",
    Some("state"),
    true,
    Words("DIR"),
);

const SHOWN: Argument<'static> = Argument(
    "file",
    "The cursor file, or the checkpoint of a state folder",
    None,
    true,
    Words("FILE"),
);

const JSON: Argument<'static> = Argument(
    "json",
    "As JSON, for programs: an array with an object for each code",
    Some("json"),
    false,
    Nothing,
);

// The arguments of each subcommand, as help shows them.
const AUDIT_ARGUMENTS: &[Argument<'static>] = &[UNDER, PARTS, PART, INVENTORIES, QUIET, ROOT];

const RUN_ARGUMENTS: &[Argument<'static>] = &[
    CURSOR,
    BUDGET,
    FILES,
    PARTS,
    PART,
    INVENTORIES,
    QUIET,
    ROOT,
];

const CYCLE_ARGUMENTS: &[Argument<'static>] = &[BUDGET, FILES, RUNS, INVENTORIES, QUIET, ROOT];

const NIGHT_ARGUMENTS: &[Argument<'static>] = &[
    STATE,
    NIGHT_BUDGET,
    NIGHT_FILES,
    SLICE,
    HOURS,
    UNTIL,
    END,
    EVERY,
    PARTS,
    PART,
    INVENTORIES,
    KNOWN,
    EXPECTED,
    CREATE,
    FORCE_ROOT,
    STOP_AT_FAULTS,
    ROOT,
];

const CHECK_ARGUMENTS: &[Argument<'static>] = &[INVENTORIES, ROOT, PATH];

const SPLIT_ARGUMENTS: &[Argument<'static>] = &[
    COUNT,
    SPLIT_BUDGET,
    REPORT,
    SPLIT_INVENTORIES,
    SPLIT_ROOT,
];

const JOIN_ARGUMENTS: &[Argument<'static>] = &[JOIN_PARTS, JOIN_STATE];

const SHOW_ARGUMENTS: &[Argument<'static>] = &[SHOWN];

const CODES_ARGUMENTS: &[Argument<'static>] = &[JSON];

// The program's own texts, without its subcommands.
fn bare_command<'a>(alloc: Global) -> Command<'a>
    ensures { IsCommand bare_app result }
{
    Command::new(alloc, "ocfl-scrub")
        .about("Audits the fixity of OCFL 1.1 storage roots, within a read budget")
        .after_help(AFTER_HELP)
        .version(VERSION)
        .subcommand_required(true)
}

// All of them, as help shows them.
const SUBCOMMANDS: &[Subcommand<'static>] = &[
    AUDIT, RUN, CYCLE, NIGHT, CHECK, SPLIT, JOIN, SHOW, CODES,
];

/// All subcommands.
fn all_subcommands() -> &'static [Subcommand<'static>]
    // With them the program's own texts are the whole command line.
    ensures { with_subcommands bare_app result.now ≡ line_app }
{
    SUBCOMMANDS
}

/// The command that reads the words of a command line.
pub(crate) fn line_command<'a>(alloc: Global) -> Result<Command<'a>, AllocError>
    ensures { IfOk result (IsCommand line_app) }
{
    let subcommands = all_subcommands();
    let mut command = bare_command(alloc);
    for &subcommand in subcommands {
        command = command.subcommand(build_subcommand(alloc, subcommand)?)?;
    }
    Ok(command)
}

/// The subcommand of this name.
fn find_subcommand(name: &str) -> Subcommand<'static> {
    for &subcommand in all_subcommands() {
        if subcommand.name == name {
            return subcommand;
        }
    }
    SHOW
}

/// The subcommand of this name by itself, which shows its usage as the whole command does.
pub(crate) fn single_command<'a>(alloc: Global, name: &str) -> Result<Command<'a>, AllocError> {
    let shown = format!(in alloc; "ocfl-scrub {name}")?;
    build_subcommand(alloc, find_subcommand(name))?.bin_name(shown.as_str())
}
