//! What is said of words that `clap` takes and that ask for nothing.
ghost use Rattle.std.specs.Prelude.{◌≡◌, IfOk};
ghost use Rattle.clap.specs.Values.{kind_of};
ghost use Rattle.clap.specs.declared.error.kind.ErrorKind.TheVariants.{ValueValidation};

use crate::budget::read_amount;
use crate::command::{line_command, single_command};
use crate::values::{is_left_out, text_of};
use clap::error::ErrorKind;
use clap::{ArgMatches, Command};
use std::alloc::{AllocError, Global};

/// What is wrong with words that `clap` takes and that ask for nothing.
#[derive(Clone, Copy)]
enum Complaint<'a> {
    /// The value of the option with this id is no size.
    Size { id: &'a str, value: &'a str },
    /// A part is chosen by its file alone, or by its number alone.
    Unpaired,
    /// A part is chosen beside a branch.
    Both,
    /// The words are not those of one way to split.
    Split,
    /// A night has more than one end.
    Ends,
    /// The value of `--until` is no time of day.
    Time { value: &'a str },
}

impl Complaint<'_> {
    /// The text for the user.
    fn text(self, alloc: Global) -> Result<String, AllocError> {
        match self {
            Complaint::Size { id, value } => format!(in alloc;
                "invalid value '{value}' for '--{id} <N>': N is 1 to 4611686018427387904, as \
                 digits alone or with K, M, G, T, KiB, MiB, GiB or TiB (powers of 1024), or kB, \
                 MB, GB or TB (powers of 1000)"
            ),
            Complaint::Unpaired => String::from_str(
                alloc,
                "'--parts <FILE>' and '--part <K>' must be used together",
            ),
            Complaint::Both => String::from_str(
                alloc,
                "'--under <PLACE>' cannot be used with '--parts <FILE>' or '--part <K>'",
            ),
            Complaint::Split => String::from_str(
                alloc,
                "'split' takes either '--parts <COUNT>' and '<ROOT>', \
                 or '--budget <N>' and '--report <FILE>'",
            ),
            Complaint::Ends => String::from_str(
                alloc,
                "only one of '--hours <H>', '--until <HH:MM>' and '--end <SECONDS>' can be used",
            ),
            Complaint::Time { value } => format!(in alloc;
                "invalid value '{value}' for '--until <HH:MM>': HH:MM is 00:00 to 23:59"
            ),
        }
    }
}

/// The error of words that `clap` takes and that ask for nothing, with the usage of their
/// subcommand; `clap` takes none without one.
pub(crate) fn usage_error(
    alloc: Global,
    matches: &ArgMatches<'_>,
) -> Result<clap::Error, AllocError>
    ensures { IfOk result (λ error. kind_of error ≡ ValueValidation) }
{
    match matches.subcommand() {
        Some((name, inner)) => {
            let text = find_complaint(name, inner).text(alloc)?;
            error_of(single_command(alloc, name)?, text.as_str())
        }
        None => error_of(line_command(alloc)?, "a subcommand is required"),
    }
}

/// An error with this text and the usage of a command.
fn error_of(command: Command<'_>, text: &str) -> Result<clap::Error, AllocError>
    ensures { IfOk result (λ error. kind_of error ≡ ValueValidation) }
{
    let mut command = command;
    command.error(ErrorKind::ValueValidation, text)
}

/// What is wrong with the words of the subcommand with this name.
fn find_complaint<'a>(name: &str, inner: &ArgMatches<'a>) -> Complaint<'a> {
    if name == "split" && !is_by_report(inner) {
        return Complaint::Split;
    }
    let has_file = !is_left_out(inner, "parts");
    let has_number = !is_left_out(inner, "part");
    if (has_file || has_number) && !is_left_out(inner, "under") {
        return Complaint::Both;
    }
    if has_file != has_number {
        return Complaint::Unpaired;
    }
    find_value(inner)
}

/// What is wrong with a value, or with the ends of a night, if all other words go together.
fn find_value<'a>(inner: &ArgMatches<'a>) -> Complaint<'a> {
    for id in ["budget", "files", "slice"] {
        if !is_left_out(inner, id) && !is_size(inner, id) {
            let value = text_of(inner, id).unwrap_or("");
            return Complaint::Size { id, value };
        }
    }
    if !is_left_out(inner, "hours") || !is_left_out(inner, "end") {
        return Complaint::Ends;
    }
    let value = text_of(inner, "until").unwrap_or("");
    Complaint::Time { value }
}

/// Whether the words are those of a split by a report, whatever its budget is.
fn is_by_report(inner: &ArgMatches<'_>) -> bool {
    let is_whole = !is_left_out(inner, "budget") && !is_left_out(inner, "report");
    is_whole && is_left_out(inner, "count") && is_left_out(inner, "root")
}

/// Whether the value of an option is a size.
fn is_size(inner: &ArgMatches<'_>, id: &str) -> bool {
    match text_of(inner, id) {
        Some(value) => read_amount(value).is_some(),
        None => false,
    }
}
