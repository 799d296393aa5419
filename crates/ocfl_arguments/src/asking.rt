//! Reading a command line, or saying why it asks for nothing.
ghost use Rattle.std.specs.Prelude.{◌≡◌, [], IfOk, IfErr, map};
ghost use Rattle.clap.specs.Words.{fault_of, subcommand_of};
ghost use Rattle.ocfl_arguments.specs.{Line.{IsCommand, line_app}, Asks.{Asks}, Stop.{StopsRightly}};

use crate::command::line_command;
use crate::complaint::usage_error;
use crate::reading::asked_by;
use crate::stop::CommandStop;
use crate::task::Asked;
use clap::Command;
use std::alloc::Global;
use std::convert::AsStr;

/// What the words of a command line ask for, of which the first is the program's name. Fails with
/// `Usage` if they are not understood, or ask for help or the version, and with `Memory` if
/// memory was refused.
pub fn asked<'a, S: AsStr>(alloc: Global, words: &'a [S]) -> Result<Asked, CommandStop>
    // If there is an answer, `clap` finds no fault in the words, and the answer is what they
    // ask.
    ensures asked { IfOk result (Asks (subcommand_of line_app (map S.text words.entry.now))) }
    ensures faultless { IfOk result (λ _. fault_of line_app (map S.text words.entry.now) ≡ []) }
    // Of usage there is a fault: one that `clap` finds, or the words ask for nothing.
    ensures stop { IfErr result (StopsRightly (map S.text words.entry.now)) }
{
    let mut command = line_command(alloc)?;
    read_words(alloc, &mut command, words)
}

/// The same, of the command that reads the words.
fn read_words<'a, S: AsStr>(
    alloc: Global,
    command: &mut Command<'a>,
    words: &'a [S],
) -> Result<Asked, CommandStop>
    requires { IsCommand line_app command.old }
    ensures asked { IfOk result (Asks (subcommand_of line_app (map S.text words.entry.now))) }
    ensures faultless { IfOk result (λ _. fault_of line_app (map S.text words.entry.now) ≡ []) }
    ensures stop { IfErr result (StopsRightly (map S.text words.entry.now)) }
{
    let matches = command.try_get_matches_from_mut(words)?;
    match asked_by(alloc, &matches)? {
        Some(asked) => Ok(asked),
        None => Err(CommandStop::Usage(usage_error(alloc, &matches)?)),
    }
}
