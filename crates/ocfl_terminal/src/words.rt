//! The words of the command line, and what they ask for.
ghost use Rattle.std.specs.Prelude.{◌≡◌, List, IfOk, OnOk, map, string_bytes};
ghost use Rattle.ocfl_tree.specs.Place.{Text};
ghost use Rattle.ocfl_terminal.specs.Absolute.{IsAskedAbsolute};
ghost use Rattle.ocfl_terminal.specs.Words.{IsGiven, named};

use crate::absolute::make_asked_absolute;
use crate::version::print_build;
use clap::error::ErrorKind;
use ocfl_arguments::{Asked, CommandStop, asked};
use ocfl_files::saying::{STOPPED, USAGE, say, say_out_of_memory};
use std::alloc::{AllocError, Global};
use std::rt::{Env, Files};
use std::{env, io};

/// Reads the words of the command line. Fails with the status if they cannot be read.
fn read_words<R: Env + AllocGlobal + Eprint>(rt: &R) -> Result<Vec<String>, u8> {
    let read = match env::args(rt) {
        Ok(words) => words.collect(rt.alloc()).ok(),
        Err(error) if error.kind() == io::ErrorKind::InvalidData => {
            say(rt, "an argument is not UTF-8");
            return Err(USAGE);
        }
        Err(_) => None,
    };
    match read {
        Some(words) => Ok(words),
        None => Err(say_out_of_memory(rt)),
    }
}

/// Puts the program's name in the place of the first word: usage texts name the program by it,
/// whatever its file is called.
fn name_program(alloc: Global, words: &mut Vec<String>) -> Result<(), AllocError>
    ensures { OnOk result
        (map string_bytes words.new.items ≡ named (map string_bytes words.old.items)) }
{
    if let Some(first) = words.first_mut() {
        *first = String::from_str(alloc, "ocfl-scrub")?;
    }
    Ok(())
}

/// Prints the help or the version that was asked for, or says what is wrong with a command line.
fn print_usage<R>(rt: &R, error: &clap::Error) -> u8
where
    R: Files + AllocGlobal + Print + Eprint,
{
    let mut printed = error.print(rt);
    if error.use_stderr() {
        return USAGE;
    }
    if printed.is_ok() && error.kind() == ErrorKind::DisplayVersion {
        printed = print_build(rt);
    }
    if printed.is_err() {
        say(rt, "output failed");
        return STOPPED;
    }
    0
}

/// Says that paths are not known because the folder in which the program was started has none, and
/// gives the status.
fn say_no_path<R: Eprint>(rt: &R, error: &io::Error) -> u8 {
    if error.kind() == io::ErrorKind::OutOfMemory {
        return say_out_of_memory(rt);
    }
    let _ = eprintln!(rt;
        "ocfl-scrub: the current folder has no path ({error}): give paths from / on"
    );
    STOPPED
}

/// What words ask for, with paths from `/` on. Otherwise says or prints why nothing is to be done,
/// and fails with the status.
fn asked_by<R>(rt: &R, words: &[String]) -> Result<Asked, u8>
where
    R: Files + Env + AllocGlobal + Print + Eprint,
    ensures { IfOk result (IsGiven (map string_bytes words.now)) }
{
    match asked(rt.alloc(), words) {
        Ok(asked) => with_absolute_paths(rt, asked),
        Err(CommandStop::Usage(error)) => Err(print_usage(rt, &error)),
        Err(CommandStop::Memory) => Err(say_out_of_memory(rt)),
    }
}

/// What is asked for, with absolute paths. Otherwise says why there are none, and fails with the
/// status.
fn with_absolute_paths<R: Env + AllocGlobal + Eprint>(rt: &R, asked: Asked) -> Result<Asked, u8>
    ensures { IfOk result (λ new. (here : Text) × IsAskedAbsolute here asked new) }
{
    let mut asked = asked;
    match make_asked_absolute(rt, &mut asked) {
        Ok(()) => Ok(asked),
        Err(error) => Err(say_no_path(rt, &error)),
    }
}

/// What the command line asks for, with paths from `/` on. Otherwise says or prints why nothing is
/// to be done, as the help that was asked for, and fails with the status.
pub fn read_asked<R>(rt: &R) -> Result<Asked, u8>
where
    R: Files + Env + AllocGlobal + Print + Eprint,
    ensures { IfOk result (λ given. (words : List Text) × IsGiven (named words) given) }
{
    let words = read_words(rt)?;
    given_by(rt, words)
}

/// The same by its words, in which the program is named so.
#[tactic(auto, using(crate::proofs::Givens::given_named))]
fn given_by<R>(rt: &R, words: Vec<String>) -> Result<Asked, u8>
where
    R: Files + Env + AllocGlobal + Print + Eprint,
    ensures { IfOk result (IsGiven (named (map string_bytes words.items))) }
{
    let mut words = words;
    match name_program(rt.alloc(), &mut words) {
        Ok(()) => asked_by(rt, words.as_slice()),
        Err(AllocError) => Err(say_out_of_memory(rt)),
    }
}
