//! What is said of a list that cannot be used.
ghost use Rattle.std.specs.Prelude.{◌≡◌, ◌++◌, IfOk, MatchResult, Some, codes, string_bytes};
ghost use Rattle.ocfl_tree.specs.Place.{Text};
ghost use Rattle.ocfl_report.specs.Text.{escape};
ghost use Rattle.ocfl_files.specs.Failing.{OrMemory, file_line, out_of_memory, usage_status};
ghost use Rattle.ocfl_reading.specs.Using.{RefusesOn};

use ocfl_files::failing::Failure;
use ocfl_messages::Shown;
use std::alloc::{AllocError, Global};
use std::fmt::Display;

/// These words on a file.
pub(crate) fn words_on(alloc: Global, file: &str, words: &str) -> Result<String, AllocError>
    ensures { IfOk result (λ text. string_bytes text
        ≡ escape file.now ++ (codes ": " ++ words.now)) }
{
    format!(in alloc; "{}: {words}", Shown(file))
}

/// The line on a file that says why it was not read.
fn line_on<D: Display>(alloc: Global, file: &str, stop: &D) -> Result<String, AllocError>
    ensures { IfOk result (λ line. (words : Text)
        × (string_bytes line ≡ file_line file.now words)) }
{
    let words = format!(in alloc; "{stop}")?;
    let mut line = words_on(alloc, file, words.as_str())?;
    line.push('\n')?;
    Ok(line)
}

/// Why a list was not read.
pub(crate) fn unread<D: Display>(alloc: Global, file: &str, stop: &D) -> Failure
    ensures { OrMemory (RefusesOn file.now) result }
{
    refused(line_on(alloc, file, stop))
}

/// A list that cannot be used, or that there was no memory to say so.
pub(crate) fn refused(text: Result<String, AllocError>) -> Failure
    ensures { MatchResult text
        (λ text. result ≡ record { status = usage_status; text = Some text })
        (λ _. result ≡ out_of_memory) }
{
    match text {
        Ok(text) => Failure::usage(text),
        Err(error) => Failure::from(error),
    }
}
