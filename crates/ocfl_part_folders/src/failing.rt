//! What is said of a call that failed, and which trouble that is for a joining.
ghost use Rattle.std.specs.Prelude.{◌≡◌, ◌≢◌, ◌++◌, List, ℕ, IfOk, IfSome, codes, string_bytes};
ghost use Rattle.std.specs.IoError.{error_kind};
ghost use Rattle.ocfl_files.specs.Failing.{OrMemory, Says, StopsOn, out_of_memory, stopped_status};
ghost use Rattle.ocfl_part_folders.specs.Refusing.{IsCallOf, SaysWords, gone_text, other_text, trouble_of as trouble_by};

use ocfl_files::failing::Failure;
use ocfl_files::making::failed_file;
use ocfl_joining::{FailedCall, ReportTrouble};
use ocfl_messages::Shown;
use std::alloc::{AllocError, Global};
use std::io::{self, ErrorKind};

/// That the closed report of a part is gone.
pub(crate) fn gone(alloc: Global) -> Failure
    ensures { OrMemory (Says stopped_status gone_text) result }
{
    Failure::saying(String::from_str(alloc, "it is gone\n"))
}

/// That a file in place of a joined report is not that.
fn other(alloc: Global, path: &str) -> Failure
    ensures { OrMemory (Says stopped_status (other_text path.now)) result }
{
    Failure::saying(format!(in alloc; "{}: is not the joined report\n", Shown(path)))
}

/// What is said of a file in place of a joined report that was not read to its end, or ended too
/// soon.
fn unread(alloc: Global, path: &str, error: &io::Error) -> Failure
    ensures end { error_kind error.now ≡ ErrorKind.UnexpectedEof
        → OrMemory (Says stopped_status (other_text path.now)) result }
    ensures failed { error_kind error.now ≢ ErrorKind.UnexpectedEof
        → OrMemory (StopsOn path.now) result }
{
    match error.kind() {
        ErrorKind::UnexpectedEof => other(alloc, path),
        _ => failed_file(alloc, path, error),
    }
}

/// What is said of a file in place of a joined report that is not that, or was not read.
pub(crate) fn unjoined(alloc: Global, path: &str, error: &Option<io::Error>) -> Failure
    ensures other { error.now ≡ None
        → OrMemory (Says stopped_status (other_text path.now)) result }
    ensures end { IfSome error.now (λ error. error_kind error ≡ ErrorKind.UnexpectedEof
        → OrMemory (Says stopped_status (other_text path.now)) result) }
    ensures failed { IfSome error.now (λ error. error_kind error ≢ ErrorKind.UnexpectedEof
        → OrMemory (StopsOn path.now) result) }
{
    match error {
        Some(error) => unread(alloc, path, error),
        None => other(alloc, path),
    }
}

/// A line of the system's words.
fn line_of(alloc: Global, error: &io::Error) -> Result<String, AllocError>
    ensures { IfOk result (λ text. (words : List ℕ) × (string_bytes text ≡ words ++ codes "\n")) }
{
    let words = format!(in alloc; "{error}")?;
    format!(in alloc; "{words}\n")
}

/// What is said of the report of a part that was not read on.
pub(crate) fn failed_report(alloc: Global, error: &io::Error) -> Failure
    ensures said { OrMemory SaysWords result }
    ensures memory { error_kind error.now ≡ ErrorKind.OutOfMemory → result ≡ out_of_memory }
{
    match error.kind() {
        ErrorKind::OutOfMemory => Failure::from(AllocError),
        _ => Failure::saying(line_of(alloc, error)),
    }
}

/// A line without its line feed.
fn without_end(line: &str) -> &str
    ensures { (words : List ℕ) → line.now ≡ words ++ codes "\n" → result.now ≡ words }
{
    match line.strip_suffix('\n') {
        Some(words) => words,
        None => line,
    }
}

/// What was said of a call that failed, without its line feed. `None` if memory was refused.
pub(crate) fn call_of(alloc: Global, failure: &Failure) -> Option<FailedCall>
    ensures { IfSome result (λ call. IsCallOf failure.now call) }
{
    let Some(text) = &failure.text else {
        return None;
    };
    match String::from_str(alloc, without_end(text.as_str())) {
        Ok(text) => Some(FailedCall {
            status: failure.status,
            text,
        }),
        Err(_) => None,
    }
}

/// The trouble that a failure is for a joining.
pub(crate) fn trouble_of(failure: &Failure) -> ReportTrouble
    ensures { result ≡ trouble_by failure.now }
{
    match failure.text {
        Some(_) => ReportTrouble::Failed,
        None => ReportTrouble::Memory,
    }
}
