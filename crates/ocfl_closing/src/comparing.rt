//! Comparing the closed reports of a state folder.
ghost use Rattle.std.specs.Prelude.{◌≡◌, IsErr};
ghost use Rattle.ocfl_files.specs.Failing.{OrMemory, Says, StopsOn, out_of_memory};
ghost use Rattle.ocfl_files.specs.Failing.{stopped_status};
ghost use Rattle.ocfl_kept.specs.FilePaths.{list_path as path_of_list};
ghost use Rattle.ocfl_kept.specs.FilePaths.{report_path as path_of_report};
ghost use Rattle.ocfl_closing.specs.Comparing.{SaysSome, changed_text, gone_text};
ghost use Rattle.ocfl_closing.specs.Comparing.{uncompared_text, uncounted_text};

use ocfl_compare::CompareStop;
use ocfl_files::failing::Failure;
use ocfl_files::making::failed_file;
use ocfl_kept::kept::{list_path, report_path};
use ocfl_messages::Shown;
use std::alloc::{AllocError, Global};
use std::io;

/// Why a comparison stopped, with the words of the reader that failed.
fn words_of(
    alloc: Global,
    stop: CompareStop,
    error: Option<io::Error>,
) -> Result<String, AllocError>
    ensures { stop ≡ CompareStop.Memory → IsErr result }
{
    match (stop, error) {
        (CompareStop::Memory, _) => Err(AllocError),
        (CompareStop::BeforeFailed | CompareStop::NowFailed, Some(error)) => {
            format!(in alloc; "{stop}: {error}")
        }
        _ => format!(in alloc; "{stop}"),
    }
}

/// That two reports were not compared, with words why.
fn uncompared_for(alloc: Global, cycle: u64, before: u64, words: &str) -> Failure
    ensures { OrMemory (Says stopped_status (uncompared_text cycle before words.now)) result }
{
    Failure::saying(format!(in alloc;
        "the report of cycle {cycle} was not compared with that of cycle {before}: {words}\n"
    ))
}

/// Why two reports were not compared.
pub(crate) fn uncompared(
    alloc: Global,
    cycle: u64,
    before: u64,
    stop: CompareStop,
    error: Option<io::Error>,
) -> Failure
    ensures said { OrMemory (SaysSome (uncompared_text cycle before)) result }
    ensures memory { stop ≡ CompareStop.Memory → result ≡ out_of_memory }
{
    match words_of(alloc, stop, error) {
        Ok(words) => uncompared_for(alloc, cycle, before, words.as_str()),
        Err(error) => Failure::from(error),
    }
}

/// That the report of a cycle which is to be read is not there.
pub(crate) fn gone_report(alloc: Global, state: &str, cycle: u64) -> Failure
    ensures { OrMemory (Says stopped_status (gone_text state.now cycle)) result }
{
    Failure::saying(format!(in alloc;
        "the report of cycle {cycle} is gone from {}\n",
        Shown(state)
    ))
}

/// That the report of a cycle, one of a pair, was changed since it was closed.
pub(crate) fn changed_report(alloc: Global, cycle: u64, before: u64, changed: u64) -> Failure
    ensures { OrMemory (Says stopped_status (changed_text cycle before changed)) result }
{
    Failure::saying(format!(in alloc;
        "the report of cycle {cycle} was not compared with that of cycle {before}: that of \
         cycle {changed} was changed since it was closed\n"
    ))
}

/// That the lines of the report of a cycle could not be counted, with words why.
fn uncounted_for(alloc: Global, state: &str, cycle: u64, words: &str) -> Failure
    ensures { OrMemory (Says stopped_status (uncounted_text state.now cycle words.now)) result }
{
    Failure::saying(format!(in alloc;
        "the report of cycle {cycle} in {}: {words}\n",
        Shown(state)
    ))
}

/// Why the lines of the report of a cycle could not be counted.
pub(crate) fn uncounted(
    alloc: Global,
    state: &str,
    cycle: u64,
    stop: CompareStop,
    error: Option<io::Error>,
) -> Failure
    ensures said { OrMemory (SaysSome (uncounted_text state.now cycle)) result }
    ensures memory { stop ≡ CompareStop.Memory → result ≡ out_of_memory }
{
    match words_of(alloc, stop, error) {
        Ok(words) => uncounted_for(alloc, state, cycle, words.as_str()),
        Err(error) => Failure::from(error),
    }
}

/// That the closed report of a cycle could not be read.
pub(crate) fn failed_report(
    alloc: Global,
    state: &str,
    cycle: u64,
    whole: bool,
    error: &io::Error,
) -> Failure
    ensures { OrMemory (StopsOn (path_of_report state.now cycle whole)) result }
{
    match report_path(alloc, state, cycle, whole) {
        Ok(path) => failed_file(alloc, path.as_str(), error),
        Err(error) => Failure::from(error),
    }
}

/// That the list of what is gone at the end of a cycle could not be read.
pub(crate) fn failed_list(alloc: Global, state: &str, cycle: u64, error: &io::Error) -> Failure
    ensures { OrMemory (StopsOn (path_of_list state.now cycle)) result }
{
    match list_path(alloc, state, cycle) {
        Ok(path) => failed_file(alloc, path.as_str(), error),
        Err(error) => Failure::from(error),
    }
}
