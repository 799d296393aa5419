//! How the files of closed cycles are called.
ghost use Rattle.std.specs.Prelude.{◌≡◌, IfOk, false, string_bytes};
ghost use Rattle.ocfl_kept.specs.FilePaths.{packed_path as path_of_packed};
ghost use Rattle.ocfl_closing.specs.Calls.{reports_path as path_of_reports};
ghost use Rattle.ocfl_closing.specs.Naming.{ArePaths, earlier_path as path_of_earlier, path_of};

use ocfl_accounts::{ClosedCycle, Pair};
use ocfl_closed::Paths;
use ocfl_kept::kept::{list_path, report_path};
use std::alloc::{AllocError, Global};

/// The path of the report of a cycle.
fn report_of(alloc: Global, state: &str, cycle: &ClosedCycle) -> Result<String, AllocError>
    ensures { IfOk result (λ path. string_bytes path ≡ path_of state.now cycle.now) }
{
    report_path(alloc, state, cycle.cycle(), cycle.is_whole())
}

/// The path of the earlier report that one is compared with. Empty without such a report.
fn earlier_path(alloc: Global, state: &str, pair: &Pair) -> Result<String, AllocError>
    ensures { IfOk result (λ path. string_bytes path
        ≡ path_of_earlier state.now pair.now.before) }
{
    match &pair.before {
        Some(before) => report_of(alloc, state, before),
        None => Ok(String::new(alloc)),
    }
}

/// The paths of a cycle's files.
pub(crate) fn paths_of(alloc: Global, state: &str, pair: &Pair) -> Result<Paths, AllocError>
    ensures { IfOk result (λ paths. ArePaths state.now pair.now paths) }
{
    Ok(Paths {
        report: report_of(alloc, state, &pair.closed)?,
        earlier: earlier_path(alloc, state, pair)?,
        list: list_path(alloc, state, pair.closed.cycle())?,
    })
}

/// The path of the folder of the closed reports.
pub(crate) fn reports_path(alloc: Global, state: &str) -> Result<String, AllocError>
    ensures { IfOk result (λ path. string_bytes path ≡ path_of_reports state.now) }
{
    format!(in alloc; "{state}/reports")
}

/// The path of the report of a cycle that is not whole, when it is compressed.
pub(crate) fn packed_path(alloc: Global, state: &str, cycle: u64) -> Result<String, AllocError>
    ensures { IfOk result (λ path. string_bytes path ≡ path_of_packed state.now cycle false) }
{
    let mut path = report_path(alloc, state, cycle, false)?;
    path.push_str(".gz")?;
    Ok(path)
}
