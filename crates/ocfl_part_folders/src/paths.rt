//! The paths of joined reports, in the folder of all parts.
ghost use Rattle.std.specs.Prelude.{◌≡◌, IfOk, string_bytes};
ghost use Rattle.ocfl_report.specs.Text.{escape};
ghost use Rattle.ocfl_kept.specs.FilePaths.{packed_path as path_of_packed};
ghost use Rattle.ocfl_part_folders.specs.Folder.{new_path as path_of_new, reports_path as path_of_reports};

use ocfl_kept::kept::report_path;
use ocfl_messages::Shown;
use std::alloc::{AllocError, Global};

/// The path of the folder of the joined reports.
pub(crate) fn reports_path(alloc: Global, folder: &str) -> Result<String, AllocError>
    ensures { IfOk result (λ path. string_bytes path ≡ path_of_reports folder.now) }
{
    format!(in alloc; "{folder}/reports")
}

/// The path of the file in which the joined report of a cycle is made.
pub(crate) fn new_path(alloc: Global, folder: &str, cycle: u64) -> Result<String, AllocError>
    ensures { IfOk result (λ path. string_bytes path ≡ path_of_new folder.now cycle) }
{
    let mut path = report_path(alloc, folder, cycle, true)?;
    path.push_str(".new")?;
    Ok(path)
}

/// The path of the joined report of a cycle when it is compressed.
pub(crate) fn packed_path(
    alloc: Global,
    folder: &str,
    cycle: u64,
    whole: bool,
) -> Result<String, AllocError>
    ensures { IfOk result (λ path. string_bytes path ≡ path_of_packed folder.now cycle whole) }
{
    let mut path = report_path(alloc, folder, cycle, whole)?;
    path.push_str(".gz")?;
    Ok(path)
}

/// A path as it is shown.
pub(crate) fn shown(alloc: Global, path: &str) -> Result<String, AllocError>
    ensures { IfOk result (λ text. string_bytes text ≡ escape path.now) }
{
    format!(in alloc; "{}", Shown(path))
}
