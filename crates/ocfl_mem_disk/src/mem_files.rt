//! Looking for files in memory by their paths.
ghost use Rattle.std.specs.Prelude.{◌≡◌, IfOk, None, Some, false, is_some, option_map, true};
ghost use Rattle.std.specs.List.{find};
ghost use Rattle.ocfl_tree.specs.Place.{Text};
ghost use Rattle.ocfl_kept.specs.FilePaths.{report_path as path_of_report};
ghost use Rattle.ocfl_part_folders.specs.Folder.{first_of, found_by as found_by_these};
ghost use Rattle.ocfl_state.specs.Calls.{bytes_of};
ghost use Rattle.ocfl_mem_disk.specs.Paths.{bytes_at as bytes_at_path, has_file as has_file_at};
ghost use Rattle.ocfl_mem_disk.specs.Paths.{is_at};

use crate::mem_file::MemFile;
use ocfl_joining::FoundReport;
use ocfl_kept::kept::report_path;
use std::alloc::{AllocError, Global};

/// The first file with a path.
fn file_at<'a>(files: &'a [MemFile], path: &str) -> Option<&'a MemFile>
    ensures { option_map (λ file. file.now) result ≡ find (is_at path.now) files.now }
{
    files.iter().find(|file| file.path.as_str() == path)
}

/// Whether a file has a path.
pub(crate) fn has_file(files: &[MemFile], path: &str) -> bool
    ensures { result ≡ has_file_at files.now path.now }
{
    file_at(files, path).is_some()
}

/// The bytes of the file with a path.
pub(crate) fn text_at<'a>(files: &'a [MemFile], path: &str) -> Option<&'a [u8]>
    ensures { option_map (λ text. text.now) result ≡ bytes_at_path files.now path.now }
{
    match file_at(files, path) {
        Some(file) => Some(file.bytes.as_slice()),
        None => None,
    }
}

/// These bytes, if there are any, copied.
pub(crate) fn copied(alloc: Global, bytes: Option<&[u8]>) -> Result<Option<Vec<u8>>, AllocError>
    ensures { IfOk result (λ copy. option_map bytes_of copy
        ≡ option_map (λ bytes. bytes.now) bytes.entry) }
{
    match bytes {
        Some(bytes) => Ok(Some(bytes.to_vec(alloc)?)),
        None => Ok(None),
    }
}

/// The bytes of the file with a path, copied.
pub(crate) fn bytes_at(
    alloc: Global,
    files: &[MemFile],
    path: &str,
) -> Result<Option<Vec<u8>>, AllocError>
    ensures { IfOk result (λ found. option_map bytes_of found ≡ bytes_at_path files.now path.now) }
{
    match file_at(files, path) {
        Some(file) => Ok(Some(file.bytes.to_vec(alloc)?)),
        None => Ok(None),
    }
}

/// The closed report of a cycle, by the path of a state folder, whole or not.
pub(crate) fn closed_as(
    alloc: Global,
    files: &[MemFile],
    part: &str,
    cycle: u64,
    whole: bool,
) -> Result<Option<Vec<u8>>, AllocError>
    ensures { IfOk result (λ found. option_map bytes_of found
        ≡ bytes_at_path files.now (path_of_report part.now cycle whole)) }
{
    let path = report_path(alloc, part, cycle, whole)?;
    bytes_at(alloc, files, path.as_str())
}

/// The same of the one that is whole, and else of the other one.
pub(crate) fn closed_at(
    alloc: Global,
    files: &[MemFile],
    part: &str,
    cycle: u64,
) -> Result<Option<Vec<u8>>, AllocError>
    ensures { IfOk result (λ found. option_map bytes_of found
        ≡ first_of (bytes_at_path files.now (path_of_report part.now cycle true))
        (bytes_at_path files.now (path_of_report part.now cycle false))) }
{
    match closed_as(alloc, files, part, cycle, true)? {
        Some(bytes) => Ok(Some(bytes)),
        None => closed_as(alloc, files, part, cycle, false),
    }
}

/// A report of which nothing was kept.
fn found(whole: bool) -> Option<FoundReport>
    ensures { result ≡ Some (record { whole = whole; kept = None }) }
{
    Some(FoundReport { whole, kept: None })
}

/// The closed report of a part that is found, by the path of its folder.
pub(crate) fn find_at(
    alloc: Global,
    files: &[MemFile],
    part: &str,
    cycle: u64,
) -> Result<Option<FoundReport>, AllocError>
    ensures { IfOk result (λ found. found
        ≡ found_by_these (bytes_at_path files.now (path_of_report part.now cycle true))
        (bytes_at_path files.now (path_of_report part.now cycle false)) None) }
{
    if closed_as(alloc, files, part, cycle, true)?.is_some() {
        return Ok(found(true));
    }
    if closed_as(alloc, files, part, cycle, false)?.is_some() {
        return Ok(found(false));
    }
    Ok(None)
}
