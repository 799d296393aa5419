//! Making files and folders beside those of a state folder.
ghost use Rattle.std.specs.Prelude.{◌≡◌, ◌≢◌, ◌↔◌, IfErr, IfOk, IsErr, IsOk, IsTrue, None, Ok, true};
ghost use Rattle.std.specs.Prelude.{codes, string_bytes};
ghost use Rattle.std.specs.{Fs.{asks_create_new, asks_write}, IoError.{error_kind}};
ghost use Rattle.ocfl_files.specs.Failing.{OrMemory, Says, StopsOn, file_line, stopped_status};

use crate::failing::Failure;
use crate::files::sync_name;
use ocfl_messages::Shown;
use std::alloc::{AllocError, Global};
use std::fs::{self, DirBuilder, OpenFile, OpenOptions};
use std::io::{self, ErrorKind};
use std::os::unix::fs::{DirBuilderExt, OpenOptionsExt};
use std::rt::Files;

/// Who may read and write a file that is made: its owner, and its group may read.
pub const FILE_MODE: u32 = 0o640;

/// The same of a folder.
const FOLDER_MODE: u32 = 0o750;

/// The line on a file.
fn line_on(alloc: Global, path: &str, words: &str) -> Result<String, AllocError>
    ensures { IfOk result (λ text. string_bytes text ≡ file_line path.now words.now) }
{
    format!(in alloc; "{}: {words}\n", Shown(path))
}

/// That a call on a file failed for this reason.
fn failure_of(alloc: Global, path: &str, error: &io::Error) -> Result<Failure, AllocError>
    ensures { IfOk result (λ failure. StopsOn path.now failure) }
{
    let words = format!(in alloc; "{error}")?;
    let line = line_on(alloc, path, words.as_str())?;
    Ok(Failure::stopped(line))
}

/// That a call on a file failed. The only error is that memory is refused, or was when the file was
/// called.
pub fn file_failure(alloc: Global, path: &str, error: &io::Error) -> Result<Failure, AllocError>
    ensures said { IfOk result (λ failure. StopsOn path.now failure) }
    ensures memory { IfOk result (λ _. error_kind error.now ≢ ErrorKind.OutOfMemory) }
{
    match error.kind() {
        ErrorKind::OutOfMemory => Err(AllocError),
        _ => failure_of(alloc, path, error),
    }
}

/// The same, or that there was no memory for it.
pub fn failed_file(alloc: Global, path: &str, error: &io::Error) -> Failure
    ensures said { OrMemory (StopsOn path.now) result }
    ensures memory { error_kind error.now ≡ ErrorKind.OutOfMemory → result.text ≡ None }
{
    Failure::made(file_failure(alloc, path, error))
}

/// What a call on a file gave, or what is said of why it failed.
pub fn of_file<T>(alloc: Global, path: &str, answer: io::Result<T>) -> Result<T, Failure>
    ensures given { IfOk answer (λ value. result ≡ Ok value) }
    ensures failed { IsErr answer → IsErr result }
    ensures said { IfErr result (λ failure. OrMemory (StopsOn path.now) failure) }
{
    match answer {
        Ok(value) => Ok(value),
        Err(error) => Err(failed_file(alloc, path, &error)),
    }
}

/// Whether something is at a path.
pub fn is_there<R: Files>(rt: &R, path: &str) -> bool {
    fs::symlink_metadata(rt, path).is_ok()
}

/// How a file is made: it is new, so no link is followed.
fn for_new_file() -> OpenOptions
    ensures new { asks_create_new result ≡ true }
    ensures write { asks_write result ≡ true }
{
    let mut options = OpenOptions::new();
    options.mode(FILE_MODE);
    options.write(true);
    options.create_new(true);
    options
}

/// Makes a file for its owner and his group, in place of what is there.
fn make<R: Files>(rt: &R, path: &str) -> io::Result<R::File> {
    // Removes what a killed night left, and does not write through a link there.
    let _ = fs::remove_file(rt, path);
    for_new_file().open(rt, path)
}

/// The same, or what is said of why not.
pub fn make_file<R>(rt: &R, path: &str) -> Result<R::File, Failure>
where
    R: Files + AllocGlobal,
    ensures { IfErr result (λ failure. OrMemory (StopsOn path.now) failure) }
{
    of_file(rt.alloc(), path, make(rt, path))
}

/// Refuses a link, or a file, in place of a folder.
fn own_folder(alloc: Global, path: &str, is_dir: bool) -> Result<(), Failure>
    ensures folder { IsOk result ↔ IsTrue is_dir }
    ensures refused { IfErr result (λ failure. OrMemory
        (Says stopped_status (file_line path.now (codes "is not a folder"))) failure) }
    ensures said { IfErr result (λ failure. OrMemory (StopsOn path.now) failure) }
{
    if is_dir {
        return Ok(());
    }
    Err(Failure::saying(line_on(alloc, path, "is not a folder")))
}

/// Makes a folder for its owner and group.
fn create_folder<R: Files>(rt: &R, path: &str) -> io::Result<()> {
    let mut builder = DirBuilder::new();
    builder.mode(FOLDER_MODE);
    builder.create(rt, path)
}

/// The same, unless it is there.
pub fn make_folder<R: Files + AllocGlobal>(rt: &R, path: &str) -> Result<(), Failure>
    ensures { IfErr result (λ failure. OrMemory (StopsOn path.now) failure) }
{
    match fs::symlink_metadata(rt, path) {
        Ok(found) => own_folder(rt.alloc(), path, found.is_dir()),
        Err(_) => of_file(rt.alloc(), path, create_folder(rt, path)),
    }
}

/// Gives a file that was made its name, and brings that to the disk.
pub fn put_made<R: Files + AllocGlobal>(rt: &R, made: &str, path: &str) -> Result<(), Failure>
    ensures { IfErr result (λ failure. OrMemory (StopsOn path.now) failure) }
{
    of_file(rt.alloc(), path, fs::rename(rt, made, path))?;
    sync_name(rt, path);
    Ok(())
}
