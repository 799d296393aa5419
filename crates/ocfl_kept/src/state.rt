//! Opening the state folder of a night.
ghost use Rattle.std.specs.Prelude.{◌≡◌, ◌≢◌, ◌↔◌, ◌++◌, List, ℕ, IsErr, IsErrAnd, IfErr, IfOk, IsOk, IsTrue, MatchResult, Ok, codes};
ghost use Rattle.std.specs.{Prelude.{string_bytes, true}, Fs.{asks_append, asks_create, asks_read}};
ghost use Rattle.std.specs.{IoError.{error_kind}, Option.{option_map}};
ghost use Rattle.ocfl_report.specs.Text.{escape};
ghost use Rattle.ocfl_messages.specs.Refusal.{refusal_text};
ghost use Rattle.ocfl_files.specs.Failing.{OrMemory, Says, stopped_status};
ghost use Rattle.ocfl_kept.specs.Refusing.{AreWordsOf, IsReasonLine, SaysReason, ShowsFile, SaysFailure, SaysLock, SaysStop, held_status, held_text, joined_now_text, of_parts_text};

use crate::kept::part_path;
use crate::state_dir::{Folder, StateDir};
use ocfl_disk::{FsState, Reason, StateFile, StateStop};
use ocfl_files::failing::Failure;
use ocfl_files::making::{FILE_MODE, failed_file, is_there, of_file};
use ocfl_messages::{RefusalMessage, Shown, refusal_text};
use ocfl_state::FolderTrouble;
use std::alloc::{AllocError, Global};
use std::fs::{self, File, OpenOptions, TryLockError};
use std::io::{self, ErrorKind};
use std::os::unix::fs::OpenOptionsExt;
use std::rt::Files;

/// The exit status if another night holds the folder's lock.
const HELD: u8 = 75;

/// Refuses to begin nights in a folder that has those of parts.
fn refuse_parts(alloc: Global, state: &str, has_part: bool) -> Result<(), Failure>
    ensures parts { IsErr result ↔ IsTrue has_part }
    ensures said { IfErr result (λ failure.
        OrMemory (Says stopped_status (of_parts_text state.now)) failure) }
{
    if has_part {
        return Err(Failure::saying(format!(in alloc;
            "{} has the folders of parts. Begin in another folder. Nothing was run.\n",
            Shown(state)
        )));
    }
    Ok(())
}

/// Whether a folder has the first part's.
fn has_part<R: Files + AllocGlobal>(rt: &R, state: &str) -> Result<bool, AllocError> {
    let part = part_path(rt.alloc(), state, 1)?;
    Ok(is_there(rt, part.as_str()))
}

/// Opens the state folder, and holds its lock.
pub fn open_state<'a, R>(
    rt: &'a R,
    state: &str,
    root: &str,
    create: bool,
) -> Result<StateDir<'a, R>, Failure>
where
    R: Files<File = File> + AllocGlobal,
{
    if create {
        refuse_parts(rt.alloc(), state, has_part(rt, state)?)?;
    }
    opened(rt.alloc(), state, root, FsState::open(rt, state, create))
}

/// A folder that was opened, or what is said of why it was not.
fn opened<F>(
    alloc: Global,
    state: &str,
    root: &str,
    folder: Result<F, StateStop>,
) -> Result<F, Failure>
    ensures { MatchResult folder (λ folder. result ≡ Ok folder) (λ stop. IsErrAnd result
        (λ failure. OrMemory (SaysStop state.now root.now stop) failure)) }
{
    match folder {
        Ok(folder) => Ok(folder),
        Err(stop) => Err(Failure::made(unopened(alloc, state, root, stop))),
    }
}

/// How the file of a folder's lock is opened: it is made if it is not there.
fn for_lock() -> OpenOptions
    ensures read { asks_read result ≡ true }
    ensures append { asks_append result ≡ true }
    ensures create { asks_create result ≡ true }
{
    let mut options = OpenOptions::new();
    options.mode(FILE_MODE);
    options.read(true);
    options.append(true);
    options.create(true);
    options
}

/// Refuses what is there if it is no file.
fn refuse_other(is_other: bool) -> io::Result<()>
    ensures other { IsErr result ↔ IsTrue is_other }
    ensures kind { IfErr result (λ error. error_kind error ≡ ErrorKind.InvalidInput) }
{
    if is_other {
        return Err(io::Error::new(ErrorKind::InvalidInput, "not a regular file"));
    }
    Ok(())
}

/// Opens the file of a folder's lock.
fn open_lock<R>(rt: &R, path: &str) -> io::Result<File>
where
    R: Files<File = File>,
{
    if let Ok(found) = fs::symlink_metadata(rt, path) {
        refuse_other(!found.is_file())?;
    }
    for_lock().open(rt, path)
}

/// Holds the lock of a folder of parts while the result lives.
pub(crate) fn hold_folder<R>(rt: &R, state: &str) -> Result<File, Failure>
where
    R: Files<File = File> + AllocGlobal,
{
    let path = lock_path(rt.alloc(), state)?;
    let lock = of_file(rt.alloc(), path.as_str(), open_lock(rt, path.as_str()))?;
    let answer = lock.try_lock();
    held_by(rt.alloc(), state, path.as_str(), answer)?;
    Ok(lock)
}

/// The path of a folder's lock.
fn lock_path(alloc: Global, state: &str) -> Result<String, AllocError>
    ensures { IfOk result (λ path. string_bytes path ≡ state.now ++ codes "/lock") }
{
    format!(in alloc; "{state}/lock")
}

/// Why the lock of a folder of parts is not held, if it is not.
fn held_by(
    alloc: Global,
    state: &str,
    path: &str,
    answer: Result<(), TryLockError>,
) -> Result<(), Failure>
    ensures held { IfOk answer (λ _. IsOk result) }
    ensures refused { IfErr answer (λ error. IsErrAnd result
        (λ failure. OrMemory (SaysLock state.now path.now error) failure)) }
{
    match answer {
        Ok(()) => Ok(()),
        Err(TryLockError::WouldBlock) => Err(Failure::made(joined_now(alloc, state))),
        Err(TryLockError::Error(error)) => Err(failed_file(alloc, path, &error)),
    }
}

/// That another call holds the folder of parts.
fn joined_now(alloc: Global, state: &str) -> Result<Failure, AllocError>
    ensures { IfOk result (λ failure. Says held_status (joined_now_text state.now) failure) }
{
    let state = Shown(state);
    Ok(Failure {
        status: HELD,
        text: Some(format!(in alloc;
            "another call still writes reports in {state}; nothing was joined\n"
        )?),
    })
}

/// That a night is refused for this reason.
fn refused(
    alloc: Global,
    why: RefusalMessage<'_>,
    root: &str,
    state: &str,
) -> Result<Failure, AllocError>
    ensures { IfOk result (λ failure.
        Says stopped_status (refusal_text why.entry root.now state.now) failure) }
{
    let text = refusal_text(alloc, why, root, state)?;
    Ok(Failure::stopped(text))
}

/// Why the folder was not opened.
fn unopened(alloc: Global, state: &str, root: &str, stop: StateStop) -> Result<Failure, AllocError>
    ensures { IfOk result (λ failure. SaysStop state.now root.now stop failure) }
{
    match stop {
        StateStop::NoFolder => refused(alloc, RefusalMessage::NoCheckpoint, root, state),
        StateStop::NoCheckpoint => refused(alloc, RefusalMessage::NoCheckpoint, root, state),
        StateStop::OfScripts(_) => refused(alloc, RefusalMessage::OfScripts, root, state),
        StateStop::Used(_) => refused(alloc, RefusalMessage::HasReports, root, state),
        StateStop::Held => held(alloc, state),
        StateStop::Failed(reason) => failed(alloc, state, reason),
    }
}

/// That another night holds the folder.
fn held(alloc: Global, state: &str) -> Result<Failure, AllocError>
    ensures { IfOk result (λ failure. Says held_status (held_text state.now) failure) }
{
    let state = Shown(state);
    let text = format!(in alloc; "another night still runs in {state}; nothing was done\n")?;
    Ok(Failure {
        status: HELD,
        text: Some(text),
    })
}

/// A file of the folder.
fn file_in(alloc: Global, state: &str, file: StateFile) -> Result<String, AllocError>
    ensures { IfOk result (λ text. (name : List ℕ)
        × (string_bytes text ≡ escape state.now ++ (codes "/" ++ name))) }
{
    let name = format!(in alloc; "{file}")?;
    format!(in alloc; "{}/{name}", Shown(state))
}

/// The folder.
fn folder_text(alloc: Global, state: &str) -> Result<String, AllocError>
    ensures { IfOk result (λ text. string_bytes text ≡ escape state.now) }
{
    format!(in alloc; "{}", Shown(state))
}

/// A file of the folder, or the folder.
fn shown_file(alloc: Global, state: &str, file: StateFile) -> Result<String, AllocError>
    ensures { IfOk result (λ text. ShowsFile state.now file (string_bytes text)) }
{
    match file {
        StateFile::Folder => folder_text(alloc, state),
        file => file_in(alloc, state, file),
    }
}

/// A file of the folder, or the folder, and why a call on it failed.
fn reason_text(
    alloc: Global,
    state: &str,
    reason: Reason,
    ending: &str,
) -> Result<String, AllocError>
    ensures { IfOk result (λ text.
        IsReasonLine state.now reason.file ending.now (string_bytes text)) }
{
    let file = shown_file(alloc, state, reason.file)?;
    let words = format!(in alloc; "{}", reason.error)?;
    format!(in alloc; "{file}: {words}{ending}")
}

/// That a call on a file of the folder failed for this reason.
fn failure_of(
    alloc: Global,
    state: &str,
    reason: Reason,
    ending: &str,
) -> Result<Failure, AllocError>
    ensures { IfOk result (λ failure. SaysReason state.now reason.file ending.now failure) }
{
    let text = reason_text(alloc, state, reason, ending)?;
    Ok(Failure::stopped(text))
}

/// The same, when the folder was opened. The only error is that memory is refused, or was then.
fn failed(alloc: Global, state: &str, reason: Reason) -> Result<Failure, AllocError>
    ensures said { IfOk result (λ failure.
        SaysReason state.now reason.file (codes ". Nothing was run.\n") failure) }
    ensures memory { IfOk result (λ _. error_kind reason.error ≢ ErrorKind.OutOfMemory) }
{
    match reason.trouble() {
        FolderTrouble::Memory => Err(AllocError),
        _ => failure_of(alloc, state, reason, ". Nothing was run.\n"),
    }
}

/// That a call on the folder failed, whose reason is not known.
fn failed_somehow(alloc: Global, state: &str) -> Result<Failure, AllocError>
    ensures { IfOk result (λ failure.
        Says stopped_status (escape state.now ++ codes " failed\n") failure) }
{
    let text = format!(in alloc; "{} failed\n", Shown(state))?;
    Ok(Failure::stopped(text))
}

/// That a call on the folder failed in a night.
pub fn folder_failure(
    alloc: Global,
    state: &str,
    reason: Option<Reason>,
) -> Result<Failure, AllocError>
    ensures { IfOk result (λ failure. SaysFailure state.now reason failure) }
{
    match reason {
        Some(reason) => failure_of(alloc, state, reason, "\n"),
        None => failed_somehow(alloc, state),
    }
}

/// That the last call on the folder failed, or that there was no memory to say so.
pub fn failed_folder<F: Folder>(alloc: Global, folder: &F, state: &str) -> Failure
    ensures { result.status ≡ stopped_status }
{
    Failure::made(folder_failure(alloc, state, folder.last_reason()))
}

/// The system's words on the last call on the folder that failed, with the file.
pub fn words_of(alloc: Global, reason: Option<Reason>) -> Result<Option<String>, AllocError>
    ensures { IfOk result (λ words. AreWordsOf reason (option_map string_bytes words)) }
{
    let Some(reason) = reason else {
        return Ok(None);
    };
    let file = format!(in alloc; "{}", reason.file)?;
    let words = format!(in alloc; "{}", reason.error)?;
    let text = format!(in alloc; "{file}: {words}")?;
    Ok(Some(text))
}
