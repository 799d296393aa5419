//! The file of a cursor that a command line names.
ghost use Rattle.std.specs.Prelude.{◌≡◌};
ghost use Rattle.ocfl_terminal.specs.Progress.{cost_of};

use ocfl_arguments::Task;
use ocfl_cursor::{Cursor, State, read_cursor, read_part_cursor};
use ocfl_files::files::{lies_inside, open_if_there};
use ocfl_files::saying::{USAGE, say, say_out_of_memory};
use ocfl_scope::Scope;
use std::alloc::Global;
use std::fs;
use std::io::{self, Read};
use std::rt::Files;

/// Opens the file that the command line names. `None` if it names no file, or there is no such file
/// yet.
pub fn open_cursor<R: Files>(rt: &R, task: &Task) -> io::Result<Option<R::File>> {
    match &task.file {
        Some(file) => open_if_there(rt, file.as_str()),
        None => Ok(None),
    }
}

/// The cursor of a scope that a reader gives, if it can be read.
fn cursor_of<F: Read>(alloc: Global, reader: &mut F, scope: &Scope) -> Option<Cursor> {
    match scope {
        Scope::Part(ends) => read_part_cursor(alloc, reader, ends).ok(),
        Scope::Whole | Scope::Branch(_) => read_cursor(alloc, reader).ok(),
    }
}

/// What a cursor's cycle cost, if there is a cursor and it has ended.
fn cost_of(cursor: Option<Cursor>) -> Option<u128>
    ensures { result ≡ cost_of cursor }
{
    let cursor = cursor?;
    match cursor.state() {
        State::Ended => Some(cursor.spent()),
        State::Start | State::After(_) => None,
    }
}

/// What the last cycle cost, if a run begins the next one: its stored cursor holds that, and
/// that of a cycle that goes on does not. Whatever is wrong with the cursor, the run says it.
pub fn last_cost<R>(rt: &R, task: &Task, scope: &Scope) -> Option<u128>
where
    R: Files + AllocGlobal,
{
    // A pipe cannot be read again by the run.
    match fs::metadata(rt, task.file.as_ref()?.as_str()) {
        Ok(found) if found.is_file() => stored_cost(rt, task, scope),
        _ => None,
    }
}

/// The same by the cursor's file, which can be read again.
fn stored_cost<R>(rt: &R, task: &Task, scope: &Scope) -> Option<u128>
where
    R: Files + AllocGlobal,
{
    match open_cursor(rt, task) {
        Ok(Some(mut reader)) => cost_of(cursor_of(rt.alloc(), &mut reader, scope)),
        _ => None,
    }
}

/// Refuses a cursor's file in the storage root: says so and gives the status.
pub fn refuse_cursor_inside<R: Files + AllocGlobal + Eprint>(rt: &R, task: &Task) -> Option<u8> {
    let (Some(file), Some(root)) = (&task.file, &task.root) else {
        return None;
    };
    match lies_inside(rt, file.as_str(), root.as_str()) {
        Ok(false) => None,
        Ok(true) => {
            say(
                rt,
                "the cursor's file lies in the storage root, which is never written into",
            );
            Some(USAGE)
        }
        Err(_) => Some(say_out_of_memory(rt)),
    }
}
