//! Doing a deed with the cursor of its file, and what is said at its end.
ghost use Rattle.std.specs.Prelude.{◌≡◌, ◌++◌, ◌⊎◌, IsNone, IsTrue, is_ok, option_map};
ghost use Rattle.ocfl_scrub.specs.Noting.{IsStatus};
ghost use Rattle.ocfl_tasks.specs.Calls.{end_calls, inside_calls, inside_status, known_of, opening, putting, reason_of};
ghost use Rattle.ocfl_tasks.specs.Tasks.{Does, EndsWith, HasDone, HasNotBegun, IsFileNote, IsPerformed};

use crate::calls::{Line, TaskCalls};
use ocfl_arguments::Task;
use ocfl_deed::Deed;
use ocfl_digest::Block;
use ocfl_files::saying::{STOPPED, USAGE};
use ocfl_scope::Scope;
use ocfl_scrub::{Note, Performed, perform_part};
use ocfl_tree::{Place, Tree};
use std::alloc::Global;
use std::io::{self, Read, Write};

/// What is said of a cursor's file in the storage root.
const INSIDE: &str = "the cursor's file lies in the storage root, which is never written into";

/// What a task ends with.
#[derive(Drop)]
pub struct TaskEnd {
    /// The exit status.
    pub status: u8,
    /// What is said of it, which may be nothing.
    pub note: Note,
}

impl TaskEnd {
    /// That of a task that stopped.
    pub(crate) fn stopped(note: Note) -> TaskEnd
        ensures { result ≡ record { status = 3; note = note } }
    {
        TaskEnd {
            status: STOPPED,
            note,
        }
    }
}

/// What is said of a cursor's file that could not be read or put in place.
pub(crate) fn file_note(error: &io::Error) -> Note
    ensures { IsFileNote error.now result }
{
    match error.kind() {
        io::ErrorKind::OutOfMemory => Note::OutOfMemory,
        _ => Note::CursorFileFailed,
    }
}

/// Refuses a cursor's file of which this is known: whether it lies in the storage root. Says so,
/// and gives the status.
pub(crate) fn refuse_inside<C: TaskCalls>(calls: &mut C, lies: io::Result<bool>) -> Option<u8>
    ensures status { result ≡ inside_status lies }
    ensures said { IsTrue C.told → C.calls calls.new ≡ C.calls calls.old ++ inside_calls lies }
{
    match lies {
        Ok(false) => None,
        Ok(true) => {
            calls.say(Line::Words(INSIDE));
            Some(USAGE)
        }
        Err(_) => {
            calls.say(Line::Note(&Note::OutOfMemory));
            Some(STOPPED)
        }
    }
}

/// Opens a cursor's file, if there is one.
fn open_cursor<C: TaskCalls>(calls: &mut C, file: &Option<String>) -> io::Result<Option<C::Reader>>
    ensures calls { IsTrue C.told → C.calls calls.new
        ≡ C.calls calls.old ++ opening C.Reader.remaining file.now result }
    ensures none { IsNone file.now → result ≡ Ok None }
{
    match file {
        Some(file) => calls.open(file.as_str()),
        None => Ok(None),
    }
}

/// Does a deed with the cursor that a reader gives, if there is one.
fn perform_with<T: Tree, R: Read, W: Write>(
    alloc: Global,
    store: &mut T,
    deed: &Deed,
    scope: &Scope,
    reader: &mut Option<R>,
    block: &mut Block,
    out: &mut W,
) -> Performed
    ensures { IsPerformed T.told T.state W.contents store.old store.new out.old out.new
        deed.now scope.now (known_of R.remaining reader.old) result }
{
    perform_part(alloc, store, deed, scope, reader.as_mut(), block, out)
}

/// Puts the cursor that was handed back in the place of its file, if there are both.
fn put_cursor<C: TaskCalls, W: Write>(
    calls: &mut C,
    file: &Option<String>,
    cursor: &Option<Vec<u8>>,
    report: &W,
) -> io::Result<()>
    ensures { IsTrue C.told → C.calls calls.new ≡ C.calls calls.old
        ++ putting file.now cursor.now (W.contents report.now) (is_ok result) }
{
    match (file, cursor) {
        (Some(file), Some(text)) => calls.put(file.as_str(), text, report),
        _ => Ok(()),
    }
}

/// What a task ends with whose deed ended so, and whose cursor was put in its place, or was not.
fn end_of(performed: Performed, put: io::Result<()>) -> TaskEnd
    ensures { EndsWith performed (is_ok put) result }
{
    match put {
        Ok(()) => TaskEnd {
            status: performed.status,
            note: performed.note,
        },
        Err(error) => TaskEnd::stopped(file_note(&error)),
    }
}

/// Does a deed with the cursor that was opened, and puts the one that it hands back in the place of
/// its file.
fn perform_opened<C: TaskCalls, T: Tree, W: Write>(
    alloc: Global,
    calls: &mut C,
    task: &Task,
    scope: &Scope,
    reader: Option<C::Reader>,
    store: &mut T,
    block: &mut Block,
    out: &mut W,
) -> TaskEnd
    ensures { Does (IsPerformed T.told T.state W.contents store.old store.new out.old out.new
        task.now.deed scope.now) C.told task.now.file (known_of C.Reader.remaining reader)
        (C.calls calls.old) (C.calls calls.new) (W.contents out.new) result }
{
    let mut reader = reader;
    let performed = perform_with(alloc, store, &task.deed, scope, &mut reader, block, out);
    let put = put_cursor(calls, &task.file, &performed.cursor, out);
    end_of(performed, put)
}

/// Does the deed of a task over a store, with the cursor of its file, and then puts the cursor that
/// was handed back in the place of that file. The report goes to the output before that.
pub fn perform_and_store<C: TaskCalls, T: Tree, W: Write>(
    alloc: Global,
    calls: &mut C,
    task: &Task,
    scope: &Scope,
    store: &mut T,
    block: &mut Block,
    out: &mut W,
) -> TaskEnd
    ensures status { IsStatus result.status result.note }
    ensures does { HasDone (IsPerformed T.told T.state W.contents store.old store.new out.old out.new
        task.now.deed scope.now) C.told task.now.file
        (C.calls calls.old) (C.calls calls.new) (W.contents out.new) result
        ⊎ HasNotBegun C.told task.now.file (C.calls calls.old) (C.calls calls.new) result }
{
    match open_cursor(calls, &task.file) {
        Ok(reader) => perform_opened(alloc, calls, task, scope, reader, store, block, out),
        Err(error) => TaskEnd::stopped(file_note(&error)),
    }
}

/// Says why the store did not answer at a place, if that is known.
fn say_unread<C: TaskCalls>(calls: &mut C, place: &Place, why: Option<&str>)
    ensures { IsTrue C.told → C.calls calls.new ≡ C.calls calls.old
        ++ reason_of (Note.StoppedAt place.now) (option_map (λ w. w.now) why.entry) }
{
    if let Some(why) = why {
        calls.say(Line::Unread(place, why));
    }
}

/// Says what a deed ended with. `why` is why the last failed call over the folder failed, and
/// `words` why the path of a check names no place.
pub fn say_end<C: TaskCalls>(
    calls: &mut C,
    deed: &Deed,
    note: &Note,
    why: Option<&str>,
    words: &str,
)
    ensures { IsTrue C.told → C.calls calls.new ≡ C.calls calls.old
        ++ end_calls deed.now note.now (option_map (λ w. w.now) why.entry) words.now }
{
    match (note, deed) {
        (Note::Nothing, _) => {}
        (Note::NoItem, Deed::Check(_, path)) => calls.say(Line::NoItemAt(path.as_str())),
        (Note::BadPath, Deed::Check(_, _)) => {
            calls.say(Line::Note(note));
            calls.say(Line::Words(words));
        }
        (Note::StoppedAt(place), _) => {
            calls.say(Line::Note(note));
            say_unread(calls, place, why);
        }
        _ => calls.say(Line::Note(note)),
    }
}
