//! Showing a file, the checkpoint of a state folder or a cursor, and the table of codes.
ghost use Rattle.std.specs.Prelude.{◌≡◌, ◌++◌, ◌∷◌, ◌⊎◌, ◌≤◌, [], Some, false, IfErr, IfOk, IsTrue, OnOk};
ghost use Rattle.std.specs.Io.KnownBytes.{Appends};
ghost use Rattle.ocfl_cursor.specs.declared.refused.TextKind.TheVariants as kind;
ghost use Rattle.ocfl_state.specs.CheckpointRefusal.{RefusedRightly};
ghost use Rattle.ocfl_scrub.specs.{NoteText.{note_text}, Performing.{AnswersOnAnyStore}};
ghost use Rattle.ocfl_tasks.specs.Calls.{Said, line_text};
ghost use Rattle.ocfl_tasks.specs.Showing.{AreShownOf, HasShown, IsOpened, IsRefusedOf, IsTable, Shows, unshown_status, unshown_text, unwritten};

use crate::calls::{Line, SystemCalls, TaskCalls};
use crate::doing::{file_note, say_end};
use ocfl_codes::{codes_json, codes_text};
use ocfl_cursor::{Refused, TextKind};
use ocfl_deed::Deed;
use ocfl_digest::Block;
use ocfl_files::saying::STOPPED;
use ocfl_folder::FsTree;
use ocfl_report::write_all_of;
use ocfl_scrub::{Note, perform};
use ocfl_state::{NotShown, decode_checkpoint, read_stored};
use ocfl_tree::Tree;
use std::alloc::{AllocError, Global};
use std::io::{self, Read, Write};
use std::rt::Files;

/// The exit status of bytes that are refused as a checkpoint.
const REFUSED: u8 = 4;

/// What is said of a file that is shown and could not be read.
const UNREAD: &str = "checkpoint file failed";

/// How many bytes show whether a file begins as a checkpoint.
const FRONT_LEN: u64 = 64;

/// Says what a task stopped for, and gives the status.
fn say_stop<C: TaskCalls>(calls: &mut C, note: &Note) -> u8
    ensures status { result ≡ 3 }
    ensures said { IsTrue C.told
        → C.calls calls.new ≡ C.calls calls.old ++ Said (note_text note.now) ∷ [] }
{
    calls.say(Line::Note(note));
    STOPPED
}

/// Opens a file, and reads the first of its bytes. Otherwise says why not, and fails with the
/// status.
fn open_front<C: TaskCalls>(
    alloc: Global,
    calls: &mut C,
    file: &str,
) -> Result<(Vec<u8>, C::Reader), u8>
    ensures status { IfErr result (λ status. status ≡ 3) }
    ensures opens { OnOk result (IsTrue C.told
        → IsOpened file.now (C.calls calls.old) (C.calls calls.new)) }
{
    let mut opened = match calls.open(file) {
        Ok(Some(opened)) => opened,
        Ok(None) => return Err(say_stop(calls, &Note::CursorFileFailed)),
        Err(error) => return Err(say_stop(calls, &file_note(&error))),
    };
    let mut front = Vec::new(alloc);
    match Read::take(&mut opened, FRONT_LEN).read_to_end(&mut front) {
        Ok(_) => Ok((front, opened)),
        Err(error) => Err(say_stop(calls, &file_note(&error))),
    }
}

/// Says that bytes are refused as a checkpoint, and gives the status.
fn say_refused<C: TaskCalls>(calls: &mut C, why: &Refused) -> u8
    ensures status { result ≡ 4 }
    ensures said { IsTrue C.told → C.calls calls.new ≡ C.calls calls.old
        ++ Said (line_text (Line.Refused why.entry)) ∷ [] }
{
    calls.say(Line::Refused(why));
    REFUSED
}

/// Says these words, and gives the status.
fn say_words<C: TaskCalls>(calls: &mut C, words: &str) -> u8
    ensures status { result ≡ 3 }
    ensures said { IsTrue C.told
        → C.calls calls.new ≡ C.calls calls.old ++ Said words.now ∷ [] }
{
    calls.say(Line::Words(words));
    STOPPED
}

/// Says why the checkpoint of a file is not shown, and gives the status.
fn say_unshown<C: TaskCalls>(calls: &mut C, why: &NotShown) -> u8
    ensures status { result ≡ unshown_status why.now }
    ensures said { IsTrue C.told → C.calls calls.new ≡ C.calls calls.old
        ++ Said (unshown_text why.now) ∷ [] }
{
    match why {
        NotShown::Memory | NotShown::Checkpoint(Refused::Memory) => {
            say_words(calls, "out of memory")
        }
        NotShown::Checkpoint(why) => say_refused(calls, why),
        NotShown::Long => say_refused(calls, &Refused::NotA(TextKind::Checkpoint)),
        NotShown::Read => say_words(calls, UNREAD),
        NotShown::Cursor(_) => say_words(calls, UNREAD),
    }
}

/// Writes lines to an output, and gives the exit status: 0, or 3 if not all went out, which is
/// said.
fn write_lines<C: TaskCalls, W: Write>(calls: &mut C, out: &mut W, lines: &[u8]) -> u8
    ensures status { (result ≡ 0) ⊎ (result ≡ 3) }
    ensures wrote { result ≡ 0 → Appends (W.contents out.old) (W.contents out.new) lines.now }
    ensures said { IsTrue C.told
        → C.calls calls.new ≡ C.calls calls.old ++ unwritten result }
{
    match write_all_of(out, lines) {
        Ok(()) => 0,
        Err(_) => say_stop(calls, &Note::OutputFailed),
    }
}

/// The table of codes, as JSON or as text.
fn table_of(alloc: Global, json: bool) -> Result<Vec<u8>, AllocError>
    ensures { IfOk result (λ table. IsTable json table.items) }
{
    if json {
        Ok(codes_json(alloc)?.into_bytes())
    } else {
        codes_text(alloc)
    }
}

/// Writes the table of codes to an output, as JSON or as text, and gives the exit status: 3 if not
/// all went out, or if there was no memory for it, which is said.
pub fn show_table<C: TaskCalls, W: Write>(
    alloc: Global,
    calls: &mut C,
    out: &mut W,
    json: bool,
) -> u8
    ensures status { (result ≡ 0) ⊎ (result ≡ 3) }
    ensures wrote { result ≡ 0 → Shows (IsTable json) (W.contents out.old) (W.contents out.new) }
{
    match table_of(alloc, json) {
        Ok(table) => write_lines(calls, out, &table),
        Err(_) => say_stop(calls, &Note::OutOfMemory),
    }
}

/// Shows the checkpoint, or the cursor, that a reader gives, and gives the exit status.
fn show_checkpoint<C: TaskCalls, F: Read, W: Write>(
    alloc: Global,
    calls: &mut C,
    reader: &mut F,
    out: &mut W,
) -> u8
    ensures status { (result ≡ 0) ⊎ ((result ≡ 3) ⊎ (result ≡ 4)) }
    ensures wrote { result ≡ 0 → Shows (AreShownOf (F.remaining reader.old))
        (W.contents out.old) (W.contents out.new) }
    ensures refused { result ≡ 4 → IsRefusedOf (F.remaining reader.old) }
{
    match read_stored(alloc, reader) {
        Ok(lines) => write_lines(calls, out, &lines),
        Err(why) => say_unshown(calls, &why),
    }
}

/// Shows the cursor that a reader gives, and gives the exit status.
#[tactic(auto, using(crate::proofs::Statuses::status_within))]
fn show_cursor<C: TaskCalls, T: Tree, F: Read, W: Write>(
    alloc: Global,
    calls: &mut C,
    store: &mut T,
    reader: &mut F,
    block: &mut Block,
    out: &mut W,
) -> u8
    ensures status { result ≤ 4 }
    ensures shown { HasShown (AnswersOnAnyStore W.contents store.old store.new out.old out.new
        (Some (F.remaining reader.old)) Deed.Show)
        C.told (C.calls calls.old) (C.calls calls.new) result }
{
    let performed = perform(alloc, store, &Deed::Show, Some(reader), block, out);
    say_end(calls, &Deed::Show, &performed.note, None, "");
    performed.status
}

/// Whether bytes that a file begins with are not refused as those of another text than a
/// checkpoint.
fn is_checkpoint(alloc: Global, front: &[u8]) -> bool
    ensures { result ≡ false → RefusedRightly front.now (Refused.NotA kind.Checkpoint) }
{
    match decode_checkpoint(alloc, front) {
        Err(Refused::NotA(TextKind::Checkpoint)) => false,
        _ => true,
    }
}

/// Shows the cursor that a reader gives, over the current folder.
fn show_there<R, F>(rt: &R, reader: &mut F) -> Result<u8, AllocError>
where
    R: Files + AllocGlobal + Print + Eprint,
    F: Read,
    ensures { IfOk result (λ status. status ≤ 4) }
{
    let mut folder = FsTree::at(rt, ".")?;
    let mut block = Block::new(rt.alloc())?;
    let (mut calls, mut out) = (SystemCalls { rt }, io::writer(rt));
    Ok(show_cursor(
        rt.alloc(),
        &mut calls,
        &mut folder,
        reader,
        &mut block,
        &mut out,
    ))
}

/// Shows what a file says, and gives the exit status. What begins as a checkpoint is shown as one,
/// all else as a cursor.
pub(crate) fn show_file<R>(rt: &R, file: &str) -> u8
where
    R: Files + AllocGlobal + Print + Eprint,
    ensures { result ≤ 4 }
{
    let mut calls = SystemCalls { rt };
    let (front, opened) = match open_front(rt.alloc(), &mut calls, file) {
        Ok(begun) => begun,
        Err(status) => return status,
    };
    let mut whole = front.as_slice().chain(opened);
    if is_checkpoint(rt.alloc(), &front) {
        return show_checkpoint(rt.alloc(), &mut calls, &mut whole, &mut io::writer(rt));
    }
    match show_there(rt, &mut whole) {
        Ok(status) => status,
        Err(_) => say_stop(&mut calls, &Note::OutOfMemory),
    }
}

/// Writes the table of codes to standard output, and gives the exit status.
pub fn show_codes<R: Files + AllocGlobal + Print + Eprint>(rt: &R, json: bool) -> u8
    ensures { (result ≡ 0) ⊎ (result ≡ 3) }
{
    show_table(
        rt.alloc(),
        &mut SystemCalls { rt },
        &mut io::writer(rt),
        json,
    )
}
