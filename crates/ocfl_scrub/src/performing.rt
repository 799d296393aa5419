//! What the program does for a command: the one function that the program and the tests call.
ghost use Rattle.std.specs.Prelude.{◌≡◌, ◌≢◌, ◌↔◌, ◌⊎◌, ℕ, IfErr, IfOk, IsNone, IsSome, Some, Vec, List, replicate};
ghost use Rattle.std.specs.declared.alloc.Global.{Global};
ghost use Rattle.ocfl_cursor.specs.Cursor.{Cursor as CursorModel};
ghost use Rattle.ocfl_scrub.specs.{Call.{WhereTold}, Running.{limits_of}};
ghost use Rattle.ocfl_scrub.specs.Noting.{IsCycleNote, IsCycleSaid, IsRanSaid, IsRunNote, IsRunSaid, IsShowSaid, IsStatus, IsStoredNote, EndsUnread, IsPartRefusedNote, IsUnreadNote, IsUnshownNote, run_summary as summary_of_run, status_of};
ghost use Rattle.ocfl_scrub.specs.Performing.{AnswersOnAnyStore, CyclePerformed, HandsBack, IsFirst, IsKept, IsSaid, IsSilent, IsWhole, IsWithoutFile, Performs, RefusesRightly, RunPerformed, ShowsWith, StopsWith, UnshownSaid, WritesReport, bytes_of, equal_limits as limits_of_each, further_of};

use crate::command::{audited, checked, status, stop_note};
use crate::cycling::{CycleEnd, CycleStatus, cycle};
use crate::note::Note;
use crate::running::{RunEnd, RunStatus, run};
use crate::stop::ReportStop;
use ocfl_cursor::{
    Cursor, CursorStop, Limits, PartRefused, Refused, ShowStop, encode, read_cursor, read_shown,
};
use ocfl_deed::Deed;
use ocfl_digest::Block;
use ocfl_report::{Further, write_all_of};
use ocfl_tree::Tree;
use std::alloc::{AllocError, Global};
use std::io::{Read, Write};

/// What a command ends with.
#[derive(Drop)]
pub struct Performed {
    /// The exit status: 0 without a finding, 1 with one. 2 if the path is not that of a place, or
    /// a branch has no item. 3 after a stop, for a worn cursor, or if no cursor could be read. 4 if
    /// the bytes are refused as a cursor, or the cursor is of an audit with the other option.
    pub status: u8,
    /// The note to print, which may say nothing.
    pub note: Note,
    /// The text of the cursor that is to be stored.
    pub cursor: Option<Vec<u8>>,
}

/// Does what is asked for, and gives what the program ends with. The report lines, or those of the
/// cursor that is shown, go to the writer.
///
/// The reader gives the bytes of the cursor that is stored, which a run goes on from, and which is
/// shown. Without a reader a run begins with a new cursor, and nothing is shown. After a run
/// the text of the cursor that it answered is handed back, to be stored, after a stop too: but not
/// if the cursor was worn, or there was no memory for its text.
///
/// If bytes are refused as a cursor, or could not be read, or a path is not that of a place, no
/// call of the store is made, and nothing is written. A run also refuses the cursor of an audit
/// with the other option. A cursor that is shown ends with status 0 exactly if nothing is said.
pub fn perform<T: Tree, R: Read, W: Write>(
    alloc: Global,
    store: &mut T,
    deed: &Deed,
    reader: Option<&mut R>,
    block: &mut Block,
    out: &mut W,
) -> Performed
    ensures any_store { AnswersOnAnyStore W.contents store.old store.new out.old out.new
        (bytes_of R.remaining reader.entry) deed.now result }
    ensures said { IsSaid deed.now result.note }
    ensures refused { RefusesRightly deed.now (bytes_of R.remaining reader.entry) result.note }
    ensures handed_back { HandsBack (bytes_of R.remaining reader.entry) deed.now
        result.status result.note result.cursor }
    ensures told { WhereTold (further_of deed.now) T.told T.state W.contents store.old store.new
        out.old out.new (λ call. Performs call (bytes_of R.remaining reader.entry) deed.now
        result.status result.note result.cursor) }
{
    match deed {
        Deed::Audit(further) => without_cursor(audited(alloc, store, *further, block, out)),
        Deed::Check(further, path) => {
            without_cursor(checked(alloc, store, *further, path.as_str(), block, out))
        }
        Deed::Run(further, limits) => {
            perform_run(alloc, store, *further, *limits, reader, block, out)
        }
        Deed::Cycle(further, limits, count) => {
            without_cursor(perform_cycle(alloc, store, *further, *limits, *count, block, out))
        }
        Deed::Show => without_cursor(show_cursor(alloc, reader, out)),
    }
}

// What is said, if there is no cursor to store.
pub(crate) fn without_cursor(said: (u8, Note)) -> Performed
    ensures status { result.status ≡ said.0 }
    ensures note { result.note ≡ said.1 }
    ensures cursor { IsNone result.cursor }
{
    let (status, note) = said;
    Performed {
        status,
        note,
        cursor: None,
    }
}

// The cursor that is stored, and without a reader a new one of an audit with this option.
fn first_cursor<R: Read>(
    alloc: Global,
    further: Further,
    reader: Option<&mut R>,
) -> Result<Cursor, CursorStop>
    ensures cursor { IfOk result (IsFirst further (bytes_of R.remaining reader.entry)) }
    ensures refused { IfErr result (StopsWith (bytes_of R.remaining reader.entry)) }
{
    match reader {
        Some(reader) => read_cursor(alloc, reader),
        None => Ok(Cursor::new(further)),
    }
}

// The cursor, if it is of an audit with this option, and else the option that it has.
pub(crate) fn of_audit(cursor: Cursor, further: Further) -> Result<Cursor, Further>
    ensures same { IfOk result (λ same. (same ≡ cursor) × (cursor.further ≡ further)) }
    ensures other { IfErr result (λ other. (cursor.further ≡ other) × (other ≢ further)) }
{
    let option = cursor.further();
    if option == further {
        Ok(cursor)
    } else {
        Err(option)
    }
}

// Describes why no cursor was read.
fn describe_unread(why: CursorStop) -> (u8, Note)
    ensures note { IsUnreadNote why result.0 result.1 }
    ensures unread { EndsUnread result.0 result.1 }
{
    match why {
        CursorStop::Read => (3, Note::CursorFileFailed),
        CursorStop::Refused(Refused::Memory) => (3, Note::OutOfMemory),
        CursorStop::Refused(why) => (4, Note::CursorRefused(why)),
    }
}

// Makes one run from the stored cursor.
fn perform_run<T: Tree, R: Read, W: Write>(
    alloc: Global,
    store: &mut T,
    further: Further,
    limits: Limits,
    reader: Option<&mut R>,
    block: &mut Block,
    out: &mut W,
) -> Performed
    ensures any_store { AnswersOnAnyStore W.contents store.old store.new out.old out.new
        (bytes_of R.remaining reader.entry) (Deed.Run further limits) result }
    ensures said { IsRunSaid result.note }
    ensures refused { RefusesRightly (Deed.Run further limits)
        (bytes_of R.remaining reader.entry) result.note }
    ensures handed_back { HandsBack (bytes_of R.remaining reader.entry) (Deed.Run further limits)
        result.status result.note result.cursor }
    ensures told { WhereTold further T.told T.state W.contents store.old store.new out.old out.new
        (λ call. RunPerformed call (bytes_of R.remaining reader.entry)
        (limits_of limits) result.status result.note result.cursor) }
{
    let read = match first_cursor(alloc, further, reader) {
        Ok(read) => read,
        Err(why) => return without_cursor(describe_unread(why)),
    };
    let cursor = match of_audit(read, further) {
        Ok(cursor) => cursor,
        Err(other) => return without_cursor((4, Note::OtherAudit(other))),
    };
    let end = run(alloc, store, cursor, limits, block, out);
    let text = encode(alloc, &end.cursor);
    conclude_run(end, text)
}

// Describes what a run ended with, and hands back the text of its cursor, for which there may have
// been no memory.
pub(crate) fn conclude_run(end: RunEnd, text: Result<Vec<u8>, AllocError>) -> Performed
    ensures status { IsStatus result.status result.note }
    ensures said { IsRanSaid result.note }
    ensures worn { (result.note ≡ Note.CursorWorn) ↔ (end.end ≡ RunStatus.Worn) }
    ensures worn_ends { end.end ≡ RunStatus.Worn → (result.status ≡ 3) × IsNone result.cursor }
    ensures kept { IsKept result.note result.cursor }
    ensures note { end.end ≢ RunStatus.Worn → (text_of : CursorModel → List ℕ)
        → IfOk text (λ bytes. bytes.items ≡ text_of end.cursor)
        → IsStoredNote text_of end.cursor end.spent end.found end.end
        result.status result.note result.cursor }
    ensures lines { IsWhole result.note →
        (end.end ≢ RunStatus.Stopped ReportStop.Output) × (result.status ≡ status_of end.found) }
    ensures uncut { result.note ≢ Note.OutputFailed
        → (result.note ≢ Note.OutOfMemory) ⊎ IsSome result.cursor
        → end.end ≢ RunStatus.Stopped ReportStop.Output }
{
    let RunEnd {
        cursor,
        spent,
        found,
        end,
        ..
    } = end;
    if matches!(end, RunStatus::Worn) {
        return without_cursor((3, Note::CursorWorn));
    }
    let Ok(text) = text else {
        return without_cursor((3, Note::OutOfMemory));
    };
    let (status, note) = describe_run(&cursor, spent, found, end);
    Performed {
        status,
        note,
        cursor: Some(text),
    }
}

// Describes a run whose cursor has a text.
pub(crate) fn describe_run(cursor: &Cursor, spent: u64, found: bool, end: RunStatus) -> (u8, Note)
    ensures note { IsRunNote cursor.now spent found end result.0 result.1 }
    ensures status { IsStatus result.0 result.1 }
    ensures said { IsRanSaid result.1 }
    ensures worn { result.1 ≡ Note.CursorWorn → end ≡ RunStatus.Worn }
    ensures kept { end ≢ RunStatus.Worn → (text : Vec ℕ Global) → IsKept result.1 (Some text) }
    ensures lines { IsWhole result.1 →
        (end ≢ RunStatus.Stopped ReportStop.Output) × (result.0 ≡ status_of found) }
    ensures uncut { result.1 ≢ Note.OutputFailed → end ≢ RunStatus.Stopped ReportStop.Output }
{
    match end {
        RunStatus::Ended => (status(found), run_summary(cursor, spent, true)),
        RunStatus::Spent => (status(found), run_summary(cursor, spent, false)),
        RunStatus::Stopped(why) => (3, stop_note(why)),
        RunStatus::Worn => (3, Note::CursorWorn),
    }
}

fn run_summary(cursor: &Cursor, spent: u64, ended: bool) -> Note
    ensures { result ≡ summary_of_run cursor.now spent ended }
{
    Note::RunMade {
        cycle: cursor.cycle(),
        runs: cursor.runs(),
        cost: spent,
        ended,
    }
}

// A cycle of `count` runs, each within the same limits.
fn perform_cycle<T: Tree, W: Write>(
    alloc: Global,
    store: &mut T,
    further: Further,
    limits: Limits,
    count: usize,
    block: &mut Block,
    out: &mut W,
) -> (u8, Note)
    // Of every store.
    ensures status { IsStatus result.0 result.1 }
    ensures said { IsCycleSaid result.1 }
    ensures lines { WritesReport result.0 result.1 (W.contents out.old) (W.contents out.new) }

    // Of a store that tells its tree.
    ensures told { WhereTold further T.told T.state W.contents store.old store.new out.old out.new
        (λ call. CyclePerformed call (limits_of_each limits count) result.0 result.1) }
{
    let Ok(each) = equal_limits(alloc, limits, count) else {
        return (3, Note::OutOfMemory);
    };
    describe_cycle(cycle(alloc, store, further, &each, block, out))
}

fn equal_limits(alloc: Global, limits: Limits, count: usize) -> Result<Vec<Limits>, AllocError>
    ensures { IfOk result (λ each. each.items ≡ replicate count limits) }
{
    Vec::from_elem(alloc, limits, count)
}

// Describes what a cycle ended with.
fn describe_cycle(end: CycleEnd) -> (u8, Note)
    ensures note { IsCycleNote end.runs end.spent end.found end.end result.0 result.1 }
    ensures status { IsStatus result.0 result.1 }
    ensures said { IsCycleSaid result.1 }
    ensures lines { IsWhole result.1 →
        (end.end ≢ CycleStatus.Stopped ReportStop.Output) × (result.0 ≡ status_of end.found) }
    ensures uncut { result.1 ≢ Note.OutputFailed
        → end.end ≢ CycleStatus.Stopped ReportStop.Output }
{
    let CycleEnd {
        runs,
        spent,
        found,
        end,
        ..
    } = end;
    match end {
        CycleStatus::Ended => (
            status(found),
            Note::CycleMade {
                runs,
                cost: spent,
                ended: true,
            },
        ),
        CycleStatus::Spent => (
            status(found),
            Note::CycleMade {
                runs,
                cost: spent,
                ended: false,
            },
        ),
        CycleStatus::Stopped(why) => (3, stop_note(why)),
    }
}

// Describes why nothing is shown.
fn describe_unshown(why: ShowStop) -> (u8, Note)
    ensures note { IsUnshownNote why result.0 result.1 }
    ensures unread { EndsUnread result.0 result.1 }
{
    match why {
        ShowStop::Whole(why) => describe_unread(why),
        ShowStop::Part(why) => describe_part_refused(PartRefused::Text(why)),
    }
}

// Describes why the cursor of a part is refused.
pub(crate) fn describe_part_refused(why: PartRefused) -> (u8, Note)
    ensures note { IsPartRefusedNote why result.0 result.1 }
    ensures unread { EndsUnread result.0 result.1 }
{
    match why {
        PartRefused::Text(Refused::Memory) => (3, Note::OutOfMemory),
        why => (4, Note::PartCursorRefused(why)),
    }
}

// Writes the lines of the stored cursor.
fn show_cursor<R: Read, W: Write>(alloc: Global, reader: Option<&mut R>, out: &mut W) -> (u8, Note)
    ensures status { IsStatus result.0 result.1 }
    ensures ends { (result.0 ≡ 0) ↔ (result.1 ≡ Note.Nothing) }
    ensures said { IsShowSaid result.1 }
    ensures refused { RefusesRightly Deed.Show (bytes_of R.remaining reader.entry) result.1 }
    ensures unshown { UnshownSaid Deed.Show (bytes_of R.remaining reader.entry) result.1 }
    ensures without_file { IsWithoutFile (bytes_of R.remaining reader.entry) Deed.Show result.1 }
    ensures shows { ShowsWith (bytes_of R.remaining reader.entry) result.1 (W.contents out.old)
        (W.contents out.new) }
    ensures silent { IsSilent result.1 → out.new ≡ out.old }
{
    let Some(reader) = reader else {
        return (3, Note::CursorFileFailed);
    };
    let lines = match read_shown(alloc, reader) {
        Ok(lines) => lines,
        Err(why) => return describe_unshown(why),
    };
    match write_all_of(out, &lines) {
        Ok(()) => (0, Note::Nothing),
        Err(_) => (3, Note::OutputFailed),
    }
}
