//! What the program does for a command within a scope: on the whole storage root, on a branch of
//! it, or on one part.
ghost use Rattle.std.specs.Prelude.{◌≡◌, ◌≢◌, IfErr, IfOk, None, Some};
ghost use Rattle.ocfl_scope.specs.declared.scope.Scope.TheVariants as scopes;
ghost use Rattle.ocfl_scrub.specs.{Call.{WhereTold}, Running.{limits_of}};
ghost use Rattle.ocfl_scrub.specs.Noting.{EndsUnread, IsStatus, ReportsOnAnyStore, status_of};
ghost use Rattle.ocfl_scrub.specs.Performing.{AnswersOnAnyStore, bytes_of, further_of};
ghost use Rattle.ocfl_scrub.specs.Scoping.{AuditPerformedIn, HandsBackIn, IsAuditNoteIn, IsAuditSaidIn, IsPartFirst, IsPartRunSaid, IsPartUnreadNote, IsSaidIn, PartRefusesRightly, PartRunPerformed, PartStopsWith, PerformsIn, RefusesRightlyIn};

use crate::auditing::{AuditEnd, audit_part};
use crate::checking::AuditStatus;
use crate::command::describe_audit;
use crate::note::Note;
use crate::part::{part_between, part_in};
use crate::performing::{
    Performed, conclude_run, describe_part_refused, of_audit, perform, without_cursor,
};
use crate::running::run_part;
use crate::stop::ReportStop;
use ocfl_cursor::{Cursor, Limits, PartCursorStop, PartEnds, encode_part, read_part_cursor};
use ocfl_deed::Deed;
use ocfl_digest::Block;
use ocfl_report::Further;
use ocfl_scope::Scope;
use ocfl_tree::Tree;
use std::alloc::Global;
use std::io::{Read, Write};

/// Does what is asked for within a scope, as `perform` does on the whole storage root.
///
/// An audit takes the items of its branch or part. A branch without items ends with status 2, so
/// that a place that does not exist does not pass as right; a part may be empty. A run takes the
/// items of its part, and the text of its cursor names the part. It refuses the cursor of another
/// part or of the whole root, and then that of an audit with the other option. A run within a
/// branch, and any other command, takes the whole root.
pub fn perform_part<T: Tree, R: Read, W: Write>(
    alloc: Global,
    store: &mut T,
    deed: &Deed,
    scope: &Scope,
    reader: Option<&mut R>,
    block: &mut Block,
    out: &mut W,
) -> Performed
    ensures any_store { AnswersOnAnyStore W.contents store.old store.new out.old out.new
        (bytes_of R.remaining reader.entry) deed.now result }
    ensures said { IsSaidIn deed.now scope.now result.note }
    ensures empty { result.note ≡ Note.EmptyBranch → out.new ≡ out.old }
    ensures refused { RefusesRightlyIn deed.now scope.now (bytes_of R.remaining reader.entry)
        result.note }
    ensures handed_back { HandsBackIn deed.now scope.now (bytes_of R.remaining reader.entry)
        result.status result.note result.cursor }
    ensures told { WhereTold (further_of deed.now) T.told T.state W.contents store.old store.new
        out.old out.new (λ call. PerformsIn call deed.now scope.now
        (bytes_of R.remaining reader.entry) result.status result.note result.cursor) }
{
    match deed {
        Deed::Audit(further) => {
            without_cursor(audited_in(alloc, store, *further, scope, block, out))
        }
        Deed::Run(further, limits) => match scope {
            Scope::Whole => perform(alloc, store, deed, reader, block, out),
            Scope::Branch(_) => perform(alloc, store, deed, reader, block, out),
            Scope::Part(ends) => {
                perform_part_run(alloc, store, *further, ends, *limits, reader, block, out)
            }
        },
        Deed::Check(..) => perform(alloc, store, deed, reader, block, out),
        Deed::Cycle(..) => perform(alloc, store, deed, reader, block, out),
        Deed::Show => perform(alloc, store, deed, reader, block, out),
    }
}

// Audits what a scope has, and describes what the audit ended with.
fn audited_in<T: Tree, W: Write>(
    alloc: Global,
    store: &mut T,
    further: Further,
    scope: &Scope,
    block: &mut Block,
    out: &mut W,
) -> (u8, Note)
    // Of every store.
    ensures any_store { ReportsOnAnyStore W.contents out.old out.new result.0 result.1 }
    ensures said { IsAuditSaidIn scope.now result.1 }
    ensures empty { result.1 ≡ Note.EmptyBranch → out.new ≡ out.old }

    // Of a store that tells its tree.
    ensures told { WhereTold further T.told T.state W.contents store.old store.new out.old out.new
        (λ call. AuditPerformedIn call scope.now result.0 result.1) }
{
    let Ok(part) = part_in(alloc, scope) else {
        return (3, Note::OutOfMemory);
    };
    describe_audit_in(scope, audit_part(alloc, store, further, &part, block, out))
}

// Describes what the audit of a scope ended with: only a branch may not be empty.
fn describe_audit_in(scope: &Scope, end: AuditEnd) -> (u8, Note)
    ensures note { IsAuditNoteIn scope.now end.found end.end end.last result.0 result.1 }
    ensures status { IsStatus result.0 result.1 }
    ensures said { IsAuditSaidIn scope.now result.1 }
    ensures nothing { result.1 ≡ Note.Nothing
        → (end.end ≡ AuditStatus.Ended) × (result.0 ≡ status_of end.found) }
    ensures empty { result.1 ≡ Note.EmptyBranch
        → (end.end ≡ AuditStatus.Ended) × (end.last ≡ None) }
    ensures uncut { result.1 ≢ Note.OutputFailed → end.end ≢ AuditStatus.Stopped ReportStop.Output }
{
    let none = matches!(end.end, AuditStatus::Ended) && end.last.is_none();
    if none && matches!(scope, Scope::Branch(_)) {
        return (2, Note::EmptyBranch);
    }
    describe_audit(end)
}

// Makes one run of the part with these ends, from its stored cursor.
fn perform_part_run<T: Tree, R: Read, W: Write>(
    alloc: Global,
    store: &mut T,
    further: Further,
    ends: &PartEnds,
    limits: Limits,
    reader: Option<&mut R>,
    block: &mut Block,
    out: &mut W,
) -> Performed
    ensures any_store { AnswersOnAnyStore W.contents store.old store.new out.old out.new
        (bytes_of R.remaining reader.entry) (Deed.Run further limits) result }
    ensures said { IsPartRunSaid result.note }
    ensures refused { PartRefusesRightly further ends.now (bytes_of R.remaining reader.entry)
        result.note }
    ensures handed_back { HandsBackIn (Deed.Run further limits) (scopes.Part ends.now)
        (bytes_of R.remaining reader.entry) result.status result.note result.cursor }
    ensures told { WhereTold further T.told T.state W.contents store.old store.new out.old out.new
        (λ call. PartRunPerformed call ends.now (bytes_of R.remaining reader.entry)
        (limits_of limits) result.status result.note result.cursor) }
{
    let read = match first_part_cursor(alloc, further, ends, reader) {
        Ok(read) => read,
        Err(why) => return without_cursor(describe_part_unread(why)),
    };
    let cursor = match of_audit(read, further) {
        Ok(cursor) => cursor,
        Err(other) => return without_cursor((4, Note::OtherAudit(other))),
    };
    let Ok(part) = part_between(alloc, ends) else {
        return without_cursor((3, Note::OutOfMemory));
    };
    let end = run_part(alloc, store, &part, cursor, limits, block, out);
    let text = encode_part(alloc, ends, &end.cursor);
    conclude_run(end, text)
}

// The cursor of the part that is stored, and without a reader a new one of an audit with this
// option.
fn first_part_cursor<R: Read>(
    alloc: Global,
    further: Further,
    ends: &PartEnds,
    reader: Option<&mut R>,
) -> Result<Cursor, PartCursorStop>
    ensures cursor { IfOk result (IsPartFirst further ends.now
        (bytes_of R.remaining reader.entry)) }
    ensures refused { IfErr result (PartStopsWith ends.now (bytes_of R.remaining reader.entry)) }
{
    match reader {
        Some(reader) => read_part_cursor(alloc, reader, ends),
        None => Ok(Cursor::new(further)),
    }
}

// Describes why no cursor of a part was read.
fn describe_part_unread(why: PartCursorStop) -> (u8, Note)
    ensures note { IsPartUnreadNote why result.0 result.1 }
    ensures unread { EndsUnread result.0 result.1 }
{
    match why {
        PartCursorStop::Read => (3, Note::CursorFileFailed),
        PartCursorStop::Refused(why) => describe_part_refused(why),
    }
}
