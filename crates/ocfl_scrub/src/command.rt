//! The commands `check` and `audit`: status and note.
ghost use Rattle.std.specs.Prelude.{◌≡◌, ◌≢◌, ◌⊎◌, [], false, true};
ghost use Rattle.ocfl_tree.specs.{Place.{Place as ModelPlace}, Name.{IsPlace}};
ghost use Rattle.ocfl_report.specs.{Line.{found as found_in}, Text.{place_text, text}};
ghost use Rattle.ocfl_rules.specs.{Audit.{audit as whole_audit}, Parts.{whole}};
ghost use Rattle.ocfl_scrub.specs.Call.{IsUnfailing, WhereTold, Writes};
ghost use Rattle.ocfl_scrub.specs.Noting.{status_of, IsAuditNote, IsAuditSaid, IsCheckNote, IsCheckSaid, IsRefused, IsStatus, IsStopNote, IsStopSaid, AuditsWithNote, ChecksWithNote, ReportsOnAnyStore};

use crate::auditing::{AuditEnd, audit};
use crate::checking::{AuditStatus, CheckEnd, check};
use crate::note::Note;
use crate::stop::ReportStop;
use ocfl_digest::Block;
use ocfl_report::{Further, TextStop, read_place};
use ocfl_tree::Tree;
use ocfl_walk::Fault;
use std::alloc::Global;
use std::io::Write;

/// Checks the place with this path, written as in report lines, as an audit does that checks this
/// beside what every audit checks. Gives the exit status with what is to be said: 0 without a
/// finding, 1 with one, 2 if the path is not that of a place, 3 after a stop.
///
/// For a path that is not that of a place no call of the store is made, and nothing is written.
pub fn checked<T: Tree, W: Write>(
    alloc: Global,
    store: &mut T,
    further: Further,
    path: &str,
    block: &mut Block,
    out: &mut W,
) -> (u8, Note)
    // Of every store.
    ensures bad { ((p : ModelPlace) → IsPlace p → path.now ≢ place_text p)
        → IsRefused result.0 result.1 × (store.new ≡ store.old) × (out.new ≡ out.old) }
    ensures only_bad { result.1 ≡ Note.BadPath → (p : ModelPlace) → IsPlace p
        → path.now ≢ place_text p }
    ensures any_store { ReportsOnAnyStore W.contents out.old out.new result.0 result.1 }
    ensures said { IsCheckSaid result.1 }
    ensures silent { result.1 ≢ Note.Nothing → result.1 ≢ Note.OutputFailed → out.new ≡ out.old }

    // Of a store that tells its tree.
    ensures told { WhereTold further T.told T.state W.contents store.old store.new out.old out.new
        (λ call. (p : ModelPlace) → IsPlace p → path.now ≡ place_text p
        → ChecksWithNote call p result.0 result.1 ⊎ ((result.0 ≡ 3)
        × (result.1 ≡ Note.OutOfMemory) × (store.new ≡ store.old) × (out.new ≡ out.old))) }
{
    match read_place(alloc, path.as_bytes()) {
        Ok(place) => describe_check(check(alloc, store, further, &place, block, out)),
        Err(TextStop::Bad) => (2, Note::BadPath),
        Err(TextStop::Memory) => (3, Note::OutOfMemory),
    }
}

/// Audits a whole storage root, and checks this beside what every audit checks. Gives the exit
/// status with what is to be said: 0 without a finding, 1 with one, 3 after a stop.
pub fn audited<T: Tree, W: Write>(
    alloc: Global,
    store: &mut T,
    further: Further,
    block: &mut Block,
    out: &mut W,
) -> (u8, Note)
    // Of every store.
    ensures any_store { ReportsOnAnyStore W.contents out.old out.new result.0 result.1 }
    ensures said { IsAuditSaid result.1 }

    // Of a store that tells its tree.
    ensures told { WhereTold further T.told T.state W.contents store.old store.new out.old out.new
        (λ call. AuditsWithNote (λ ran. IsAuditNote ran.found ran.end result.0 result.1) call
        whole) }
    ensures unfailing { WhereTold further T.told T.state W.contents store.old store.new out.old
        out.new (λ call. result.1 ≡ Note.Nothing → IsUnfailing call
        → Writes call (text (whole_audit call.further call.root []))
        × (result.0 ≡ status_of (found_in (whole_audit call.further call.root [])))) }
{
    describe_audit(audit(alloc, store, further, block, out))
}

fn describe_check(end: CheckEnd) -> (u8, Note)
    requires stopped { end.end ≢ AuditStatus.Ended → end.item ≡ false }
    requires no_item { end.item ≡ false → end.found ≡ false }
    ensures note { IsCheckNote end.item end.found end.end result.0 result.1 }
    ensures status { IsStatus result.0 result.1 }
    ensures good_path { result.1 ≢ Note.BadPath }
    ensures said { IsCheckSaid result.1 }
    ensures nothing { result.1 ≡ Note.Nothing
        → (end.item ≡ true) × (result.0 ≡ status_of end.found) }
    ensures silent { result.1 ≢ Note.Nothing → result.1 ≢ Note.OutputFailed
        → (end.item ≡ false) × (end.end ≢ AuditStatus.Stopped ReportStop.Output) }
{
    match end.end {
        AuditStatus::Ended if !end.item => (status(end.found), Note::NoItem),
        AuditStatus::Ended => (status(end.found), Note::Nothing),
        AuditStatus::Stopped(why) => (3, stop_note(why)),
    }
}

pub(crate) fn describe_audit(end: AuditEnd) -> (u8, Note)
    ensures note { IsAuditNote end.found end.end result.0 result.1 }
    ensures status { IsStatus result.0 result.1 }
    ensures said { IsAuditSaid result.1 }
    ensures nothing { result.1 ≡ Note.Nothing
        → (end.end ≡ AuditStatus.Ended) × (result.0 ≡ status_of end.found) }
    ensures uncut { result.1 ≢ Note.OutputFailed → end.end ≢ AuditStatus.Stopped ReportStop.Output }
{
    let AuditEnd { found, end, .. } = end;
    match end {
        AuditStatus::Ended => (status(found), Note::Nothing),
        AuditStatus::Stopped(why) => (3, stop_note(why)),
    }
}

// What is said after a stop.
pub(crate) fn stop_note(why: ReportStop) -> Note
    ensures note { IsStopNote why result }
    ensures said { IsStopSaid result }
{
    match why {
        ReportStop::Fault(Fault::Store(place)) => Note::StoppedAt(place),
        ReportStop::Fault(Fault::Memory) => Note::OutOfMemory,
        ReportStop::Output => Note::OutputFailed,
    }
}

pub(crate) fn status(found: bool) -> u8
    ensures { result ≡ status_of found }
{
    if found { 1 } else { 0 }
}
