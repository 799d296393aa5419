//! What is said of a cycle whose report was closed, against the last report before it.
//!
//! The list of what is gone is put in its place once all was said. While it is not there, the next
//! night compares again.

ghost use Rattle.std.specs.Prelude.{◌≡◌, IsTrue, is_some, map};
ghost use Rattle.ocfl_closing.specs.Closing.{HasSaid};
ghost use Rattle.ocfl_report.specs.Line.{line_of};

use crate::calls::ClosingCalls;
use crate::folder_calls::FolderCalls;
use crate::telling::FolderClosings;
use ocfl_accounts::{find_unsaid, say_cycles};
use ocfl_closed::{DiskClosings, SaidWith};
use ocfl_kept::names::About;
use ocfl_kept::room::Room;
use ocfl_kept::state_dir::Folder;
use ocfl_report::Line;
use ocfl_say::{Say, Speaking};
use std::io::Write;
use std::time::Clock;

/// What the closings of a state folder are said with: the night that says them, and of which
/// cycles.
#[derive(Clone, Copy)]
pub struct SaidBy<'n> {
    /// The night that says them.
    pub about: About<'n>,
    /// The file of the objects that must be there.
    pub expected: Option<&'n str>,
    /// The lines that its messages have.
    pub said: &'n [Line],
    /// The cycle that was closed last before the night; 0 if none was.
    pub before: u64,
    /// The cycle that the night closed; 0 if it closed none.
    pub closed: u64,
}

/// What came of saying closings. The calls are given back.
#[derive(Drop)]
pub struct ClosingsEnd<C: Drop> {
    pub calls: C,
    /// The greatest status.
    pub status: u8,
}

/// Says what the cycles found whose closings were not said, from the first on of the 1,000 before
/// the last one before the night, to the one that the night closed. Each text is made with the
/// names, the known findings and the lines of the night. Says why a closing was not said.
pub fn say_closings<C: ClosingCalls + Drop, S: Say>(
    calls: C,
    said_by: &SaidBy<'_>,
    out: &mut S,
) -> ClosingsEnd<C>
    ensures { IsTrue C.told → HasSaid (record {
      root = said_by.now.about.names.root.now;
      state = said_by.now.about.names.state.now;
      is_part = is_some said_by.now.about.names.part;
      known = said_by.now.about.known.now;
      said = map line_of said_by.now.said.now;
    }) said_by.now.before said_by.now.closed (C.state calls) (C.state result.calls)
        (S.said out.old) (S.said out.new) result.status }
{
    let alloc = calls.global();
    let disk = FolderClosings::over(calls, said_by.about.began);
    let with = SaidWith {
        root: said_by.about.names.root,
        state: said_by.about.names.state,
        is_part: said_by.about.names.part.is_some(),
        known: said_by.about.known,
        said: said_by.said,
    };
    let mut closings = DiskClosings::over(alloc, disk, with, said_by.closed);
    let mut first = said_by.before;
    // A cycle that could not be looked at is the first: then it is said, or why it is not.
    let _ = find_unsaid(&mut closings, &mut first);
    let end = said_by.before.max(said_by.closed).saturating_add(1);
    let status = say_cycles(alloc, &mut closings, first.max(1), end, out);
    let calls = closings.into_disk().into_calls();
    ClosingsEnd { calls, status }
}

/// Says them by the calls of the system, of a state folder. Gives the greatest status.
pub fn tell_closings<R, F, W>(rt: &R, folder: &mut F, said_by: SaidBy<'_>, out: &mut W) -> u8
where
    R: Room + Clock + Eprint,
    F: Folder,
    W: Write,
{
    let state = said_by.about.names.state;
    let calls = FolderCalls::new(rt, folder, state, said_by.expected);
    let ClosingsEnd { status, .. } = say_closings(calls, &said_by, &mut Speaking { out });
    status
}
