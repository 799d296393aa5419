//! The calls of the system that are made on the files of closed cycles.
ghost use Rattle.std.specs.Prelude.{◌≡◌, ◌⊎◌, ◌<◌, ◌^◌, ℕ, Bool, false, IsTrue, IfOk};
ghost use Rattle.std.specs.Prelude.{MatchResult, OnOk, Some, [], length, take};
ghost use Rattle.std.specs.Io.{ReadsAtMost};
ghost use Rattle.std.specs.Option.{option_map};
ghost use Rattle.ocfl_tree.specs.Place.{Text};
ghost use Rattle.ocfl_state.specs.Calls.{IsReadOf, bytes_of};
ghost use Rattle.ocfl_accounts.specs.{Causes.{HasCause, IsCause}, Kept.{is_some}};
ghost use Rattle.ocfl_closed.specs.Back.{IsBadList};
ghost use Rattle.ocfl_closed.specs.{Cut.{AreNamed, Calm, ClosedState, IsClosedDisk, Names, Still, untold}, Files.{report_named}};

use crate::account::{Account, Paths};
use ocfl_accounts::{ClosingStop, Pair};
use ocfl_compare::CompareStop;
use ocfl_tree::Place;
use std::io::{self, BufRead, Write};

/// An open closed report, which is read from any place. It stays as it is while it is open.
///
/// One that states nothing of what is in it does not tell it.
pub trait OpenReport {
    /// Whether the clauses say what is in it.
    ghost told: { Bool } = { false };

    /// Its bytes.
    ghost bytes: { Self → Text } = { λ _. [] };

    /// Reads bytes from an offset on into the front of the buffer, and gives how many. For a buffer
    /// that is not empty, 0 is the end of the report.
    fn read_at(&self, start: u64, buffer: &mut [u8]) -> io::Result<usize>
        ensures bound { ReadsAtMost result buffer.new }
        ensures value { IsTrue told → IfOk result (λ count.
            IsReadOf (bytes self.now) start (take count buffer.new) (length buffer.new)) };

    /// No report is longer than the system's files may be.
    ghost short: { IsTrue told → (report : Self) → length (bytes report) < 2 ^ 63 };
}

/// What closings ask of the system, by the numbers of cycles. `Failed` is answered if a call
/// failed, and `Memory` if memory was refused.
///
/// One that states nothing of what is on the disk does not tell it.
pub trait ClosedDisk {
    /// An open report.
    type Report: OpenReport + Drop;

    /// The list of what is gone, while it is written.
    type List: Write + Drop;

    /// An open list of what is gone.
    type Rows: BufRead + Drop;

    /// Whether the clauses say what is on the disk. Of one that does not tell, they say little.
    ghost told: { Bool } = { false };

    /// What is on the disk, and what a power cut may leave of it.
    ghost state: { Self → ClosedState } = { λ _. untold };

    /// How often a call has failed, for another reason than memory.
    ghost faults: { Self → ℕ } = { λ _. 0 };

    /// Whether the list of what is gone at the end of a cycle is there.
    fn has_list(&mut self, cycle: u64) -> Result<bool, ClosingStop>
        ensures still { IsTrue told → Still (state self.old) (state self.new) }
        ensures value { IsTrue told → IfOk result (λ answer.
            answer ≡ is_some ((state self.old).files.lists cycle)) }
        ensures cause { IsTrue told → HasCause (faults self.old) (faults self.new) result };

    /// Opens the list of what is gone at the end of a cycle. `None` if no list is there.
    fn open_list(&mut self, cycle: u64) -> Result<Option<Self::Rows>, ClosingStop>
        ensures still { IsTrue told → Still (state self.old) (state self.new) }
        ensures value { IsTrue told → IfOk result (λ found. option_map Self.Rows.remaining found
            ≡ option_map Some ((state self.old).files.lists cycle)) }
        ensures cause { IsTrue told → HasCause (faults self.old) (faults self.new) result };

    /// How the files of the closed cycle of a pair are called.
    fn find_paths(&mut self, pair: &Pair) -> Result<Paths, ClosingStop>
        ensures still { IsTrue told → Still (state self.old) (state self.new) }
        ensures cause { IsTrue told → HasCause (faults self.old) (faults self.new) result };

    /// Opens the closed report of a cycle that has the name of a whole one, or of one that is not.
    /// `None` if nothing has that name.
    fn open_report(&mut self, cycle: u64, whole: bool) -> Result<Option<Self::Report>, ClosingStop>
        ensures still { IsTrue told → Still (state self.old) (state self.new) }
        ensures value { IsTrue told → IfOk result (λ found.
            option_map Self.Report.bytes found ≡ report_named (state self.old).files whole cycle) }
        ensures cause { IsTrue told → HasCause (faults self.old) (faults self.new) result };

    /// Keeps that no report of a cycle is there which was to be read.
    fn miss_report(&mut self, cycle: u64) -> ClosingStop
        ensures still { IsTrue told → Still (state self.old) (state self.new) }
        ensures cause { IsTrue told → IsCause (faults self.old) (faults self.new) result };

    /// Keeps why an open report was not read.
    fn refuse_report(&mut self, report: &Self::Report, error: io::Error) -> ClosingStop
        ensures still { IsTrue told → Still (state self.old) (state self.new) }
        ensures cause { IsTrue told → IsCause (faults self.old) (faults self.new) result };

    /// Keeps why the report of a pair was not compared with that of a cycle before, and why a read
    /// of one of the two failed, if that is why.
    fn refuse_reports(
        &mut self,
        pair: &Pair,
        before: u64,
        stop: CompareStop,
        error: Option<io::Error>,
    ) -> ClosingStop
        ensures still { IsTrue told → Still (state self.old) (state self.new) }
        ensures cause { IsTrue told → IsCause (faults self.old) (faults self.new) result };

    /// Keeps that the report of a pair was not compared with that of a cycle before, since that one
    /// is not as it was closed.
    fn refuse_changed(&mut self, pair: &Pair, before: u64) -> ClosingStop
        ensures still { IsTrue told → Still (state self.old) (state self.new) }
        ensures cause { IsTrue told → IsCause (faults self.old) (faults self.new) result };

    /// Keeps why objects were not looked for in the report of a cycle, which is compared with that
    /// of one before, 0 for none; and why a read of it failed, if that is why.
    fn refuse_search(
        &mut self,
        cycle: u64,
        before: u64,
        stop: CompareStop,
        error: Option<io::Error>,
    ) -> ClosingStop
        ensures still { IsTrue told → Still (state self.old) (state self.new) }
        ensures cause { IsTrue told → IsCause (faults self.old) (faults self.new) result };

    /// Keeps why the list of what is gone at the end of a cycle was not read: a call failed, or
    /// memory was refused.
    fn refuse_list(&mut self, cycle: u64, error: io::Error) -> ClosingStop
        ensures still { IsTrue told → Still (state self.old) (state self.new) }
        ensures cause { IsTrue told → IsCause (faults self.old) (faults self.new) result };

    /// Keeps that what was read in place of the list of what is gone at the end of a cycle is no
    /// such list: one of its rows shows no change.
    fn refuse_rows(&mut self, cycle: u64) -> ClosingStop
        requires bad { IsTrue told → IsBadList ((state self.old).files.lists cycle) }
        ensures still { IsTrue told → Still (state self.old) (state self.new) }
        ensures cause { IsTrue told → IsCause (faults self.old) (faults self.new) result };

    /// Keeps why the lines of the report of a cycle were not counted, which is compared with none;
    /// and why a read of it failed, if that is why.
    fn refuse_lines(
        &mut self,
        cycle: u64,
        stop: CompareStop,
        error: Option<io::Error>,
    ) -> ClosingStop
        ensures still { IsTrue told → Still (state self.old) (state self.new) }
        ensures cause { IsTrue told → IsCause (faults self.old) (faults self.new) result };

    /// Reads which objects must be there. `None` if they are not listed.
    fn read_listed(&mut self) -> Result<Option<Vec<Place>>, ClosingStop>
        ensures still { IsTrue told → Still (state self.old) (state self.new) }
        ensures value { IsTrue told → IfOk result (λ found.
            option_map (λ places. places.items) found ≡ (state self.old).files.listed) }
        ensures cause { IsTrue told → HasCause (faults self.old) (faults self.new) result };

    /// The bytes of the checkpoint with which the report of a cycle was closed. `None` if none was
    /// kept.
    fn kept_checkpoint(&mut self, cycle: u64) -> Result<Option<Vec<u8>>, ClosingStop>
        ensures still { IsTrue told → Still (state self.old) (state self.new) }
        ensures value { IsTrue told → IfOk result (λ found.
            option_map bytes_of found ≡ (state self.old).files.kept cycle) }
        ensures cause { IsTrue told → HasCause (faults self.old) (faults self.new) result };

    /// Whether the report of a cycle that is not whole is there compressed.
    fn is_packed(&mut self, cycle: u64) -> Result<bool, ClosingStop>
        ensures still { IsTrue told → Still (state self.old) (state self.new) }
        ensures value { IsTrue told → IfOk result (λ answer.
            answer ≡ (state self.old).files.packed cycle) }
        ensures cause { IsTrue told → HasCause (faults self.old) (faults self.new) result };

    /// Makes an empty list of what is gone at the end of a cycle, which has no name that counts.
    fn make_list(&mut self, cycle: u64) -> Result<Self::List, ClosingStop>
        ensures calm { IsTrue told → Calm (state self.old) (state self.new) }
        ensures empty { IsTrue told → IfOk result (λ list. Self.List.contents list ≡ Some []) }
        ensures cause { IsTrue told → HasCause (faults self.old) (faults self.new) result };

    /// Ends the list that was made last, to which all is written.
    fn end_list(&mut self, list: &Self::List) -> Result<(), ClosingStop>
        ensures calm { IsTrue told → Calm (state self.old) (state self.new) }
        ensures list { IsTrue told → OnOk result ((written : Text)
            → Self.List.contents list.now ≡ Some written → (state self.new).beside ≡ written) }
        ensures cause { IsTrue told → HasCause (faults self.old) (faults self.new) result };

    /// Brings the bytes of the list that was made last to the disk.
    fn sync_list(&mut self) -> Result<(), ClosingStop>
        ensures still { IsTrue told → Still (state self.old) (state self.new) }
        ensures synced { IsTrue told → OnOk result (IsTrue (state self.new).is_synced) }
        ensures cause { IsTrue told → HasCause (faults self.old) (faults self.new) result };

    /// Gives the list that was made last the name of the list of a cycle, in place of what has it.
    fn rename_list(&mut self, cycle: u64) -> Result<(), ClosingStop>
        requires { IsTrue told → IsTrue (state self.old).is_synced }
        ensures names { IsTrue told → MatchResult result
            (λ _. Names cycle (state self.old) (state self.new))
            (λ _. Calm (state self.old) (state self.new)
            ⊎ Names cycle (state self.old) (state self.new)) }
        ensures cause { IsTrue told → HasCause (faults self.old) (faults self.new) result };

    /// Brings the names in the folder of the closed reports to the disk.
    fn sync_folder(&mut self) -> Result<(), ClosingStop>
        ensures calm { IsTrue told → Calm (state self.old) (state self.new) }
        ensures named { IsTrue told → OnOk result (AreNamed (state self.new)) }
        ensures cause { IsTrue told → HasCause (faults self.old) (faults self.new) result };

    /// Removes the list that was made last, if it can.
    fn remove_list(&mut self)
        ensures calm { IsTrue told → Calm (state self.old) (state self.new) }
        ensures faults { IsTrue told → (faults self.new) ≡ (faults self.old) };

    /// Appends the line on what was found of a cycle to the log.
    fn log(&mut self, pair: &Pair, account: &Account) -> Result<(), ClosingStop>
        ensures calm { IsTrue told → Calm (state self.old) (state self.new) }
        ensures cause { IsTrue told → HasCause (faults self.old) (faults self.new) result };

    /// Says why a closing was not said.
    fn fail(&mut self, stop: ClosingStop)
        ensures calm { IsTrue told → Calm (state self.old) (state self.new) }
        ensures faults { IsTrue told → (faults self.new) ≡ (faults self.old) };

    /// Where it is told what is on the disk, it is told what is in a report.
    ghost reports: { IsTrue told → IsTrue Self.Report.told };

    /// The laws of what is on a disk.
    ghost is_disk: { IsTrue told → (disk : Self) → IsClosedDisk (state disk) };
}
