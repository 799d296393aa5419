//! The calls that closings make in a state folder.
ghost use Rattle.std.specs.Prelude.{◌≡◌, ◌⊎◌, ◌↔◌, ◌<◌, ◌≤◌, ◌^◌, ℕ, Bool, IsTrue, [], IfErr, IfOk};
ghost use Rattle.std.specs.Prelude.{MatchResult, OnErr, OnOk, Some, false};
ghost use Rattle.std.specs.Io.KnownBytes.{Appends};
ghost use Rattle.std.specs.Option.{option_map};
ghost use Rattle.ocfl_tree.specs.Place.{Text};
ghost use Rattle.ocfl_state.specs.Calls.{bytes_of};
ghost use Rattle.ocfl_files.specs.Failing.{stopped_status};
ghost use Rattle.ocfl_kept.specs.FilePaths.{list_path, new_list_path, packed_path};
ghost use Rattle.ocfl_kept.specs.Keeping.{IsAsClosed, IsShort};
ghost use Rattle.ocfl_closed.specs.Cut.{AreNamed, Calm, ClosedState, IsClosedDisk, Names, Still};
ghost use Rattle.ocfl_closed.specs.Cut.{untold};
ghost use Rattle.ocfl_accounts.specs.Kept.{is_some};
ghost use Rattle.ocfl_closed.specs.Files.{report_named};
ghost use Rattle.ocfl_closing.specs.Calls.{HasFault, Room as ModelRoom, no_room, report_in};
ghost use Rattle.ocfl_closing.specs.Calls.{reports_path, with_log, with_note};
ghost use Rattle.ocfl_closing.specs.Listing.{places_in};

use ocfl_closed::OpenReport;
use ocfl_cursor::PartEnds;
use ocfl_files::failing::Failure;
use ocfl_reading::expected::Listed;
use std::alloc::{AllocError, Global};
use std::io::{BufRead, Write};

/// What closings ask of a state folder and of the system: each file beside the closed reports by
/// its path.
///
/// One that states nothing of what is there does not tell it.
pub trait ClosingCalls {
    /// An open closed report.
    type Report: OpenReport + Drop;

    /// A list of what is gone, while it is written.
    type List: Write + Drop;

    /// An open list of what is gone.
    type Rows: BufRead + Drop;

    /// Whether the clauses say what is there. Of calls that do not tell, they say nothing.
    ghost told: { Bool } = { false };

    /// What is there beside the files of closed cycles.
    ghost room: { Self → ModelRoom } = { λ _. no_room };

    /// The files of closed cycles, and what a power cut may leave of them.
    ghost state: { Self → ClosedState } = { λ _. untold };

    /// How often a call has failed, for another reason than memory.
    ghost faults: { Self → ℕ } = { λ _. 0 };

    /// Where memory comes from.
    fn global(&self) -> Global;

    /// The path of the state folder.
    fn path(&self) -> &str
        ensures { IsTrue told → result.now ≡ (room self.now).path };

    /// The time, in seconds since the epoch.
    fn seconds(&self) -> u64;

    /// Whether something is at a path. The only error is running out of memory.
    fn has(&mut self, path: &str) -> Result<bool, AllocError>
        ensures room { IsTrue told → room self.new ≡ room self.old }
        ensures still { IsTrue told → Still (state self.old) (state self.new) }
        ensures faults { IsTrue told → faults self.old ≤ faults self.new }
        ensures list { IsTrue told → (cycle : ℕ) → cycle < 2 ^ 64
            → path.now ≡ list_path (room self.old).path cycle
            → IfOk result (λ is. is ≡ is_some ((state self.old).files.lists cycle)) }
        ensures packed { IsTrue told → (cycle : ℕ) → cycle < 2 ^ 64
            → path.now ≡ packed_path (room self.old).path cycle false
            → IfOk result (λ is. is ≡ (state self.old).files.packed cycle) };

    /// Opens the closed report of a cycle that has the name of a whole one, or of one that is not.
    /// `None` if nothing has that name.
    fn open_report(&mut self, cycle: u64, whole: bool) -> Result<Option<Self::Report>, Failure>
        ensures room { IsTrue told → room self.new ≡ room self.old }
        ensures still { IsTrue told → Still (state self.old) (state self.new) }
        ensures value { IsTrue told → IfOk result (λ found. option_map Self.Report.bytes found
            ≡ report_named (state self.old).files whole cycle) }
        ensures fault { IsTrue told → HasFault (faults self.old) (faults self.new) result };

    /// The bytes of the checkpoint with which the report of a cycle was closed. `None` if none was
    /// kept.
    fn kept(&mut self, cycle: u64) -> Result<Option<Vec<u8>>, Failure>
        ensures room { IsTrue told → room self.new ≡ room self.old }
        ensures still { IsTrue told → Still (state self.old) (state self.new) }
        ensures value { IsTrue told → IfOk result (λ found.
            option_map bytes_of found ≡ (state self.old).files.kept cycle) }
        ensures fault { IsTrue told → HasFault (faults self.old) (faults self.new) result };

    /// Whether the closed report of a cycle has the length, the lines and the digests of the
    /// checkpoint with which it was closed. One that is not there counts so, and one without a kept
    /// checkpoint.
    fn is_as_closed(&mut self, cycle: u64) -> Result<bool, Failure>
        ensures room { IsTrue told → room self.new ≡ room self.old }
        ensures still { IsTrue told → Still (state self.old) (state self.new) }
        ensures value { IsTrue told → IsShort (report_in (state self.old).files cycle)
            → IfOk result (λ is. IsTrue is ↔ IsAsClosed ((state self.old).files.kept cycle)
            (report_in (state self.old).files cycle)) }
        ensures fault { IsTrue told → HasFault (faults self.old) (faults self.new) result }
        ensures failed { IfErr result (λ failure. failure.status ≡ stopped_status) };

    /// The ends of the part that the state folder is of, by its checkpoint. `None` if it is of a
    /// whole storage root.
    fn ends(&mut self) -> Result<Option<PartEnds>, Failure>
        ensures room { IsTrue told → room self.new ≡ room self.old }
        ensures still { IsTrue told → Still (state self.old) (state self.new) }
        ensures value { IsTrue told → IfOk result (λ ends. ends ≡ (room self.old).ends) }
        ensures fault { IsTrue told → HasFault (faults self.old) (faults self.new) result };

    /// Reads the list of the objects that must be there. `None` if no list was given.
    fn read_expected(&mut self) -> Result<Option<Listed>, Failure>
        ensures room { IsTrue told → room self.new ≡ room self.old }
        ensures still { IsTrue told → Still (state self.old) (state self.new) }
        ensures value { IsTrue told → IfOk result (λ found.
            option_map (λ listed. listed.places.items) found ≡ (room self.old).expected) }
        ensures fault { IsTrue told → HasFault (faults self.old) (faults self.new) result };

    /// Opens a list of what is gone. `None` if nothing is at this path.
    fn open_rows(&mut self, path: &str) -> Result<Option<Self::Rows>, Failure>
        ensures room { IsTrue told → room self.new ≡ room self.old }
        ensures still { IsTrue told → Still (state self.old) (state self.new) }
        ensures value { IsTrue told → (cycle : ℕ) → cycle < 2 ^ 64
            → path.now ≡ list_path (room self.old).path cycle
            → IfOk result (λ found. option_map Self.Rows.remaining found
            ≡ option_map Some ((state self.old).files.lists cycle)) }
        ensures fault { IsTrue told → HasFault (faults self.old) (faults self.new) result };

    /// Makes an empty list of what is gone, in place of what is at this path. Until the next one is
    /// made, it is the list that was made last.
    fn make(&mut self, path: &str) -> Result<Self::List, Failure>
        ensures room { IsTrue told → room self.new ≡ room self.old }
        ensures calm { IsTrue told → (cycle : ℕ) → cycle < 2 ^ 64
            → path.now ≡ new_list_path (room self.old).path cycle
            → Calm (state self.old) (state self.new) }
        ensures empty { IsTrue told → IfOk result (λ list. Self.List.contents list ≡ Some []) }
        ensures fault { IsTrue told → HasFault (faults self.old) (faults self.new) result };

    /// Ends the list that was made last, to which all is written.
    fn end(&mut self, list: &Self::List) -> Result<(), Failure>
        ensures room { IsTrue told → room self.new ≡ room self.old }
        ensures calm { IsTrue told → Calm (state self.old) (state self.new) }
        ensures list { IsTrue told → OnOk result ((written : Text)
            → Self.List.contents list.now ≡ Some written → (state self.new).beside ≡ written) }
        ensures fault { IsTrue told → HasFault (faults self.old) (faults self.new) result };

    /// Brings the bytes of the list that was made last to the disk. It fails if none was made.
    fn sync_made(&mut self) -> Result<(), Failure>
        ensures room { IsTrue told → room self.new ≡ room self.old }
        ensures still { IsTrue told → Still (state self.old) (state self.new) }
        ensures synced { IsTrue told → OnOk result (IsTrue (state self.new).is_synced) }
        ensures fault { IsTrue told → HasFault (faults self.old) (faults self.new) result };

    /// Gives the list that was made last this path, in place of what is there. It fails if none was
    /// made.
    fn put_made(&mut self, path: &str) -> Result<(), Failure>
        ensures room { IsTrue told → room self.new ≡ room self.old }
        ensures names { IsTrue told → (cycle : ℕ) → cycle < 2 ^ 64
            → path.now ≡ list_path (room self.old).path cycle
            → IsTrue (state self.old).is_synced → MatchResult result
            (λ _. Names cycle (state self.old) (state self.new))
            (λ _. Calm (state self.old) (state self.new)
            ⊎ Names cycle (state self.old) (state self.new)) }
        ensures fault { IsTrue told → HasFault (faults self.old) (faults self.new) result };

    /// Removes the list that was made last, if it can.
    fn remove_made(&mut self)
        ensures room { IsTrue told → room self.new ≡ room self.old }
        ensures calm { IsTrue told → Calm (state self.old) (state self.new) }
        ensures faults { IsTrue told → faults self.new ≡ faults self.old };

    /// Brings the names in a folder to the disk.
    fn sync_folder(&mut self, path: &str) -> Result<(), Failure>
        ensures room { IsTrue told → room self.new ≡ room self.old }
        ensures calm { IsTrue told → Calm (state self.old) (state self.new) }
        ensures named { IsTrue told → path.now ≡ reports_path (room self.old).path
            → OnOk result (AreNamed (state self.new)) }
        ensures fault { IsTrue told → HasFault (faults self.old) (faults self.new) result };

    /// Appends a line to the log of the state folder.
    fn add_to_log(&mut self, line: &[u8]) -> Result<(), Failure>
        ensures room { IsTrue told → room self.new
            ≡ with_log (room self.new).log (room self.old) }
        ensures logged { IsTrue told
            → OnOk result (Appends (room self.old).log (room self.new).log line.now) }
        ensures calm { IsTrue told → Calm (state self.old) (state self.new) }
        ensures fault { IsTrue told → HasFault (faults self.old) (faults self.new) result }
        ensures failed { IfErr result (λ failure. failure.status ≡ stopped_status) };

    /// Says on standard error what failed. The only error is running out of memory: a standard
    /// error that cannot be written changes nothing.
    fn say(&mut self, failure: &Failure) -> Result<(), AllocError>
        ensures said { IsTrue told → OnOk result
            (room self.new ≡ with_note failure.now (room self.old)) }
        ensures silent { IsTrue told → OnErr result (room self.new ≡ room self.old) }
        ensures calm { IsTrue told → Calm (state self.old) (state self.new) }
        ensures faults { IsTrue told → faults self.new ≡ faults self.old };

    /// Where it is told what is there, it is told what is in a report.
    ghost reports: { IsTrue told → IsTrue Self.Report.told };

    /// The laws of what is on a disk.
    ghost is_disk: { IsTrue told → (calls : Self) → IsClosedDisk (state calls) };

    /// The objects that must be there are those of the list that are in the part of the folder.
    ghost is_listed: { IsTrue told → (calls : Self) → (state calls).files.listed
        ≡ option_map (places_in (room calls).ends) (room calls).expected };
}
