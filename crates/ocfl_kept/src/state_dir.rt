//! A state folder, as nights open it.
ghost use Rattle.std.specs.Prelude.{◌≡◌, ◌<◌, ◌++◌, Bool, false, IsTrue, IfOk, IfSome, None, OnOk, Option, [], length, take};
ghost use Rattle.std.specs.{Io.{KnownBytes.{Appends}, ReadsAtMost}, Option.{option_map}};
ghost use Rattle.ocfl_tree.specs.Place.{Text};
ghost use Rattle.ocfl_state.specs.Calls.{bytes_of};
ghost use Rattle.ocfl_disk.specs.declared.fs_state.OpenReport.{OpenReport as ModelReport};
ghost use Rattle.ocfl_kept.specs.Keeping.{Holding, holding_none, seen_report};

use ocfl_disk::{FsState, OpenReport, Reason, SystemDisk};
use ocfl_state::{FolderTrouble, StateFolder};
use std::fs::File;
use std::io::{self, Read};
use std::rt::Files;

/// A state folder on the system's disk, which is held while this lives.
pub type StateDir<'a, R> = FsState<SystemDisk<&'a R>>;

/// A state folder whose closed reports are read, and whose log is written.
///
/// One that states nothing of what is in it does not show it.
pub trait Folder {
    /// Whether the clauses say what is in it. Of one that does not show it, they say little.
    ghost shown: { Bool } = { false };

    /// What is in it.
    ghost holding: { Self → Holding } = { λ _. holding_none };

    /// The bytes of an open report, and those that were not read yet.
    ghost bytes: { ModelReport → Text } = { λ _. [] };

    ghost unread: { ModelReport → Text } = { λ _. [] };

    /// What its log has, if that is known.
    ghost log: { Self → Option Text } = { λ _. None };

    /// Why the last call failed that did.
    fn last_reason(&self) -> Option<Reason>;

    /// The bytes of its checkpoint.
    fn stored(&mut self) -> Result<Option<Vec<u8>>, FolderTrouble>
        ensures value { IsTrue shown → IfOk result (λ found.
            option_map bytes_of found ≡ (holding self.old).checkpoint) }
        ensures same { IsTrue shown → holding self.new ≡ holding self.old };

    /// The bytes of the checkpoint with which the report of a cycle was closed.
    fn stored_at_closing(&mut self, cycle: u64) -> Result<Option<Vec<u8>>, FolderTrouble>
        ensures value { IsTrue shown → IfOk result (λ found.
            option_map bytes_of found ≡ (holding self.old).kept cycle) }
        ensures same { IsTrue shown → holding self.new ≡ holding self.old };

    /// Opens the closed report of a cycle.
    fn closed_report(&mut self, cycle: u64) -> Result<Option<OpenReport>, FolderTrouble>
        ensures value { IsTrue shown → IfOk result (λ found. option_map (λ report.
            seen_report report.whole (bytes report)) found ≡ (holding self.old).reports cycle) }
        ensures unread { IsTrue shown → IfOk result (λ found. IfSome found (λ report.
            unread report ≡ bytes report)) }
        ensures same { IsTrue shown → holding self.new ≡ holding self.old };

    /// Opens the closed report of a cycle that is whole, or the one that is not.
    fn closed_report_as(&mut self, cycle: u64, whole: bool) -> Result<Option<File>, FolderTrouble>;

    /// How many bytes an open report has.
    fn report_length(&mut self, report: &OpenReport) -> io::Result<u64>
        ensures value { IsTrue shown → IfOk result (λ n. n ≡ length (bytes report.now)) }
        ensures same { IsTrue shown → holding self.new ≡ holding self.old };

    /// Reads the next bytes of an open report, and gives how many. For a buffer that is not empty,
    /// 0 is the end of the report.
    fn read_report(&mut self, report: &mut OpenReport, buffer: &mut [u8]) -> io::Result<usize>
        ensures bound { ReadsAtMost result buffer.new }
        ensures read { IsTrue shown → IfOk result (λ count.
            unread report.old ≡ take count buffer.new ++ unread report.new) }
        ensures end { IsTrue shown → IfOk result (λ count.
            count ≡ 0 → 0 < length buffer.new → unread report.new ≡ []) }
        ensures same { IsTrue shown → holding self.new ≡ holding self.old };

    /// Appends a line to the log.
    fn add_to_log(&mut self, line: &[u8]) -> Result<(), FolderTrouble>
        ensures { OnOk result (Appends (log self.old) (log self.new) line.now) };
}

impl<'a, R: Files<File = File> + AllocGlobal> Folder for FsState<SystemDisk<&'a R>> {
    fn last_reason(&self) -> Option<Reason> {
        self.reason()
    }

    fn stored(&mut self) -> Result<Option<Vec<u8>>, FolderTrouble> {
        self.checkpoint()
    }

    fn stored_at_closing(&mut self, cycle: u64) -> Result<Option<Vec<u8>>, FolderTrouble> {
        self.kept_checkpoint(cycle)
    }

    fn closed_report(&mut self, cycle: u64) -> Result<Option<OpenReport>, FolderTrouble> {
        self.open_closed(cycle)
    }

    fn closed_report_as(&mut self, cycle: u64, whole: bool) -> Result<Option<File>, FolderTrouble> {
        self.open_closed_as(cycle, whole)
    }

    fn report_length(&mut self, report: &OpenReport) -> io::Result<u64> {
        Ok(report.file.metadata()?.len())
    }

    fn read_report(&mut self, report: &mut OpenReport, buffer: &mut [u8]) -> io::Result<usize> {
        report.file.read(buffer)
    }

    fn add_to_log(&mut self, line: &[u8]) -> Result<(), FolderTrouble> {
        self.append_log(line)
    }
}
