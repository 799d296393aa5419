//! The calls of the system that a state folder makes.
ghost use Rattle.std.specs.Prelude.{◌≡◌, ◌⊎◌, ◌≤◌, ◌++◌, Bool, false, IsTrue, IfOk, IfErr, OnOk};
ghost use Rattle.std.specs.Prelude.{MatchResult, Some, [], ℕ, length, take};
ghost use Rattle.std.specs.Option.{option_map};
ghost use Rattle.ocfl_state.specs.Calls.{IsReadOf};
ghost use Rattle.ocfl_disk.specs.Names.{Stored};
ghost use Rattle.ocfl_disk.specs.PowerCut.{DiskState, IsDisk, untold};
ghost use Rattle.ocfl_disk.specs.Disk.{HasFault, Calm, Writes, Makes, Drops, PutsOver, ClosesOver};
ghost use Rattle.ocfl_disk.specs.Disk.{IsFound, has_name};

use crate::state_file::{Reason, StateFile};

/// What a state folder asks of the system: each call is about a file, or a folder, by its name in
/// the state folder. No link is followed, and what is no file is refused.
///
/// One that states nothing of what is on the disk does not tell it.
pub trait Disk {
    type File: Drop;

    /// Whether the clauses say what is on the disk. Of one that does not tell, they say little.
    ghost told: { Bool } = { false };

    /// What is on the disk, and what a power cut may leave of it.
    ghost state: { Self → DiskState } = { λ _. untold };

    /// The number of an open file.
    ghost number: { Self.File → ℕ } = { λ _. 0 };

    /// Whether the folder of the closed reports is there.
    fn has_reports(&mut self) -> Result<bool, Reason>
        ensures calm { IsTrue told → Calm (state self.old) (state self.new) }
        ensures none { IsTrue told → IfOk result (λ answer. answer ≡ false
            → (state self.old).seen.names.closed ≡ []) }
        ensures names { IsTrue told → IfOk result (λ answer. answer ≡ false
            → IsTrue ((state self.new).has_names StateFile.Reports)) }
        ensures cause { IsTrue told → IfErr result (HasFault (state self.old) (state self.new)) };

    /// Whether a closed report of a cycle is there, whole or not.
    fn has_closed(&mut self, cycle: u64, whole: bool) -> Result<bool, Reason>
        ensures calm { IsTrue told → Calm (state self.old) (state self.new) }
        ensures value { IsTrue told → IfOk result (λ answer.
            answer ≡ has_name cycle whole (state self.old).seen.names.closed) }
        ensures cause { IsTrue told → IfErr result (HasFault (state self.old) (state self.new)) };

    /// Opens a file that is there. `None` if it is not.
    fn open(&mut self, name: StateFile) -> Result<Option<Self::File>, Reason>
        ensures calm { IsTrue told → Calm (state self.old) (state self.new) }
        ensures found { IsTrue told → IfOk result (λ found.
            IsFound name (state self.old).seen.names (option_map number found)) }
        ensures cause { IsTrue told → IfErr result (HasFault (state self.old) (state self.new)) };

    /// How many names the open report has.
    fn count_names(&mut self, report: &Self::File) -> Result<u64, Reason>
        ensures calm { IsTrue told → Calm (state self.old) (state self.new) }
        ensures one { IsTrue told → IfOk result (λ count. count ≤ 1) }
        ensures cause { IsTrue told → IfErr result (HasFault (state self.old) (state self.new)) };

    /// Makes a file, which is empty, and opens it. What is there already is refused.
    fn create(&mut self, name: StateFile) -> Result<Self::File, Reason>
        ensures made { IsTrue told → MatchResult result
            (λ file. Makes name (number file) (state self.old) (state self.new))
            (λ _. Calm (state self.old) (state self.new)) }
        ensures cause { IsTrue told → IfErr result (HasFault (state self.old) (state self.new)) };

    /// How many bytes an open file has.
    fn length(&mut self, name: StateFile, file: &Self::File) -> Result<u64, Reason>
        ensures calm { IsTrue told → Calm (state self.old) (state self.new) }
        ensures value { IsTrue told → IfOk result (λ n.
            n ≡ length ((state self.old).seen.bytes (number file.now))) }
        ensures cause { IsTrue told → IfErr result (HasFault (state self.old) (state self.new)) };

    /// The bytes of an open file from its start, at most `most`.
    fn read_front(
        &mut self,
        name: StateFile,
        file: Self::File,
        most: u64,
    ) -> Result<Vec<u8>, Reason>
        ensures calm { IsTrue told → Calm (state self.old) (state self.new) }
        ensures value { IsTrue told → IfOk result (λ bytes. bytes.items
            ≡ take most ((state self.old).seen.bytes (number file))) }
        ensures cause { IsTrue told → IfErr result (HasFault (state self.old) (state self.new)) };

    /// Reads bytes of an open file from an offset on into the front of the buffer, and gives how
    /// many. For a buffer that is not empty, 0 is the end of the file.
    fn read_at(
        &mut self,
        name: StateFile,
        file: &Self::File,
        start: u64,
        buffer: &mut [u8],
    ) -> Result<usize, Reason>
        ensures bound { IfOk result (λ count. count ≤ length buffer.new) }
        ensures calm { IsTrue told → Calm (state self.old) (state self.new) }
        ensures value { IsTrue told → IfOk result (λ count. IsReadOf
            ((state self.old).seen.bytes (number file.now)) start
            (take count buffer.new) (length buffer.new)) }
        ensures cause { IsTrue told → IfErr result (HasFault (state self.old) (state self.new)) };

    /// Appends bytes to an open file, which is the report or the next checkpoint.
    fn append(&mut self, name: StateFile, file: &mut Self::File, bytes: &[u8]) -> Result<(), Reason>
        requires { IsTrue told → ((state self.old).seen.names.report ≡ Some (number file.old))
            ⊎ ((state self.old).seen.names.beside ≡ Some (number file.old)) }
        ensures same { IsTrue told → number file.new ≡ number file.old }
        ensures writes { IsTrue told → Writes (number file.old)
            (length ((state self.old).seen.bytes (number file.old)))
            (length ((state self.old).seen.bytes (number file.old) ++ bytes.now))
            (state self.old) (state self.new) }
        ensures appended { IsTrue told → OnOk result
            ((state self.new).seen.bytes (number file.old)
            ≡ (state self.old).seen.bytes (number file.old) ++ bytes.now) }
        ensures cause { IsTrue told → IfErr result (HasFault (state self.old) (state self.new)) };

    /// Cuts the open report to a length that it has at least.
    fn cut(&mut self, report: &Self::File, most: u64) -> Result<(), Reason>
        requires report { IsTrue told
            → (state self.old).seen.names.report ≡ Some (number report.now) }
        requires long { IsTrue told
            → most ≤ length ((state self.old).seen.bytes (number report.now)) }
        ensures writes { IsTrue told → Writes (number report.now) most 0
            (state self.old) (state self.new) }
        ensures cut { IsTrue told → OnOk result
            ((state self.new).seen.bytes (number report.now)
            ≡ take most ((state self.old).seen.bytes (number report.now))) }
        ensures cause { IsTrue told → IfErr result (HasFault (state self.old) (state self.new)) };

    /// Brings the bytes of an open file to the disk.
    fn sync(&mut self, name: StateFile, file: &Self::File) -> Result<(), Reason>
        ensures calm { IsTrue told → Calm (state self.old) (state self.new) }
        ensures synced { IsTrue told → OnOk result
            (IsTrue ((state self.new).is_synced (number file.now))) }
        ensures cause { IsTrue told → IfErr result (HasFault (state self.old) (state self.new)) };

    /// Makes the folder of the closed reports.
    fn create_reports(&mut self) -> Result<(), Reason>
        ensures calm { IsTrue told → Calm (state self.old) (state self.new) }
        ensures cause { IsTrue told → IfErr result (HasFault (state self.old) (state self.new)) };

    /// Removes the next checkpoint. It need not be there.
    fn remove_new(&mut self) -> Result<(), Reason>
        ensures drops { IsTrue told → Drops (state self.old) (state self.new) }
        ensures cause { IsTrue told → IfErr result (HasFault (state self.old) (state self.new)) };

    /// Gives the next checkpoint the name of the checkpoint, in place of the one before.
    fn rename_new(&mut self) -> Result<(), Reason>
        requires { IsTrue told → (file : ℕ) → (state self.old).seen.names.beside ≡ Some file
            → IsTrue ((state self.old).is_synced file) }
        ensures puts { IsTrue told → MatchResult result
            (λ _. PutsOver (state self.old) (state self.new))
            (λ _. Calm (state self.old) (state self.new)
            ⊎ PutsOver (state self.old) (state self.new)) }
        ensures cause { IsTrue told → IfErr result (HasFault (state self.old) (state self.new)) };

    /// Gives the next checkpoint the name of the one with which the report of a cycle is closed.
    fn rename_kept(&mut self, cycle: u64) -> Result<(), Reason>
        ensures drops { IsTrue told → Drops (state self.old) (state self.new) }
        ensures cause { IsTrue told → IfErr result (HasFault (state self.old) (state self.new)) };

    /// Gives the report the name of the closed one of a cycle, which is not there.
    fn rename_report(&mut self, cycle: u64, whole: bool) -> Result<(), Reason>
        requires new { IsTrue told
            → has_name cycle whole (state self.old).seen.names.closed ≡ false }
        requires synced { IsTrue told → (file : ℕ)
            → (state self.old).seen.names.report ≡ Some file
            → IsTrue ((state self.old).is_synced file) }
        ensures closes { IsTrue told → MatchResult result
            (λ _. ClosesOver cycle whole (state self.old) (state self.new))
            (λ _. Calm (state self.old) (state self.new)
            ⊎ ClosesOver cycle whole (state self.old) (state self.new)) }
        ensures cause { IsTrue told → IfErr result (HasFault (state self.old) (state self.new)) };

    /// Brings the names of a folder to the disk.
    fn sync_folder(&mut self, folder: StateFile) -> Result<(), Reason>
        ensures calm { IsTrue told → Calm (state self.old) (state self.new) }
        ensures others { IsTrue told → (other : StateFile)
            → IsTrue ((state self.old).has_names other)
            → IsTrue ((state self.new).has_names other) }
        ensures names { IsTrue told → OnOk result
            (IsTrue ((state self.new).has_names folder)) }
        ensures checkpoint { IsTrue told → folder ≡ StateFile.Folder
            → OnOk result ((c : Stored) → (state self.new).may_leave c
            → c.names.checkpoint ≡ (state self.old).seen.names.checkpoint) }
        ensures cause { IsTrue told → IfErr result (HasFault (state self.old) (state self.new)) };

    /// The laws of what is on a disk.
    ghost is_disk: { IsTrue told → (disk : Self) → IsDisk (state disk) };
}
