//! The interface of a state folder.
ghost use Rattle.std.specs.Prelude.{◌≡◌, ◌≢◌, ◌↔◌, ◌≤◌, ◌++◌, ◌*◌, Bool, false, IsTrue, IfOk, IfSome, OnOk, ℕ, List, Option, Err, length, take, ⊤};
ghost use Rattle.std.specs.Option.{option_map};
ghost use Rattle.ocfl_state.specs.Content.{Content, Bytes, empty, with_checkpoint, with_report, moved, is_closed};
ghost use Rattle.ocfl_state.specs.Crash.{Outcomes, Same, IsPut, MayPut, IsMoved, MayMove, MayTear, Only, Follows, Passes};
ghost use Rattle.ocfl_state.specs.Calls.{HasCause, HasCauseOr, ClosesRightly, IsReadOf, bytes_of, HasLong, IsLong, most_checkpoint};
ghost use Rattle.ocfl_state.specs.declared.folder.FolderTrouble.TheVariants.{Memory};

use std::alloc::AllocError;

/// How many bytes a checkpoint has at most: 1 MiB.
pub const MOST_CHECKPOINT: usize = 1_048_576;

/// Why a call of a state folder failed: the disk failed, it is full, the report of that cycle is
/// closed already, or memory was refused.
#[derive(Clone, Copy, Debug, PartialEq, Eq)]
pub enum FolderTrouble {
    Failed,
    Full,
    Taken,
    Memory,
}

impl From<AllocError> for FolderTrouble {
    ghost from_gives = { λ _ e. e ≡ Memory };

    fn from(_error: AllocError) -> FolderTrouble {
        FolderTrouble::Memory
    }
}

/// What the nights over one storage root keep on a disk: a checkpoint, the report of the open
/// cycle, and the closed reports of earlier cycles.
///
/// A crash may come at any moment, in a call or between two. After any trouble but `Taken` the
/// folder holds one of the contents that a crash in that call may leave: open it again.
pub trait StateFolder {
    /// Whether the folder is as the clauses say. Of one that is not told, they say nothing. One
    /// that states none of these is not told.
    ghost told: { Bool } = { false };

    /// What reads show.
    ghost seen: { Self → Content } = { λ _. empty };

    /// What a crash at this moment may leave.
    ghost may_leave: { Self → Outcomes } = { λ _ _. ⊤ };

    /// The moment, as a number that does not fall.
    ghost moment: { Self → ℕ } = { λ _. 0 };

    /// What a crash at some moment from that one on might have left, in a call or between two.
    ghost left_since: { Self → ℕ → Outcomes } = { λ _ _ _. ⊤ };

    /// How often the disk has failed.
    ghost faults: { Self → ℕ } = { λ _. 0 };

    /// The checkpoint's bytes, at most [`MOST_CHECKPOINT`]; `None` if there is no checkpoint.
    /// `Failed` if what is there is longer.
    fn checkpoint(&mut self) -> Result<Option<Vec<u8>>, FolderTrouble>
        ensures bound { IfOk result (λ found. IfSome found (λ bytes.
            length bytes.items ≤ most_checkpoint)) }
        ensures value { IsTrue told → IfOk result (λ found.
            option_map bytes_of found ≡ (seen self.old).checkpoint) }
        ensures seen { IsTrue told → seen self.new ≡ seen self.old }
        ensures crash { IsTrue told → Passes may_leave moment left_since Same self.old self.new }
        ensures cause { IsTrue told → HasCauseOr (HasLong (seen self.old).checkpoint)
            (faults self.old) (faults self.new) result };

    /// Puts a checkpoint in place of the one before, as a whole. After `Ok` it is on the disk.
    /// `Failed` if it is longer than [`MOST_CHECKPOINT`]; then nothing is changed.
    fn put_checkpoint(&mut self, bytes: &[u8]) -> Result<(), FolderTrouble>
        ensures fits { OnOk result (length bytes.now ≤ most_checkpoint) }
        ensures put { IsTrue told → OnOk result
            (seen self.new ≡ with_checkpoint bytes.now (seen self.old)) }
        ensures durable { IsTrue told → OnOk result
            (Follows (IsPut bytes.now) (may_leave self.old) (may_leave self.new)) }
        ensures crash { IsTrue told
            → Passes may_leave moment left_since (MayPut bytes.now) self.old self.new }
        ensures long { IsTrue told → IsLong bytes.now → seen self.new ≡ seen self.old }
        ensures long_crash { IsTrue told → IsLong bytes.now
            → Passes may_leave moment left_since Same self.old self.new }
        ensures cause { IsTrue told → HasCauseOr (IsLong bytes.now)
            (faults self.old) (faults self.new) result };

    /// The length of the report, in bytes; 0 if there is no report.
    fn length(&mut self) -> Result<u64, FolderTrouble>
        ensures value { IsTrue told → IfOk result (λ n. n ≡ length (seen self.old).report) }
        ensures seen { IsTrue told → seen self.new ≡ seen self.old }
        ensures crash { IsTrue told → Passes may_leave moment left_since Same self.old self.new }
        ensures cause { IsTrue told → HasCause (faults self.old) (faults self.new) result };

    /// Reads the report's bytes from an offset on into the front of the buffer, and gives how many.
    /// For a buffer that is not empty, 0 is the end of the report.
    fn read(&mut self, start: u64, buffer: &mut [u8]) -> Result<usize, FolderTrouble>
        ensures bound { IfOk result (λ count. count ≤ length buffer.new) }
        ensures value { IsTrue told → IfOk result (λ count.
            IsReadOf (seen self.old).report start (take count buffer.new) (length buffer.new)) }
        ensures seen { IsTrue told → seen self.new ≡ seen self.old }
        ensures crash { IsTrue told → Passes may_leave moment left_since Same self.old self.new }
        ensures cause { IsTrue told → HasCause (faults self.old) (faults self.new) result };

    /// Appends bytes to the report. Until the next `sync` a crash may leave any bytes in their
    /// place, or fewer.
    fn append(&mut self, bytes: &[u8]) -> Result<(), FolderTrouble>
        ensures appended { IsTrue told → OnOk result (seen self.new
            ≡ with_report ((seen self.old).report ++ bytes.now) (seen self.old)) }
        ensures crash { IsTrue told → Passes may_leave moment left_since
            (MayTear (length (seen self.old).report)
            (length ((seen self.old).report ++ bytes.now))) self.old self.new }
        ensures cause { IsTrue told → HasCause (faults self.old) (faults self.new) result };

    /// Cuts the report to a length, in bytes; a shorter report stays. Until the next `sync` a crash
    /// may leave any bytes after that, but no more than there were.
    fn cut(&mut self, most: u64) -> Result<(), FolderTrouble>
        ensures cut { IsTrue told → OnOk result (seen self.new
            ≡ with_report (take most (seen self.old).report) (seen self.old)) }
        ensures crash { IsTrue told
            → Passes may_leave moment left_since (MayTear most 0) self.old self.new }
        ensures cause { IsTrue told → HasCause (faults self.old) (faults self.new) result };

    /// Brings all that reads show to the disk: what was appended, cut, put and closed, also by a
    /// process that was killed. After `Ok` a crash leaves just that.
    fn sync(&mut self) -> Result<(), FolderTrouble>
        ensures durable { IsTrue told → OnOk result
            (Only (seen self.old) (may_leave self.new)) }
        ensures seen { IsTrue told → seen self.new ≡ seen self.old }
        ensures crash { IsTrue told → Passes may_leave moment left_since Same self.old self.new }
        ensures cause { IsTrue told → HasCause (faults self.old) (faults self.new) result };

    /// Whether the report of that cycle is closed, whole or not.
    fn has_closed(&mut self, cycle: u64) -> Result<bool, FolderTrouble>
        ensures value { IsTrue told → IfOk result (λ answer.
            answer ≡ is_closed (seen self.old).closed cycle) }
        ensures seen { IsTrue told → seen self.new ≡ seen self.old }
        ensures crash { IsTrue told → Passes may_leave moment left_since Same self.old self.new }
        ensures cause { IsTrue told → HasCause (faults self.old) (faults self.new) result };

    /// The report becomes the closed report of a cycle, as a whole, and the next one is empty.
    /// After `Ok` that is on the disk, as far as the report was.
    ///
    /// `Taken` if a report of that cycle is closed; then nothing is changed.
    fn close(&mut self, cycle: u64, whole: bool) -> Result<(), FolderTrouble>
        ensures closed { IsTrue told → OnOk result
            (seen self.new ≡ moved cycle whole (seen self.old)) }
        ensures durable { IsTrue told → OnOk result
            (Follows (IsMoved cycle whole) (may_leave self.old) (may_leave self.new)) }
        ensures crash { IsTrue told
            → Passes may_leave moment left_since (MayMove cycle whole) self.old self.new }
        ensures taken { IsTrue told → result ≡ Err FolderTrouble.Taken
            → seen self.new ≡ seen self.old }
        ensures cause { IsTrue told → ClosesRightly (seen self.old) cycle
            (faults self.old) (faults self.new) result };

    /// A crash may leave what reads show, as a killed process does.
    ghost stays: { IsTrue told → (folder : Self) → may_leave folder (seen folder) };

    /// This moment is one of those since an earlier one.
    ghost counts_now: { IsTrue told → (folder : Self) (t : ℕ) (c : Content) → t ≤ moment folder
        → may_leave folder c → left_since folder t c };

    /// Since this moment there is no other.
    ghost only_now: { IsTrue told → (folder : Self) (c : Content)
        → left_since folder (moment folder) c → may_leave folder c };
}
