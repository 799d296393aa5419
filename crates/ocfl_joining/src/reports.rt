//! Closed reports of parts, and the joined one that is made of them.
ghost use Rattle.std.specs.Prelude.{◌≡◌, ◌⊎◌, ◌≤◌, ℕ, Bool, false, List, IsTrue, IfOk, OnOk, OnErr, ⊤};
ghost use Rattle.std.specs.Option.{option_map};
ghost use Rattle.ocfl_joining.specs.Crash.{MayPut, Outcomes, Passes, Same};
ghost use Rattle.ocfl_joining.specs.Reports.{Put, ReadsLine, SameReports, Seen, begun};
ghost use Rattle.ocfl_joining.specs.Reports.{nothing_seen, with_made, with_open, with_put};

use ocfl_state::ReportMark;
use std::alloc::AllocError;

/// With what a report was closed.
#[derive(Clone, Copy, Debug, PartialEq, Eq)]
pub enum KeptMark {
    /// This was not kept.
    NotKept,
    /// Its length, its lines and its digests.
    Kept(ReportMark),
    /// What was kept, or the report, is damaged.
    Damaged,
}

/// Why a call over reports was not done.
#[derive(Clone, Copy, Debug, PartialEq, Eq)]
pub enum ReportTrouble {
    /// It failed.
    Failed,
    /// Memory was refused.
    Memory,
}

impl From<AllocError> for ReportTrouble {
    fn from(_: AllocError) -> ReportTrouble {
        ReportTrouble::Memory
    }
}

/// The closed reports of all parts, in one cycle, and the joined report that is made of them.
///
/// A crash may come at any moment, in a call or between two. One that states none of these clauses
/// is not told.
pub trait PartReports {
    /// Whether the reports are as the clauses say. Of those that are not told they say nothing.
    ghost told: { Bool } = { false };

    /// Whether the clauses say what a crash leaves: those that make a joined report tell it.
    ghost lasts: { Bool } = { false };

    /// What calls show, and what they made.
    ghost seen: { Self → Seen } = { λ _. nothing_seen };

    /// The joined reports that a crash at this moment may leave.
    ghost may_leave: { Self → Outcomes } = { λ _ _. ⊤ };

    /// The moment, as a number that does not fall.
    ghost moment: { Self → ℕ } = { λ _. 0 };

    /// What a crash at some moment from that one on might have left, in a call or between two.
    ghost left_since: { Self → ℕ → Outcomes } = { λ _ _ _. ⊤ };

    /// Begins the joined report, which has nothing yet.
    fn begin(&mut self) -> Result<(), ReportTrouble>
        ensures begun { IsTrue told → OnOk result (seen self.new ≡ begun (seen self.old)) }
        ensures unput { IsTrue told → (seen self.new).put ≡ (seen self.old).put }
        ensures reports { IsTrue told → SameReports (seen self.old) (seen self.new) }
        ensures crash { IsTrue lasts → Passes may_leave moment left_since Same self.old self.new };

    /// Opens the report of the part with this number, from 1, and gives with what it was closed.
    fn open(&mut self, number: usize) -> Result<KeptMark, ReportTrouble>
        ensures opened { IsTrue told → OnOk result
            (seen self.new ≡ with_open number (seen self.old)) }
        ensures mark { IsTrue told → IfOk result (λ mark.
            mark ≡ (seen self.old).marks number) }
        ensures unput { IsTrue told → (seen self.new).put ≡ (seen self.old).put }
        ensures reports { IsTrue told → SameReports (seen self.old) (seen self.new) }
        ensures crash { IsTrue lasts → Passes may_leave moment left_since Same self.old self.new };

    /// Reads the next line of the open report with its line feed, or whatever is left, in place of
    /// what `text` had. Gives false at the end.
    fn read_line(&mut self, text: &mut Vec<u8>) -> Result<bool, ReportTrouble>
        ensures read { IsTrue told → IfOk result (λ more.
            ReadsLine more text.new.items (seen self.old) (seen self.new)) }
        ensures unput { IsTrue told → (seen self.new).put ≡ (seen self.old).put }
        ensures reports { IsTrue told → SameReports (seen self.old) (seen self.new) }
        ensures crash { IsTrue lasts → Passes may_leave moment left_since Same self.old self.new };

    /// Appends bytes to the joined report.
    fn give(&mut self, bytes: &[u8]) -> Result<(), ReportTrouble>
        ensures given { IsTrue told → OnOk result
            (seen self.new ≡ with_made bytes.now (seen self.old)) }
        ensures unput { IsTrue told → (seen self.new).put ≡ (seen self.old).put }
        ensures reports { IsTrue told → SameReports (seen self.old) (seen self.new) }
        ensures crash { IsTrue lasts → Passes may_leave moment left_since Same self.old self.new };

    /// The word on the joined report, whole or not, of which all bytes were given. `None` if
    /// nothing is said of it before it is put.
    fn find_word(&mut self, whole: bool) -> Result<Option<Vec<u8>>, ReportTrouble>
        ensures word { IsTrue told → IfOk result (λ word. option_map (λ w. w.items) word
            ≡ (seen self.old).word whole (seen self.old).made) }
        ensures seen { IsTrue told → OnOk result (seen self.new ≡ seen self.old) }
        ensures unput { IsTrue told → (seen self.new).put ≡ (seen self.old).put }
        ensures reports { IsTrue told → SameReports (seen self.old) (seen self.new) }
        ensures crash { IsTrue lasts → Passes may_leave moment left_since Same self.old self.new };

    /// Puts the joined report in its place, as one that is whole or not. After `Ok` it is on the
    /// disk. After an error it is there or not.
    fn put(&mut self, whole: bool) -> Result<(), ReportTrouble>
        ensures put { IsTrue told → OnOk result (seen self.new ≡ with_put whole (seen self.old)) }
        ensures may { IsTrue told → OnErr result (((seen self.new).put ≡ (seen self.old).put)
            ⊎ (seen self.new ≡ with_put whole (seen self.old))) }
        ensures durable { IsTrue told → OnOk result ((puts : List Put)
            → may_leave self.new puts → puts ≡ (seen self.new).put) }
        ensures reports { IsTrue told → SameReports (seen self.old) (seen self.new) }
        ensures crash { IsTrue lasts → Passes may_leave moment left_since
            (MayPut (record { whole = whole; bytes = (seen self.old).made })) self.old self.new };

    /// A crash may leave what calls show, as a killed process does.
    ghost stays: { IsTrue lasts → (reports : Self) → may_leave reports (seen reports).put };

    /// This moment is one of those since an earlier one.
    ghost counts_now: { IsTrue lasts → (reports : Self) (t : ℕ) (puts : List Put)
        → t ≤ moment reports → may_leave reports puts → left_since reports t puts };

    /// Since this moment there is no other.
    ghost only_now: { IsTrue lasts → (reports : Self) (puts : List Put)
        → left_since reports (moment reports) puts → may_leave reports puts };
}
