//! Where the nights over a folder stand, by its checkpoint.

ghost use Rattle.std.specs.Prelude.{◌≡◌, ◌-◌, ◌==◌, ◌^◌, length, min};
ghost use Rattle.ocfl_cursor.specs.State.{state_of};
ghost use Rattle.ocfl_kept.specs.Standing.{is_ended as is_ended_state, is_open as is_open_phase};

use ocfl_cursor::State;
use ocfl_state::{Checkpoint, Left, Phase};

/// Where the nights over a folder stand.
#[derive(Clone, Copy)]
pub struct Standing {
    /// The number of the cycle.
    pub cycle: u64,
    /// How many runs the cycle has had.
    pub runs: u64,
    /// What they have spent, at most 2^64 - 1.
    pub spent: u64,
    /// Whether the cycle has ended.
    pub has_ended: bool,
    /// Whether its report is closed too.
    pub is_closed: bool,
    /// Whether its report is closed as whole: nothing of it was lost, and no branch was left out.
    pub is_whole: bool,
    /// How many branches were left out of it.
    pub left: u64,
}

/// A number, or 2^64 - 1 if it is more.
pub fn at_most(number: u128) -> u64
    ensures { result ≡ min number (2 ^ 64 - 1) }
{
    if number > u128::from(u64::MAX) {
        return u64::MAX;
    }
    number as u64
}

/// Whether a cursor is at the end of its cycle.
fn is_ended(state: &State) -> bool
    ensures { result ≡ is_ended_state (state_of state.now) }
{
    match state {
        State::Start => false,
        State::After(_) => false,
        State::Ended => true,
    }
}

/// Whether runs append to the report.
fn is_open(phase: Phase) -> bool
    ensures { result ≡ is_open_phase phase }
{
    match phase {
        Phase::Open => true,
        Phase::Closing => false,
    }
}

/// Whether no branch was left out.
fn is_none(left: &[Left]) -> bool
    ensures { result ≡ (length left.now == 0) }
{
    left.is_empty()
}

impl Standing {
    ghost use Rattle.ocfl_kept.specs.Standing.{first_standing, last_closed, leaves_more, next_cycle, noted_left, runs_before, spent_until, standing_of};

    /// Before the first night.
    pub fn first() -> Standing
        ensures { result ≡ first_standing }
    {
        Standing {
            cycle: 1,
            runs: 0,
            spent: 0,
            has_ended: false,
            is_closed: false,
            is_whole: true,
            left: 0,
        }
    }

    /// By a checkpoint.
    pub fn of(checkpoint: &Checkpoint) -> Standing
        ensures { result ≡ standing_of checkpoint.now }
    {
        let cursor = &checkpoint.cursor;
        let has_ended = is_ended(cursor.state());
        Standing {
            cycle: cursor.cycle(),
            runs: cursor.runs(),
            spent: at_most(cursor.spent()),
            has_ended,
            is_closed: has_ended && is_open(checkpoint.phase),
            is_whole: checkpoint.whole && is_none(&checkpoint.left),
            left: checkpoint.left.len() as u64,
        }
    }

    /// The same after what was noted before: the checkpoint that is put once a report is closed
    /// names no branch of that cycle any more.
    pub fn noted_after(self, before: Standing) -> Standing
        ensures { result ≡ record self { left = noted_left before self } }
    {
        let left = if self.is_closed && self.cycle == before.cycle {
            before.left
        } else {
            self.left
        };
        Standing { left, ..self }
    }

    /// Whether a branch is left out that was not when the nights stood there.
    pub fn leaves_more_than(&self, before: Standing) -> bool
        ensures { result ≡ leaves_more before self.now }
    {
        let known = if self.cycle == before.cycle {
            before.left
        } else {
            0
        };
        self.left > known
    }

    /// The cycle whose report was closed last. 0 if none was.
    pub fn last_closed(&self) -> u64
        ensures { result ≡ last_closed self.now }
    {
        if self.is_closed {
            self.cycle
        } else {
            self.cycle.saturating_sub(1)
        }
    }

    /// The number of the cycle that a night goes on with: the next one once the report is closed.
    pub fn next_cycle(&self) -> u64
        ensures { result ≡ next_cycle self.now }
    {
        self.last_closed().saturating_add(1)
    }

    /// How many runs of the cycle `now` there were when the nights stood here.
    pub fn runs_before(&self, now: Standing) -> u64
        ensures { result ≡ runs_before self.now now }
    {
        if now.cycle == self.cycle {
            self.runs
        } else {
            0
        }
    }

    /// What was spent since the nights stood here. A night reads one cycle alone.
    pub fn spent_until(&self, now: Standing) -> u64
        ensures { result ≡ spent_until self.now now }
    {
        if now.cycle == self.cycle {
            now.spent.saturating_sub(self.spent)
        } else {
            now.spent
        }
    }
}
