//! The cursor: how far a cycle is, and what its runs have spent.
ghost use Rattle.std.specs.Prelude.{◌≡◌, ◌↔◌, IsSome, IfSome, IsNone};
ghost use Rattle.ocfl_cursor.specs.{Cursor.{IsCursor, new_cursor}, State.{state_of, cursor_of}};
ghost use Rattle.ocfl_cursor.specs.Moves.{at_start, next_cycle, after_run};

use crate::state::{State, is_short};
use ocfl_report::Further;
use std::marker::Model;
use std::mem;

/// What one run leaves for the next: the cycle (1 to 2^64 - 1), how many runs it has had, what they
/// have spent, how many files they have started, what the audit checks further, and where the next
/// run begins. A run spends at most 2^63, and each file costs at least 1.
#[derive(Debug, Drop)]
pub struct Cursor {
    cycle: u64,
    runs: u64,
    spent: u128,
    files: u128,
    further: Further,
    state: State,
}

impl Model for Cursor {
    ghost use Rattle.ocfl_cursor.specs.{Cursor.{Cursor, IsCursor}, State.{cursor_of}};

    ghost Value = { Cursor };

    ghost view = { λ a. cursor_of a.cycle a.runs a.spent a.files a.further a.state };

    ghost invariant = { λ a. ∥ IsCursor
        (cursor_of a.cycle a.runs a.spent a.files a.further a.state) ∥₁ };
}

impl Cursor {
    /// The cursor of the first cycle, before its first run, of an audit that checks this further.
    pub fn new(further: Further) -> Cursor
        ensures { result ≡ new_cursor further }
    {
        Cursor {
            cycle: 1,
            runs: 0,
            spent: 0,
            files: 0,
            further,
            state: State::Start,
        }
    }

    /// The cursor with these parts, or `None` if none has them: the cycle is 0, more than 2^63
    /// is spent for each run, more files are started than is spent, or a place has more than 255
    /// names.
    pub fn from_parts(
        cycle: u64,
        runs: u64,
        spent: u128,
        files: u128,
        further: Further,
        state: State,
    ) -> Option<Cursor>
        ensures value { IfSome result
            (λ cursor. cursor ≡ cursor_of cycle runs spent files further state) }
        ensures keeps { IsSome result
            ↔ IsCursor (cursor_of cycle runs spent files further state) }
    {
        let paid = spent <= u128::from(runs) * (1 << 63) && files <= spent;
        if 1 <= cycle && paid && is_short(&state) {
            Some(Cursor {
                cycle,
                runs,
                spent,
                files,
                further,
                state,
            })
        } else {
            None
        }
    }

    /// The cursor at the beginning of the next cycle, of the same audit. `None` for the last cycle
    /// that there can be.
    pub fn next_cycle(&self) -> Option<Cursor>
        ensures value { IfSome result (λ next. next ≡ next_cycle self.now) }
        ensures last { IsNone result ↔ (self.now.cycle ≡ u64.MAX) }
    {
        let cycle = self.cycle.checked_add(1)?;
        Cursor::from_parts(cycle, 0, 0, 0, self.further, State::Start)
    }

    /// The cursor after one more run, which has spent `spent`, started `files` files, and ends in
    /// this state. `None` if no cursor is so: the runs are counted out, or one of the limits of
    /// [`Cursor::from_parts`] is passed.
    pub fn after_run(&self, spent: u64, files: u64, state: State) -> Option<Cursor>
        ensures value { IfSome result
            (λ next. next ≡ after_run self.now spent files (state_of state)) }
        ensures keeps { IsSome result
            ↔ IsCursor (after_run self.now spent files (state_of state)) }
    {
        let runs = self.runs.checked_add(1)?;
        let spent = self.spent + u128::from(spent);
        let files = self.files + u128::from(files);
        Cursor::from_parts(self.cycle, runs, spent, files, self.further, state)
    }

    /// The number of the cycle, from 1.
    pub fn cycle(&self) -> u64
        ensures { result ≡ self.now.cycle }
    {
        self.cycle
    }

    /// How many runs the cycle has had.
    pub fn runs(&self) -> u64
        ensures { result ≡ self.now.runs }
    {
        self.runs
    }

    /// What the runs of the cycle have spent.
    pub fn spent(&self) -> u128
        ensures { result ≡ self.now.spent }
    {
        self.spent
    }

    /// How many files the runs of the cycle have started.
    pub fn files(&self) -> u128
        ensures { result ≡ self.now.files }
    {
        self.files
    }

    /// What the audit checks further.
    pub fn further(&self) -> Further
        ensures { result ≡ self.now.further }
    {
        self.further
    }

    /// Where the next run begins.
    pub fn state(&self) -> &State
        ensures value { state_of result.now ≡ self.now.state }
        ensures keeps { IsCursor self.now }
    {
        &self.state
    }

    /// Takes out where the next run begins, and leaves the cursor at the first item.
    pub fn take_state(&mut self) -> State
        ensures state { state_of result ≡ self.old.state }
        ensures left { self.new ≡ at_start self.old }
        ensures keeps { IsCursor self.old }
    {
        mem::replace(&mut self.state, State::Start)
    }

    /// Where the next run begins, taken out of the cursor.
    pub fn into_state(self) -> State
        ensures { state_of result ≡ self.state }
    {
        self.state
    }
}
