//! What a night may do, and what it did.
ghost use Rattle.std.specs.Prelude.{◌≡◌, ◌++◌, ◌∷◌, [], Bool, IsTrue, List};
ghost use Rattle.ocfl_terms.specs.Clock.{Asked, Event, Heard, Read};

use crate::made::Made;
use crate::refusal::Refusal;
use crate::stop::Stop;
use ocfl_cursor::Budget;
use ocfl_item::Fault;
use ocfl_tree::Place;

/// A clock, which also knows whether the night is asked to stop, and hears of its runs. It may
/// answer anything.
pub trait Clock {
    /// Whether it tells what happened to it. One that could not keep something of that does not
    /// tell from then on. Of a clock that does not tell, the clauses say nothing.
    ghost told: { Self → Bool };

    /// What it answered and heard so far, oldest first.
    ghost events: { Self → List Event };

    /// The time, in seconds since the epoch.
    fn now(&mut self) -> u64
        ensures told { IsTrue (told self.new) → IsTrue (told self.old) }
        ensures event { IsTrue (told self.new)
            → events self.new ≡ events self.old ++ Read result ∷ [] };

    /// Whether the night is asked to stop. It is asked before each run.
    fn is_stopped(&mut self) -> bool
        ensures told { IsTrue (told self.new) → IsTrue (told self.old) }
        ensures event { IsTrue (told self.new)
            → events self.new ≡ events self.old ++ Asked result ∷ [] };

    /// It hears what a run made, right after it.
    fn hears(&mut self, made: &Made)
        ensures told { IsTrue (told self.new) → IsTrue (told self.old) }
        ensures event { IsTrue (told self.new)
            → events self.new ≡ events self.old ++ Heard made.now ∷ [] };
}

/// What a night may do.
#[derive(Clone, Copy)]
pub struct Plan {
    /// How much each run may spend.
    pub slice_budget: Budget,
    /// How many files each run may start, at most 2^62; with 0 no run is made.
    pub slice_files: u64,
    /// The time at and after which no run begins, in seconds since the epoch.
    pub end: Option<u64>,
    /// After this number of files no further run begins.
    pub files: Option<u64>,
    /// Whether a folder with no checkpoint is begun in.
    pub create: bool,
    /// Whether a root with another declaration, or without more than half of its names, is taken
    /// for the one of before. The checkpoint then has what the root has now.
    pub force_root: bool,
    /// Whether the night ends at a place that cannot be read, and leaves no branch out.
    pub stop_at_faults: bool,
}

/// What ended a night.
#[derive(Drop)]
pub enum Halt {
    /// The cycle of this number has ended, and its report is closed.
    CycleEnded(u64),
    /// The end of the plan has come.
    TimeUp,
    /// As many files were started as the plan allows.
    Spent,
    /// The night was asked to stop.
    Asked,
    /// A run stopped, and no branch could be left out for it; what went out whole is kept. Or the
    /// root could not be looked at after a run, of which nothing is kept.
    Stopped(Fault),
    /// After a run the root is gone, or another one. Nothing of that run is kept.
    RootChanged,
    /// Nothing was run, and the folder is as it was.
    Refused(Refusal),
    /// Something else failed.
    Troubled(Stop),
}

/// What a night did.
#[derive(Drop)]
pub struct NightEnd {
    /// How many runs it began, at most 2^64 - 1.
    pub runs: u64,
    /// Whether bytes of the report were lost: it was shorter than the checkpoint says, or had
    /// another tail.
    pub lost: bool,
    /// The branches that were left out in it, at most 16.
    pub left: Vec<Place>,
    pub end: Halt,
}
