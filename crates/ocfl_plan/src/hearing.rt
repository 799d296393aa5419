//! A clock whose answers and runs something else hears of.
ghost use Rattle.std.specs.Prelude.{◌≡◌, ◌++◌, ◌∷◌, [], Bool, IsTrue, List, false};
ghost use Rattle.ocfl_terms.specs.Clock.{Asked, Heard, Read};
ghost use Rattle.ocfl_plan.specs.Hearing.{Noted, Ran, Shown, noted_of};

use crate::status::{is_kept, run_status};
use ocfl_terms::{Clock, Made};

/// What hears of the runs of a night.
pub trait Listener {
    /// Whether it is told what it hears. Of one that does not tell, the clauses say nothing.
    ghost told: { Bool } = { false };

    /// What it has heard, oldest first.
    ghost noted: { Self → List Noted } = { λ _. [] };

    /// Hears the time that the clock shows, in seconds since the Unix epoch: before a run, when it
    /// begins.
    fn note_time(&mut self, now: u64)
        ensures { IsTrue told → noted self.new ≡ noted self.old ++ Shown now ∷ [] };

    /// Hears what a run made of which something is kept, and its status, right after it.
    fn note_run(&mut self, made: &Made, status: u8)
        ensures { IsTrue told → noted self.new ≡ noted self.old ++ Ran made.now status ∷ [] };
}

/// A clock, and what hears of the times that it shows and of the runs that it hears of.
#[derive(Drop)]
pub struct Hearing<C: Clock + Drop, L: Listener + Drop> {
    pub clock: C,
    pub listener: L,
}

/// Does what the clock does, with the same contract. The listener hears each time, and each run of
/// which something is kept.
impl<C: Clock + Drop, L: Listener + Drop> Clock for Hearing<C, L> {
    ghost told = { λ h. C.told h.clock };

    ghost events = { λ h. C.events h.clock };

    fn now(&mut self) -> u64
        ensures told { IsTrue (C.told self.new.clock) → IsTrue (C.told self.old.clock) }
        ensures clock { IsTrue (C.told self.new.clock)
            → C.events self.new.clock ≡ C.events self.old.clock ++ Read result ∷ [] }
        ensures noted { IsTrue L.told
            → L.noted self.new.listener ≡ L.noted self.old.listener ++ Shown result ∷ [] }
    {
        let now = self.clock.now();
        self.listener.note_time(now);
        now
    }

    fn is_stopped(&mut self) -> bool
        ensures told { IsTrue (C.told self.new.clock) → IsTrue (C.told self.old.clock) }
        ensures clock { IsTrue (C.told self.new.clock)
            → C.events self.new.clock ≡ C.events self.old.clock ++ Asked result ∷ [] }
        ensures noted { self.new.listener ≡ self.old.listener }
    {
        self.clock.is_stopped()
    }

    fn hears(&mut self, made: &Made)
        ensures told { IsTrue (C.told self.new.clock) → IsTrue (C.told self.old.clock) }
        ensures clock { IsTrue (C.told self.new.clock)
            → C.events self.new.clock ≡ C.events self.old.clock ++ Heard made.now ∷ [] }
        ensures noted { IsTrue L.told
            → L.noted self.new.listener ≡ L.noted self.old.listener ++ noted_of made.now }
    {
        self.clock.hears(made);
        if is_kept(made) {
            self.listener.note_run(made, run_status(made));
        }
    }
}
