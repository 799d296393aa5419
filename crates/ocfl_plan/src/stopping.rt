//! The clock of a night over the calls of the system that it makes.
ghost use Rattle.std.specs.Prelude.{◌≡◌, ◌++◌, ◌∷◌, [], Bool, IsTrue, List, false, map};
ghost use Rattle.ocfl_plan.specs.Stopping.{Answer, HasStop, Ran, Seconds, event_of};

use ocfl_terms::{Clock, Made};

/// The calls of the system that the clock of a night makes: one tells the time, and one looks for
/// the file that asks the night to stop.
pub trait StopCalls {
    /// Whether they tell what they answered. Calls that could not keep something of that do not
    /// tell from then on. Of calls that do not tell, the clauses say nothing.
    ghost told: { Self → Bool } = { λ _. false };

    /// What they answered, and which runs were made meanwhile, oldest first.
    ghost answers: { Self → List Answer } = { λ _. [] };

    /// The time, in seconds since the epoch. `None` if the clock cannot be read.
    fn seconds(&mut self) -> Option<u64>
        ensures told { IsTrue (told self.new) → IsTrue (told self.old) }
        ensures answer { IsTrue (told self.new)
            → answers self.new ≡ answers self.old ++ Seconds result ∷ [] };

    /// Whether something has the name of the file that asks the night to stop.
    fn has_stop(&mut self) -> bool
        ensures told { IsTrue (told self.new) → IsTrue (told self.old) }
        ensures answer { IsTrue (told self.new)
            → answers self.new ≡ answers self.old ++ HasStop result ∷ [] };

    /// A run was made. No call is made for that.
    fn hears(&mut self, made: &Made)
        ensures told { IsTrue (told self.new) → IsTrue (told self.old) }
        ensures answer { IsTrue (told self.new)
            → answers self.new ≡ answers self.old ++ Ran made.now ∷ [] };
}

/// A clock by calls of the system, which asks a night to stop while a file is there.
#[derive(Drop)]
pub struct StopFile<S: StopCalls + Drop> {
    calls: S,
}

impl<S: StopCalls + Drop> StopFile<S> {
    /// One over these calls.
    pub fn over(calls: S) -> StopFile<S>
        ensures { result.calls ≡ calls }
    {
        StopFile { calls }
    }

    /// The calls, with what they answered.
    pub fn into_calls(self) -> S
        ensures { result ≡ self.calls }
    {
        let StopFile { calls } = self;
        calls
    }
}

impl<S: StopCalls + Drop> Clock for StopFile<S> {
    ghost told = { λ c. S.told c.calls };

    ghost events = { λ c. map event_of (S.answers c.calls) };

    /// A clock that cannot be read is past every end.
    fn now(&mut self) -> u64 {
        self.calls.seconds().unwrap_or(u64::MAX)
    }

    fn is_stopped(&mut self) -> bool {
        self.calls.has_stop()
    }

    fn hears(&mut self, made: &Made) {
        self.calls.hears(made);
    }
}
