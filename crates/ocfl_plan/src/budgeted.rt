//! A clock that asks a night to stop once its budget is spent.
ghost use Rattle.std.specs.Prelude.{◌≡◌, ◌↔◌, ◌≤◌, IsTrue, []};
ghost use Rattle.ocfl_plan.specs.Budgeted.{budgeted, is_spent, spent_in};

use ocfl_arguments::NightAsked;
use ocfl_cursor::{Budget, FileLimit, Limits, Meter};
use ocfl_terms::{Clock, Made, counted};

/// The most that a budget allows.
const MOST_COST: u64 = 1 << 62;

/// Whether a budget is spent by so much.
pub(crate) fn is_spent_by(budget: Budget, cost: u64) -> bool
    ensures { IsTrue result ↔ (budget ≤ cost) }
{
    let Some(files) = FileLimit::new(2) else {
        return false;
    };
    let mut meter = Meter::new(Limits { budget, files });
    meter.charge(cost.min(MOST_COST));
    !meter.may_start()
}

/// Whether a budget is spent, if there is one.
fn is_spent(budget: Option<Budget>, spent: u64) -> bool
    ensures { result ≡ is_spent budget spent }
{
    match budget {
        Some(budget) => is_spent_by(budget, spent),
        None => false,
    }
}

/// A clock that asks a night to stop if the clock that it is made of does, and once the runs that
/// it heard of have spent the budget of the night.
#[derive(Drop)]
pub struct Budgeted<C: Clock + Drop> {
    clock: C,
    budget: Option<Budget>,
    /// What the runs cost that it heard of, at most 2^64 - 1.
    spent: u64,
    ghost spent_is: { IsTrue (C.told clock) → spent ≡ spent_in 0 (C.events clock) },
}

impl<C: Clock + Drop> Budgeted<C> {
    /// The clock of a night that is asked for, made of one to which nothing has happened.
    pub fn of(asked: &NightAsked, clock: C) -> Budgeted<C>
        requires { IsTrue (C.told clock) → C.events clock ≡ [] }
        ensures clock { result.clock ≡ clock }
        ensures budget { result.budget ≡ asked.now.bounds.budget }
        ensures spent { result.spent ≡ 0 }
    {
        Budgeted {
            clock,
            budget: asked.bounds.budget,
            spent: 0,
        }
    }

    /// What the runs cost that it heard of, at most 2^64 - 1.
    pub fn spent(&self) -> u64
        ensures { IsTrue (C.told self.now.clock)
            → result ≡ spent_in 0 (C.events self.now.clock) }
    {
        self.spent
    }
}

impl<C: Clock + Drop> Clock for Budgeted<C> {
    ghost told = { λ b. C.told b.clock };

    ghost events = { λ b. budgeted b.budget 0 (C.events b.clock) };

    fn now(&mut self) -> u64 {
        self.clock.now()
    }

    fn is_stopped(&mut self) -> bool {
        let stops = self.clock.is_stopped();
        stops || is_spent(self.budget, self.spent)
    }

    fn hears(&mut self, made: &Made) {
        self.clock.hears(made);
        self.spent = counted(self.spent, made.spent);
    }
}
