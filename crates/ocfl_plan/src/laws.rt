//! What a clock with a budget keeps to.
ghost use Rattle.std.specs.Prelude.{◌≡◌, ◌++◌, ◌∷◌, ◌<◌, List, Some, false, ℕ};
ghost use Rattle.ocfl_terms.specs.Clock.{Asked, Event};
ghost use Rattle.ocfl_plan.specs.Budgeted.{budgeted, spent_in};

/// A clock with a budget answers that a night is not asked to stop, as it does before each run,
/// only where the runs that it heard of before have spent less than the budget.
pub fn no_run_begins_once_the_budget_is_spent()
    ensures { (budget : ℕ) (events before after : List Event)
        → budgeted (Some budget) 0 events ≡ before ++ Asked false ∷ after
        → spent_in 0 before < budget }
{}
