//! What a night may do, by what is asked for.
ghost use Rattle.std.specs.Prelude.{◌≡◌};
ghost use Rattle.ocfl_plan.specs.Plan.{end_of, plan_of, slice_of};

use crate::budgeted::is_spent_by;
use ocfl_arguments::{NightAsked, NightBounds, Until};
use ocfl_cursor::Budget;
use ocfl_terms::Plan;

/// How much a run spends, if that is not said: 1 GiB.
const SLICE: u64 = 1 << 30;

/// How many files a run starts at most.
const SLICE_FILES: u64 = 20_000;

/// An hour, in seconds.
const HOUR: u64 = 3600;

/// How much each run spends.
fn slice_of(bounds: &NightBounds) -> Budget
    ensures { result ≡ slice_of bounds.now.slice bounds.now.budget }
{
    match (bounds.slice, bounds.budget) {
        (Some(slice), _) => slice,
        (None, Some(budget)) if is_spent_by(budget, SLICE) => budget,
        (None, _) => Budget::new(SLICE).unwrap(),
    }
}

/// The time at and after which no run begins of a night that began then.
fn end_of(until: Until, began: u64, shown: Option<u64>) -> Option<u64>
    ensures { result ≡ end_of until began shown }
{
    match until {
        Until::Never => None,
        Until::Hours(hours) => Some(began.saturating_add(hours.saturating_mul(HOUR))),
        Until::TimeOfDay { hour: _, minute: _ } => Some(shown.unwrap_or(0)),
        Until::At(second) => Some(second),
    }
}

/// What a night may do that began then. `shown` is when the clock next shows the time of day that
/// is asked for, if one is. A night that `waits`, since no new cycle may begin yet, is over when it
/// begins. Times are in seconds since the Unix epoch.
pub fn plan_of(asked: &NightAsked, began: u64, shown: Option<u64>, waits: bool) -> Plan
    ensures { result ≡ plan_of asked.now began shown waits }
{
    let bounds = &asked.bounds;
    Plan {
        slice_budget: slice_of(bounds),
        slice_files: SLICE_FILES,
        end: if waits {
            Some(0)
        } else {
            end_of(bounds.until, began, shown)
        },
        files: bounds.files,
        create: asked.create,
        force_root: asked.force_root,
        stop_at_faults: asked.stop_at_faults,
    }
}
