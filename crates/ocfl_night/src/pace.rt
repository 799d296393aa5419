//! How much the next run of a night may spend.
ghost use Rattle.std.specs.Prelude.{◌≡◌, ◌↔◌, ◌≤◌, ◌*◌, ◌/◌, IsTrue, max, min};
ghost use Rattle.ocfl_night.specs.Pace.{cost_in, paced, seconds_left};

use ocfl_cursor::{Budget, FileLimit, Limits, Meter};

/// How long a run takes at most, in seconds, by the rate of those before it.
const MOST_SECONDS: u64 = 60;

/// The most that a budget allows.
const MOST_COST: u64 = 1 << 62;

/// How long the next run may take, in seconds: a minute, or what is left until the end.
fn seconds_left(end: Option<u64>, now: u64) -> u64
    ensures { result ≡ seconds_left end now }
{
    match end {
        Some(end) => end.saturating_sub(now).min(MOST_SECONDS),
        None => MOST_SECONDS,
    }
}

/// What runs cost in so many seconds if runs before them cost `spent` in `elapsed` seconds. `None`
/// where no rate is known: nothing was spent, or less than a second has passed.
fn cost_in(seconds: u64, spent: u64, elapsed: u64) -> Option<u64>
    ensures { result ≡ cost_in seconds spent elapsed }
{
    if spent == 0 {
        return None;
    }
    spent.saturating_mul(seconds).checked_div(elapsed)
}

/// Whether a budget is spent by so much.
fn is_spent_by(budget: Budget, cost: u64) -> bool
    ensures { IsTrue result ↔ (budget ≤ cost) }
{
    let Some(files) = FileLimit::new(2) else {
        return false;
    };
    let mut meter = Meter::new(Limits { budget, files });
    meter.charge(cost.min(MOST_COST));
    !meter.may_start()
}

/// A budget, or so much, if that is less: at least 1.
fn at_most(budget: Budget, cost: u64) -> Budget
    ensures { result ≡ min budget (max cost 1) }
{
    if is_spent_by(budget, cost) {
        return budget;
    }
    Budget::new(cost.max(1)).unwrap_or(budget)
}

/// What the next run may spend: what a run may at most, and no more than runs spend in a minute, or
/// in what is left until the end, at the rate of those before. They spent `spent` since `began`.
///
/// Times are in seconds since the epoch. The product of the rate is cut at 2^64 - 1.
pub(crate) fn paced(most: Budget, spent: u64, began: u64, now: u64, end: Option<u64>) -> Budget
    ensures { result ≡ paced most spent began now end }
{
    match cost_in(seconds_left(end, now), spent, now.saturating_sub(began)) {
        Some(cost) => at_most(most, cost),
        None => most,
    }
}
