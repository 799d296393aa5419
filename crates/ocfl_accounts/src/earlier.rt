//! What a closed cycle can be compared with.
ghost use Rattle.std.specs.Prelude.{◌≡◌, IsTrue, IfOk, if◌then◌else◌, Some, None};
ghost use Rattle.ocfl_accounts.specs.{Causes.{HasCause}, Crash.{Passes, Same}};
ghost use Rattle.ocfl_accounts.specs.{Cycle.{IsEarlier, is_missing as is_missing_by, lowest}, Sights.{sight_of}, Search.{fit_of, missing_with}};

use crate::closed::{ClosedCycle, Look, fits};
use crate::closings::{ClosingStop, Closings};

/// How many cycles back a report is looked for at most, and one more.
const MOST_BACK: u64 = 1_000;

/// What a cycle is compared with.
#[derive(Debug, Drop)]
pub struct Earlier {
    /// The last cycle before it whose report is there and lost nothing.
    pub found: Option<ClosedCycle>,
    /// The last cycle between that one and this one whose report is not there, and would be found.
    pub missing: Option<u64>,
}

/// Looks for the last cycle before this one, of 999, whose report is there and lost nothing; with
/// `is_whole` for the last one that left nothing out either.
#[tactic(auto, using(crate::proofs::Causes::cause_on, crate::proofs::Passing::nothing_passes, crate::proofs::Passing::two_same, crate::proofs::Search::looked_none))]
pub fn find_earlier<C: Closings>(
    closings: &mut C,
    cycle: u64,
    is_whole: bool,
) -> Result<Earlier, ClosingStop>
    ensures value { IsTrue C.told → IfOk result (λ it.
        IsEarlier (C.seen closings.old).sights is_whole cycle it.found it.missing) }
    ensures seen { IsTrue C.told → C.seen closings.new ≡ C.seen closings.old }
    ensures with { IsTrue C.told → C.with closings.new ≡ C.with closings.old }
    ensures crash { IsTrue C.told
        → Passes C.may_leave C.moment C.left_since Same closings.old closings.new }
    ensures cause { IsTrue C.told
        → HasCause (C.faults closings.old) (C.faults closings.new) result }
{
    let low = lowest_of(cycle);
    let mut missing = None;
    let mut next = cycle;
    while next > low {
        next -= 1;
        let look = closings.look(next)?;
        missing = with_missing(is_whole, missing, next, &look);
        if let Some(found) = take_fit(look, is_whole) {
            return Ok(Earlier {
                found: Some(found),
                missing,
            });
        }
    }
    Ok(Earlier {
        found: None,
        missing,
    })
}

/// The first cycle in which a report is looked for.
fn lowest_of(cycle: u64) -> u64
    ensures { result ≡ lowest cycle }
{
    cycle.saturating_sub(MOST_BACK - 1).max(1)
}

/// The last cycle whose report is missing, if this one comes before those that were looked at.
fn with_missing(is_whole: bool, missing: Option<u64>, cycle: u64, look: &Look) -> Option<u64>
    ensures { result ≡ missing_with is_whole missing cycle (sight_of look.now) }
{
    if missing.is_none() && is_missing(is_whole, look) {
        Some(cycle)
    } else {
        missing
    }
}

/// Whether a report is not there, and could be compared with if it were.
fn is_missing(is_whole: bool, look: &Look) -> bool
    ensures { result ≡ is_missing_by is_whole (sight_of look.now) }
{
    match look {
        Look::There(_) => false,
        Look::Away { whole, lost } => fits(is_whole, *whole, *lost),
    }
}

/// The cycle, if it is fit to be compared with.
fn take_fit(look: Look, is_whole: bool) -> Option<ClosedCycle>
    ensures { result ≡ fit_of is_whole (sight_of look) }
{
    match look {
        Look::There(found) => {
            if found.is_fit(is_whole) {
                Some(found)
            } else {
                None
            }
        }
        Look::Away { .. } => None,
    }
}
