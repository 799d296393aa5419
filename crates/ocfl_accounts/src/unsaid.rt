//! Which closed cycles were not said.
ghost use Rattle.std.specs.Prelude.{◌≡◌, ◌≤◌, IsTrue, IfOk, OnOk};
ghost use Rattle.ocfl_accounts.specs.{Causes.{HasCause}, Crash.{Passes, Same}, Sights.{sight_of}};
ghost use Rattle.ocfl_accounts.specs.Cycle.{is_there as is_there_by};
ghost use Rattle.ocfl_accounts.specs.Unsaid.{IsFound, NoneUnsaid, is_unsaid as is_unsaid_by, oldest};

use crate::closed::Look;
use crate::closings::{ClosingStop, Closings};

/// How many cycles back at most one is looked for that was not said.
const MOST_UNSAID: u64 = 1_000;

/// Takes a number of a cycle down to the first of the 1,000 before it whose report is there and
/// that was not said, or leaves it as it is if all were said. If a call fails, it is the cycle that
/// was looked at then, and none before it is unsaid.
#[tactic(auto, using(crate::proofs::Causes::cause_on, crate::proofs::Passing::nothing_passes, crate::proofs::Passing::two_same, crate::proofs::UnsaidCycles::none_unsaid, crate::proofs::UnsaidCycles::one_more, crate::proofs::UnsaidCycles::all_said))]
pub fn find_unsaid<C: Closings>(closings: &mut C, first: &mut u64) -> Result<(), ClosingStop>
    ensures below { IsTrue C.told
        → NoneUnsaid (C.seen closings.old) (oldest first.old) first.new }
    ensures within { first.new ≤ first.old }
    ensures found { IsTrue C.told
        → OnOk result (IsFound (C.seen closings.old) first.new first.old) }
    ensures seen { IsTrue C.told → C.seen closings.new ≡ C.seen closings.old }
    ensures with { IsTrue C.told → C.with closings.new ≡ C.with closings.old }
    ensures crash { IsTrue C.told
        → Passes C.may_leave C.moment C.left_since Same closings.old closings.new }
    ensures cause { IsTrue C.told
        → HasCause (C.faults closings.old) (C.faults closings.new) result }
{
    let end = *first;
    let from = oldest_of(end);
    for cycle in from..end {
        *first = cycle;
        if is_unsaid(closings, cycle)? {
            return Ok(());
        }
    }
    *first = end;
    Ok(())
}

/// The first cycle that is looked at.
fn oldest_of(cycle: u64) -> u64
    ensures { result ≡ oldest cycle }
{
    cycle.saturating_sub(MOST_UNSAID).max(1)
}

/// Whether the report of a cycle is there, and its account is not.
#[tactic(auto, using(crate::proofs::Causes::cause_on, crate::proofs::Passing::two_same))]
fn is_unsaid<C: Closings>(closings: &mut C, cycle: u64) -> Result<bool, ClosingStop>
    ensures value { IsTrue C.told
        → IfOk result (λ is. is ≡ is_unsaid_by (C.seen closings.old) cycle) }
    ensures seen { IsTrue C.told → C.seen closings.new ≡ C.seen closings.old }
    ensures with { IsTrue C.told → C.with closings.new ≡ C.with closings.old }
    ensures crash { IsTrue C.told
        → Passes C.may_leave C.moment C.left_since Same closings.old closings.new }
    ensures cause { IsTrue C.told
        → HasCause (C.faults closings.old) (C.faults closings.new) result }
{
    if closings.has_account(cycle)? {
        return Ok(false);
    }
    let look = closings.look(cycle)?;
    Ok(is_there(&look))
}

fn is_there(look: &Look) -> bool
    ensures { result ≡ is_there_by (sight_of look.now) }
{
    matches!(look, Look::There(_))
}
