//! Saying what a closed cycle found.
ghost use Rattle.std.specs.Prelude.{◌≡◌, ◌⊎◌, false, IsTrue, IfOk, IsOkUnless, OnErr, OnOk, Option};
ghost use Rattle.ocfl_accounts.specs.{Causes.{HasCause, HasReason}, Crash.{MayPut, Passes}};
ghost use Rattle.ocfl_accounts.specs.{Cycle.{there}, Kept.{account_with, has_account}, Rounds.{MayAccounts}};
ghost use Rattle.ocfl_say.specs.Said.{Grows, HasFailed, HasSaid};
ghost use Rattle.ocfl_accounts.specs.Telling.{kept_then};
ghost use Rattle.ocfl_accounts.specs.Telling.{AreSaid, IsLeftAlone, IsOutcome};
ghost use Rattle.ocfl_accounts.specs.Telling.{IsSaidRightly, MayAccount};
ghost use Rattle.ocfl_accounts.specs.Telling.{outcome_of, stand_of};
ghost use Rattle.ocfl_accounts.specs.declared.closings.ClosingStop.{ClosingStop as ModelStop};

use crate::closed::{ClosedCycle, Look};
use crate::closings::{ClosingStop, Closings};
use crate::pair::{Pair, find_pair, status_of};
use ocfl_say::Say;
use std::alloc::Global;

/// Says what a closed cycle found, unless its account or no report of it is there, and then puts
/// its account. Gives the status: 0 if there is nothing to say.
///
/// The account is not put while the cycle can still be compared: then the next call says more.
pub fn say_cycle<C: Closings, S: Say>(
    alloc: Global,
    closings: &mut C,
    cycle: u64,
    out: &mut S,
) -> Result<u8, ClosingStop>
    ensures said { IsTrue C.told → IfOk result (λ status.
        IsLeftAlone (C.seen closings.old) cycle (C.seen closings.new)
        (S.said out.old) (S.said out.new) status
        ⊎ IsSaidRightly (C.seen closings.old) cycle (C.says (C.with closings.old))
        (C.seen closings.new) (S.said out.old) (S.said out.new) status) }
    ensures may { IsTrue C.told → MayAccount (C.seen closings.old) cycle
        (C.says (C.with closings.old)) (S.said out.old) (S.said out.new)
        (C.seen closings.old) (C.seen closings.new) }
    ensures with { IsTrue C.told → C.with closings.new ≡ C.with closings.old }
    ensures crash { IsTrue C.told → Passes C.may_leave C.moment C.left_since
        (MayAccount (C.seen closings.old) cycle (C.says (C.with closings.old))
        (S.said out.old) (S.said out.new)) closings.old closings.new }
    ensures grew { Grows (S.said out.old) (S.said out.new) }
    ensures cause { IsTrue C.told → HasReason (C.faults closings.old) (C.faults closings.new)
        (S.said out.old) (S.said out.new) result }
{
    if closings.has_account(cycle)? {
        return Ok(0);
    }
    match closings.look(cycle)? {
        Look::There(now) => say_closed(alloc, closings, now, out),
        Look::Away { .. } => Ok(0),
    }
}

/// Says what a closed cycle found, and then puts its account.
fn say_closed<C: Closings, S: Say>(
    alloc: Global,
    closings: &mut C,
    now: ClosedCycle,
    out: &mut S,
) -> Result<u8, ClosingStop>
    ensures said { IsTrue C.told → (C.seen closings.old).sights now.cycle ≡ there now
        → has_account (C.seen closings.old) now.cycle ≡ false → IfOk result (λ status.
        IsSaidRightly (C.seen closings.old) now.cycle (C.says (C.with closings.old))
        (C.seen closings.new) (S.said out.old) (S.said out.new) status) }
    ensures may { IsTrue C.told → (C.seen closings.old).sights now.cycle ≡ there now
        → has_account (C.seen closings.old) now.cycle ≡ false
        → MayAccount (C.seen closings.old) now.cycle (C.says (C.with closings.old))
        (S.said out.old) (S.said out.new) (C.seen closings.old) (C.seen closings.new) }
    ensures with { IsTrue C.told → C.with closings.new ≡ C.with closings.old }
    ensures crash { IsTrue C.told → (C.seen closings.old).sights now.cycle ≡ there now
        → has_account (C.seen closings.old) now.cycle ≡ false
        → Passes C.may_leave C.moment C.left_since
        (MayAccount (C.seen closings.old) now.cycle (C.says (C.with closings.old))
        (S.said out.old) (S.said out.new)) closings.old closings.new }
    ensures grew { Grows (S.said out.old) (S.said out.new) }
    ensures cause { IsTrue C.told → HasReason (C.faults closings.old) (C.faults closings.new)
        (S.said out.old) (S.said out.new) result }
{
    let pair = find_pair(alloc, closings, now)?;
    let found = closings.find(&pair)?;
    speak(out, found.text.as_slice())?;
    keep_found(closings, &pair)?;
    Ok(status_of(&pair, found.is_grave))
}

/// Puts the account that was found last, unless the cycle can still be compared.
fn keep_found<C: Closings>(closings: &mut C, pair: &Pair) -> Result<(), ClosingStop>
    ensures kept { IsTrue C.told → OnOk result (C.seen closings.new
        ≡ kept_then pair.now (account_with pair.now.closed.cycle (C.found closings.old))
        (C.seen closings.old)) }
    ensures may { IsTrue C.told → MayPut (account_with pair.now.closed.cycle (C.found closings.old))
        (C.seen closings.old) (C.seen closings.new) }
    ensures with { IsTrue C.told → C.with closings.new ≡ C.with closings.old }
    ensures crash { IsTrue C.told → Passes C.may_leave C.moment C.left_since
        (MayPut (account_with pair.now.closed.cycle (C.found closings.old)))
        closings.old closings.new }
    ensures cause { IsTrue C.told
        → HasCause (C.faults closings.old) (C.faults closings.new) result }
{
    if pair.waits() {
        closings.drop_found(pair)
    } else {
        closings.put(pair)
    }
}

/// Says what the closed cycles found from the first number on and below the second, in order, as
/// [`say_cycle`] does. Gives the greatest status; that of a cycle that could not be said is 3.
pub fn say_cycles<C: Closings, S: Say>(
    alloc: Global,
    closings: &mut C,
    first: u64,
    end: u64,
    out: &mut S,
) -> u8
    ensures said { IsTrue C.told → AreSaid
        (stand_of (C.seen closings.old) (C.faults closings.old) (S.said out.old))
        first end (C.says (C.with closings.old))
        (stand_of (C.seen closings.new) (C.faults closings.new) (S.said out.new)) result }
    ensures with { IsTrue C.told → C.with closings.new ≡ C.with closings.old }
    ensures crash { IsTrue C.told → Passes C.may_leave C.moment C.left_since
        (MayAccounts (C.seen closings.old) (C.says (C.with closings.old)) first end
        (S.said out.old) (S.said out.new)) closings.old closings.new }
    ensures grew { Grows (S.said out.old) (S.said out.new) }
{
    let mut status = 0;
    for cycle in first..end {
        status = status.max(say_or_fail(alloc, closings, cycle, out));
    }
    status
}

/// Says what a closed cycle found, and notes why if that fails.
fn say_or_fail<C: Closings, S: Say>(alloc: Global, closings: &mut C, cycle: u64, out: &mut S) -> u8
    ensures said { IsTrue C.told → (stop : Option ModelStop) × IsOutcome
        (stand_of (C.seen closings.old) (C.faults closings.old) (S.said out.old))
        cycle (C.says (C.with closings.old)) (outcome_of
        (stand_of (C.seen closings.new) (C.faults closings.new) (S.said out.new)) result stop) }
    ensures may { IsTrue C.told → MayAccount (C.seen closings.old) cycle
        (C.says (C.with closings.old)) (S.said out.old) (S.said out.new)
        (C.seen closings.old) (C.seen closings.new) }
    ensures with { IsTrue C.told → C.with closings.new ≡ C.with closings.old }
    ensures crash { IsTrue C.told → Passes C.may_leave C.moment C.left_since
        (MayAccount (C.seen closings.old) cycle (C.says (C.with closings.old))
        (S.said out.old) (S.said out.new)) closings.old closings.new }
    ensures grew { Grows (S.said out.old) (S.said out.new) }
{
    match say_cycle(alloc, closings, cycle, out) {
        Ok(status) => status,
        Err(stop) => {
            closings.fail(stop);
            3
        }
    }
}

/// Says a text, all of it, and commits it.
fn speak<S: Say>(out: &mut S, text: &[u8]) -> Result<(), ClosingStop>
    ensures said { OnOk result (HasSaid text.now (S.said out.old) (S.said out.new)) }
    ensures grew { Grows (S.said out.old) (S.said out.new) }
    ensures failed { OnErr result (HasFailed (S.said out.old).failures (S.said out.new).failures) }
    ensures output { IsOkUnless result ClosingStop.Output }
{
    match out.say(text) {
        Ok(()) => Ok(()),
        Err(_) => Err(ClosingStop::Output),
    }
}
