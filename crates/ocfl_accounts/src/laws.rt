//! The laws of closings that are said over several calls, of which each may crash.
ghost use Rattle.std.specs.Prelude.{◌≡◌, ◌⊎◌, ◌<◌, ◌≤◌, ℕ, IsTrue, List};
ghost use Rattle.ocfl_accounts.specs.Kept.{Account, HasAccount, Kept};
ghost use Rattle.ocfl_accounts.specs.Calls.{AreCalls, Call, IsDoneIn, WasSaid, left_by};
ghost use Rattle.ocfl_accounts.specs.{Telling.{AreSaid, Stand}, Unsaid.{NoneUnsaid, oldest}};

use crate::closings::Closings;

/// Whatever calls there were, each ended or crashed at any moment: each account that is there then
/// was there at first, or its text was said in one of them, on an output that committed it, before
/// the account was put.
#[tactic(auto, using(crate::proofs::Chains::each_said_from))]
pub fn each_account_was_said<C: Closings>()
    ensures { IsTrue C.told → (first : Kept) (calls : List (Call C))
        → AreCalls C.seen C.may_leave C.moment C.left_since (λ c. C.says (C.with c))
        (λ k. k ≡ first) calls
        → (k : Kept) → left_by C.moment C.left_since (λ d. d ≡ first) calls k
        → (a : Account) → HasAccount k a
        → HasAccount first a ⊎ WasSaid C.seen (λ c. C.says (C.with c)) a calls }
{}

/// After a call whose status is not 3 each of its cycles was said in it, or had its account before,
/// or no report.
pub fn a_status_below_3_says_that_all_is_said<C: Closings>()
    ensures { (with : C.With) (before after : Stand) (first end status : ℕ)
        → AreSaid before first end (C.says with) after status → status < 3
        → (cycle : ℕ) → first ≤ cycle → cycle < end
        → IsDoneIn before (C.says with) after cycle }
{}

/// After a search for the first of 1,000 cycles that was not said, also one that failed, and a call
/// that says the cycles from that one on: each of them was said in the call, or had its account
/// before, or no report; or the status is 3 at least, and the next search finds it, or one below
/// it.
pub fn each_cycle_is_said_or_found_again<C: Closings>()
    ensures { (with : C.With) (before after : Stand) (first end status cycle : ℕ)
        → NoneUnsaid before.kept (oldest cycle) first
        → AreSaid before first end (C.says with) after status
        → (next later : ℕ) → NoneUnsaid after.kept (oldest later) next
        → (c : ℕ) → oldest cycle ≤ c → oldest later ≤ c → c < end
        → IsDoneIn before (C.says with) after c ⊎ ((next ≤ c) × (3 ≤ status)) }
{}
