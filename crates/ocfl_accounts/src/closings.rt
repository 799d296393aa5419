//! Closed reports, what is found in them, and the accounts of that.
ghost use Rattle.std.specs.Prelude.{◌≡◌, ◌≤◌, ℕ, Bool, false, IsTrue, IfOk, OnOk, List, [], ⊤};
ghost use Rattle.ocfl_tree.specs.Place.{Text};
ghost use Rattle.ocfl_compare.specs.declared.change.ChangeAt.{ChangeAt};
ghost use Rattle.ocfl_accounts.specs.{Crash.{Follows, IsPut, MayPut, Outcomes, Passes, Same}, Causes.{HasCause}, Changes.{Finds, Says}};
ghost use Rattle.ocfl_accounts.specs.{Kept.{Kept, account_with, has_account, nothing_kept, with_account}};
ghost use Rattle.ocfl_accounts.specs.{Sights.{IsSight}, declared.pair.Pair.{Pair as ModelPair}};

use crate::closed::Look;
use crate::pair::Pair;

/// Why a closing was not said: a report, a list or an account cannot be read or written, the output
/// failed, or memory was refused.
#[derive(Clone, Copy, Debug, PartialEq, Eq)]
pub enum ClosingStop {
    Failed,
    Output,
    Memory,
}

/// What was found of a closed cycle.
#[derive(Debug, Drop)]
pub struct Found {
    /// What is said of it.
    pub text: Vec<u8>,
    /// Whether something is new or gone.
    pub is_grave: bool,
}

/// The closed reports of a state folder, and the accounts of what they have new and gone.
///
/// A crash may come at any moment, in a call or between two. An account is put as a whole.
pub trait Closings {
    /// Whether the folder is as the clauses say. Of one that is not told, they say nothing. One
    /// that does not state this is not told.
    ghost told: { Bool } = { false };

    /// What calls show.
    ghost seen: { Self → Kept } = { λ _. nothing_kept };

    /// The list of what is gone, as it was found last.
    ghost found: { Self → Text } = { λ _. [] };

    /// What a crash at this moment may leave.
    ghost may_leave: { Self → Outcomes } = { λ _ _. ⊤ };

    /// The moment, as a number that does not fall.
    ghost moment: { Self → ℕ } = { λ _. 0 };

    /// What a crash at some moment from that one on might have left, in a call or between two.
    ghost left_since: { Self → ℕ → Outcomes } = { λ _ _ _. ⊤ };

    /// How often a call has failed, for another reason than memory.
    ghost faults: { Self → ℕ } = { λ _. 0 };

    /// What texts are made with, beside what is kept.
    ghost With: { Type 0 } = { ⊤ };

    /// With what those of this folder are made. No call changes it.
    ghost with: { Self → Self.With };

    /// What may be said, made with that, of the changes of a cycle, and whether something is new or
    /// gone by it.
    ghost says: { Self.With → Says };

    /// Whether the account of a cycle is there.
    fn has_account(&mut self, cycle: u64) -> Result<bool, ClosingStop>
        ensures value { IsTrue told → IfOk result (λ is. is ≡ has_account (seen self.old) cycle) }
        ensures seen { IsTrue told → seen self.new ≡ seen self.old }
        ensures with { IsTrue told → with self.new ≡ with self.old }
        ensures crash { IsTrue told → Passes may_leave moment left_since Same self.old self.new }
        ensures cause { IsTrue told → HasCause (faults self.old) (faults self.new) result };

    /// What is there of a closed cycle.
    fn look(&mut self, cycle: u64) -> Result<Look, ClosingStop>
        ensures value { IsTrue told → IfOk result (λ look.
            IsSight cycle ((seen self.old).sights cycle) look) }
        ensures seen { IsTrue told → seen self.new ≡ seen self.old }
        ensures with { IsTrue told → with self.new ≡ with self.old }
        ensures crash { IsTrue told → Passes may_leave moment left_since Same self.old self.new }
        ensures cause { IsTrue told → HasCause (faults self.old) (faults self.new) result };

    /// Finds the changes of a closed cycle. Their list is the account that the next `put` puts. Of
    /// a cycle whose report lost lines it finds none.
    fn find(&mut self, pair: &Pair) -> Result<Found, ClosingStop>
        ensures finds { IsTrue told → IfOk result (λ it. Finds (seen self.old) pair.now
            (says (with self.old)) it.text.items it.is_grave (found self.new)) }
        ensures seen { IsTrue told → seen self.new ≡ seen self.old }
        ensures with { IsTrue told → with self.new ≡ with self.old }
        ensures crash { IsTrue told → Passes may_leave moment left_since Same self.old self.new }
        ensures cause { IsTrue told → HasCause (faults self.old) (faults self.new) result };

    /// Puts the list of what was found last as the account of this cycle. After `Ok` it is on the
    /// disk: no crash from then on leaves a folder without it.
    fn put(&mut self, pair: &Pair) -> Result<(), ClosingStop>
        ensures put { IsTrue told → OnOk result (seen self.new
            ≡ with_account (account_with pair.now.closed.cycle (found self.old)) (seen self.old)) }
        ensures may { IsTrue told → MayPut
            (account_with pair.now.closed.cycle (found self.old)) (seen self.old) (seen self.new) }
        ensures with { IsTrue told → with self.new ≡ with self.old }
        ensures crash { IsTrue told → Passes may_leave moment left_since
            (MayPut (account_with pair.now.closed.cycle (found self.old))) self.old self.new }
        ensures durable { IsTrue told → OnOk result (Follows
            (IsPut (account_with pair.now.closed.cycle (found self.old)))
            (may_leave self.old) (may_leave self.new)) }
        ensures cause { IsTrue told → HasCause (faults self.old) (faults self.new) result };

    /// Ends what was found and is not put, since the cycle can be compared once a report is back.
    fn drop_found(&mut self, pair: &Pair) -> Result<(), ClosingStop>
        ensures seen { IsTrue told → seen self.new ≡ seen self.old }
        ensures with { IsTrue told → with self.new ≡ with self.old }
        ensures crash { IsTrue told → Passes may_leave moment left_since Same self.old self.new }
        ensures cause { IsTrue told → HasCause (faults self.old) (faults self.new) result };

    /// Notes why a closing was not said.
    fn fail(&mut self, stop: ClosingStop)
        ensures seen { IsTrue told → seen self.new ≡ seen self.old }
        ensures with { IsTrue told → with self.new ≡ with self.old }
        ensures crash { IsTrue told → Passes may_leave moment left_since Same self.old self.new }
        ensures faults { IsTrue told → faults self.new ≡ faults self.old };

    /// A crash may leave what calls show, as a killed process does.
    ghost stays: { IsTrue told → (closings : Self) → may_leave closings (seen closings) };

    /// This moment is one of those since an earlier one.
    ghost counts_now: { IsTrue told → (closings : Self) (t : ℕ) (k : Kept)
        → t ≤ moment closings → may_leave closings k → left_since closings t k };

    /// Since this moment there is no other.
    ghost only_now: { IsTrue told → (closings : Self) (k : Kept)
        → left_since closings (moment closings) k → may_leave closings k };
}
