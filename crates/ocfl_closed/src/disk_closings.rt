//! Closed reports on a disk, and their accounts.
ghost use Rattle.std.specs.Prelude.{◌≡◌, ◌⊎◌, ℕ, IsTrue, OnOk, Option};
ghost use Rattle.ocfl_accounts.specs.{Causes.{HasCause}, Kept.{account_with}, Crash.{Follows, IsPut, MayPut}};
ghost use Rattle.ocfl_closed.specs.{Cut.{Calm, Passes, with_listed}, Files.{kept_of}, Words.{Means, means_of, said_by}};
ghost use Rattle.ocfl_state.specs.Checkpoint.{Checkpoint};

use crate::account::Account;
use crate::disk::ClosedDisk;
use crate::finding::{ChangesFound, find_changes};
use crate::looking::look_at;
use crate::words::SaidWith;
use ocfl_accounts::{ClosingStop, Closings, Found, Look, Pair};
use std::alloc::Global;

/// The closed reports of a state folder on a disk. The account of a cycle is its list of what is
/// gone.
pub struct DiskClosings<'n, D> {
    alloc: Global,
    pub disk: D,
    /// What is said of them is made with this.
    pub with: SaidWith<'n>,
    /// The cycle that the night closed; 0 if it closed none.
    closed: u64,
    /// What was found last, and is not logged yet.
    account: Option<Account>,
}

impl<D: Drop> Drop for DiskClosings<'_, D> {
    fn drop(self) {
        let DiskClosings {
            alloc: _alloc,
            disk: _disk,
            with: _with,
            closed: _closed,
            account: _account,
        } = self;
    }
}

impl<'n, D: ClosedDisk> DiskClosings<'n, D> {
    /// Those that a disk shows, of which the night closed this cycle; 0 if it closed none.
    pub fn over(alloc: Global, disk: D, with: SaidWith<'n>, closed: u64) -> DiskClosings<'n, D>
        ensures disk { result.disk ≡ disk }
        ensures with { result.with ≡ with.entry }
    {
        DiskClosings {
            alloc,
            disk,
            with,
            closed,
            account: None,
        }
    }

    /// The disk alone.
    pub fn into_disk(self) -> D
        ensures { result ≡ self.entry.disk }
    {
        let DiskClosings {
            alloc: _alloc,
            disk,
            with: _with,
            closed: _closed,
            account: _account,
        } = self;
        disk
    }

    /// Logs what was found last.
    fn log(&mut self, pair: &Pair) -> Result<(), ClosingStop>
        ensures calm { IsTrue D.told → Calm (D.state self.old.disk) (D.state self.new.disk) }
        ensures with { self.new.with ≡ self.old.with }
        ensures cause { IsTrue D.told
            → HasCause (D.faults self.old.disk) (D.faults self.new.disk) result }
    {
        match self.account.take() {
            Some(account) => self.disk.log(pair, &account),
            None => Ok(()),
        }
    }
}

/// Puts the list that was made last as that of a cycle: its bytes are brought to the disk, then it
/// gets its name, and then that is brought to the disk.
fn put_list<D: ClosedDisk>(disk: &mut D, cycle: u64) -> Result<(), ClosingStop>
    ensures put { IsTrue D.told → OnOk result ((D.state disk.new).files
        ≡ with_listed (account_with cycle (D.state disk.old).beside) (D.state disk.old).files) }
    ensures may { IsTrue D.told → ((D.state disk.new).files ≡ (D.state disk.old).files)
        ⊎ ((D.state disk.new).files
        ≡ with_listed (account_with cycle (D.state disk.old).beside) (D.state disk.old).files) }
    ensures passes { IsTrue D.told → Passes (MayPut (account_with cycle (D.state disk.old).beside))
        (D.state disk.old) (D.state disk.new) }
    ensures durable { IsTrue D.told → OnOk result (Follows
        (IsPut (account_with cycle (D.state disk.old).beside))
        (D.state disk.old).may_leave (D.state disk.new).may_leave) }
    ensures cause { IsTrue D.told → HasCause (D.faults disk.old) (D.faults disk.new) result }
{
    disk.sync_list()?;
    disk.rename_list(cycle)?;
    disk.sync_folder()
}

impl<D: ClosedDisk> Closings for DiskClosings<'_, D> {
    ghost told = { D.told };

    ghost seen = { λ closings. kept_of (D.state closings.disk).files };

    ghost found = { λ closings. (D.state closings.disk).beside };

    ghost may_leave = { λ closings. (D.state closings.disk).may_leave };

    ghost moment = { λ closings. (D.state closings.disk).moment };

    ghost left_since = { λ closings. (D.state closings.disk).left_since };

    ghost faults = { λ closings. D.faults closings.disk };

    ghost With = { Means × (ℕ → Option Checkpoint) };

    ghost with = { λ closings.
        (means_of closings.with, (D.state closings.disk).files.checkpoint) };

    ghost says = { λ it. said_by it.0 it.1 };

    ghost stays = { λ told closings. (D.is_disk told closings.disk).stays };

    ghost counts_now = { λ told closings. (D.is_disk told closings.disk).counts_now };

    ghost only_now = { λ told closings. (D.is_disk told closings.disk).only_now };

    fn has_account(&mut self, cycle: u64) -> Result<bool, ClosingStop> {
        self.disk.has_list(cycle)
    }

    fn look(&mut self, cycle: u64) -> Result<Look, ClosingStop> {
        look_at(self.alloc, &mut self.disk, cycle)
    }

    fn find(&mut self, pair: &Pair) -> Result<Found, ClosingStop> {
        let ChangesFound { found, account } = find_changes(
            self.alloc,
            &mut self.disk,
            &self.with,
            pair,
        )?;
        self.account = Some(account);
        Ok(found)
    }

    fn put(&mut self, pair: &Pair) -> Result<(), ClosingStop> {
        put_list(&mut self.disk, pair.closed.cycle())?;
        self.log(pair)
    }

    fn drop_found(&mut self, pair: &Pair) -> Result<(), ClosingStop> {
        self.disk.remove_list();
        if pair.closed.cycle() != self.closed {
            return Ok(());
        }
        self.log(pair)
    }

    fn fail(&mut self, stop: ClosingStop) {
        self.disk.fail(stop);
    }
}
