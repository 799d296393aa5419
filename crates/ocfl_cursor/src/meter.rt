//! The meter of a run: what it has spent, and whether it may start another file.
ghost use Rattle.std.specs.Prelude.{◌≡◌, ◌↔◌, ◌⊎◌, ◌+◌, ◌≤◌, IsTrue};
ghost use Rattle.ocfl_cursor.specs.Meter.{IsMeter, MayStart, files_of, max_cost};

use crate::limits::Limits;
use std::marker::Model;

/// What a run has spent of its budget, and how many files it has started. A file is paid for once
/// it is read, so the last one that a run starts may pass the budget.
#[derive(Debug, Drop)]
pub struct Meter {
    limits: Limits,
    spent: u64,
    files: u64,
}

impl Model for Meter {
    ghost use Rattle.ocfl_cursor.specs.Meter.{Meter, IsMeter};

    ghost Value = { Meter };

    ghost view = { λ a. record { limits = a.limits; spent = a.spent; files = a.files } };

    ghost invariant = { λ a. IsMeter (record {
      limits = a.limits;
      spent = a.spent;
      files = a.files;
    }) };
}

impl Meter {
    /// A meter that has spent nothing and started no file.
    pub fn new(limits: Limits) -> Meter
        ensures limits { result.limits ≡ limits }
        ensures spent { result.spent ≡ 0 }
        ensures files { result.files ≡ 0 }
    {
        Meter {
            limits,
            spent: 0,
            files: 0,
        }
    }

    /// Whether a file may be started: the test before each item that costs something.
    pub fn may_start(&self) -> bool
        ensures { IsTrue result ↔ MayStart self.now }
    {
        self.spent < self.limits.budget.most && self.files < self.limits.files.most
    }

    /// Adds the cost of an item: that of a file, or 0 for any other item.
    pub fn charge(&mut self, cost: u64)
        requires { (cost ≡ 0) ⊎ (MayStart self.old × (cost ≤ max_cost)) }
        ensures limits { self.new.limits ≡ self.old.limits }
        ensures spent { self.new.spent ≡ self.old.spent + cost }
        ensures files { self.new.files ≡ self.old.files + files_of cost }
    {
        if cost > 0 {
            self.spent += cost;
            self.files += 1;
        }
    }

    /// What was charged so far. It passes the budget by the last file that was started, at most.
    pub fn spent(&self) -> u64
        ensures value { result ≡ self.now.spent }
        ensures bound { IsMeter self.now }
    {
        self.spent
    }

    /// How many files were started so far: at most as many as the limit, and as was spent.
    pub fn files(&self) -> u64
        ensures value { result ≡ self.now.files }
        ensures bound { IsMeter self.now }
    {
        self.files
    }
}
