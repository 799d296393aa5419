//! What was found in the lines of a report that was compared.
ghost use Rattle.std.specs.Prelude.{◌≡◌, ◌+◌, ◌++◌, ℕ, List, OnOk, []};
ghost use Rattle.ocfl_messages.specs.Finding.{Finding as ModelFinding};
ghost use Rattle.ocfl_messages.specs.{Gravest.{IsOf}, Tally.{IsCount}};
ghost use Rattle.ocfl_words.specs.Held.{HasFound, none_held};

use crate::missing::add_count;
use ocfl_messages::{Gravest, Tally};
use std::alloc::{AllocError, Global};

/// What a report has of findings.
pub struct Findings {
    /// How many findings there are of all.
    pub count: u64,
    /// How many of those that are new and not known were said before.
    pub said: u64,
    /// The most serious of the rest.
    pub gravest: Gravest,
    /// What all lines count.
    pub tally: Tally,
}

/// Written by hand, so that to let it go is one call wherever that happens.
impl Drop for Findings {
    fn drop(self) {
        let Findings {
            count: _count,
            said: _said,
            gravest: _gravest,
            tally: _tally,
        } = self;
    }
}

impl Findings {
    /// None, of no lines.
    pub fn new(alloc: Global) -> Findings
        ensures { HasFound result none_held }
    {
        Findings {
            count: 0,
            said: 0,
            gravest: Gravest::new(alloc),
            tally: Tally::new(),
        }
    }

    /// Takes the new ones of another comparison of the same report too. They come after these. It
    /// is not used again if memory runs out.
    pub fn join(&mut self, other: &mut Findings) -> Result<(), AllocError>
        ensures gravest { OnOk result ((fs gs : List ModelFinding) → IsOf self.old.gravest fs
            → IsOf other.old.gravest gs → IsOf self.new.gravest (fs ++ gs)) }
        ensures said { OnOk result ((m k : ℕ) → IsCount self.old.said m
            → IsCount other.old.said k → IsCount self.new.said (m + k)) }
        ensures count { self.new.count ≡ self.old.count }
        ensures tally { self.new.tally ≡ self.old.tally }
    {
        self.said = add_count(self.said, other.said);
        self.gravest.join(&mut other.gravest)
    }
}
