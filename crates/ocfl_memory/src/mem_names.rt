//! The names of a directory of a system in memory, one by one.
ghost use Rattle.std.specs.Prelude.{◌≡◌, IfOk, map};
ghost use Rattle.ocfl_folder.specs.System.{Gives};

use ocfl_tree::Entry;
use std::alloc::AllocError;
use std::marker::Model;

/// A listing of a system in memory. Its value in clauses: the names that it has still to give.
#[derive(Debug, Drop)]
pub struct MemNames {
    entries: Vec<Entry>,
    next: usize,
}

impl Model for MemNames {
    ghost use Rattle.std.specs.Prelude.{List, ℕ, drop, map};

    ghost Value = { List (List ℕ) };

    ghost view = { λ a. map (λ e. e.name) (drop a.next a.entries.items) };
}

impl MemNames {
    /// The names of these entries.
    pub(crate) fn new(entries: Vec<Entry>) -> MemNames
        ensures { result ≡ map (λ e. e.name) entries.items }
    {
        MemNames { entries, next: 0 }
    }

    /// Puts the next name in place of what the other holds. `false` at the end.
    pub(crate) fn next(&mut self, name: &mut Vec<u8>) -> Result<bool, AllocError>
        ensures { IfOk result (λ more. Gives more self.old name.new.items self.new) }
    {
        if self.next >= self.entries.len() {
            return Ok(false);
        }
        name.clear();
        name.extend_from_slice(self.entries[self.next].name.as_str().as_bytes())?;
        self.next += 1;
        Ok(true)
    }
}
