//! The entries of a directory.
ghost use Rattle.std.specs.Prelude.{◌≡◌, ◌≤◌, ◌++◌, ◌∷◌, [], IsTrue, IfOk, IfErr, OnOk, length};
ghost use Rattle.std.specs.List.Sorted.{IsPermutation};
ghost use Rattle.ocfl_tree.specs.{Listing.{AreApart, IsOrdinary}, StorageRoot.{max_entries}};
ghost use Rattle.ocfl_folder.specs.Internal.Absence.{IsAbsent};

use crate::fault::{TryFault, wrong};
use ocfl_tree::{Entry, MAX_ENTRIES};
use std::alloc::Global;

/// At most 1,000,000 entries.
#[derive(Drop)]
pub(crate) struct Listed {
    entries: Vec<Entry>,
    ghost few: { length entries.items ≤ max_entries },
}

/// Whether each name is below the next.
fn rise(entries: &[Entry]) -> bool
    ensures { IsTrue result → AreApart entries.now }
{
    for (i, entry) in entries.iter().enumerate() {
        if i > 0 && entries[i - 1].name >= entry.name {
            return false;
        }
    }
    true
}

impl Listed {
    pub(crate) fn new(alloc: Global) -> Listed
        ensures { result.entries.items ≡ [] }
    {
        Listed {
            entries: Vec::new(alloc),
        }
    }

    /// Appends an entry. The device fails if there are [`MAX_ENTRIES`] already.
    pub(crate) fn add(&mut self, entry: Entry) -> Result<(), TryFault>
        ensures added { OnOk result
            (self.new.entries.items ≡ self.old.entries.items ++ entry ∷ []) }
        ensures present { IfErr result (λ fault. IsAbsent fault → ⊥) }
    {
        if self.entries.len() >= MAX_ENTRIES {
            return Err(wrong("it holds more than 1,000,000 entries"));
        }
        self.entries.push(entry)?;
        Ok(())
    }

    /// The entries in order. Refuses entries of which two have one name.
    pub(crate) fn into_ordered(self) -> Result<Vec<Entry>, TryFault>
        ensures ordinary { IfOk result (λ entries. IsOrdinary entries.items) }
        ensures present { IfErr result (λ fault. IsAbsent fault → ⊥) }
        ensures same { IfOk result (λ entries. IsPermutation self.entries.items entries.items) }
    {
        let Listed { mut entries } = self;
        entries.sort()?;
        if !rise(&entries) {
            return Err(wrong("it holds a name twice"));
        }
        Ok(entries)
    }
}
