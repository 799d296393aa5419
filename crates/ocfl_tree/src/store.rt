//! Entries of a directory, openings, and why a call of a store failed.
ghost use Rattle.std.specs.Prelude.{◌≡◌};
ghost use Rattle.ocfl_tree.specs.declared.store.Trouble.TheVariants.{Memory};

use crate::name::Name;
use crate::place::Place;
use std::alloc::{AllocError, AllocFailed};

/// A directory of more entries cannot be listed.
pub const MAX_ENTRIES: usize = 1_000_000;

/// What an entry of a directory is. A link is `Other`, and so is everything that is neither a file
/// nor a directory.
#[derive(Clone, Copy, Debug, PartialEq, Eq, PartialOrd, Ord)]
pub enum Kind {
    File,
    Dir,
    Other,
}

/// An entry of a directory.
#[derive(Debug, Drop, PartialEq, Eq, PartialOrd, Ord)]
pub struct Entry {
    pub name: Name,
    pub kind: Kind,
}

/// Why a store did not answer: its device failed, what was asked for is not there, or memory was
/// refused.
#[derive(Clone, Copy, Debug, PartialEq, Eq)]
pub enum Trouble {
    Device,
    Absent,
    Memory,
}

impl From<AllocError> for Trouble {
    ghost from_gives = { λ _ e. e ≡ Memory };

    fn from(_error: AllocError) -> Trouble {
        Trouble::Memory
    }
}

impl<T: Drop> From<AllocFailed<T>> for Trouble {
    ghost from_gives = { λ _ e. e ≡ Memory };

    fn from(_error: AllocFailed<T>) -> Trouble {
        Trouble::Memory
    }
}

/// One opening of a file: how many bytes it gave, and whether the device failed in it.
#[derive(Debug, Drop)]
pub struct Opening {
    pub place: Place,
    pub given: u64,
    pub failed: bool,
}
