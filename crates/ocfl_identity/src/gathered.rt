//! The entries of the top folder, in order, and what they add up to.
ghost use Rattle.std.specs.{Prelude.{◌≡◌, IfOk, IsPermutation}, List.Sorted.{IsSorted}};
ghost use Rattle.sha2.specs.Sha256.{sha256};
ghost use Rattle.ocfl_tree.specs.Place.{text_cmp};
ghost use Rattle.ocfl_inventory.specs.Entries.{is_counted};
ghost use Rattle.ocfl_inventory.specs.declared.declaration.Level.TheVariants.{Root};
ghost use Rattle.ocfl_identity.specs.Identity.{declarations_among, ended_names, names_of};

use ocfl_inventory::{Level, is_declaration_name};
use ocfl_tree::{Entry, Kind, Name};
use sha2::{Digest, Sha256};
use std::alloc::{AllocError, Global};

/// Puts entries in the order of their names.
pub(crate) fn sort(entries: &mut Vec<Entry>)
    ensures permutation { IsPermutation entries.old.items entries.new.items }
    ensures sorted { IsSorted (λ e f. text_cmp e.name f.name) entries.new.items }
{
    entries.sort_unstable_by(|entry, other| entry.name.cmp(&other.name));
}

/// Whether an entry is a file that declares a storage root.
fn is_declaration(entry: &Entry) -> bool
    ensures { result ≡ is_counted Root entry.now }
{
    match entry.kind {
        Kind::File => is_declaration_name(Level::Root, entry.name.as_str()),
        Kind::Dir | Kind::Other => false,
    }
}

/// The names of the files that declare a storage root.
pub(crate) fn declarations(alloc: Global, entries: &[Entry]) -> Result<Vec<Name>, AllocError>
    ensures { IfOk result (λ names. names.items ≡ declarations_among entries.now) }
{
    let mut names = Vec::new(alloc);
    for entry in entries {
        if is_declaration(entry) {
            names.push(entry.name.try_clone()?)?;
        }
    }
    Ok(names)
}

/// The SHA-256 of all names, each followed by a zero.
pub(crate) fn hash_names(entries: &[Entry]) -> [u8; 32]
    ensures { result ≡ sha256 (ended_names (names_of entries.now)) }
{
    let mut hasher = Sha256::new();
    for entry in entries {
        hasher.update(entry.name.as_str().as_bytes());
        hasher.update(&[0]);
    }
    hasher.finalize()
}
