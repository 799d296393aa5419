//! Listing the directory that a system is in, and opening a file there.
ghost use Rattle.std.specs.Prelude.{◌≡◌, ◌≢◌, ◌++◌, ◌∷◌, [], IsTrue, IfOk, OnOk, IfErr};
ghost use Rattle.std.specs.Prelude.{MatchResult, ◌≤◌, ◌<◌, Some, None, length, take};
ghost use Rattle.ocfl_tree.specs.{StorageRoot.{file, at}, Listing.{IsListing, IsOrdinary, kind_at}};
ghost use Rattle.ocfl_folder.specs.{System.{IfHere, Gives}, Internal.Covering.{Adds, Covers}};
ghost use Rattle.ocfl_folder.specs.Internal.Absence.{IsAbsent};

use crate::fault::{TryFault, entry_fault_of, fault_of, wrong};
use crate::going::look_for;
use crate::listed::Listed;
use crate::system::System;
use ocfl_tree::{Entry, Kind, MAX_ENTRIES, Name};
use std::alloc::Global;
use std::io::{self, ErrorKind};

/// How often an interrupted call is made at most.
pub(crate) const TRIES: u64 = 1000;

/// How many names a listing reads at most: as many as there may be entries, and the end.
const MOST_NAMES: usize = MAX_ENTRIES + 2;

/// The next name of a listing, in place of what the other holds. `false` at its end.
fn next_name<S: System>(
    system: &S,
    names: &mut S::Names,
    name: &mut Vec<u8>,
) -> Result<bool, TryFault>
    ensures given { IsTrue S.told → IfOk result (λ more.
        Gives more (S.left names.old) name.new.items (S.left names.new)) }
    ensures present { IfErr result (λ fault. IsAbsent fault → ⊥) }
{
    match system.next_name(names, name) {
        Ok(more) => Ok(more),
        Err(error) => Err(entry_fault_of(error)),
    }
}

/// Adds the entry with this name. That it went away is the device's fault.
fn add_entry<S: System>(
    system: &S,
    alloc: Global,
    name: &[u8],
    listed: &mut Listed,
) -> Result<(), TryFault>
    ensures added { IsTrue S.told → IfHere (S.state system.now) (λ root p. OnOk result
        (Adds root p name.now listed.old.entries.items listed.new.entries.items)) }
    ensures present { IfErr result (λ fault. IsAbsent fault → ⊥) }
{
    let Ok(name) = str::from_utf8(name) else {
        return Err(wrong("it holds a name that is not UTF-8"));
    };
    let seen = match system.look(name) {
        Ok(seen) => seen,
        Err(error) => return Err(entry_fault_of(error)),
    };
    let name = Name::new(alloc, name)?;
    let kind = seen.kind;
    listed.add(Entry { name, kind })
}

/// The entries of the directory that the system is in, as its listing gives them.
fn list_all<S: System>(system: &S, alloc: Global) -> Result<Listed, TryFault>
    ensures listed { IsTrue S.told → IfHere (S.state system.now) (λ root p. IfOk result
        (λ listed. Covers root p listed.entries.items)) }
    ensures present { IfErr result (λ fault. IsAbsent fault → ⊥) }
{
    let mut names = match system.names() {
        Ok(names) => names,
        Err(error) => return Err(entry_fault_of(error)),
    };
    let mut name = Vec::new(alloc);
    let mut listed = Listed::new(alloc);
    for _ in 0..MOST_NAMES {
        if !next_name(system, &mut names, &mut name)? {
            return Ok(listed);
        }
        add_entry(system, alloc, &name, &mut listed)?;
    }
    Err(wrong("it holds more than 1,000,000 entries"))
}

/// The entries of the directory that the system is in.
pub(crate) fn list_here<S: System>(system: &S, alloc: Global) -> Result<Vec<Entry>, TryFault>
    ensures ordinary { IfOk result (λ entries. IsOrdinary entries.items) }
    ensures listed { IsTrue S.told → IfHere (S.state system.now) (λ root p. IfOk result
        (λ entries. IsListing root p entries.items)) }
    ensures present { IfErr result (λ fault. IsAbsent fault → ⊥) }
{
    list_all(system, alloc)?.into_ordered()
}

/// The file with this name in the directory that the system is in: that which it is when it is
/// looked at.
pub(crate) fn open_here<S: System>(system: &S, name: &str) -> Result<S::File, TryFault>
    ensures { IsTrue S.told → IfHere (S.state system.now) (λ root p. MatchResult result
        (λ opened. at root (p ++ name.now ∷ []) ≡ Some (file (S.rest opened)))
        (λ fault. IsAbsent fault → kind_at root p name.now ≡ None)) }
{
    let before = look_for(system, name, Kind::File)?;
    let mut file = match system.open(name) {
        Ok(file) => file,
        Err(error) => return Err(fault_of(error)),
    };
    match system.look_at(&mut file) {
        Ok(opened) if opened.is(Kind::File, before.node) => Ok(file),
        Ok(_) => Err(wrong("it was exchanged for another file")),
        Err(error) => Err(entry_fault_of(error)),
    }
}

/// Reads on in an open file, if the call is not interrupted too often.
pub(crate) fn read_on<S: System>(
    system: &S,
    file: &mut S::File,
    buffer: &mut [u8],
) -> Result<usize, io::Error>
    ensures bound { IfOk result (λ count. count ≤ length buffer.new) }
    ensures given { IsTrue S.told → IfOk result (λ count.
        S.rest file.old ≡ take count buffer.new ++ S.rest file.new) }
    ensures end { IsTrue S.told → IfOk result (λ count. take count buffer.new ≡ []
        → 0 < length buffer.new → S.rest file.new ≡ []) }
{
    for _ in 0..TRIES {
        match system.read(file, buffer) {
            Err(error) if error.kind() == ErrorKind::Interrupted => {}
            result => return result,
        }
    }
    Err(io::Error::from(ErrorKind::Interrupted))
}
