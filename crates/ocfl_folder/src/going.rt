//! Going from one directory of a folder to another, name by name.
ghost use Rattle.std.specs.Prelude.{◌≡◌, ◌≢◌, ◌≤◌, ◌-◌, ◌++◌, ◌∷◌, [], IsTrue, IfOk, IfErr, OnOk};
ghost use Rattle.std.specs.Prelude.{MatchResult, Some, None, length, take};
ghost use Rattle.ocfl_tree.specs.{Place.{Text, Place as Spot}, StorageRoot.{at}, Listing.{kind_at}};
ghost use Rattle.ocfl_folder.specs.{System.{IfHere}, Internal.Absence.{IsAbsent}};

use crate::fault::{TryFault, entry_fault_of, fault_of, wrong};
use crate::node::{Node, Seen};
use crate::system::System;
use ocfl_tree::{Kind, Name, is_text};

/// What has this name, if it is of this kind. Another is the device's fault.
pub(crate) fn look_for<S: System>(system: &S, name: &str, kind: Kind) -> Result<Seen, TryFault>
    ensures { IsTrue S.told → IfHere (S.state system.now) (λ root p. MatchResult result
        (λ _. kind_at root p name.now ≡ Some kind)
        (λ fault. IsAbsent fault → kind_at root p name.now ≡ None)) }
{
    match system.look(name) {
        Ok(seen) if seen.kind == kind => Ok(seen),
        Ok(_) => Err(wrong("it is of another kind than it was")),
        Err(error) => Err(fault_of(error)),
    }
}

/// Refuses another directory than this one.
fn check_here<S: System>(system: &S, node: Node) -> Result<(), TryFault>
    ensures { IfErr result (λ fault. IsAbsent fault → ⊥) }
{
    match system.look_here() {
        Ok(seen) if seen.is(Kind::Dir, node) => Ok(()),
        Ok(_) => Err(wrong("it was exchanged for another folder")),
        Err(error) => Err(entry_fault_of(error)),
    }
}

/// Goes to the folder itself.
pub(crate) fn start<S: System>(system: &mut S, way: &mut Vec<Node>) -> Result<(), TryFault>
    ensures store { IsTrue S.told → (S.state system.new).store ≡ (S.state system.old).store }
    ensures here { IsTrue S.told → OnOk result ((S.state system.new).here ≡ Some []) }
    ensures there { IsTrue S.told → IfErr result (λ fault. IsAbsent fault → ⊥) }
{
    way.clear();
    match system.start() {
        Ok(()) => Ok(()),
        Err(error) => Err(fault_of(error)),
    }
}

/// Goes into a directory, and appends which one it is to the others on the way.
fn step_down<S: System>(system: &mut S, way: &mut Vec<Node>, name: &str) -> Result<(), TryFault>
    ensures store { IsTrue S.told → (S.state system.new).store ≡ (S.state system.old).store }
    ensures here { IsTrue S.told → IfHere (S.state system.old) (λ root p. MatchResult result
        (λ _. (S.state system.new).here ≡ Some (p ++ name.now ∷ []))
        (λ fault. IsAbsent fault → kind_at root p name.now ≡ None)) }
{
    let seen = look_for(system, name, Kind::Dir)?;
    if let Err(error) = system.enter(name) {
        return Err(entry_fault_of(error));
    }
    check_here(system, seen.node)?;
    way.push(seen.node)?;
    Ok(())
}

/// Goes into the directory that this one is in, which is not the folder itself.
fn step_up<S: System>(system: &mut S, way: &mut Vec<Node>) -> Result<(), TryFault>
    ensures store { IsTrue S.told → (S.state system.new).store ≡ (S.state system.old).store }
    ensures here { IsTrue S.told → (p : Spot) (n : Text)
        → (S.state system.old).here ≡ Some (p ++ n ∷ [])
        → OnOk result ((S.state system.new).here ≡ Some p) }
    ensures present { IfErr result (λ fault. IsAbsent fault → ⊥) }
{
    way.pop();
    let Some(node) = way.last() else {
        return Err(wrong("it is not known what it lies in"));
    };
    match system.leave() {
        Ok(()) => check_here(system, *node),
        Err(error) => Err(entry_fault_of(error)),
    }
}

/// Goes up `count` times.
fn climb<S: System>(system: &mut S, way: &mut Vec<Node>, count: usize) -> Result<(), TryFault>
    ensures store { IsTrue S.told → (S.state system.new).store ≡ (S.state system.old).store }
    ensures here { IsTrue S.told → (p : Spot) → (S.state system.old).here ≡ Some p
        → count ≤ length p
        → OnOk result ((S.state system.new).here ≡ Some (take (length p - count) p)) }
    ensures present { IfErr result (λ fault. IsAbsent fault → ⊥) }
{
    for _ in 0..count {
        step_up(system, way)?;
    }
    Ok(())
}

/// Goes down along the names of a directory, where it is in the one that the first `from` of
/// them lead to.
pub(crate) fn descend<S: System>(
    system: &mut S,
    way: &mut Vec<Node>,
    names: &[Name],
    from: usize,
) -> Result<(), TryFault>
    requires { from ≤ length names.now }
    ensures store { IsTrue S.told → (S.state system.new).store ≡ (S.state system.old).store }
    ensures here { IsTrue S.told → (S.state system.old).here ≡ Some (take from names.now)
        → MatchResult result (λ _. (S.state system.new).here ≡ Some names.now)
        (λ fault. IsAbsent fault → at (S.state system.old).store.tree names.now ≡ None) }
{
    for i in from..names.len() {
        step_down(system, way, names[i].as_str())?;
    }
    Ok(())
}

/// How many of the first names are the same.
fn shared(names: &[Name], others: &[Name]) -> usize
    ensures one { result ≤ length names.now }
    ensures other { result ≤ length others.now }
    ensures same { take result names.now ≡ take result others.now }
{
    for (i, name) in names.iter().enumerate() {
        if i >= others.len() || !is_text(others[i].as_str(), name.as_str()) {
            return i;
        }
    }
    names.len()
}

/// Goes from one directory up to the one that is on the way to another too, and gives how many
/// names lead to that. From below, the folder itself is found by its own path.
pub(crate) fn turn<S: System>(
    system: &mut S,
    way: &mut Vec<Node>,
    from: &[Name],
    to: &[Name],
) -> Result<usize, TryFault>
    ensures within { IfOk result (λ kept. kept ≤ length to.now) }
    ensures store { IsTrue S.told → (S.state system.new).store ≡ (S.state system.old).store }
    ensures here { IsTrue S.told → (S.state system.old).here ≡ Some from.now
        → IfOk result (λ kept. (S.state system.new).here ≡ Some (take kept to.now)) }
    ensures there { IsTrue S.told → IfErr result (λ fault. IsAbsent fault → ⊥) }
{
    let kept = shared(from, to);
    if kept == 0 && !from.is_empty() {
        start(system, way)?;
    } else {
        climb(system, way, from.len() - kept)?;
    }
    Ok(kept)
}
