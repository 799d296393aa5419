//! Whether a checkpoint is that of these nights, and the root as it was.
ghost use Rattle.std.specs.Prelude.{◌≡◌, ◌↔◌, ◌+◌, ◌<◌, IfErr, IfOk, IsTrue, OnOk, false, is_none};
ghost use Rattle.ocfl_scrub.specs.Running.{place_in};
ghost use Rattle.ocfl_night.specs.Refusing.{IsChangedRoot, IsDisowned};
ghost use Rattle.ocfl_night.specs.Site.{AreMostGone, IsOwn, IsSameRoot, are_renewed, first_checkpoint, names_now, with_root};

use crate::checkpoint::no_report;
use crate::site::{Site, ends_again};
use ocfl_cursor::{Cursor, PartEnds, State, is_same_part};
use ocfl_identity::Identity;
use ocfl_report::Further;
use ocfl_state::{Checkpoint, Phase, RootIdentity, TopNames};
use ocfl_terms::Refusal;
use ocfl_tree::Place;
use std::alloc::{AllocError, Global};

fn is_same_place(place: &Place, other: &Place) -> bool
    ensures { IsTrue result ↔ (place.now ≡ other.now) }
{
    place == other
}

/// Whether a checkpoint is of the root at this path.
fn is_at(checkpoint: &Checkpoint, path: &Place) -> bool
    ensures { IsTrue result ↔ (checkpoint.now.root.path ≡ path.now) }
{
    is_same_place(&checkpoint.root.path, path)
}

/// Whether a checkpoint is of this part.
fn is_of(checkpoint: &Checkpoint, ends: &Option<PartEnds>) -> bool
    ensures { IsTrue result ↔ (checkpoint.now.part ≡ ends.now) }
{
    match (&checkpoint.part, ends) {
        (None, None) => true,
        (Some(part), Some(ends)) => is_same_part(part, ends),
        _ => false,
    }
}

/// Whether the cursor of a checkpoint checks this.
fn is_to_check(checkpoint: &Checkpoint, further: Further) -> bool
    ensures { IsTrue result ↔ (checkpoint.now.cursor.further ≡ further) }
{
    checkpoint.cursor.further() == further
}

/// Whether the root has the declaration that a checkpoint has.
fn is_declared(checkpoint: &Checkpoint, identity: &Identity) -> bool
    ensures { IsTrue result ↔ (checkpoint.now.root.declared ≡ identity.now.declared) }
{
    checkpoint.root.declared == identity.declared
}

/// Whether more than half of the names are gone.
fn is_most_gone(before: u64, now: u64) -> bool
    ensures { IsTrue result ↔ (now + now < before) }
{
    before > now && before - now > now
}

/// Whether more than half of the names are gone that a checkpoint has.
fn are_most_gone(checkpoint: &Checkpoint, identity: &Identity) -> bool
    ensures { IsTrue result ↔ AreMostGone identity.now checkpoint.now }
{
    is_most_gone(checkpoint.names.count, identity.count)
}

/// Refuses a root with another declaration than a checkpoint has, or without more than half of its
/// names.
fn same_root(checkpoint: &Checkpoint, identity: &Identity) -> Result<(), Refusal>
    ensures same { OnOk result (IsSameRoot identity.now checkpoint.now) }
    ensures rightly { IfErr result (IsChangedRoot identity.now checkpoint.now) }
{
    if !is_declared(checkpoint, identity) {
        return Err(Refusal::OtherDeclaration);
    }
    if are_most_gone(checkpoint, identity) {
        let before = checkpoint.names.count;
        return Err(Refusal::NamesGone {
            gone: before.saturating_sub(identity.count),
            before,
        });
    }
    Ok(())
}

/// The path of the root that a checkpoint is of.
fn path_of(checkpoint: Checkpoint) -> Place
    ensures { result ≡ checkpoint.root.path }
{
    checkpoint.into_path()
}

/// The same checkpoint, if it is of this root and this part and checks the same, and unless forced
/// the root is as it was.
pub(crate) fn own(
    found: Checkpoint,
    site: &Site,
    identity: &Identity,
    force_root: bool,
) -> Result<Checkpoint, Refusal>
    ensures same { IfOk result (λ checkpoint. checkpoint ≡ found) }
    ensures own { OnOk result (IsOwn site.now found) }
    ensures root { force_root ≡ false → OnOk result (IsSameRoot identity.now found) }
    ensures rightly { IfErr result (IsDisowned site.now identity.now force_root found) }
{
    if !is_at(&found, &site.path) {
        return Err(Refusal::OtherRoot(path_of(found)));
    }
    if !is_of(&found, &site.ends) {
        return Err(Refusal::OtherPart);
    }
    if !is_to_check(&found, site.further) {
        return Err(Refusal::OtherAudit(found.cursor.further()));
    }
    if !force_root {
        same_root(&found, identity)?;
    }
    Ok(found)
}

/// The names that a root has now.
fn names_now(identity: &Identity) -> TopNames
    ensures { result ≡ names_now identity.now }
{
    let digest = identity.names;
    TopNames {
        count: identity.count,
        digest,
    }
}

/// Whether the next run begins a cycle.
fn begins(cursor: &Cursor) -> bool
    ensures { result ≡ is_none (place_in cursor.now.state) }
{
    match cursor.state() {
        State::Start | State::Ended => true,
        State::After(_) => false,
    }
}

/// Whether the names of a checkpoint become those of now: if a cycle begins, or if more than half
/// of them are gone.
fn are_renewed(checkpoint: &Checkpoint, identity: &Identity) -> bool
    ensures { result ≡ are_renewed identity.now checkpoint.now }
{
    begins(&checkpoint.cursor) || are_most_gone(checkpoint, identity)
}

/// The checkpoint with the declaration that the root has now, and with its names if they are
/// renewed; else they stay.
pub(crate) fn with_root(mut checkpoint: Checkpoint, identity: &Identity) -> Checkpoint
    ensures { result ≡ with_root identity.now checkpoint }
{
    let anew = are_renewed(&checkpoint, identity);
    let declared = identity.declared;
    checkpoint.root.declared = declared;
    if anew {
        let names = names_now(identity);
        checkpoint.names = names;
    }
    checkpoint
}

/// The first checkpoint of nights.
pub(crate) fn first_checkpoint(
    alloc: Global,
    site: &Site,
    identity: &Identity,
) -> Result<Checkpoint, AllocError>
    ensures { IfOk result (λ checkpoint. checkpoint ≡ first_checkpoint site.now identity.now) }
{
    let path = site.path.try_clone()?;
    let part = ends_again(&site.ends)?;
    let declared = identity.declared;
    let names = names_now(identity);
    let report = no_report();
    Ok(Checkpoint {
        root: RootIdentity { path, declared },
        names,
        phase: Phase::Open,
        whole: true,
        report,
        said: 0,
        left: Vec::new(alloc),
        part,
        cursor: Cursor::new(site.further),
    })
}
