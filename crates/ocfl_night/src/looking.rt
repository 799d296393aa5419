//! Looking at the storage root: when a night begins, and after each run.
ghost use Rattle.std.specs.Prelude.{◌≡◌, [], IfErr, IsTrue, OnOk, true};
ghost use Rattle.ocfl_tree.specs.Store.{IfTold};
ghost use Rattle.ocfl_report.specs.declared.further.Further.{Further};
ghost use Rattle.ocfl_night.specs.Asking.{LooksOnly};
ghost use Rattle.ocfl_night.specs.{Ending.{unopened_by}, Halting.{FailedMore, unread_at}, Looks.{Counts}};
ghost use Rattle.ocfl_night.specs.Reading.{AreDeclarations, content_since};
ghost use Rattle.ocfl_night.specs.{Promises.{OverShort}, Site.{IsStill}, Stopping.{IsRunStop}};

use crate::not_opened::NotOpened;
use ocfl_digest::Block;
use ocfl_identity::{Identity, NoIdentity, is_still_declared};
use ocfl_state::FolderTrouble;
use ocfl_terms::{Refusal, Stop};
use ocfl_tree::{Place, Tree};
use std::alloc::Global;

impl From<NoIdentity> for NotOpened {
    ghost from_gives = { λ why e. e ≡ unopened_by why };

    fn from(why: NoIdentity) -> NotOpened {
        match why {
            NoIdentity::Undeclared => NotOpened::Refused(Refusal::NoRoot),
            NoIdentity::Unread(place) => NotOpened::Troubled(Stop::Unread(place)),
            NoIdentity::Memory => NotOpened::Troubled(Stop::Folder(FolderTrouble::Memory)),
        }
    }
}

/// Why nothing of a run is kept.
#[derive(Drop)]
pub(crate) enum NotKept {
    /// After it the root is gone, or another one.
    RootChanged,
    /// After it the root could not be looked at.
    Unread(Place),
    Troubled(Stop),
}

/// Looks at the root after a run: whether the files that declared it are there and are the same.
pub(crate) fn look_again<T: Tree>(
    alloc: Global,
    tree: &mut T,
    identity: &Identity,
    block: &mut Block,
) -> Result<(), NotKept>
    ensures keeps { IsTrue T.told → (T.state tree.new).tree ≡ (T.state tree.old).tree }
    ensures still { IfTold T.told (T.state tree.old) (λ root.
        OnOk result (IsStill identity.now root)) }
    ensures counts { OverShort T.told (T.state tree.old) (λ root.
        Counts (T.state tree.old) (T.state tree.new)) }
    ensures content { (further : Further) → AreDeclarations identity.now
        → OverShort T.told (T.state tree.old) (λ root.
        content_since further root (T.state tree.old) (T.state tree.new) ≡ []) }
    ensures only { OverShort T.told (T.state tree.old) (λ root.
        LooksOnly identity.now.declarations.items [] (T.state tree.old) (T.state tree.new)) }
    ensures unread { OverShort T.told (T.state tree.old) (λ root. IfErr result
        (λ why. FailedMore (T.state tree.old) (T.state tree.new) (unread_at why))) }
    ensures stop { IfErr result (IsRunStop ⊥) }
{
    match is_still_declared(alloc, tree, identity, block) {
        Ok(true) => Ok(()),
        Ok(false) => Err(NotKept::RootChanged),
        Err(NoIdentity::Undeclared) => Err(NotKept::RootChanged),
        Err(NoIdentity::Unread(place)) => Err(NotKept::Unread(place)),
        Err(NoIdentity::Memory) => Err(NotKept::Troubled(Stop::Folder(FolderTrouble::Memory))),
    }
}
