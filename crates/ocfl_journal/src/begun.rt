//! Where nights begin: what the checkpoint of their state folder says.
ghost use Rattle.std.specs.Prelude.{◌≡◌, ◌↔◌, ◌∷◌, ◌⊎◌, IfOk, IfSome, IsTrue, MatchOption, Some};
ghost use Rattle.ocfl_tree.specs.Place.{Place as ModelPlace, Text};
ghost use Rattle.ocfl_kept.specs.Keeping.{IsRead};
ghost use Rattle.ocfl_journal.specs.Begun.{IsBegunAt, IsBegunBy, IsFirst, IsLastOf, IsRootBy};
ghost use Rattle.ocfl_journal.specs.Begun.{from_top, given_bytes};

use ocfl_cursor::Refused;
use ocfl_files::files::{folder_of, path_of};
use ocfl_files::making::is_there;
use ocfl_kept::kept::places_of;
use ocfl_kept::stand::Standing;
use ocfl_kept::state_dir::Folder;
use ocfl_state::{Checkpoint, FolderTrouble, decode_checkpoint};
use ocfl_tree::Place;
use std::alloc::{AllocError, Global};
use std::rt::Files;

/// Where nights begin: where those before stand, which places they left out of the cycle that is
/// open, and how many bytes of the report they said.
#[derive(Drop)]
pub(crate) struct Begun {
    pub(crate) standing: Standing,
    pub(crate) left: Vec<Place>,
    pub(crate) said: u64,
}

impl Begun {
    /// Before the first night.
    fn first(alloc: Global) -> Begun
        ensures { IsFirst result }
    {
        Begun {
            standing: Standing::first(),
            left: Vec::new(alloc),
            said: 0,
        }
    }

    /// By a checkpoint.
    fn of(alloc: Global, checkpoint: &Checkpoint) -> Result<Begun, AllocError>
        ensures { IfOk result (λ begun. IsBegunAt checkpoint.now begun) }
    {
        Ok(Begun {
            standing: Standing::of(checkpoint),
            left: places_of(alloc, &checkpoint.left)?,
            said: checkpoint.said,
        })
    }
}

/// The checkpoint that these bytes are. `None` if they are none.
fn checkpoint_of(alloc: Global, bytes: &[u8]) -> Result<Option<Checkpoint>, AllocError>
    ensures { IfOk result (λ found. IsRead bytes.now found) }
{
    match decode_checkpoint(alloc, bytes) {
        Ok(checkpoint) => Ok(Some(checkpoint)),
        Err(Refused::Memory) => Err(AllocError),
        Err(_) => Ok(None),
    }
}

/// Where nights begin by the bytes of their checkpoint.
fn begun_at(alloc: Global, bytes: &[u8]) -> Result<Begun, AllocError>
    ensures { IfOk result (λ begun. IsBegunBy (Some bytes.now) begun) }
{
    match checkpoint_of(alloc, bytes)? {
        Some(checkpoint) => Begun::of(alloc, &checkpoint),
        None => Ok(Begun::first(alloc)),
    }
}

/// The same by what their folder gave.
fn begun_by(
    alloc: Global,
    stored: Result<Option<Vec<u8>>, FolderTrouble>,
) -> Result<Begun, AllocError>
    ensures { IfOk result (λ begun. IsBegunBy (given_bytes stored) begun) }
{
    match stored {
        Ok(Some(bytes)) => begun_at(alloc, &bytes),
        Ok(None) | Err(_) => Ok(Begun::first(alloc)),
    }
}

/// Where the nights over a folder stand. Of a checkpoint that cannot be read the night itself says
/// why.
pub(crate) fn read_begun<F: Folder>(alloc: Global, folder: &mut F) -> Result<Begun, AllocError>
    ensures { IsTrue F.shown → IfOk result (λ begun.
        IsFirst begun ⊎ IsBegunBy (F.holding folder.old).checkpoint begun) }
{
    begun_by(alloc, folder.stored())
}

/// The path of the storage root that the nights of a folder read, by its checkpoint.
fn own_root<F: Folder>(alloc: Global, folder: &mut F) -> Option<Place>
    ensures { IsTrue F.shown → IfSome result (λ root.
        IsRootBy (F.holding folder.old).checkpoint root) }
{
    let bytes = folder.stored().ok()??;
    Some(decode_checkpoint(alloc, &bytes).ok()?.into_path())
}

/// What is behind the slash that a path begins with. `None` if it begins otherwise.
fn below_top(path: &str) -> Option<&[u8]>
    ensures { MatchOption result ((rest : Text) → path.now ≡ 47 ∷ rest → ⊥)
        (λ rest. path.now ≡ 47 ∷ rest.now) }
{
    match path.as_bytes() {
        [b'/', rest @ ..] => Some(rest),
        _ => None,
    }
}

/// Whether a path from `/` on is that of the storage root.
fn is_path(folder: &str, root: &Place) -> bool
    ensures { IsTrue result ↔ (folder.now ≡ from_top root.now) }
{
    match below_top(folder) {
        Some(path) => path == root.path().as_bytes(),
        None => false,
    }
}

/// Whether a path that leads nowhere would be that of the storage root: by its text, or by the
/// folder that it is in.
fn would_be<R: Files + AllocGlobal>(rt: &R, path: &str, root: &Place) -> bool {
    let path = path.trim_end_matches('/');
    let Some((_, name)) = path.rsplit_once('/') else {
        return false;
    };
    match path_of(rt, folder_of(path)) {
        Ok(Some(above)) => is_last_of(above.as_path().as_str(), name, root),
        _ => is_path(path, root),
    }
}

/// Whether a name in a folder, by its path from `/` on, is the last one of the storage root's path.
fn is_last_of(folder: &str, name: &str, root: &Place) -> bool
    ensures { IsTrue result ↔ IsLastOf folder.now name.now root.now }
{
    match (below_top(folder), root.split_last()) {
        (Some(path), Some((above, last))) => name == last && path == above.as_bytes(),
        _ => false,
    }
}

/// Whether the nights of a folder read the storage root with this path, as far as can be told: a
/// link that leads nowhere may lead to it.
pub(crate) fn is_of_root<R, F>(rt: &R, folder: &mut F, path: &str) -> bool
where
    R: Files + AllocGlobal,
    F: Folder,
    ensures { IsTrue F.shown → IsTrue result
        → (root : ModelPlace) × IsRootBy (F.holding folder.old).checkpoint root }
{
    match own_root(rt.alloc(), folder) {
        Some(root) => leads_to(rt, path, &root),
        None => false,
    }
}

/// Whether a path leads to the storage root, or may do so.
fn leads_to<R: Files + AllocGlobal>(rt: &R, path: &str, root: &Place) -> bool {
    match path_of(rt, path) {
        Ok(Some(resolved)) => is_path(resolved.as_path().as_str(), root),
        Ok(None) => is_there(rt, path) || would_be(rt, path, root),
        Err(_) => false,
    }
}
