//! That nothing is written into a storage root: the state folder and the root lie apart.
ghost use Rattle.std.specs.Prelude.{◌↔◌, IsTrue};
ghost use Rattle.std.specs.Path.{path_bytes};
ghost use Rattle.ocfl_given.specs.Overlap.{IsApart, Overlap};

use crate::refusing::{no_memory, refusal_of};
use ocfl_files::failing::Failure;
use ocfl_files::files::{lies_inside, path_of};
use std::alloc::Global;
use std::io;
use std::path::Path;
use std::rt::Files;

/// Whether one of two folders is the other, or lies in it, by their paths from `/` on, without
/// links.
pub fn overlap(one: Path<'_>, other: Path<'_>) -> bool
    ensures { IsTrue result ↔ Overlap (path_bytes one.entry) (path_bytes other.entry) }
{
    one.starts_with(other) || other.starts_with(one)
}

/// Whether the state folder and the storage root lie apart. `root` is resolved. A state folder that
/// is not there yet would be in the folder that its path names.
fn are_apart<R: Files + AllocGlobal>(rt: &R, state: &str, root: &str) -> io::Result<bool> {
    match path_of(rt, state)? {
        Some(folder) => Ok(!overlap(folder.as_path(), Path::new(root))),
        None => Ok(!lies_inside(rt, state.trim_end_matches('/'), root)?),
    }
}

/// Refuses folders of which this is known: whether they lie apart.
#[tactic(auto, using(crate::proofs::Refusals::refuses))]
fn refuse_by(alloc: Global, are_apart: io::Result<bool>) -> Result<(), Failure>
    ensures { IsApart are_apart result }
{
    match are_apart {
        Ok(true) => Ok(()),
        Ok(false) => Err(refusal_of(format!(in alloc;
            "the state folder must not be inside the storage root, or contain it: nothing is \
             written into a storage root\n"
        ))),
        Err(_) => Err(no_memory()),
    }
}

/// Refuses a state folder in the storage root, and a storage root in the state folder.
pub(crate) fn refuse_overlap<R>(rt: &R, state: &str, root: &str) -> Result<(), Failure>
where
    R: Files + AllocGlobal,
{
    refuse_by(rt.alloc(), are_apart(rt, state, root))
}
