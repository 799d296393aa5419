//! Which storage root a night reads, and which part of it.
ghost use Rattle.std.specs.Prelude.{◌≡◌, IfOk};
ghost use Rattle.ocfl_terminal.specs.Chosen.{AreEndsOf, part_number};

use crate::scope::read_scope;
use ocfl_arguments::Chosen;
use ocfl_cursor::PartEnds;
use ocfl_files::failing::Failure;
use ocfl_messages::{RefusalMessage, Shown, refusal_text};
use ocfl_scope::Scope;
use ocfl_tree::Place;
use std::alloc::{AllocError, Global};
use std::rt::Files;
use std::{fs, io};

/// A storage root by its path, as the system resolves it.
#[derive(Drop)]
pub struct Root {
    /// The path, from `/` on.
    pub path: String,
    /// The names in it.
    pub place: Place,
}

/// The storage root with a path. `state` is the path of the state folder.
pub fn find_root<R>(rt: &R, root: &str, state: &str) -> Result<Root, Failure>
where
    R: Files + AllocGlobal,
{
    match fs::canonicalize(rt, root) {
        Ok(path) => root_at(rt.alloc(), path.as_path().as_str()),
        Err(error) => Err(Failure::made(unresolved(rt.alloc(), root, state, &error))),
    }
}

/// The storage root with a path from `/` on, as the system resolved it.
fn root_at(alloc: Global, path: &str) -> Result<Root, Failure> {
    match Place::from_path(String::from_str(alloc, path.strip_prefix('/').unwrap_or(path))?) {
        Some(place) => Ok(Root {
            path: String::from_str(alloc, path)?,
            place,
        }),
        None => Err(Failure::usage(format!(in alloc;
            "{} is not a path of names in UTF-8\n",
            Shown(path)
        )?)),
    }
}

/// Why a storage root's path was not resolved.
fn unresolved(
    alloc: Global,
    root: &str,
    state: &str,
    error: &io::Error,
) -> Result<Failure, AllocError> {
    if error.kind() == io::ErrorKind::NotFound {
        return Ok(Failure::stopped(refusal_text(alloc, RefusalMessage::NoRoot, root, state)?));
    }
    Ok(Failure::stopped(format!(in alloc; "{}: {error}. Nothing was run.\n", Shown(root))?))
}

/// The ends of the part that is chosen. `None` if all of the root is.
pub fn find_ends<R>(rt: &R, chosen: &Chosen) -> Result<Option<PartEnds>, Failure>
where
    R: Files + AllocGlobal,
    ensures { IfOk result (AreEndsOf chosen.now) }
{
    match read_scope(rt, chosen) {
        Ok(Scope::Part(ends)) => Ok(Some(ends)),
        Ok(Scope::Whole | Scope::Branch(_)) => Ok(None),
        Err(stop) => Err(Failure {
            status: stop.status(),
            text: Some(format!(in rt.alloc(); "{stop}\n")?),
        }),
    }
}

/// The number of the part that is chosen. `None` if all of the root is.
pub fn part_number(chosen: &Chosen) -> Option<u64>
    ensures { result ≡ part_number chosen.now }
{
    match chosen {
        Chosen::Part { number, .. } => Some(*number as u64),
        Chosen::All | Chosen::Branch(_) => None,
    }
}
