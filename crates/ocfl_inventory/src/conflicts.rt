//! Listed paths that are repeated, or that another one begins with.
ghost use Rattle.std.specs.{Prelude.{◌≡◌, nat_eq, true, IfOk, map}, List.{starts_with}};
ghost use Rattle.std.specs.List.Sorted.{IsSorted};
ghost use Rattle.ocfl_tree.specs.Place.{begins as begins_place};
ghost use Rattle.ocfl_inventory.specs.{Internal.Beside.{hits}, Notes.{conflicts as conflicts_of}};
ghost use Rattle.ocfl_inventory.specs.Table.{triple_cmp};

use crate::triple::Triple;
use ocfl_tree::Place;
use std::alloc::{AllocError, Global};

/// Whether a path may begin another, as its last bytes tell: those beside each other share most of
/// the first ones.
fn may_begin(path: &[u8], other: &[u8]) -> bool
    ensures { starts_with nat_eq other.now path.now ≡ true → result ≡ true }
{
    if other.len() < path.len() {
        return false;
    }
    let from = path.len().saturating_sub(16);
    path[from..] == other[from..path.len()]
}

/// Whether the path of a triple begins that of another, or is it.
fn begins(triple: &Triple, other: &Triple) -> bool
    ensures { result ≡ begins_place triple.now.path other.now.path }
{
    let (path, beside) = (triple.path(), other.path());
    may_begin(path.path().as_bytes(), beside.path().as_bytes()) && beside.starts_with(path)
}

/// The paths that begin the next triple's, or are it.
fn beginnings(alloc: Global, triples: &[Triple]) -> Result<Vec<Place>, AllocError>
    ensures { IfOk result (λ v. v.items ≡ hits begins_place (map (λ e. e.path) triples.now)) }
{
    let mut found = Vec::new(alloc);
    for i in 1..triples.len() {
        if begins(&triples[i - 1], &triples[i]) {
            found.push(triples[i - 1].path().try_clone()?)?;
        }
    }
    Ok(found)
}

/// The paths of sorted triples that conflict, in order, each once. In order a path comes just
/// before those that it begins, so that only neighbours are compared.
pub(crate) fn conflicts(alloc: Global, triples: &[Triple]) -> Result<Vec<Place>, AllocError>
    requires { IsSorted triple_cmp triples.now }
    ensures { IfOk result (λ v. v.items ≡ conflicts_of (map (λ e. e.path) triples.now)) }
{
    let mut found = beginnings(alloc, triples)?;
    found.dedup();
    Ok(found)
}
