//! Paths: the names of a place in one text, with `/` between them.
ghost use Rattle.std.specs.Prelude.{◌≡◌, ◌≤◌, ◌+◌, ◌==◌, ◌↔◌, ◌∷◌, ◌++◌, [], length, IsTrue, IfOk, OnOk, OnErr, MatchOption, string_bytes, take, drop};
ghost use Rattle.std.specs.List.{list_all, list_any, count_by};
ghost use Rattle.ocfl_tree.specs.Name.{IsName, IsPlace};
ghost use Rattle.ocfl_tree.specs.Path.{elements, names_of, below, joined, fits as fits_name};

use crate::name::Name;
use std::alloc::{AllocError, Global};

/// Whether a text without `/` and NUL is a name.
fn fits(text: &str) -> bool
    ensures { result ≡ fits_name text.now }
{
    !text.is_empty() && text.len() <= 255 && text != "." && text != ".."
}

fn all_fit(path: &str) -> bool
    ensures { result ≡ list_all fits_name (elements path.now) }
{
    path.split('/').all(|name| fits(name))
}

fn has_zero(path: &[u8]) -> bool
    ensures { result ≡ list_any (λ b. b == 0) path.now }
{
    path.contains(&0)
}

/// Whether a text is the path of a place.
pub(crate) fn is_path(path: &str) -> bool
    ensures { IsTrue result ↔ IsPlace (names_of path.now) }
{
    // NUL is sought once in all names, which is faster than in each.
    path.is_empty() || !has_zero(path.as_bytes()) && all_fit(path)
}

fn slashes(path: &[u8]) -> usize
    ensures { result ≡ count_by (λ b. b == 47) path.now }
{
    path.iter().filter(|byte| **byte == b'/').count()
}

/// How many names a path has.
#[tactic(auto, using(crate::proofs::Paths::names_length))]
pub(crate) fn count(path: &str) -> usize
    ensures { result ≡ length (names_of path.now) }
{
    if path.is_empty() {
        0
    } else {
        slashes(path.as_bytes()) + 1
    }
}

/// The names of a path.
pub(crate) fn names(alloc: Global, path: &str) -> Result<Vec<Name>, AllocError>
    requires { IsPlace (names_of path.now) }
    ensures { IfOk result (λ names. names.items ≡ names_of path.now) }
{
    let mut names = Vec::with_capacity(alloc, count(path))?;
    if path.is_empty() {
        return Ok(names);
    }
    for name in path.split('/') {
        names.push(Name::of(alloc, name)?)?;
    }
    Ok(names)
}

/// Appends a name to a path. The only error is running out of memory, which leaves the path
/// as it was.
pub(crate) fn push(path: &mut String, name: &str) -> Result<(), AllocError>
    requires { length name.now ≤ 255 }
    ensures ok { OnOk result (string_bytes path.new ≡ below (string_bytes path.old) name.now) }
    ensures err { OnErr result (string_bytes path.new ≡ string_bytes path.old) }
{
    // After this nothing fails, so that a path never ends in a slash.
    path.reserve(name.len() + 1)?;
    if !path.is_empty() {
        path.push('/')?;
    }
    path.push_str(name)
}

/// The path of the directory that a place is in, and the place's name there.
pub(crate) fn split_last(path: &str) -> Option<(&str, &str)>
    requires { IsPlace (names_of path.now) }
    ensures { MatchOption result (names_of path.now ≡ [])
        (λ p. (names_of path.now ≡ names_of p.0.now ++ p.1.now ∷ []) × IsName p.1.now) }
{
    if path.is_empty() {
        return None;
    }
    match path.rsplit_once('/') {
        Some((parent, name)) => Some((parent, name)),
        None => Some(("", path)),
    }
}

/// The first name of a path, and the path that leads on from there.
fn split_first(path: &str) -> Option<(&str, &str)>
    requires { IsPlace (names_of path.now) }
    ensures { MatchOption result (names_of path.now ≡ [])
        (λ p. names_of path.now ≡ p.0.now ∷ names_of p.1.now) }
{
    if path.is_empty() {
        return None;
    }
    match path.split_once('/') {
        Some((name, rest)) => Some((name, rest)),
        None => Some((path, "")),
    }
}

/// What follows the first `names` names of a path.
pub(crate) fn behind(path: &str, names: usize) -> &str
    requires { IsPlace (names_of path.now) }
    ensures { names_of result.now ≡ drop names (names_of path.now) }
{
    let mut rest = path;
    for _ in 0..names {
        match split_first(rest) {
            Some((_, more)) => rest = more,
            None => return rest,
        }
    }
    rest
}

/// The path of the first `names` names.
pub(crate) fn front(path: &str, names: usize) -> &str
    requires { IsPlace (names_of path.now) }
    ensures { names_of result.now ≡ take names (names_of path.now) }
{
    let mut front = path;
    for _ in 0..count(path).saturating_sub(names) {
        match split_last(front) {
            Some((parent, _)) => front = parent,
            None => return front,
        }
    }
    front
}

/// The path that leads along one path, and from there along another, in one allocation.
pub(crate) fn join(alloc: Global, path: &str, more: &str) -> Result<String, AllocError>
    ensures { IfOk result (λ joined_path. string_bytes joined_path ≡ joined path.now more.now) }
{
    if path.is_empty() {
        return String::from_str(alloc, more);
    }
    if more.is_empty() {
        return String::from_str(alloc, path);
    }
    let mut whole = String::with_capacity(alloc, path.len() + 1 + more.len())?;
    whole.push_str(path)?;
    whole.push('/')?;
    whole.push_str(more)?;
    Ok(whole)
}
