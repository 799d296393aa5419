//! What a tree in memory holds at its places.
ghost use Rattle.std.specs.Prelude.{◌≡◌, ◌≢◌, ℕ, ◌<◌, ◌≤◌, ◌++◌, ◌∷◌, [], List, take, IsTrue, ◌↔◌, IfOk, OnOk, OnErr, IfSome, IsNone, IsOkUnless, MatchOption, None, Some, Err, length, not, is_some};
ghost use Rattle.std.specs.{List.{filter}, Option.{option_map}};
ghost use Rattle.ocfl_tree.specs.{Place.{begins, child_name}, StorageRoot.{file, dir, lookup}};
ghost use Rattle.ocfl_tree.specs.{Listing.{kind_of}, Name.{IsName}, Path.{names_of}};
ghost use Rattle.ocfl_memory.specs.MemTree.{parent};
ghost use Rattle.ocfl_memory.specs.Internal.Nodes.{leaf_of, bytes_in, leaf_at, stands_at, kept_in, kept_refusal};

use crate::build::BuildStop;
use ocfl_folder::{Node as NodeId, Seen};
use ocfl_tree::{Entry, Kind, MAX_ENTRIES, Name, Place, Trouble};
use std::alloc::{AllocError, Global};
use std::marker::Model;

/// What is at a place, as it is kept.
#[derive(Debug, Drop)]
pub(crate) enum Node {
    File(Vec<u8>),
    Dir,
    Other,
}

/// What is at a place.
#[derive(Debug, Drop)]
pub(crate) struct Stored {
    node: Node,
}

impl Model for Stored {
    ghost use Rattle.ocfl_tree.specs.{StorageRoot.{Leaf}, Name.{IsName}, Path.{names_of}};
    ghost use Rattle.ocfl_memory.specs.Internal.Nodes.{leaf_of};

    ghost Value = { Leaf };

    ghost view = { λ a. leaf_of a.node };
}

impl Stored {
    pub(crate) fn new(node: Node) -> Stored
        ensures { result ≡ leaf_of node }
    {
        Stored { node }
    }

    pub(crate) fn kind(&self) -> Kind
        ensures { result ≡ kind_of self.now }
    {
        match &self.node {
            Node::File(_) => Kind::File,
            Node::Dir => Kind::Dir,
            Node::Other => Kind::Other,
        }
    }

    /// The bytes of a file, and of anything else none.
    pub(crate) fn bytes(&self) -> &[u8]
        ensures { result.now ≡ bytes_in self.now }
    {
        match &self.node {
            Node::File(bytes) => bytes.as_slice(),
            Node::Dir | Node::Other => &[],
        }
    }
}

/// The index of what is at the place with this path.
pub(crate) fn position(nodes: &[(Place, Stored)], path: &str) -> Option<usize>
    ensures { MatchOption result (lookup nodes.now (names_of path.now) ≡ None)
        (λ i. (i < length nodes.now) × (lookup nodes.now (names_of path.now)
        ≡ Some (leaf_at nodes.now i))) }
{
    for (i, node) in nodes.iter().enumerate() {
        if node.0.path() == path {
            return Some(i);
        }
    }
    None
}

/// Whether a directory is at the place with this path.
pub(crate) fn is_dir(nodes: &[(Place, Stored)], path: &str) -> bool
    ensures { IsTrue result ↔ (stands_at nodes.now (names_of path.now) ≡ Some dir) }
{
    if path.is_empty() {
        return true;
    }
    match position(nodes, path) {
        Some(i) => nodes[i].1.kind() == Kind::Dir,
        None => false,
    }
}

/// The name of a place that is right below the directory with this path.
fn child<'a>(dir: &str, place: &'a Place) -> Option<&'a str>
    ensures { MatchOption result (child_name (names_of dir.now) place.now ≡ None)
        (λ name. (child_name (names_of dir.now) place.now ≡ Some name.now) × IsName name.now) }
{
    let (parent, name) = place.split_last()?;
    if parent == dir { Some(name) } else { None }
}

/// The entry with this name for what is stored.
fn entry_of(alloc: Global, name: &str, stored: &Stored) -> Result<Entry, AllocError>
    requires { IsName name.now }
    ensures { IfOk result (λ entry. entry ≡ record { name = name.now; kind = kind_of stored.now }) }
{
    match Name::new(alloc, name) {
        Ok(name) => Ok(Entry {
            name,
            kind: stored.kind(),
        }),
        Err(_) => Err(AllocError),
    }
}

/// The entries of the directory with this path.
pub(crate) fn entries(
    alloc: Global,
    nodes: &[(Place, Stored)],
    dir: &str,
) -> Result<Vec<Entry>, AllocError>
    ensures { IfOk result (λ entries. entries.items ≡ kept_in nodes.now (names_of dir.now)) }
{
    let mut entries = Vec::new(alloc);
    for (place, stored) in nodes {
        let Some(name) = child(dir, place) else {
            continue;
        };
        let entry = entry_of(alloc, name, stored)?;
        entries.push(entry)?;
    }
    Ok(entries)
}

/// How many entries the directory with this path has.
pub(crate) fn count(nodes: &[(Place, Stored)], dir: &str) -> usize
    ensures { result ≡ length (kept_in nodes.now (names_of dir.now)) }
{
    let mut count = 0;
    for (place, _) in nodes {
        if let Some(_) = child(dir, place) {
            count += 1;
        }
    }
    count
}

/// Lists a directory, and notes the listing.
pub(crate) fn list(
    alloc: Global,
    nodes: &[(Place, Stored)],
    listings: &mut Vec<Place>,
    place: &Place,
) -> Result<Vec<Entry>, Trouble>
    ensures ok { IfOk result (λ entries. (stands_at nodes.now place.now ≡ Some dir)
        × (entries.items ≡ kept_in nodes.now place.now)
        × (listings.new.items ≡ listings.old.items ++ place.now ∷ [])) }
    ensures err { OnErr result (listings.new.items ≡ listings.old.items) }
    ensures absent { result ≡ Err Trouble.Absent → stands_at nodes.now place.now ≢ Some dir }
    ensures no_device { result ≢ Err Trouble.Device }
{
    if !is_dir(nodes, place.path()) {
        return Err(Trouble::Absent);
    }
    let entries = entries(alloc, nodes, place.path())?;
    listings.push(place.try_clone()?)?;
    Ok(entries)
}

/// The index of the file at a place.
pub(crate) fn file_index(nodes: &[(Place, Stored)], place: &Place) -> Option<usize>
    ensures some { IfSome result (λ i. (i < length nodes.now)
        × (stands_at nodes.now place.now ≡ Some (file (bytes_in (leaf_at nodes.now i))))) }
    ensures none { IsNone result → (bytes : List ℕ)
        → stands_at nodes.now place.now ≢ Some (file bytes) }
{
    if place.path().is_empty() {
        return None;
    }
    let index = position(nodes, place.path())?;
    match nodes[index].1.kind() {
        Kind::File => Some(index),
        Kind::Dir | Kind::Other => None,
    }
}

/// What a look at a place sees there. Its number is that of its node, and 0 for the root.
pub(crate) fn seen(nodes: &[(Place, Stored)], place: &Place) -> Option<Seen>
    ensures { MatchOption result (stands_at nodes.now place.now ≡ None)
        (λ seen. option_map kind_of (stands_at nodes.now place.now) ≡ Some seen.kind) }
{
    if place.path().is_empty() {
        return Some(seen_as(Kind::Dir, 0));
    }
    let index = position(nodes, place.path())?;
    Some(seen_as(nodes[index].1.kind(), index + 1))
}

/// What a look sees of a node of this kind and number.
fn seen_as(kind: Kind, number: usize) -> Seen
    ensures { result.kind ≡ kind }
{
    let number = number as u64;
    Seen {
        kind,
        node: NodeId {
            device: 0,
            number,
            made: None,
        },
    }
}

/// The bytes of the file at a place, and of anything else none.
pub(crate) fn bytes<'a>(nodes: &'a [(Place, Stored)], place: &Place) -> &'a [u8]
    ensures { (bytes : List ℕ) → stands_at nodes.now place.now ≡ Some (file bytes)
        → result.now ≡ bytes }
{
    match file_index(nodes, place) {
        Some(index) => nodes[index].1.bytes(),
        None => &[],
    }
}

/// Copies that many bytes to the front of the buffer.
pub(crate) fn give(bytes: &[u8], count: usize, buffer: &mut [u8])
    requires enough { count ≤ length bytes.now }
    requires room { count ≤ length buffer.old }
    ensures { take count buffer.new ≡ take count bytes.now }
{
    buffer[..count].copy_from_slice(&bytes[..count]);
}

/// Puts what is there at a place.
pub(crate) fn put(
    nodes: &mut Vec<(Place, Stored)>,
    place: &Place,
    stored: Stored,
) -> Result<(), BuildStop>
    ensures ok { OnOk result (nodes.new.items ≡ nodes.old.items ++ (place.now, stored) ∷ []) }
    ensures err { OnErr result (nodes.new.items ≡ nodes.old.items) }
    ensures refused { MatchOption (kept_refusal nodes.old.items place.now)
        (IsOkUnless result BuildStop.Memory) (λ stop. result ≡ Err stop) }
{
    if stands(nodes, place) {
        return Err(BuildStop::Exists);
    }
    let parent = parent(place);
    if !is_dir(nodes, parent) {
        return Err(BuildStop::NoParent);
    }
    if count(nodes, parent) >= MAX_ENTRIES {
        return Err(BuildStop::Full);
    }
    let Ok(place) = place.try_clone() else {
        return Err(BuildStop::Memory);
    };
    match nodes.push((place, stored)) {
        Ok(()) => Ok(()),
        Err(_) => Err(BuildStop::Memory),
    }
}

/// The path of the directory that a place is in, and for the root its own.
fn parent(place: &Place) -> &str
    ensures { names_of result.now ≡ parent place.now }
{
    match place.split_last() {
        Some((parent, _)) => parent,
        None => "",
    }
}

/// Whether something is at a place.
pub(crate) fn stands(nodes: &[(Place, Stored)], place: &Place) -> bool
    ensures { result ≡ is_some (stands_at nodes.now place.now) }
{
    place.path().is_empty() || position(nodes, place.path()).is_some()
}

/// Takes a place away with all below it.
pub(crate) fn remove(nodes: &mut Vec<(Place, Stored)>, place: &Place)
    ensures { nodes.new.items ≡ filter (λ e. not (begins place.now e.0)) nodes.old.items }
{
    nodes.retain(|node| !node.0.starts_with(place));
}
