//! Storage roots and objects in them.
use crate::tests::common::digests::with_digests;
use crate::tests::common::store::{put, put_dir};
use ocfl_memory::MemTree;
use sha2::{Digest, Sha256, Sha512};
use std::alloc::Global;
use std::test::Fail;

/// The content file of the object `o`.
pub const FILE: &str = "o/v1/content/f";

/// What lists it in a manifest, with the bytes `abc`.
pub const LISTS_F: &str = r#""ABC_SHA256":["v1/content/f"]"#;

/// What else may be where it is listed: a name, what is put there, and the first line of its
/// place. A directory with something in it is no item.
pub const NO_FILE: [(&str, &[(&str, &str)], &str); 4] = [
    ("nothing", &[], ""),
    (
        "a link",
        &[("o/v1/content/f@", "")],
        "S04|o/v1/content/f|-\n",
    ),
    (
        "a directory without files",
        &[("o/v1/content/f/", "")],
        "E024|o/v1/content/f|-\n",
    ),
    (
        "a directory with a directory",
        &[("o/v1/content/f/g/", "")],
        "",
    ),
];

// The files of the object as a whole.
pub const DECLARATION: &str = "o/0=ocfl_object_1.1";

pub const INVENTORY: &str = "o/inventory.json";

pub const SHORT_SIDECAR: &str = "o/inventory.json.sha256";

pub const LONG_SIDECAR: &str = "o/inventory.json.sha512";

/// A storage root with nothing else in it.
pub fn bare_root(alloc: Global) -> Result<MemTree, Fail> {
    let mut store = MemTree::new(alloc);
    put(alloc, &mut store, "0=ocfl_1.1", b"ocfl_1.1\n")?;
    Ok(store)
}

/// An inventory with these members among its own, in which digests may be named.
pub fn inventory(alloc: Global, members: &str) -> Result<String, Fail> {
    let members = with_digests(alloc, members)?;
    Ok(format!(in alloc;
        "{{\"id\":\"o\",\"type\":\"https://ocfl.io/1.1/spec/#inventory\",{members},\"head\":\"v1\",\"versions\":{{}}}}"
    )?)
}

/// An inventory by sha256 with this manifest and this fixity block, without their braces.
pub fn listing(alloc: Global, manifest: &str, fixity: &str) -> Result<String, Fail> {
    let members = format!(in alloc;
        "\"digestAlgorithm\":\"sha256\",\"manifest\":{{{manifest}}},\"fixity\":{{{fixity}}}"
    )?;
    inventory(alloc, members.as_str())
}

/// The digits of a right sidecar by sha256.
pub fn short_digits(alloc: Global, inventory: &[u8]) -> Result<String, Fail> {
    Ok(hex::encode(alloc, Sha256::digest(inventory))?)
}

/// The text of a right sidecar by sha512.
pub fn long_sidecar(alloc: Global, inventory: &str) -> Result<String, Fail> {
    let digits = hex::encode(alloc, Sha512::digest(inventory.as_bytes()))?;
    Ok(format!(in alloc; "{digits} inventory.json\n")?)
}

/// Puts a file of this name and text into an object.
fn put_in(
    alloc: Global,
    store: &mut MemTree,
    object: &str,
    name: &str,
    text: &str,
) -> Result<(), Fail> {
    let path = format!(in alloc; "{object}/{name}")?;
    put(alloc, store, path.as_str(), text.as_bytes())
}

/// Puts an object with this inventory, a right sidecar of it by sha256, and no content.
pub fn put_object(
    alloc: Global,
    store: &mut MemTree,
    object: &str,
    inventory: &str,
) -> Result<(), Fail> {
    let digits = short_digits(alloc, inventory.as_bytes())?;
    let sidecar = format!(in alloc; "{digits} inventory.json\n")?;
    put_in(
        alloc,
        store,
        object,
        "0=ocfl_object_1.1",
        "ocfl_object_1.1\n",
    )?;
    put_in(alloc, store, object, "inventory.json", inventory)?;
    put_in(
        alloc,
        store,
        object,
        "inventory.json.sha256",
        sidecar.as_str(),
    )
}

/// A storage root whose object `o` has this inventory, a right sidecar of it, and no content.
pub fn object_without_files(alloc: Global, inventory: &str) -> Result<MemTree, Fail> {
    let mut store = bare_root(alloc)?;
    put_object(alloc, &mut store, "o", inventory)?;
    put_dir(alloc, &mut store, "o/v1/content")?;
    Ok(store)
}

/// That root, with a content file `f` of the bytes `abc`.
pub fn object_with(alloc: Global, inventory: &str) -> Result<MemTree, Fail> {
    let mut store = object_without_files(alloc, inventory)?;
    put(alloc, &mut store, FILE, b"abc")?;
    Ok(store)
}

/// A storage root whose object `o` has a manifest that lists these paths under the digest of `abc`,
/// and no content.
pub fn object_listing(alloc: Global, paths: &str) -> Result<MemTree, Fail> {
    let manifest = format!(in alloc; "\"ABC_SHA256\":[{paths}]")?;
    object_without_files(alloc, listing(alloc, manifest.as_str(), "")?.as_str())
}

/// Puts an object that lists its file `f` of the bytes `abc`: all of it is right.
pub fn put_right_object(alloc: Global, store: &mut MemTree, object: &str) -> Result<(), Fail> {
    let inventory = listing(alloc, LISTS_F, "")?;
    put_object(alloc, store, object, inventory.as_str())?;
    let file = format!(in alloc; "{object}/v1/content/f")?;
    put(alloc, store, file.as_str(), b"abc")
}
