//! A storage root in a folder of the file system, against the same tree in memory.
use crate::tests::common::Runtime;
use crate::tests::common::store::{change, place_of, put};
use crate::tests::tree::{lists, sorted, whole};
use ocfl_folder::{FsTree, WholePaths};
use ocfl_memory::MemTree;
use ocfl_tree::{Place, Tree, Trouble};
use std::alloc::Global;
use std::fs;
use std::os::unix;
use std::test::Fail;

mod exchange;
mod fake;
mod over_memory;
mod system;
mod way;

/// Bytes that do not repeat soon.
fn many(alloc: Global) -> Result<Vec<u8>, Fail> {
    let mut bytes = Vec::with_capacity(alloc, 200_000)?;
    for i in 0..200_000u32 {
        bytes.push((i % 251) as u8)?;
    }
    Ok(bytes)
}

/// The files and directories of a folder, a text in each file, and the links.
const ENTRIES: [(&str, &str); 5] = [
    ("d/", ""),
    ("d/inner/", ""),
    ("a-b", "abc"),
    ("empty", ""),
    ("d/inner/é", "x"),
];

const LINKS: [(&str, &str); 3] = [
    ("to_file", "a-b"),
    ("to_dir", "d"),
    ("to_nothing", "nowhere"),
];

/// Makes a folder with these entries and links, and with the file `big`.
fn filled<'a>(rt: &'a HostRuntime, top: &str) -> Result<FsTree<WholePaths<'a, HostRuntime>>, Fail> {
    let alloc = rt.alloc();
    if fs::exists(rt, top)? {
        fs::remove_dir_all(rt, top)?;
    }
    fs::create_dir(rt, top)?;
    for (name, text) in ENTRIES {
        let path = format!(in alloc; "{top}/{name}")?;
        if path.ends_with('/') {
            fs::create_dir(rt, path.as_str())?;
        } else {
            fs::write(rt, path.as_str(), text)?;
        }
    }
    for (name, target) in LINKS {
        unix::fs::symlink(rt, target, format!(in alloc; "{top}/{name}")?.as_str())?;
    }
    let path = format!(in alloc; "{top}/big")?;
    fs::write(rt, path.as_str(), many(alloc)?.as_slice())?;
    Ok(FsTree::at(rt, top)?)
}

/// The same tree in memory.
fn same_in_memory(alloc: Global) -> Result<MemTree, Fail> {
    let mut store = MemTree::new(alloc);
    change(alloc, &mut store, &ENTRIES)?;
    put(alloc, &mut store, "big", many(alloc)?.as_slice())?;
    for (link, _) in LINKS {
        store.put_other(&place_of(alloc, link)?)?;
    }
    Ok(store)
}

#[test]
fn both_stores_hold_the_same(rt: HostRuntime) -> Result<(), Fail> {
    let mut folder = filled(&rt, "both")?;
    let mut memory = same_in_memory(rt.alloc())?;
    lists(
        &rt,
        "all kinds of entries",
        &mut folder,
        &Place::root(rt.alloc()),
        "a-b File;big File;d Dir;empty File;to_dir Other;to_file Other;to_nothing Other;",
    )?;
    for path in ["", "d", "d/inner"] {
        let dir = place_of(rt.alloc(), path)?;
        let (found, want) = (sorted(&mut folder, &dir)?, sorted(&mut memory, &dir)?);
        assert_eq!(rt; found, want, "{path}");
    }
    for path in ["a-b", "big", "empty", "d/inner/é"] {
        let file = place_of(rt.alloc(), path)?;
        let (found, lengths) = whole(rt.alloc(), &mut folder, &file)?;
        let (want, _) = whole(rt.alloc(), &mut memory, &file)?;
        assert!(rt; found == want && !lengths.is_empty(), "{path}");
    }
    fs::remove_dir_all(&rt, "both")?;
    Ok(())
}

/// Paths, and what their listing and their opening stop with; nothing if they do not stop.
const TROUBLES: [(&str, Option<Trouble>, Option<Trouble>); 10] = [
    // links, and what is below them or below a file
    ("to_file", Some(Trouble::Device), Some(Trouble::Device)),
    ("to_dir", Some(Trouble::Device), Some(Trouble::Device)),
    ("to_nothing", Some(Trouble::Device), Some(Trouble::Device)),
    ("to_dir/inner", Some(Trouble::Device), Some(Trouble::Device)),
    (
        "to_dir/inner/é",
        Some(Trouble::Device),
        Some(Trouble::Device),
    ),
    ("a-b/x", Some(Trouble::Device), Some(Trouble::Device)),
    // what is not there, and what is of another kind
    ("d/missing", Some(Trouble::Absent), Some(Trouble::Absent)),
    ("d", None, Some(Trouble::Device)),
    ("", None, Some(Trouble::Device)),
    ("a-b", Some(Trouble::Device), None),
];

#[test]
fn troubles_close_the_open_file(rt: HostRuntime) -> Result<(), Fail> {
    let mut folder = filled(&rt, "troubles")?;
    let file = place_of(rt.alloc(), "a-b")?;
    let mut buffer = [0; 9];
    for (path, list, open) in TROUBLES {
        let place = place_of(rt.alloc(), path)?;
        folder.open(&file)?;
        assert_eq!(rt; folder.list(&place).err(), list, "{path}");
        let is_closed = list.is_none() || folder.read(&mut buffer) == Err(Trouble::Absent);
        assert!(rt; is_closed, "after listing {path}");
        folder.open(&file)?;
        assert_eq!(rt; folder.open(&place).err(), open, "{path}");
        let is_closed = open.is_none() || folder.read(&mut buffer) == Err(Trouble::Absent);
        assert!(rt; is_closed, "after opening {path}");
    }
    fs::remove_dir_all(&rt, "troubles")?;
    Ok(())
}

#[test]
fn a_closed_file_gives_nothing(rt: HostRuntime) -> Result<(), Fail> {
    let mut folder = filled(&rt, "closed")?;
    let mut buffer = [0; 9];
    folder.open(&place_of(rt.alloc(), "a-b")?)?;
    assert_eq!(rt; folder.read(&mut buffer), Ok(3));
    assert_eq!(rt; folder.read(&mut buffer), Ok(0));
    folder.close();
    assert_eq!(rt; folder.read(&mut buffer), Err(Trouble::Absent));
    fs::remove_dir_all(&rt, "closed")?;
    Ok(())
}

/// Reads of a file of 3 bytes: the room of each, what each gives until the file grows by one byte,
/// and what reads with a room of 4 give from then on.
const GROWS: [(&str, usize, &[usize], &[usize]); 5] = [
    ("before any read", 3, &[], &[4, 0]),
    ("after a read that met the end", 4, &[3], &[0, 0]),
    ("after a read that filled its buffer", 3, &[3], &[1, 0]),
    ("after a part of it", 2, &[2], &[2, 0]),
    ("after a part and the end", 2, &[2, 1], &[0, 0]),
];

/// Reads with this room, and how many bytes each gives.
fn expect_reads<T: Tree>(
    rt: &impl Runtime,
    row: &str,
    store: &mut T,
    room: usize,
    counts: &[usize],
) -> Result<(), Fail> {
    let mut buffer = [0; 4];
    let room = room.min(buffer.len());
    for want in counts {
        assert_eq!(rt; store.read(&mut buffer[..room]), Ok(*want), "{row}");
    }
    Ok(())
}

#[test]
fn a_file_ends_where_a_read_met_its_end(rt: HostRuntime) -> Result<(), Fail> {
    let mut folder = filled(&rt, "grows")?;
    let file = place_of(rt.alloc(), "a-b")?;
    for (row, room, before, after) in GROWS {
        fs::write(&rt, "grows/a-b", "abc")?;
        folder.open(&file)?;
        expect_reads(&rt, row, &mut folder, room, before)?;
        fs::write(&rt, "grows/a-b", "abcd")?;
        let row = format!(in rt.alloc(); "{row}, after it grew")?;
        expect_reads(&rt, row.as_str(), &mut folder, 4, after)?;
    }
    fs::remove_dir_all(&rt, "grows")?;
    Ok(())
}

#[test]
fn folders_that_cannot_be_listed(rt: HostRuntime) -> Result<(), Fail> {
    let mut folder = filled(&rt, "limit")?;
    let top = Place::root(rt.alloc());
    // Such a path is longer than the system takes, and one below a folder is not there.
    let long = format!(in rt.alloc(); "limit{}", "/.".repeat(rt.alloc(), 5_000)?)?;
    let name = format!(in rt.alloc(); "{}/", "d".repeat(rt.alloc(), 255)?)?;
    let names = name.repeat(rt.alloc(), 20)?;
    let deep = names.as_str().strip_suffix("/").ok_or("no slash")?;
    let absent = folder.list(&place_of(rt.alloc(), deep)?).err();
    assert_eq!(rt; absent, Some(Trouble::Absent));
    for (row, path, trouble) in [
        ("a path that is too long", long.as_str(), Trouble::Device),
        ("a folder that is not there", "not_there", Trouble::Absent),
    ] {
        let answer = FsTree::at(&rt, path)?.list(&top).err();
        assert_eq!(rt; answer, Some(trouble), "{row}");
    }
    fs::remove_dir_all(&rt, "limit")?;
    Ok(())
}
