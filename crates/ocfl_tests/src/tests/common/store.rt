//! Trees in memory: what is in them, and what was asked of them.
use crate::tests::common::Runtime;
use ocfl_memory::MemTree;
use ocfl_tree::{Name, Place};
use std::alloc::Global;
use std::test::Fail;

/// The place of a path, which is `.` or nothing for the root.
pub fn place_of(alloc: Global, path: &str) -> Result<Place, Fail> {
    let mut place = Place::root(alloc);
    if path != "." && !path.is_empty() {
        for name in path.split('/') {
            place.push(Name::new(alloc, name)?)?;
        }
    }
    Ok(place)
}

/// Puts what directories are not there on the way to a place.
fn put_way(store: &mut MemTree, place: &Place) -> Result<(), Fail> {
    for count in 1..place.depth() {
        let _ = store.put_dir(&place.first(count)?);
    }
    Ok(())
}

/// Puts a file of these bytes at a path, in place of what is there.
pub fn put(alloc: Global, store: &mut MemTree, path: &str, bytes: &[u8]) -> Result<(), Fail> {
    let place = place_of(alloc, path)?;
    let _ = store.remove(&place);
    put_way(store, &place)?;
    store.put_file(&place, bytes.to_vec(alloc)?)?;
    Ok(())
}

/// Puts a directory at a path.
pub fn put_dir(alloc: Global, store: &mut MemTree, path: &str) -> Result<(), Fail> {
    let place = place_of(alloc, path)?;
    put_way(store, &place)?;
    store.put_dir(&place)?;
    Ok(())
}

/// Makes one change. A `-` before the path takes away what is there. A `/` after it puts a
/// directory, and `@` what is neither a file nor a directory. Without a mark a file of this text is
/// put, in which digests may be named.
fn change_one(alloc: Global, store: &mut MemTree, path: &str, text: &str) -> Result<(), Fail> {
    if let Some(path) = path.strip_prefix("-") {
        store.remove(&place_of(alloc, path)?)?;
        Ok(())
    } else if let Some(path) = path.strip_suffix("/") {
        put_dir(alloc, store, path)
    } else if let Some(path) = path.strip_suffix("@") {
        let place = place_of(alloc, path)?;
        put_way(store, &place)?;
        store.put_other(&place)?;
        Ok(())
    } else {
        let text = crate::tests::common::digests::with_digests(alloc, text)?;
        put(alloc, store, path, text.as_bytes())
    }
}

/// Makes these changes, each a path with its marks and the text of a file.
pub fn change(alloc: Global, store: &mut MemTree, changes: &[(&str, &str)]) -> Result<(), Fail> {
    for (path, text) in changes {
        change_one(alloc, store, path, text)?;
    }
    Ok(())
}

/// How often the file at a path was opened.
pub fn times_opened(alloc: Global, store: &MemTree, path: &str) -> Result<usize, Fail> {
    let place = place_of(alloc, path)?;
    let openings = store.openings().iter();
    Ok(openings.filter(|opening| opening.place == place).count())
}

/// Whether no directory was listed and no file opened.
pub fn was_not_called(store: &MemTree) -> bool {
    store.openings().is_empty() && store.listings().is_empty()
}

/// The paths of the listings but for the first ones, oldest first, each with a semicolon after it.
pub fn listed_from(alloc: Global, store: &MemTree, first: usize) -> Result<String, Fail> {
    let mut text = String::new(alloc);
    for place in store.listings().iter().skip(first) {
        text.push_str(place.path())?;
        text.push(';')?;
    }
    Ok(text)
}

/// The same of the openings, and of them those alone whose paths end so.
pub fn opened_from(
    alloc: Global,
    store: &MemTree,
    first: usize,
    ending: &str,
) -> Result<String, Fail> {
    let openings = store.openings().iter().skip(first);
    let mut text = String::new(alloc);
    for opening in openings.filter(|opening| opening.place.path().ends_with(ending)) {
        text.push_str(opening.place.path())?;
        text.push(';')?;
    }
    Ok(text)
}

/// These directories were listed, oldest first.
pub fn expect_listed(
    rt: &impl Runtime,
    row: &str,
    store: &MemTree,
    want: &str,
) -> Result<(), Fail> {
    let listed = listed_from(rt.alloc(), store, 0)?;
    assert_eq!(rt; listed.as_str(), want, "listed: {row}");
    Ok(())
}

/// Of the files whose paths end so, these were opened, oldest first.
pub fn expect_opened(
    rt: &impl Runtime,
    row: &str,
    store: &MemTree,
    ending: &str,
    want: &str,
) -> Result<(), Fail> {
    let opened = opened_from(rt.alloc(), store, 0, ending)?;
    assert_eq!(rt; opened.as_str(), want, "opened: {row}");
    Ok(())
}
