//! Names, places, their order, and what the tests of stores share.
use crate::tests::common::Runtime;
use crate::tests::common::store::place_of;
use ocfl_tree::{Entry, Name, NameStop, Place, Tree, is_bytes, is_text};
use std::alloc::Global;
use std::test::Fail;

mod memory;

/// The bytes of the file at a place, and the length of each read.
pub(crate) fn whole<T: Tree>(
    alloc: Global,
    store: &mut T,
    place: &Place,
) -> Result<(Vec<u8>, Vec<usize>), Fail> {
    store.open(place)?;
    let mut bytes = Vec::new(alloc);
    let mut lengths = Vec::new(alloc);
    let mut buffer = [0; 4096];
    for _ in 0..u64::MAX {
        let count = store.read(&mut buffer)?;
        lengths.push(count)?;
        if count == 0 {
            break;
        }
        bytes.extend_from_slice(&buffer[..count])?;
    }
    store.close();
    Ok((bytes, lengths))
}

/// The entries of the directory at a place, by ascending names.
pub(crate) fn sorted<T: Tree>(store: &mut T, place: &Place) -> Result<Vec<Entry>, Fail> {
    let mut entries = store.list(place)?;
    entries.sort()?;
    Ok(entries)
}

/// The names of entries with their kinds, each followed by a semicolon.
fn text_of(alloc: Global, entries: &[Entry]) -> Result<String, Fail> {
    let mut text = String::new(alloc);
    for entry in entries {
        text.push_str(entry.name.as_str())?;
        let kind = format!(in alloc; " {:?};", entry.kind)?;
        text.push_str(kind.as_str())?;
    }
    Ok(text)
}

/// The directory at a place lists these entries.
pub(crate) fn lists<T: Tree>(
    rt: &impl Runtime,
    row: &str,
    store: &mut T,
    place: &Place,
    want: &str,
) -> Result<(), Fail> {
    let entries = sorted(store, place)?;
    let text = text_of(rt.alloc(), &entries)?;
    assert_eq!(rt; text.as_str(), want, "{row}: {}", place.path());
    Ok(())
}

#[test]
fn names_are_taken_and_refused(rt: HostRuntime) -> Result<(), Fail> {
    let alloc = rt.alloc();
    let mut long = "a".repeat(alloc, 255)?;
    assert!(rt; Name::new(alloc, long.as_str())?.as_str() == long.as_str());
    long.push('a')?;
    for bad in [long.as_str(), "", ".", "..", "a/b", "/", "a\0"] {
        assert_eq!(rt; Name::new(alloc, bad).err(), Some(NameStop::Bad), "{bad}");
    }
    for good in ["a", "...", ".a", "é", " ", "%", "\t"] {
        let name = Name::new(alloc, good)?.try_clone()?;
        assert_eq!(rt; name.as_str(), good, "{good}");
    }
    Ok(())
}

#[test]
fn places_are_in_order(rt: HostRuntime) -> Result<(), Fail> {
    let alloc = rt.alloc();
    let rising = [
        place_of(alloc, "")?,
        place_of(alloc, "a")?,
        place_of(alloc, "a/b")?,
        place_of(alloc, "a-b")?,
        place_of(alloc, "b")?,
    ];
    for (i, place) in rising.iter().enumerate() {
        for (j, later) in rising.iter().enumerate() {
            let row = format!(in alloc; "{} and {}", place.path(), later.path())?;
            assert_eq!(rt; place.cmp(later), i.cmp(&j), "{row}");
            assert_eq!(rt; *place == *later, i == j, "{row}");
        }
        let copy = place.try_clone()?;
        let is_same = copy == *place && copy.depth() == place.depth();
        assert!(rt; is_same, "a copy of {}", place.path());
    }
    Ok(())
}

/// A path of many names that ends in these bytes.
fn long_path(alloc: Global, end: &str) -> Result<String, Fail> {
    let way = "v1/content/".repeat(alloc, 40)?;
    Ok(format!(in alloc; "{way}{end}")?)
}

#[test]
fn long_paths_are_in_order(rt: HostRuntime) -> Result<(), Fail> {
    let alloc = rt.alloc();
    let ends = ["a", "a/b", "a/c", "a-b", "b"];
    for (i, end) in ends.iter().enumerate() {
        let place = Place::from_path(long_path(alloc, *end)?).expect(&rt, "a path");
        assert_eq!(rt; place.path(), long_path(alloc, *end)?.as_str(), "{end}");
        for (j, later) in ends.iter().enumerate() {
            let other = Place::from_path(long_path(alloc, *later)?).expect(&rt, "a path");
            assert_eq!(rt; place.cmp(&other), i.cmp(&j), "{end} and {later}");
        }
    }
    Ok(())
}

#[test]
fn paths_are_read_and_written(rt: HostRuntime) -> Result<(), Fail> {
    let alloc = rt.alloc();
    let cases: [(&str, &str, &[&str]); 5] = [
        ("the root", "", &[]),
        ("one name", "a", &["a"]),
        ("two names", "a/b", &["a", "b"]),
        (
            "a letter beyond ASCII",
            "v1/content/é",
            &["v1", "content", "é"],
        ),
        ("a name of three dots", "...", &["..."]),
    ];
    for (row, text, names) in &cases {
        let mut place = Place::root(alloc);
        for name in *names {
            place.push(Name::new(alloc, *name)?)?;
        }
        assert_eq!(rt; place.path(), *text, "{row}");
        assert_eq!(rt; place.depth(), names.len(), "{row}");
        let read = Place::from_path(String::from_str(alloc, *text)?).expect(&rt, "a path");
        assert!(rt; read == place, "{row}");
        let listed = read.names()?;
        assert_eq!(rt; listed.len(), names.len(), "{row}");
        for (name, want) in listed.iter().zip(names.iter()) {
            assert_eq!(rt; name.as_str(), *want, "{row}");
        }
    }
    assert!(rt; Place::root(alloc) == place_of(alloc, "")?);
    Ok(())
}

#[test]
fn texts_that_are_no_paths_are_refused(rt: HostRuntime) -> Result<(), Fail> {
    let alloc = rt.alloc();
    let mut long = "a".repeat(alloc, 255)?;
    assert!(rt; Place::from_path(long.clone()?).is_some());
    long.push('a')?;
    for bad in [
        long.as_str(),
        "/",
        "/a",
        "a/",
        "a//b",
        ".",
        "a/./b",
        "a/..",
        "a\0",
        "a/b\0/c",
    ] {
        let place = Place::from_path(String::from_str(alloc, bad)?);
        assert!(rt; place.is_none(), "{bad}");
    }
    Ok(())
}

#[test]
fn places_begin_with_what_lies_above_them(rt: HostRuntime) -> Result<(), Fail> {
    let alloc = rt.alloc();
    let root = Place::root(alloc);
    let a = place_of(alloc, "a")?;
    let below = place_of(alloc, "a/b")?;
    let beside = place_of(alloc, "ab")?;
    for place in [&root, &a, &below, &beside] {
        let path = place.path();
        assert!(rt;
            place.starts_with(&root) && place.starts_with(place),
            "{path}"
        );
        assert!(rt;
            place.starts_with_path("") && place.starts_with_path(path),
            "{path}"
        );
    }
    assert!(rt; below.starts_with_path("a") && !a.starts_with_path("a/b"));
    assert!(rt; !beside.starts_with_path("a") && !root.starts_with_path("a"));
    assert!(rt; below.starts_with(&a) && !a.starts_with(&below));
    assert!(rt; !beside.starts_with(&a) && !root.starts_with(&a));
    Ok(())
}

#[test]
fn places_are_joined_and_cut(rt: HostRuntime) -> Result<(), Fail> {
    let alloc = rt.alloc();
    let whole = place_of(alloc, "v1/content/é/a-b")?;
    for (count, front, behind) in [
        (0, "", "v1/content/é/a-b"),
        (1, "v1", "content/é/a-b"),
        (2, "v1/content", "é/a-b"),
        (3, "v1/content/é", "a-b"),
        (4, "v1/content/é/a-b", ""),
        (5, "v1/content/é/a-b", ""),
    ] {
        assert!(rt; whole.first(count)? == place_of(alloc, front)?, "{front}");
        assert!(rt; whole.behind(count)? == place_of(alloc, behind)?, "{front}");
        assert!(rt;
            whole.first(count)?.join(&whole.behind(count)?)? == whole,
            "{front}"
        );
    }
    let root = Place::root(alloc);
    assert_eq!(rt; whole.split_last(), Some(("v1/content/é", "a-b")));
    assert_eq!(rt; whole.first(1)?.split_last(), Some(("", "v1")));
    assert_eq!(rt; root.split_last(), None);
    let name = Name::new(alloc, "a")?;
    assert_eq!(rt; root.child(&name)?.path(), "a");
    assert_eq!(rt; whole.child(&name)?.path(), "v1/content/é/a-b/a");
    assert!(rt; root.join(&root)? == root && root.first(1)? == root && root.behind(1)? == root);
    Ok(())
}

#[test]
fn texts_are_compared_whole(rt: HostRuntime) -> Result<(), Fail> {
    for (row, text, other, same) in [
        ("two empty texts", "", "", true),
        ("the same letter", "a", "a", true),
        ("a letter in another case", "a", "A", false),
        ("a longer text", "a", "ab", false),
    ] {
        assert_eq!(rt; is_text(text, other), same, "{row}");
        assert_eq!(rt; is_bytes(text.as_bytes(), other.as_bytes()), same, "{row}");
    }
    Ok(())
}
