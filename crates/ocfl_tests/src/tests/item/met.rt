//! What is met at single places, by the calls that a walk is made of.
use crate::tests::common::Runtime;
use crate::tests::common::digests::lines_of;
use crate::tests::common::object::object_listing;
use crate::tests::common::store::{
    change, expect_listed, expect_opened, listed_from, opened_from, place_of,
};
use crate::tests::walk::{judged, said};
use ocfl_inventory::Level;
use ocfl_item::{
    Around, Folder, Head, Visit, can_enter, head_of, is_extensions, list, table_of_object,
    visit_base, visit_entry, visit_path,
};
use ocfl_memory::MemTree;
use ocfl_report::Further;
use ocfl_tree::Name;
use std::alloc::Global;
use std::test::Fail;

/// A storage root with the object `o`, whose files `v1/content/f` and `v2/content/m` are listed, of
/// which the second is missing.
fn root(alloc: Global) -> Result<MemTree, Fail> {
    let mut store = object_listing(alloc, "\"v1/content/f\",\"v2/content/m\"")?;
    let entries = [
        ("extensions/e", "abc"),
        ("notes", "abc"),
        ("p/notes", "abc"),
        ("o/logs/l", "abc"),
        ("o/notes", "abc"),
        ("o/v1/content/f", "abc"),
        ("o/v1/content/u", "abc"),
        ("o/v1/notes", "abc"),
    ];
    change(alloc, &mut store, &entries)?;
    Ok(store)
}

/// The directory at a path, as it is listed.
fn listed(alloc: Global, store: &mut MemTree, path: &str) -> Result<Folder, Fail> {
    list(store, place_of(alloc, path)?).map_err(said)
}

/// The object `o` with its table.
fn object(alloc: Global, store: &mut MemTree) -> Result<Option<Around>, Fail> {
    let folder = listed(alloc, store, "o")?;
    let (table, root) = table_of_object(alloc, store, Further::Nothing, &folder).map_err(said)?;
    let Some(table) = table else {
        return Ok(None);
    };
    Ok(Some(Around {
        place: folder.place,
        table,
        root,
    }))
}

/// The entry at a path, met in the part of the storage root that it is in.
fn met(
    alloc: Global,
    store: &mut MemTree,
    around: &Option<Around>,
    path: &str,
) -> Result<Visit, Fail> {
    let (directory, name) = path.rsplit_once('/').unwrap_or(("", path));
    let folder = listed(alloc, store, directory)?;
    for entry in &folder.entries {
        if entry.name.as_str() == name {
            let place = folder.place.child(&entry.name)?;
            let further = Further::Nothing;
            return visit_entry(alloc, store, further, around, place, entry, &[]).map_err(said);
        }
    }
    Err("no entry of this name".into())
}

/// What was met, in one text: the lines of its item, and whether there are a listing and a table.
fn text_of(alloc: Global, store: &mut MemTree, visit: Visit) -> Result<String, Fail> {
    let mut text = String::new(alloc);
    if let Some(pending) = visit.item {
        let (lines, _) = judged(alloc, store, pending)?;
        text.push_str(lines.as_str())?;
    }
    if visit.folder.is_some() {
        text.push_str("listing\n")?;
    }
    if visit.table.is_some() {
        text.push_str("table\n")?;
    }
    Ok(text)
}

/// What was met has this text, with a bar for each tab.
fn expect_met(
    rt: &impl Runtime,
    row: &str,
    store: &mut MemTree,
    visit: Visit,
    want: &str,
) -> Result<(), Fail> {
    let text = text_of(rt.alloc(), store, visit)?;
    let want = lines_of(rt.alloc(), want)?;
    assert_eq!(rt; text.as_str(), want.as_str(), "{row}");
    Ok(())
}

/// Paths, and what is met there.
const ENTRIES: [(&str, &str, &str); 11] = [
    // in the hierarchy
    ("the root's declaration", "0=ocfl_1.1", ""),
    ("extensions", "extensions", ""),
    ("a file in the root", "notes", ""),
    ("an object", "o", "ok|o|-\nlisting\ntable\n"),
    ("a directory", "p", "listing\n"),
    ("a file in the hierarchy", "p/notes", "E072|p/notes|-\n"),
    // in the object
    ("logs", "o/logs", ""),
    ("a file in an object", "o/notes", "E001|o/notes|-\n"),
    ("a version", "o/v1", "listing\n"),
    ("a file in a version", "o/v1/notes", "E015|o/v1/notes|-\n"),
    ("a content file", "o/v1/content/f", "ok|o/v1/content/f|3\n"),
];

#[test]
fn entries_are_met_by_the_part_that_they_lie_in(rt: HostRuntime) -> Result<(), Fail> {
    for (row, path, want) in ENTRIES {
        let mut store = root(rt.alloc())?;
        let around = match path.starts_with("o/") {
            true => object(rt.alloc(), &mut store)?,
            false => None,
        };
        let visit = met(rt.alloc(), &mut store, &around, path)?;
        expect_met(&rt, row, &mut store, visit, want)?;
    }
    Ok(())
}

#[test]
fn meeting_an_object_lists_it_and_reads_its_own_files(rt: HostRuntime) -> Result<(), Fail> {
    let mut store = root(rt.alloc())?;
    met(rt.alloc(), &mut store, &None, "o")?;
    assert_eq!(rt; listed_from(rt.alloc(), &store, 1)?.as_str(), "o;");
    let opened = "o/0=ocfl_object_1.1;o/inventory.json;o/inventory.json.sha256;";
    expect_opened(&rt, "an object", &store, "", opened)
}

#[test]
fn the_storage_root_is_met_with_its_listing(rt: HostRuntime) -> Result<(), Fail> {
    let alloc = rt.alloc();
    for (row, path, want, opened) in [
        (
            "a file in the root",
            "notes",
            "ok|.|-\nlisting\n",
            "0=ocfl_1.1;",
        ),
        ("no declaration", "-0=ocfl_1.1", "E069|.|-\n", ""),
        ("two declarations", "0=ocfl_1.0", "E076|.|-\n", ""),
        (
            "a bad declaration",
            "0=ocfl_1.1",
            "E080|.|-\nlisting\n",
            "0=ocfl_1.1;",
        ),
    ] {
        let mut store = root(alloc)?;
        change(alloc, &mut store, &[(path, "abc")])?;
        let visit = visit_base(alloc, &mut store).map_err(said)?;
        expect_listed(&rt, row, &store, ";")?;
        expect_opened(&rt, row, &store, "", opened)?;
        expect_met(&rt, row, &mut store, visit, want)?;
    }
    Ok(())
}

#[test]
fn a_path_that_is_not_seen_is_missing_where_the_table_names_it(
    rt: HostRuntime,
) -> Result<(), Fail> {
    let alloc = rt.alloc();
    let mut store = root(alloc)?;
    let around = object(alloc, &mut store)?;
    for (row, object, path, want) in [
        (
            "a path that the table names",
            &around,
            "o/v2/content/m",
            "E092|o/v2/content/m|sha256 missing\n",
        ),
        (
            "a path that the table does not name",
            &around,
            "o/v2/content/n",
            "",
        ),
        ("no table", &None, "o/v2/content/m", ""),
    ] {
        let place = place_of(alloc, path)?;
        let visit = Visit {
            item: visit_path(alloc, object, &place)?,
            folder: None,
            table: None,
            root: None,
        };
        expect_met(&rt, row, &mut store, visit, want)?;
    }
    Ok(())
}

#[test]
fn a_table_is_read_from_the_inventory_alone(rt: HostRuntime) -> Result<(), Fail> {
    let alloc = rt.alloc();
    let mut store = root(alloc)?;
    assert!(rt; object(alloc, &mut store)?.is_some());
    expect_opened(&rt, "the table", &store, "", "o/inventory.json;")?;
    change(alloc, &mut store, &[("-o/inventory.json", "")])?;
    assert!(rt; object(alloc, &mut store)?.is_none());
    assert_eq!(rt; opened_from(alloc, &store, 1, "")?.as_str(), "");
    Ok(())
}

#[test]
fn declarations_are_told_of_a_listing(rt: HostRuntime) -> Result<(), Fail> {
    let alloc = rt.alloc();
    let mut store = root(alloc)?;
    change(alloc, &mut store, &[("p/0=ocfl_object_9.9", "abc")])?;
    for (row, path, level, want) in [
        (
            "a right declaration of the root",
            "",
            Level::Root,
            Head::Known,
        ),
        ("the root as an object", "", Level::Object, Head::Undeclared),
        ("an object", "o", Level::Object, Head::Known),
        ("an unknown version", "p", Level::Object, Head::Stops),
    ] {
        let folder = listed(alloc, &mut store, path)?;
        assert!(rt; head_of(&folder, level) == want, "{row}");
    }
    Ok(())
}

#[test]
fn only_directories_of_at_most_127_names_can_be_entered(rt: HostRuntime) -> Result<(), Fail> {
    let alloc = rt.alloc();
    for (count, want) in [(126, true), (127, false)] {
        let mut store = MemTree::new(alloc);
        let deep = "d/".repeat(alloc, count)?;
        let Some(directory) = deep.as_str().strip_suffix("/") else {
            return Err("no directory".into());
        };
        let below = format!(in alloc; "{deep}n/")?;
        let beside = format!(in alloc; "{deep}f")?;
        change(
            alloc,
            &mut store,
            &[(below.as_str(), ""), (beside.as_str(), "abc")],
        )?;
        let folder = listed(alloc, &mut store, directory)?;
        assert_eq!(rt;
            can_enter(&folder, &Name::new(alloc, "n")?),
            want,
            "{count}"
        );
        assert!(rt; !can_enter(&folder, &Name::new(alloc, "f")?), "{count}");
        assert!(rt; !can_enter(&folder, &Name::new(alloc, "m")?), "{count}");
    }
    Ok(())
}

#[test]
fn extensions_are_those_of_the_storage_root(rt: HostRuntime) -> Result<(), Fail> {
    let alloc = rt.alloc();
    let mut store = root(alloc)?;
    let name = Name::new(alloc, "extensions")?;
    let base = listed(alloc, &mut store, "")?;
    assert!(rt; is_extensions(&base, &name));
    assert!(rt; !is_extensions(&base, &Name::new(alloc, "extension")?));
    let inner = listed(alloc, &mut store, "p")?;
    assert!(rt; !is_extensions(&inner, &name));
    Ok(())
}
