//! The inventories in version directories, as an audit meets them that checks these too. Digests
//! are those of `sha256sum` and `sha512sum`.
use crate::tests::common::digests::lines_of;
use crate::tests::common::object::{bare_root, put_object};
use crate::tests::common::store::{change, opened_from, place_of};
use crate::tests::walk::{judged, said};
use ocfl_item::{Around, Fault, Visit, list, table_of_object, visit_entry};
use ocfl_memory::{MemTree, Point};
use ocfl_report::Further;
use std::alloc::Global;
use std::test::Fail;

const INVENTORY: &str = "o/v1/inventory.json";

const SHORT: &str = "o/v1/inventory.json.sha256";

const LONG: &str = "o/v1/inventory.json.sha512";

/// An inventory of 54 bytes, the same with another head, and without its last byte.
const RIGHT: &str = "{\"digestAlgorithm\":\"sha256\",\"head\":\"v1\",\"manifest\":{}}";

const FLIPPED: &str = "{\"digestAlgorithm\":\"sha256\",\"head\":\"w1\",\"manifest\":{}}";

const CUT: &str = "{\"digestAlgorithm\":\"sha256\",\"head\":\"v1\",\"manifest\":{}";

/// One whose head names no directory.
const NO_VERSION: &str = "{\"digestAlgorithm\":\"sha256\",\"head\":\"v3\",\"manifest\":{}}";

/// The right sidecars of the first.
const BESIDE_SHORT: &str =
    "1e627d990f5696a2c4d8f68b01778d3a82cbb4c793b1a6c269235432ddabbed9 inventory.json\n";

const BESIDE_LONG: &str =
    "17243934ba1b3f31de3b3a74c834ec36b9b97d7c4e64594360cb26e1691e9afa901028a4a6f8eba16cdc82048ce0268842cad7ca7a99560655c8675a9b3b2a25 inventory.json\n";

/// What is said of the second and of the third, behind the code and the place: the wanted digest,
/// and the one that was found.
const SHORT_FLIPPED: &str =
    "sha256 1e627d990f5696a2c4d8f68b01778d3a82cbb4c793b1a6c269235432ddabbed9 0a89d02e2ae3f9ff9ec610469a950357c272693c4f67132ba549f9b521aeac7c";

const SHORT_CUT: &str =
    "sha256 1e627d990f5696a2c4d8f68b01778d3a82cbb4c793b1a6c269235432ddabbed9 e38f8e028426ff012aa3f5435c46ba77dcbbe73fa046c544289d50e3cf2de383";

const LONG_FLIPPED: &str =
    "sha512 17243934ba1b3f31de3b3a74c834ec36b9b97d7c4e64594360cb26e1691e9afa901028a4a6f8eba16cdc82048ce0268842cad7ca7a99560655c8675a9b3b2a25 2401a0e93677e3a5186d31bccf6aa3493d6959a841ddca8fe245d44530e8a47c639fe101326f7e656dc1206afa1f70328c87cd200f6261fe5f294663c269e2f2";

/// A storage root whose object `o` has this root inventory.
fn root(alloc: Global, inventory: &str) -> Result<MemTree, Fail> {
    let mut store = bare_root(alloc)?;
    put_object(alloc, &mut store, "o", inventory)?;
    Ok(store)
}

/// What is met at a name in the directory `o/v1`, with all of its entries.
fn met(
    alloc: Global,
    store: &mut MemTree,
    further: Further,
    name: &str,
) -> Result<Result<Visit, Fault>, Fail> {
    let folder = list(store, place_of(alloc, "o")?).map_err(said)?;
    let (table, root) = table_of_object(alloc, store, further, &folder).map_err(said)?;
    let Some(table) = table else {
        return Err("no table".into());
    };
    let around = Some(Around {
        place: folder.place,
        table,
        root,
    });
    let folder = list(store, place_of(alloc, "o/v1")?).map_err(said)?;
    for entry in &folder.entries {
        if entry.name.as_str() == name {
            let place = folder.place.child(&entry.name)?;
            let entries = &folder.entries;
            return Ok(visit_entry(alloc, store, further, &around, place, entry, entries));
        }
    }
    Err("no entry of this name".into())
}

/// The lines of the item that is met at a name, and none without an item.
fn lines_met(
    alloc: Global,
    store: &mut MemTree,
    further: Further,
    name: &str,
) -> Result<String, Fail> {
    let visit = met(alloc, store, further, name)?.map_err(said)?;
    assert_nothing_else(&visit)?;
    match visit.item {
        Some(pending) => Ok(judged(alloc, store, pending)?.0),
        None => Ok(String::new(alloc)),
    }
}

/// A file has no listing and no table.
fn assert_nothing_else(visit: &Visit) -> Result<(), Fail> {
    if visit.folder.is_some() || visit.table.is_some() {
        return Err("more than an item".into());
    }
    Ok(())
}

/// What a version directory has, and the lines of its inventory.
const ROWS: [(&str, &[(&str, &str)], &str); 9] = [
    (
        "right",
        &[(INVENTORY, RIGHT), (SHORT, BESIDE_SHORT)],
        "ok|INVENTORY|54\n",
    ),
    (
        "flipped",
        &[(INVENTORY, FLIPPED), (SHORT, BESIDE_SHORT)],
        "E060|INVENTORY|SHORT_FLIPPED\nE064|INVENTORY|SHORT_FLIPPED\n",
    ),
    (
        "cut",
        &[(INVENTORY, CUT), (SHORT, BESIDE_SHORT)],
        "E060|INVENTORY|SHORT_CUT\nE064|INVENTORY|SHORT_CUT\n",
    ),
    ("no sidecar", &[(INVENTORY, RIGHT)], "E058|INVENTORY|-\n"),
    (
        "flipped without a sidecar",
        &[(INVENTORY, FLIPPED)],
        "E058|INVENTORY|-\nE064|INVENTORY|SHORT_FLIPPED\n",
    ),
    (
        "the sidecar of the other algorithm",
        &[(INVENTORY, RIGHT), (LONG, BESIDE_LONG)],
        "ok|INVENTORY|54\n",
    ),
    (
        "flipped beside the sidecar of the other algorithm",
        &[(INVENTORY, FLIPPED), (LONG, BESIDE_LONG)],
        "E060|INVENTORY|LONG_FLIPPED\nE064|INVENTORY|SHORT_FLIPPED\n",
    ),
    (
        "a sidecar that is not of the form",
        &[(INVENTORY, RIGHT), (SHORT, "x")],
        "E061|INVENTORY|sha256\n",
    ),
    (
        "a directory for a sidecar",
        &[(INVENTORY, RIGHT), ("o/v1/inventory.json.sha256/", "")],
        "E058|INVENTORY|-\n",
    ),
];

#[test]
fn inventories_of_versions_are_compared_with_their_sidecars_and_the_root_inventory(
    rt: HostRuntime,
) -> Result<(), Fail> {
    let alloc = rt.alloc();
    for (row, changes, want) in &ROWS {
        let mut store = root(alloc, RIGHT)?;
        change(alloc, &mut store, changes)?;
        let lines = lines_met(alloc, &mut store, Further::Inventories, "inventory.json")?;
        assert_eq!(rt; lines.as_str(), said_of(alloc, want)?.as_str(), "{row}");
    }
    Ok(())
}

/// Lines with the inventory's path and what is said of it in place of these names.
fn said_of(alloc: Global, want: &str) -> Result<String, Fail> {
    let mut text = String::from_str(alloc, want)?;
    for (name, whole) in [
        ("INVENTORY", INVENTORY),
        ("SHORT_FLIPPED", SHORT_FLIPPED),
        ("SHORT_CUT", SHORT_CUT),
        ("LONG_FLIPPED", LONG_FLIPPED),
    ] {
        text = text.replace(alloc, name, whole)?;
    }
    lines_of(alloc, text.as_str())
}

#[test]
fn an_older_inventory_is_not_compared_with_the_root_inventory(rt: HostRuntime) -> Result<(), Fail> {
    let alloc = rt.alloc();
    let rows: [(&str, &[(&str, &str)], &str, &str); 2] = [
        (
            "right",
            &[(INVENTORY, RIGHT), (SHORT, BESIDE_SHORT)],
            "ok|INVENTORY|54\n",
            "o/v1/inventory.json.sha256;o/v1/inventory.json;",
        ),
        // no digest is expected of it, so it is not opened
        (
            "flipped without a sidecar",
            &[(INVENTORY, FLIPPED)],
            "E058|INVENTORY|-\n",
            "",
        ),
    ];
    for (row, changes, want, opened) in rows {
        let mut store = root(alloc, NO_VERSION)?;
        change(alloc, &mut store, changes)?;
        let lines = lines_met(alloc, &mut store, Further::Inventories, "inventory.json")?;
        assert_eq!(rt; lines.as_str(), said_of(alloc, want)?.as_str(), "{row}");
        assert_eq!(rt;
            opened_from(alloc, &store, 1, "")?.as_str(),
            opened,
            "{row}"
        );
    }
    Ok(())
}

#[test]
fn without_the_option_an_inventory_of_a_version_is_left_alone(rt: HostRuntime) -> Result<(), Fail> {
    let alloc = rt.alloc();
    let mut store = root(alloc, RIGHT)?;
    change(alloc, &mut store, &[(INVENTORY, FLIPPED), (SHORT, "x")])?;
    for (further, name) in [
        (Further::Nothing, "inventory.json"),
        (Further::Nothing, "inventory.json.sha256"),
        (Further::Inventories, "inventory.json.sha256"),
    ] {
        let before = store.openings().len();
        let lines = lines_met(alloc, &mut store, further, name)?;
        assert_eq!(rt; lines.as_str(), "", "{name}");
        // the root inventory, for the table
        assert_eq!(rt; store.openings().len(), before + 1, "{name}");
    }
    Ok(())
}

#[test]
fn a_sidecar_that_cannot_be_read_stops_there(rt: HostRuntime) -> Result<(), Fail> {
    let alloc = rt.alloc();
    for path in [SHORT, LONG] {
        let mut store = root(alloc, RIGHT)?;
        let files = [
            (INVENTORY, RIGHT),
            (SHORT, BESIDE_SHORT),
            (LONG, BESIDE_LONG),
        ];
        change(alloc, &mut store, &files)?;
        let place = place_of(alloc, path)?;
        store.fail_at(&place, Point::Read(1))?;
        match met(alloc, &mut store, Further::Inventories, "inventory.json")? {
            Err(Fault::Store(failed)) => assert!(rt; failed == place, "{path}"),
            Err(Fault::Memory) | Ok(_) => return Err("no fault of the store".into()),
        }
    }
    Ok(())
}
