//! What the head of an object opens, and how it stops.
use crate::tests::common::object::bare_root;
use crate::tests::common::store::{change, expect_opened, place_of};
use crate::tests::walk::{expect_item, failed_place};
use ocfl_memory::{MemTree, Point};
use std::alloc::Global;
use std::test::Fail;

/// The files of the object `p/o`, all of them right, in the order in which they are opened.
const FILES: [(&str, &str); 4] = [
    ("p/o/0=ocfl_object_1.1", "ocfl_object_1.1\n"),
    (
        "p/o/inventory.json",
        "{\"digestAlgorithm\":\"sha512\",\"manifest\":{\"aa\":[\"v1/content/f\"]}}",
    ),
    (
        "p/o/inventory.json.sha256",
        "b4b2743ac83bc8c579de7e33916bd0d9586135dbebc889f08e2bac5cf534a5f7 inventory.json\n",
    ),
    (
        "p/o/inventory.json.sha512",
        "0728e45a9884cccea6b3fd06aa5043c9ec985aa51811e8d589a71fb10cce16a80ccabd70a2b3bda8333d17ed8cc95569db2264cdb42a6518af620f0da1834af3 inventory.json\n",
    ),
];

/// A storage root with that object.
fn root(alloc: Global) -> Result<MemTree, Fail> {
    let mut store = bare_root(alloc)?;
    change(alloc, &mut store, &FILES)?;
    Ok(store)
}

#[test]
fn a_head_opens_its_files_in_order(rt: HostRuntime) -> Result<(), Fail> {
    let mut store = root(rt.alloc())?;
    expect_item(&rt, "a right object", &mut store, "p/o", "ok|p/o|-\n", 0)?;
    let want =
        "p/o/0=ocfl_object_1.1;p/o/inventory.json;p/o/inventory.json.sha256;p/o/inventory.json.sha512;";
    expect_opened(&rt, "a right object", &store, "", want)?;
    assert!(rt; store.openings().iter().all(|opening| !opening.failed));
    assert_eq!(rt; store.listings().len(), 3);
    Ok(())
}

#[test]
fn a_head_that_stops_opens_no_more(rt: HostRuntime) -> Result<(), Fail> {
    let older = ("p/o/0=ocfl_object_1.0", "");
    let later = ("p/o/0=ocfl_object_2", "");
    let rows: [(&str, &[(&str, &str)], &str, usize); 3] = [
        (
            "no inventory",
            &[("-p/o/inventory.json", "")],
            "E063|p/o|-\n",
            1,
        ),
        ("two declarations", &[older], "E003|p/o|-\n", 0),
        (
            "a later version",
            &[("-p/o/0=ocfl_object_1.1", ""), later],
            "S01|p/o|2\n",
            0,
        ),
    ];
    for (row, changes, want, opened) in rows {
        let mut store = root(rt.alloc())?;
        change(rt.alloc(), &mut store, changes)?;
        expect_item(&rt, row, &mut store, "p/o", want, 0)?;
        assert_eq!(rt; store.openings().len(), opened, "{row}");
    }
    Ok(())
}

#[test]
fn a_file_of_the_head_that_fails_stops_it(rt: HostRuntime) -> Result<(), Fail> {
    for ((name, _), count) in FILES.iter().zip(1..5usize) {
        let mut store = root(rt.alloc())?;
        let file = place_of(rt.alloc(), name)?;
        store.fail_at(&file, Point::Read(1))?;
        assert!(rt;
            failed_place(rt.alloc(), &mut store, "p/o")? == file,
            "{name}"
        );
        assert_eq!(rt; store.openings().len(), count, "{name}");
        assert_eq!(rt; store.failures(), 1, "{name}");
    }
    Ok(())
}
