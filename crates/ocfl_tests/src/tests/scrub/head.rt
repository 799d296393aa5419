//! Checks of an object as a whole: the lines of its head, and whether its content is checked after
//! them.
use super::expected::{FILE_IS_OK, GOES_ON, STOPS, expect, expect_audit, expect_head, finds};
use crate::tests::common::Runtime;
use crate::tests::common::object::{
    DECLARATION, INVENTORY, LISTS_F, LONG_SIDECAR, SHORT_SIDECAR, inventory, listing, long_sidecar,
    object_with, short_digits,
};
use crate::tests::common::roots::right_object;
use crate::tests::common::store::{change, place_of, put, times_opened};
use ocfl_memory::{MemTree, Point};
use std::alloc::Global;
use std::test::Fail;

#[test]
fn right_object_without_reading_content(rt: HostRuntime) -> Result<(), Fail> {
    let mut store = right_object(rt.alloc())?;
    finds(&rt, "a right object", &mut store, "ok|o|-\n")?;
    for place in [DECLARATION, INVENTORY, SHORT_SIDECAR] {
        assert_eq!(rt; times_opened(rt.alloc(), &store, place)?, 1, "{place}");
    }
    assert_eq!(rt; store.openings().len(), 3);
    assert_eq!(rt; store.listings().len(), 2);
    expect_head(&rt, "a right object", &mut store, "ok|o|-\n", GOES_ON)
}

/// The lines of a head, what checking its content writes, and what is changed in the root of a
/// right object so that it has them, each with a name.
type Heads = (
    &'static str,
    Option<&'static str>,
    &'static [(&'static str, &'static [(&'static str, &'static str)])],
);

/// Heads of objects.
const HEADS: [Heads; 14] = [
    // declarations that are not exact
    (
        "E007|o|-\n",
        GOES_ON,
        &[
            ("an empty declaration", &[(DECLARATION, "")]),
            (
                "a declaration without its line feed",
                &[(DECLARATION, "ocfl_object_1.1")],
            ),
            (
                "a declaration of another version",
                &[(DECLARATION, "ocfl_object_1.0\n")],
            ),
            (
                "a declaration with a carriage return",
                &[(DECLARATION, "ocfl_object_1.1\r\n")],
            ),
            (
                "the older version without its line feed",
                &[
                    ("-o/0=ocfl_object_1.1", ""),
                    ("o/0=ocfl_object_1.0", "ocfl_object_1.0"),
                ],
            ),
        ],
    ),
    // the older version, what declares no version, and storage roots whose version is known
    (
        "ok|o|-\n",
        GOES_ON,
        &[
            (
                "the older version",
                &[
                    ("-o/0=ocfl_object_1.1", ""),
                    ("o/0=ocfl_object_1.0", "ocfl_object_1.0\n"),
                ],
            ),
            (
                "a directory and a link named like declarations",
                &[("o/0=ocfl_object_1.0/", ""), ("o/0=ocfl_object_2.0@", "")],
            ),
            (
                "a bad declaration of the storage root",
                &[("0=ocfl_1.1", "ocfl_1.1")],
            ),
            (
                "a storage root of 1.0",
                &[("-0=ocfl_1.1", ""), ("0=ocfl_1.0", "ocfl_1.0\n")],
            ),
        ],
    ),
    // no sidecar, and none of the named algorithm
    (
        "E058|o|-\n",
        GOES_ON,
        &[
            ("no sidecar", &[("-o/inventory.json.sha256", "")]),
            (
                "a directory and a link named like sidecars",
                &[
                    ("-o/inventory.json.sha256", ""),
                    ("o/inventory.json.sha256/", ""),
                    ("o/inventory.json.sha512@", ""),
                ],
            ),
        ],
    ),
    (
        "E061|o|sha512\nE058|o|sha256\n",
        GOES_ON,
        &[(
            "a sidecar of another algorithm alone",
            &[("-o/inventory.json.sha256", ""), (LONG_SIDECAR, "")],
        )],
    ),
    // no file of the name of an inventory
    (
        "E063|o|-\n",
        STOPS,
        &[
            ("no inventory", &[("-o/inventory.json", "")]),
            (
                "a directory named like the inventory",
                &[("-o/inventory.json", ""), ("o/inventory.json/", "")],
            ),
            (
                "a link named like the inventory",
                &[("-o/inventory.json", ""), ("o/inventory.json@", "")],
            ),
        ],
    ),
    (
        "E007|o|-\nE063|o|-\n",
        STOPS,
        &[(
            "a link for the inventory and a bad declaration",
            &[
                ("-o/inventory.json", ""),
                ("o/inventory.json@", ""),
                (DECLARATION, ""),
            ],
        )],
    ),
    // inventories that are none, with their sidecars
    (
        "E058|o|-\nE033|o|-\n",
        STOPS,
        &[(
            "half of an inventory and no sidecar",
            &[
                ("-o/inventory.json.sha256", ""),
                ("o/inventory.json.sha512@", ""),
                (INVENTORY, "{\"digestAlgorithm\":"),
            ],
        )],
    ),
    (
        "E060|o|sha256 ZEROS ABC_SHA256\nE033|o|-\n",
        STOPS,
        &[(
            "no JSON and a wrong sidecar",
            &[
                (INVENTORY, "abc"),
                (SHORT_SIDECAR, "ZEROS inventory.json\n"),
            ],
        )],
    ),
    (
        "E036|o|digestAlgorithm\n",
        STOPS,
        &[
            (
                "no algorithm and a right sidecar",
                &[
                    (INVENTORY, "{}"),
                    (SHORT_SIDECAR, "BRACES_SHA256 inventory.json\n"),
                ],
            ),
            (
                "no algorithm and a sidecar in capitals",
                &[
                    (INVENTORY, "{}"),
                    (SHORT_SIDECAR, "BRACES_CAPITALS inventory.json\n"),
                ],
            ),
        ],
    ),
    (
        "E060|o|sha256 ABC_SHA256 BRACES_SHA256\nE036|o|digestAlgorithm\n",
        STOPS,
        &[(
            "no algorithm and a wrong sidecar",
            &[
                (INVENTORY, "{}"),
                (SHORT_SIDECAR, "ABC_CAPITALS inventory.json\n"),
            ],
        )],
    ),
    (
        "E061|o|sha256\nE060|o|sha512 NOTHING_SHA512 ABC_SHA512\nE033|o|-\n",
        STOPS,
        &[(
            "no JSON, a bad sidecar and a wrong one",
            &[
                (INVENTORY, "abc"),
                (SHORT_SIDECAR, "abc"),
                (LONG_SIDECAR, "NOTHING_SHA512 inventory.json\n"),
            ],
        )],
    ),
    (
        "E058|o|-\nE036|o|digestAlgorithm\n",
        STOPS,
        &[(
            "no algorithm and no sidecar",
            &[(INVENTORY, "{}"), ("-o/inventory.json.sha256", "")],
        )],
    ),
    // the short sidecar before the long one, and many lines in their order
    (
        "E061|o|sha256\nE060|o|sha512 ABC_SHA512 1fee355098cee18e19b2a9beac6535bed2d76868179d693195ee0968527da477cff7765fa11a35489704a35e3964ff000b461f1fe4dbcbf7d7527ee4c01a2544\n",
        None,
        &[(
            "a bad short sidecar and a wrong long one",
            &[
                (
                    INVENTORY,
                    "{\"digestAlgorithm\":\"sha512\",\"manifest\":{}}",
                ),
                (SHORT_SIDECAR, "abc"),
                (LONG_SIDECAR, "ABC_SHA512 inventory.json\n"),
            ],
        )],
    ),
    (
        "E007|o|-\nE060|o|sha256 ZEROS cd08aa9a85c70c89a256d6fc5e21547dfb0948b017a1dde65f187744033424d5\nE058|o|sha512\nE096|o|ab\nE097|o|md5 cd\nE100|o|/x\nE099|o|v1//f\nE100|o|/a\nS06|o|v2\nE101|o|v1/content/f\nS07|o|crc32\n",
        None,
        &[(
            "a line of nearly each kind",
            &[
                (
                    INVENTORY,
                    r#"{"digestAlgorithm":"sha512","manifest":{"ab":["v1/content/f","/x"],"AB":["v1//f","v1/content/f"]},"fixity":{"crc32":7,"md5":{"cd":["/a"],"CD":["v2"]}}}"#,
                ),
                (DECLARATION, "ocfl_object_1.1"),
                (SHORT_SIDECAR, "ZEROS inventory.json\n"),
            ],
        )],
    ),
];

#[test]
fn heads_of_objects(rt: HostRuntime) -> Result<(), Fail> {
    for (lines, content, heads) in HEADS {
        for (row, changes) in heads {
            let mut store = right_object(rt.alloc())?;
            change(rt.alloc(), &mut store, changes)?;
            expect_head(&rt, row, &mut store, lines, content)?;
        }
    }
    let behind = "\n".repeat(rt.alloc(), 4081)?;
    let long = format!(in rt.alloc(); "ocfl_object_1.1\n{behind}")?;
    assert_eq!(rt; long.len(), 4097);
    let mut store = right_object(rt.alloc())?;
    put(rt.alloc(), &mut store, DECLARATION, long.as_bytes())?;
    expect_head(&rt, "a long declaration", &mut store, "E007|o|-\n", GOES_ON)
}

/// Further declarations, whether the right one is there too, and the line that the head stops at.
const DECLARED: [(&str, &str, bool, &str); 5] = [
    ("1.0 and 1.1", "o/0=ocfl_object_1.0", true, "E003|o|-\n"),
    ("2.0 and 1.1", "o/0=ocfl_object_2.0", true, "E003|o|-\n"),
    ("2.0", "o/0=ocfl_object_2.0", false, "S01|o|2.0\n"),
    ("1.0.1", "o/0=ocfl_object_1.0.1", false, "S01|o|1.0.1\n"),
    (
        "2.0 with a letter beyond ASCII",
        "o/0=ocfl_object_2.0\u{e9}",
        false,
        "S01|o|2.0%C3%A9\n",
    ),
];

/// What else may be wrong then, and has no line.
const NOT_LOOKED_AT: [(&str, &[(&str, &str)]); 4] = [
    ("nothing else", &[]),
    ("no JSON", &[("o/inventory.json", "abc")]),
    ("no inventory", &[("-o/inventory.json", "")]),
    (
        "no inventory and no sidecar",
        &[("-o/inventory.json.sha256", ""), ("-o/inventory.json", "")],
    ),
];

#[test]
fn heads_that_stop_at_declarations(rt: HostRuntime) -> Result<(), Fail> {
    for (declared, further, is_right_there, line) in DECLARED {
        for (wrong, changes) in NOT_LOOKED_AT {
            let row = format!(in rt.alloc(); "declarations {declared}, and {wrong}")?;
            let mut store = right_object(rt.alloc())?;
            put(rt.alloc(), &mut store, further, b"")?;
            if !is_right_there {
                store.remove(&place_of(rt.alloc(), DECLARATION)?)?;
            } else if !changes.is_empty() {
                put(rt.alloc(), &mut store, DECLARATION, b"")?;
            }
            change(rt.alloc(), &mut store, changes)?;
            expect_head(&rt, row.as_str(), &mut store, line, STOPS)?;
            assert!(rt; store.openings().is_empty(), "{row}");
        }
    }
    Ok(())
}

// ---- sidecars

/// The root of a right object, its sidecar the right digits with this after them.
fn object_with_digits_and(alloc: Global, behind: &str) -> Result<MemTree, Fail> {
    let inventory = listing(alloc, LISTS_F, "")?;
    let digits = short_digits(alloc, inventory.as_bytes())?;
    let mut store = object_with(alloc, inventory.as_str())?;
    let text = format!(in alloc; "{digits}{behind}")?;
    put(alloc, &mut store, SHORT_SIDECAR, text.as_bytes())?;
    Ok(store)
}

/// The line of a head whose sidecar is of the form, and of one whose sidecar is not.
const OF_THE_FORM: &str = "ok|o|-\n";

const NOT_OF_IT: &str = "E061|o|sha256\n";

/// What follows the right digits in a sidecar, and the line of the head then.
const SIDECARS: [(&str, &str, &str); 10] = [
    ("one blank", " inventory.json\n", OF_THE_FORM),
    (
        "two blanks and no line feed",
        "  inventory.json",
        OF_THE_FORM,
    ),
    (
        "blanks around and two line ends",
        "\t \tinventory.json \t\r\n\n",
        OF_THE_FORM,
    ),
    ("a star before the name", " *inventory.json\n", NOT_OF_IT),
    ("no blank", "inventory.json\n", NOT_OF_IT),
    (
        "a line feed before the name",
        "\ninventory.json\n",
        NOT_OF_IT,
    ),
    ("a letter after the line", " inventory.json\nx", NOT_OF_IT),
    ("another name", " inventory.jso\n", NOT_OF_IT),
    ("65 digits", "0 inventory.json\n", NOT_OF_IT),
    ("digits alone", "", NOT_OF_IT),
];

/// With the right digits and this after them in its sidecar, the head of the object has this line,
/// and its content is checked.
fn expect_sidecar(rt: &impl Runtime, row: &str, behind: &str, lines: &str) -> Result<(), Fail> {
    let mut store = object_with_digits_and(rt.alloc(), behind)?;
    expect_head(rt, row, &mut store, lines, GOES_ON)?;
    let text = format!(in rt.alloc(); "ok|.|-\n{lines}{FILE_IS_OK}")?;
    let status = u8::from(lines == NOT_OF_IT);
    expect_audit(rt, row, &mut store, text.as_str(), status, "")
}

#[test]
fn forms_of_sidecars(rt: HostRuntime) -> Result<(), Fail> {
    // With the digits they have 4,096 bytes, and one more.
    let longest = format!(in rt.alloc(); " inventory.json\n{}", " ".repeat(rt.alloc(), 4016)?)?;
    let longer = format!(in rt.alloc(); "{longest} ")?;
    assert_eq!(rt; longest.len(), 4096 - 64);
    for (row, behind, lines) in SIDECARS {
        expect_sidecar(&rt, row, behind, lines)?;
    }
    expect_sidecar(&rt, "4,096 bytes", longest.as_str(), OF_THE_FORM)?;
    expect_sidecar(&rt, "4,097 bytes", longer.as_str(), NOT_OF_IT)
}

#[test]
fn no_sidecar_of_the_named_algorithm(rt: HostRuntime) -> Result<(), Fail> {
    let members =
        r#""digestAlgorithm":"sha512","manifest":{"ABC_SHA512":["v1/content/f"]},"fixity":{}"#;
    let by_sha512 = inventory(rt.alloc(), members)?;
    let right = long_sidecar(rt.alloc(), by_sha512.as_str())?;
    let mut store = object_with(rt.alloc(), by_sha512.as_str())?;
    let row = "the short sidecar alone";
    expect_head(&rt, row, &mut store, "E058|o|sha512\n", GOES_ON)?;
    for (row, path, text) in [
        ("both sidecars", LONG_SIDECAR, right.as_str()),
        ("the long sidecar alone", "-o/inventory.json.sha256", ""),
    ] {
        change(rt.alloc(), &mut store, &[(path, text)])?;
        expect_head(&rt, row, &mut store, "ok|o|-\n", GOES_ON)?;
    }
    Ok(())
}

// ---- stores that fail

/// The root of a right object with both sidecars.
fn object_with_both_sidecars(alloc: Global) -> Result<MemTree, Fail> {
    let inventory = listing(alloc, LISTS_F, "")?;
    let long = long_sidecar(alloc, inventory.as_str())?;
    let mut store = object_with(alloc, inventory.as_str())?;
    put(alloc, &mut store, LONG_SIDECAR, long.as_bytes())?;
    Ok(store)
}

/// With this call failing, the check of the object stops: it writes nothing, and opens no file
/// after that one.
fn stops_at(rt: &impl Runtime, call: &str, place: &str, point: Point) -> Result<(), Fail> {
    let mut store = object_with_both_sidecars(rt.alloc())?;
    let failing = place_of(rt.alloc(), place)?;
    store.fail_at(&failing, point)?;
    let note = format!(in rt.alloc(); "stopped at {place}")?;
    let row = format!(in rt.alloc(); "{call} {place}")?;
    expect(rt, row.as_str(), &mut store, "o", "", 3, note.as_str())?;
    let [.., last] = store.openings() else {
        return Err("no file was opened".into());
    };
    assert!(rt; last.place == failing && last.failed, "{row}");
    assert_eq!(rt; store.failures(), 1, "{row}");
    Ok(())
}

#[test]
fn files_of_the_head_that_fail(rt: HostRuntime) -> Result<(), Fail> {
    let mut store = object_with_both_sidecars(rt.alloc())?;
    finds(&rt, "no failure", &mut store, "ok|o|-\n")?;
    for place in [DECLARATION, INVENTORY, SHORT_SIDECAR, LONG_SIDECAR] {
        stops_at(&rt, "opening", place, Point::Open)?;
        stops_at(&rt, "reading the first byte of", place, Point::Read(0))?;
        stops_at(&rt, "reading the second byte of", place, Point::Read(1))?;
    }
    Ok(())
}

#[test]
fn directories_to_the_object_that_fail(rt: HostRuntime) -> Result<(), Fail> {
    for (place, note) in [("o", "stopped at o"), (".", "stopped at .")] {
        let mut store = right_object(rt.alloc())?;
        store.fail_at(&place_of(rt.alloc(), place)?, Point::List)?;
        expect(&rt, note, &mut store, "o", "", 3, note)?;
        let is_right = store.openings().is_empty() || place == "o";
        assert!(rt; is_right, "{note}");
    }
    Ok(())
}

// ---- what is no object

/// What is changed in the root of a right object, and places without an item then.
const NO_ITEMS: [(&str, &[(&str, &str)], &[&str]); 5] = [
    (
        "a directory and a link named like declarations",
        &[
            ("-o/0=ocfl_object_1.1", ""),
            ("o/0=ocfl_object_1.0/", ""),
            ("o/0=ocfl_object_2.0@", ""),
        ],
        &["o"],
    ),
    // above an object, where nothing is, where objects do not count, and within one
    (
        "above, beside and within objects",
        &[
            ("h/p/0=ocfl_object_1.1", "ocfl_object_1.1\n"),
            ("extensions/p/0=ocfl_object_1.1", "ocfl_object_1.1\n"),
            ("o/extensions/p/0=ocfl_object_1.1", "ocfl_object_1.1\n"),
        ],
        &[
            "h",
            "i",
            "extensions/p",
            "o/extensions/p",
            "o/v1",
            "o/v1/content",
        ],
    ),
    // storage roots whose version is not known
    (
        "a storage root of two declarations",
        &[("0=ocfl_1.1", "ocfl_1.1"), ("0=ocfl_1.0", "ocfl_1.0\n")],
        &["o"],
    ),
    (
        "a storage root without a declaration",
        &[("-0=ocfl_1.1", "")],
        &["o"],
    ),
    (
        "a storage root of 2.0",
        &[("-0=ocfl_1.1", ""), ("0=ocfl_2.0", "ocfl_2.0\n")],
        &["o"],
    ),
];

#[test]
fn places_without_an_item(rt: HostRuntime) -> Result<(), Fail> {
    for (row, changes, places) in NO_ITEMS {
        let mut store = right_object(rt.alloc())?;
        change(rt.alloc(), &mut store, changes)?;
        for place in places {
            expect(&rt, row, &mut store, place, "", 0, "no item")?;
        }
        if places.len() > 1 {
            expect(&rt, row, &mut store, "h/p", "E063|h/p|-\n", 1, "")?;
            finds(&rt, row, &mut store, "ok|o|-\n")?;
        }
    }
    Ok(())
}
