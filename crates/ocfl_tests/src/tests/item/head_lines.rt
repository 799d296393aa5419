//! The lines of an object's head, by its declarations, its inventory and its sidecars.
use crate::tests::common::Runtime;
use crate::tests::common::object::bare_root;
use crate::tests::common::store::put;
use crate::tests::walk::expect_item;
use std::test::Fail;

const BY_SHA512: &str = "{\"digestAlgorithm\":\"sha512\",\"manifest\":{}}";

/// The sidecars of that inventory.
const RIGHT_SHORT: &str =
    "34fe38ac6f57609d8136cdef47650d9b045f7d71a626a297ce4d0d12f9f443aa inventory.json\n";

const RIGHT_LONG: &str =
    "1fee355098cee18e19b2a9beac6535bed2d76868179d693195ee0968527da477cff7765fa11a35489704a35e3964ff000b461f1fe4dbcbf7d7527ee4c01a2544 inventory.json\n";

/// The head of the object `p/o` with files of these names and texts, in which digests may be named,
/// has these lines.
fn says(rt: &impl Runtime, row: &str, files: &[(&str, &str)], want: &str) -> Result<(), Fail> {
    let alloc = rt.alloc();
    let mut store = bare_root(alloc)?;
    for (name, text) in files {
        let path = format!(in alloc; "p/o/{name}")?;
        let text = crate::tests::common::digests::with_digests(alloc, text)?;
        put(alloc, &mut store, path.as_str(), text.as_bytes())?;
    }
    expect_item(rt, row, &mut store, "p/o", want, 0)
}

const OLD: &str = "0=ocfl_object_1.0";

const NEW: &str = "0=ocfl_object_1.1";

#[test]
fn declarations(rt: HostRuntime) -> Result<(), Fail> {
    let over = "x".repeat(rt.alloc(), 4_097)?;
    for (row, name, text, want) in [
        ("the older version", OLD, "ocfl_object_1.0\n", "ok|p/o|-\n"),
        ("the newer version", NEW, "ocfl_object_1.1\n", "ok|p/o|-\n"),
        ("no byte", NEW, "", "E007|p/o|-\n"),
        (
            "the text of the older version",
            NEW,
            "ocfl_object_1.0\n",
            "E007|p/o|-\n",
        ),
        ("no line feed", NEW, "ocfl_object_1.1", "E007|p/o|-\n"),
        (
            "the text of a storage root",
            NEW,
            "ocfl_1.1\n",
            "E007|p/o|-\n",
        ),
        ("4,097 bytes", NEW, over.as_str(), "E007|p/o|-\n"),
    ] {
        let rest = ("inventory.json", BY_SHA512);
        let files = [(name, text), rest, ("inventory.json.sha512", RIGHT_LONG)];
        says(&rt, row, &files, want)?;
    }
    Ok(())
}

#[test]
fn heads_stop_at_their_declarations(rt: HostRuntime) -> Result<(), Fail> {
    let later = ("0=ocfl_object_2.0\u{e9}", "");
    says(
        &rt,
        "a letter beyond ASCII",
        &[("v1", ""), later],
        "S01|p/o|2.0%C3%A9\n",
    )?;
    says(&rt, "1.0 and 1.1", &[(OLD, ""), (NEW, "")], "E003|p/o|-\n")?;
    let both = [("0=ocfl_object_2.0", ""), (NEW, "")];
    says(&rt, "2.0 and 1.1", &both, "E003|p/o|-\n")
}

/// A name, an inventory, its sidecars for sha256 and sha512 if they are there, and the lines.
const INVENTORIES: [(&str, &str, Option<&str>, Option<&str>, &str); 14] = [
    (
        "both sidecars",
        BY_SHA512,
        Some(RIGHT_SHORT),
        Some(RIGHT_LONG),
        "ok|p/o|-\n",
    ),
    (
        "the right sidecar alone",
        BY_SHA512,
        None,
        Some(RIGHT_LONG),
        "ok|p/o|-\n",
    ),
    ("no sidecar", BY_SHA512, None, None, "E058|p/o|-\n"),
    (
        "the other sidecar alone",
        BY_SHA512,
        Some(RIGHT_SHORT),
        None,
        "E058|p/o|sha512\n",
    ),
    // The one that is there is not of the form, but it is there.
    (
        "a bad sidecar of another algorithm",
        "{\"digestAlgorithm\":\"sha256\",\"manifest\":{}}",
        None,
        Some(""),
        "E061|p/o|sha512\nE058|p/o|sha256\n",
    ),
    // digests of something else
    (
        "a wrong sidecar of another algorithm",
        BY_SHA512,
        Some("ABC_CAPITALS inventory.json\n"),
        Some(RIGHT_LONG),
        "E060|p/o|sha256 ABC_SHA256 34fe38ac6f57609d8136cdef47650d9b045f7d71a626a297ce4d0d12f9f443aa\n",
    ),
    (
        "two wrong sidecars",
        BY_SHA512,
        Some("ABC_CAPITALS inventory.json\n"),
        Some("ABC_SHA512 inventory.json\n"),
        "E060|p/o|sha256 ABC_SHA256 34fe38ac6f57609d8136cdef47650d9b045f7d71a626a297ce4d0d12f9f443aa\nE060|p/o|sha512 ABC_SHA512 1fee355098cee18e19b2a9beac6535bed2d76868179d693195ee0968527da477cff7765fa11a35489704a35e3964ff000b461f1fe4dbcbf7d7527ee4c01a2544\n",
    ),
    // the lines of the inventory come last
    (
        "lines of the inventory come last",
        "{\"digestAlgorithm\":\"sha512\",\"manifest\":{\"aa\":[\"/x\",\"\"]},\"fixity\":{\"crc\":{}}}",
        Some(""),
        None,
        "E061|p/o|sha256\nE058|p/o|sha512\nE099|p/o|\nE100|p/o|/x\nS07|p/o|crc\n",
    ),
    (
        "no manifest and a bad sidecar",
        "{\"digestAlgorithm\":\"sha512\"}",
        Some(""),
        None,
        "E061|p/o|sha256\nE058|p/o|sha512\nE041|p/o|manifest\n",
    ),
    // no algorithm is named
    (
        "half of an inventory without a sidecar",
        "{",
        None,
        None,
        "E058|p/o|-\nE033|p/o|-\n",
    ),
    (
        "no algorithm and no sidecar",
        "{}",
        None,
        None,
        "E058|p/o|-\nE036|p/o|digestAlgorithm\n",
    ),
    (
        "another algorithm and no sidecar",
        "{\"digestAlgorithm\":\"md5\"}",
        None,
        None,
        "E058|p/o|-\nE025|p/o|md5\n",
    ),
    (
        "an array and a bad sidecar",
        "[]",
        Some(""),
        None,
        "E061|p/o|sha256\nE033|p/o|-\n",
    ),
    (
        "no algorithm and a right sidecar",
        "{}",
        Some("BRACES_SHA256 inventory.json\n"),
        None,
        "E036|p/o|digestAlgorithm\n",
    ),
];

/// An inventory of this text, with these sidecars for sha256 and sha512, gives these lines.
fn inventory_says(
    rt: &impl Runtime,
    row: &str,
    text: &str,
    sidecars: (Option<&str>, Option<&str>),
    want: &str,
) -> Result<(), Fail> {
    let mut files = Vec::new(rt.alloc());
    files.push((NEW, "ocfl_object_1.1\n"))?;
    files.push(("inventory.json", text))?;
    let (short, long) = sidecars;
    for (name, sidecar) in [
        ("inventory.json.sha256", short),
        ("inventory.json.sha512", long),
    ] {
        if let Some(sidecar) = sidecar {
            files.push((name, sidecar))?;
        }
    }
    says(rt, row, files.as_slice(), want)
}

#[test]
fn inventories_and_their_sidecars(rt: HostRuntime) -> Result<(), Fail> {
    for (row, text, short, long, want) in INVENTORIES {
        inventory_says(&rt, row, text, (short, long), want)?;
    }
    // One sidecar is too long, and the other one has the digest of another algorithm.
    let over = "x".repeat(rt.alloc(), 4_097)?;
    let sidecars = (Some(over.as_str()), Some(RIGHT_SHORT));
    inventory_says(
        &rt,
        "a long sidecar and a short one",
        BY_SHA512,
        sidecars,
        "E061|p/o|sha256\nE061|p/o|sha512\n",
    )
}
