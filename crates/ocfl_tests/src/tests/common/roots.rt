//! Storage roots that the tests of more than one crate walk, audit or check.
use crate::tests::common::object::{
    FILE, LISTS_F, LONG_SIDECAR, SHORT_SIDECAR, bare_root, inventory, listing, long_sidecar,
    object_listing, object_with, object_without_files, put_right_object,
};
use crate::tests::common::store::{change, place_of, put};
use ocfl_memory::{MemTree, Point};
use std::alloc::Global;
use std::test::Fail;

/// A storage root: its name, what the manifest and the fixity block of its object `o` list, if
/// there is one, and the changes that are made to it then. After them the lines of all its items,
/// with bars for tabs, what judging these costs and the status of an audit.
pub type Root = (
    &'static str,
    Option<(&'static str, &'static str)>,
    &'static [(&'static str, &'static str)],
    &'static str,
    (u64, u8),
);

/// What lists the file `f` of the bytes `abc`.
const F_OF_ABC: Option<(&str, &str)> = Some((LISTS_F, ""));

/// What lists a file of each of three versions.
const THREE_VERSIONS: Option<(&str, &str)> = Some((
    r#""ABC_SHA256":["v10/content/f","v2/content/f","v3/content/f"]"#,
    "",
));

/// The empty file `f` under four algorithms.
const UNDER_FOUR_ALGORITHMS: Root = (
    "an empty file under four algorithms",
    Some((
        r#""NOTHING_SHA256":["v1/content/f"]"#,
        r#""md5":{"NOTHING_MD5":["v1/content/f"]},"sha1":{"NOTHING_SHA1":["v1/content/f"]},"sha512":{"NOTHING_SHA512":["v1/content/f"]}"#,
    )),
    &[(FILE, "")],
    "ok|.|-\nok|o|-\nok|o/v1/content/f|0\n",
    (1, 0),
);

/// A file that has the right digest in the manifest, and a wrong one in fixity.
const WRONG_FIXITY: Root = (
    "a wrong digest in fixity",
    Some((LISTS_F, r#""md5":{"NOTHING_MD5":["v1/content/f"]}"#)),
    &[(FILE, "abc")],
    "ok|.|-\nok|o|-\nE093|o/v1/content/f|md5 NOTHING_MD5 ABC_MD5\n",
    (4, 1),
);

/// The missing file `a`, and the file `b`.
const MISSING_AND_THERE: Root = (
    "a missing file and one that is there",
    Some((
        r#""NOTHING_SHA256":["v1/content/a"],"ABC_SHA256":["v1/content/b"]"#,
        r#""sha1":{"NOTHING_SHA1":["v1/content/a"]}"#,
    )),
    &[("o/v1/content/b", "abc")],
    "ok|.|-\nok|o|-\nE092|o/v1/content/a|sha256 missing\nE093|o/v1/content/a|sha1 missing\nok|o/v1/content/b|3\n",
    (4, 1),
);

/// The content files `a` and `c` of the bytes `abc`, and the empty `b` between them.
const THREE_FILES: Root = (
    "three files",
    Some((
        r#""ABC_SHA256":["v1/content/a","v1/content/c"],"NOTHING_SHA256":["v1/content/b"]"#,
        "",
    )),
    &[
        ("o/v1/content/a", "abc"),
        ("o/v1/content/b", ""),
        ("o/v1/content/c", "abc"),
    ],
    "ok|.|-\nok|o|-\nok|o/v1/content/a|3\nok|o/v1/content/b|0\nok|o/v1/content/c|3\n",
    (9, 0),
);

/// The content files `a-b` and `a/b` of the bytes `abc`.
const TWO_FILES: Root = (
    "a slash before a dash",
    Some((r#""ABC_SHA256":["v1/content/a/b","v1/content/a-b"]"#, "")),
    &[("o/v1/content/a/b", "abc"), ("o/v1/content/a-b", "abc")],
    "ok|.|-\nok|o|-\nok|o/v1/content/a/b|3\nok|o/v1/content/a-b|3\n",
    (8, 0),
);

/// Storage roots whose audits and walks are tried.
pub const ROOTS: [Root; 34] = [
    UNDER_FOUR_ALGORITHMS,
    WRONG_FIXITY,
    MISSING_AND_THERE,
    THREE_FILES,
    // the storage root's own line
    ("a declaration alone", None, &[], "ok|.|-\n", (0, 0)),
    (
        "no declaration",
        None,
        &[("-0=ocfl_1.1", "")],
        "E069|.|-\n",
        (0, 1),
    ),
    (
        "two declarations",
        None,
        &[("0=ocfl_1.0", "ocfl_1.0\n")],
        "E076|.|-\n",
        (0, 1),
    ),
    (
        "two declarations and a directory",
        None,
        &[("0=ocfl_1.0", "ocfl_1.0\n"), ("x/", "")],
        "E076|.|-\n",
        (0, 1),
    ),
    (
        "a declaration without its line feed",
        None,
        &[("0=ocfl_1.1", "ocfl_1.1"), ("x/", "")],
        "E080|.|-\nE073|x|-\n",
        (0, 1),
    ),
    (
        "a declaration of 2.0",
        None,
        &[("-0=ocfl_1.1", ""), ("0=ocfl_2.0", ""), ("x/", "")],
        "S01|.|2.0\n",
        (0, 1),
    ),
    (
        "an object below a declaration of 2.0",
        F_OF_ABC,
        &[
            ("-0=ocfl_1.1", ""),
            ("0=ocfl_2.0", "ocfl_2.0\n"),
            (FILE, "abc"),
        ],
        "S01|.|2.0\n",
        (0, 1),
    ),
    (
        "an object below a bad declaration",
        F_OF_ABC,
        &[("0=ocfl_1.1", "ocfl_1.1"), (FILE, "abc")],
        "E080|.|-\nok|o|-\nok|o/v1/content/f|3\n",
        (4, 1),
    ),
    // what belongs to no object
    (
        "a file among the extensions",
        None,
        &[
            ("notes", ""),
            ("x/", ""),
            ("y/readme", ""),
            ("extensions/k", ""),
            ("z@", ""),
        ],
        "ok|.|-\nE073|x|-\nE072|y/readme|-\nS04|z|-\n",
        (0, 1),
    ),
    (
        "a directory among the extensions",
        None,
        &[
            ("notes", ""),
            ("x/", ""),
            ("y/readme", ""),
            ("extensions/k/", ""),
            ("z@", ""),
        ],
        "ok|.|-\nE073|x|-\nE072|y/readme|-\nS04|z|-\n",
        (0, 1),
    ),
    // heads that stop hide what is inside
    (
        "a wrong sidecar and no JSON",
        F_OF_ABC,
        &[
            (FILE, "abc"),
            ("o/inventory.json", "abc"),
            (SHORT_SIDECAR, "ZEROS inventory.json\n"),
        ],
        "ok|.|-\nE060|o|sha256 ZEROS ABC_SHA256\nE033|o|-\n",
        (0, 1),
    ),
    (
        "no algorithm, with a file",
        F_OF_ABC,
        &[
            (FILE, "abc"),
            ("o/inventory.json", "{}"),
            (SHORT_SIDECAR, "BRACES_SHA256 inventory.json\n"),
        ],
        "ok|.|-\nE036|o|digestAlgorithm\n",
        (0, 1),
    ),
    (
        "no algorithm, with what is not looked at",
        F_OF_ABC,
        &[
            ("o/inventory.json", "{}"),
            (SHORT_SIDECAR, "BRACES_SHA256 inventory.json\n"),
            ("o/junk", "abc"),
            ("q/", ""),
        ],
        "ok|.|-\nE036|o|digestAlgorithm\nE073|q|-\n",
        (0, 1),
    ),
    (
        "half of an inventory without a sidecar",
        F_OF_ABC,
        &[
            (FILE, "abc"),
            ("o/inventory.json", "{\"digestAlgorithm\":"),
            ("-o/inventory.json.sha256", ""),
        ],
        "ok|.|-\nE058|o|-\nE033|o|-\n",
        (0, 1),
    ),
    // heads that do not stop
    (
        "no sidecar",
        F_OF_ABC,
        &[(FILE, "abc"), ("-o/inventory.json.sha256", "")],
        "ok|.|-\nE058|o|-\nok|o/v1/content/f|3\n",
        (4, 1),
    ),
    (
        "an algorithm that is not computed",
        Some((LISTS_F, r#""blake2b-512":7"#)),
        &[(FILE, "abc")],
        "ok|.|-\nS07|o|blake2b-512\nok|o/v1/content/f|3\n",
        (4, 0),
    ),
    (
        "an algorithm that is not computed, and no manifest entry",
        Some(("", r#""blake2b-512":7"#)),
        &[(FILE, "abc")],
        "ok|.|-\nS07|o|blake2b-512\nE023|o/v1/content/f|-\n",
        (0, 1),
    ),
    (
        "bad paths in the manifest",
        Some((
            r#""ABC_SHA256":["x/content/a","/a","v1/content/f","v1/content/../b"]"#,
            "",
        )),
        &[(FILE, "abc")],
        "ok|.|-\nE100|o|/a\nE099|o|v1/content/../b\nS06|o|x/content/a\nok|o/v1/content/f|3\n",
        (4, 1),
    ),
    (
        "a digest in two cases",
        Some((
            r#""ABC_SHA256":["v1/content/f"],"ABC_CAPITALS":["v1/content/f"]"#,
            "",
        )),
        &[(FILE, "abc")],
        "ok|.|-\nE096|o|ABC_SHA256\nE101|o|v1/content/f\nok|o/v1/content/f|3\n",
        (4, 1),
    ),
    (
        "a path below a listed file",
        Some((r#""ABC_SHA256":["v1/content/f","v1/content/f/g"]"#, "")),
        &[(FILE, "abc")],
        "ok|.|-\nE101|o|v1/content/f\nok|o/v1/content/f|3\nE092|o/v1/content/f/g|sha256 missing\n",
        (4, 1),
    ),
    // a file that one algorithm of fixity alone names is read
    (
        "fixity by sha512/256 alone",
        Some(("", r#""sha512/256":{"ABC_SHA512/256":["v1/content/f"]}"#)),
        &[(FILE, "abc")],
        "ok|.|-\nok|o|-\nE023|o/v1/content/f|-\n",
        (4, 1),
    ),
    // what is in an object
    (
        "a name with escapes",
        F_OF_ABC,
        &[(FILE, "abc"), ("o/v1/content/é\t% ", "abc")],
        "ok|.|-\nok|o|-\nok|o/v1/content/f|3\nE023|o/v1/content/%C3%A9%09%25 |-\n",
        (4, 1),
    ),
    (
        "a file that nothing names",
        F_OF_ABC,
        &[(FILE, "abc"), ("o/v1/content/z", "abc")],
        "ok|.|-\nok|o|-\nok|o/v1/content/f|3\nE023|o/v1/content/z|-\n",
        (4, 1),
    ),
    (
        "entries where none may be",
        F_OF_ABC,
        &[
            (FILE, "abc"),
            ("o/junk", ""),
            ("o/logs/l", ""),
            ("o/v1/notes", ""),
            ("o/v1/other/x", ""),
        ],
        "ok|.|-\nok|o|-\nE001|o/junk|-\nok|o/v1/content/f|3\nE015|o/v1/notes|-\n",
        (4, 1),
    ),
    (
        "a directory without files in place of a file",
        Some((r#""ABC_SHA256":["v1/content/d"]"#, "")),
        &[("o/v1/content/d/", "")],
        "ok|.|-\nok|o|-\nE024|o/v1/content/d|-\nE092|o/v1/content/d|sha256 missing\n",
        (0, 1),
    ),
    (
        "the same beside a file",
        Some((
            r#""ABC_SHA256":["v1/content/f","v1/content/d"]"#,
            r#""md5":{"NOTHING_MD5":["v1/content/f"]}"#,
        )),
        &[(FILE, "abc"), ("o/v1/content/d/", "")],
        "ok|.|-\nok|o|-\nE024|o/v1/content/d|-\nE092|o/v1/content/d|sha256 missing\nE093|o/v1/content/f|md5 NOTHING_MD5 ABC_MD5\n",
        (4, 1),
    ),
    // the order of names and paths
    TWO_FILES,
    (
        "version 10 before version 2",
        THREE_VERSIONS,
        &[
            ("-o/v1", ""),
            ("o/v10/content/f", "abc"),
            ("o/v2/content/f", "abc"),
        ],
        "ok|.|-\nok|o|-\nok|o/v10/content/f|3\nok|o/v2/content/f|3\nE092|o/v3/content/f|sha256 missing\n",
        (8, 1),
    ),
    (
        "version 10 before version 2, and a directory",
        THREE_VERSIONS,
        &[
            ("-o/v1", ""),
            ("o/v10/content/f", "abc"),
            ("o/v2/content/f", "abc"),
            ("p/", ""),
        ],
        "ok|.|-\nok|o|-\nok|o/v10/content/f|3\nok|o/v2/content/f|3\nE092|o/v3/content/f|sha256 missing\nE073|p|-\n",
        (8, 1),
    ),
    (
        "one right file",
        F_OF_ABC,
        &[(FILE, "abc")],
        "ok|.|-\nok|o|-\nok|o/v1/content/f|3\n",
        (4, 0),
    ),
];

/// The root of a row.
pub fn built(alloc: Global, root: &Root) -> Result<MemTree, Fail> {
    let (_, lists, changes, ..) = root;
    let mut store = match lists {
        Some((manifest, fixity)) => {
            object_without_files(alloc, listing(alloc, manifest, fixity)?.as_str())?
        }
        None => bare_root(alloc)?,
    };
    change(alloc, &mut store, changes)?;
    Ok(store)
}

pub fn under_four_algorithms(alloc: Global) -> Result<MemTree, Fail> {
    built(alloc, &UNDER_FOUR_ALGORITHMS)
}

pub fn wrong_fixity(alloc: Global) -> Result<MemTree, Fail> {
    built(alloc, &WRONG_FIXITY)
}

pub fn missing_and_there(alloc: Global) -> Result<MemTree, Fail> {
    built(alloc, &MISSING_AND_THERE)
}

pub fn two_files(alloc: Global) -> Result<MemTree, Fail> {
    built(alloc, &TWO_FILES)
}

pub fn three_files(alloc: Global) -> Result<MemTree, Fail> {
    built(alloc, &THREE_FILES)
}

/// A storage root with a right object of this name each.
pub fn right_objects(alloc: Global, objects: &[&str]) -> Result<MemTree, Fail> {
    let mut store = bare_root(alloc)?;
    for object in objects {
        put_right_object(alloc, &mut store, object)?;
    }
    Ok(store)
}

/// A storage root with the right object `o`.
pub fn right_object(alloc: Global) -> Result<MemTree, Fail> {
    right_objects(alloc, &["o"])
}

/// A storage root whose object has an inventory by sha512 that lists `f` under this digest, and a
/// content file `f` of the bytes `abc`.
pub fn long_object(alloc: Global, digest: &str) -> Result<MemTree, Fail> {
    let members = format!(in alloc;
        "\"digestAlgorithm\":\"sha512\",\"manifest\":{{\"{digest}\":[\"v1/content/f\"]}}"
    )?;
    let inventory = inventory(alloc, members.as_str())?;
    let mut store = object_with(alloc, inventory.as_str())?;
    store.remove(&place_of(alloc, SHORT_SIDECAR)?)?;
    let right = long_sidecar(alloc, inventory.as_str())?;
    put(alloc, &mut store, LONG_SIDECAR, right.as_bytes())?;
    Ok(store)
}

/// The root of three files, whose first fails in its middle. It gives one byte a read if asked to.
pub fn first_fails(alloc: Global, by_bytes: bool) -> Result<MemTree, Fail> {
    let mut store = three_files(alloc)?;
    if by_bytes {
        store.step(1);
    }
    store.fail_at(&place_of(alloc, "o/v1/content/a")?, Point::Read(2))?;
    Ok(store)
}

/// A storage root whose content file `f` of 65,537 bytes fails so; a right file `g` follows.
pub fn long_file_fails(alloc: Global, point: Point) -> Result<MemTree, Fail> {
    let mut store = object_listing(alloc, r#""v1/content/f","v1/content/g""#)?;
    put(
        alloc,
        &mut store,
        FILE,
        "x".repeat(alloc, 65_537)?.as_bytes(),
    )?;
    put(alloc, &mut store, "o/v1/content/g", b"abc")?;
    store.fail_at(&place_of(alloc, FILE)?, point)?;
    Ok(store)
}

/// A storage root whose content file `f` is named in fixity alone and cannot be opened.
pub fn unread_in_fixity_alone(alloc: Global) -> Result<MemTree, Fail> {
    let inventory = listing(alloc, "", r#""md5":{"ABC_MD5":["v1/content/f"]}"#)?;
    let mut store = object_with(alloc, inventory.as_str())?;
    store.fail_at(&place_of(alloc, FILE)?, Point::Open)?;
    Ok(store)
}

/// A storage root with `count` directories named `d`, each in the one before, and the last one's
/// path.
pub fn nested(alloc: Global, count: usize) -> Result<(MemTree, String), Fail> {
    let mut store = bare_root(alloc)?;
    let names = "d/".repeat(alloc, count)?;
    change(alloc, &mut store, &[(names.as_str(), "")])?;
    let path = names.as_str().strip_suffix("/").unwrap_or("");
    Ok((store, String::from_str(alloc, path)?))
}
