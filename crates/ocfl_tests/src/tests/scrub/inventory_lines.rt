//! Checks of objects by what their inventories hold.
use super::expected::{FILE_IS_OK, GOES_ON, STOPS, expect, expect_head, finds};
use crate::tests::common::inventories::{NO_OBJECTS, STOPPING};
use crate::tests::common::object::{
    FILE, INVENTORY, LISTS_F, SHORT_SIDECAR, inventory, listing, object_with, short_digits,
};
use crate::tests::common::store::put;
use ocfl_memory::MemTree;
use std::alloc::Global;
use std::test::Fail;

/// An inventory that lists `v1/content/f`, with a `state` of this JSON.
fn with_state(alloc: Global, state: &str) -> Result<String, Fail> {
    let members =
        r#""digestAlgorithm":"sha256","manifest":{"ABC_SHA256":["v1/content/f"]},"state":"#;
    inventory(alloc, format!(in alloc; "{members}{state}")?.as_str())
}

#[test]
fn inventories_that_are_no_object_in_json(rt: HostRuntime) -> Result<(), Fail> {
    let number = with_state(rt.alloc(), "1e999")?;
    let surrogate = with_state(rt.alloc(), "\"\\ud800\"")?;
    let in_the_state = [
        ("a number too large in the state", number.as_str()),
        ("half of a pair in the state", surrogate.as_str()),
    ];
    for (row, text) in NO_OBJECTS.iter().chain(&in_the_state) {
        let mut store = object_with(rt.alloc(), text)?;
        expect_head(&rt, row, &mut store, "E033|o|-\n", STOPS)?;
    }
    Ok(())
}

/// The root of an object whose inventory is these bytes, with a right sidecar.
fn object_with_bytes(alloc: Global, bytes: &[u8]) -> Result<MemTree, Fail> {
    let mut store = object_with(alloc, "{}")?;
    put(alloc, &mut store, INVENTORY, bytes)?;
    let sidecar = format!(in alloc; "{} inventory.json\n", short_digits(alloc, bytes)?)?;
    put(alloc, &mut store, SHORT_SIDECAR, sidecar.as_bytes())?;
    Ok(store)
}

#[test]
fn byte_that_is_no_utf8(rt: HostRuntime) -> Result<(), Fail> {
    let bytes = b"{\"digestAlgorithm\":\"sha256\",\"manifest\":{},\"state\":\"\xFF\"}";
    let mut store = object_with_bytes(rt.alloc(), bytes)?;
    expect_head(&rt, "the byte 0xFF", &mut store, "E033|o|-\n", STOPS)?;
    let bytes = b"{\"digestAlgorithm\":\"sha256\",\"manifest\":{},\"state\":\"\xC3\xBF\"}";
    let mut store = object_with_bytes(rt.alloc(), bytes)?;
    finds(&rt, "a letter of two bytes", &mut store, "ok|o|-\n")
}

#[test]
fn arrays_nest_to_126_in_the_inventory(rt: HostRuntime) -> Result<(), Fail> {
    let alloc = rt.alloc();
    for (arrays, line) in [
        (100, "ok|o|-\n"),
        (126, "ok|o|-\n"),
        (127, "E033|o|-\n"),
        (200, "E033|o|-\n"),
    ] {
        let (front, back) = ("[".repeat(alloc, arrays)?, "]".repeat(alloc, arrays)?);
        let inventory = with_state(alloc, format!(in alloc; "{front}{back}")?.as_str())?;
        let row = format!(in alloc; "{arrays} arrays")?;
        let mut store = object_with(alloc, inventory.as_str())?;
        finds(&rt, row.as_str(), &mut store, line)?;
    }
    Ok(())
}

#[test]
fn inventories_that_stop_the_head(rt: HostRuntime) -> Result<(), Fail> {
    for (code, detail, inventories) in STOPPING {
        let line = format!(in rt.alloc(); "{code}|o|{detail}\n")?;
        for (row, members) in inventories {
            let inventory = inventory(rt.alloc(), members)?;
            let mut store = object_with(rt.alloc(), inventory.as_str())?;
            expect_head(&rt, row, &mut store, line.as_str(), STOPS)?;
        }
    }
    let members = r#""digestAlgorithm":"% /é\t","manifest":{},"fixity":{}"#;
    let inventory = inventory(rt.alloc(), members)?;
    let mut store = object_with(rt.alloc(), inventory.as_str())?;
    let line = "E025|o|%25 /%C3%A9%09\n";
    expect_head(
        &rt,
        "an algorithm with odd letters",
        &mut store,
        line,
        STOPS,
    )
}

/// A manifest and a fixity block without their braces, and the lines of a head that does not stop.
const GO_ON: [(&str, &str, &str, &str); 13] = [
    // each bad text by the first rule that it breaks, ascending
    (
        "a bad path of each kind",
        r#""ABC_SHA256":["x/content/a","/a","v1/content/f","v1/content/../b"]"#,
        "",
        "E100|o|/a\nE099|o|v1/content/../b\nS06|o|x/content/a\n",
    ),
    (
        "paths that are nearly content paths",
        r#""ABC_SHA256":["","v1/content/f","v1/content/f/","v1//f","v1/content","v/content/f","v1/c/f","v1a/content/f","v1/content/\u0000"]"#,
        "",
        "E099|o|\nS06|o|v/content/f\nE099|o|v1//f\nS06|o|v1/c/f\nS06|o|v1/content\nS06|o|v1/content/%00\nE100|o|v1/content/f/\nS06|o|v1a/content/f\n",
    ),
    // once in the manifest, and once in all of fixity
    (
        "a bad path in the manifest and twice in fixity",
        r#""ABC_SHA256":["v1/content/f","/x"]"#,
        r#""md5":{"ABC_MD5":["/x"]},"sha1":{"ABC_SHA1":["/x"]}"#,
        "E100|o|/x\nE100|o|/x\n",
    ),
    (
        "a bad path twice in the manifest and once in fixity",
        r#""ABC_SHA256":["v1/content/f","/x","/x"]"#,
        r#""sha512/256":{"a":["/x"]}"#,
        "E100|o|/x\nE100|o|/x\n",
    ),
    // a path that another one begins with, by elements and not by letters
    (
        "a path below another one",
        r#""ABC_SHA256":["v1/content/f","v1/content/f/g"]"#,
        "",
        "E101|o|v1/content/f\n",
    ),
    (
        "paths below one another",
        r#""ABC_SHA256":["v1/content/a/b/c","v1/content/a-b","v1/content/a","v1/content/f","v1/content/a/b","v1/content/ff"]"#,
        "",
        "E101|o|v1/content/a\nE101|o|v1/content/a/b\n",
    ),
    // twice in one list
    (
        "a path twice",
        r#""ABC_SHA256":["v1/content/f","v1/content/f"]"#,
        "",
        "E101|o|v1/content/f\n",
    ),
    (
        "a path three times",
        r#""ABC_SHA256":["v1/content/f","v1/content/f","v1/content/f"]"#,
        "",
        "E101|o|v1/content/f\n",
    ),
    // paths conflict in the manifest alone
    (
        "conflicts in fixity alone",
        r#""ABC_SHA256":["v1/content/f","v1/content/f-g"]"#,
        r#""md5":{"ABC_MD5":["v1/content/f","v1/content/f","v1/content/f/g"]}"#,
        "ok|o|-\n",
    ),
    // a digest twice
    (
        "a path under a digest in two cases",
        r#""ABC_SHA256":["v1/content/f"],"ABC_CAPITALS":["v1/content/f"]"#,
        "",
        "E096|o|ABC_SHA256\nE101|o|v1/content/f\n",
    ),
    (
        "a digest of fixity in two cases",
        LISTS_F,
        r#""md5":{"ABC_MD5":["v1/content/f"],"900150983CD24FB0D6963F7D28E17F72":["v1/content/f"]}"#,
        "E097|o|md5 ABC_MD5\n",
    ),
    (
        "digests in two cases under three algorithms",
        LISTS_F,
        r#""sha512/256":{"b":[],"B":[]},"sha1":{"a":[],"A":[]},"md5":{"x":[],"X":[],"W":[],"w":[]}"#,
        "E097|o|md5 w\nE097|o|md5 x\nE097|o|sha1 a\nE097|o|sha512/256 b\n",
    ),
    // algorithms that are computed are not noted
    (
        "algorithms that are computed",
        LISTS_F,
        r#""sha512/256":{"ABC_SHA512/256":["v1/content/f"]},"md5":{},"sha1":{},"sha256":{},"sha512":{}"#,
        "ok|o|-\n",
    ),
];

#[test]
fn lines_of_inventories(rt: HostRuntime) -> Result<(), Fail> {
    for (row, manifest, fixity, lines) in GO_ON {
        let inventory = listing(rt.alloc(), manifest, fixity)?;
        let mut store = object_with(rt.alloc(), inventory.as_str())?;
        expect_head(&rt, row, &mut store, lines, GOES_ON)?;
    }
    Ok(())
}

#[test]
fn algorithms_that_are_not_computed_are_no_findings(rt: HostRuntime) -> Result<(), Fail> {
    for (row, fixity, lines) in [
        ("one algorithm", r#""blake2b-512":7"#, "S07|o|blake2b-512\n"),
        (
            "three algorithms beside md5",
            r#""sha3":[],"blake2b-512":{"x":["/x"]},"MD5":7,"md5":{}"#,
            "S07|o|MD5\nS07|o|blake2b-512\nS07|o|sha3\n",
        ),
    ] {
        let inventory = listing(rt.alloc(), LISTS_F, fixity)?;
        let mut store = object_with(rt.alloc(), inventory.as_str())?;
        expect(&rt, row, &mut store, "o", lines, 0, "")?;
        expect(&rt, row, &mut store, FILE, FILE_IS_OK, 0, "")?;
    }
    Ok(())
}

#[test]
fn path_below_a_listed_file(rt: HostRuntime) -> Result<(), Fail> {
    let mut store = listing_paths(rt.alloc(), r#""v1/content/f","v1/content/f/g""#)?;
    let row = "a path below a listed file";
    expect_head(&rt, row, &mut store, "E101|o|v1/content/f\n", GOES_ON)?;
    let missing = "E092|o/v1/content/f/g|sha256 missing\n";
    expect(&rt, row, &mut store, "o/v1/content/f/g", missing, 1, "")
}

/// The root of an object that lists these paths under the digest of `abc`, with its file `f`.
fn listing_paths(alloc: Global, paths: &str) -> Result<MemTree, Fail> {
    let manifest = format!(in alloc; "\"ABC_SHA256\":[{paths}]")?;
    object_with(alloc, listing(alloc, manifest.as_str(), "")?.as_str())
}

/// Listed paths by their names and the letters of the last one, and whether they are kept.
const LIMITS: [(&str, usize, usize, bool); 6] = [
    ("three names", 3, 1, true),
    ("128 names", 128, 1, true),
    ("a name of 255 letters", 3, 255, true),
    ("128 names, the last of 255 letters", 128, 255, true),
    ("129 names", 129, 1, false),
    ("a name of 256 letters", 3, 256, false),
];

#[test]
fn limits_of_paths(rt: HostRuntime) -> Result<(), Fail> {
    let alloc = rt.alloc();
    for (row, elements, letters, is_kept) in LIMITS {
        let directories = "/d".repeat(alloc, elements - 3)?;
        let last = "f".repeat(alloc, letters)?;
        let path = format!(in alloc; "v1/content{directories}/{last}")?;
        assert_eq!(rt; path.split('/').count(), elements, "{row}");
        let mut store = listing_paths(alloc, format!(in alloc; "\"{path}\"")?.as_str())?;
        if is_kept {
            finds(&rt, row, &mut store, "ok|o|-\n")?;
        } else {
            let line = format!(in alloc; "S06|o|{path}\n")?;
            finds(&rt, row, &mut store, line.as_str())?;
        }
        let place = format!(in alloc; "o/{path}")?;
        // If `f` itself is listed it is there.
        if letters == 255 {
            let missing = format!(in alloc; "E092|o/{path}|sha256 missing\n")?;
            let lines = missing.as_str();
            expect(&rt, row, &mut store, place.as_str(), lines, 1, "")?;
        } else if elements == 129 {
            expect(&rt, row, &mut store, place.as_str(), "", 0, "no item")?;
        }
    }
    Ok(())
}
