//! Declarations, sidecars, inventories and their tables.
use crate::tests::common::Runtime;
use crate::tests::common::digests::{ABC_SHA256, with_digests};
use crate::tests::common::inventories::{NO_OBJECTS, STOPPING};
use crate::tests::common::store::place_of;
use ocfl_digest::Algorithm;
use ocfl_inventory::declaration::declaration;
use ocfl_inventory::{
    Declared, Level, Table, Version, algorithm_of, declaration_bytes, declaration_name,
    is_declaration_name, is_version_name, read_inventory, sidecar, version_in_name,
};
use ocfl_tree::{Entry, Kind, Name, Place};
use std::alloc::Global;
use std::test::Fail;

/// The text of an inventory with a manifest and further members.
fn inventory(alloc: Global, manifest: &str, further: &str) -> Result<String, Fail> {
    Ok(format!(in alloc;
        "{{\"id\":\"o\",\"digestAlgorithm\":\"sha256\",\"head\":\"v1\",\"manifest\":{manifest},\"versions\":{{}}{further}}}"
    )?)
}

/// The lines of an inventory's bytes, each as its code, a blank, its detail and a line feed, and
/// whether there is a table.
fn lines(alloc: Global, bytes: &[u8]) -> Result<(String, bool), Fail> {
    let (lines, table) = Table::read(alloc, bytes)?;
    let mut text = String::new(alloc);
    for line in &lines {
        let one = format!(in alloc; "{:?} {}\n", line.code, line.detail)?;
        text.push_str(one.as_str())?;
    }
    Ok((text, table.is_some()))
}

/// What a reading of these bytes says, and whether it goes on to a table.
fn expect(
    rt: &impl Runtime,
    row: &str,
    bytes: &[u8],
    wanted: &str,
    goes_on: bool,
) -> Result<(), Fail> {
    let (text, table) = lines(rt.alloc(), bytes)?;
    assert_eq!(rt; text.as_str(), wanted, "{row}");
    assert_eq!(rt; table, goes_on, "{row}: a table");
    Ok(())
}

/// An inventory with this number of arrays within one another.
fn nested(alloc: Global, arrays: usize) -> Result<String, Fail> {
    let front = "[".repeat(alloc, arrays)?;
    let back = "]".repeat(alloc, arrays)?;
    let deep = format!(in alloc; ",\"deep\":{front}{back}")?;
    inventory(alloc, "{}", deep.as_str())
}

#[test]
fn inventories_nest_to_127(rt: HostRuntime) -> Result<(), Fail> {
    let alloc = rt.alloc();
    expect(&rt, "126 arrays", nested(alloc, 126)?.as_bytes(), "", true)?;
    let bytes = nested(alloc, 127)?;
    expect(&rt, "127 arrays", bytes.as_bytes(), "E033 -\n", false)
}

#[test]
fn inventories_that_stop(rt: HostRuntime) -> Result<(), Fail> {
    for (row, text) in NO_OBJECTS {
        expect(&rt, row, text.as_bytes(), "E033 -\n", false)?;
    }
    let bytes = b"{\"a\":\"\xFF\"}";
    expect(&rt, "a byte that is not UTF-8", bytes, "E033 -\n", false)?;
    expect(&rt, "no algorithm", b"{}", "E036 digestAlgorithm\n", false)?;
    let text = r#"{"digestAlgorithm":"sha512"}"#;
    expect(
        &rt,
        "no manifest",
        text.as_bytes(),
        "E041 manifest\n",
        false,
    )?;
    for (code, detail, inventories) in STOPPING {
        let wanted = format!(in rt.alloc(); "{code} {detail}\n")?;
        for (row, members) in inventories {
            let text = format!(in rt.alloc(); "{{{members}}}")?;
            expect(&rt, row, text.as_bytes(), wanted.as_str(), false)?;
        }
    }
    Ok(())
}

/// Manifests, each with its lines.
const MANIFESTS: [(&str, &str, &str); 8] = [
    // bad paths of each kind
    (
        "a bad path of each kind",
        r#"{"a":["x/content/a","/a","v1/content/f","v1/content/../b"]}"#,
        "E100 /a\nE099 v1/content/../b\nS06 x/content/a\n",
    ),
    (
        "paths that are nearly content paths",
        r#"{"a":["","v1/content/f/","v1//f","v1/content","v/content/f","v1/c/f","v1a/content/f"]}"#,
        "E099 \nS06 v/content/f\nE099 v1//f\nS06 v1/c/f\nS06 v1/content\nE100 v1/content/f/\nS06 v1a/content/f\n",
    ),
    // a digest twice in different case, also with no paths
    (
        "a digest in three cases, without paths",
        r#"{"ab":[],"AB":[],"aB":[],"b":[]}"#,
        "E096 ab\n",
    ),
    (
        "a path under a digest in two cases",
        r#"{"a":["v1/content/f"],"A":["v1/content/f"]}"#,
        "E096 a\nE101 v1/content/f\n",
    ),
    // a path that another one begins with by elements
    (
        "a path below another one",
        r#"{"a":["v1/content/f","v1/content/f/g","v1/content/f-g"]}"#,
        "E101 v1/content/f\n",
    ),
    (
        "paths that begin alike",
        r#"{"a":["v1/content/f","v1/content/f-g","v1/content/ff"]}"#,
        "",
    ),
    (
        "paths below one another",
        r#"{"a":["v1/content/a/b/c","v1/content/a-b","v1/content/a","v1/content/a/b"]}"#,
        "E101 v1/content/a\nE101 v1/content/a/b\n",
    ),
    (
        "a path three times",
        r#"{"a":["v1/content/f","v1/content/f","v1/content/f"]}"#,
        "E101 v1/content/f\n",
    ),
];

/// Manifests and fixity blocks, with their lines.
const FIXITY_BLOCKS: [(&str, &str, &str, &str); 5] = [
    // each bad text once in the manifest, and once in all of fixity
    (
        "a bad path in the manifest and twice in fixity",
        r#"{"a":["v1/content/f","/x"]}"#,
        r#"{"md5":{"b":["/x"]},"sha1":{"c":["/x"]}}"#,
        "E100 /x\nE100 /x\n",
    ),
    (
        "digests in two cases in fixity",
        "{}",
        r#"{"sha1":{"a":[],"A":[]},"md5":{"x":[],"X":[],"W":[],"w":[]}}"#,
        "E097 md5 w\nE097 md5 x\nE097 sha1 a\n",
    ),
    // no path of the fixity block is one that another one begins with
    (
        "a path twice in fixity",
        "{}",
        r#"{"md5":{"a":["v1/content/f","v1/content/f"]}}"#,
        "",
    ),
    // algorithms that are not computed
    (
        "algorithms that are not computed",
        "{}",
        r#"{"blake2b-512":7,"MD5":[],"md5":{}}"#,
        "S07 MD5\nS07 blake2b-512\n",
    ),
    // all of them, in order
    (
        "a line of each kind",
        r#"{"a":["v1/content/f","/x"],"A":["v1/content/f/g"]}"#,
        r#"{"b":0,"md5":{"c":["/a"],"C":[]}}"#,
        "E096 a\nE097 md5 c\nE100 /x\nE100 /a\nE101 v1/content/f\nS07 b\n",
    ),
];

#[test]
fn lines_that_do_not_stop(rt: HostRuntime) -> Result<(), Fail> {
    let alloc = rt.alloc();
    for (row, manifest, wanted) in MANIFESTS {
        let text = inventory(alloc, manifest, "")?;
        expect(&rt, row, text.as_bytes(), wanted, true)?;
    }
    for (row, manifest, fixity, wanted) in FIXITY_BLOCKS {
        let further = format!(in alloc; ",\"fixity\":{fixity}")?;
        let text = inventory(alloc, manifest, further.as_str())?;
        expect(&rt, row, text.as_bytes(), wanted, true)?;
    }
    Ok(())
}

#[test]
fn listed_paths_have_limits(rt: HostRuntime) -> Result<(), Fail> {
    let alloc = rt.alloc();
    for (row, elements, letters, is_kept) in [
        ("128 names, the last of 255 letters", 126, 255, true),
        ("129 names", 127, 1, false),
        ("a name of 256 letters", 1, 256, false),
    ] {
        let rest = "/d".repeat(alloc, elements - 1)?;
        let last = "f".repeat(alloc, letters)?;
        let path = format!(in alloc; "v1/content{rest}/{last}")?;
        let manifest = format!(in alloc; "{{\"a\":[\"{path}\"]}}")?;
        let text = inventory(alloc, manifest.as_str(), "")?;
        let wanted = if is_kept {
            String::new(alloc)
        } else {
            format!(in alloc; "S06 {path}\n")?
        };
        expect(&rt, row, text.as_bytes(), wanted.as_str(), true)?;
    }
    let text = inventory(alloc, "{\"a\":[\"v1/content/\\u0000\"]}", "")?;
    let wanted = "S06 v1/content/\0\n";
    expect(&rt, "a NUL", text.as_bytes(), wanted, true)
}

/// The texts of the numbers from 100 to 399, each between these two, with commas.
fn three_hundred(alloc: Global, front: &str, back: &str) -> Result<String, Fail> {
    let mut text = String::new(alloc);
    for number in 100..400u64 {
        let comma = if number > 100 { "," } else { "" };
        text.push_str(format!(in alloc; "{comma}{front}{number}{back}")?.as_str())?;
    }
    Ok(text)
}

// Seen to fail if memory is refused from 300 paths, members, keys or algorithms of an inventory on.
#[test]
fn three_hundred_members_algorithms_and_keys(rt: HostRuntime) -> Result<(), Fail> {
    let alloc = rt.alloc();
    let members = format!(in alloc; ",{}", three_hundred(alloc, "\"member", "\":0")?)?;
    let blocks = three_hundred(alloc, "\"x", "\":0")?;
    let fixity = format!(in alloc; ",\"fixity\":{{{blocks}}}")?;
    let keys = format!(in alloc; "{{{}}}", three_hundred(alloc, "\"", "\":[]")?)?;
    // No algorithm of that fixity block is computed.
    let mut notes = String::new(alloc);
    for number in 100..400u64 {
        notes.push_str(format!(in alloc; "S07 x{number}\n")?.as_str())?;
    }
    for (row, manifest, further, wanted) in [
        ("members", "{}", members.as_str(), ""),
        ("algorithms", "{}", fixity.as_str(), notes.as_str()),
        ("keys", keys.as_str(), "", ""),
    ] {
        let text = inventory(alloc, manifest, further)?;
        expect(&rt, row, text.as_bytes(), wanted, true)?;
        assert!(rt;
            read_inventory(alloc, text.as_bytes())?.table.is_some(),
            "{row}"
        );
    }
    Ok(())
}

/// The digests that a table names for a path, each as `manifest` or `fixity`, the algorithm and the
/// digest.
fn named(alloc: Global, table: &Table, path: &str) -> Result<String, Fail> {
    let mut text = String::new(alloc);
    for named in &table.named(alloc, &place_of(alloc, path)?)? {
        let block = if named.fixity { "fixity" } else { "manifest" };
        let one = format!(in alloc; "{block} {} {}\n", named.algorithm.name(), named.digest)?;
        text.push_str(one.as_str())?;
    }
    Ok(text)
}

/// The table names for each of three hundred paths one digest of the manifest and one of fixity.
fn names_three_hundred(rt: &impl Runtime, table: Option<Table>) -> Result<(), Fail> {
    let alloc = rt.alloc();
    let Some(table) = table else {
        return Err(Fail::new("no table"));
    };
    for number in 100..400u64 {
        let path = format!(in alloc; "v1/content/{number}")?;
        let found = named(alloc, &table, path.as_str())?;
        let wanted = format!(in alloc; "manifest sha256 a\nfixity md5 b{number}\n")?;
        assert_eq!(rt; found.as_str(), wanted.as_str(), "{path}");
    }
    Ok(())
}

// Seen to fail if memory is refused from 300 paths, members, keys or algorithms of an inventory on.
#[test]
fn three_hundred_paths_and_three_hundred_digests(rt: HostRuntime) -> Result<(), Fail> {
    let alloc = rt.alloc();
    let paths = three_hundred(alloc, "\"v1/content/", "\"")?;
    let manifest = format!(in alloc; "{{\"a\":[{paths}]}}")?;
    let mut digests = String::new(alloc);
    for number in 100..400u64 {
        let comma = if number > 100 { "," } else { "" };
        let one = format!(in alloc; "{comma}\"b{number}\":[\"v1/content/{number}\"]")?;
        digests.push_str(one.as_str())?;
    }
    let further = format!(in alloc; ",\"fixity\":{{\"md5\":{{{digests}}}}}")?;
    let text = inventory(alloc, manifest.as_str(), further.as_str())?;
    expect(&rt, "paths and digests", text.as_bytes(), "", true)?;
    names_three_hundred(&rt, Table::read(alloc, text.as_bytes())?.1)?;
    names_three_hundred(&rt, read_inventory(alloc, text.as_bytes())?.table)
}

/// The table of an inventory, in which digests may be named.
fn table_of(alloc: Global, text: &str) -> Result<Table, Fail> {
    let (_, table) = Table::read(alloc, with_digests(alloc, text)?.as_bytes())?;
    Ok(table.ok_or("no table")?)
}

#[test]
fn digests_are_named_in_order(rt: HostRuntime) -> Result<(), Fail> {
    let manifest =
        r#"{"ABC_CAPITALS":["v1/content/f"],"b":["v1/content/f","v1/content/g"],"ABC_SHA256":["v1/content/f"]}"#;
    let fixity =
        r#","fixity":{"sha512":{"ABC_SHA512":["v1/content/f"]},"sha1":{"ABC_SHA1":["v1/content/f"]},"md5":{"ABC_MD5":["v1/content/f"]},"x":0}"#;
    let table = table_of(
        rt.alloc(),
        inventory(rt.alloc(), manifest, fixity)?.as_str(),
    )?;
    assert!(rt; table.algorithm() == Algorithm::Sha256);
    assert_eq!(rt; table.content_directory(), "content");
    for (path, wanted) in [
        (
            "v1/content/f",
            "manifest sha256 b\nmanifest sha256 ABC_SHA256\nfixity md5 ABC_MD5\nfixity sha1 ABC_SHA1\nfixity sha512 ABC_SHA512\n",
        ),
        ("v1/content/g", "manifest sha256 b\n"),
        ("v1/content", ""),
    ] {
        let found = named(rt.alloc(), &table, path)?;
        assert_eq!(rt;
            found.as_str(),
            with_digests(rt.alloc(), wanted)?.as_str(),
            "{path}"
        );
    }
    Ok(())
}

/// Paths, each with the next one that the table of `paths_follow_as_places` lists.
const NEXT: [(&str, Option<&str>, Option<&str>); 5] = [
    ("the first path", None, Some("v1/c/a/b")),
    ("after a directory", Some("v1/c/a"), Some("v1/c/a/b")),
    ("a slash before a dash", Some("v1/c/a/b"), Some("v1/c/a-b")),
    (
        "version 1 before version 10",
        Some("v1/c/a-b"),
        Some("v10/c/a"),
    ),
    ("after the last path", Some("v10/c/a"), None),
];

#[test]
fn paths_follow_as_places(rt: HostRuntime) -> Result<(), Fail> {
    let text =
        "{\"digestAlgorithm\":\"sha512\",\"contentDirectory\":\"c\",\"manifest\":{\"b\":[\"v1/c/a-b\",\"v1/c/a/b\"],\"a\":[\"v1/c/a/b\",\"v10/c/a\"]}}";
    let table = table_of(rt.alloc(), text)?;
    assert_eq!(rt; table.content_directory(), "c");
    for (row, after, wanted) in NEXT {
        let place = place_of(rt.alloc(), after.unwrap_or(""))?;
        let next = table.next_after(after.map(|_| &place));
        assert!(rt; next.map(|place| place.path()) == wanted, "{row}");
    }
    Ok(())
}

#[test]
fn paths_that_share_long_beginnings_conflict_by_elements(rt: HostRuntime) -> Result<(), Fail> {
    let alloc = rt.alloc();
    let deep = "/some-long-directory".repeat(alloc, 60)?;
    let manifest = format!(in alloc;
        "{{\"c\":[\"v1/content{deep}/a/b\"],\"b\":[\"v1/content{deep}/a-b\"],\"a\":[\"v1/content{deep}/a\",\"v1/content{deep}/a-b/some-long-directory\"],\"d\":[\"v1/content{deep}/some-long-directory-b\"]}}"
    )?;
    let text = inventory(alloc, manifest.as_str(), "")?;
    let wanted = format!(in alloc; "E101 v1/content{deep}/a\nE101 v1/content{deep}/a-b\n")?;
    let (row, bytes) = ("long beginnings", text.as_bytes());
    expect(&rt, row, bytes, wanted.as_str(), true)
}

/// The algorithm of inventories without a table.
const ALGORITHMS: [(Option<Algorithm>, &[(&str, &str)]); 3] = [
    (
        Some(Algorithm::Sha512),
        &[(
            "a manifest that is a number",
            r#"{"digestAlgorithm":"sha512","manifest":7}"#,
        )],
    ),
    (
        Some(Algorithm::Sha256),
        &[("no manifest", r#"{"digestAlgorithm":"sha256"}"#)],
    ),
    (
        None,
        &[
            (
                "an algorithm that no inventory may have",
                r#"{"digestAlgorithm":"md5"}"#,
            ),
            ("an algorithm that is a number", r#"{"digestAlgorithm":7}"#),
            ("no algorithm", "{}"),
            ("an array", "[]"),
        ],
    ),
];

#[test]
fn an_algorithm_stands_where_no_table_does(rt: HostRuntime) -> Result<(), Fail> {
    for (wanted, inventories) in ALGORITHMS {
        for (row, text) in inventories {
            let algorithm = algorithm_of(rt.alloc(), text.as_bytes())?;
            assert!(rt; algorithm == wanted, "{row}");
        }
    }
    Ok(())
}

const SUM: [u8; 32] = [
    0xba, 0x78, 0x16, 0xbf, 0x8f, 0x01, 0xcf, 0xea, 0x41, 0x41, 0x40, 0xde, 0x5d, 0xae, 0x22, 0x23,
    0xb0, 0x03, 0x61, 0xa3, 0x96, 0x17, 0x7a, 0x9c, 0xb4, 0x10, 0xff, 0x61, 0xf2, 0x00, 0x15, 0xad,
];

/// The digest in a sidecar of this text, in which digests may be named.
fn sum_of(alloc: Global, text: &str, algorithm: Algorithm) -> Result<Option<Vec<u8>>, Fail> {
    let text = with_digests(alloc, text)?;
    let sum = match sidecar(text.as_bytes(), algorithm) {
        Some(sum) => Some(sum.bytes().to_vec(alloc)?),
        None => None,
    };
    Ok(sum)
}

#[test]
fn sidecars_are_read(rt: HostRuntime) -> Result<(), Fail> {
    for (row, text) in [
        ("one blank", "ABC_SHA256 inventory.json\n"),
        ("capitals", "ABC_CAPITALS inventory.json\n"),
        ("two blanks", "ABC_SHA256  inventory.json"),
        ("capitals and two blanks", "ABC_CAPITALS  inventory.json"),
        (
            "tabs and blanks around",
            "ABC_SHA256\t inventory.json \t\r\n\n",
        ),
        (
            "capitals, tabs and blanks",
            "ABC_CAPITALS\t inventory.json \t\r\n\n",
        ),
    ] {
        let sum = sum_of(rt.alloc(), text, Algorithm::Sha256)?;
        assert!(rt; sum.as_deref() == Some(SUM.as_slice()), "{row}");
    }
    let long = sum_of(rt.alloc(), "ABC_SHA512 inventory.json\n", Algorithm::Sha512)?;
    assert_eq!(rt; long.ok_or("not of the form")?.len(), 64);
    Ok(())
}

/// Texts that are no sidecars of `sha256`.
const NO_SIDECARS: [(&str, &str); 10] = [
    ("a star before the name", "ABC_SHA256 *inventory.json\n"),
    ("no blank", "ABC_SHA256inventory.json"),
    ("another name", "ABC_SHA256 inventory.jso"),
    ("something after the name", "ABC_SHA256 inventory.json x"),
    ("a name with a capital", "ABC_SHA256 Inventory.json"),
    ("65 digits", "ABC_SHA256a inventory.json"),
    (
        "a line feed after the digits",
        "ABC_SHA256\n inventory.json",
    ),
    ("digits alone", "ABC_SHA256"),
    (
        "63 digits",
        "ba7816bf8f01cfea414140de5dae2223b00361a396177a9cb410ff61f20015a inventory.json\n",
    ),
    ("digits of sha512", "ABC_SHA512 inventory.json\n"),
];

#[test]
fn other_sidecars_are_refused(rt: HostRuntime) -> Result<(), Fail> {
    for (row, text) in NO_SIDECARS {
        let sum = sum_of(rt.alloc(), text, Algorithm::Sha256)?;
        assert!(rt; sum.is_none(), "{row}");
    }
    for algorithm in [
        Algorithm::Md5,
        Algorithm::Sha1,
        Algorithm::Sha512,
        Algorithm::Sha512_256,
    ] {
        let sum = sum_of(rt.alloc(), "ABC_SHA256 inventory.json\n", algorithm)?;
        assert!(rt; sum.is_none(), "{algorithm:?}");
    }
    Ok(())
}

#[test]
fn sidecars_have_at_most_4096_bytes(rt: HostRuntime) -> Result<(), Fail> {
    let alloc = rt.alloc();
    for (blanks, is_taken) in [(4096 - 79, true), (4097 - 79, false)] {
        let end = " ".repeat(alloc, blanks)?;
        let text = format!(in alloc; "{ABC_SHA256} inventory.json{end}")?;
        let sum = sidecar(text.as_bytes(), Algorithm::Sha256);
        assert!(rt; sum.is_some() == is_taken, "{blanks} blanks");
    }
    Ok(())
}

fn entry(alloc: Global, name: &str, kind: Kind) -> Result<Entry, Fail> {
    Ok(Entry {
        name: Name::new(alloc, name)?,
        kind,
    })
}

#[test]
fn declarations_are_files_of_a_name(rt: HostRuntime) -> Result<(), Fail> {
    let alloc = rt.alloc();
    let mut entries = Vec::new(alloc);
    entries.push(entry(alloc, "0=ocfl_1.0", Kind::Dir)?)?;
    entries.push(entry(alloc, "0=ocfl_x1.0", Kind::File)?)?;
    entries.push(entry(alloc, "0=ocfl_object_", Kind::File)?)?;
    for (row, level) in [
        ("a storage root", Level::Root),
        ("an object", Level::Object),
    ] {
        assert!(rt; declaration(&entries, level) == Declared::None, "{row}");
    }
    entries.push(entry(alloc, "0=ocfl_1.1", Kind::File)?)?;
    entries.push(entry(alloc, "0=ocfl_object_1.0", Kind::File)?)?;
    assert!(rt; declaration(&entries, Level::Root) == Declared::One(Version::V1_1));
    assert!(rt; declaration(&entries, Level::Object) == Declared::One(Version::V1_0));
    entries.push(entry(alloc, "0=ocfl_2.0", Kind::File)?)?;
    assert!(rt; declaration(&entries, Level::Root) == Declared::Several);
    assert!(rt; declaration(&entries[5..], Level::Root) == Declared::Unknown(0));
    assert!(rt; declaration(&entries[4..], Level::Root) == Declared::Unknown(1));
    Ok(())
}

/// One reading gives what the calls for its parts give.
fn reads_as_its_parts(rt: &impl Runtime, row: &str, bytes: &[u8]) -> Result<(), Fail> {
    let alloc = rt.alloc();
    let read = read_inventory(alloc, bytes)?;
    let (lines, table) = Table::read(alloc, bytes)?;
    assert_eq!(rt; read.algorithm, algorithm_of(alloc, bytes)?, "{row}");
    assert_eq!(rt; read.remarks.len(), lines.len(), "{row}");
    assert_eq!(rt; read.table.is_some(), table.is_some(), "{row}");
    if let (Some(one), Some(table)) = (&read.table, &table) {
        assert_eq!(rt; one.algorithm(), table.algorithm(), "{row}");
        assert_eq!(rt; one.content_directory(), table.content_directory(), "{row}");
        for path in ["v1/content/a", "v2/content/b", "x"] {
            let place = Place::from_path(String::from_str(alloc, path)?).expect(rt, "a path");
            let named = one.named(alloc, &place)?;
            assert_eq!(rt;
                named.len(),
                table.named(alloc, &place)?.len(),
                "{row}, {path}"
            );
        }
    }
    Ok(())
}

/// The version that an inventory names as the newest is a text, whether the inventory stops or not.
#[test]
fn the_head_is_a_text(rt: HostRuntime) -> Result<(), Fail> {
    for (row, bytes, head) in [
        ("no manifest", r#"{"head":"v3"}"#, Some("v3")),
        (
            "any text",
            r#"{"digestAlgorithm":"sha512","head":""}"#,
            Some(""),
        ),
        ("the last of two", r#"{"head":1,"head":"v2"}"#, Some("v2")),
        ("a number", r#"{"head":3}"#, None),
        ("no head", "{}", None),
        ("an array", r#"["head"]"#, None),
    ] {
        let read = read_inventory(rt.alloc(), bytes.as_bytes())?;
        assert_eq!(rt; read.head.as_deref(), head, "{row}");
    }
    Ok(())
}

#[test]
fn one_parse_gives_algorithm_lines_and_table(rt: HostRuntime) -> Result<(), Fail> {
    let alloc = rt.alloc();
    let manifest = r#"{"ab":["v1/content/a","v2/content/b","x"]}"#;
    let whole = inventory(alloc, manifest, "")?;
    reads_as_its_parts(&rt, "one digest", whole.as_bytes())?;
    let stopped = inventory(alloc, "[]", "")?;
    let row = "a manifest that is an array";
    reads_as_its_parts(&rt, row, stopped.as_bytes())?;
    let read = read_inventory(alloc, stopped.as_bytes())?;
    assert_eq!(rt; read.algorithm, Some(Algorithm::Sha256));
    assert!(rt; read.table.is_none() && read.remarks.len() == 1);
    for (row, bytes) in [
        ("no byte", ""),
        ("an array", "[]"),
        ("no algorithm", "{}"),
        (
            "an algorithm that no inventory may have",
            r#"{"digestAlgorithm":"md5"}"#,
        ),
    ] {
        reads_as_its_parts(&rt, row, bytes.as_bytes())?;
    }
    Ok(())
}

/// Levels and versions, each with the name and the bytes of its declaration.
const DECLARATIONS: [(Level, Version, &str, &str); 4] = [
    (Level::Root, Version::V1_0, "0=ocfl_1.0", "ocfl_1.0\n"),
    (Level::Root, Version::V1_1, "0=ocfl_1.1", "ocfl_1.1\n"),
    (
        Level::Object,
        Version::V1_0,
        "0=ocfl_object_1.0",
        "ocfl_object_1.0\n",
    ),
    (
        Level::Object,
        Version::V1_1,
        "0=ocfl_object_1.1",
        "ocfl_object_1.1\n",
    ),
];

#[test]
fn names_and_bytes_of_declarations(rt: HostRuntime) -> Result<(), Fail> {
    for (level, version, name, bytes) in DECLARATIONS {
        assert_eq!(rt; declaration_name(level, version), name, "{name}");
        let is_right = declaration_bytes(level, version) == bytes.as_bytes();
        assert!(rt; is_right, "{name}");
        assert!(rt; is_declaration_name(level, name), "{name}");
    }
    assert!(rt; !is_declaration_name(Level::Object, "0=ocfl_1.1"));
    assert!(rt; !is_declaration_name(Level::Object, "0=ocfl_object_x"));
    assert_eq!(rt;
        version_in_name(Level::Object, "0=ocfl_object_2.0"),
        Some("2.0")
    );
    assert_eq!(rt; version_in_name(Level::Object, "0=ocfl_2.0"), None);
    for (name, is_version) in [
        ("v1", true),
        ("v01", true),
        ("v", false),
        ("1", false),
        ("v1a", false),
    ] {
        assert_eq!(rt; is_version_name(name), is_version, "{name}");
    }
    Ok(())
}
