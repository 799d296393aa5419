//! The table of codes, and what lines are about.
use crate::tests::common::store::place_of;
use ocfl_codes::{
    Kind, Weight, codes_json, codes_text, first_step, first_step_at, is_hiding, is_of_file,
    is_of_object, is_version_inventory, is_version_name, kind_of, meaning, meaning_at, weigh,
};
use ocfl_report::{Code, read_line};
use serde_json::Value;
use std::test::Fail;

/// A line of a report, and its weight.
const WEIGHTS: [(&str, Option<Weight>); 8] = [
    ("ok\ta\t-\n", None),
    ("S07\ta\t-\n", None),
    ("E092\ta\t-\n", Some(Weight::Bytes)),
    ("S08\ta\t-\n", Some(Weight::Bytes)),
    ("E060\ta\t-\n", Some(Weight::Object)),
    ("S05\ta\t-\n", Some(Weight::Object)),
    ("E023\ta\t-\n", Some(Weight::Record)),
    ("E072\ta\t-\n", Some(Weight::Position)),
];

#[test]
fn codes_have_weights(rt: HostRuntime) -> Result<(), Fail> {
    for (text, wanted) in WEIGHTS {
        let line = read_line(rt.alloc(), text.as_bytes())?;
        assert_eq!(rt; weigh(line.code), wanted, "{text}");
    }
    Ok(())
}

/// A line of a report, and whether it is one of an object's head, and one of a content file.
const KINDS: [(&str, bool, bool); 18] = [
    ("ok\ta\t-\n", true, false),
    ("ok\t.\t-\n", false, false),
    ("ok\ta/v1/content/f\t5\n", false, true),
    ("E060\ta\tsha512\n", true, false),
    ("S07\ta\tblake2b-512\n", true, false),
    ("E092\ta/v1/content/f\tsha512 missing\n", false, true),
    ("S08\ta/v1/content/f\t-\n", false, true),
    ("E072\ta\t-\n", false, false),
    ("S09\ta\tsha512 aa v1\n", true, false),
    ("E064\ta/v2/inventory.json\tsha512 aa bb\n", false, true),
    // An inventory in a version directory is a file, whatever is said of it.
    ("E058\ta/v1/inventory.json\t-\n", false, true),
    ("E060\ta/b/v10/inventory.json\tsha512 aa bb\n", false, true),
    ("E061\ta/v007/inventory.json\tsha512\n", false, true),
    ("ok\ta/v1/inventory.json\t5\n", false, true),
    // Below the storage root, which is no object, or below no version, it is an object that is
    // called so.
    ("E058\tv1/inventory.json\t-\n", true, false),
    ("E060\ta/v/inventory.json\tsha512 aa bb\n", true, false),
    ("E061\ta/v1/inventory\tsha512\n", true, false),
    ("E058\ta/v1/b/inventory.json\t-\n", true, false),
];

/// A path, and whether it is that of an inventory in a version directory.
const PLACES: [(&str, bool); 8] = [
    ("", false),
    ("inventory.json", false),
    ("v1/inventory.json", false),
    ("o/v1/inventory.json", true),
    ("o/p/v1/inventory.json", true),
    ("o/v1x/inventory.json", false),
    ("o/V1/inventory.json", false),
    ("o/v1/inventory.json/a", false),
];

#[test]
fn inventories_are_in_version_directories(rt: HostRuntime) -> Result<(), Fail> {
    for (path, wanted) in PLACES {
        let place = place_of(rt.alloc(), path)?;
        assert_eq!(rt; is_version_inventory(&place), wanted, "{path}");
    }
    for (name, wanted) in [
        ("v1", true),
        ("v01", true),
        ("v", false),
        ("1", false),
        ("", false),
    ] {
        assert_eq!(rt; is_version_name(name), wanted, "{name}");
    }
    Ok(())
}

#[test]
fn words_know_the_inventories_of_versions(rt: HostRuntime) -> Result<(), Fail> {
    let object = place_of(rt.alloc(), "o")?;
    let inventory = place_of(rt.alloc(), "o/v1/inventory.json")?;
    for code in [Code::E058, Code::E060, Code::E061] {
        assert_eq!(rt; meaning_at(code, &object), meaning(code));
        assert_eq!(rt; first_step_at(code, &object), first_step(code));
        assert!(rt; !meaning_at(code, &inventory).contains("its inventory"));
        assert!(rt; !first_step_at(code, &inventory).contains("newest"));
    }
    assert_eq!(rt;
        meaning_at(Code::E060, &inventory),
        "differs from its sidecar"
    );
    assert_eq!(rt; meaning_at(Code::S08, &inventory), "could not be read");
    assert_eq!(rt; first_step_at(Code::S08, &inventory), first_step(Code::S08));
    Ok(())
}

#[test]
fn lines_are_of_objects_or_files(rt: HostRuntime) -> Result<(), Fail> {
    for (text, object, file) in KINDS {
        let line = read_line(rt.alloc(), text.as_bytes())?;
        assert_eq!(rt; is_of_object(&line), object, "{text}");
        assert_eq!(rt; is_of_file(&line), file, "{text}");
    }
    Ok(())
}

#[test]
fn codes_have_words(rt: HostRuntime) {
    assert_eq!(rt; meaning(Code::E092), "bytes have changed");
    assert_eq!(rt; meaning(Code::E023), "not in the inventory");
    assert_eq!(rt;
        first_step(Code::E092),
        "restore the file from a copy with the expected digest"
    );
    assert!(rt; kind_of(Code::E024) == Kind::Place);
    assert!(rt; is_hiding(Code::S08));
    assert!(rt; !is_hiding(Code::E092));
}

#[test]
fn the_table_has_a_row_for_each_code(rt: HostRuntime) -> Result<(), Fail> {
    let text = String::from_utf8(codes_text(rt.alloc())?)?;
    let mut rows = 0;
    for line in text.as_str().lines() {
        if !line.starts_with('#') {
            rows += 1;
        }
    }
    assert_eq!(rt; rows, 39);
    let row =
        "\nE072\t4\tplace\ta file outside of any object\tsee whether the files are those of an \
               object, and restore its declaration\n";
    assert!(rt; text.as_str().contains(row));
    Ok(())
}

#[test]
fn the_table_is_json_too(rt: HostRuntime) -> Result<(), Fail> {
    let text = codes_json(rt.alloc())?;
    let table = Value::from_str(rt.alloc(), text.as_str())?;
    let weight = table.pointer("/37/weight").and_then(Value::as_u64);
    assert_eq!(rt; weight, Some(1));
    let code = table.pointer("/37/code").and_then(Value::as_str);
    assert_eq!(rt; code, Some("S08"));
    assert!(rt; table.pointer("/38").is_some());
    assert!(rt; table.pointer("/39").is_none());
    Ok(())
}
