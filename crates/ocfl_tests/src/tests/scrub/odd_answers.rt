//! Stores that answer oddly, and large directories.
//!
//! Seen to fail if an `Absent` is taken for a file that is not there: inventory, sidecar,
//! directory, content.
use super::expected::{expect, expect_audit};
use crate::tests::common::object::{
    DECLARATION, FILE, INVENTORY, LONG_SIDECAR, SHORT_SIDECAR, bare_root,
};
use crate::tests::common::odd_store::{Odd, Oddity};
use crate::tests::common::roots::{long_object, right_object};
use crate::tests::common::store::{place_of, put_dir};
use ocfl_folder::FsTree;
use std::alloc::Global;
use std::fs;
use std::test::Fail;

/// The root of a right object, which does not find what it lists at a place. The sidecar of it is
/// the longer one if that is hidden.
pub(crate) fn forgetful(alloc: Global, hidden: &str) -> Result<Odd, Fail> {
    let inner = if hidden == LONG_SIDECAR {
        long_object(alloc, "ABC_SHA512")?
    } else {
        right_object(alloc)?
    };
    let oddity = Oddity::Hides(place_of(alloc, hidden)?);
    Ok(Odd { inner, oddity })
}

/// What is listed and not found, the text of the audit, a path that is checked with its text, and
/// the status of both. With status 3 the note names the place.
const HIDDEN: [(&str, &str, Option<(&str, &str)>, u8); 9] = [
    (
        FILE,
        "ok|.|-\nok|o|-\nS08|o/v1/content/f|-\n",
        Some((FILE, "S08|o/v1/content/f|-\n")),
        1,
    ),
    (DECLARATION, "ok|.|-\n", Some(("o", "")), 3),
    (INVENTORY, "ok|.|-\n", Some(("o", "")), 3),
    (SHORT_SIDECAR, "ok|.|-\n", Some(("o", "")), 3),
    (LONG_SIDECAR, "ok|.|-\n", Some(("o", "")), 3),
    ("0=ocfl_1.1", "", None, 3),
    ("o", "ok|.|-\n", Some((FILE, "")), 3),
    ("o/v1", "ok|.|-\nok|o|-\n", Some((FILE, "")), 3),
    ("o/v1/content", "ok|.|-\nok|o|-\n", Some((FILE, "")), 3),
];

#[test]
fn what_is_listed_and_not_found(rt: HostRuntime) -> Result<(), Fail> {
    for (hidden, text, check, status) in HIDDEN {
        let mut store = forgetful(rt.alloc(), hidden)?;
        let note = if status == 3 {
            format!(in rt.alloc(); "stopped at {hidden}")?
        } else {
            String::new(rt.alloc())
        };
        expect_audit(&rt, hidden, &mut store, text, status, note.as_str())?;
        if let Some((path, lines)) = check {
            expect(&rt, hidden, &mut store, path, lines, status, note.as_str())?;
        }
    }
    Ok(())
}

#[test]
fn directories_without_end(rt: HostRuntime) -> Result<(), Fail> {
    let alloc = rt.alloc();
    let mut inner = bare_root(alloc)?;
    put_dir(alloc, &mut inner, "d/d")?;
    let oddity = Oddity::Repeats(place_of(alloc, "d")?);
    let path = "d/".repeat(alloc, 127)?;
    let text = format!(in alloc; "ok|.|-\nS05|{path}d|-\n")?;
    let row = "127 directories and one more";
    expect_audit(&rt, row, &mut Odd { inner, oddity }, text.as_str(), 1, "")
}

#[test]
fn files_of_a_head_that_never_end(rt: HostRuntime) -> Result<(), Fail> {
    for (file, line) in [
        (DECLARATION, "E007|o|-\n"),
        (SHORT_SIDECAR, "E061|o|sha256\n"),
    ] {
        let inner = right_object(rt.alloc())?;
        let oddity = Oddity::NeverEnds(place_of(rt.alloc(), file)?);
        let text = format!(in rt.alloc(); "ok|.|-\n{line}ok|o/v1/content/f|3\n")?;
        let mut store = Odd { inner, oddity };
        expect_audit(&rt, file, &mut store, text.as_str(), 1, "")?;
    }
    Ok(())
}

#[test]
fn directory_with_ten_thousand_entries(rt: HostRuntime) -> Result<(), Fail> {
    let alloc = rt.alloc();
    if fs::exists(&rt, "wide")? {
        fs::remove_dir_all(&rt, "wide")?;
    }
    fs::create_dir(&rt, "wide")?;
    fs::write(&rt, "wide/0=ocfl_1.1", "ocfl_1.1\n")?;
    fs::create_dir(&rt, "wide/d")?;
    let mut text = String::from_str(alloc, "ok|.|-\n")?;
    for number in 10_000..20_000u64 {
        fs::write(&rt, format!(in alloc; "wide/d/{number}")?.as_str(), "")?;
        text.push_str(format!(in alloc; "E072|d/{number}|-\n")?.as_str())?;
    }
    let mut store = FsTree::at(&rt, "wide")?;
    expect_audit(&rt, "10,000 entries", &mut store, text.as_str(), 1, "")?;
    fs::remove_dir_all(&rt, "wide")?;
    Ok(())
}
