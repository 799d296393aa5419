//! What the program does for each command: its status, its text, and the cursor that it stores.
use super::expected::{FILE_IS_OK, HEADS, expect_said};
use super::run_figures::{A, ALL, B, C, MOST, cursor_of, limits};
use super::stop::{STOPS, stopping};
use crate::tests::common::cursors::{LINES, OLD_LINES, cut, old_text, sealed, whole_text};
use crate::tests::common::input::{Slow, Then, failures};
use crate::tests::common::object::{FILE, LISTS_F, listing, object_with};
use crate::tests::common::output::Narrow;
use crate::tests::common::roots::{long_object, right_object, three_files, wrong_fixity};
use crate::tests::common::store::{place_of, was_not_called};
use crate::tests::common::{Runtime, expect_shown};
use ocfl_cursor::{State, encode};
use ocfl_deed::Deed;
use ocfl_digest::Block;
use ocfl_report::Further;
use ocfl_scrub::{Performed, Scope, perform, perform_part};
use ocfl_tree::Tree;
use std::test::Fail;

/// Doing the deed, within a scope if there is one, with these bytes as the stored cursor, writes
/// this text and ends with this status and this note. It gives the cursor to be stored.
pub(crate) fn expect_within<T: Tree>(
    rt: &impl Runtime,
    row: &str,
    store: &mut T,
    deed: &Deed,
    scope: Option<&Scope>,
    mut file: Option<&[u8]>,
    wanted: (&str, u8, &str),
) -> Result<Option<Vec<u8>>, Fail> {
    let alloc = rt.alloc();
    let (mut block, mut out) = (Block::new(alloc)?, Vec::new(alloc));
    let reader = file.as_mut();
    let done = match scope {
        Some(scope) => perform_part(alloc, store, deed, scope, reader, &mut block, &mut out),
        None => perform(alloc, store, deed, reader, &mut block, &mut out),
    };
    let Performed {
        status,
        note,
        cursor,
    } = done;
    expect_said(rt, out, (status, note), wanted, row)?;
    Ok(cursor)
}

/// The same without a scope.
fn expect<T: Tree>(
    rt: &impl Runtime,
    row: &str,
    store: &mut T,
    deed: &Deed,
    file: Option<&[u8]>,
    wanted: (&str, u8, &str),
) -> Result<Option<Vec<u8>>, Fail> {
    expect_within(rt, row, store, deed, None, file, wanted)
}

/// The same over three files, and no call of the store is made and no cursor stored.
fn expect_silent(
    rt: &impl Runtime,
    row: &str,
    deed: &Deed,
    file: Option<&[u8]>,
    wanted: (&str, u8, &str),
) -> Result<(), Fail> {
    let mut store = three_files(rt.alloc())?;
    let stored = expect(rt, row, &mut store, deed, file, wanted)?;
    assert!(rt; stored.is_none(), "{row}");
    assert!(rt; was_not_called(&store), "{row}");
    Ok(())
}

/// The cursor to be stored is this text, with its right digest line.
pub(crate) fn expect_stored(
    rt: &impl Runtime,
    row: &str,
    stored: Option<Vec<u8>>,
    body: &str,
) -> Result<(), Fail> {
    let right = sealed(rt.alloc(), body)?;
    assert!(rt; stored == Some(right), "{row}");
    Ok(())
}

pub(crate) fn run_of(budget: u64) -> Result<Deed, Fail> {
    Ok(Deed::Run(Further::Nothing, limits(budget, MOST)?))
}

/// The budget, the limit of files and the number of runs, what their cycle writes, and the note.
const CYCLES: [(&str, u64, u64, usize, &[&str], &str); 5] = [
    (
        "one run too few",
        1,
        MOST,
        2,
        &[HEADS, A, B],
        "runs 2, cost 5, open",
    ),
    (
        "as many runs as files",
        1,
        MOST,
        3,
        ALL,
        "runs 3, cost 9, ended",
    ),
    ("one file a run", 9, 1, 3, ALL, "runs 3, cost 9, ended"),
    (
        "two files in one run",
        9,
        2,
        1,
        &[HEADS, A, B],
        "runs 1, cost 5, open",
    ),
    (
        "more runs than are needed",
        9,
        3,
        100_000,
        ALL,
        "runs 1, cost 9, ended",
    ),
];

#[test]
fn cycles(rt: HostRuntime) -> Result<(), Fail> {
    for (row, budget, files, count, pieces, note) in CYCLES {
        let text = pieces.concat(rt.alloc())?;
        let deed = Deed::Cycle(Further::Nothing, limits(budget, files)?, count);
        let mut store = three_files(rt.alloc())?;
        let wanted = (text.as_str(), 0, note);
        let stored = expect(&rt, row, &mut store, &deed, None, wanted)?;
        assert!(rt; stored.is_none(), "{row}");
    }
    Ok(())
}

/// Runs, each from the cursor of the one before: the budget, what it writes, the note, and the
/// cursor that it leaves, with its digest by `sha256sum`. The last one begins the next cycle.
const RUNS: [(&str, u64, &[&str], &str, &str); 3] = [
    (
        "the first run",
        4,
        &[HEADS, A],
        "cycle 1, run 1, cost 4, open",
        "ocfl-scrub cursor 2\ncycle 1\nruns 1\nspent 4\nfiles 1\nafter o/v1/content/a\n\
        digest e8e91be603724de14a4fd56ba13ae2c0a491f4cbcbc43593c5d8b1a9dc2f3c2b\n",
    ),
    (
        "the second run",
        4,
        &[B, C],
        "cycle 1, run 2, cost 5, ended",
        "ocfl-scrub cursor 2\ncycle 1\nruns 2\nspent 9\nfiles 3\nended\n\
        digest 629e63ed542686e0d0efd4f5c3a5fb514fb8c1116062fa160ae0411dd8b6b511\n",
    ),
    (
        "the first run of the next cycle",
        9,
        ALL,
        "cycle 2, run 1, cost 9, ended",
        "ocfl-scrub cursor 2\ncycle 2\nruns 1\nspent 9\nfiles 3\nended\n\
        digest 6e5e203d75efaac87e5137b6658e1cb8307e4f16ff6d2d8735ca61c56f5fe56e\n",
    ),
];

#[test]
fn runs_that_go_on(rt: HostRuntime) -> Result<(), Fail> {
    let mut store = three_files(rt.alloc())?;
    let mut stored: Option<Vec<u8>> = None;
    for (row, budget, pieces, note, right) in RUNS {
        let text = pieces.concat(rt.alloc())?;
        let (file, wanted) = (stored.as_deref(), (text.as_str(), 0, note));
        stored = expect(&rt, row, &mut store, &run_of(budget)?, file, wanted)?;
        assert!(rt; stored.as_deref() == Some(right.as_bytes()), "{row}");
    }
    Ok(())
}

#[test]
fn run_from_a_stored_cursor(rt: HostRuntime) -> Result<(), Fail> {
    let alloc = rt.alloc();
    let wanted = ("", 0, "cycle 3, run 3, cost 0, ended");
    for (row, file, files) in [
        ("version 2", whole_text(alloc)?, 3),
        ("version 1", old_text(alloc)?, 0),
    ] {
        let mut store = three_files(alloc)?;
        let file = Some(file.as_slice());
        let stored = expect(&rt, row, &mut store, &run_of(9)?, file, wanted)?;
        let body = format!(in alloc;
            "ocfl-scrub cursor 2\ncycle 3\nruns 3\nspent 9\nfiles {files}\nended\n"
        )?;
        expect_stored(&rt, row, stored, body.as_str())?;
    }
    Ok(())
}

#[test]
fn cursors_that_are_shown(rt: HostRuntime) -> Result<(), Fail> {
    for (row, file, lines) in [
        ("version 2", whole_text(rt.alloc())?, LINES),
        ("version 1", old_text(rt.alloc())?, OLD_LINES),
    ] {
        let file = Some(file.as_slice());
        expect_silent(&rt, row, &Deed::Show, file, (lines, 0, ""))?;
    }
    let wanted = ("", 3, "cursor file failed");
    expect_silent(&rt, "no cursor file", &Deed::Show, None, wanted)
}

#[test]
fn cursors_that_are_refused(rt: HostRuntime) -> Result<(), Fail> {
    let alloc = rt.alloc();
    let other = format!(in alloc; "ocfl-scrub cursor 4\n{LINES}")?;
    let malformed = format!(in alloc; "ocfl-scrub cursor 2\n{LINES}0")?;
    let zero = "ocfl-scrub cursor 2\ncycle 03\nruns 2\nspent 9\nfiles 3\nended\n";
    for (row, file, note) in [
        ("no byte", Vec::new(alloc), "cursor refused: not a cursor"),
        (
            "version 4",
            sealed(alloc, other.as_str())?,
            "cursor refused: version",
        ),
        (
            "without its last byte",
            cut(whole_text(alloc)?),
            "cursor refused: damaged",
        ),
        (
            "a digit after the place",
            sealed(alloc, malformed.as_str())?,
            "cursor refused: malformed",
        ),
        (
            "a cycle with a leading zero",
            sealed(alloc, zero)?,
            "cursor refused: malformed",
        ),
    ] {
        for (command, deed) in [("run", run_of(1)?), ("show", Deed::Show)] {
            let row = format!(in alloc; "{command}, {row}")?;
            let file = Some(file.as_slice());
            expect_silent(&rt, row.as_str(), &deed, file, ("", 4, note))?;
        }
    }
    Ok(())
}

#[test]
fn cursor_files_that_fail(rt: HostRuntime) -> Result<(), Fail> {
    let alloc = rt.alloc();
    for (_, kind, note) in failures("cursor file failed", "out of memory") {
        for (command, deed) in [("run", run_of(1)?), ("show", Deed::Show)] {
            let row = format!(in alloc; "{command}, {kind:?}")?;
            let mut store = three_files(alloc)?;
            let (mut block, mut out) = (Block::new(alloc)?, Vec::new(alloc));
            let mut file = Slow {
                left: b"",
                then: Then::Fails(kind),
            };
            let reader = Some(&mut file);
            let done = perform(alloc, &mut store, &deed, reader, &mut block, &mut out);
            assert!(rt; done.cursor.is_none() && done.status == 3, "{row}");
            expect_shown(&rt, row.as_str(), &done.note, note)?;
            assert!(rt; out.is_empty(), "{row}");
            assert!(rt; was_not_called(&store), "{row}");
        }
    }
    Ok(())
}

#[test]
fn commands_on_worn_cursors(rt: HostRuntime) -> Result<(), Fail> {
    let alloc = rt.alloc();
    for (row, cycle, runs, state) in [
        ("the last run", 1, u64::MAX, State::Start),
        ("the end of the last cycle", u64::MAX, 0, State::Ended),
    ] {
        let file = encode(alloc, &cursor_of(cycle, runs, state)?)?;
        let file = Some(file.as_slice());
        expect_silent(&rt, row, &run_of(9)?, file, ("", 3, "cursor worn"))?;
    }
    Ok(())
}

#[test]
fn findings(rt: HostRuntime) -> Result<(), Fail> {
    let text = "ok|.|-\nok|o|-\nE093|o/v1/content/f|md5 NOTHING_MD5 ABC_MD5\n";
    for (row, deed, note, stores) in [
        ("an audit", Deed::Audit(Further::Nothing), "", false),
        ("a run", run_of(9)?, "cycle 1, run 1, cost 4, ended", true),
        (
            "a cycle",
            Deed::Cycle(Further::Nothing, limits(9, MOST)?, 1),
            "runs 1, cost 4, ended",
            false,
        ),
    ] {
        let mut store = wrong_fixity(rt.alloc())?;
        let stored = expect(&rt, row, &mut store, &deed, None, (text, 1, note))?;
        assert_eq!(rt; stored.is_some(), stores, "{row}");
    }
    Ok(())
}

#[test]
fn what_cannot_be_computed_is_no_finding(rt: HostRuntime) -> Result<(), Fail> {
    for (row, manifest, line, status) in [
        (
            "a file that nothing names",
            "",
            "E023|o/v1/content/f|-\n",
            1,
        ),
        ("a right file", LISTS_F, FILE_IS_OK, 0),
    ] {
        let inventory = listing(rt.alloc(), manifest, r#""blake2b-512":7"#)?;
        let mut store = object_with(rt.alloc(), inventory.as_str())?;
        let text = format!(in rt.alloc(); "ok|.|-\nS07|o|blake2b-512\n{line}")?;
        let wanted = (text.as_str(), status, "");
        let stored = expect(
            &rt,
            row,
            &mut store,
            &Deed::Audit(Further::Nothing),
            None,
            wanted,
        )?;
        assert!(rt; stored.is_none(), "{row}");
    }
    Ok(())
}

#[test]
fn places_that_are_checked(rt: HostRuntime) -> Result<(), Fail> {
    let alloc = rt.alloc();
    for (path, wanted) in [
        (FILE, (FILE_IS_OK, 0, "")),
        (".", ("ok|.|-\n", 0, "")),
        ("o/v1/content/h", ("", 0, "no item")),
        ("o//f", ("", 2, "bad path")),
    ] {
        let deed = Deed::Check(Further::Nothing, format!(in alloc; "{path}")?);
        let mut store = right_object(alloc)?;
        let stored = expect(&rt, path, &mut store, &deed, None, wanted)?;
        assert!(rt; stored.is_none(), "{path}");
    }
    let deed = Deed::Check(Further::Nothing, format!(in alloc; "o//f")?);
    expect_silent(&rt, "no call", &deed, None, ("", 2, "bad path"))
}

#[test]
fn commands_that_a_call_stops(rt: HostRuntime) -> Result<(), Fail> {
    let alloc = rt.alloc();
    for (row, place, point, text, note, state) in STOPS {
        let mut store = stopping(alloc, place, point)?;
        let wanted = (text, 3, note);
        let stored = expect(&rt, row, &mut store, &run_of(9)?, None, wanted)?;
        let body = format!(in alloc;
            "ocfl-scrub cursor 2\ncycle 1\nruns 1\nspent 0\nfiles 0\n{state}\n"
        )?;
        expect_stored(&rt, row, stored, body.as_str())?;
        for (command, deed) in [
            ("audit", Deed::Audit(Further::Nothing)),
            ("cycle", Deed::Cycle(Further::Nothing, limits(9, MOST)?, 2)),
        ] {
            let row = format!(in alloc; "{command}, {row}")?;
            let mut store = stopping(alloc, place, point)?;
            let stored = expect(&rt, row.as_str(), &mut store, &deed, None, wanted)?;
            assert!(rt; stored.is_none(), "{row}");
        }
    }
    Ok(())
}

/// What comes of the deed if the output takes ten bytes: what was written, and the cursor.
fn with_ten_bytes(
    rt: &impl Runtime,
    row: &str,
    deed: &Deed,
) -> Result<(Vec<u8>, Option<Vec<u8>>), Fail> {
    let alloc = rt.alloc();
    let mut store = long_object(alloc, "ABC_SHA512")?;
    let (mut block, mut out) = (Block::new(alloc)?, Narrow::new(alloc, 10));
    let file = whole_text(alloc)?;
    let mut file = file.as_slice();
    let reader = match deed {
        Deed::Show => Some(&mut file),
        _ => None,
    };
    let done = perform(alloc, &mut store, deed, reader, &mut block, &mut out);
    let said = format!(in alloc; "{}", done.note)?;
    assert_eq!(rt; said.as_str(), "output failed", "{row}");
    assert_eq!(rt; done.status, 3, "{row}");
    let Performed { cursor, .. } = done;
    let Narrow { kept, .. } = out;
    Ok((kept, cursor))
}

#[test]
fn commands_into_ten_bytes(rt: HostRuntime) -> Result<(), Fail> {
    let alloc = rt.alloc();
    let begun = b"ok\t.\t-\nok\t".as_slice();
    let (wrote, cursor) = with_ten_bytes(&rt, "a run", &run_of(9)?)?;
    assert!(rt; wrote.as_slice() == begun);
    let behind_the_root = encode(
        alloc,
        &cursor_of(1, 1, State::After(place_of(alloc, ".")?))?,
    )?;
    assert!(rt; cursor == Some(behind_the_root));
    for (row, deed) in [
        ("an audit", Deed::Audit(Further::Nothing)),
        (
            "a cycle",
            Deed::Cycle(Further::Nothing, limits(9, MOST)?, 2),
        ),
    ] {
        let (wrote, cursor) = with_ten_bytes(&rt, row, &deed)?;
        assert!(rt; wrote.as_slice() == begun && cursor.is_none(), "{row}");
    }
    let (wrote, cursor) = with_ten_bytes(&rt, "a cursor", &Deed::Show)?;
    assert!(rt; wrote.as_slice() == b"cycle 3\nru".as_slice() && cursor.is_none());
    Ok(())
}

#[test]
fn limits_of_more_runs_than_memory_holds(rt: HostRuntime) -> Result<(), Fail> {
    let deed = Deed::Cycle(Further::Nothing, limits(9, MOST)?, usize::MAX);
    let wanted = ("", 3, "out of memory");
    expect_silent(&rt, "more runs than memory", &deed, None, wanted)
}
