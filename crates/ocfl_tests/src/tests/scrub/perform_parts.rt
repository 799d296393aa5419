//! What the program does for a command on a branch or on one part of a storage root.
use super::expected::HEADS;
use super::perform::{expect_stored, expect_within, run_of};
use super::run_figures::{A, B, C};
use super::stop::stopping;
use crate::tests::common::Runtime;
use crate::tests::common::cursors::{cut, ends_of, sealed};
use crate::tests::common::roots::{right_objects, three_files};
use crate::tests::common::store::{place_of, was_not_called};
use ocfl_deed::Deed;
use ocfl_memory::Point;
use ocfl_report::Further;
use ocfl_scrub::Scope;
use ocfl_tree::Tree;
use std::alloc::Global;
use std::test::Fail;

/// Doing the deed within the scope, with these bytes as the stored cursor, writes this text and
/// ends with this status and this note. It gives the cursor to be stored.
fn expect<T: Tree>(
    rt: &impl Runtime,
    row: &str,
    store: &mut T,
    deed: &Deed,
    scope: &Scope,
    file: Option<&[u8]>,
    wanted: (&str, u8, &str),
) -> Result<Option<Vec<u8>>, Fail> {
    expect_within(rt, row, store, deed, Some(scope), file, wanted)
}

/// The part between two places; `-` is no place.
fn part(alloc: Global, from: &str, below: &str) -> Result<Scope, Fail> {
    Ok(Scope::Part(ends_of(alloc, from, below)?))
}

/// The first lines of a cursor of that part.
fn front_of(alloc: Global, from: &str, below: &str) -> Result<String, Fail> {
    let from = if from == "-" { "start" } else { from };
    let below = if below == "-" { "end" } else { below };
    Ok(format!(in alloc; "ocfl-scrub part cursor 1\nfrom {from}\nbelow {below}\n")?)
}

const FILE_A: &str = "o/v1/content/a";

const FILE_B: &str = "o/v1/content/b";

const FILE_C: &str = "o/v1/content/c";

/// The ends of a part of the root of three files, and the items in it.
const PARTS: [(&str, &str, &str, &[&str]); 9] = [
    ("up to `a`", "-", FILE_A, &[HEADS]),
    ("from `a` to `b`", FILE_A, FILE_B, &[A]),
    ("from `b` on", FILE_B, "-", &[B, C]),
    ("up to no item", "-", "o/v1/content/aa", &[HEADS, A]),
    ("from no item on", "o/v1/content/aa", "-", &[B, C]),
    ("no ends", "-", "-", &[HEADS, A, B, C]),
    ("up to the root", "-", ".", &[]),
    ("from the root on", ".", "-", &[HEADS, A, B, C]),
    (
        "from the object to its first version",
        "o",
        "o/v1",
        &["ok|o|-\n"],
    ),
];

#[test]
fn audits_of_parts(rt: HostRuntime) -> Result<(), Fail> {
    let alloc = rt.alloc();
    for (row, from, below, pieces) in PARTS {
        let scope = part(alloc, from, below)?;
        let text = pieces.concat(alloc)?;
        let wanted = (text.as_str(), 0, "");
        let mut store = three_files(alloc)?;
        let stored = expect(
            &rt,
            row,
            &mut store,
            &Deed::Audit(Further::Nothing),
            &scope,
            None,
            wanted,
        )?;
        assert!(rt; stored.is_none(), "{row}");
        // A run of the part takes as much, and stores a cursor that names the part.
        let mut store = three_files(alloc)?;
        let mut costs = 0;
        for (piece, cost) in [(A, 4), (B, 1), (C, 4)] {
            if text.as_str().contains(piece) {
                costs += cost;
            }
        }
        let note = format!(in alloc; "cycle 1, run 1, cost {costs}, ended")?;
        let wanted = (text.as_str(), 0, note.as_str());
        let stored = expect(&rt, row, &mut store, &run_of(9)?, &scope, None, wanted)?;
        let stored = String::from_utf8(stored.ok_or("a cursor")?)?;
        let front = front_of(alloc, from, below)?;
        assert!(rt; stored.as_str().starts_with(front.as_str()), "{row}");
    }
    Ok(())
}

/// Branches of the root of the objects `o1`, `o2` and `o3`: what is written, and the status.
const BRANCHES: [(&str, &str, u8, &str); 6] = [
    ("o2", "ok|o2|-\nok|o2/v1/content/f|3\n", 0, ""),
    ("o2/v1", "ok|o2/v1/content/f|3\n", 0, ""),
    ("o2/v1/content/f", "ok|o2/v1/content/f|3\n", 0, ""),
    ("zz", "", 2, "no item"),
    ("o2/v2", "", 2, "no item"),
    ("o", "", 2, "no item"),
];

#[test]
fn audits_of_branches(rt: HostRuntime) -> Result<(), Fail> {
    let alloc = rt.alloc();
    for (path, text, status, note) in BRANCHES {
        let mut store = right_objects(alloc, &["o1", "o2", "o3"])?;
        let scope = Scope::Branch(place_of(alloc, path)?);
        let wanted = (text, status, note);
        let stored = expect(
            &rt,
            path,
            &mut store,
            &Deed::Audit(Further::Nothing),
            &scope,
            None,
            wanted,
        )?;
        assert!(rt; stored.is_none(), "{path}");
    }
    Ok(())
}

/// Runs of the part from `b` on, each from the cursor of the one before: the budget, what it
/// writes, its note, and the lines of the cursor that it leaves.
const RUNS: [(&str, u64, &str, &str, &str); 3] = [
    (
        "the first run",
        1,
        B,
        "cycle 1, run 1, cost 1, open",
        "cycle 1\nruns 1\nspent 1\nfiles 1\nafter o/v1/content/b\n",
    ),
    (
        "the second run",
        1,
        C,
        "cycle 1, run 2, cost 4, ended",
        "cycle 1\nruns 2\nspent 5\nfiles 2\nended\n",
    ),
    (
        "the first run of the next cycle",
        1,
        B,
        "cycle 2, run 1, cost 1, open",
        "cycle 2\nruns 1\nspent 1\nfiles 1\nafter o/v1/content/b\n",
    ),
];

const FROM_B: &str = "ocfl-scrub part cursor 1\nfrom o/v1/content/b\nbelow end\n";

#[test]
fn runs_of_a_part_go_on(rt: HostRuntime) -> Result<(), Fail> {
    let alloc = rt.alloc();
    let mut store = three_files(alloc)?;
    let scope = part(alloc, FILE_B, "-")?;
    let mut stored: Option<Vec<u8>> = None;
    for (row, budget, text, note, lines) in RUNS {
        let file = stored.as_deref();
        let wanted = (text, 0, note);
        stored = expect(&rt, row, &mut store, &run_of(budget)?, &scope, file, wanted)?;
        let right = sealed(alloc, format!(in alloc; "{FROM_B}{lines}")?.as_str())?;
        assert!(rt; stored.as_deref() == Some(right.as_slice()), "{row}");
    }
    Ok(())
}

/// Where a stored cursor is, the part that it is of, what its run writes, and its cost.
const STANDS: [(&str, &str, &str, &str, &[&str], u64); 4] = [
    ("at its start", "start", FILE_B, "-", &[B, C], 5),
    (
        "after an item before the part",
        "after o",
        FILE_B,
        "-",
        &[B, C],
        5,
    ),
    (
        "after the part's first item",
        "after o/v1/content/b",
        FILE_B,
        "-",
        &[C],
        4,
    ),
    (
        "after an item behind the part",
        "after o/v1/content/c",
        "-",
        FILE_B,
        &[],
        0,
    ),
];

#[test]
fn runs_of_a_part_from_anywhere(rt: HostRuntime) -> Result<(), Fail> {
    let alloc = rt.alloc();
    for (row, state, from, below, pieces, cost) in STANDS {
        let scope = part(alloc, from, below)?;
        let front = front_of(alloc, from, below)?;
        let body = format!(in alloc; "{front}cycle 1\nruns 0\nspent 0\nfiles 0\n{state}\n")?;
        let file = sealed(alloc, body.as_str())?;
        let text = pieces.concat(alloc)?;
        let note = format!(in alloc; "cycle 1, run 1, cost {cost}, ended")?;
        let wanted = (text.as_str(), 0, note.as_str());
        let mut store = three_files(alloc)?;
        let file = Some(file.as_slice());
        let stored = expect(&rt, row, &mut store, &run_of(9)?, &scope, file, wanted)?;
        let files = pieces.len();
        let body = format!(in alloc;
            "{front}cycle 1\nruns 1\nspent {cost}\nfiles {files}\nended\n"
        )?;
        expect_stored(&rt, row, stored, body.as_str())?;
    }
    Ok(())
}

/// A run within this scope from these bytes is refused so: it looks at nothing.
fn expect_refused(
    rt: &impl Runtime,
    row: &str,
    file: &[u8],
    scope: &Scope,
    note: &str,
) -> Result<(), Fail> {
    let mut store = three_files(rt.alloc())?;
    let wanted = ("", 4, note);
    let stored = expect(rt, row, &mut store, &run_of(9)?, scope, Some(file), wanted)?;
    assert!(rt; stored.is_none(), "{row}");
    assert!(rt; was_not_called(&store), "{row}");
    Ok(())
}

/// The lines of a cursor after the first run of that part.
const BEHIND_B: &str = "cycle 1\nruns 1\nspent 1\nfiles 1\nafter o/v1/content/b\n";

/// The text of that cursor, with this after its lines.
fn behind_b(alloc: Global, more: &str) -> Result<Vec<u8>, Fail> {
    sealed(
        alloc,
        format!(in alloc; "{FROM_B}{BEHIND_B}{more}")?.as_str(),
    )
}

#[test]
fn cursors_of_other_parts(rt: HostRuntime) -> Result<(), Fail> {
    let alloc = rt.alloc();
    let file = behind_b(alloc, "")?;
    let another = "cursor refused: another part";
    for (row, scope) in [
        ("the part before it", part(alloc, "-", FILE_B)?),
        ("a part that begins later", part(alloc, FILE_C, "-")?),
    ] {
        expect_refused(&rt, row, &file, &scope, another)?;
    }
    let none = "cursor refused: not a cursor";
    expect_refused(&rt, "the whole root", &file, &Scope::Whole, none)?;
    let branch = Scope::Branch(place_of(alloc, "o")?);
    expect_refused(&rt, "a branch", &file, &branch, none)?;
    let of_whole = format!(in alloc; "ocfl-scrub cursor 2\n{BEHIND_B}")?;
    let (row, file) = ("the whole root's", sealed(alloc, of_whole.as_str())?);
    expect_refused(&rt, row, &file, &part(alloc, "-", "-")?, none)
}

#[test]
fn bytes_that_are_no_cursor_of_a_part(rt: HostRuntime) -> Result<(), Fail> {
    let scope = part(rt.alloc(), FILE_B, "-")?;
    let damaged = cut(behind_b(rt.alloc(), "")?);
    let malformed = behind_b(rt.alloc(), "0\n")?;
    for (row, file, why) in [
        ("no byte", b"".as_slice(), "not a cursor"),
        ("its last byte is missing", &damaged, "damaged"),
        ("one line more", &malformed, "malformed"),
    ] {
        let note = format!(in rt.alloc(); "cursor refused: {why}")?;
        expect_refused(&rt, row, file, &scope, note.as_str())?;
    }
    Ok(())
}

#[test]
fn cursors_of_parts_that_are_shown(rt: HostRuntime) -> Result<(), Fail> {
    let alloc = rt.alloc();
    let right = behind_b(alloc, "")?;
    let shown = format!(in alloc; "from o/v1/content/b\nbelow end\n{BEHIND_B}")?;
    let damaged = cut(behind_b(alloc, "")?);
    let malformed = behind_b(alloc, "0\n")?;
    for (row, file, wanted) in [
        ("right", right.as_slice(), (shown.as_str(), 0, "")),
        (
            "without its last byte",
            &damaged,
            ("", 4, "cursor refused: damaged"),
        ),
        (
            "one line more",
            &malformed,
            ("", 4, "cursor refused: malformed"),
        ),
    ] {
        // Within any scope.
        for scope in [Scope::Whole, part(alloc, "-", FILE_B)?] {
            let mut store = three_files(alloc)?;
            let (deed, file) = (Deed::Show, Some(file));
            let stored = expect(&rt, row, &mut store, &deed, &scope, file, wanted)?;
            assert!(rt; stored.is_none() && store.listings().is_empty(), "{row}");
        }
    }
    Ok(())
}

/// Parts of a root in which the object `o` cannot be listed: their ends as places and in texts,
/// what an audit of each writes with its status and note, the note of a run, and its cursor's
/// state.
const BESIDE: [((&str, &str), &str, (&str, u8, &str), &str, &str); 3] = [
    (
        ("-", "o"),
        "from start\nbelow o\n",
        ("ok|.|-\n", 0, ""),
        "cycle 1, run 1, cost 0, ended",
        "ended",
    ),
    (
        ("o", "o\u{1}"),
        "from o\nbelow o%01\n",
        ("", 3, "stopped at o"),
        "stopped at o",
        "start",
    ),
    (
        ("o\u{1}", "-"),
        "from o%01\nbelow end\n",
        ("", 0, ""),
        "cycle 1, run 1, cost 0, ended",
        "ended",
    ),
];

#[test]
fn parts_beside_one_that_stops(rt: HostRuntime) -> Result<(), Fail> {
    let alloc = rt.alloc();
    for ((from, below), ends, audited, note, state) in BESIDE {
        let scope = part(alloc, from, below)?;
        let mut store = stopping(alloc, "o", Point::List)?;
        let stored = expect(
            &rt,
            ends,
            &mut store,
            &Deed::Audit(Further::Nothing),
            &scope,
            None,
            audited,
        )?;
        assert!(rt; stored.is_none(), "{ends}");
        let mut store = stopping(alloc, "o", Point::List)?;
        let (text, status, _) = audited;
        let wanted = (text, status, note);
        let stored = expect(&rt, ends, &mut store, &run_of(9)?, &scope, None, wanted)?;
        let body = format!(in alloc;
            "ocfl-scrub part cursor 1\n{ends}cycle 1\nruns 1\nspent 0\nfiles 0\n{state}\n"
        )?;
        expect_stored(&rt, ends, stored, body.as_str())?;
    }
    Ok(())
}
