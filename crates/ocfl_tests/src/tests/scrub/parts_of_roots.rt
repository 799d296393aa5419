//! Parts of storage roots: what audits, runs and cycles of them write and say, and what they list
//! and open.
use super::expected::HEADS;
use super::run_figures::{
    A, ALL, B, C, MOST, cursor_after, cycle_says, equal_limits, expect_run_end, expect_text,
    limits, run_says, why_says,
};
use crate::tests::common::Runtime;
use crate::tests::common::roots::{
    long_object, missing_and_there, right_objects, three_files, two_files,
};
use crate::tests::common::store::{expect_listed, expect_opened, place_of, was_not_called};
use ocfl_cursor::Cursor;
use ocfl_digest::Block;
use ocfl_memory::{MemTree, Point};
use ocfl_report::{DisplayPlace, Further};
use ocfl_scrub::{AuditEnd, AuditStatus, Part, audit_part, cycle_part, run_part};
use ocfl_tree::Place;
use std::alloc::Global;
use std::test::Fail;

/// The parts that these separators make.
pub(crate) fn parts_between(alloc: Global, separators: &[Place]) -> Result<Vec<Part>, Fail> {
    let mut parts = Vec::new(alloc);
    let mut from: Option<Place> = None;
    for separator in separators {
        let below = Some(separator.try_clone()?);
        parts.push(Part::between(alloc, from, below))?;
        from = Some(separator.try_clone()?);
    }
    parts.push(Part::between(alloc, from, None))?;
    Ok(parts)
}

/// The parts that the separators at these paths make.
fn parts_by(alloc: Global, paths: &[&str]) -> Result<Vec<Part>, Fail> {
    let mut separators = Vec::new(alloc);
    for path in paths {
        separators.push(place_of(alloc, path)?)?;
    }
    parts_between(alloc, separators.as_slice())
}

/// Each of the parts that the separators at these paths make is as its row says.
fn expect_each<T>(
    rt: &impl Runtime,
    row: &str,
    separators: &[&str],
    rows: &[T],
    expect: impl Fn(&str, &Part, &T) -> Result<(), Fail>,
) -> Result<(), Fail> {
    let parts = parts_by(rt.alloc(), separators)?;
    assert_eq!(rt; parts.len(), rows.len(), "{row}");
    for ((part, wanted), number) in parts.iter().zip(rows).zip(1u64..) {
        let row = format!(in rt.alloc(); "{row}, part {number}")?;
        expect(row.as_str(), part, wanted)?;
    }
    Ok(())
}

/// The storage root of a name.
fn root_named(alloc: Global, name: &str) -> Result<MemTree, Fail> {
    match name {
        "three files" => three_files(alloc),
        "two files" => two_files(alloc),
        "a missing file" => missing_and_there(alloc),
        "three objects" => right_objects(alloc, &["o1", "o2", "o3"]),
        "no listing of the object" => {
            let mut store = long_object(alloc, "ABC_SHA512")?;
            store.fail_at(&place_of(alloc, "o")?, Point::List)?;
            Ok(store)
        }
        _ => Err("no such root".into()),
    }
}

/// Whether an audit found something, how it ended, and its last place.
fn audit_says(alloc: Global, audit: &AuditEnd) -> Result<String, Fail> {
    let found = if audit.found { "found" } else { "clean" };
    let end = match &audit.end {
        AuditStatus::Ended => format!(in alloc; "ended")?,
        AuditStatus::Stopped(why) => why_says(alloc, why)?,
    };
    let last = match &audit.last {
        Some(place) => format!(in alloc; "after {}", DisplayPlace(place))?,
        None => format!(in alloc; "start")?,
    };
    Ok(format!(in alloc; "{found}, {end}; {last}")?)
}

/// The calls that take a part.
const CALLS: [&str; 3] = ["audit", "run", "cycle"];

/// Such a call over a part, with nothing that limits it, writes these pieces. It gives what the
/// call says.
fn take_part(
    rt: &impl Runtime,
    row: &str,
    call: &str,
    store: &mut MemTree,
    part: &Part,
    pieces: &[&str],
) -> Result<String, Fail> {
    let alloc = rt.alloc();
    let (mut block, mut out) = (Block::new(alloc)?, Vec::new(alloc));
    let most = limits(MOST, MOST)?;
    let says = match call {
        "audit" => audit_says(
            alloc,
            &audit_part(alloc, store, Further::Nothing, part, &mut block, &mut out),
        )?,
        "run" => {
            let start = Cursor::new(Further::Nothing);
            let end = run_part(alloc, store, part, start, most, &mut block, &mut out);
            run_says(alloc, &end)?
        }
        _ => {
            let end = cycle_part(
                alloc,
                store,
                Further::Nothing,
                part,
                &[most],
                &mut block,
                &mut out,
            );
            cycle_says(alloc, &end)?
        }
    };
    expect_text(rt, row, out, pieces, call)?;
    Ok(says)
}

/// What is written of a part, its last place, its figures, and whether it has a finding.
type Taken = (
    &'static [&'static str],
    &'static str,
    &'static str,
    &'static str,
);

/// Each call takes all of the part, and says so.
fn expect_taken(
    rt: &impl Runtime,
    row: &str,
    root: &str,
    part: &Part,
    taken: &Taken,
) -> Result<(), Fail> {
    let alloc = rt.alloc();
    let (pieces, last, figures, found) = taken;
    for call in CALLS {
        let mut store = root_named(alloc, root)?;
        let says = take_part(rt, row, call, &mut store, part, pieces)?;
        let run = format!(in alloc; "{figures} {found}, ended; cycle 1 runs 1 {figures} ended")?;
        let said = match call {
            "audit" => format!(in alloc; "{found}, ended; {last}")?,
            "run" => run,
            _ => format!(in alloc; "runs 1 {run}")?,
        };
        assert_eq!(rt; says.as_str(), said.as_str(), "{row}, {call}");
    }
    Ok(())
}

const FILE_A: &str = "o/v1/content/a";

const FILE_B: &str = "o/v1/content/b";

/// The heads of the root and of its object, and no file.
const NO_FILE: Taken = (&[HEADS], "after o", "spent 0 files 0", "clean");

const NOTHING_AT_ALL: Taken = (&[], "start", "spent 0 files 0", "clean");

const ALL_OF_THREE: Taken = (ALL, "after o/v1/content/c", "spent 9 files 3", "clean");

const B_AND_C: Taken = (&[B, C], "after o/v1/content/c", "spent 5 files 2", "clean");

const SLASH: &str = "ok|o/v1/content/a/b|3\n";

const DASH: &str = "ok|o/v1/content/a-b|3\n";

/// A name, a storage root, separators, and what is taken of each part that they make.
const SEPARATED: [(&str, &str, &[&str], &[Taken]); 7] = [
    (
        "at two files",
        "three files",
        &[FILE_A, FILE_B],
        &[
            NO_FILE,
            (&[A], "after o/v1/content/a", "spent 4 files 1", "clean"),
            B_AND_C,
        ],
    ),
    (
        "at no item",
        "three files",
        &["o/v1/content/aa"],
        &[
            (
                &[HEADS, A],
                "after o/v1/content/a",
                "spent 4 files 1",
                "clean",
            ),
            B_AND_C,
        ],
    ),
    ("no separators", "three files", &[], &[ALL_OF_THREE]),
    (
        "at the storage root",
        "three files",
        &["."],
        &[NOTHING_AT_ALL, ALL_OF_THREE],
    ),
    (
        "at a directory in the content",
        "two files",
        &[FILE_A],
        &[
            NO_FILE,
            (
                &[SLASH, DASH],
                "after o/v1/content/a-b",
                "spent 8 files 2",
                "clean",
            ),
        ],
    ),
    (
        "at the file beside that directory",
        "two files",
        &["o/v1/content/a-b"],
        &[
            (
                &[HEADS, SLASH],
                "after o/v1/content/a/b",
                "spent 4 files 1",
                "clean",
            ),
            (
                &[DASH],
                "after o/v1/content/a-b",
                "spent 4 files 1",
                "clean",
            ),
        ],
    ),
    (
        "at a missing file",
        "a missing file",
        &[FILE_A],
        &[
            NO_FILE,
            (
                &[
                    "E092|o/v1/content/a|sha256 missing\nE093|o/v1/content/a|sha1 missing\n",
                    "ok|o/v1/content/b|3\n",
                ],
                "after o/v1/content/b",
                "spent 4 files 1",
                "found",
            ),
        ],
    ),
];

#[test]
fn parts_that_separators_make(rt: HostRuntime) -> Result<(), Fail> {
    for (row, root, separators, taken) in SEPARATED {
        expect_each(&rt, row, separators, taken, |row, part, taken| {
            expect_taken(&rt, row, root, part, taken)
        })?;
    }
    Ok(())
}

#[test]
fn part_that_is_all_of_a_root(rt: HostRuntime) -> Result<(), Fail> {
    let alloc = rt.alloc();
    let whole = Part::whole(alloc);
    expect_taken(&rt, "the whole root", "three files", &whole, &ALL_OF_THREE)?;
    let branch = Part::branch(Place::root(alloc));
    let row = "the branch of the root";
    expect_taken(&rt, row, "three files", &branch, &ALL_OF_THREE)?;
    let between = Part::between(alloc, None, None);
    expect_taken(&rt, "no ends", "three files", &between, &ALL_OF_THREE)
}

// ---- what is listed, and what is opened

/// What is written of a part, what is listed, and the inventories and content that are opened.
#[derive(Drop)]
struct Looked {
    text: &'static str,
    listed: &'static str,
    inventories: &'static str,
    contents: &'static str,
}

const NOT_LOOKED_AT: Looked = Looked {
    text: "",
    listed: "",
    inventories: "",
    contents: "",
};

/// Each call takes all of the part of the root of three objects, and lists and opens just this.
fn expect_looked(rt: &impl Runtime, row: &str, part: &Part, looked: &Looked) -> Result<(), Fail> {
    let alloc = rt.alloc();
    for call in CALLS {
        let mut store = root_named(alloc, "three objects")?;
        take_part(rt, row, call, &mut store, part, &[looked.text])?;
        let row = format!(in alloc; "{row}, {call}")?;
        let row = row.as_str();
        expect_listed(rt, row, &store, looked.listed)?;
        expect_opened(rt, row, &store, "/inventory.json", looked.inventories)?;
        expect_opened(rt, row, &store, "/content/f", looked.contents)?;
    }
    Ok(())
}

/// A name, separators, and what is looked at for each part that they make.
const APART: [(&str, &[&str], &[Looked]); 2] = [
    (
        "at the second object",
        &["o2"],
        &[
            Looked {
                text: "ok|.|-\nok|o1|-\nok|o1/v1/content/f|3\n",
                listed: ";o1;o1/v1;o1/v1/content;",
                inventories: "o1/inventory.json;",
                contents: "o1/v1/content/f;",
            },
            Looked {
                text: "ok|o2|-\nok|o2/v1/content/f|3\nok|o3|-\nok|o3/v1/content/f|3\n",
                listed: ";o2;o2/v1;o2/v1/content;o3;o3/v1;o3/v1/content;",
                inventories: "o2/inventory.json;o3/inventory.json;",
                contents: "o2/v1/content/f;o3/v1/content/f;",
            },
        ],
    ),
    (
        "at the file of the second object",
        &["o2/v1/content/f"],
        &[
            Looked {
                text: "ok|.|-\nok|o1|-\nok|o1/v1/content/f|3\nok|o2|-\n",
                listed: ";o1;o1/v1;o1/v1/content;o2;o2/v1;o2/v1/content;",
                inventories: "o1/inventory.json;o2/inventory.json;",
                contents: "o1/v1/content/f;",
            },
            Looked {
                text: "ok|o2/v1/content/f|3\nok|o3|-\nok|o3/v1/content/f|3\n",
                listed: ";o2;o2/v1;o2/v1/content;o3;o3/v1;o3/v1/content;",
                inventories: "o2/inventory.json;o3/inventory.json;",
                contents: "o2/v1/content/f;o3/v1/content/f;",
            },
        ],
    ),
];

#[test]
fn parts_look_at_their_own_objects(rt: HostRuntime) -> Result<(), Fail> {
    for (row, separators, looked) in APART {
        expect_each(&rt, row, separators, looked, |row, part, looked| {
            expect_looked(&rt, row, part, looked)
        })?;
    }
    Ok(())
}

/// The path of a branch, and what is looked at for it.
const BRANCHES: [(&str, Looked); 5] = [
    (
        "o2",
        Looked {
            text: "ok|o2|-\nok|o2/v1/content/f|3\n",
            listed: ";o2;o2/v1;o2/v1/content;",
            inventories: "o2/inventory.json;",
            contents: "o2/v1/content/f;",
        },
    ),
    (
        "o2/v1",
        Looked {
            text: "ok|o2/v1/content/f|3\n",
            listed: ";o2;o2/v1;o2/v1/content;",
            inventories: "o2/inventory.json;",
            contents: "o2/v1/content/f;",
        },
    ),
    (
        "o2/v1/content/f",
        Looked {
            text: "ok|o2/v1/content/f|3\n",
            listed: ";o2;o2/v1;o2/v1/content;",
            inventories: "o2/inventory.json;",
            contents: "o2/v1/content/f;",
        },
    ),
    (
        "zz",
        Looked {
            text: "",
            listed: ";",
            inventories: "",
            contents: "",
        },
    ),
    (
        "o2/v2",
        Looked {
            text: "",
            listed: ";o2;",
            inventories: "o2/inventory.json;",
            contents: "",
        },
    ),
];

#[test]
fn branches_look_at_nothing_else(rt: HostRuntime) -> Result<(), Fail> {
    for (path, looked) in BRANCHES {
        let branch = Part::branch(place_of(rt.alloc(), path)?);
        expect_looked(&rt, path, &branch, &looked)?;
    }
    Ok(())
}

#[test]
fn nothing_is_looked_at_below_the_root(rt: HostRuntime) -> Result<(), Fail> {
    let parts = parts_by(rt.alloc(), &["."])?;
    expect_looked(&rt, "a part below the root", &parts[0], &NOT_LOOKED_AT)
}

/// Parts beside an object that cannot be listed: what is written of each, how it ends, the last
/// place of an audit and the state of a cursor, and what is listed.
const BESIDE: [(&str, &str, &str, &str, &str, &str); 3] = [
    ("before it", "ok|.|-\n", "ended", "after .", "ended", ";"),
    ("its own", "", "stopped at o", "start", "start", ";o;"),
    ("after it", "", "ended", "start", "ended", ";"),
];

#[test]
fn listing_that_fails_stops_its_own_part(rt: HostRuntime) -> Result<(), Fail> {
    let alloc = rt.alloc();
    let parts = parts_by(alloc, &["o", "o\u{1}"])?;
    for (number, (row, text, end, last, state, listed)) in BESIDE.iter().enumerate() {
        for call in CALLS {
            let mut store = root_named(alloc, "no listing of the object")?;
            let says = take_part(&rt, row, call, &mut store, &parts[number], &[text])?;
            let run = format!(in alloc;
                "spent 0 files 0 clean, {end}; cycle 1 runs 1 spent 0 files 0 {state}"
            )?;
            let said = match call {
                "audit" => format!(in alloc; "clean, {end}; {last}")?,
                "run" => run,
                _ => format!(in alloc; "runs 1 {run}")?,
            };
            let row = format!(in alloc; "{row}, {call}")?;
            assert_eq!(rt; says.as_str(), said.as_str(), "{row}");
            expect_listed(&rt, row.as_str(), &store, listed)?;
        }
    }
    Ok(())
}

// ---- runs and cycles with limits

/// A run of a part of the root of three files from the cursor writes these pieces and says this. It
/// gives its cursor.
fn expect_part_run(
    rt: &impl Runtime,
    row: &str,
    part: &Part,
    cursor: Cursor,
    budget: u64,
    wanted: (&[&str], &str),
) -> Result<Cursor, Fail> {
    let alloc = rt.alloc();
    let mut store = three_files(alloc)?;
    let (mut block, mut out) = (Block::new(alloc)?, Vec::new(alloc));
    let limits = limits(budget, MOST)?;
    let end = run_part(
        alloc, &mut store, part, cursor, limits, &mut block, &mut out,
    );
    expect_run_end(rt, row, end, out, wanted)
}

/// The runs of the part from the second file on, each with a budget of 1.
const ONE_AFTER_THE_OTHER: [(&str, &[&str], &str); 3] = [
    (
        "the first run",
        &[B],
        "spent 1 files 1 clean, open; cycle 1 runs 1 spent 1 files 1 after o/v1/content/b",
    ),
    (
        "the second run",
        &[C],
        "spent 4 files 1 clean, ended; cycle 1 runs 2 spent 5 files 2 ended",
    ),
    (
        "the first run of the next cycle",
        &[B],
        "spent 1 files 1 clean, open; cycle 2 runs 1 spent 1 files 1 after o/v1/content/b",
    ),
];

#[test]
fn next_cycle_begins_with_the_part(rt: HostRuntime) -> Result<(), Fail> {
    let parts = parts_by(rt.alloc(), &[FILE_B])?;
    let mut cursor = Cursor::new(Further::Nothing);
    for (row, pieces, said) in ONE_AFTER_THE_OTHER {
        cursor = expect_part_run(&rt, row, &parts[1], cursor, 1, (pieces, said))?;
    }
    Ok(())
}

#[test]
fn cursor_outside_the_part(rt: HostRuntime) -> Result<(), Fail> {
    let parts = parts_by(rt.alloc(), &[FILE_B])?;
    let cursor = cursor_after(rt.alloc(), "o")?;
    let said = "spent 5 files 2 clean, ended; cycle 1 runs 1 spent 5 files 2 ended";
    expect_part_run(&rt, "before it", &parts[1], cursor, 9, (&[B, C], said))?;
    let cursor = cursor_after(rt.alloc(), "o/v1/content/c")?;
    let said = "spent 0 files 0 clean, ended; cycle 1 runs 1 spent 0 files 0 ended";
    expect_part_run(&rt, "after it", &parts[0], cursor, 9, (&[], said))?;
    Ok(())
}

/// How many limits a cycle has, the budget and the files of each; what it writes, and what it says.
type Cycled = ((usize, u64, u64), &'static [&'static str], &'static str);

const NO_COST: &str = "runs 1 spent 0 files 0 clean, ended; cycle 1 runs 1 spent 0 files 0 ended";

const ONE_RUN_OF_4: &str =
    "runs 1 spent 4 files 1 clean, ended; cycle 1 runs 1 spent 4 files 1 ended";

const ONE_RUN_OF_5: &str =
    "runs 1 spent 5 files 2 clean, ended; cycle 1 runs 1 spent 5 files 2 ended";

const TWO_RUNS_OF_5: &str =
    "runs 2 spent 5 files 2 clean, ended; cycle 1 runs 2 spent 5 files 2 ended";

const NO_RUN: &str = "runs 0 spent 0 files 0 clean, open; cycle 1 runs 0 spent 0 files 0 start";

const OPEN_BEHIND_B: &str =
    "runs 1 spent 1 files 1 clean, open; cycle 1 runs 1 spent 1 files 1 after o/v1/content/b";

/// A name, the number of one of the parts from and to the first two files, and a cycle of it.
const CYCLED: [(&str, usize, Cycled); 7] = [
    ("heads alone", 0, ((4, 1, 1), &[HEADS], NO_COST)),
    ("one file", 1, ((4, 1, 1), &[A], ONE_RUN_OF_4)),
    (
        "two files and a budget of 1",
        2,
        ((4, 1, MOST), &[B, C], TWO_RUNS_OF_5),
    ),
    (
        "two files and one file a run",
        2,
        ((4, 9, 1), &[B, C], TWO_RUNS_OF_5),
    ),
    (
        "two files and a budget of 2",
        2,
        ((4, 2, 2), &[B, C], ONE_RUN_OF_5),
    ),
    (
        "two files and a run too few",
        2,
        ((1, 1, MOST), &[B], OPEN_BEHIND_B),
    ),
    ("two files and no limits", 2, ((0, 1, 1), &[], NO_RUN)),
];

/// A cycle of the part of the root of three files.
fn expect_cycled(rt: &impl Runtime, row: &str, part: &Part, cycled: Cycled) -> Result<(), Fail> {
    let alloc = rt.alloc();
    let ((count, budget, files), pieces, said) = cycled;
    let mut store = three_files(alloc)?;
    let (mut block, mut out) = (Block::new(alloc)?, Vec::new(alloc));
    let each = equal_limits(alloc, count, budget, files)?;
    let each = each.as_slice();
    let end = cycle_part(
        alloc,
        &mut store,
        Further::Nothing,
        part,
        each,
        &mut block,
        &mut out,
    );
    expect_text(rt, row, out, pieces, said)?;
    assert_eq!(rt; cycle_says(alloc, &end)?.as_str(), said, "{row}");
    assert!(rt; was_not_called(&store) || count > 0, "{row}");
    Ok(())
}

#[test]
fn cycles_of_parts_with_equal_limits(rt: HostRuntime) -> Result<(), Fail> {
    let parts = parts_by(rt.alloc(), &[FILE_A, FILE_B])?;
    for (row, number, cycled) in CYCLED {
        expect_cycled(&rt, row, &parts[number], cycled)?;
    }
    for (row, separator, number) in [
        ("an empty part before all items", ".", 0),
        ("an empty part after all items", "p", 1),
    ] {
        let parts = parts_by(rt.alloc(), &[separator])?;
        expect_cycled(&rt, row, &parts[number], ((4, 1, 1), &[], NO_COST))?;
        let row = format!(in rt.alloc(); "{row}, without limits")?;
        expect_cycled(&rt, row.as_str(), &parts[number], ((0, 1, 1), &[], NO_RUN))?;
    }
    Ok(())
}
