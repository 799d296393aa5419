//! Branches and parts on the command line, and splitting.

use super::{
    MOST, expect_in_usage, expect_split, expect_task, fault, limits, read, read_task, usage_text,
};
use crate::tests::common::Runtime;
use clap::error::ErrorKind;
use ocfl_arguments::{Asked, Chosen, Split};
use ocfl_deed::Deed;
use ocfl_report::Further;
use std::alloc::{AllocError, Global};
use std::test::Fail;

fn branch(alloc: Global, place: &str) -> Result<Chosen, AllocError> {
    Ok(Chosen::Branch(String::from_str(alloc, place)?))
}

fn part(alloc: Global, number: usize) -> Result<Chosen, AllocError> {
    let parts = String::from_str(alloc, "F")?;
    Ok(Chosen::Part { parts, number })
}

/// Each line, after its name, has a fault of usage of this kind.
fn each_has_fault(rt: &impl Runtime, kind: ErrorKind, rows: &[(&str, &str)]) {
    for &(name, line) in rows {
        assert_eq!(rt; fault(rt.alloc(), line), Some(kind), "{name}");
    }
}

#[test]
fn chooses_items(rt: HostRuntime) -> Result<(), Fail> {
    let alloc = rt.alloc();
    let run = "run --cursor C --budget 1 --parts F --part 2 R";
    for (name, line, wanted) in [
        ("a branch", "audit --under o2/v1 R", branch(alloc, "o2/v1")?),
        (
            "the root's branch",
            "audit R --under=.",
            branch(alloc, ".")?,
        ),
        (
            "a text that is no place",
            "audit --under /o R",
            branch(alloc, "/o")?,
        ),
        (
            "the first part",
            "audit --parts F --part 1 R",
            part(alloc, 1)?,
        ),
        ("a part of a run", run, part(alloc, 2)?),
        (
            "in another order",
            "audit R --part 7 --quiet --parts F",
            part(alloc, 7)?,
        ),
        (
            "the last number",
            "audit --parts F --part 100001 R",
            part(alloc, 100001)?,
        ),
        ("an audit of all", "audit R", Chosen::All),
        ("a run of all", "run --cursor C --budget 1 R", Chosen::All),
        ("a cycle of all", "cycle --budget 1 --runs 1 R", Chosen::All),
        ("a check", "check R under", Chosen::All),
        ("a cursor", "show parts", Chosen::All),
    ] {
        assert_eq!(rt; read_task(alloc, line)?.chosen, wanted, "{name}");
    }
    Ok(())
}

#[test]
fn takes_a_part_with_its_deed(rt: HostRuntime) -> Result<(), Fail> {
    let line = "audit --parts F --part 1 R";
    let wanted = (Deed::Audit(Further::Nothing), Some("R"), None);
    expect_task(&rt, "an audit", line, wanted)?;
    let line = "run --cursor C --budget 1 --parts F --part 2 --quiet R";
    let limits = limits(1, MOST)?;
    let wanted = (Deed::Run(Further::Nothing, limits), Some("R"), Some("C"));
    let run = expect_task(&rt, "a run", line, wanted)?;
    assert!(rt; run.quiet);
    Ok(())
}

/// Lines that choose half a part, or a part and a branch.
const HALF_PARTS: [(&str, &str); 7] = [
    ("no number", "audit --parts F R"),
    ("no file", "audit --part 1 R"),
    (
        "a branch and a part",
        "audit --under o --parts F --part 1 R",
    ),
    ("a branch and a file", "audit --under o --parts F R"),
    ("a branch and a number", "audit --under o --part 1 R"),
    (
        "a run without a number",
        "run --cursor C --budget 1 --parts F R",
    ),
    (
        "a run without a file",
        "run --cursor C --budget 1 --part 1 R",
    ),
];

#[test]
fn refuses_half_a_part(rt: HostRuntime) -> Result<(), Fail> {
    each_has_fault(&rt, ErrorKind::ValueValidation, &HALF_PARTS);
    for (name, line) in HALF_PARTS {
        let usage = if line.starts_with("audit") {
            "audit [OPTIONS] <ROOT>"
        } else {
            "run [OPTIONS] --cursor <FILE> --budget <N> <ROOT>"
        };
        let why = if line.contains("--under") {
            "'--under <PLACE>' cannot be used with '--parts <FILE>' or '--part <K>'"
        } else {
            "'--parts <FILE>' and '--part <K>' must be used together"
        };
        let wanted = format!(in rt.alloc();
            "error: {why}\n\nUsage: ocfl-scrub {usage}\n\nFor more information, try '--help'.\n"
        )?;
        let shown = usage_text(rt.alloc(), line)?;
        assert_eq!(rt; shown.as_str(), wanted.as_str(), "{name}");
    }
    Ok(())
}

#[test]
fn refuses_other_part_numbers(rt: HostRuntime) {
    each_has_fault(
        &rt,
        ErrorKind::ValueValidation,
        &[
            ("none", "audit --parts F --part 0 R"),
            ("one too many", "audit --parts F --part 100002 R"),
            ("no number", "audit --parts F --part x R"),
            (
                "none of a run",
                "run --cursor C --budget 1 --parts F --part 0 R",
            ),
            (
                "of a unit",
                "run --cursor C --budget 1 --parts F --part 1K R",
            ),
        ],
    );
}

#[test]
fn has_parts_only_where_they_are_taken(rt: HostRuntime) {
    each_has_fault(
        &rt,
        ErrorKind::UnknownArgument,
        &[
            ("a branch of a run", "run --cursor C --budget 1 --under o R"),
            (
                "a part of a cycle",
                "cycle --budget 1 --runs 1 --parts F --part 1 R",
            ),
            ("a part of a check", "check --parts F --part 1 R o"),
            ("a branch of a check", "check --under o R o"),
            ("a part of a cursor", "show --parts F --part 1 C"),
            ("a number to split", "split --part 1 R"),
            ("a branch to split", "split --parts 2 --under o R"),
        ],
    );
    each_has_fault(
        &rt,
        ErrorKind::ArgumentConflict,
        &[
            ("two branches", "audit --under o --under p R"),
            ("two files", "audit --parts F --parts G --part 1 R"),
            ("two numbers", "audit --parts F --part 1 --part 2 R"),
            ("two counts", "split --parts 1 --parts 2 R"),
        ],
    );
}

/// A line asks for splitting the folder `R` into so many parts.
fn expect_listing(rt: &impl Runtime, row: &str, line: &str, wanted: usize) -> Result<(), Fail> {
    match read(rt.alloc(), line)? {
        Asked::Split(Split::Listing { count, root }) => {
            assert_eq!(rt; (count, root.as_str()), (wanted, "R"), "{row}");
            Ok(())
        }
        _ => Err(Fail::from("no split by listing")),
    }
}

#[test]
fn splits_by_either(rt: HostRuntime) -> Result<(), Fail> {
    for (name, line, count) in [
        ("into one", "split --parts 1 R", 1),
        ("into the most", "split R --parts 100000", 100000),
        (
            "for an audit with inventories",
            "split --inventories --parts 2 R",
            2,
        ),
    ] {
        expect_listing(&rt, name, line, count)?;
    }
    for (name, line, budget) in [
        ("by the least budget", "split --budget 1 --report P", 1),
        ("by a unit", "split --report P --budget 10G", 10737418240),
        (
            "for an audit with inventories",
            "split --budget 7 --report P --inventories",
            7,
        ),
        ("by the most", "split --report P --budget 4194304T", 1 << 62),
    ] {
        expect_split(&rt, name, line, budget)?;
    }
    Ok(())
}

/// Lines that split by neither, by half of one, or by both.
const OTHER_SPLITS: [(&str, &str); 12] = [
    ("neither", "split"),
    ("only a folder", "split R"),
    ("no folder", "split --parts 3"),
    ("no report", "split --budget 1"),
    ("no budget", "split --report P"),
    ("a budget of a folder", "split --budget 1 R"),
    ("a report of a folder", "split --report P R"),
    ("a count and a budget", "split --parts 3 --budget 1 R"),
    ("a count and a report", "split --parts 3 --report P R"),
    (
        "a count in place of a folder",
        "split --parts 3 --budget 1 --report P",
    ),
    ("a report and a folder", "split --budget 1 --report P R"),
    ("both", "split --parts 3 --budget 1 --report P R"),
];

#[test]
fn refuses_other_splits(rt: HostRuntime) -> Result<(), Fail> {
    each_has_fault(&rt, ErrorKind::ValueValidation, &OTHER_SPLITS);
    let wanted = "error: 'split' takes either '--parts <COUNT>' and '<ROOT>', \
                  or '--budget <N>' and '--report <FILE>'\n\n\
                  Usage: ocfl-scrub split --parts <COUNT> <ROOT>\n       \
                  ocfl-scrub split --budget <N> --report <FILE>\n\n\
                  For more information, try '--help'.\n";
    for (name, line) in OTHER_SPLITS {
        assert_eq!(rt; usage_text(rt.alloc(), line)?.as_str(), wanted, "{name}");
    }
    Ok(())
}

#[test]
fn refuses_other_counts_and_budgets(rt: HostRuntime) {
    each_has_fault(
        &rt,
        ErrorKind::ValueValidation,
        &[
            ("into none", "split --parts 0 R"),
            ("into one too many", "split --parts 100001 R"),
            ("into a word", "split --parts x R"),
            ("by nothing", "split --budget 0 --report P"),
            (
                "by too much",
                "split --budget 4611686018427387905 --report P",
            ),
            ("by a part of a unit", "split --budget 1Ki --report P"),
        ],
    );
}

#[test]
fn shows_help_of_parts(rt: HostRuntime) -> Result<(), Fail> {
    let alloc = rt.alloc();
    expect_in_usage(
        &rt,
        &[
            ("--help", "\n  split  Writes the separators of parts: "),
            ("audit --help", "\n      --under <PLACE>  "),
            ("run --help", "\n      --parts <FILE>   "),
            ("run --help", "\n      --part <K>       "),
            (
                "split --help",
                "\nUsage: ocfl-scrub split --parts <COUNT> <ROOT>\n       \
             ocfl-scrub split --budget <N> --report <FILE>\n\n",
            ),
        ],
    )?;
    for name in [
        "audit", "run", "cycle", "night", "check", "split", "join", "show", "codes",
    ] {
        let line = format!(in alloc; "{name} --help")?;
        let example = format!(in alloc; "\n\nExample:\n  ocfl-scrub {name} ")?;
        let text = usage_text(alloc, line.as_str())?;
        assert!(rt; text.contains(example.as_str()), "{name}");
    }
    Ok(())
}
