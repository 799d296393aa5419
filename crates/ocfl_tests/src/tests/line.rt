//! Command lines: what their words ask for, and what is refused.
mod chosen;
mod night_words;
mod sizes;

use crate::tests::common::Runtime;
use clap::error::ErrorKind;
use ocfl_arguments::{Asked, CommandStop, Split, Task, asked};
use ocfl_cursor::{Budget, FileLimit, Limits};
use ocfl_deed::Deed;
use ocfl_report::Further;
use std::alloc::{AllocError, Global};
use std::test::Fail;

/// The most that a run may be allowed to read, and the most files that it may start.
const MOST: u64 = 4611686018427387904;

fn limits(budget: u64, files: u64) -> Result<Limits, Fail> {
    let budget = Budget::new(budget).ok_or("a budget")?;
    let files = FileLimit::new(files).ok_or("a limit")?;
    Ok(Limits { budget, files })
}

/// The program's name and the words of a line, in which no word has a space.
fn words_of<'a>(alloc: Global, line: &'a str) -> Result<Vec<&'a str>, AllocError> {
    let mut words = Vec::new(alloc);
    words.push("ocfl-scrub")?;
    for word in line.split(' ') {
        words.push(word)?;
    }
    Ok(words)
}

fn read(alloc: Global, line: &str) -> Result<Asked, CommandStop> {
    let words = words_of(alloc, line)?;
    asked(alloc, words.as_slice())
}

/// The task that a line asks for.
fn read_task(alloc: Global, line: &str) -> Result<Task, Fail> {
    match read(alloc, line)? {
        Asked::Task(task) => Ok(task),
        _ => Err(Fail::from("no task")),
    }
}

/// The kind of the fault of usage.
fn words_fault(alloc: Global, words: &[&str]) -> Option<ErrorKind> {
    match asked(alloc, words) {
        Err(CommandStop::Usage(error)) => Some(error.kind()),
        _ => None,
    }
}

/// The same of a line.
fn fault(alloc: Global, line: &str) -> Option<ErrorKind> {
    match read(alloc, line) {
        Err(CommandStop::Usage(error)) => Some(error.kind()),
        _ => None,
    }
}

/// The task that a line asks for has this deed, this root and this file. It gives the task.
fn expect_task(
    rt: &impl Runtime,
    row: &str,
    line: &str,
    (deed, root, file): (Deed, Option<&str>, Option<&str>),
) -> Result<Task, Fail> {
    let task = read_task(rt.alloc(), line)?;
    assert_eq!(rt; task.deed, deed, "{row}");
    assert_eq!(rt; task.root.as_deref(), root, "{row}");
    assert_eq!(rt; task.file.as_deref(), file, "{row}");
    Ok(task)
}

/// A line asks for this run over the root `R` with the cursor `F`.
fn expect_run(rt: &impl Runtime, row: &str, line: &str, limits: Limits) -> Result<(), Fail> {
    expect_task(
        rt,
        row,
        line,
        (Deed::Run(Further::Nothing, limits), Some("R"), Some("F")),
    )?;
    Ok(())
}

/// A line asks for splitting the report `P` by this budget.
fn expect_split(rt: &impl Runtime, row: &str, line: &str, wanted: u64) -> Result<(), Fail> {
    match read(rt.alloc(), line)? {
        Asked::Split(Split::Report { budget, report }) => {
            assert_eq!(rt; (budget, report.as_str()), (wanted, "P"), "{row}");
            Ok(())
        }
        _ => Err(Fail::from("no split by a report")),
    }
}

/// The text of a line's fault, or of the help that it asks for.
fn usage_text(alloc: Global, line: &str) -> Result<String, Fail> {
    match read(alloc, line) {
        Err(CommandStop::Usage(error)) => Ok(format!(in alloc; "{error}")?),
        _ => Err(Fail::from("no usage")),
    }
}

/// What each of these lines shows has this text in it.
fn expect_in_usage(rt: &impl Runtime, rows: &[(&str, &str)]) -> Result<(), Fail> {
    for (line, text) in rows {
        let shown = usage_text(rt.alloc(), line)?;
        assert!(rt; shown.contains(text), "{line}: {text}");
    }
    Ok(())
}

#[test]
fn reads_a_cycle(rt: HostRuntime) -> Result<(), Fail> {
    for (row, line, budget, files, runs) in [
        ("a budget", "cycle --budget 1 --runs 2 R", 1, MOST, 2),
        (
            "a budget and files",
            "cycle --runs 100000 --files 3 --budget 2 R",
            2,
            3,
            100000,
        ),
    ] {
        let deed = Deed::Cycle(Further::Nothing, limits(budget, files)?, runs);
        expect_task(&rt, row, line, (deed, Some("R"), None))?;
    }
    Ok(())
}

#[test]
fn reads_a_run(rt: HostRuntime) -> Result<(), Fail> {
    for (row, line, files) in [
        ("a budget", "run --cursor F --budget 9 R", MOST),
        (
            "in another order",
            "run --files 3 R --budget=9 --cursor F",
            3,
        ),
        (
            "the most files",
            "run --cursor F --budget 9 --files 4611686018427387904 R",
            MOST,
        ),
    ] {
        expect_run(&rt, row, line, limits(9, files)?)?;
    }
    Ok(())
}

#[test]
fn reads_the_others(rt: HostRuntime) -> Result<(), Fail> {
    let place = String::from_str(rt.alloc(), "o/v1")?;
    for (row, line, wanted) in [
        (
            "an audit",
            "audit R",
            (Deed::Audit(Further::Nothing), Some("R"), None),
        ),
        (
            "a check",
            "check R o/v1",
            (Deed::Check(Further::Nothing, place), Some("R"), None),
        ),
        ("a cursor", "show F", (Deed::Show, None, Some("F"))),
    ] {
        expect_task(&rt, row, line, wanted)?;
    }
    Ok(())
}

#[test]
fn reads_a_flag(rt: HostRuntime) -> Result<(), Fail> {
    let alloc = rt.alloc();
    for line in [
        "audit --quiet R",
        "audit R --quiet",
        "run --quiet --cursor F --budget 1 R",
        "cycle --budget 1 --quiet --runs 1 R",
    ] {
        assert!(rt; read_task(alloc, line)?.quiet, "{line}");
    }
    for line in [
        "audit R",
        "audit quiet",
        "run --cursor quiet --budget 1 true",
        "check R p",
        "show F",
    ] {
        assert!(rt; !read_task(alloc, line)?.quiet, "{line}");
    }
    for line in ["check --quiet R p", "show --quiet F", "--quiet audit R"] {
        assert_eq!(rt;
            fault(alloc, line),
            Some(ErrorKind::UnknownArgument),
            "{line}"
        );
    }
    Ok(())
}

/// What a deed checks beside what every audit checks. `None` if it is no audit.
fn further_of(deed: &Deed) -> Option<Further> {
    match deed {
        Deed::Audit(further) | Deed::Run(further, _) => Some(*further),
        Deed::Cycle(further, _, _) | Deed::Check(further, _) => Some(*further),
        Deed::Show => None,
    }
}

// Fails if `--inventories` of one of them does nothing, or is taken for another word.
#[test]
fn reads_inventories(rt: HostRuntime) -> Result<(), Fail> {
    for (line, wanted) in [
        ("audit --inventories R", Further::Inventories),
        (
            "audit --under o R --quiet --inventories",
            Further::Inventories,
        ),
        (
            "run --cursor C --budget 1 --inventories R",
            Further::Inventories,
        ),
        (
            "run --inventories --parts F --part 1 --cursor C --budget 1 R",
            Further::Inventories,
        ),
        (
            "cycle --budget 1 --runs 1 R --inventories",
            Further::Inventories,
        ),
        ("check --inventories R p", Further::Inventories),
        ("audit --quiet R", Further::Nothing),
        ("audit inventories", Further::Nothing),
        ("run --cursor inventories --budget 1 true", Further::Nothing),
        ("check R inventories", Further::Nothing),
    ] {
        let task = read_task(rt.alloc(), line)?;
        assert_eq!(rt; further_of(&task.deed), Some(wanted), "{line}");
    }
    Ok(())
}

#[test]
fn refuses_other_inventories(rt: HostRuntime) {
    let alloc = rt.alloc();
    for line in [
        "show --inventories F",
        "codes --inventories",
        "join --inventories --parts F --state S",
        "--inventories audit R",
        "audit --inventory R",
    ] {
        assert_eq!(rt;
            fault(alloc, line),
            Some(ErrorKind::UnknownArgument),
            "{line}"
        );
    }
    for line in [
        "audit --inventories --inventories R",
        "night --state S --inventories R --inventories",
    ] {
        assert_eq!(rt;
            fault(alloc, line),
            Some(ErrorKind::ArgumentConflict),
            "{line}"
        );
    }
}

#[test]
fn refuses_other_numbers(rt: HostRuntime) {
    let alloc = rt.alloc();
    let kind = Some(ErrorKind::ValueValidation);
    for line in [
        "cycle --budget 1 --runs 0 R",
        "cycle --budget 1 --runs 100001 R",
        "cycle --budget 1 --runs x R",
    ] {
        assert_eq!(rt; fault(alloc, line), kind, "{line}");
    }
}

#[test]
fn refuses_other_lines(rt: HostRuntime) {
    let alloc = rt.alloc();
    for line in [
        "audit",
        "check R",
        "show",
        "cycle --budget 1 --runs 2",
        "run --cursor F R",
    ] {
        assert_eq!(rt;
            fault(alloc, line),
            Some(ErrorKind::MissingRequiredArgument),
            "{line}"
        );
    }
    assert_eq!(rt; fault(alloc, "scrub R"), Some(ErrorKind::InvalidSubcommand));
    assert_eq!(rt; fault(alloc, "audit R S"), Some(ErrorKind::UnknownArgument));
    assert_eq!(rt;
        fault(alloc, "audit --budget 1 R"),
        Some(ErrorKind::UnknownArgument)
    );
}

#[test]
fn needs_a_subcommand(rt: HostRuntime) {
    let alone = ["ocfl-scrub"];
    let kind = words_fault(rt.alloc(), alone.as_slice());
    assert_eq!(rt; kind, Some(ErrorKind::MissingSubcommand));
}

#[test]
fn answers_with_help(rt: HostRuntime) -> Result<(), Fail> {
    let alloc = rt.alloc();
    assert_eq!(rt; fault(alloc, "--help"), Some(ErrorKind::DisplayHelp));
    assert_eq!(rt; fault(alloc, "run --help"), Some(ErrorKind::DisplayHelp));
    assert_eq!(rt; fault(alloc, "--version"), Some(ErrorKind::DisplayVersion));
    assert_eq!(rt;
        usage_text(alloc, "--version")?.as_str(),
        "ocfl-scrub 1.0.0\n"
    );
    expect_in_usage(
        &rt,
        &[
            ("--help", "\nUsage: ocfl-scrub <COMMAND>\n"),
            (
                "--help",
                "\n  show   Writes what a cursor file or a checkpoint says\n",
            ),
            ("--help", "\n  ocfl-scrub run --cursor root.cursor "),
            (
                "--help",
                "\n  3  stopped, worn or the cursor file failed\n  4  cursor refused\n",
            ),
        ],
    )
}

#[test]
fn answers_with_help_on_a_cycle(rt: HostRuntime) -> Result<(), Fail> {
    expect_in_usage(
        &rt,
        &[
            (
                "cycle --help",
                "\nUsage: ocfl-scrub cycle [OPTIONS] --budget <N> --runs <COUNT> <ROOT>\n",
            ),
            (
                "cycle --help",
                "(powers of 1000), in capitals or small letters\n",
            ),
            (
                "cycle --help",
                "N as for the budget [default: 4611686018427387904]\n",
            ),
            ("cycle --help", "The most runs: 1 to 100000\n"),
            (
                "cycle --help",
                "Also checks the inventories of version directories\n",
            ),
        ],
    )
}
