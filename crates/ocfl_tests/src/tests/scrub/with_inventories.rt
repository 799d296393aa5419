//! Audits, checks, cycles and runs that also check the inventories of version directories. Digests
//! are those of `sha512sum`, and that of the other algorithm is of `sha256sum`.
use super::perform::{expect_stored, expect_within};
use super::run_figures::{MOST, limits};
use crate::tests::common::Runtime;
use crate::tests::common::cursors::{ends_of, sealed};
use crate::tests::common::object::bare_root;
use crate::tests::common::store::{change, listed_from, opened_from, place_of, was_not_called};
use ocfl_cursor::{Cursor, State};
use ocfl_deed::Deed;
use ocfl_digest::Block;
use ocfl_memory::MemTree;
use ocfl_report::Further;
use ocfl_scrub::{KeptWalk, Part, RunStatus, Scope, run_on};
use std::alloc::Global;
use std::test::Fail;

const FIRST: &str = r#"{"digestAlgorithm":"sha512","head":"v1","manifest":{}}"#;

const SECOND: &str = r#"{"digestAlgorithm":"sha512","head":"v2","manifest":{}}"#;

const FLIPPED: &str = r#"{"digestAlgorithm":"sha512","head":"w1","manifest":{}}"#;

const CUT: &str = r#"{"digestAlgorithm":"sha512","head":"v2","manifest":{}"#;

/// What texts call these digests.
const SUMS: [(&str, &str); 5] = [
    (
        "FIRST_SUM",
        "7103de30520e10b9601bd805dd5f39009199c3bd277902fe5ac6f09d48409c2f\
         a73cfd2e5c7e7b32eb842f162f87a22fb2135bb520bb554bb6e6c4c098063290",
    ),
    (
        "SECOND_SUM",
        "33e3c1e564c82389f117a966e0459625e05c8de4411c63c5a8ee2400af007242\
         57869250d3b796a7eb38a852c3ca5eae1e09572ae788cfad6b14636d270a8be0",
    ),
    (
        "FLIPPED_SUM",
        "11fc4699b20d6e9a9ed687b12af34c56d4bcd089b28885b7d7feaec8da9f137e\
         091266f45db4a2d8b1fb30b2db2096595ae57d4063c7d082bb21bbacd20ba392",
    ),
    (
        "CUT_SUM",
        "ea95a1ac7a5c1d2288d019f80306e027bfa84e55e77b222e80c09d0d4b48762d\
         90404408aace15d40eccfd8b349820ace6f61f1e7fda5a87000d4e41b4064a70",
    ),
    (
        "SHORT_SUM",
        "8eaee99f43a345cc3c549909e10132d3c81742128cbafd4355247cdad191de20",
    ),
];

/// The text, with the digest in place of each name of one.
fn with_sums(alloc: Global, text: &str) -> Result<String, Fail> {
    let mut whole = String::from_str(alloc, text)?;
    for (name, digest) in SUMS {
        whole = whole.replace(alloc, name, digest)?;
    }
    Ok(whole)
}

/// Makes changes in whose texts digests may be named.
fn change_in(alloc: Global, store: &mut MemTree, changes: &[(&str, &str)]) -> Result<(), Fail> {
    for (path, text) in changes {
        let text = with_sums(alloc, text)?;
        change(alloc, store, &[(path, text.as_str())])?;
    }
    Ok(())
}

/// An object of two versions, all right.
fn two_versions(alloc: Global) -> Result<MemTree, Fail> {
    let mut store = bare_root(alloc)?;
    let entries = [
        ("o/0=ocfl_object_1.1", "ocfl_object_1.1\n"),
        ("o/inventory.json", SECOND),
        ("o/inventory.json.sha512", "SECOND_SUM inventory.json\n"),
        ("o/v1/inventory.json", FIRST),
        ("o/v1/inventory.json.sha512", "FIRST_SUM inventory.json\n"),
        ("o/v2/inventory.json", SECOND),
        ("o/v2/inventory.json.sha512", "SECOND_SUM inventory.json\n"),
    ];
    change_in(alloc, &mut store, &entries)?;
    Ok(store)
}

/// What is there without the inventories of versions, and what is said of the root inventory.
const HEAD: &str = "ok|.|-\nok|o|-\n";

const NOW: &str = "S09|o|sha512 SECOND_SUM v2\n";

const RIGHT_1: &str = "ok|o/v1/inventory.json|54\n";

const RIGHT_2: &str = "ok|o/v2/inventory.json|54\n";

/// What is changed, the lines of the first version and of the second, and what a cycle of one file
/// a run says.
type Rows = (
    &'static str,
    &'static [(&'static str, &'static str)],
    &'static str,
    &'static str,
    &'static str,
);

const ROWS: [Rows; 8] = [
    ("right", &[], RIGHT_1, RIGHT_2, "runs 2, cost 110, ended"),
    (
        "the first flipped",
        &[("o/v1/inventory.json", FLIPPED)],
        "E060|o/v1/inventory.json|sha512 FIRST_SUM FLIPPED_SUM\n",
        RIGHT_2,
        "runs 2, cost 110, ended",
    ),
    (
        "the last flipped",
        &[("o/v2/inventory.json", FLIPPED)],
        RIGHT_1,
        "E060|o/v2/inventory.json|sha512 SECOND_SUM FLIPPED_SUM\n\
         E064|o/v2/inventory.json|sha512 SECOND_SUM FLIPPED_SUM\n",
        "runs 2, cost 110, ended",
    ),
    (
        "the last cut",
        &[("o/v2/inventory.json", CUT)],
        RIGHT_1,
        "E060|o/v2/inventory.json|sha512 SECOND_SUM CUT_SUM\n\
         E064|o/v2/inventory.json|sha512 SECOND_SUM CUT_SUM\n",
        "runs 2, cost 109, ended",
    ),
    (
        "the first without a sidecar",
        &[("-o/v1/inventory.json.sha512", "")],
        "E058|o/v1/inventory.json|-\n",
        RIGHT_2,
        "runs 1, cost 55, ended",
    ),
    (
        "the last without a sidecar",
        &[("-o/v2/inventory.json.sha512", "")],
        RIGHT_1,
        "E058|o/v2/inventory.json|-\n",
        "runs 2, cost 110, ended",
    ),
    (
        "a sidecar by another algorithm",
        &[
            ("-o/v1/inventory.json.sha512", ""),
            ("o/v1/inventory.json.sha256", "SHORT_SUM inventory.json\n"),
        ],
        RIGHT_1,
        RIGHT_2,
        "runs 2, cost 110, ended",
    ),
    (
        "the first is gone",
        &[("-o/v1/inventory.json", "")],
        "",
        RIGHT_2,
        "runs 1, cost 55, ended",
    ),
];

/// Doing the deed over two versions with these changes writes this text, and ends with this status
/// and this note.
fn expect_over(
    rt: &impl Runtime,
    row: &str,
    changes: &[(&str, &str)],
    deed: &Deed,
    wanted: (&str, u8, &str),
) -> Result<(), Fail> {
    let alloc = rt.alloc();
    let mut store = two_versions(alloc)?;
    change_in(alloc, &mut store, changes)?;
    let text = with_sums(alloc, wanted.0)?;
    let wanted = (text.as_str(), wanted.1, wanted.2);
    let stored = expect_within(rt, row, &mut store, deed, None, None, wanted)?;
    assert!(rt; stored.is_none(), "{row}");
    Ok(())
}

/// Whether lines have a finding.
fn status_of(lines: &str) -> u8 {
    u8::from(lines.contains("E0"))
}

#[test]
fn audits_of_versions(rt: HostRuntime) -> Result<(), Fail> {
    let alloc = rt.alloc();
    for (row, changes, first, second, note) in ROWS {
        let text = [HEAD, NOW, first, second].concat(alloc)?;
        let status = status_of(text.as_str());
        let audit = Deed::Audit(Further::Inventories);
        expect_over(&rt, row, changes, &audit, (text.as_str(), status, ""))?;
        let cycle = Deed::Cycle(Further::Inventories, limits(MOST, 1)?, 3);
        expect_over(&rt, row, changes, &cycle, (text.as_str(), status, note))?;
        let audit = Deed::Audit(Further::Nothing);
        expect_over(&rt, row, changes, &audit, (HEAD, 0, ""))?;
        let cycle = Deed::Cycle(Further::Nothing, limits(MOST, 1)?, 3);
        expect_over(
            &rt,
            row,
            changes,
            &cycle,
            (HEAD, 0, "runs 1, cost 0, ended"),
        )?;
    }
    Ok(())
}

#[test]
fn checks_of_versions(rt: HostRuntime) -> Result<(), Fail> {
    let alloc = rt.alloc();
    for (row, changes, first, second, _) in ROWS {
        for (place, lines) in [
            ("o/v1/inventory.json", first),
            ("o/v2/inventory.json", second),
        ] {
            let note = if lines.is_empty() { "no item" } else { "" };
            let wanted = (lines, status_of(lines), note);
            let check = Deed::Check(Further::Inventories, format!(in alloc; "{place}")?);
            expect_over(&rt, row, changes, &check, wanted)?;
            let check = Deed::Check(Further::Nothing, format!(in alloc; "{place}")?);
            expect_over(&rt, row, changes, &check, ("", 0, "no item"))?;
        }
    }
    Ok(())
}

/// A run of one file.
fn run_of(further: Further) -> Result<Deed, Fail> {
    Ok(Deed::Run(further, limits(MOST, 1)?))
}

/// The run refuses these bytes, and calls nothing.
fn expect_refused(
    rt: &impl Runtime,
    row: &str,
    further: Further,
    scope: Option<&Scope>,
    file: &[u8],
    note: &str,
) -> Result<(), Fail> {
    let mut store = two_versions(rt.alloc())?;
    let (deed, wanted) = (run_of(further)?, ("", 4, note));
    let stored = expect_within(rt, row, &mut store, &deed, scope, Some(file), wanted)?;
    assert!(rt; stored.is_none(), "{row}");
    assert!(rt; was_not_called(&store), "{row}");
    Ok(())
}

const WITH: &str = "cursor refused: the cursor is of an audit with --inventories";

const WITHOUT: &str = "cursor refused: the cursor is of an audit without --inventories";

#[test]
fn runs_of_versions(rt: HostRuntime) -> Result<(), Fail> {
    let alloc = rt.alloc();
    let mut store = two_versions(alloc)?;
    let (deed, row) = (run_of(Further::Inventories)?, "the first run");
    let text = with_sums(alloc, [HEAD, NOW, RIGHT_1].concat(alloc)?.as_str())?;
    let wanted = (text.as_str(), 0, "cycle 1, run 1, cost 55, open");
    let stored = expect_within(&rt, row, &mut store, &deed, None, None, wanted)?;
    let body = "ocfl-scrub cursor 3\nchecks inventories\ncycle 1\nruns 1\nspent 55\nfiles 1\n\
                after o/v1/inventory.json\n";
    expect_stored(&rt, row, stored, body)?;
    let file = sealed(alloc, body)?;
    let row = "a run without the option";
    expect_refused(&rt, row, Further::Nothing, None, file.as_slice(), WITH)?;
    let wanted = (RIGHT_2, 0, "cycle 1, run 2, cost 55, ended");
    let file = Some(file.as_slice());
    let stored = expect_within(&rt, "the second run", &mut store, &deed, None, file, wanted)?;
    let body = "ocfl-scrub cursor 3\nchecks inventories\ncycle 1\nruns 2\nspent 110\nfiles 2\n\
                ended\n";
    expect_stored(&rt, "the second run", stored, body)
}

#[test]
fn a_cursor_without_the_option_is_refused(rt: HostRuntime) -> Result<(), Fail> {
    let alloc = rt.alloc();
    let lines = "cycle 1\nruns 1\nspent 0\nfiles 0\nafter o\n";
    let body = format!(in alloc; "ocfl-scrub cursor 2\n{lines}")?;
    let file = sealed(alloc, body.as_str())?;
    let row = "the whole";
    expect_refused(
        &rt,
        row,
        Further::Inventories,
        None,
        file.as_slice(),
        WITHOUT,
    )?;
    let body = format!(in alloc; "ocfl-scrub part cursor 1\nfrom start\nbelow o/v2\n{lines}")?;
    let file = sealed(alloc, body.as_str())?;
    let part = Scope::Part(ends_of(alloc, "-", "o/v2")?);
    let (row, scope) = ("a part", Some(&part));
    expect_refused(
        &rt,
        row,
        Further::Inventories,
        scope,
        file.as_slice(),
        WITHOUT,
    )?;
    // That the cursor is of another part is said before.
    let other = Scope::Part(ends_of(alloc, "o/v2", "-")?);
    let (note, scope) = ("cursor refused: another part", Some(&other));
    for further in [Further::Inventories, Further::Nothing] {
        expect_refused(&rt, "another part", further, scope, file.as_slice(), note)?;
    }
    Ok(())
}

/// A run of one file over the whole, from a cursor with this option after this place. Gives which
/// directories it listed and which inventories it opened, and what it wrote.
fn kept_run(
    alloc: Global,
    store: &mut MemTree,
    kept: &mut KeptWalk,
    further: Further,
    after: &str,
) -> Result<(String, String, Vec<u8>), Fail> {
    let state = State::After(place_of(alloc, after)?);
    let cursor = Cursor::from_parts(1, 1, 0, 0, further, state).ok_or("no cursor")?;
    let (listed, opened) = (store.listings().len(), store.openings().len());
    let (whole, one) = (Part::whole(alloc), limits(MOST, 1)?);
    let (mut block, mut out) = (Block::new(alloc)?, Vec::new(alloc));
    let made = run_on(
        alloc, store, &whole, kept, cursor, one, &mut block, &mut out,
    );
    if matches!(made.end, RunStatus::Stopped(_) | RunStatus::Worn) {
        return Err("the run stopped".into());
    }
    let read = opened_from(alloc, store, opened, "/inventory.json")?;
    Ok((listed_from(alloc, store, listed)?, read, out))
}

#[test]
fn a_walk_of_the_other_option_is_not_used(rt: HostRuntime) -> Result<(), Fail> {
    let alloc = rt.alloc();
    for (further, listings, read, text) in [
        (Further::Inventories, "", "o/v2/inventory.json;", RIGHT_2),
        (Further::Nothing, ";o;o/v1;o/v2;", "o/inventory.json;", ""),
    ] {
        let mut store = two_versions(alloc)?;
        let mut kept = KeptWalk::none();
        let _ = kept_run(alloc, &mut store, &mut kept, Further::Inventories, "o")?;
        let after = "o/v1/inventory.json";
        let (listed, opened, out) = kept_run(alloc, &mut store, &mut kept, further, after)?;
        assert_eq!(rt; listed.as_str(), listings);
        assert_eq!(rt; opened.as_str(), read);
        let wrote = String::from_utf8(out)?;
        assert_eq!(rt; wrote.as_str(), text.replace(alloc, "|", "\t")?.as_str());
    }
    Ok(())
}
