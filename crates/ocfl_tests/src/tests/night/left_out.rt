//! Nights over places that cannot be read.

use super::{Nights, ending, night_over, plan, site};
use crate::tests::common::Runtime;
use crate::tests::common::digests::lines_of;
use crate::tests::common::odd_store::Faltering;
use crate::tests::common::roots::right_objects;
use crate::tests::common::store::{place_of, put_dir};
use ocfl_memory::{MemTree, Point};
use ocfl_night::leave_out;
use ocfl_state::{Checkpoint, MemState, StateFolder, decode_checkpoint};
use ocfl_terms::{NightEnd, Plan};
use ocfl_tree::Place;
use std::alloc::Global;
use std::test::Fail;

/// The audit of the root with the right objects `o`, `p` and `q`.
const AUDIT: &str = "ok|.|-\nok|o|-\nok|o/v1/content/f|3\nok|p|-\nok|p/v1/content/f|3\n\
                     ok|q|-\nok|q/v1/content/f|3\n";

/// The same without `o`, and without `p`.
const NO_O: &str = "ok|.|-\nok|p|-\nok|p/v1/content/f|3\nok|q|-\nok|q/v1/content/f|3\n";

const NO_P: &str = "ok|.|-\nok|o|-\nok|o/v1/content/f|3\nok|q|-\nok|q/v1/content/f|3\n";

/// The same without the file of each object.
const NO_FILE: [&str; 3] = [
    "ok|.|-\nok|o|-\nok|p|-\nok|p/v1/content/f|3\nok|q|-\nok|q/v1/content/f|3\n",
    "ok|.|-\nok|o|-\nok|o/v1/content/f|3\nok|p|-\nok|q|-\nok|q/v1/content/f|3\n",
    "ok|.|-\nok|o|-\nok|o/v1/content/f|3\nok|p|-\nok|p/v1/content/f|3\nok|q|-\n",
];

/// A root with three right objects, in which calls of this kind fail at these places.
fn failing(alloc: Global, places: &[(&str, Point)]) -> Result<MemTree, Fail> {
    let mut tree = right_objects(alloc, &["o", "p", "q"])?;
    for (path, point) in places {
        tree.fail_at(&place_of(alloc, path)?, *point)?;
    }
    Ok(tree)
}

/// A night over a root.
fn night_in(
    alloc: Global,
    folder: &mut MemState,
    tree: &mut MemTree,
    plan: &Plan,
) -> Result<NightEnd, Fail> {
    let mut said = Vec::new(alloc);
    night_over(alloc, folder, tree, &site(alloc)?, plan, &mut said)
}

/// A folder after a night that makes all runs, and its root, of which `o` cannot be listed.
fn without_o(alloc: Global) -> Result<(MemState, MemTree), Fail> {
    let mut folder = MemState::new(alloc);
    let mut tree = failing(alloc, &[("o", Point::List)])?;
    let _ = night_in(alloc, &mut folder, &mut tree, &plan(None, None, true)?)?;
    Ok((folder, tree))
}

/// The paths of places, each with a line feed.
fn paths_of(alloc: Global, places: &[Place]) -> Result<String, Fail> {
    let mut paths = String::new(alloc);
    for place in places {
        paths.push_str(place.path())?;
        paths.push_str("\n")?;
    }
    Ok(paths)
}

/// The checkpoint of a folder.
fn checkpoint_of(alloc: Global, folder: &MemState) -> Result<Checkpoint, Fail> {
    let text = folder.checkpoint_bytes().ok_or("no checkpoint")?;
    Ok(decode_checkpoint(alloc, text)?)
}

/// The only closed report has these lines, and it is whole or not.
fn expect_closed(
    rt: &impl Runtime,
    row: &str,
    folder: &MemState,
    (report, whole): (&str, bool),
) -> Result<(), Fail> {
    let lines = lines_of(rt.alloc(), report)?;
    match folder.closed() {
        [closed] => {
            assert_eq!(rt; closed.report.as_slice(), lines.as_bytes(), "{row}");
            assert_eq!(rt; closed.whole, whole, "{row}");
            Ok(())
        }
        _ => Err("not one closed report".into()),
    }
}

/// The night ended cycle 1, whose report has these lines, and left out these branches.
fn expect_ended(
    rt: &impl Runtime,
    row: &str,
    folder: &MemState,
    made: &NightEnd,
    (branches, report): (&str, &str),
) -> Result<(), Fail> {
    assert_eq!(rt; ending(&made.end), "cycle 1 ended", "{row}");
    let left = paths_of(rt.alloc(), &made.left)?;
    assert_eq!(rt; left.as_str(), branches, "{row}");
    expect_closed(rt, row, folder, (report, false))
}

/// The only branch that a checkpoint leaves out, and the place after which it does.
fn expect_one_left(
    rt: &impl Runtime,
    checkpoint: &Checkpoint,
    paths: (&str, &str),
) -> Result<(), Fail> {
    match checkpoint.left.as_slice() {
        [left] => {
            let after = left.after.as_ref().ok_or("at the start")?;
            assert_eq!(rt; (left.place.path(), after.path()), paths);
            Ok(())
        }
        _ => Err("not one branch".into()),
    }
}

#[test]
fn a_listing_that_fails_costs_its_branch(rt: HostRuntime) -> Result<(), Fail> {
    let alloc = rt.alloc();
    let mut folder = MemState::new(alloc);
    let mut tree = failing(alloc, &[("o", Point::List)])?;
    let made = night_in(alloc, &mut folder, &mut tree, &plan(Some(1), None, true)?)?;
    assert_eq!(rt; (ending(&made.end), made.runs), ("spent", 3));
    assert_eq!(rt; paths_of(alloc, &made.left)?.as_str(), "o\n");
    let front = lines_of(alloc, "ok|.|-\nok|p|-\nok|p/v1/content/f|3\nok|q|-\n")?;
    assert_eq!(rt; folder.report(), front.as_bytes());
    let checkpoint = checkpoint_of(alloc, &folder)?;
    assert!(rt; checkpoint.whole);
    expect_one_left(&rt, &checkpoint, ("o", ""))?;
    let mut right = failing(alloc, &[])?;
    let made = night_in(alloc, &mut folder, &mut right, &plan(None, None, false)?)?;
    expect_ended(&rt, "the end", &folder, &made, ("", NO_O))?;
    assert_eq!(rt; checkpoint_of(alloc, &folder)?.left.len(), 0);
    Ok(())
}

// Seen to fail if no cycle is closed as whole.
#[test]
fn the_next_cycle_tries_each_branch_again(rt: HostRuntime) -> Result<(), Fail> {
    let alloc = rt.alloc();
    let (mut folder, _) = without_o(alloc)?;
    let mut right = failing(alloc, &[])?;
    let made = night_in(alloc, &mut folder, &mut right, &plan(None, None, false)?)?;
    assert_eq!(rt; (ending(&made.end), made.left.len()), ("a cycle ended", 0));
    let audit = lines_of(alloc, AUDIT)?;
    assert_eq!(rt; folder.closed().len(), 2);
    assert!(rt; folder.closed()[1].whole);
    assert_eq!(rt; folder.closed()[1].report.as_slice(), audit.as_bytes());
    Ok(())
}

#[test]
fn each_fault_costs_the_branch_of_its_place(rt: HostRuntime) -> Result<(), Fail> {
    let alloc = rt.alloc();
    for (path, point, left, report) in [
        ("o", Point::List, "o\n", NO_O),
        ("o/0=ocfl_object_1.1", Point::Open, "o\n", NO_O),
        ("o/inventory.json", Point::Open, "o\n", NO_O),
        ("o/inventory.json", Point::Read(1), "o\n", NO_O),
        ("o/inventory.json.sha256", Point::Open, "o\n", NO_O),
        ("p/inventory.json", Point::Open, "p\n", NO_P),
        ("o/v1", Point::List, "o/v1\n", NO_FILE[0]),
        ("o/v1/content", Point::List, "o/v1/content\n", NO_FILE[0]),
        ("q/v1/content", Point::List, "q/v1/content\n", NO_FILE[2]),
    ] {
        let mut folder = MemState::new(alloc);
        let mut tree = failing(alloc, &[(path, point)])?;
        let made = night_in(alloc, &mut folder, &mut tree, &plan(None, None, true)?)?;
        expect_ended(&rt, path, &folder, &made, (left, report))?;
    }
    Ok(())
}

#[test]
fn two_branches_are_left_out_one_after_the_other(rt: HostRuntime) -> Result<(), Fail> {
    let alloc = rt.alloc();
    let mut folder = MemState::new(alloc);
    let places = [("o/v1", Point::List), ("p/inventory.json", Point::Open)];
    let rest = "ok|.|-\nok|o|-\nok|q|-\nok|q/v1/content/f|3\n";
    let mut tree = failing(alloc, &places)?;
    let made = night_in(alloc, &mut folder, &mut tree, &plan(None, None, true)?)?;
    expect_ended(&rt, "two branches", &folder, &made, ("o/v1\np\n", rest))
}

#[test]
fn a_night_stops_at_faults_if_it_is_to(rt: HostRuntime) -> Result<(), Fail> {
    let alloc = rt.alloc();
    let mut folder = MemState::new(alloc);
    let mut tree = failing(alloc, &[("o", Point::List)])?;
    let mut strict = plan(None, None, true)?;
    strict.stop_at_faults = true;
    for _night in 0..3 {
        let made = night_in(alloc, &mut folder, &mut tree, &strict)?;
        assert_eq!(rt; (ending(&made.end), made.runs), ("stopped", 1));
        assert_eq!(rt; made.left.len(), 0);
        assert_eq!(rt; checkpoint_of(alloc, &folder)?.left.len(), 0);
    }
    Ok(())
}

#[test]
fn a_call_that_fails_once_costs_nothing(rt: HostRuntime) -> Result<(), Fail> {
    let alloc = rt.alloc();
    let mut passed = 0;
    for call in 1..60 {
        let mut folder = MemState::new(alloc);
        let mut tree = failing(alloc, &[])?;
        tree.fail_call(call);
        let made = night_in(alloc, &mut folder, &mut tree, &plan(None, None, true)?)?;
        assert_eq!(rt; made.left.len(), 0, "{call}");
        if made.runs > 3 {
            let row = format!(in alloc; "{call}")?;
            expect_closed(&rt, row.as_str(), &folder, (AUDIT, true))?;
            passed += 1;
        }
    }
    assert!(rt; passed > 3);
    Ok(())
}

#[test]
fn a_night_leaves_out_sixteen_branches(rt: HostRuntime) -> Result<(), Fail> {
    let alloc = rt.alloc();
    let mut folder = MemState::new(alloc);
    let mut tree = right_objects(alloc, &["z"])?;
    for number in 10..27 {
        let name = format!(in alloc; "d{number}")?;
        put_dir(alloc, &mut tree, name.as_str())?;
        tree.fail_at(&place_of(alloc, name.as_str())?, Point::List)?;
    }
    let made = night_in(alloc, &mut folder, &mut tree, &plan(None, None, true)?)?;
    assert_eq!(rt; (ending(&made.end), made.left.len()), ("stopped", 16));
    assert_eq!(rt; checkpoint_of(alloc, &folder)?.left.len(), 16);
    let made = night_in(alloc, &mut folder, &mut tree, &plan(None, None, false)?)?;
    let rest = "ok|.|-\nok|z|-\nok|z/v1/content/f|3\n";
    expect_ended(&rt, "17 branches", &folder, &made, ("d26\n", rest))
}

#[test]
fn a_branch_whose_name_cannot_be_longer_stops_the_night(rt: HostRuntime) -> Result<(), Fail> {
    let alloc = rt.alloc();
    for (length, want) in [(254, "cycle 1 ended"), (255, "stopped")] {
        let mut folder = MemState::new(alloc);
        let mut tree = right_objects(alloc, &["z"])?;
        let name = "d".repeat(alloc, length)?;
        put_dir(alloc, &mut tree, name.as_str())?;
        tree.fail_at(&place_of(alloc, name.as_str())?, Point::List)?;
        let made = night_in(alloc, &mut folder, &mut tree, &plan(None, None, true)?)?;
        assert_eq!(rt; ending(&made.end), want, "{length}");
    }
    Ok(())
}

// Each look at the root can read the declaration, and no run can. Seen to fail if that file is left
// out alone.
#[test]
fn a_root_whose_declaration_fails_is_not_left_out_in_part(rt: HostRuntime) -> Result<(), Fail> {
    let alloc = rt.alloc();
    let mut tree = Faltering {
        tree: failing(alloc, &[])?,
        file: place_of(alloc, "0=ocfl_1.1")?,
        fails: false,
    };
    let mut nights = Nights::new(alloc);
    let made = nights.make_in(&mut tree, &plan(None, None, true)?)?;
    assert_eq!(rt; (ending(&made.end), made.runs), ("stopped", 2));
    assert_eq!(rt; made.left.len(), 0);
    let made = nights.make_in(&mut tree.tree, &plan(None, None, false)?)?;
    assert_eq!(rt; ending(&made.end), "cycle 1 ended");
    expect_closed(&rt, "the declaration", &nights.folder, (AUDIT, true))
}

#[test]
fn a_crash_neither_loses_nor_repeats_a_line_around_a_branch(rt: HostRuntime) -> Result<(), Fail> {
    let alloc = rt.alloc();
    let (folder, mut tree) = without_o(alloc)?;
    let more = plan(None, None, true)?;
    for changes in 0..=folder.changes() {
        for left in [0, 1, 9, usize::MAX] {
            let Some(mut crashed) = folder.crashed(changes, left, false)? else {
                return Err("no such moment".into());
            };
            for _night in 0..3 {
                if crashed.closed().is_empty() {
                    let _ = night_in(alloc, &mut crashed, &mut tree, &more)?;
                }
            }
            let row = format!(in alloc; "{changes} {left}")?;
            expect_closed(&rt, row.as_str(), &crashed, (NO_O, false))?;
        }
    }
    Ok(())
}

#[test]
fn a_branch_is_left_out_where_the_cursor_stands(rt: HostRuntime) -> Result<(), Fail> {
    let alloc = rt.alloc();
    let mut folder = MemState::new(alloc);
    let mut tree = failing(alloc, &[])?;
    let _ = night_in(alloc, &mut folder, &mut tree, &plan(Some(1), None, true)?)?;
    let before = checkpoint_of(alloc, &folder)?;
    let Ok(next) = leave_out(alloc, &mut folder, before, place_of(alloc, "p")?) else {
        return Err(Fail::from("it is not left out"));
    };
    let stored = checkpoint_of(alloc, &folder)?;
    for checkpoint in [&next, &stored] {
        expect_one_left(&rt, checkpoint, ("p", "p"))?;
    }
    let made = night_in(alloc, &mut folder, &mut tree, &plan(None, None, false)?)?;
    assert_eq!(rt; ending(&made.end), "cycle 1 ended");
    expect_closed(&rt, "the end", &folder, (NO_FILE[1], false))
}
