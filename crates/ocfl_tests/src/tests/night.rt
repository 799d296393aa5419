//! Nights over a state folder and a storage root in memory.
ghost use Rattle.std.specs.Prelude.{[], false};

mod left_out;

use crate::tests::common::Runtime;
use crate::tests::common::digests::lines_of;
use crate::tests::common::odd_store::Unmounted;
use crate::tests::common::output::{Losing, Narrow};
use crate::tests::common::roots::three_files;
use crate::tests::common::store::{change, place_of};
use ocfl_cursor::{Budget, PartEnds, Refused};
use ocfl_digest::Block;
use ocfl_memory::{MemTree, Point};
use ocfl_night::{Site, night};
use ocfl_report::Further;
use ocfl_state::{MemState, StateFolder, decode_checkpoint};
use ocfl_terms::{Clock, Flushing, Halt, Made, NightEnd, Plan, Refusal, Stop};
use ocfl_tree::Tree;
use sha2::{Digest, Sha256};
use std::alloc::Global;
use std::io::Write;
use std::test::Fail;

mod lost;
mod older;
mod option;
mod slices;
mod troubled;

/// The audit of the root of three files, whose costs are 4, 1 and 4.
const AUDIT: &str =
    "ok|.|-\nok|o|-\nok|o/v1/content/a|3\nok|o/v1/content/b|0\nok|o/v1/content/c|3\n";

/// What the first run of one file writes of it.
const FIRST: &str = "ok|.|-\nok|o|-\nok|o/v1/content/a|3\n";

/// A clock that stands still, and that asks to stop from some question on.
#[derive(Drop)]
struct Still {
    time: u64,
    questions: u64,
    /// How many runs it heard of, and what they cost.
    heard: u64,
    cost: u64,
}

impl Still {
    fn at(time: u64, questions: u64) -> Still {
        Still {
            time,
            questions,
            heard: 0,
            cost: 0,
        }
    }
}

impl Clock for Still {
    ghost told = { λ _. false };

    ghost events = { λ _. [] };

    fn now(&mut self) -> u64 {
        self.time
    }

    fn is_stopped(&mut self) -> bool {
        let asked = self.questions == 0;
        self.questions = self.questions.saturating_sub(1);
        asked
    }

    fn hears(&mut self, made: &Made) {
        self.heard = self.heard.saturating_add(1);
        self.cost = self.cost.saturating_add(made.spent);
    }
}

/// Runs of one file each, and `files` files a night.
fn plan(files: Option<u64>, end: Option<u64>, create: bool) -> Result<Plan, Fail> {
    Ok(Plan {
        slice_budget: Budget::new(1 << 62).ok_or("no budget")?,
        slice_files: 1,
        end,
        files,
        create,
        force_root: false,
        stop_at_faults: false,
    })
}

/// All of the root at a path.
fn site(alloc: Global) -> Result<Site, Fail> {
    site_to_check(alloc, Further::Nothing)
}

/// The same, with what is checked further.
fn site_to_check(alloc: Global, further: Further) -> Result<Site, Fail> {
    Ok(Site {
        path: place_of(alloc, "srv/ocfl")?,
        ends: None,
        further,
    })
}

/// A night over the root of three files, at time 5.
fn night_of<W: Write>(
    alloc: Global,
    folder: &mut MemState,
    plan: &Plan,
    out: &mut W,
) -> Result<NightEnd, Fail> {
    let mut tree = three_files(alloc)?;
    night_over(alloc, folder, &mut tree, &site(alloc)?, plan, out)
}

fn night_over<T: Tree, W: Write>(
    alloc: Global,
    folder: &mut MemState,
    tree: &mut T,
    site: &Site,
    plan: &Plan,
    out: &mut W,
) -> Result<NightEnd, Fail> {
    let mut block = Block::new(alloc)?;
    let mut clock = Still::at(5, 1 << 32);
    let mut out = Flushing::over(out);
    Ok(night(
        alloc, folder, tree, site, plan, &mut clock, &mut block, &mut out,
    ))
}

/// A state folder, and what the nights over it said.
#[derive(Drop)]
struct Nights {
    folder: MemState,
    said: Vec<u8>,
}

impl Nights {
    fn new(alloc: Global) -> Nights {
        Nights::after(MemState::new(alloc), alloc)
    }

    /// Nights over a folder of which nothing is said yet.
    fn after(folder: MemState, alloc: Global) -> Nights {
        let said = Vec::new(alloc);
        Nights { folder, said }
    }

    /// A night over the root of three files.
    fn make(&mut self, plan: &Plan) -> Result<NightEnd, Fail> {
        let alloc = *self.said.allocator();
        night_of(alloc, &mut self.folder, plan, &mut self.said)
    }

    /// A night over another root at the same path.
    fn make_in<T: Tree>(&mut self, tree: &mut T, plan: &Plan) -> Result<NightEnd, Fail> {
        let alloc = *self.said.allocator();
        let here = site(alloc)?;
        night_over(alloc, &mut self.folder, tree, &here, plan, &mut self.said)
    }

    /// Makes nights of one file each until a report is closed. Gives what they said.
    fn close(&mut self) -> Result<Vec<u8>, Fail> {
        let alloc = *self.said.allocator();
        let rest = close_cycle(alloc, &mut self.folder)?;
        self.said.extend_from_slice(&rest)?;
        Ok(rest)
    }
}

/// The only closed report is the audit, and each of its lines was said once.
fn expect_audit(rt: &impl Runtime, row: &str, nights: &Nights) -> Result<(), Fail> {
    let audit = lines_of(rt.alloc(), AUDIT)?;
    assert_eq!(rt;
        closed_whole(&nights.folder),
        Some(audit.as_bytes()),
        "{row}"
    );
    assert_eq!(rt; nights.said.as_slice(), audit.as_bytes(), "{row}");
    Ok(())
}

/// How a night ended, in a word or two.
fn ending(end: &Halt) -> &'static str {
    match end {
        Halt::CycleEnded(1) => "cycle 1 ended",
        Halt::CycleEnded(_) => "a cycle ended",
        Halt::TimeUp => "time up",
        Halt::Spent => "spent",
        Halt::Asked => "asked",
        Halt::Stopped(_) => "stopped",
        Halt::RootChanged => "root changed",
        Halt::Refused(Refusal::NoCheckpoint) => "no checkpoint",
        Halt::Refused(Refusal::HasReports) => "has reports",
        Halt::Refused(Refusal::Unread(Refused::NotA(_))) => "not a checkpoint",
        Halt::Refused(Refusal::Unread(Refused::Version)) => "version",
        Halt::Refused(Refusal::Unread(Refused::Damaged)) => "damaged",
        Halt::Refused(Refusal::Unread(Refused::Malformed)) => "malformed",
        Halt::Refused(Refusal::Unread(Refused::Memory)) => "memory",
        Halt::Refused(Refusal::NoRoot) => "no root",
        Halt::Refused(Refusal::OtherRoot(_)) => "other root",
        Halt::Refused(Refusal::OtherPart) => "other part",
        Halt::Refused(Refusal::OtherAudit(_)) => "other audit",
        Halt::Refused(Refusal::OtherDeclaration) => "other declaration",
        Halt::Refused(Refusal::NamesGone { .. }) => "names gone",
        Halt::Refused(Refusal::Older(_)) => "older",
        Halt::Troubled(Stop::Output) => "output",
        Halt::Troubled(Stop::Folder(_)) => "folder",
        Halt::Troubled(Stop::Unread(_)) => "unread",
        Halt::Troubled(Stop::TooLong(_)) => "too long",
        Halt::Troubled(_) => "troubled",
    }
}

/// What the only closed report, whole and of cycle 1, has.
fn closed_whole(folder: &MemState) -> Option<&[u8]> {
    match folder.closed() {
        [closed] if closed.cycle == 1 && closed.whole => Some(closed.report.as_slice()),
        _ => None,
    }
}

/// Makes nights of one file each until a report is closed. Gives what they said.
fn close_cycle(alloc: Global, folder: &mut MemState) -> Result<Vec<u8>, Fail> {
    let mut said = Vec::new(alloc);
    for _ in 0..9 {
        if !folder.closed().is_empty() {
            return Ok(said);
        }
        let _ = night_of(alloc, folder, &plan(Some(1), None, true)?, &mut said)?;
    }
    Err("no report is closed".into())
}

// Seen to fail if a night makes no run where no end is given.
#[test]
fn three_nights_close_the_audit(rt: HostRuntime) -> Result<(), Fail> {
    let mut nights = Nights::new(rt.alloc());
    for want in ["spent", "spent", "cycle 1 ended"] {
        let made = nights.make(&plan(Some(1), None, true)?)?;
        assert_eq!(rt; ending(&made.end), want);
        assert_eq!(rt; made.runs, 1);
    }
    assert!(rt; nights.folder.report().is_empty());
    expect_audit(&rt, "three nights", &nights)
}

// Seen to fail if a night makes no run where no end is given.
#[test]
fn one_night_makes_all_runs(rt: HostRuntime) -> Result<(), Fail> {
    let mut nights = Nights::new(rt.alloc());
    let made = nights.make(&plan(None, None, true)?)?;
    assert_eq!(rt; ending(&made.end), "cycle 1 ended");
    assert_eq!(rt; made.runs, 3);
    expect_audit(&rt, "one night", &nights)?;
    let next = nights.make(&plan(None, None, false)?)?;
    assert_eq!(rt; ending(&next.end), "a cycle ended");
    assert_eq!(rt; nights.folder.closed().len(), 2);
    assert_eq!(rt; nights.folder.closed()[1].cycle, 2);
    Ok(())
}

// Seen to fail if a night begins without being asked to, and if one begins beside closed reports.
#[test]
fn a_folder_is_begun_in_only_if_asked(rt: HostRuntime) -> Result<(), Fail> {
    let mut nights = Nights::new(rt.alloc());
    let made = nights.make(&plan(None, None, false)?)?;
    assert_eq!(rt; ending(&made.end), "no checkpoint");
    assert!(rt; nights.folder.checkpoint_bytes().is_none());
    assert!(rt; nights.folder.report().is_empty());
    nights.folder.append(b"x")?;
    let made = nights.make(&plan(None, None, true)?)?;
    assert_eq!(rt; ending(&made.end), "has reports");
    assert!(rt; nights.folder.checkpoint_bytes().is_none());
    assert!(rt; nights.folder.report() == b"x".as_slice());
    nights.folder.close(1, true)?;
    let made = nights.make(&plan(None, None, true)?)?;
    assert_eq!(rt; ending(&made.end), "has reports");
    assert!(rt; nights.said.is_empty());
    Ok(())
}

#[test]
fn no_run_begins_at_the_end(rt: HostRuntime) -> Result<(), Fail> {
    for (end, want, runs) in [
        (4, "time up", 0),
        (5, "time up", 0),
        (6, "cycle 1 ended", 3),
    ] {
        let made = Nights::new(rt.alloc()).make(&plan(None, Some(end), true)?)?;
        assert_eq!(rt; (ending(&made.end), made.runs), (want, runs), "{end}");
    }
    Ok(())
}

#[test]
fn what_the_output_refused_is_said_by_the_next_night(rt: HostRuntime) -> Result<(), Fail> {
    let first = lines_of(rt.alloc(), FIRST)?;
    for room in 0..first.len() {
        let mut folder = MemState::new(rt.alloc());
        let mut narrow = Narrow::new(rt.alloc(), room);
        let one = plan(Some(1), None, true)?;
        let made = night_of(rt.alloc(), &mut folder, &one, &mut narrow)?;
        assert_eq!(rt; ending(&made.end), "output", "{room}");
        assert_eq!(rt; folder.report(), first.as_bytes(), "{room}");
        let mut nights = Nights::after(folder, rt.alloc());
        let next = nights.make(&plan(Some(0), None, false)?)?;
        assert_eq!(rt; (ending(&next.end), next.runs), ("spent", 0), "{room}");
        assert_eq!(rt; nights.said.as_slice(), first.as_bytes(), "{room}");
    }
    Ok(())
}

// Seen to fail if a night does not flush its output.
#[test]
fn what_a_flush_lost_is_said_by_the_next_night(rt: HostRuntime) -> Result<(), Fail> {
    let first = lines_of(rt.alloc(), FIRST)?;
    let mut folder = MemState::new(rt.alloc());
    let mut losing = Losing::new(rt.alloc());
    let made = night_of(
        rt.alloc(),
        &mut folder,
        &plan(Some(1), None, true)?,
        &mut losing,
    )?;
    assert_eq!(rt; ending(&made.end), "output");
    let none = plan(Some(0), None, false)?;
    let next = night_of(rt.alloc(), &mut folder, &none, &mut losing)?;
    assert_eq!(rt; (ending(&next.end), next.runs), ("spent", 0));
    assert_eq!(rt; losing.out.as_slice(), first.as_bytes());
    let last = night_of(rt.alloc(), &mut folder, &none, &mut losing)?;
    assert_eq!(rt; ending(&last.end), "spent");
    assert_eq!(rt; losing.out.as_slice(), first.as_bytes());
    Ok(())
}

#[test]
fn a_run_that_stops_is_kept(rt: HostRuntime) -> Result<(), Fail> {
    let audit = lines_of(rt.alloc(), AUDIT)?;
    let mut nights = Nights::new(rt.alloc());
    let mut tree = three_files(rt.alloc())?;
    tree.fail_at(&place_of(rt.alloc(), "o/v1")?, Point::List)?;
    let mut strict = plan(None, None, true)?;
    strict.stop_at_faults = true;
    let made = nights.make_in(&mut tree, &strict)?;
    assert_eq!(rt; ending(&made.end), "stopped");
    let kept = nights.folder.report();
    assert!(rt; audit.as_bytes().starts_with(kept) && !kept.is_empty());
    assert_eq!(rt; nights.said.as_slice(), kept);
    let _ = nights.close()?;
    expect_audit(&rt, "the rest", &nights)
}

/// Each folder that a crash after these changes may leave closes the audit, and all of it is
/// said: what was said by then, and what the nights say after the crash.
fn expect_audit_after(
    rt: &impl Runtime,
    folder: &MemState,
    changes: usize,
    heard: usize,
    audit: &[u8],
) -> Result<(), Fail> {
    for left in [0, 1, 9, 40, usize::MAX] {
        for zeroed in [false, true] {
            let Some(mut crashed) = folder.crashed(changes, left, zeroed)? else {
                return Err("no such moment".into());
            };
            let said = close_cycle(rt.alloc(), &mut crashed)?;
            assert_eq!(rt;
                closed_whole(&crashed),
                Some(audit),
                "{changes} {left} {zeroed}"
            );
            assert!(rt; audit.ends_with(&said), "{changes} {left} {zeroed}");
            assert!(rt;
                heard + said.len() >= audit.len(),
                "{changes} {left} {zeroed}"
            );
        }
    }
    Ok(())
}

#[test]
fn no_crash_loses_or_repeats_a_line(rt: HostRuntime) -> Result<(), Fail> {
    let audit = lines_of(rt.alloc(), AUDIT)?;
    let mut nights = Nights::new(rt.alloc());
    let mut changes = 0;
    for _ in 0..3 {
        let _ = nights.make(&plan(Some(1), None, true)?)?;
        while changes <= nights.folder.changes() {
            let heard = nights.said.len();
            expect_audit_after(&rt, &nights.folder, changes, heard, audit.as_bytes())?;
            changes += 1;
        }
    }
    assert!(rt; changes > 20);
    expect_audit(&rt, "no crash", &nights)
}

#[test]
fn no_failing_call_loses_or_repeats_a_line(rt: HostRuntime) -> Result<(), Fail> {
    let audit = lines_of(rt.alloc(), AUDIT)?;
    for failing in 1..40 {
        let mut nights = Nights::new(rt.alloc());
        nights.folder.fail_call(failing);
        let made = nights.make(&plan(None, None, true)?)?;
        if failing > 30 {
            assert_eq!(rt; ending(&made.end), "cycle 1 ended", "{failing}");
        }
        let (folder, heard) = (&nights.folder, nights.said.len());
        expect_audit_after(&rt, folder, folder.changes(), heard, audit.as_bytes())?;
        let rest = nights.close()?;
        let closed = closed_whole(&nights.folder);
        assert_eq!(rt; closed, Some(audit.as_bytes()), "{failing}");
        assert!(rt; audit.as_bytes().ends_with(&rest), "{failing}");
        assert!(rt; nights.said.len() >= audit.len(), "{failing}");
    }
    Ok(())
}

/// A folder in which one night was made over the root of three files.
fn after_one_night(alloc: Global) -> Result<MemState, Fail> {
    let mut nights = Nights::new(alloc);
    let _ = nights.make(&plan(Some(1), None, true)?)?;
    Ok(nights.folder)
}

/// The plan that forces a root.
fn forced() -> Result<Plan, Fail> {
    let mut plan = plan(Some(1), None, false)?;
    plan.force_root = true;
    Ok(plan)
}

/// A night that ends so, and leaves the folder as it was.
fn expect_refused(
    rt: &impl Runtime,
    row: &str,
    night: (&Site, &[(&str, &str)], &Plan),
    want: &str,
) -> Result<(), Fail> {
    let (site, changes, plan) = night;
    let alloc = rt.alloc();
    let mut folder = after_one_night(alloc)?;
    let before = after_one_night(alloc)?;
    let mut said = Vec::new(alloc);
    let mut tree = three_files(alloc)?;
    change(alloc, &mut tree, changes)?;
    let made = night_over(alloc, &mut folder, &mut tree, site, plan, &mut said)?;
    assert_eq!(rt; ending(&made.end), want, "{row}");
    assert_eq!(rt; (made.runs, said.len()), (0, 0), "{row}");
    assert_eq!(rt;
        folder.checkpoint_bytes(),
        before.checkpoint_bytes(),
        "{row}"
    );
    assert_eq!(rt; folder.report(), before.report(), "{row}");
    Ok(())
}

#[test]
fn another_root_part_or_audit_is_refused(rt: HostRuntime) -> Result<(), Fail> {
    let alloc = rt.alloc();
    let more = plan(Some(1), None, true)?;
    for (path, from, further, want) in [
        ("srv/ocfl2", None, Further::Nothing, "other root"),
        ("srv", None, Further::Nothing, "other root"),
        (".", None, Further::Nothing, "other root"),
        ("srv/ocfl", Some("o"), Further::Nothing, "other part"),
        ("srv/ocfl2", Some("o"), Further::Nothing, "other root"),
        ("srv/ocfl", None, Further::Inventories, "other audit"),
        ("srv/ocfl", Some("o"), Further::Inventories, "other part"),
        ("srv/ocfl2", None, Further::Inventories, "other root"),
    ] {
        let ends = match from {
            Some(path) => Some(PartEnds {
                from: Some(place_of(alloc, path)?),
                below: None,
            }),
            None => None,
        };
        let other = Site {
            path: place_of(alloc, path)?,
            ends,
            further,
        };
        expect_refused(&rt, path, (&other, &[], &more), want)?;
        expect_refused(&rt, path, (&other, &[], &forced()?), want)?;
    }
    Ok(())
}

#[test]
fn a_root_that_is_not_as_it_was_is_refused(rt: HostRuntime) -> Result<(), Fail> {
    let alloc = rt.alloc();
    let here = site(alloc)?;
    let more = plan(Some(1), None, true)?;
    for (row, changes, want) in [
        ("gone", ("-0=ocfl_1.1", ""), "no root"),
        (
            "other bytes",
            ("0=ocfl_1.1", "ocfl_1.1"),
            "other declaration",
        ),
        (
            "one more",
            ("0=ocfl_1.0", "ocfl_1.0\n"),
            "other declaration",
        ),
    ] {
        expect_refused(&rt, row, (&here, &[changes], &more), want)?;
    }
    expect_refused(
        &rt,
        "forced",
        (&here, &[("-0=ocfl_1.1", "")], &forced()?),
        "no root",
    )
}

#[test]
fn a_root_that_lost_its_names_is_refused(rt: HostRuntime) -> Result<(), Fail> {
    let alloc = rt.alloc();
    for (more, want) in [
        (&[("p/", ""), ("q/", "")][..], "spent"),
        (&[("p/", ""), ("q/", ""), ("r/", "")][..], "names gone"),
    ] {
        let mut nights = Nights::new(alloc);
        let mut full = three_files(alloc)?;
        change(alloc, &mut full, more)?;
        let _ = nights.make_in(&mut full, &plan(Some(1), None, true)?)?;
        let next = plan(Some(1), None, false)?;
        assert_eq!(rt; ending(&nights.make(&next)?.end), want);
        assert!(rt; nights.make(&forced()?)?.runs == 1);
        assert!(rt; ending(&nights.make(&next)?.end) != "names gone");
    }
    Ok(())
}

#[test]
fn a_forced_root_is_taken_for_the_one_of_before(rt: HostRuntime) -> Result<(), Fail> {
    let alloc = rt.alloc();
    let mut nights = Nights::after(after_one_night(alloc)?, alloc);
    let mut other = three_files(alloc)?;
    change(alloc, &mut other, &[("0=ocfl_1.0", "ocfl_1.0\n")])?;
    let next = plan(Some(1), None, false)?;
    assert_eq!(rt; nights.make_in(&mut other, &forced()?)?.runs, 1);
    assert_eq!(rt; nights.make_in(&mut other, &next)?.runs, 1);
    assert_eq!(rt; ending(&nights.make(&next)?.end), "other declaration");
    Ok(())
}

#[test]
fn bytes_that_are_no_checkpoint_are_refused(rt: HostRuntime) -> Result<(), Fail> {
    let alloc = rt.alloc();
    let right = after_one_night(alloc)?;
    let text = right.checkpoint_bytes().ok_or("no checkpoint")?;
    for (row, place, byte, want) in [
        ("front", 0, b'x', "not a checkpoint"),
        ("version", 22, b'3', "version"),
        ("a byte", 30, b'x', "damaged"),
    ] {
        let mut bytes = text.to_vec(alloc)?;
        bytes[place] = byte;
        let mut folder = after_one_night(alloc)?;
        folder.put_checkpoint(&bytes)?;
        let mut nights = Nights::after(folder, alloc);
        let made = nights.make(&plan(Some(1), None, true)?)?;
        assert_eq!(rt; ending(&made.end), want, "{row}");
        let kept = nights.folder.checkpoint_bytes();
        assert_eq!(rt; kept, Some(bytes.as_slice()), "{row}");
        assert_eq!(rt; nights.folder.report(), right.report(), "{row}");
    }
    Ok(())
}

#[test]
fn nothing_is_kept_of_a_run_over_an_unmounted_root(rt: HostRuntime) -> Result<(), Fail> {
    let alloc = rt.alloc();
    let audit = lines_of(alloc, AUDIT)?;
    let mut changed = 0;
    for left in 1..40 {
        let mut nights = Nights::new(alloc);
        let mut tree = Unmounted {
            tree: three_files(alloc)?,
            empty: MemTree::new(alloc),
            left,
        };
        let made = nights.make_in(&mut tree, &plan(None, None, true)?)?;
        let row = format!(in alloc; "{left}")?;
        if ending(&made.end) == "root changed" {
            changed += 1;
            let kept = nights.folder.report();
            assert!(rt; audit.as_bytes().starts_with(kept), "{row}");
            assert_eq!(rt; nights.said.as_slice(), kept, "{row}");
        }
        let _ = nights.close()?;
        expect_audit(&rt, row.as_str(), &nights)?;
    }
    assert!(rt; changed > 3);
    Ok(())
}

// Seen to fail if a night does not ask whether it is to stop.
#[test]
fn a_night_that_is_asked_to_stop_begins_no_run(rt: HostRuntime) -> Result<(), Fail> {
    let alloc = rt.alloc();
    for (questions, want, runs, cost) in [
        (0, "asked", 0, 0),
        (2, "asked", 2, 5),
        (3, "cycle 1 ended", 3, 9),
    ] {
        let mut folder = MemState::new(alloc);
        let mut said = Vec::new(alloc);
        let mut tree = three_files(alloc)?;
        let mut block = Block::new(alloc)?;
        let mut clock = Still::at(5, questions);
        let made = night(
            alloc,
            &mut folder,
            &mut tree,
            &site(alloc)?,
            &plan(None, None, true)?,
            &mut clock,
            &mut block,
            &mut Flushing::over(&mut said),
        );
        assert_eq!(rt; (ending(&made.end), made.runs), (want, runs), "{questions}");
        assert_eq!(rt; (clock.heard, clock.cost), (runs, cost), "{questions}");
        assert_eq!(rt;
            said.len(),
            folder.report().len() + closed_bytes(&folder),
            "{questions}"
        );
    }
    Ok(())
}

/// How many bytes the closed reports have.
fn closed_bytes(folder: &MemState) -> usize {
    let mut count = 0;
    for closed in folder.closed() {
        count += closed.report.len();
    }
    count
}

#[test]
fn a_checkpoint_has_what_its_report_has(rt: HostRuntime) -> Result<(), Fail> {
    let alloc = rt.alloc();
    let folder = after_one_night(alloc)?;
    let text = folder.checkpoint_bytes().ok_or("no checkpoint")?;
    let checkpoint = decode_checkpoint(alloc, text)?;
    let report = &checkpoint.report;
    assert_eq!(rt;
        (report.bytes, report.lines),
        (folder.report().len() as u64, 3)
    );
    assert_eq!(rt; checkpoint.said, report.bytes);
    assert_eq!(rt; report.pieces, [0; 32]);
    assert_eq!(rt; report.tail, Sha256::digest(folder.report()));
    assert_eq!(rt; (checkpoint.names.count, checkpoint.left.len()), (2, 0));
    assert!(rt; checkpoint.part.is_none() && checkpoint.whole);
    Ok(())
}
