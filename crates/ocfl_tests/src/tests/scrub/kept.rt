//! Runs that go on with the walk of the run before.
use super::run_figures::{MOST, limits};
use crate::tests::common::Runtime;
use crate::tests::common::roots::right_objects;
use crate::tests::common::store::{listed_from, opened_from};
use ocfl_cursor::Cursor;
use ocfl_digest::Block;
use ocfl_memory::MemTree;
use ocfl_report::Further;
use ocfl_scrub::{KeptWalk, Part, RunEnd, RunStatus, run_on};
use std::alloc::Global;
use std::test::Fail;

/// Runs of one cycle, and what they wrote together.
#[derive(Drop)]
struct Runs {
    kept: KeptWalk,
    cursor: Cursor,
    text: Vec<u8>,
}

impl Runs {
    fn none(alloc: Global) -> Runs {
        Runs {
            kept: KeptWalk::none(),
            cursor: Cursor::new(Further::Nothing),
            text: Vec::new(alloc),
        }
    }

    /// Makes a run of one file over the whole root, from the cursor of the one before. Gives how it
    /// ended.
    fn next(&mut self, alloc: Global, store: &mut MemTree) -> Result<&'static str, Fail> {
        let (whole, one) = (Part::whole(alloc), limits(MOST, 1)?);
        let mut block = Block::new(alloc)?;
        let cursor = std::mem::replace(&mut self.cursor, Cursor::new(Further::Nothing));
        let (kept, out) = (&mut self.kept, &mut self.text);
        let made = run_on(alloc, store, &whole, kept, cursor, one, &mut block, out);
        let RunEnd { cursor, end, .. } = made;
        self.cursor = cursor;
        Ok(match end {
            RunStatus::Ended => "ended",
            RunStatus::Spent => "open",
            RunStatus::Stopped(_) => "stopped",
            RunStatus::Worn => "worn",
        })
    }
}

/// The report of the root with the right objects `p`, `q` and `r`.
const REPORT: &str = "ok\t.\t-\nok\tp\t-\nok\tp/v1/content/f\t3\nok\tq\t-\n\
                      ok\tq/v1/content/f\t3\nok\tr\t-\nok\tr/v1/content/f\t3\n";

/// Of each run of one file: how it ends, which directories it lists, and which inventories and
/// content files it opens.
const STEPS: [(&str, &str, &str, &str); 3] = [
    (
        "open",
        ";p;p/v1;p/v1/content;q;q/v1;q/v1/content;",
        "p/inventory.json;q/inventory.json;",
        "p/v1/content/f;",
    ),
    (
        "open",
        "r;r/v1;r/v1/content;",
        "r/inventory.json;",
        "q/v1/content/f;",
    ),
    ("ended", "", "", "r/v1/content/f;"),
];

#[test]
fn a_run_goes_on_with_the_walk_that_is_kept(rt: HostRuntime) -> Result<(), Fail> {
    let alloc = rt.alloc();
    let mut store = right_objects(alloc, &["p", "q", "r"])?;
    let mut runs = Runs::none(alloc);
    for (end, listings, inventories, files) in STEPS {
        let (listed, opened) = (store.listings().len(), store.openings().len());
        assert_eq!(rt; runs.next(alloc, &mut store)?, end);
        assert_eq!(rt; listed_from(alloc, &store, listed)?.as_str(), listings);
        let read = opened_from(alloc, &store, opened, "/inventory.json")?;
        assert_eq!(rt; read.as_str(), inventories);
        let hashed = opened_from(alloc, &store, opened, "/content/f")?;
        assert_eq!(rt; hashed.as_str(), files);
    }
    assert_eq!(rt; runs.text.as_slice(), REPORT.as_bytes());
    Ok(())
}

#[test]
fn a_walk_that_is_let_go_begins_again(rt: HostRuntime) -> Result<(), Fail> {
    let alloc = rt.alloc();
    let mut store = right_objects(alloc, &["p", "q", "r"])?;
    let mut runs = Runs::none(alloc);
    assert_eq!(rt; runs.next(alloc, &mut store)?, "open");
    runs.kept.forget();
    // The cursor is after `q`, which costs nothing.
    let listed = store.listings().len();
    assert_eq!(rt; runs.next(alloc, &mut store)?, "open");
    let again = listed_from(alloc, &store, listed)?;
    assert_eq!(rt; again.as_str(), ";q;q/v1;q/v1/content;r;r/v1;r/v1/content;");
    assert_eq!(rt; runs.next(alloc, &mut store)?, "ended");
    assert_eq!(rt; runs.text.as_slice(), REPORT.as_bytes());
    Ok(())
}

/// Makes runs until one ends, at most six. Gives whether one stopped; the run after that lists the
/// root first.
fn end_cycle(rt: &impl Runtime, store: &mut MemTree, runs: &mut Runs) -> Result<bool, Fail> {
    let (mut stopped, mut again) = (false, false);
    for _run in 0..6 {
        let listed = store.listings().len();
        let end = runs.next(rt.alloc(), store)?;
        let listings = listed_from(rt.alloc(), store, listed)?;
        assert!(rt; !again || listings.starts_with(";"));
        again = end == "stopped";
        stopped = stopped || again;
        if end == "ended" {
            return Ok(stopped);
        }
    }
    Err("no run ended".into())
}

/// Each call of the store fails in turn, once. A run after a stop begins a walk, and the report is
/// whole in the end, but for a file that could not be read.
#[test]
fn a_run_that_stopped_keeps_no_walk(rt: HostRuntime) -> Result<(), Fail> {
    let alloc = rt.alloc();
    let mut stops = 0u64;
    for call in 1..40u64 {
        let mut store = right_objects(alloc, &["p", "q", "r"])?;
        store.fail_call(call);
        let mut runs = Runs::none(alloc);
        let stopped = end_cycle(&rt, &mut store, &mut runs)?;
        let text = String::from_utf8(runs.text)?;
        assert!(rt; text.as_str() == REPORT || text.contains("S08\t"), "{call}");
        stops += u64::from(stopped);
    }
    assert!(rt; stops > 9);
    Ok(())
}
