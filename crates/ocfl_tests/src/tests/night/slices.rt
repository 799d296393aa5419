//! The slices of one night: they list and read nothing twice.
ghost use Rattle.std.specs.Prelude.{[], false};

use super::{closed_whole, ending, night_over, plan, site};
use crate::tests::common::digests::lines_of;
use crate::tests::common::roots::{right_objects, three_files};
use crate::tests::common::store::times_opened;
use ocfl_cursor::Budget;
use ocfl_digest::Block;
use ocfl_memory::MemTree;
use ocfl_night::night;
use ocfl_state::MemState;
use ocfl_terms::{Clock, Flushing, Made};
use std::test::Fail;

/// The audit of the root with the right objects `p`, `q` and `r`.
const AUDIT: &str = "ok|.|-\nok|p|-\nok|p/v1/content/f|3\nok|q|-\nok|q/v1/content/f|3\n\
                     ok|r|-\nok|r/v1/content/f|3\n";

/// How often the directory that is listed most was listed, the storage root left out.
fn most_listed(store: &MemTree) -> usize {
    let listings = store.listings().iter();
    let times = listings.filter(|place| place.depth() > 0).map(|place| {
        let same = store.listings().iter();
        same.filter(|other| *other == place).count()
    });
    times.max().unwrap_or(0)
}

// A night of three slices lists the directories of objects once, and opens their files once. The
// root is listed twice, before the slices and by the walk. Its declaration is opened so too, and
// after each slice.
// Seen to fail if each run first reads as much again, by a walk of its own.
#[test]
fn slices_of_a_night_list_and_read_nothing_again(rt: HostRuntime) -> Result<(), Fail> {
    let alloc = rt.alloc();
    let mut store = right_objects(alloc, &["p", "q", "r"])?;
    let (mut folder, mut said) = (MemState::new(alloc), Vec::new(alloc));
    let all = plan(None, None, true)?;
    let made = night_over(
        alloc,
        &mut folder,
        &mut store,
        &site(alloc)?,
        &all,
        &mut said,
    )?;
    assert_eq!(rt; (ending(&made.end), made.runs), ("cycle 1 ended", 3));
    assert_eq!(rt;
        closed_whole(&folder),
        Some(lines_of(alloc, AUDIT)?.as_bytes())
    );
    assert_eq!(rt; most_listed(&store), 1);
    let listings = store.listings().iter();
    assert_eq!(rt; listings.filter(|place| place.depth() == 0).count(), 2);
    for opening in store.openings() {
        let path = opening.place.path();
        let times = times_opened(alloc, &store, path)?;
        let want = if opening.place.depth() > 1 { 1 } else { 5 };
        assert_eq!(rt; times, want, "{path}");
    }
    Ok(())
}

/// A clock that is so many seconds later each time that it is asked.
#[derive(Drop)]
struct Later {
    time: u64,
    step: u64,
}

impl Clock for Later {
    ghost told = { λ _. false };

    ghost events = { λ _. [] };

    fn now(&mut self) -> u64 {
        let time = self.time;
        self.time = time.saturating_add(self.step);
        time
    }

    fn is_stopped(&mut self) -> bool {
        false
    }

    fn hears(&mut self, _made: &Made) {}
}

// The files cost 4, 1 and 4, and the first slice reads one. The second reads the others, unless
// that would take more than a minute, or longer than until the end, at the rate of the first.
// Seen to fail if no run is bound by the budget of a slice.
#[test]
fn slices_shrink_to_a_minute_and_near_the_end(rt: HostRuntime) -> Result<(), Fail> {
    let alloc = rt.alloc();
    for (step, end, want, runs) in [
        (0, None, "cycle 1 ended", 2),
        (100, None, "cycle 1 ended", 2),
        (300, None, "cycle 1 ended", 3),
        (100, Some(125), "time up", 2),
    ] {
        let (mut folder, mut said) = (MemState::new(alloc), Vec::new(alloc));
        let mut store = three_files(alloc)?;
        let mut limits = plan(None, end, true)?;
        limits.slice_budget = Budget::new(4).ok_or("no budget")?;
        limits.slice_files = 9;
        let mut block = Block::new(alloc)?;
        let made = night(
            alloc,
            &mut folder,
            &mut store,
            &site(alloc)?,
            &limits,
            &mut Later { time: 5, step },
            &mut block,
            &mut Flushing::over(&mut said),
        );
        assert_eq!(rt; (ending(&made.end), made.runs), (want, runs), "{step}");
    }
    Ok(())
}
