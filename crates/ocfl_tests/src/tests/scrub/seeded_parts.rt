//! The reports of the parts of random storage roots, joined, are the audit of the root.
use super::entered::some_place;
use super::parts_of_roots::parts_between;
use super::run_figures::{equal_limits, reckoned};
use super::seeded::{Dice, grow};
use super::seeded_run::{Runs, most_runs};
use crate::tests::common::Runtime;
use crate::tests::common::store::place_of;
use ocfl_cursor::{PartEnds, decode_part, encode_part};
use ocfl_digest::Block;
use ocfl_memory::MemTree;
use ocfl_report::Further;
use ocfl_scrub::{AuditStatus, CycleStatus, Part, audit, audit_part, cycle_part, run_part};
use ocfl_tree::Place;
use std::alloc::Global;
use std::test::Fail;

/// Separators at places that have lines, near these, at the root and above all.
fn some_separators(alloc: Global, dice: &mut Dice, places: &[Place]) -> Result<Vec<Place>, Fail> {
    let mut all = Vec::new(alloc);
    for _ in 0..dice.throw(5) {
        all.push(some_place(alloc, dice, places)?)?;
    }
    if dice.throw(4) == 0 {
        all.push(Place::root(alloc))?;
    }
    if dice.throw(4) == 0 {
        all.push(place_of(alloc, "zz")?)?;
    }
    all.sort()?;
    let mut ascending: Vec<Place> = Vec::new(alloc);
    for place in all {
        if ascending.last() != Some(&place) {
            ascending.push(place)?;
        }
    }
    Ok(ascending)
}

/// The paths of the content files that were opened, oldest first.
fn contents_opened(alloc: Global, store: &MemTree) -> Result<String, Fail> {
    let mut text = String::new(alloc);
    for opening in store.openings() {
        if opening.place.path().contains("/content/") {
            text.push_str(opening.place.path())?;
            text.push(';')?;
        }
    }
    Ok(text)
}

/// Whether a call over a part may list a place: one on the way down to where the part begins, or
/// one of the part.
fn may_list(part: &Part, place: &Place) -> bool {
    let begins = match &part.from {
        Some(from) => from.starts_with(place) || place >= from,
        None => true,
    };
    match &part.end.below {
        Some(below) => begins && place < below,
        None => begins,
    }
}

/// What an audit of the part writes. It says what its own text says, and lists nothing outside.
fn audit_of(
    rt: &impl Runtime,
    row: &str,
    store: &mut MemTree,
    part: &Part,
) -> Result<String, Fail> {
    let alloc = rt.alloc();
    let listed = store.listings().len();
    let (mut block, mut out) = (Block::new(alloc)?, Vec::new(alloc));
    let end = audit_part(alloc, store, Further::Nothing, part, &mut block, &mut out);
    let text = String::from_utf8(out)?;
    assert!(rt; matches!(end.end, AuditStatus::Ended), "{row}");
    assert_eq!(rt; end.found, reckoned(text.as_str())?.found, "{row}");
    assert_eq!(rt; end.last.is_none(), text.is_empty(), "{row}");
    for place in store.listings().iter().skip(listed) {
        let path = place.path();
        assert!(rt; may_list(part, place), "{row}, listing {path}");
    }
    Ok(text)
}

/// The ends of a part, as its cursors name them.
fn ends_named(part: &Part) -> Result<PartEnds, Fail> {
    let from = match &part.from {
        Some(from) => Some(from.try_clone()?),
        None => None,
    };
    let below = match &part.end.below {
        Some(below) => Some(below.try_clone()?),
        None => None,
    };
    Ok(PartEnds { from, below })
}

/// A part, and what an audit of it writes.
#[derive(Drop)]
struct Audited<'a> {
    part: &'a Part,
    text: &'a str,
}

impl Audited<'_> {
    /// Runs with small limits of all kinds, each from the cursor as it is read from its text,
    /// write, joined, the text, and are not many. It gives their number.
    fn expect_runs(
        &self,
        rt: &impl Runtime,
        row: &str,
        store: &mut MemTree,
        dice: &mut Dice,
    ) -> Result<u64, Fail> {
        let alloc = rt.alloc();
        let ends = ends_named(self.part)?;
        let mut block = Block::new(alloc)?;
        let mut runs = Runs::new(alloc);
        for _ in 0..100u64 {
            let goes_on = runs.one_more(rt, row, dice, (6, 2), |from, limits, out| {
                let stored = encode_part(alloc, &ends, &from)?;
                let from = decode_part(alloc, &stored, &ends)?;
                Ok(run_part(alloc, store, self.part, from, limits, &mut block, out))
            })?;
            if !goes_on {
                break;
            }
        }
        runs.expect_report(rt, row, self.text)?;
        Ok(runs.cursor.runs())
    }

    /// A cycle with equal limits, as many as it may need, writes the text and ends.
    fn expect_cycle(
        &self,
        rt: &impl Runtime,
        row: &str,
        store: &mut MemTree,
        dice: &mut Dice,
    ) -> Result<(), Fail> {
        let alloc = rt.alloc();
        let budget = dice.throw(8).saturating_add(1);
        let files = dice.throw(3).saturating_add(1);
        let due = reckoned(self.text)?;
        let most = most_runs(&due, budget, files)? as usize;
        let each = equal_limits(alloc, most, budget, files)?;
        let (mut block, mut out) = (Block::new(alloc)?, Vec::new(alloc));
        let each = each.as_slice();
        let end = cycle_part(
            alloc,
            store,
            Further::Nothing,
            self.part,
            each,
            &mut block,
            &mut out,
        );
        assert_eq!(rt; String::from_utf8(out)?.as_str(), self.text, "{row}");
        assert!(rt; matches!(end.end, CycleStatus::Ended), "{row}");
        assert_eq!(rt; end.spent, u128::from(due.spent), "{row}");
        assert_eq!(rt; end.files, u128::from(due.files), "{row}");
        assert_eq!(rt; end.found, due.found, "{row}");
        Ok(())
    }
}

/// How many of the parts that were tried have no item, how many begin inside an object with some of
/// its lines, and how many took more than one run.
#[derive(Drop)]
struct Met {
    empty: usize,
    inside: usize,
    long: usize,
}

/// Storage roots of one seed, one for each of the ways in which its parts are taken.
#[derive(Drop)]
struct Sames {
    audited: MemTree,
    ran: MemTree,
    cycled: MemTree,
}

/// Takes each part of the root in each way. It gives their reports, joined.
fn all_parts(
    rt: &impl Runtime,
    row: &str,
    sames: &mut Sames,
    parts: &[Part],
    dice: &mut Dice,
    met: &mut Met,
) -> Result<String, Fail> {
    let mut joined = String::new(rt.alloc());
    for (number, part) in parts.iter().enumerate() {
        let row = format!(in rt.alloc(); "{row}, part {}", number.saturating_add(1))?;
        let row = row.as_str();
        let text = audit_of(rt, row, &mut sames.audited, part)?;
        let text = text.as_str();
        let audited = Audited { part, text };
        let runs = audited.expect_runs(rt, row, &mut sames.ran, dice)?;
        audited.expect_cycle(rt, row, &mut sames.cycled, dice)?;
        let begins_inside = part
            .from
            .as_ref()
            .is_some_and(|from| from.path().contains("/v"));
        met.empty += usize::from(text.is_empty());
        met.inside += usize::from(begins_inside && !text.is_empty());
        met.long += usize::from(runs > 1);
        joined.push_str(text)?;
    }
    Ok(joined)
}

/// The parts of the root of this seed make its audit, and open its files, each once.
fn parts_of_seed(rt: &impl Runtime, seed: u64, met: &mut Met) -> Result<(), Fail> {
    let alloc = rt.alloc();
    let row = format!(in alloc; "seed {seed}")?;
    let row = row.as_str();
    let mut whole = grow(alloc, seed)?;
    let (mut block, mut out) = (Block::new(alloc)?, Vec::new(alloc));
    let _ = audit(
        alloc,
        &mut whole.store,
        Further::Nothing,
        &mut block,
        &mut out,
    );
    let text = String::from_utf8(out)?;
    let mut dice = Dice {
        state: seed.wrapping_add(2_000_000),
    };
    let separators = some_separators(alloc, &mut dice, whole.places.as_slice())?;
    let parts = parts_between(alloc, separators.as_slice())?;
    let mut sames = Sames {
        audited: grow(alloc, seed)?.store,
        ran: grow(alloc, seed)?.store,
        cycled: grow(alloc, seed)?.store,
    };
    let joined = all_parts(rt, row, &mut sames, parts.as_slice(), &mut dice, met)?;
    assert_eq!(rt; joined.as_str(), text.as_str(), "{row}");
    let opened = contents_opened(alloc, &whole.store)?;
    let files = opened.as_str().matches(';').count() as u64;
    assert_eq!(rt; files, reckoned(text.as_str())?.files, "{row}");
    for store in [&sames.audited, &sames.ran, &sames.cycled] {
        let again = contents_opened(alloc, store)?;
        assert_eq!(rt; again.as_str(), opened.as_str(), "{row}");
    }
    Ok(())
}

#[test]
fn parts_of_random_roots_are_the_audit(rt: HostRuntime) -> Result<(), Fail> {
    let mut met = Met {
        empty: 0,
        inside: 0,
        long: 0,
    };
    for seed in 1..61 {
        parts_of_seed(&rt, seed, &mut met)?;
    }
    let (empty, inside, long) = (met.empty, met.inside, met.long);
    let are_all_met = empty > 10 && inside > 10 && long > 5;
    assert!(rt; are_all_met, "{empty} empty, {inside} inside, {long} long");
    Ok(())
}
