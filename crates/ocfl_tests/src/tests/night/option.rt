//! Nights that check the inventories of versions.

use super::{Nights, ending, night_over, plan, site_to_check};
use crate::tests::common::Runtime;
use crate::tests::common::digests::lines_of;
use crate::tests::common::object::{LISTS_F, listing, short_digits};
use crate::tests::common::roots::right_object;
use crate::tests::common::store::{change, put};
use ocfl_memory::MemTree;
use ocfl_report::Further;
use ocfl_state::MemState;
use ocfl_terms::{NightEnd, Plan};
use std::alloc::Global;
use std::test::Fail;

/// The audit of a right object without what is checked further.
const AUDIT: &str = "ok|.|-\nok|o|-\nok|o/v1/content/f|3\n";

/// The right object `o`, whose version has an inventory of these bytes, and the sidecar of the
/// root inventory.
fn with_version(alloc: Global, inventory: &str) -> Result<MemTree, Fail> {
    let mut store = right_object(alloc)?;
    let digits = short_digits(alloc, listing(alloc, LISTS_F, "")?.as_bytes())?;
    let sidecar = format!(in alloc; "{digits} inventory.json\n")?;
    let path = "o/v1/inventory.json";
    put(alloc, &mut store, path, inventory.as_bytes())?;
    let path = "o/v1/inventory.json.sha256";
    put(alloc, &mut store, path, sidecar.as_bytes())?;
    Ok(store)
}

/// The audit of that object with what is checked further, by the lines of its version's inventory.
fn further_audit(alloc: Global, lines: &str) -> Result<String, Fail> {
    let right = listing(alloc, LISTS_F, "")?;
    let digits = short_digits(alloc, right.as_bytes())?;
    let text = format!(in alloc;
        "ok|.|-\nok|o|-\nS09|o|sha256 {digits} v1\nok|o/v1/content/f|3\n{lines}"
    )?;
    lines_of(alloc, text.as_str())
}

/// A night over this root.
fn night_in(
    folder: &mut MemState,
    tree: &mut MemTree,
    further: Further,
    plan: &Plan,
    said: &mut Vec<u8>,
) -> Result<NightEnd, Fail> {
    let alloc = *said.allocator();
    let site = site_to_check(alloc, further)?;
    night_over(alloc, folder, tree, &site, plan, said)
}

/// What the closed report of a cycle has.
fn closed_of(folder: &MemState, cycle: u64) -> Option<&[u8]> {
    let mut closed = folder.closed().iter();
    let found = closed.find(|closed| closed.cycle == cycle && closed.whole)?;
    Some(found.report.as_slice())
}

// Seen to fail if the first checkpoint of a night checks nothing further, and if the next cycle
// does not.
#[test]
fn a_flipped_inventory_of_a_version_is_found(rt: HostRuntime) -> Result<(), Fail> {
    let alloc = rt.alloc();
    let right = listing(alloc, LISTS_F, "")?;
    let flipped = right.replace(alloc, "\"v1\"", "\"v2\"")?;
    let (is, now) = (
        short_digits(alloc, right.as_bytes())?,
        short_digits(alloc, flipped.as_bytes())?,
    );
    let (mut folder, mut said) = (MemState::new(alloc), Vec::new(alloc));
    let all = plan(None, None, true)?;
    let mut store = with_version(alloc, right.as_str())?;
    let further = Further::Inventories;
    let made = night_in(&mut folder, &mut store, further, &all, &mut said)?;
    assert_eq!(rt; (ending(&made.end), made.runs), ("cycle 1 ended", 2));
    let size = right.len();
    let ok = format!(in alloc; "ok|o/v1/inventory.json|{size}\n")?;
    let audit = further_audit(alloc, ok.as_str())?;
    assert_eq!(rt; closed_of(&folder, 1), Some(audit.as_bytes()));

    let mut store = with_version(alloc, flipped.as_str())?;
    let made = night_in(&mut folder, &mut store, further, &all, &mut said)?;
    assert_eq!(rt; (ending(&made.end), made.runs), ("a cycle ended", 2));
    let wrong = format!(in alloc;
        "E060|o/v1/inventory.json|sha256 {is} {now}\nE064|o/v1/inventory.json|sha256 {is} {now}\n"
    )?;
    let found = further_audit(alloc, wrong.as_str())?;
    assert_eq!(rt; closed_of(&folder, 2), Some(found.as_bytes()));

    let mut nights = Nights::new(alloc);
    let made = nights.make_in(&mut store, &all)?;
    assert_eq!(rt; (ending(&made.end), made.runs), ("cycle 1 ended", 1));
    let common = lines_of(alloc, AUDIT)?;
    assert_eq!(rt; closed_of(&nights.folder, 1), Some(common.as_bytes()));
    Ok(())
}

/// A folder in which one night was made that checks this, of one file.
fn begun(alloc: Global, further: Further) -> Result<MemState, Fail> {
    let (mut folder, mut said) = (MemState::new(alloc), Vec::new(alloc));
    let mut store = with_version(alloc, listing(alloc, LISTS_F, "")?.as_str())?;
    let one = plan(Some(1), None, true)?;
    let made = night_in(&mut folder, &mut store, further, &one, &mut said)?;
    if made.runs != 1 {
        return Err("no run is made".into());
    }
    Ok(folder)
}

/// In the folder of one audit a night of the other is refused, and leaves it as it was.
fn expect_other_refused(
    rt: &impl Runtime,
    row: &str,
    audits: (Further, Further),
    force: bool,
    changes: &[(&str, &str)],
) -> Result<(), Fail> {
    let alloc = rt.alloc();
    let mut folder = begun(alloc, audits.0)?;
    let before = begun(alloc, audits.0)?;
    let mut store = with_version(alloc, "{}")?;
    change(alloc, &mut store, changes)?;
    let mut more = plan(Some(1), None, true)?;
    more.force_root = force;
    let mut said = Vec::new(alloc);
    let made = night_in(&mut folder, &mut store, audits.1, &more, &mut said)?;
    assert_eq!(rt; ending(&made.end), "other audit", "{row}");
    assert_eq!(rt; (made.runs, said.len()), (0, 0), "{row}");
    assert_eq!(rt;
        folder.checkpoint_bytes(),
        before.checkpoint_bytes(),
        "{row}"
    );
    assert_eq!(rt; folder.report(), before.report(), "{row}");
    let made = night_in(&mut folder, &mut store, audits.0, &more, &mut said)?;
    let taken = ending(&made.end) != "other audit";
    assert!(rt; taken, "{row}");
    Ok(())
}

// Seen to fail if the option of a checkpoint is not compared, and if `--force-root` takes it.
#[test]
fn a_night_of_another_audit_is_refused(rt: HostRuntime) -> Result<(), Fail> {
    let (without, with) = (Further::Nothing, Further::Inventories);
    let other = [("0=ocfl_1.0", "ocfl_1.0\n")];
    for (row, audits) in [("with", (without, with)), ("without", (with, without))] {
        expect_other_refused(&rt, row, audits, false, &[])?;
        expect_other_refused(&rt, row, audits, true, &[])?;
        expect_other_refused(&rt, row, audits, false, &other)?;
        expect_other_refused(&rt, row, audits, true, &other)?;
    }
    Ok(())
}

#[test]
fn a_checkpoint_says_what_its_nights_check(rt: HostRuntime) -> Result<(), Fail> {
    let alloc = rt.alloc();
    for (further, first) in [
        (Further::Nothing, b"ocfl-scrub checkpoint 1\n".as_slice()),
        (
            Further::Inventories,
            b"ocfl-scrub checkpoint 2\n".as_slice(),
        ),
    ] {
        let folder = begun(alloc, further)?;
        let text = folder.checkpoint_bytes().ok_or("no checkpoint")?;
        assert!(rt; text.starts_with(first));
    }
    Ok(())
}
