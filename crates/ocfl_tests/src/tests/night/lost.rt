//! Nights over a report that is another one than its checkpoint says.
use super::{AUDIT, FIRST, after_one_night, closed_whole, ending, night_of, plan};
use crate::tests::common::Runtime;
use crate::tests::common::digests::lines_of;
use crate::tests::common::output::Narrow;
use ocfl_state::{MemState, StateFolder, decode_checkpoint};
use sha2::{Digest, Sha256};
use std::alloc::Global;
use std::test::Fail;

#[test]
fn a_report_that_lost_its_end_is_closed_as_incomplete(rt: HostRuntime) -> Result<(), Fail> {
    let alloc = rt.alloc();
    let length = FIRST.len() as u64;
    for most in 0..length {
        let mut folder = after_one_night(alloc)?;
        folder.cut(most)?;
        let mut said = Vec::new(alloc);
        let made = night_of(alloc, &mut folder, &plan(Some(0), None, false)?, &mut said)?;
        assert_eq!(rt; (ending(&made.end), made.lost), ("spent", true), "{most}");
        let text = folder.checkpoint_bytes().ok_or("no checkpoint")?;
        let checkpoint = decode_checkpoint(alloc, text)?;
        let (whole, bytes) = (checkpoint.whole, checkpoint.report.bytes);
        assert_eq!(rt; (whole, bytes, checkpoint.said), (false, most, most));
        let made = night_of(alloc, &mut folder, &plan(None, None, false)?, &mut said)?;
        assert_eq!(rt;
            (ending(&made.end), made.lost),
            ("cycle 1 ended", false),
            "{most}"
        );
        assert!(rt;
            folder.closed().len() == 1 && !folder.closed()[0].whole,
            "{most}"
        );
    }
    Ok(())
}

/// Puts these bytes in place of the report.
fn replace_report(folder: &mut MemState, bytes: &[u8]) -> Result<(), Fail> {
    folder.cut(0)?;
    folder.append(bytes)?;
    Ok(())
}

/// The same bytes, but for one of them.
fn with_another_byte(alloc: Global, bytes: &[u8], place: usize) -> Result<Vec<u8>, Fail> {
    let mut changed = bytes.to_vec(alloc)?;
    changed[place] = b'X';
    Ok(changed)
}

// Seen to fail if each night says that bytes of its report were lost.
#[test]
fn a_report_with_another_byte_is_lost_once(rt: HostRuntime) -> Result<(), Fail> {
    let alloc = rt.alloc();
    for place in 0..FIRST.len() {
        let mut folder = after_one_night(alloc)?;
        let changed = with_another_byte(alloc, folder.report(), place)?;
        replace_report(&mut folder, &changed)?;
        let mut said = Vec::new(alloc);
        let made = night_of(alloc, &mut folder, &plan(Some(0), None, false)?, &mut said)?;
        assert_eq!(rt; (ending(&made.end), made.lost), ("spent", true), "{place}");
        assert!(rt; said.is_empty(), "{place}");
        assert_eq!(rt; folder.report(), changed.as_slice(), "{place}");
        let text = folder.checkpoint_bytes().ok_or("no checkpoint")?;
        let checkpoint = decode_checkpoint(alloc, text)?;
        assert_eq!(rt; checkpoint.report.tail, Sha256::digest(&changed), "{place}");
        let long = changed.len() as u64;
        assert_eq!(rt;
            (checkpoint.whole, checkpoint.said),
            (false, long),
            "{place}"
        );
        let made = night_of(alloc, &mut folder, &plan(None, None, false)?, &mut said)?;
        assert_eq!(rt;
            (ending(&made.end), made.lost),
            ("cycle 1 ended", false),
            "{place}"
        );
        assert!(rt; closed_whole(&folder).is_none(), "{place}");
    }
    Ok(())
}

/// A folder whose report is to be closed, and not said yet.
fn before_closing(alloc: Global) -> Result<MemState, Fail> {
    let mut folder = MemState::new(alloc);
    let mut narrow = Narrow::new(alloc, 0);
    let _ = night_of(alloc, &mut folder, &plan(None, None, true)?, &mut narrow)?;
    Ok(folder)
}

/// A night closes this report, which was another one when it was to be closed.
fn expect_incomplete(rt: &impl Runtime, report: &[u8], lost: bool) -> Result<(), Fail> {
    let alloc = rt.alloc();
    let mut folder = before_closing(alloc)?;
    replace_report(&mut folder, report)?;
    let mut said = Vec::new(alloc);
    let made = night_of(alloc, &mut folder, &plan(Some(0), None, false)?, &mut said)?;
    let long = report.len();
    assert_eq!(rt;
        (ending(&made.end), made.lost),
        ("cycle 1 ended", lost),
        "{long}"
    );
    assert!(rt; closed_whole(&folder).is_none(), "{long}");
    assert_eq!(rt; folder.closed()[0].report.as_slice(), report, "{long}");
    Ok(())
}

#[test]
fn a_report_that_was_changed_before_it_is_closed_is_incomplete(
    rt: HostRuntime,
) -> Result<(), Fail> {
    let alloc = rt.alloc();
    let audit = lines_of(alloc, AUDIT)?;
    for place in 0..audit.len() {
        expect_incomplete(&rt, &audit.as_bytes()[..place], true)?;
        let changed = with_another_byte(alloc, audit.as_bytes(), place)?;
        expect_incomplete(&rt, &changed, true)?;
    }
    // Nothing of it was lost, but it has more than its checkpoint says.
    let longer = lines_of(alloc, "ok|.|-\nok|o|-\n")?;
    let mut report = audit.as_bytes().to_vec(alloc)?;
    report.extend_from_slice(longer.as_bytes())?;
    expect_incomplete(&rt, &report, false)
}
