//! Nights that are troubled, each for its reason.
use super::{Nights, Still, ending, night_over, plan, site};
use crate::tests::common::output::Narrow;
use crate::tests::common::roots::three_files;
use ocfl_digest::Block;
use ocfl_night::{Site, night};
use ocfl_report::Further;
use ocfl_state::{MOST_CHECKPOINT, MemState};
use ocfl_terms::{Flushing, Halt, Stop, status_of};
use ocfl_tree::{Name, Place};
use std::alloc::Global;
use std::test::Fail;

#[test]
fn an_output_counts_that_it_failed(rt: HostRuntime) -> Result<(), Fail> {
    let alloc = rt.alloc();
    for (room, want, failures) in [(3, "output", 1), (1 << 20, "cycle 1 ended", 0)] {
        let mut folder = MemState::new(alloc);
        let mut tree = three_files(alloc)?;
        let mut block = Block::new(alloc)?;
        let mut narrow = Narrow::new(alloc, room);
        let mut out = Flushing::over(&mut narrow);
        let made = night(
            alloc,
            &mut folder,
            &mut tree,
            &site(alloc)?,
            &plan(None, None, true)?,
            &mut Still::at(5, 1 << 32),
            &mut block,
            &mut out,
        );
        assert_eq!(rt;
            (ending(&made.end), out.failures()),
            (want, failures),
            "{room}"
        );
    }
    Ok(())
}

// Seen to fail if a night that fails to close a report ends as one whose output failed.
#[test]
fn each_failing_call_of_the_folder_is_told_as_such(rt: HostRuntime) -> Result<(), Fail> {
    for failing in 1..40 {
        let mut nights = Nights::new(rt.alloc());
        nights.folder.fail_call(failing);
        let made = nights.make(&plan(None, None, true)?)?;
        let want = match made.end {
            Halt::CycleEnded(1) if failing > 20 => "cycle 1 ended",
            _ => "folder",
        };
        assert_eq!(rt; ending(&made.end), want, "{failing}");
        let status = if want == "folder" { 3 } else { 0 };
        assert_eq!(rt; status_of(&made.end), status, "{failing}");
    }
    Ok(())
}

/// All of the root at a path with 4,200 names of 250 bytes.
fn deep_site(alloc: Global) -> Result<Site, Fail> {
    let mut name = String::new(alloc);
    for _ in 0..25 {
        name.push_str("0123456789")?;
    }
    let mut path = Place::root(alloc);
    for _ in 0..4_200 {
        path.push(Name::new(alloc, name.as_str())?)?;
    }
    Ok(Site {
        path,
        ends: None,
        further: Further::Nothing,
    })
}

#[test]
fn a_checkpoint_that_is_too_long_is_not_put(rt: HostRuntime) -> Result<(), Fail> {
    let alloc = rt.alloc();
    let mut folder = MemState::new(alloc);
    let (mut tree, mut said) = (three_files(alloc)?, Vec::new(alloc));
    let site = deep_site(alloc)?;
    let begun = plan(None, None, true)?;
    let made = night_over(alloc, &mut folder, &mut tree, &site, &begun, &mut said)?;
    let Halt::Troubled(Stop::TooLong(text)) = made.end else {
        assert_eq!(rt; ending(&made.end), "too long");
        return Ok(());
    };
    assert!(rt; text.len() > MOST_CHECKPOINT);
    assert!(rt; text.starts_with(b"ocfl-scrub checkpoint 1\nroot /0123456789"));
    assert_eq!(rt;
        (folder.checkpoint_bytes(), said.len(), made.runs),
        (None, 0, 0)
    );
    Ok(())
}
