//! What is said of a night that has ended. The words are those of the manual page.
use crate::tests::common::store::place_of;
use ocfl_cursor::{Refused, TextKind};
use ocfl_endings::ending_text;
use ocfl_item::Fault;
use ocfl_kept::names::Names;
use ocfl_report::Further;
use ocfl_state::FolderTrouble;
use ocfl_terms::{Halt, Refusal, Stop};
use std::test::Fail;

/// A night of part 2 of `/srv/root`, with its state in `/state`.
const NAMES: Names<'static> = Names {
    root: "/srv/root",
    part: Some(2),
    state: "/state",
};

#[test]
fn nights_that_ended_as_they_may_say_nothing(rt: HostRuntime) -> Result<(), Fail> {
    for halt in [Halt::CycleEnded(4), Halt::TimeUp, Halt::Spent, Halt::Asked] {
        let text = ending_text(rt.alloc(), &halt, Some("words"), Some("why"), NAMES)?;
        assert!(rt; text.is_none());
    }
    Ok(())
}

#[test]
fn nights_that_were_refused_say_why(rt: HostRuntime) -> Result<(), Fail> {
    let alloc = rt.alloc();
    for (halt, wanted) in [
        (
            Halt::Refused(Refusal::Unread(Refused::NotA(TextKind::Checkpoint))),
            "/state/checkpoint is not a checkpoint. Nothing was run.\n",
        ),
        (
            Halt::Refused(Refusal::NoRoot),
            "/srv/root does not declare itself a storage root: is its file system mounted? Nothing \
             was run.\n",
        ),
        (
            Halt::Refused(Refusal::NamesGone { gone: 7, before: 9 }),
            "7 of the 9 names in /srv/root are gone: is its file system mounted? --force-root runs \
             it anyway. Nothing was run.\n",
        ),
        (
            Halt::Refused(Refusal::OtherAudit(Further::Inventories)),
            "/state: the folder's nights are of an audit with --inventories. Nothing was run.\n",
        ),
        (
            Halt::RootChanged,
            "/srv/root is not the storage root that the night began with: is its file system \
             mounted? The run does not count; the next night makes it again.\n",
        ),
        (
            Halt::Refused(Refusal::OtherRoot(place_of(alloc, "srv/other")?)),
            "/state belongs to the storage root /srv/other, and this one is /srv/root. A root at \
             another path needs a new state folder, whose first cycle is compared with nothing. To \
             find what was lost in the move, give --expected the list that ocfl-scrub-reports \
             expected '/state' writes. Nothing was run.\n",
        ),
    ] {
        let text = ending_text(alloc, &halt, Some("words"), Some("why"), NAMES)?;
        let text = text.ok_or("nothing is said")?;
        assert_eq!(rt; text.as_str(), wanted);
    }
    Ok(())
}

#[test]
fn nights_that_stopped_say_why(rt: HostRuntime) -> Result<(), Fail> {
    let alloc = rt.alloc();
    for (halt, wanted) in [
        (
            Halt::Stopped(Fault::Store(place_of(alloc, "a")?)),
            "stopped at a (why). The next one tries that place again.\n",
        ),
        (
            Halt::Troubled(Stop::Unread(place_of(alloc, "b")?)),
            "stopped at b (why). The next one tries that place again.\n",
        ),
        (
            Halt::Stopped(Fault::Memory),
            "out of memory. The next one continues from the checkpoint.\n",
        ),
        (
            Halt::Troubled(Stop::Output),
            "output failed. The next one continues from the checkpoint.\n",
        ),
        (
            Halt::Troubled(Stop::Folder(FolderTrouble::Full)),
            "/state failed (words). The next one continues from the checkpoint.\n",
        ),
        (
            Halt::Troubled(Stop::TooLong(Vec::new(alloc))),
            "/state failed (checkpoint.new: more than 1 MiB). The next one continues from the \
             checkpoint.\n",
        ),
    ] {
        let text = ending_text(alloc, &halt, Some("words"), Some("why"), NAMES)?;
        let text = text.ok_or("nothing is said")?;
        let said = text
            .as_str()
            .strip_prefix("The night of part 2 of /srv/root stopped: ");
        assert_eq!(rt; said.unwrap_or(text.as_str()), wanted);
    }
    Ok(())
}
