//! The exit status after a night, and its counts.
use ocfl_cursor::Refused;
use ocfl_status::status_of as exit_status;
use ocfl_terms::{Halt, Refusal, counted, status_found, status_of};
use std::test::Fail;

#[test]
fn what_lacks_or_finds_something_has_a_status(rt: HostRuntime) -> Result<(), Fail> {
    for (lacks, finds, status) in [
        (false, false, 0),
        (false, true, 1),
        (true, false, 3),
        (true, true, 3),
    ] {
        assert_eq!(rt; exit_status(lacks, finds), status, "{lacks} {finds}");
    }
    Ok(())
}

#[test]
fn ends_have_statuses(rt: HostRuntime) -> Result<(), Fail> {
    let rows = [
        (Halt::CycleEnded(1), 0),
        (Halt::Asked, 0),
        (Halt::RootChanged, 3),
        (Halt::Refused(Refusal::NoCheckpoint), 3),
        (Halt::Refused(Refusal::Older(2)), 3),
        (Halt::Refused(Refusal::Unread(Refused::Damaged)), 4),
    ];
    for (halt, status) in rows {
        assert_eq!(rt; status_of(&halt), status);
    }
    Ok(())
}

#[test]
fn findings_have_statuses(rt: HostRuntime) -> Result<(), Fail> {
    for (lost, findings, status) in [(false, 0, 0), (false, 5, 1), (true, 5, 3)] {
        assert_eq!(rt; status_found(lost, findings), status, "{lost} {findings}");
    }
    Ok(())
}

#[test]
fn counts_have_an_end(rt: HostRuntime) -> Result<(), Fail> {
    for (old, more, count) in [
        (2, 3, 5),
        (u64::MAX - 1, 1, u64::MAX),
        (u64::MAX, 9, u64::MAX),
    ] {
        assert_eq!(rt; counted(old, more), count, "{old} {more}");
    }
    Ok(())
}
