//! The report as a night finds it, beside what the checkpoint keeps of it.
use ocfl_state::{
    FolderTrouble, FoundReport, MemState, ReportMark, StateFolder, append_marked, digests_of_front,
    digests_of_report, find_report, may_close_whole,
};
use std::alloc::Global;
use std::test::Fail;

/// The report of which there is a mark.
const REPORT: &str = "ok|a|1\nok|b|2\n";

/// What became of it: cut to a length, and appended to; whether it is found whole; and the bytes
/// whose digests are found.
const FOUND: [(&str, u64, &str, bool, &str); 6] = [
    ("unchanged", 14, "", true, REPORT),
    ("longer", 14, "ok|c", true, REPORT),
    ("shorter", 13, "", false, "ok|a|1\nok|b|2"),
    ("changed", 7, "ok|c|3\n", false, "ok|a|1\nok|c|3\n"),
    (
        "changed and longer",
        7,
        "ok|c|3\nok|d|4\n",
        false,
        "ok|a|1\nok|c|3\n",
    ),
    ("gone", 0, "", false, ""),
];

fn folder_of(alloc: Global, report: &str) -> Result<MemState, Fail> {
    let mut folder = MemState::new(alloc);
    folder.append(report.as_bytes())?;
    Ok(folder)
}

fn mark_of(alloc: Global, report: &str) -> Result<ReportMark, Fail> {
    let mut folder = folder_of(alloc, report)?;
    Ok(digests_of_report(&mut folder)?.summary())
}

#[test]
fn a_report_is_found_whole_or_lost(rt: HostRuntime) -> Result<(), Fail> {
    let mark = mark_of(rt.alloc(), REPORT)?;
    for (row, most, more, whole, want) in FOUND {
        let mut folder = folder_of(rt.alloc(), REPORT)?;
        folder.cut(most)?;
        folder.append(more.as_bytes())?;
        let (found_whole, digests) = match find_report(&mut folder, &mark)? {
            FoundReport::Whole(digests) => (true, digests),
            FoundReport::Lost(digests) => (false, digests),
        };
        assert_eq!(rt; found_whole, whole, "{row}");
        assert!(rt; digests.summary() == mark_of(rt.alloc(), want)?, "{row}");
        let front = digests_of_front(&mut folder, mark.bytes)?;
        assert!(rt; front.summary() == mark_of(rt.alloc(), want)?, "{row}");
        let closes = row == "unchanged";
        assert_eq!(rt; may_close_whole(&mut folder, &mark, true)?, closes, "{row}");
        assert!(rt; !may_close_whole(&mut folder, &mark, false)?, "{row}");
    }
    Ok(())
}

#[test]
fn a_report_is_not_found_where_a_call_fails(rt: HostRuntime) -> Result<(), Fail> {
    let mark = mark_of(rt.alloc(), "ok|c|3\nok|d|4\n")?;
    let mut failed = 0;
    for number in 1..10 {
        let mut folder = folder_of(rt.alloc(), REPORT)?;
        folder.fail_call(number);
        match find_report(&mut folder, &mark) {
            Ok(FoundReport::Whole(_)) => return Err("found".into()),
            Ok(FoundReport::Lost(_)) => break,
            Err(trouble) => assert_eq!(rt; trouble, FolderTrouble::Failed, "{number}"),
        }
        failed += 1;
    }
    // The length, a read for the tail, and one for all.
    assert_eq!(rt; failed, 3);
    Ok(())
}

#[test]
fn a_mark_goes_on_with_the_report(rt: HostRuntime) -> Result<(), Fail> {
    let mut folder = folder_of(rt.alloc(), "ok|a|1\n")?;
    let mut mark = mark_of(rt.alloc(), "ok|a|1\n")?;
    mark = append_marked(&mut folder, &mark, b"")?;
    mark = append_marked(&mut folder, &mark, b"ok|b|2\n")?;
    assert!(rt; mark == mark_of(rt.alloc(), REPORT)?);
    assert_eq!(rt; folder.report(), REPORT.as_bytes());
    folder.cut(13)?;
    assert_eq!(rt;
        append_marked(&mut folder, &mark, b"ok|c|3\n").err(),
        Some(FolderTrouble::Failed)
    );
    assert_eq!(rt; folder.report(), &REPORT.as_bytes()[..13]);
    Ok(())
}

#[test]
fn nothing_is_appended_where_a_call_fails(rt: HostRuntime) -> Result<(), Fail> {
    let mark = mark_of(rt.alloc(), REPORT)?;
    for (number, want) in [
        (1, REPORT),
        (2, REPORT),
        (3, REPORT),
        (4, "ok|a|1\nok|b|2\nmore"),
    ] {
        let mut folder = folder_of(rt.alloc(), REPORT)?;
        folder.fail_call(number);
        let failed = append_marked(&mut folder, &mark, b"more").err();
        assert_eq!(rt; failed, Some(FolderTrouble::Failed), "{number}");
        assert_eq!(rt; folder.report(), want.as_bytes(), "{number}");
    }
    Ok(())
}
