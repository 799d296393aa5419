//! Joining what the folders of parts have closed, in memory.
use crate::tests::common::closed_reports::mark_of;
use crate::tests::common::store::place_of;
use ocfl_cursor::{Cursor, PartEnds, State};
use ocfl_files::failing::Failure;
use ocfl_joining::JoinEnd;
use ocfl_mem_disk::{MemDisk, MemFile, MemParts};
use ocfl_part_folders::joining::{Joining, join_over};
use ocfl_part_folders::{ClosedFile, PartCalls};
use ocfl_report::Further;
use ocfl_say::MemOutput;
use ocfl_separators::{Separators, read_parts};
use ocfl_state::{Checkpoint, Phase, RootIdentity, TopNames, encode_checkpoint};
use std::alloc::Global;
use std::io::Read;
use std::test::Fail;

/// The closed reports of the two parts that `b` makes.
const REPORTS: [&str; 2] = ["ok\t.\t-\nok\ta\t-\n", "ok\tb\t-\n"];

/// The path of a file in the folder of a part.
fn path_in(alloc: Global, part: usize, name: &str) -> Result<String, Fail> {
    Ok(format!(in alloc; "/p/part-00000{part}{name}")?)
}

fn file(alloc: Global, part: usize, name: &str, bytes: &[u8]) -> Result<MemFile, Fail> {
    Ok(MemFile {
        path: path_in(alloc, part, name)?,
        bytes: Vec::from_slice(alloc, bytes)?,
    })
}

/// The checkpoint of a part whose first cycle is closed.
fn checkpoint(alloc: Global, part: usize) -> Result<Vec<u8>, Fail> {
    let end = Some(place_of(alloc, "b")?);
    let (from, below) = if part == 1 { (None, end) } else { (end, None) };
    let checkpoint = Checkpoint {
        root: RootIdentity {
            path: place_of(alloc, "srv")?,
            declared: [0x11; 32],
        },
        names: TopNames {
            count: 3,
            digest: [0xAB; 32],
        },
        phase: Phase::Open,
        whole: true,
        report: mark_of(b""),
        said: 0,
        left: Vec::new(alloc),
        part: Some(PartEnds { from, below }),
        cursor: Cursor::from_parts(1, 1, 4, 1, Further::Nothing, State::Ended).ok_or(
            "no such cursor",
        )?,
    };
    Ok(encode_checkpoint(alloc, &checkpoint)?)
}

/// What both parts have in their folders, of which the second has said what it found if `said`.
fn files(alloc: Global, said: bool) -> Result<Vec<MemFile>, Fail> {
    let mut all = Vec::new(alloc);
    for (part, report) in [(1, REPORTS[0]), (2, REPORTS[1])] {
        let checkpoint = checkpoint(alloc, part)?;
        all.push(file(alloc, part, "", b"")?)?;
        all.push(file(alloc, part, "/checkpoint", &checkpoint)?)?;
        all.push(file(alloc, part, "/reports/cycle-000001", report.as_bytes())?)?;
        if part == 1 || said {
            all.push(file(alloc, part, "/reports/gone-000001", b"")?)?;
        }
    }
    Ok(all)
}

fn parts(alloc: Global, files: Vec<MemFile>) -> Result<MemParts, Fail> {
    let path = String::from_str(alloc, "/p")?;
    Ok(MemParts::new(alloc, path, files, MemDisk::new(alloc)))
}

fn separators(alloc: Global) -> Result<Separators, Fail> {
    let mut text = b"b\n".as_slice();
    Ok(read_parts(alloc, &mut text)?)
}

/// Joins what there is, with this said, and gives the folder back.
fn joins_saying(
    alloc: Global,
    parts: MemParts,
    said: &str,
) -> Result<(MemParts, Result<JoinEnd, Failure>), Fail> {
    let separators = separators(alloc)?;
    let Joining { calls, out, came } = join_over(parts, &separators, MemOutput::new(alloc));
    match calls {
        Some(_) if out.text() != said.as_bytes() => Err(Fail::new("something else was said")),
        Some(parts) => Ok((parts, came)),
        None => Err(Fail::new("the folder is gone")),
    }
}

/// Joins nothing of what there is, and gives the folder back.
fn joins(alloc: Global, parts: MemParts) -> Result<(MemParts, Result<JoinEnd, Failure>), Fail> {
    joins_saying(alloc, parts, "")
}

/// The folder and the status after a joining of which all was said, and this on the output.
fn status_of(alloc: Global, parts: MemParts, said: &str) -> Result<(MemParts, u8), Fail> {
    match joins_saying(alloc, parts, said)? {
        (parts, Ok(end)) if end.said => Ok((parts, end.status)),
        (_, Ok(_)) => Err(Fail::new("a cycle that stopped was not said")),
        (_, Err(_)) => Err(Fail::new("no cycle was looked at")),
    }
}

#[test]
fn closed_reports_in_folders_are_joined(rt: HostRuntime) -> Result<(), Fail> {
    let alloc = rt.alloc();
    // (no checkpoint was kept at a closing, so the number of runs is not known)
    let word = "Cycle 1 ended: 0 of 0 files right, 2 objects, 0 bytes.\n";
    let (mut parts, status) = status_of(alloc, parts(alloc, files(alloc, true)?)?, word)?;
    assert_eq!(rt; status, 0);
    assert_eq!(rt; parts.noted(), b"".as_slice());
    let joined = b"ok\t.\t-\nok\ta\t-\nok\tb\t-\n";
    match parts.joined(1, true) {
        Ok(Some(bytes)) => assert_eq!(rt; bytes.as_slice(), joined.as_slice()),
        _ => return Err(Fail::new("nothing is joined")),
    }
    // It is compared then.
    let (parts, status) = status_of(alloc, parts, "")?;
    assert_eq!(rt; status, 0);
    assert_eq!(rt; parts.noted(), b"".as_slice());
    Ok(())
}

#[test]
fn a_part_that_has_not_said_its_closing_keeps_a_cycle(rt: HostRuntime) -> Result<(), Fail> {
    let alloc = rt.alloc();
    let (mut parts, status) = status_of(alloc, parts(alloc, files(alloc, false)?)?, "")?;
    assert_eq!(rt; status, 3);
    let said = b"ocfl-scrub: part 2: its closing of cycle 1 was not said yet\n";
    assert_eq!(rt; parts.noted(), said.as_slice());
    assert!(rt; matches!(parts.joined(1, true), Ok(None)));
    Ok(())
}

#[test]
fn a_bad_checkpoint_of_a_part_stops_a_joining(rt: HostRuntime) -> Result<(), Fail> {
    let alloc = rt.alloc();
    let mut all = Vec::new(alloc);
    all.push(file(alloc, 1, "", b"")?)?;
    all.push(file(alloc, 1, "/checkpoint", b"none")?)?;
    let (parts, came) = joins(alloc, parts(alloc, all)?)?;
    assert_eq!(rt; parts.noted(), b"".as_slice());
    let Err(
        Failure {
            status,
            text: Some(text),
        },
    ) = came
    else {
        return Err(Fail::new("it was read"));
    };
    assert_eq!(rt; status, 3);
    assert!(rt; text.as_str().starts_with("/p/part-000001/checkpoint: "));
    Ok(())
}

#[test]
fn paths_lead_to_what_parts_have_closed(rt: HostRuntime) -> Result<(), Fail> {
    let alloc = rt.alloc();
    let mut parts = parts(alloc, files(alloc, true)?)?;
    assert!(rt; parts.has("/p/part-000002")? && !parts.has("/p/part-000003")?);
    assert!(rt; !parts.has("/p/reports/cycle-000001")?);
    assert!(rt; !parts.has("/p/reports/cycle-000001.gz")?);
    assert!(rt; matches!(parts.stored_in("/p/part-000001"), Ok(Some(_))));
    assert!(rt; matches!(parts.stored_in("/p/part-000003"), Ok(None)));
    let Ok(Some(found)) = parts.closed_in("/p/part-000002", 1) else {
        return Err(Fail::new("it closed none"));
    };
    assert!(rt; found.whole && found.kept.is_none());
    let Ok(Some(closed)) = parts.open_closed("/p/part-000002", 1) else {
        return Err(Fail::new("it was not opened"));
    };
    let ClosedFile {
        mut report,
        bytes,
        ..
    } = closed;
    assert_eq!(rt; bytes, REPORTS[1].len() as u64);
    let mut text = Vec::new(alloc);
    report.read_to_end(&mut text)?;
    assert_eq!(rt; text.as_slice(), REPORTS[1].as_bytes());
    Ok(())
}
