//! Which cycles of parts are joined, on a disk in memory.
use crate::tests::common::store::place_of;
use ocfl_join_disk::{DiskCycles, JoinDisk};
use ocfl_joining::{
    Facts, FailedCall, JoinStop, JoinedLook, KeptMark, MemoryReport, PartCycles, ReportTrouble,
    end_of, failed_status, join_cycles, join_status, say_stop,
};
use ocfl_mem_disk::{MemClosed, MemDisk, MemJoinDisk};
use ocfl_report::Further;
use ocfl_say::MemOutput;
use ocfl_separators::{Separators, read_parts};
use std::alloc::Global;
use std::test::Fail;

/// The reports of the two parts that `b` makes.
const REPORTS: [&str; 2] = ["ok\t.\t-\nok\ta\t-\n", "ok\tb\t-\n"];

/// Others.
const OTHER: [&str; 2] = ["ok\t.\t-\nok\ta\t-\n", "ok\tc\t-\n"];

const ROOT: &[u8] = b"/srv/ocfl";

/// What the checkpoints of both parts say.
fn facts(alloc: Global) -> Result<Vec<Option<Facts>>, Fail> {
    let mut all = Vec::new(alloc);
    for index in 0..2 {
        let end = Some(place_of(alloc, "b")?);
        let (from, below) = if index == 0 { (None, end) } else { (end, None) };
        all.push(Some(Facts {
            root: Vec::from_slice(alloc, ROOT)?,
            from,
            below,
            further: Further::Nothing,
            last: 5,
            has_lines: true,
        }))?;
    }
    Ok(all)
}

fn separators(alloc: Global) -> Result<Separators, Fail> {
    let mut text = b"b\n".as_slice();
    Ok(read_parts(alloc, &mut text)?)
}

fn parts_of(alloc: Global, texts: [&str; 2]) -> Result<Vec<MemoryReport>, Fail> {
    let mut all = Vec::new(alloc);
    for text in texts {
        all.push(MemoryReport {
            bytes: Vec::from_slice(alloc, text.as_bytes())?,
            kept: KeptMark::NotKept,
        })?;
    }
    Ok(all)
}

/// How a cycle was closed by a part.
fn closed(cycle: u64, part: usize) -> MemClosed {
    MemClosed {
        cycle,
        part,
        whole: true,
        has_said: true,
    }
}

/// A disk on which both parts have closed the cycles up to 5, but the second none of cycle 2, and
/// where the joined report of cycle 3 is compressed. The second part has not said what it found in
/// one cycle, and its report of another one is not whole.
fn disk_with(alloc: Global, disk: MemDisk, unsaid: u64, partial: u64) -> Result<MemJoinDisk, Fail> {
    let mut all = Vec::new(alloc);
    for cycle in 1..=5 {
        all.push(closed(cycle, 1))?;
        if cycle != 2 {
            all.push(MemClosed {
                cycle,
                part: 2,
                whole: cycle != partial,
                has_said: cycle != unsaid,
            })?;
        }
    }
    let mut packed = Vec::new(alloc);
    packed.push(3)?;
    let mut disk = MemJoinDisk::new(alloc, disk, parts_of(alloc, REPORTS)?);
    disk.put_cycles(all, packed);
    Ok(disk)
}

/// Joins the cycles up to one. Gives the status, the disk and the output.
fn joins_with(
    alloc: Global,
    disk: MemJoinDisk,
    last: u64,
) -> Result<(u8, MemJoinDisk, MemOutput), Fail> {
    let (separators, facts) = (separators(alloc)?, facts(alloc)?);
    let out = MemOutput::new(alloc);
    let mut cycles = DiskCycles::over(alloc, &separators, &facts, disk, out);
    let end = join_cycles(&mut cycles, 2, last);
    match cycles.into_given() {
        (Some(disk), out) if end.said => Ok((end.status, disk, out)),
        (Some(_), _) => Err(Fail::new("a cycle that stopped was not said")),
        (None, _) => Err(Fail::new("the disk is gone")),
    }
}

/// Joins the cycles up to one, and gives the status and the disk.
fn joins(alloc: Global, disk: MemJoinDisk, last: u64) -> Result<(u8, MemJoinDisk), Fail> {
    let (status, disk, _) = joins_with(alloc, disk, last)?;
    Ok((status, disk))
}

/// The cycles up to 5 of which a joined report is there, that is whole or not.
fn joined_on(alloc: Global, disk: &mut MemJoinDisk, whole: bool) -> Result<Vec<u64>, Fail> {
    let mut all = Vec::new(alloc);
    for cycle in 1..=5 {
        if disk.open_joined(cycle, whole).is_ok() {
            all.push(cycle)?;
        }
    }
    Ok(all)
}

#[test]
fn cycles_that_are_due_are_joined(rt: HostRuntime) -> Result<(), Fail> {
    let alloc = rt.alloc();
    let disk = disk_with(alloc, MemDisk::new(alloc), 0, 0)?;
    let (status, mut disk) = joins(alloc, disk, 5)?;
    assert_eq!(rt; status, 0);
    assert_eq!(rt;
        joined_on(alloc, &mut disk, true)?.as_slice(),
        [1, 4, 5].as_slice()
    );
    assert_eq!(rt; disk.noted(), b"".as_slice());
    // They are not made again, and the last one is compared.
    let (status, mut disk) = joins(alloc, disk, 5)?;
    assert_eq!(rt; status, 0);
    assert_eq!(rt;
        joined_on(alloc, &mut disk, true)?.as_slice(),
        [1, 4, 5].as_slice()
    );
    disk.put_parts(parts_of(alloc, OTHER)?);
    let (status, disk) = joins(alloc, disk, 5)?;
    assert_eq!(rt; status, 3);
    let said = b"ocfl-scrub: part 2: its report of cycle 5 could not be joined\n";
    assert_eq!(rt; disk.noted(), said.as_slice());
    Ok(())
}

#[test]
fn the_output_is_given_the_word_on_each_report_once(rt: HostRuntime) -> Result<(), Fail> {
    let alloc = rt.alloc();
    let disk = disk_with(alloc, MemDisk::new(alloc), 0, 4)?;
    let (_, disk, out) = joins_with(alloc, disk, 5)?;
    // (the word of this disk is the cycle, and whether the report is whole)
    assert_eq!(rt; out.text(), [1, 1, 4, 0, 5, 1].as_slice());
    let (_, _, out) = joins_with(alloc, disk, 5)?;
    assert_eq!(rt; out.text(), b"".as_slice());
    Ok(())
}

#[test]
fn parts_that_hinder_the_last_cycle_are_named(rt: HostRuntime) -> Result<(), Fail> {
    let alloc = rt.alloc();
    for (hindered, status, said) in [
        (
            5,
            3,
            "ocfl-scrub: part 2: its closing of cycle 5 was not said yet\n",
        ),
        (4, 0, ""),
    ] {
        let disk = disk_with(alloc, MemDisk::new(alloc), hindered, 0)?;
        let (found, mut disk) = joins(alloc, disk, 5)?;
        assert_eq!(rt; found, status, "{hindered}");
        assert_eq!(rt; disk.noted(), said.as_bytes(), "{hindered}");
        let joined = if hindered == 5 { [1, 4] } else { [1, 5] };
        assert_eq!(rt;
            joined_on(alloc, &mut disk, true)?.as_slice(),
            joined.as_slice()
        );
    }
    Ok(())
}

#[test]
fn what_a_joined_report_lacks_is_said(rt: HostRuntime) -> Result<(), Fail> {
    let alloc = rt.alloc();
    let disk = disk_with(alloc, MemDisk::new(alloc), 0, 4)?;
    let (status, mut disk) = joins(alloc, disk, 5)?;
    assert_eq!(rt; status, 3);
    assert_eq!(rt;
        joined_on(alloc, &mut disk, true)?.as_slice(),
        [1, 5].as_slice()
    );
    assert_eq!(rt;
        joined_on(alloc, &mut disk, false)?.as_slice(),
        [4].as_slice()
    );
    let said = b"ocfl-scrub: part 2: its report is not whole\n\
        ocfl-scrub: the joined report of cycle 4 lacks what these parts left out: incomplete\n";
    assert_eq!(rt; disk.noted(), said.as_slice());
    Ok(())
}

#[test]
fn each_part_whose_report_was_changed_is_named(rt: HostRuntime) -> Result<(), Fail> {
    let alloc = rt.alloc();
    let mut disk = disk_with(alloc, MemDisk::new(alloc), 0, 0)?;
    let mut parts = Vec::new(alloc);
    for (text, kept) in [
        ("ok\t.\t-\nok\tb\t-\n", KeptMark::NotKept),
        (REPORTS[1], KeptMark::Damaged),
    ] {
        parts.push(MemoryReport {
            bytes: Vec::from_slice(alloc, text.as_bytes())?,
            kept,
        })?;
    }
    disk.put_parts(parts);
    let (status, mut disk) = joins(alloc, disk, 1)?;
    assert_eq!(rt; status, 3);
    let said = b"ocfl-scrub: part 1: its report of cycle 1 was changed\n\
        ocfl-scrub: part 2: its report of cycle 1 was changed\n";
    assert_eq!(rt; disk.noted(), said.as_slice());
    assert_eq!(rt; joined_on(alloc, &mut disk, true)?.len(), 0);
    Ok(())
}

/// More calls than the joinings make of a disk.
const MANY: u64 = 60;

/// Whether lines say of just these cycles that their joining failed.
fn says_failed(alloc: Global, said: &[u8], cycles: &[u64]) -> Result<bool, Fail> {
    let mut wanted = String::new(alloc);
    for cycle in cycles {
        let line = format!(in alloc; "ocfl-scrub: the joining of cycle {cycle} failed\n")?;
        wanted.push_str(line.as_str())?;
    }
    Ok(said == wanted.as_bytes())
}

/// The cycles that are due and not among these.
fn lacking_in(alloc: Global, joined: &[u64]) -> Result<Vec<u64>, Fail> {
    let mut lacking = Vec::new(alloc);
    for cycle in [1, 4, 5] {
        if !joined.contains(&cycle) {
            lacking.push(cycle)?;
        }
    }
    Ok(lacking)
}

/// Of a disk that keeps what it began to write, one call fails: of the cycles 1, 4 and 5 each is
/// said that is not joined then. The last one that is joined may have its name and be said too, as
/// one that a power cut may take.
#[test]
fn a_cycle_that_fails_is_said(rt: HostRuntime) -> Result<(), Fail> {
    let alloc = rt.alloc();
    let mut failed = 0;
    for number in 1..MANY {
        let mut mem = MemDisk::new(alloc);
        mem.fail_call(number);
        let disk = disk_with(alloc, mem, 0, 0)?;
        let (status, mut disk) = joins(alloc, disk, 5)?;
        let noted = Vec::from_slice(alloc, disk.noted())?;
        let joined = joined_on(alloc, &mut disk, true)?;
        if status == 0 {
            assert_eq!(rt; noted.len(), 0, "{number}");
            continue;
        }
        failed += 1;
        assert_eq!(rt; status, 3, "{number}");
        if joined.len() == 3 {
            // All have their names: one was not brought to the disk, or the call looked for
            // another.
            let mut one = 0;
            for cycle in 1..=5 {
                if says_failed(alloc, noted.as_slice(), &[cycle])? {
                    one += 1;
                }
            }
            assert_eq!(rt; one, 1, "{number}");
            continue;
        }
        let lacking = lacking_in(alloc, joined.as_slice())?;
        assert!(rt;
            says_failed(alloc, noted.as_slice(), lacking.as_slice())?,
            "{number}"
        );
    }
    assert!(rt; failed > 10 && failed < MANY - 1);
    Ok(())
}

#[test]
fn no_cycle_before_1_000_others_is_joined(rt: HostRuntime) -> Result<(), Fail> {
    let alloc = rt.alloc();
    let disk = disk_with(alloc, MemDisk::new(alloc), 0, 0)?;
    let (status, mut disk) = joins(alloc, disk, 1_004)?;
    // No part has closed the last one.
    assert_eq!(rt; status, 3);
    assert_eq!(rt;
        joined_on(alloc, &mut disk, true)?.as_slice(),
        [4, 5].as_slice()
    );
    let said =
        b"ocfl-scrub: part 1: it closed no report\nocfl-scrub: part 2: it closed no report\n";
    assert_eq!(rt; disk.noted(), said.as_slice());
    // Of cycle 0 nothing is there.
    let (status, _) = joins(alloc, disk, 0)?;
    assert_eq!(rt; status, 3);
    Ok(())
}

#[test]
fn what_is_there_of_a_cycle_is_seen(rt: HostRuntime) -> Result<(), Fail> {
    let alloc = rt.alloc();
    let disk = disk_with(alloc, MemDisk::new(alloc), 0, 0)?;
    let (_status, disk) = joins(alloc, disk, 4)?;
    let (separators, facts) = (separators(alloc)?, facts(alloc)?);
    let out = MemOutput::new(alloc);
    let mut cycles = DiskCycles::over(alloc, &separators, &facts, disk, out);
    for (cycle, look) in [
        (1, JoinedLook::There { whole: true }),
        (3, JoinedLook::Packed),
        (5, JoinedLook::Away),
    ] {
        assert_eq!(rt; cycles.look(cycle).ok(), Some(look), "{cycle}");
    }
    assert_eq!(rt; cycles.has_closed(2, 1).ok(), Some(true));
    assert_eq!(rt; cycles.has_closed(2, 2).ok(), Some(false));
    let whole = cycles.join(5, None, true);
    assert_eq!(rt; whole.ok(), Some(Some(true)));
    assert_eq!(rt; join_status(end_of(true, Some(true))), 0);
    let end = cycles.fail(5, &JoinStop::Unsaid);
    assert_eq!(rt; (end.status, end.said), (3, true));
    Ok(())
}

#[test]
fn what_the_system_says_of_a_call_is_said(rt: HostRuntime) -> Result<(), Fail> {
    let alloc = rt.alloc();
    let call = Some(FailedCall {
        status: 75,
        text: String::from_str(alloc, "S: no space")?,
    });
    let failed = ReportTrouble::Failed;
    let part = JoinStop::Part {
        part: 2,
        why: failed,
    };
    for (stop, status, line) in [
        (
            part,
            75,
            "part 2: its report of cycle 7 could not be joined: S: no space",
        ),
        (
            JoinStop::Output(failed),
            75,
            "the joining of cycle 7 failed: S: no space",
        ),
        (JoinStop::Output(ReportTrouble::Memory), 3, "out of memory"),
        (JoinStop::Memory, 3, "out of memory"),
        (JoinStop::Unsaid, 3, "output failed"),
    ] {
        assert_eq!(rt; failed_status(&stop, &call), status, "{line}");
        let said = say_stop(alloc, 7, &stop, &call)?;
        let wanted = format!(in alloc; "ocfl-scrub: {line}\n")?;
        assert_eq!(rt; said.as_str(), wanted.as_str());
    }
    Ok(())
}
